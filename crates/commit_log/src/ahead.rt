// The bytes that a log's reader holds ahead of its gate.
ghost use Rattle.std.specs.Prelude.{◌≡◌, ◌≤◌, ◌<◌, ℕ, List, [], Err, IfOk, length, take, drop, ◌+◌, ◌^◌, IfErr};
ghost use Rattle.site_model.specs.History.{content_of};
ghost use Rattle.site_model.specs.Calls.{HasRisen};

use crate::reader::FrameError;
use site_model::Site;
use std::alloc::Global;
use std::marker::Model;

/// The bytes that were read, from the next gate on. A clause sees them as a list.
#[derive(Drop)]
pub(crate) struct Ahead {
    bytes: Vec<u8>,
    from: usize,
}

impl Model for Ahead {
    ghost use Rattle.std.specs.Prelude.{List, ℕ, ◌≤◌, length, drop};

    ghost Value = { List ℕ };

    ghost view = { λ a. drop a.from a.bytes.items };

    ghost invariant = { λ a. a.from ≤ length a.bytes.items };
}

impl Ahead {
    /// None were read yet. This takes no memory.
    pub fn none(alloc: Global) -> Ahead
        ensures { result ≡ [] }
    {
        Ahead {
            bytes: Vec::new(alloc),
            from: 0,
        }
    }

    /// The bytes, where they lie.
    pub fn as_bytes(&self) -> &[u8]
        ensures { result.now ≡ self.now }
    {
        &self.bytes[self.from..]
    }

    /// The bytes behind the first `count`.
    pub fn behind(self, count: usize) -> Ahead
        requires { count ≤ length self }
        ensures { result ≡ drop count self }
    {
        let Ahead { bytes, from } = self;
        Ahead {
            bytes,
            from: from + count,
        }
    }

    /// Memory for so many bytes: that of the read before where it was as long, else new.
    fn room(self, alloc: Global, count: usize) -> Result<Vec<u8>, FrameError>
        ensures long { IfOk result (λ bytes. length bytes.items ≡ count) }
        ensures cause { IfErr result (λ error. error ≡ FrameError.Memory) }
    {
        let bytes = self.bytes;
        if bytes.len() == count {
            return Ok(bytes);
        }
        drop(bytes);
        match vec![in alloc; 0; count] {
            Ok(bytes) => Ok(bytes),
            Err(_) => Err(FrameError::Memory),
        }
    }

    /// In place of these, so many bytes of a file from the gate at this offset on, by one read.
    pub fn read<V: Site>(
        self,
        alloc: Global,
        site: &mut V,
        file: u32,
        gate: u64,
        count: usize,
    ) -> Result<Ahead, FrameError>
        requires { gate + 1 < 2 ^ 31 }
        ensures tells { V.tells site.new → V.tells site.old }
        ensures front { V.tells site.new → IfOk result
            (λ ahead. ahead ≡ take count (drop gate (content_of file (V.history site.old)))) }
        ensures whole { IfOk result (λ ahead. length ahead ≡ count) }
        ensures short { V.tells site.new → (offset : ℕ) → result ≡ Err (FrameError.Damaged offset)
            → length (drop gate (content_of file (V.history site.old))) < count }
        ensures unchanged { V.history site.new ≡ V.history site.old }
        ensures fault { result ≡ Err FrameError.SiteFault
            → HasRisen (V.disk_faults site.old) (V.disk_faults site.new) }
        ensures later { V.disk_faults site.old ≤ V.disk_faults site.new }
        ensures say_faults { V.say_faults site.new ≡ V.say_faults site.old }
    {
        let mut bytes = self.room(alloc, count)?;
        match site.read(file, gate, &mut bytes) {
            Ok(found) => {
                // The file is shorter than it was.
                if found < count {
                    return Err(FrameError::Damaged {
                        offset: if found == 0 { gate } else { gate + 1 },
                    });
                }
                Ok(Ahead { bytes, from: 0 })
            }
            Err(_) => Err(FrameError::SiteFault),
        }
    }
}
