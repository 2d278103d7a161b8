// Reading a log frame by frame.
ghost use Rattle.std.specs.Prelude.{◌≡◌, ◌≤◌, ◌<◌, ◌+◌, ◌-◌, ◌^◌, ℕ, List, Err, IfOk, length, min, take, drop};
ghost use Rattle.site_model.specs.History.{changes_of, content_of, IsKept};
ghost use Rattle.site_model.specs.Calls.{HasRisen};
ghost use Rattle.commit_log.specs.Frames.{HasRead};
ghost use Rattle.commit_log.specs.Reading.{IsAhead, Goes, StaysAhead, RestsAtEnd, StaysInFile};

use crate::parse::parse_gate;
use crate::payload::Payload;
use crate::reader::{FrameError, LogReader, Next};
use crate::states::Resting;
use site_model::Site;
use std::alloc::{AllocError, Global};
use std::cmp::{max, min};

/// The length that no segment reaches.
const END: u64 = 1 << 31;

/// How many bytes are read ahead by one read, where so many are left of the file.
const PIECE: u64 = 1 << 20;

impl LogReader {
    /// The log with so many bytes read ahead, or all up to its end where there are fewer, by one read at most.
    fn reaching<V: Site>(
        self,
        alloc: Global,
        site: &mut V,
        wanted: u64,
    ) -> Result<LogReader, FrameError>
        ensures tells { V.tells site.new → V.tells site.old }
        ensures ahead { V.tells site.new
            → IsAhead (content_of self.file (V.history site.old)) self
            → IfOk result (IsAhead (content_of self.file (V.history site.old))) }
        ensures reached { IfOk result (λ reader. min wanted (self.size - self.gate)
            ≤ length reader.ahead) }
        ensures short { V.tells site.new → (offset : ℕ) → result ≡ Err (FrameError.Damaged offset)
            → length (content_of self.file (V.history site.old)) < self.size }
        ensures place { IfOk result (λ reader. (reader.file ≡ self.file)
            × (reader.header ≡ self.header) × (reader.gate ≡ self.gate)
            × (reader.size ≡ self.size)) }
        ensures unchanged { V.history site.new ≡ V.history site.old }
        ensures fault { result ≡ Err FrameError.SiteFault
            → HasRisen (V.disk_faults site.old) (V.disk_faults site.new) }
        ensures later { V.disk_faults site.old ≤ V.disk_faults site.new }
        ensures say_faults { V.say_faults site.new ≡ V.say_faults site.old }
    {
        let left = self.size.saturating_sub(self.gate);
        if self.ahead.as_bytes().len() as u64 >= min(wanted, left) {
            return Ok(self);
        }
        let LogReader {
            file,
            header,
            gate,
            size,
            ahead,
        } = self;
        let count = min(left, max(wanted, PIECE)) as usize;
        let ahead = ahead.read(alloc, site, file, gate, count)?;
        Ok(LogReader {
            file,
            header,
            gate,
            size,
            ahead,
        })
    }

    /// Reads the frame behind the next gate, if that is open. Where it wasn't read ahead, one read fetches 1 MiB from the gate on, or the
    /// frame where that is longer, or what is left. A length is looked at against the file's before memory is taken for it.
    pub fn next<V: Site>(self, alloc: Global, site: &mut V) -> Result<Next, FrameError>
        ensures tells { V.tells site.new → V.tells site.old }
        ensures found { V.tells site.new
            → IsAhead (content_of self.file (V.history site.old)) self
            → (payloads : List (List ℕ))
            → HasRead (content_of self.file (V.history site.old)) self.header payloads self.gate
            → Goes (content_of self.file (V.history site.old)) self payloads result }
        ensures ahead { V.tells site.new
            → IsAhead (content_of self.file (V.history site.old)) self
            → StaysAhead (content_of self.file (V.history site.old)) result }
        ensures rests { V.tells site.new
            → IsAhead (content_of self.file (V.history site.old)) self
            → (payloads : List (List ℕ))
            → HasRead (content_of self.file (V.history site.old)) self.header payloads self.gate
            → IsKept (changes_of self.file (V.history site.old))
            → RestsAtEnd (V.history site.new) self.header payloads result }
        ensures unchanged { V.history site.new ≡ V.history site.old }
        ensures place { StaysInFile self result }
        ensures fault { result ≡ Err FrameError.SiteFault
            → HasRisen (V.disk_faults site.old) (V.disk_faults site.new) }
        ensures later { V.disk_faults site.old ≤ V.disk_faults site.new }
        ensures say_faults { V.say_faults site.new ≡ V.say_faults site.old }
    {
        let reader = self.reaching(alloc, site, 5)?;
        let gate = reader.gate;
        let payload_len = match parse_gate(gate, reader.ahead.as_bytes()) {
            Ok(Some(payload_len)) => payload_len,
            Ok(None) => {
                return Ok(Next::End(Resting {
                    file: reader.file,
                    gate,
                }));
            }
            Err(error) => return Err(error),
        };
        let next = gate + 5 + payload_len as u64;
        if next >= reader.size || next + 1 >= END {
            return Err(FrameError::Damaged { offset: gate + 1 });
        }
        let reader = reader.reaching(alloc, site, 5 + payload_len as u64)?;
        match reader.take_frame(alloc, payload_len as usize) {
            Ok((payload, behind)) => Ok(Next::Frame(payload, behind)),
            Err(_) => Err(FrameError::Memory),
        }
    }

    /// The payload of this length behind an open gate, all of which was read ahead, and the log behind it.
    fn take_frame(
        self,
        alloc: Global,
        payload_len: usize,
    ) -> Result<(Payload, LogReader), AllocError>
        requires there { 5 + payload_len ≤ length self.ahead }
        requires below { self.gate + 6 + payload_len < 2 ^ 31 }
        ensures payload { IfOk result (λ found. found.0
            ≡ take payload_len (drop 5 self.ahead)) }
        ensures ahead { IfOk result (λ found. found.1.ahead
            ≡ drop (5 + payload_len) self.ahead) }
        ensures place { IfOk result (λ found. (found.1.file ≡ self.file)
            × (found.1.header ≡ self.header) × (found.1.size ≡ self.size)
            × (found.1.gate ≡ self.gate + 5 + payload_len)) }
    {
        let LogReader {
            file,
            header,
            gate,
            size,
            ahead,
        } = self;
        let end = 5 + payload_len;
        let payload = Payload::copy_of(alloc, &ahead.as_bytes()[5..end])?;
        let behind = LogReader {
            file,
            header,
            gate: gate + end as u64,
            size,
            ahead: ahead.behind(end),
        };
        Ok((payload, behind))
    }
}
