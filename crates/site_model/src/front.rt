// Reading the front of a file at once.
ghost use Rattle.std.specs.Prelude.{◌≡◌, ◌≤◌, take, IfOk};
ghost use Rattle.site_model.specs.History.{content_of};
ghost use Rattle.site_model.specs.Calls.{HasRisen};

use crate::Site;
use std::alloc::Global;

/// Why bytes could not be read.
#[derive(Clone, Copy, PartialEq, Eq)]
pub enum FrontError {
    /// The site failed.
    Failed,
    /// Memory ran out.
    Memory,
}

/// The first `most` bytes of a file, or all where it has fewer, by one read.
pub fn read_front<V: Site>(
    alloc: Global,
    site: &mut V,
    file: u32,
    most: u64,
) -> Result<Vec<u8>, FrontError>
    ensures tells { V.tells site.new → V.tells site.old }
    ensures front { V.tells site.new → IfOk result
        (λ v. v.items ≡ take most (content_of file (V.history site.old))) }
    ensures unchanged { V.history site.new ≡ V.history site.old }
    ensures later { V.disk_faults site.old ≤ V.disk_faults site.new }
    ensures failed { result ≡ Err FrontError.Failed
        → HasRisen (V.disk_faults site.old) (V.disk_faults site.new) }
    ensures say_faults { V.say_faults site.new ≡ V.say_faults site.old }
{
    let mut bytes = match vec![in alloc; 0; most as usize] {
        Ok(bytes) => bytes,
        Err(_) => return Err(FrontError::Memory),
    };
    match site.read(file, 0, &mut bytes) {
        Ok(count) => {
            bytes.truncate(count);
            Ok(bytes)
        }
        Err(_) => Err(FrontError::Failed),
    }
}
