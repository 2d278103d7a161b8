//! An input file.

ghost use Rattle.std.specs.Prelude.{◌≡◌, ◌≤◌, Err, IfErr};
ghost use Rattle.run_inputs.specs.Input.{IsFileCause, LengthRead, FileRead};
ghost use Rattle.site_model.specs.Calls.{HasRisen};
ghost use Rattle.site_model.specs.History.{content_of};

use run_causes::Cause;
use site_model::{FrontError, Site, read_front};
use std::alloc::Global;

/// The most bytes of an input file.
const INPUT_LIMIT: u64 = 16_777_216;

/// The length of a file, unless it is too long.
fn input_length<V: Site>(site: &mut V, file: u32) -> Result<u64, Cause>
    ensures tells { V.tells site.new → V.tells site.old }
    ensures reads { V.tells site.new → LengthRead (content_of file (V.history site.old)) file
        result }
    ensures file_cause { IfErr result IsFileCause }
    ensures unchanged { V.history site.new ≡ V.history site.old }
    ensures later { V.disk_faults site.old ≤ V.disk_faults site.new }
    ensures fault { result ≡ Err Cause.SiteFault
        → HasRisen (V.disk_faults site.old) (V.disk_faults site.new) }
    ensures say_faults { V.say_faults site.new ≡ V.say_faults site.old }
{
    match site.length(file) {
        Ok(length) => {
            if length > INPUT_LIMIT {
                Err(Cause::TooLong { file })
            } else {
                Ok(length)
            }
        }
        Err(_) => Err(Cause::SiteFault),
    }
}

/// The bytes of a file, unless it is too long.
pub(crate) fn read_file<V: Site>(alloc: Global, site: &mut V, file: u32) -> Result<Vec<u8>, Cause>
    ensures tells { V.tells site.new → V.tells site.old }
    ensures reads { V.tells site.new → FileRead (content_of file (V.history site.old)) file result }
    ensures file_cause { IfErr result IsFileCause }
    ensures unchanged { V.history site.new ≡ V.history site.old }
    ensures later { V.disk_faults site.old ≤ V.disk_faults site.new }
    ensures fault { result ≡ Err Cause.SiteFault
        → HasRisen (V.disk_faults site.old) (V.disk_faults site.new) }
    ensures say_faults { V.say_faults site.new ≡ V.say_faults site.old }
{
    let length = input_length(site, file)?;
    match read_front(alloc, site, file, length) {
        Ok(bytes) => Ok(bytes),
        Err(FrontError::Failed) => Err(Cause::SiteFault),
        Err(FrontError::Memory) => Err(Cause::Memory),
    }
}
