// Files that threads make safe.
use std::fs::File;
use std::io;
use std::io::ErrorKind;
use std::sync::{Arc, OnceLock};
use task_pool::Task;

/// Where a file stands once it is opened, for all threads. Its memory is taken before.
pub(crate) type FileSlot = Arc<OnceLock<File>>;

/// A file that is to be made safe.
#[derive(Drop)]
pub struct Flush {
    pub(crate) number: u32,
    pub(crate) slot: FileSlot,
}

impl Task for Flush {
    ghost use Rattle.site_host.specs.Flush.{is_safe};

    ghost is_done = { is_safe };

    ghost number_of = { λ flush. flush.number };

    fn number(&self) -> u32 {
        self.number
    }

    // The one call that makes the file safe.
    fn run(&self, _round: u64) -> io::Result<()> {
        match self.slot.get() {
            Some(file) => file.sync_all(),
            None => Err(io::Error::from(ErrorKind::NotFound)),
        }
    }
}
