//! The calls of the system on a real directory, and the clock of the machine, which the layers below see as a `Clock` alone.
//!
//! - `host`, `directory` and `flush` make the calls. No proof shows that a method makes the call that it notes, nor that the files are
//!   opened as is told there, so these are to be read.
//! - `helpers` are threads by which several files are made safe at once, and `pace` is how fast the disk is.
//! - `clock` is the clock.
#![tactic(auto)]

mod clock;
mod directory;
mod flush;
mod helpers;
mod host;
mod pace;

pub use clock::WallClock;
pub use flush::Flush;
pub use helpers::{FlushMany, HELPERS, Helpers};
pub use host::Host;
