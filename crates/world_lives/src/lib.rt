//! A life of the world, from one opening of its files to the end: what becomes of any list of deeds, whatever comes again or late.
//!
//! - `living` opens the logs and goes on with what they keep ([`live`]). `shape` is how it goes on ([`Shape`]), and `lived` what there was of
//!   it ([`Lived`]).
//! - `beginning` makes a life over a new store. `deed` is what is done in a life ([`Deed`]): an event happens, or all cells are judged.
//!   `doing` does one, and `playing` one after another. `ending` lets go of a life.
//! - `specs/Lives`: what deeds make of the world one after another, and what a life leaves (`IsLife`). `specs/Begins`: its
//!   rules.
#![tactic(auto)]

mod beginning;
mod deed;
mod doing;
mod ending;
mod lived;
mod living;
mod playing;
mod shape;

pub use deed::Deed;
pub use lived::Lived;
pub use living::live;
pub use shape::Shape;
