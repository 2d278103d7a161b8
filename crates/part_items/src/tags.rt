//! The byte that each kind of item begins with, and how many items and entries there are.

pub(crate) const TOOK: u8 = 0x20;

pub(crate) const GOT: u8 = 0x21;

pub(crate) const RAN: u8 = 0x22;

pub(crate) const DONE: u8 = 0x23;

pub(crate) const FIRED: u8 = 0x24;

pub(crate) const TRIM: u8 = 0x25;

/// The most items of an entry and entries of a frame.
pub(crate) const MEMBERS_LIMIT: u16 = 64;
