//! The byte that each kind of thing begins with.

pub(crate) const NULL: u8 = 0;

pub(crate) const FALSE: u8 = 1;

pub(crate) const TRUE: u8 = 2;

pub(crate) const INT: u8 = 3;

pub(crate) const TEXT: u8 = 4;

pub(crate) const LIST: u8 = 5;

pub(crate) const FLOW: u8 = 1;

pub(crate) const ENTITY: u8 = 2;

pub(crate) const CLIENT: u8 = 3;

pub(crate) const NOBODY: u8 = 0;

pub(crate) const TASK: u8 = 1;

pub(crate) const REQUEST: u8 = 2;

pub(crate) const DONE: u8 = 0;

pub(crate) const FAILED: u8 = 1;

pub(crate) const STARTED: u8 = 2;

pub(crate) const EXISTS: u8 = 3;

pub(crate) const UNKNOWN: u8 = 4;

pub(crate) const RAISED: u8 = 5;

pub(crate) const ENDED: u8 = 6;

pub(crate) const MISSING: u8 = 7;

pub(crate) const RUNNING: u8 = 8;

pub(crate) const VALUE: u8 = 9;

pub(crate) const START: u8 = 0x10;

pub(crate) const RAISE: u8 = 0x11;

pub(crate) const QUERY: u8 = 0x12;

pub(crate) const WAIT: u8 = 0x13;

pub(crate) const RESULT: u8 = 0x14;

pub(crate) const OPERATE: u8 = 0x15;

pub(crate) const LOCK: u8 = 0x16;

pub(crate) const GRANTED: u8 = 0x17;

pub(crate) const RELEASE: u8 = 0x18;
