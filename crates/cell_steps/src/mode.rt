//! How far entries may run ahead.

/// How far entries may run ahead.
#[derive(Clone, Copy)]
pub enum Mode {
    /// Not at all: an entry is settled before the next is made.
    None,
    /// Within the partition: messages to others go out once their entry is settled.
    Local,
    /// Everywhere: messages go out at once.
    Global,
}
