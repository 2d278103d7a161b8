//! What may not be longer or greater.

/// The most bytes of a name and of a key.
pub const WORD_BYTES_LIMIT: usize = 64;

/// The most bytes of a text.
pub const TEXT_BYTES_LIMIT: usize = 4096;

/// The most scalars of a list.
pub const SCALARS_LIMIT: usize = 1024;

/// The most bytes of a value.
pub const VALUE_BYTES_LIMIT: usize = 65_536;

/// The most bytes of a list's scalars, which stand behind the tag and the count.
pub const SCALARS_BYTES_LIMIT: usize = 65_533;

/// The most entities of a lock's set.
pub const SPOTS_LIMIT: usize = 16;

/// Numbers of 64 bits are below this.
pub const NUMBER_LIMIT: u64 = 1 << 63;
