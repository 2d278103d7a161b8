//! Which items are within the limits of the format. What is may be written, and is read again.
//!
//! - `values` looks at values, `messages` at what is said, and `items` at what a log keeps.
//!
//! Names, keys, texts and numbers of 32 bits or with a sign are kept within the limits by their types. They are read all the
//! same, since a proof learns what a type keeps where its value is read.

mod items;
mod messages;
mod values;

pub use items::item_fits;
