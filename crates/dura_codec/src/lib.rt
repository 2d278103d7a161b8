//! Values, ids and messages as bytes, and back.
//!
//! A reader accepts what the grammar in `specs/Grammar` reads, and nothing else.
//!
//! - `fields` reads numbers, `words` names, keys and texts, `values`, `ids` and `messages` what is made of them; `reading`
//!   names a fault by its offset.
//! - `numbers` and `writing` write, by `specs/Spelling`.
#![tactic(auto)]

mod fields;
mod ids;
mod messages;
mod numbers;
mod reading;
mod tags;
mod values;
mod words;
mod writing;

pub use fields::{
    FieldError, take_count, take_request_number, take_u8, take_u16, take_u32, take_u64,
};
pub use ids::{take_id, take_reply};
pub use messages::{take_answer, take_body, take_message, take_outcome};
pub use numbers::{write_u16, write_u32, write_u64};
pub use reading::{
    read_answer, read_id, read_key, read_message, read_name, read_reply, read_value,
};
pub use values::{take_scalar, take_value};
pub use words::{take_key, take_name, take_text};
pub use writing::{
    write_answer, write_body, write_id, write_key, write_message, write_name, write_outcome,
    write_reply, write_text, write_value,
};
