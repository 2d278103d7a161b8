//! Values, the words that name things, and the digest of bytes. `specs/Ids` says who sends and receives messages, and which
//! partition each of them lives in.
//!
//! - `text` is a bounded text, `data` the values that flows compute with, and `names` short words.
//! - `messages` is what instances, entities and clients say, `outputs` what a step makes of it, and `outcome` what an activity or
//!   an instance came to.
//! - `identity` is an entry by its partition, incarnation and position, a message that it sent, and where an incarnation began.
//! - `same_messages` tells whether two messages are the same.
//! - `digest` is a digest of 64 bits.
//! - `carrying` has a value go along with a step that may fail.
//! - `limits` has the limits of the format, which `specs/Limits` states, and `sizes` holds lists against them.
#![tactic(auto)]

mod addresses;
mod carrying;
mod compare;
mod data;
mod digest;
mod faults;
mod identity;
mod limits;
mod messages;
mod names;
mod outcome;
mod outputs;
mod reading;
mod same_lists;
mod same_messages;
mod same_spots;
mod sizes;
mod spots;
mod text;

pub use addresses::{Id, home};
pub use carrying::with;
pub use data::{Scalar, Scalars, Value};
pub use digest::fnv1a_64;
pub use faults::ReadError;
pub use identity::{Floor, Identity, Posted, is_same_entry};
pub use limits::{
    NUMBER_LIMIT, SCALARS_BYTES_LIMIT, SCALARS_LIMIT, SPOTS_LIMIT, TEXT_BYTES_LIMIT,
    VALUE_BYTES_LIMIT, WORD_BYTES_LIMIT,
};
pub use messages::{Answer, Body, Message, Reply, Request};
pub use names::{Key, Name, is_key, is_name};
pub use outcome::Outcome;
pub use outputs::{Answered, Answers, Messages, Outputs};
pub use sizes::are_short;
pub use spots::{Spot, Spots};
pub use text::{Text, TextError};
