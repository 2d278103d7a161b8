//! What reaches instances and entities, and what they make: events, messages, and what is asked for.
//!
//! - `events`: what reaches an instance.
//! - `made`: what an instance sends and asks for.
//! - `entities`: entities.
//! - `sends`: the messages that answer, release and pass locks on.
//! - `results`: the values of several results.
//! - `copies`: copies of what messages have.
//! - `specs/Views`: the plain data that these stand for.
#![tactic(auto)]

mod copies;
mod entities;
mod events;
mod made;
mod results;
mod sends;

pub use copies::{
    copy_id, copy_key, copy_name, copy_outcome, copy_reply, copy_spots, copy_text, copy_value,
};
pub use entities::Entity;
pub use events::{Event, Past};
pub use made::{Asked, Made};
pub use results::all_values;
pub use sends::{answer_reply, entity_id, pass_on, release_all, word_text};
