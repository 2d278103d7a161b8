//! What activities and instances come to.

use crate::data::Value;
use crate::text::Text;

/// What an activity, an instance or an entity's operation came to.
#[derive(Clone, Drop)]
pub enum Outcome {
    /// It ended with a value.
    Done(Value),
    /// It failed with a text.
    Failed(Text),
}
