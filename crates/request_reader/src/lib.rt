//! The requests file: what clients ask, a line for each request.
//!
//! - `json` looks into JSON, `values` reads the values of users, and `line` the request of a line.
//! - `progress` keeps what was read so far, and `requests` reads a file.
//! - `error` is why there is nothing.
#![tactic(auto)]

mod error;
mod json;
mod line;
mod progress;
mod requests;
mod values;

pub use error::RequestsError;
pub use requests::{asks_same, read_requests};
