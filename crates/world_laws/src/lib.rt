//! Laws of every life of the world. They are said of the definitions alone: the functions do nothing.
//!
//! - `specs/Made`: all entries that were made in a life, and what the world has of them. `specs/Lives`: lives, from their first worlds on.
//!   `specs/Depends`: what an entry that was made depends on, through any number of entries between.
//! - `laws`: what is picked passes its gate, so that none ever refuses; all entries that were made are known still, whatever happens; and
//!   once each cell was judged by what is known of the logs, none holds what depends on an entry that was given up.
#![tactic(auto)]

mod laws;
