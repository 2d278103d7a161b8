//! Laws of the order in which recovered entries were accepted. They are said of the definitions alone: the functions do nothing.
//!
//! - `laws`: what files stand for after a crash does not hang on that order.
#![tactic(auto)]

mod laws;
