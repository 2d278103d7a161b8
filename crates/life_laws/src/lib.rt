//! Laws of the lives of a world. They are said of the definitions alone: the functions do nothing.
//!
//! - `laws`: a life over a site that tells is one of those that are joined (`join_laws`); and the run that the settled states of a life's
//!   cells show (`specs/Composed`).
#![tactic(auto)]

mod laws;
