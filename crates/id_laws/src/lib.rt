//! Laws of ids: how they are compared, that their written forms are read back, that their order is that of their written forms, and
//! that the offset of a fault is where the longest prefix ends that begins one. They are said of the definitions alone: the functions
//! do nothing.
#![tactic(auto)]

mod laws;
