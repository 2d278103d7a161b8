//! Examples of the world's definitions: which events can't happen (`events`), what comes of events, of judging all cells and of deeds, and
//! what doesn't (`comes`), what makes a life (`lives`), what joins lives (`joined`), and what judging all cells comes to (`judged`).
#![tactic(auto)]

mod comes;
mod events;
mod joined;
mod judged;
mod lives;
