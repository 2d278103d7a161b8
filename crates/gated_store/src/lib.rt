//! The store of many partitions, whose gate compares: a frame is committed only where what it took from other partitions is what they
//! settled. So no entry that depends on one that was given up is ever committed, whatever packets said.
//!
//! - `local`: what is fixed of each partition when a call begins (`Local`), and the start of the logs by it (`Gated`).
//! - `store`: the logs, and what others see of each partition; `begin` and `end`.
//! - `body`, `sync`, `gate`, `settle`: the calls of a frame, and `commits` all of them for an entry that takes nothing from others;
//!   `together`: one call that makes several files safe; `reopen`: what follows one that failed; `restart`: a new incarnation; `say`.
//! - `marks`: what is settled, as others are told; `looks`: what can be looked at; `refusal`: why a call refuses; `laws`: what holds between calls.
//! - `specs/Kept` is what holds between calls (`IsKept`), `specs/Keeps` what each call keeps, `specs/Follows` what may be committed, and
//!   `specs/Causal` that what was settled stands behind all that it depends on.
#![tactic(auto)]

mod begin;
mod body;
mod commits;
mod end;
mod gate;
mod laws;
mod local;
mod looks;
mod marks;
mod refusal;
mod reopen;
mod restart;
mod say;
mod settle;
mod store;
mod sync;
mod together;

pub use commits::commit;
pub use local::{Gated, Local};
pub use refusal::{BodyRefused, GateRefusal, SayRefusal};
pub use store::GatedStore;
