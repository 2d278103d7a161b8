//! A site over calls of the system. Each call is noted with its answer, and the site's history is what follows from
//! these notes. So what is promised of a real directory rests on one premise, which speaks of answers alone: each is
//! that of files that nobody else wrote.
//!
//! - `calls`: the calls, and what no answer tells.
//! - `fault`: how an error of the system becomes a counted fault.
//! - `file_name`: which numbers are files, and their names.
//! - `site`: the site. What it does at each call stands in `reading`, `writing`, `syncing`, `syncing_files` and
//!   `printing`, over calls alone, which `again` makes again after a signal, and `known` is what it knows of its history.
//! - `record`: the list of calls of an implementation, and `reason`: why a call failed, beside the system's error.
//! - `laws`: what follows from the definitions.
#![tactic(auto)]

mod again;
mod calls;
mod fault;
mod file_name;
mod known;
mod laws;
mod printing;
mod reading;
mod reason;
mod record;
mod site;
mod syncing;
mod syncing_files;
mod writing;

pub use calls::{Calls, Start, Unknown};
pub use fault::{Fault, FaultPlace, counted};
pub use file_name::{FileName, PartKind};
pub use laws::{
    a_failed_sync_stays, a_file_reads_as_it_was_held, a_lost_write_leaves_what_was_unseen,
    a_sync_counts_where_names_are_safe, a_wrong_answer_is_seen, an_error_has_its_call,
    an_honest_answer_exists, honest_answers_tell, just_failed_calls_count, the_past_stays,
};
pub use reason::Reason;
pub use record::Record;
pub use site::CalledSite;
