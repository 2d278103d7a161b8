//! Which packets are let go of where an entry that sent one is lost.

ghost use Rattle.std.specs.Prelude.{◌≡◌, IfOk, OnOk};
ghost use Rattle.spec_tracker.specs.Marks.{identity_of, floors_of};
ghost use Rattle.cell_waits.specs.CutStreams.{goes, cut_behind};
ghost use Rattle.cell_waits.specs.Waits.{wait_of, sender_of, lost_by};

use crate::wait::{Wait, sender_of};
use spec_tracker::{Dep, Marks, Verdict};
use std::alloc::AllocError;

/// Whether an entry was given up.
#[tactic(auto, using(crate::proofs::Losing::is_lost, crate::proofs::Losing::not_lost))]
fn is_lost(marks: &Marks, entry: &Dep) -> bool
    ensures { result ≡ lost_by (floors_of marks.now) (identity_of entry.now) }
{
    match marks.verdict(entry) {
        Verdict::Lost => true,
        Verdict::Ready | Verdict::Undecided => false,
    }
}

/// Whether this goes, as a packet that is lost or comes behind one of its stream. The partitions whose streams are cut are kept.
pub(crate) fn goes(cut: &mut Vec<u32>, marks: &Marks, wait: &Wait) -> Result<bool, AllocError>
    ensures goes { IfOk result (λ is. is ≡ goes (lost_by (floors_of marks.now)) cut.old.items
        (sender_of (wait_of wait.now).item)) }
    ensures cut { OnOk result (cut.new.items ≡ cut_behind (lost_by (floors_of marks.now))
        cut.old.items (sender_of (wait_of wait.now).item)) }
{
    let Some(entry) = sender_of(wait) else {
        return Ok(false);
    };
    if cut.contains(&entry.src) {
        return Ok(true);
    }
    if !is_lost(marks, &entry) {
        return Ok(false);
    }
    cut.push(entry.src)?;
    Ok(true)
}
