//! Laws of frames that go on a log. They are said of the definitions alone: the functions do nothing.

ghost use Rattle.std.specs.Prelude.{List};
ghost use Rattle.dura_value.specs.Items.{Entry};
ghost use Rattle.part_items.specs.Numbered.{Next, IsNumbered};
ghost use Rattle.part_items.specs.ItemFits.{FitsFrame};
ghost use Rattle.hub_store.specs.Frames.{GoesBehind};

/// A frame within the limits of the format, whose entries are numbered on from where a log goes on, goes behind it.
#[tactic(auto, using(crate::proofs::FramesGo::frame_goes))]
pub fn frames_go_behind()
    ensures { (next : Next) (going : List Entry) → FitsFrame going → IsNumbered next going
        → GoesBehind next going }
{}
