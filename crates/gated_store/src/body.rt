//! Writing a frame.

ghost use Rattle.std.specs.Prelude.{◌≡◌, ◌⊎◌, ◌<◌, ◌≤◌, ◌++◌, ◌↔◌, ◌+◌, ◌^◌, ℕ, length, true, false, Some, Err, OnOk};
ghost use Rattle.std.specs.List.{All};
ghost use Rattle.commit_gate.specs.Keeping.{GoesInside, AreOfOne};
ghost use Rattle.commit_gate.specs.Ledgers.{log_length, after_frame};
ghost use Rattle.commit_gate.specs.Unlost.{IsFrameUnlost};
ghost use Rattle.commit_gate.specs.Views.{all_sent, floors_of};
ghost use Rattle.commit_gate.specs.declared.ledger.Sending.{Sending as OneSending};
ghost use Rattle.gated_store.specs.Keeps.{turned, KeepsGate};
ghost use Rattle.gated_store.specs.Kept.{IsKept};
ghost use Rattle.hub_store.specs.Changes.{stage_at, going_at, trail_in, told_in};
ghost use Rattle.hub_store.specs.Frames.{goes_on, GoesBehind, length_with};
ghost use Rattle.hub_store.specs.Trail.{of_part};
ghost use Rattle.hub_store.specs.Ways.{way_of};
ghost use Rattle.log_items.specs.Plain.{entries_of};
ghost use Rattle.site_model.specs.Calls.{HasRisen};
ghost use Rattle.log_items.specs.Entries.{items_in};

use crate::local::Local;
use crate::refusal::BodyRefused;
use crate::store::{GatedStore, next_turn};
use commit_gate::Sending;
use hub_store::{Stage, Unwritten};
use log_items::Frame;
use site_model::Site;
use std::alloc::Global;

impl<V: Site, L: Local> GatedStore<V, L> {
    /// Writes a frame of a partition behind the closed gate of its log, with what its entries send to others: it may be made by the
    /// partition's own state, and no incarnation of the partition gave any of it up. There is room then for all that settling it adds.
    /// A frame that isn't written comes back, with what it sends.
    pub fn body(
        &mut self,
        alloc: Global,
        part: u32,
        frame: Frame,
        sending: Vec<Sending>,
    ) -> Result<(), BodyRefused>
        requires kept { IsKept L.origin.count L.ledgers L.readers L.may_make self.old }
        requires going { self.old.logs.halted ≡ false }
        requires place { part < L.origin.count }
        requires rests { stage_at self.old.logs part ≡ Stage.Resting }
        requires behind { GoesBehind (goes_on (L.origin.logs part)
            (of_part part (trail_in self.old.logs))) (entries_of frame) }
        requires numbers { log_length (L.ledgers part (of_part part (trail_in self.old.logs)))
            + length frame ≤ 2 ^ 62 }
        requires inside { All (GoesInside L.origin.count) (all_sent sending.items) }
        requires fits { AreOfOne L.origin.count (items_in (entries_of frame)) }
        requires may { L.may_make self.old.logs.latest (of_part part (trail_in self.old.logs))
            (told_in self.old.logs) part (entries_of frame) }
        requires makes { L.ledgers part (of_part part (trail_in self.old.logs)
            ++ entries_of frame)
            ≡ after_frame (L.ledgers part (of_part part (trail_in self.old.logs)))
            (entries_of frame) (all_sent sending.items) }
        requires unlost { IsFrameUnlost
            (log_length (L.ledgers part (of_part part (trail_in self.old.logs))))
            (floors_of self.old.ledgers.items part) (entries_of frame) }
        ensures kept { IsKept L.origin.count L.ledgers L.readers L.may_make self.new }
        ensures keeps { KeepsGate part self.old self.new }
        ensures ok { OnOk result ((stage_at self.new.logs part ≡ Stage.Bodied)
            × (going_at self.new.logs part ≡ Some (entries_of frame))) }
        ensures trail { trail_in self.new.logs ≡ trail_in self.old.logs }
        ensures full { self.old.logs.segment
            ≤ length_with (way_of self.old.logs.ways.items part) (entries_of frame)
            → (result ≡ Err (BodyRefused.Memory frame sending))
            ⊎ (result ≡ Err (BodyRefused.Full
            (length_with (way_of self.old.logs.ways.items part) (entries_of frame)) frame
            sending)) }
        ensures room { (n : ℕ) (back : _) (unsent : _)
            → result ≡ Err (BodyRefused.Full n back unsent)
            → (back ≡ frame) × (unsent ≡ sending) × (self.old.logs.segment ≤ n)
            × (n ≡ length_with (way_of self.old.logs.ways.items part) (entries_of frame))
            × (V.history self.new.logs.site ≡ V.history self.old.logs.site)
            × (stage_at self.new.logs part ≡ Stage.Resting)
            × (self.new.turns ≡ self.old.turns) }
        ensures way { (n : ℕ) (back : _) (unsent : _)
            → result ≡ Err (BodyRefused.Full n back unsent)
            → way_of self.new.logs.ways.items part ≡ way_of self.old.logs.ways.items part }
        ensures memory { (back : _) (unsent : _)
            → result ≡ Err (BodyRefused.Memory back unsent)
            → (back ≡ frame) × (unsent ≡ sending)
            × (V.history self.new.logs.site ≡ V.history self.old.logs.site)
            × (stage_at self.new.logs part ≡ Stage.Resting)
            × (self.new.turns ≡ self.old.turns) }
        ensures broken { result ≡ Err BodyRefused.SiteFault
            → (stage_at self.new.logs part ≡ Stage.BrokenBody)
            × (going_at self.new.logs part ≡ Some (entries_of frame))
            × (self.new.turns ≡ turned self.old.turns) }
        ensures turns { OnOk result (self.new.turns ≡ turned self.old.turns) }
        ensures halts { result ≡ Err BodyRefused.SiteFault ↔ self.new.logs.halted ≡ true }
        ensures still { OnOk result (self.new.logs.halted ≡ false) }
        ensures fault { self.new.logs.halted ≡ true → HasRisen
            (V.disk_faults self.old.logs.site) (V.disk_faults self.new.logs.site) }
    {
        let place = part as usize;
        let count = frame.entries().len();
        if self.ledgers[place].make_room(count, &sending).is_err() {
            return Err(BodyRefused::Memory { frame, sending });
        }
        match self.logs.body(alloc, part, frame) {
            Ok(()) => {
                self.turns = next_turn(self.turns);
                let Some(frame) = self.logs.frame(part) else {
                    unreachable!()
                };
                self.ledgers[place].begin_frame(frame, sending);
                Ok(())
            }
            Err(Unwritten::SiteFault) => {
                self.turns = next_turn(self.turns);
                let Some(frame) = self.logs.frame(part) else {
                    unreachable!()
                };
                self.ledgers[place].begin_frame(frame, sending);
                Err(BodyRefused::SiteFault)
            }
            Err(Unwritten::Memory(frame)) => Err(BodyRefused::Memory { frame, sending }),
            Err(
                Unwritten::Full {
                    partition: _,
                    length,
                    frame,
                },
            ) => Err(BodyRefused::Full {
                length,
                frame,
                sending,
            }),
        }
    }
}
