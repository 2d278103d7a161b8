//! Saying an answer, and hearing of a later moment.

ghost use Rattle.std.specs.Prelude.{◌≡◌, ◌≢◌, ◌<◌, ◌≤◌, ◌++◌, ◌↔◌, [], ◌∷◌, true, false, length, max, None, Err, OnOk, OnErr, IfSome};
ghost use Rattle.std.specs.Option.{option_map};
ghost use Rattle.gated_store.specs.Keeps.{turned};
ghost use Rattle.gated_store.specs.Kept.{IsKept};
ghost use Rattle.hub_store.specs.Changes.{trail_in, told_in, asked, HasHalted};

use crate::local::Local;
use crate::refusal::SayRefusal;
use crate::store::{GatedStore, next_turn};
use dura_value::Name;
use hub_store::SayError;
use site_model::Site;

impl<V: Site, L: Local> GatedStore<V, L> {
    /// Says the line that answers a request as what was settled has it, if that does.
    pub fn say(&mut self, client: &Name, number: u32, line: Option<&[u8]>) -> Result<(), SayRefusal>
        requires kept { IsKept L.origin.count L.ledgers L.readers L.may_make self.old }
        requires going { self.old.logs.halted ≡ false }
        requires answer { L.answer (trail_in self.old.logs) (asked client.now number)
            ≡ option_map (λ l. l.now) line }
        requires some { IfSome line (λ l. 0 < length l.now) }
        requires may { IfSome line (λ l. L.may_say (trail_in self.old.logs)
            (told_in self.old.logs) (asked client.now number) l.now) }
        ensures kept { IsKept L.origin.count L.ledgers L.readers L.may_make self.new }
        ensures tells { V.tells self.new.logs.site → V.tells self.old.logs.site }
        ensures ok { OnOk result (told_in self.new.logs
            ≡ told_in self.old.logs ++ asked client.now number ∷ []) }
        ensures err { OnErr result (told_in self.new.logs ≡ told_in self.old.logs) }
        ensures not_answered { result ≡ Err SayRefusal.NotAnswered
            ↔ L.answer (trail_in self.old.logs) (asked client.now number) ≡ None }
        ensures unchanged { result ≡ Err SayRefusal.NotAnswered → self.new.logs ≡ self.old.logs }
        ensures trail { trail_in self.new.logs ≡ trail_in self.old.logs }
        ensures ways { self.new.logs.ways ≡ self.old.logs.ways }
        ensures ledgers { self.new.ledgers ≡ self.old.ledgers }
        ensures memory { result ≡ Err SayRefusal.Memory
            → (self.new.logs.site ≡ self.old.logs.site) × (self.new.logs.halted ≡ false) }
        ensures segment { self.new.logs.segment ≡ self.old.logs.segment }
        ensures latest { self.new.logs.latest ≡ self.old.logs.latest }
        ensures whole { result ≢ Err SayRefusal.SayFault
            → self.new.logs.cut ≡ self.old.logs.cut }
        ensures turns { self.new.turns ≡ turned self.old.turns }
        ensures still { OnOk result (self.new.logs.halted ≡ false) }
        ensures halts { result ≡ Err SayRefusal.SayFault → self.new.logs.halted ≡ true }
        ensures halted { HasHalted (V.say_faults self.old.logs.site)
            (V.say_faults self.new.logs.site) self.new.logs.halted }
        ensures disk_faults { V.disk_faults self.new.logs.site
            ≡ V.disk_faults self.old.logs.site }
    {
        self.turns = next_turn(self.turns);
        let Some(line) = line else {
            return Err(SayRefusal::NotAnswered);
        };
        match self.logs.say(client, number, line) {
            Ok(()) => Ok(()),
            Err(SayError::SayFault) => Err(SayRefusal::SayFault),
            Err(SayError::Memory) => Err(SayRefusal::Memory),
        }
    }

    /// From now on what is committed may be of this moment, or of an earlier one.
    pub fn raise(&mut self, moment: u64)
        requires kept { IsKept L.origin.count L.ledgers L.readers L.may_make self.old }
        ensures kept { IsKept L.origin.count L.ledgers L.readers L.may_make self.new }
        ensures latest { self.new.logs.latest ≡ max self.old.logs.latest moment }
        ensures site { self.new.logs.site ≡ self.old.logs.site }
        ensures ways { self.new.logs.ways ≡ self.old.logs.ways }
        ensures trail { trail_in self.new.logs ≡ trail_in self.old.logs }
        ensures told { told_in self.new.logs ≡ told_in self.old.logs }
        ensures segment { self.new.logs.segment ≡ self.old.logs.segment }
        ensures halted { self.new.logs.halted ≡ self.old.logs.halted }
        ensures whole { self.new.logs.cut ≡ self.old.logs.cut }
        ensures ledgers { self.new.ledgers ≡ self.old.ledgers }
        ensures turns { self.new.turns ≡ self.old.turns }
    {
        self.logs.raise(moment);
    }
}
