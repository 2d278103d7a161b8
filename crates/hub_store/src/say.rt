//! Saying an answer.

ghost use Rattle.std.specs.Prelude.{◌≡◌, ◌≢◌, ◌<◌, ◌++◌, [], ◌∷◌, true, false, length, Err, IfOk, OnOk, OnErr};
ghost use Rattle.hub_store.specs.Changes.{trail_in, told_in, asked, HasHalted};
ghost use Rattle.hub_store.specs.Sound.{IsSound};

use crate::refusal::SayError;
use crate::start::Start;
use crate::store::Store;
use crate::trail::Said;
use dura_value::Name;
use site_model::Site;
use std::alloc::AllocError;

/// A copy with memory of its own.
fn copy_of(name: &Name) -> Result<Name, AllocError>
    ensures { IfOk result (λ copy. copy ≡ name.now) }
{
    name.clone()
}

impl<V: Site, N: Start> Store<V, N> {
    /// Says a line, which isn't empty, as the answer to a request.
    pub fn say(&mut self, client: &Name, number: u32, line: &[u8]) -> Result<(), SayError>
        requires sound { IsSound self.old }
        requires going { self.old.halted ≡ false }
        requires some { 0 < length line.now }
        requires may { N.may_say (trail_in self.old) (told_in self.old) (asked client.now number)
            line.now }
        ensures tells { V.tells self.new.site → V.tells self.old.site }
        ensures sound { IsSound self.new }
        ensures ok { OnOk result (told_in self.new
            ≡ told_in self.old ++ asked client.now number ∷ []) }
        ensures err { OnErr result (told_in self.new ≡ told_in self.old) }
        ensures trail { trail_in self.new ≡ trail_in self.old }
        ensures ways { self.new.ways ≡ self.old.ways }
        ensures memory { result ≡ Err SayError.Memory
            → (self.new.site ≡ self.old.site) × (self.new.halted ≡ false) }
        ensures segment { self.new.segment ≡ self.old.segment }
        ensures latest { self.new.latest ≡ self.old.latest }
        ensures whole { result ≢ Err SayError.SayFault → self.new.cut ≡ self.old.cut }
        ensures still { OnOk result (self.new.halted ≡ false) }
        ensures halts { result ≡ Err SayError.SayFault → self.new.halted ≡ true }
        ensures halted { HasHalted (V.say_faults self.old.site) (V.say_faults self.new.site)
            self.new.halted }
        ensures disk_faults { V.disk_faults self.new.site ≡ V.disk_faults self.old.site }
    {
        let client = copy_of(client)?;
        self.told.reserve(1)?;
        match self.site.say(line) {
            Ok(()) => {
                self.told.push_reserved(Said { client, number });
                Ok(())
            }
            Err(_) => {
                self.halted = true;
                self.cut = true;
                Err(SayError::SayFault)
            }
        }
    }
}
