//! Events that no handle waited for yet.

ghost use Rattle.std.specs.Prelude.{◌≡◌, ◌++◌, ◌∷◌, [], ◌<◌, length, None, OnOk, OnErr, map, option_map, get_or, slice_set};
ghost use Rattle.flow_syntax.specs.Machine.{kept_value, without_kept};
ghost use Rattle.flow_tasks.specs.Views.{raised_of};

use crate::by_name::{NumbersByName, copy_name};
use dura_value::{Name, Value};
use std::alloc::{AllocError, Global};
use std::marker::Model;

/// An event that was raised.
#[derive(Drop)]
pub struct Raised {
    /// Its name.
    pub name: Name,
    /// Its value.
    pub value: Value,
}

/// The events that are kept, the oldest first, which a contract sees as a list.
#[derive(Drop)]
pub struct KeptEvents {
    /// In the order in which they came. The place of one that was taken stays empty.
    slots: Vec<Option<Raised>>,
    /// Where those of each name are, so that nothing goes over the others.
    places: NumbersByName,
}

impl Model for KeptEvents {
    ghost use Rattle.std.specs.Prelude.{List, ℕ, ◌≡◌};
    ghost use Rattle.flow_tasks.specs.declared.raised.Raised.{Raised};
    ghost use Rattle.flow_tasks.specs.Kept.{events_in, places_from};
    ghost use Rattle.flow_tasks.specs.Numbers.{numbers_in};

    ghost Value = { List Raised };

    ghost view = { λ k. events_in k.slots.items };

    ghost invariant = { λ k. (name : List ℕ)
        → numbers_in k.places name ≡ places_from name 0 k.slots.items };
}

impl KeptEvents {
    /// No events are kept.
    pub fn new(alloc: Global) -> KeptEvents
        ensures { result ≡ [] }
    {
        KeptEvents {
            slots: Vec::new(alloc),
            places: NumbersByName::new(alloc),
        }
    }

    /// An event is kept.
    pub fn push(&mut self, name: Name, value: Value) -> Result<(), AllocError>
        ensures ok { OnOk result (map raised_of self.new
            ≡ map raised_of self.old ++ record { name = name; value = value } ∷ []) }
        ensures err { OnErr result (self.new ≡ self.old) }
    {
        let place = self.slots.len();
        let key = copy_name(&name)?;
        self.slots.push(Some(Raised { name, value }))?;
        if let Err(error) = self.places.push(key, place) {
            self.slots.pop();
            return Err(error);
        }
        Ok(())
    }

    /// Takes out the value of the oldest event of a name.
    pub fn take(&mut self, name: &Name) -> Option<Value>
        ensures value { result ≡ kept_value name.now (map raised_of self.old) }
        ensures taken { map raised_of self.new ≡ without_kept name.now (map raised_of self.old) }
    {
        match self.places.take_first(name) {
            Some(place) => take_out(&mut self.slots, place),
            None => None,
        }
    }
}

/// Takes the value of the event at a place, which stays empty.
fn take_out(slots: &mut Vec<Option<Raised>>, place: usize) -> Option<Value>
    requires { place < length slots.old.items }
    ensures value { result ≡ option_map (λ one. one.value) (get_or slots.old.items place None) }
    ensures taken { slots.new.items ≡ slice_set slots.old.items place None }
{
    match slots[place].take() {
        Some(event) => Some(event.value),
        None => None,
    }
}
