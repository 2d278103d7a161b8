//! The variables of an instance or an operation.

ghost use Rattle.std.specs.Prelude.{◌≡◌, [], Ok, Err, codes, OnOk, OnErr, IfSome, IfNone, position};
ghost use Rattle.std.specs.Str.{bytes_eq};
ghost use Rattle.flow_syntax.specs.Eval.{value_in, set_in};

use dura_value::{Name, Value};
use std::alloc::{AllocError, Global};
use std::marker::Model;

/// The value of each variable that was set, which a contract sees as a list of names with values.
#[derive(Drop)]
pub struct Variables {
    set: Vec<(Name, Value)>,
}

impl Model for Variables {
    ghost use Rattle.std.specs.Prelude.{ℕ, List};
    ghost use Rattle.dura_value.specs.declared.data.Value.{Value as Given};

    ghost Value = { List (List ℕ × Given) };

    ghost view = { λ v. v.set.items };
}

impl Variables {
    /// None is set.
    pub fn new(alloc: Global) -> Variables
        ensures { result ≡ [] }
    {
        Variables {
            set: Vec::new(alloc),
        }
    }

    /// Where a variable is.
    fn place_of(&self, name: &Name) -> Option<usize>
        ensures { result ≡ position (λ set. bytes_eq set.0 name.now) self.now }
    {
        self.set.iter().position(|set| set.0 == *name)
    }

    /// The value of a variable.
    pub fn get(&self, name: &Name) -> Option<&Value>
        ensures set { IfSome result (λ value. value_in self.now name.now ≡ Ok value.now) }
        ensures unset { IfNone result (value_in self.now name.now ≡ Err (codes "unset")) }
    {
        match self.place_of(name) {
            Some(place) => Some(&self.set[place].1),
            None => None,
        }
    }

    /// Sets a variable in its place, or behind the others.
    pub fn set(&mut self, name: Name, value: Value) -> Result<(), AllocError>
        ensures ok { OnOk result (self.new ≡ set_in self.old name value) }
        ensures err { OnErr result (self.new ≡ self.old) }
    {
        match self.place_of(&name) {
            Some(place) => self.set[place] = (name, value),
            None => self.set.push((name, value))?,
        }
        Ok(())
    }
}
