//! A file of flows and classes.

ghost use Rattle.std.specs.Prelude.{◌≡◌, [], OnOk, OnErr, option_map, IfSome};
ghost use Rattle.flow_syntax.specs.Syntax.{body_of, class_of as class_in, look_up, with_operation, with_flow, with_class};
ghost use Rattle.flow_syntax.specs.Views.{block_of, class_of, flows_of};

use crate::syntax::Stmt;
use dura_value::{Name, Value};
use std::alloc::{AllocError, Global};
use std::collections::BTreeMap;

/// A class of entities.
#[derive(Drop)]
pub struct Class {
    /// The value that its entities begin with.
    pub init: Value,
    /// Its operations.
    pub operations: BTreeMap<Name, Vec<Stmt>>,
}

/// A file of flows and classes.
#[derive(Drop)]
pub struct Flows {
    /// Its flows.
    pub flows: BTreeMap<Name, Vec<Stmt>>,
    /// Its classes.
    pub classes: BTreeMap<Name, Class>,
}

impl Class {
    /// A class without operations.
    pub fn new(alloc: Global, init: Value) -> Class
        ensures { class_of result ≡ record { init = init; operations = [] } }
    {
        Class {
            init,
            operations: BTreeMap::new(alloc),
        }
    }

    /// An operation, in the place of one of the same name.
    pub fn add_operation(&mut self, name: Name, body: Vec<Stmt>) -> Result<(), AllocError>
        ensures ok { OnOk result (class_of self.new
            ≡ with_operation (class_of self.old) name (block_of body.items)) }
        ensures err { OnErr result (class_of self.new ≡ class_of self.old) }
    {
        drop(self.operations.insert(name, body)?);
        Ok(())
    }

    /// The body of an operation.
    pub fn operation(&self, name: &Name) -> Option<&[Stmt]>
        ensures { option_map (λ b. block_of b.now) result
            ≡ look_up (class_of self.now).operations name.now }
    {
        match self.operations.get(name) {
            Some(body) => Some(body),
            None => None,
        }
    }
}

impl Flows {
    /// A file without flows and classes.
    pub fn new(alloc: Global) -> Flows
        ensures { flows_of result ≡ record { flows = []; classes = [] } }
    {
        Flows {
            flows: BTreeMap::new(alloc),
            classes: BTreeMap::new(alloc),
        }
    }

    /// A flow, in the place of one of the same name.
    pub fn add_flow(&mut self, name: Name, body: Vec<Stmt>) -> Result<(), AllocError>
        ensures ok { OnOk result (flows_of self.new
            ≡ with_flow (flows_of self.old) name (block_of body.items)) }
        ensures err { OnErr result (flows_of self.new ≡ flows_of self.old) }
    {
        drop(self.flows.insert(name, body)?);
        Ok(())
    }

    /// A class, in the place of one of the same name.
    pub fn add_class(&mut self, name: Name, class: Class) -> Result<(), AllocError>
        ensures ok { OnOk result (flows_of self.new
            ≡ with_class (flows_of self.old) name (class_of class)) }
        ensures err { OnErr result (flows_of self.new ≡ flows_of self.old) }
    {
        drop(self.classes.insert(name, class)?);
        Ok(())
    }

    /// The body of a flow.
    pub fn body_of(&self, name: &Name) -> Option<&[Stmt]>
        ensures { option_map (λ body. block_of body.now) result
            ≡ body_of (flows_of self.now) name.now }
    {
        match self.flows.get(name) {
            Some(body) => Some(body),
            None => None,
        }
    }

    /// The class of this name, if there is one.
    pub fn class_of(&self, name: &Name) -> Option<&Class>
        ensures { option_map (λ c. class_of c.now) result ≡ class_in (flows_of self.now) name.now }
    {
        self.classes.get(name)
    }
}
