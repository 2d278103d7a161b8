//! A JSON value.

ghost use Rattle.std.specs.Prelude.{◌≡◌, option_map};
ghost use Rattle.serde_json.specs.Find.{as_array};
ghost use Rattle.json_tree.specs.View.{items_view, view};

use serde_json::Number;

/// A JSON value. All of it lies in an arena.
#[derive(Clone, Copy)]
pub enum Tree<'a> {
    Null,
    Bool(bool),
    Number(Number),
    String(&'a str),
    Array(&'a [Tree<'a>]),
    /// The members in the order of their keys, each key once.
    Object(&'a [Member<'a>]),
}

/// A key and what stands under it.
pub type Member<'a> = (&'a str, Tree<'a>);

impl<'a> Tree<'a> {
    /// The parts, where it is an array.
    pub fn as_array(&self) -> Option<&'a [Tree<'a>]>
        ensures { option_map (λ parts. items_view parts.now) result ≡ as_array (view self.now) }
    {
        match self {
            Tree::Array(parts) => Some(*parts),
            _ => None,
        }
    }
}
