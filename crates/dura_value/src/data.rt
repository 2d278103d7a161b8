//! Values: what flows compute with.

ghost use Rattle.std.specs.Prelude.{◌≡◌, [], ◌∷◌, IfOk};

use crate::text::Text;
use std::alloc::{AllocError, Global};
use std::marker::Model;

/// A value that is no list.
#[derive(Clone, Drop, PartialEq, Eq)]
pub enum Scalar {
    /// Nothing.
    Null,
    /// A truth value.
    False,
    /// A truth value.
    True,
    /// An integer of 64 bits.
    Int(i64),
    /// A text.
    Text(Text),
}

/// A list of scalars, which a contract sees as a list.
#[derive(Clone, Drop)]
pub struct Scalars {
    items: Vec<Scalar>,
}

impl Model for Scalars {
    ghost use Rattle.std.specs.Prelude.{List};
    ghost use Rattle.dura_value.specs.declared.data.Scalar.{Scalar};

    ghost Value = { List Scalar };

    ghost view = { λ s. s.items.items };
}

/// A value.
#[derive(Clone, Drop, PartialEq, Eq)]
pub enum Value {
    /// Nothing.
    Null,
    /// A truth value.
    False,
    /// A truth value.
    True,
    /// An integer of 64 bits.
    Int(i64),
    /// A text.
    Text(Text),
    /// A list.
    List(Scalars),
}

impl Scalars {
    /// A list of these.
    pub fn of(items: Vec<Scalar>) -> Scalars
        ensures { result ≡ items.items }
    {
        Scalars { items }
    }

    /// A list of two.
    pub fn pair(alloc: Global, first: Scalar, second: Scalar) -> Result<Scalars, AllocError>
        ensures { IfOk result (λ s. s ≡ first ∷ second ∷ []) }
    {
        let mut items = Vec::with_capacity(alloc, 2)?;
        items.push_reserved(first);
        items.push_reserved(second);
        Ok(Scalars { items })
    }

    /// The scalars, where they lie.
    pub fn as_slice(&self) -> &[Scalar]
        ensures { result.now ≡ self.now }
    {
        &self.items
    }
}
