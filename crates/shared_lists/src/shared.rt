//! One thing that copies share.

ghost use Rattle.std.specs.Prelude.{◌≡◌, IfOk};
ghost use Rattle.std.specs.Arc.{arc_value};

use std::alloc::{AllocError, Global};
use std::marker::Model;
use std::sync::Arc;

/// One thing, which a contract sees. Copies share it.
#[derive(Drop)]
pub struct Shared<T> {
    arc: Arc<T>,
}

impl<T> Model for Shared<T> {
    ghost Value = { T };

    ghost view = { λ a. arc_value a.arc };
}

impl<T> Shared<T> {
    /// What holds this.
    pub fn new(alloc: Global, it: T) -> Result<Shared<T>, AllocError>
    where
        T: Drop,
        ensures { IfOk result (λ shared. shared ≡ it) }
    {
        let arc = Arc::new(alloc, it)?;
        Ok(Shared { arc })
    }

    /// What holds this, which is shared already.
    pub(crate) fn of(arc: Arc<T>) -> Shared<T>
        ensures { result ≡ arc_value arc }
    {
        Shared { arc }
    }

    /// The same, shared.
    pub fn copy(&self) -> Result<Shared<T>, AllocError>
        ensures { IfOk result (λ copy. copy ≡ self.now) }
    {
        let arc = Arc::try_clone(&self.arc)?;
        Ok(Shared { arc })
    }

    /// What it holds.
    pub fn get(&self) -> &T
        ensures { result.now ≡ self.now }
    {
        &self.arc
    }
}

impl<T: Drop> Clone for Shared<T> {
    ghost is_clone = { λ shared copy. copy ≡ shared };

    fn clone(&self) -> Result<Self, AllocError> {
        self.copy()
    }
}
