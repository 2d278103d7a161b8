//! The list of stamps that a clock gave. Only clauses read it.
ghost use Rattle.std.specs.Prelude.{◌≡◌, List, [], ◌∷◌};
ghost use Rattle.std.specs.Borrow.{ftrue};
ghost use Rattle.site_model.specs.Readings.{Reading, asked, waited, reading_of};

use std::marker::{Model, PhantomData};

/// The stamps so far, the newest first. No memory holds them, and noting one does nothing when it runs.
#[derive(Drop)]
pub struct Readings {
    marker: PhantomData<u8>,
    pub ghost stamps: { List Reading },
}

impl Model for Readings {
    ghost also_owns = { λ _. ftrue };
}

// It owns nothing.
unsafe impl Send for Readings {}

impl Readings {
    /// A list without stamps.
    pub fn new() -> Readings
        ensures { result.stamps ≡ [] }
    {
        Readings {
            marker: PhantomData,
        }
    }

    // Notes a stamp, as `reading_of` reads it.
    fn note(&mut self, _numbers: &[u64])
        ensures { self.new.stamps ≡ reading_of _numbers.now ∷ self.old.stamps }
    {}

    /// The present stamp was asked for, and was this.
    pub fn asked(&mut self, stamp: u64)
        ensures { self.new.stamps ≡ asked stamp ∷ self.old.stamps }
    {
        self.note(&[stamp]);
    }

    /// A stamp was waited for, until this one.
    pub fn waited(&mut self, until: u64, stamp: u64)
        ensures { self.new.stamps ≡ waited until stamp ∷ self.old.stamps }
    {
        self.note(&[until, stamp]);
    }
}
