//! Rows of ids and digests, by computation.

ghost use Rattle.worked_rows.specs.Homes.{Digests, AreWritten, AreRead, LiveThere, InOrder, NoIds, AreWords};

/// The digests of some texts.
pub fn digests()
    ensures { Digests }
{}

/// How ids are written and read, the partition of 32 that each lives in, and that each comes before the next one.
pub fn ids()
    ensures written { AreWritten }
    ensures read { AreRead }
    ensures homes { LiveThere }
    ensures order { InOrder ⟦<dura_value::Id as Ord>⟧.cmp }
{}

/// Texts that are no ids: how far they begin one.
pub fn texts_that_are_no_ids()
    ensures { NoIds }
{}

/// A name and a key with each kind of byte.
pub fn words()
    ensures { AreWords }
{}
