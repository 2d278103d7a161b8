//! What there was of a life.

ghost use Rattle.std.specs.Prelude.{◌≡◌, [], Some};

use hub_store::Trail;
use open_logs::OpenError;
use recover_core::RecoverError;
use std::alloc::Global;
use world_core::Answer;

/// What there was of a life.
pub struct Lived<V> {
    /// The files and the tape.
    pub site: V,
    /// What was settled.
    pub trail: Trail,
    /// What each event came to.
    pub answers: Vec<Answer>,
    /// Why the life didn't begin, if it didn't.
    pub refused: Option<OpenError>,
}

/// No life began, for this reason.
pub(crate) fn refused_by<V>(alloc: Global, site: V, error: OpenError) -> Lived<V>
    ensures site { result.site ≡ site }
    ensures trail { result.trail ≡ [] }
    ensures answers { result.answers.items ≡ [] }
    ensures refused { result.refused ≡ Some error }
{
    Lived {
        site,
        trail: Trail::none(alloc),
        answers: Vec::new(alloc),
        refused: Some(error),
    }
}

/// No life began, since memory ran out.
pub(crate) fn out_of_memory<V>(alloc: Global, site: V) -> Lived<V>
    ensures site { result.site ≡ site }
    ensures trail { result.trail ≡ [] }
    ensures answers { result.answers.items ≡ [] }
    ensures refused { result.refused ≡ Some (OpenError.Refused RecoverError.Memory) }
{
    refused_by(alloc, site, OpenError::Refused(RecoverError::Memory))
}
