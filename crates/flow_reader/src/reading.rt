//! The flows of a file, or why it is refused.

ghost use Rattle.json_tree.specs.View.{view};
ghost use Rattle.flow_reader.specs.Answers.{Reads};
ghost use Rattle.flow_reader.specs.Files.{file_in, flows_in, shape_checked};

use crate::file::file_in;
use crate::lookups::known_file;
use bumpalo::Bump;
use flow_syntax::Flows;
use flow_values::{PartError, Path};
use json_tree::{ReadError, Tree, read_tree};
use std::alloc::Global;
use thiserror::Error;

/// Why a file of flows is refused.
#[derive(Debug, Drop, Error)]
pub enum FlowsError {
    /// The bytes are no JSON.
    #[error("no JSON")]
    NotJson,
    /// A value isn't of the shape wanted, the first that is looked at.
    #[error("a value isn't of the shape wanted")]
    BadShape {
        /// The value.
        path: Path,
    },
    /// Every shape is right, and a name stands for nothing, the first that is looked up.
    #[error("a name stands for nothing")]
    UnknownName {
        /// The name.
        path: Path,
    },
    /// Memory ran out.
    #[error("out of memory")]
    Memory,
}

/// The flows that JSON stands for: all shapes are looked at, and then all names.
fn flows_of(alloc: Global, value: &Tree<'_>) -> Result<Flows, FlowsError>
    ensures { Reads result (shape_checked (file_in (view value.now))) }
{
    match file_in(alloc, value) {
        Ok(file) => match known_file(alloc, &file) {
            Ok(()) => Ok(file),
            Err(PartError::Misshapen(path)) => Err(FlowsError::UnknownName { path }),
            Err(PartError::Memory) => Err(FlowsError::Memory),
        },
        Err(PartError::Misshapen(path)) => Err(FlowsError::BadShape { path }),
        Err(PartError::Memory) => Err(FlowsError::Memory),
    }
}

/// The flows of a file.
#[tactic(auto, using(crate::proofs::Bytes::some_data, crate::proofs::Bytes::no_data))]
pub fn read_flows(alloc: Global, bytes: &[u8]) -> Result<Flows, FlowsError>
    ensures { Reads result (flows_in bytes.now) }
{
    let arena = Bump::new(alloc);
    match read_tree(alloc, &arena, bytes) {
        Ok(tree) => flows_of(alloc, &tree),
        Err(ReadError::NotJson) => Err(FlowsError::NotJson),
        Err(ReadError::Memory) => Err(FlowsError::Memory),
    }
}
