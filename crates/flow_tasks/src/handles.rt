//! Values that name tasks.

ghost use Rattle.std.specs.Prelude.{◌≡◌};
ghost use Rattle.dura_value.specs.declared.data.Scalar.TheVariants.{Int};
ghost use Rattle.flow_tasks.specs.declared.handles.HandleFault.TheVariants.{Memory};
ghost use Rattle.flow_syntax.specs.Machine.{to_handle, to_handles, scalar_handle, scalar_handles};
ghost use Rattle.flow_tasks.specs.Handles.{Names};
ghost use Rattle.flow_tasks.specs.Views.{tasks_of};

use crate::tasks::Tasks;
use dura_value::{Scalar, Value};
use std::alloc::{AllocError, AllocFailed, Global};

/// Why a value names no task.
#[derive(Debug, Drop)]
pub enum HandleFault {
    /// It is an integer, and no task's number.
    Handle,
    /// It is of another kind.
    Type,
    /// Memory ran out.
    Memory,
}

impl From<AllocError> for HandleFault {
    ghost from_gives = { λ _ e. e ≡ Memory };

    fn from(_e: AllocError) -> HandleFault {
        HandleFault::Memory
    }
}

impl<T: Drop> From<AllocFailed<T>> for HandleFault {
    ghost from_gives = { λ _ e. e ≡ Memory };

    fn from(_e: AllocFailed<T>) -> HandleFault {
        HandleFault::Memory
    }
}

impl Tasks {
    /// The task that a number names.
    fn numbered(&self, number: i64) -> Result<usize, HandleFault>
        ensures { Names (λ n. n) result (scalar_handle (tasks_of self.now) (Int number)) }
    {
        if number >= 0 && (number as usize) < self.len() {
            Ok(number as usize)
        } else {
            Err(HandleFault::Handle)
        }
    }

    /// The task that a value names.
    pub fn handle(&self, value: &Value) -> Result<usize, HandleFault>
        ensures { Names (λ n. n) result (to_handle (tasks_of self.now) value.now) }
    {
        match value {
            Value::Int(number) => self.numbered(*number),
            _ => Err(HandleFault::Type),
        }
    }

    fn scalar_handle(&self, scalar: &Scalar) -> Result<usize, HandleFault>
        ensures { Names (λ n. n) result (scalar_handle (tasks_of self.now) scalar.now) }
    {
        match scalar {
            Scalar::Int(number) => self.numbered(*number),
            _ => Err(HandleFault::Type),
        }
    }

    fn scalar_handles(&self, alloc: Global, scalars: &[Scalar]) -> Result<Vec<usize>, HandleFault>
        ensures { Names (λ ns. ns.items) result (scalar_handles (tasks_of self.now) scalars.now) }
    {
        let mut handles = Vec::with_capacity(alloc, scalars.len())?;
        for scalar in scalars {
            match self.scalar_handle(scalar) {
                Ok(handle) => handles.push(handle)?,
                Err(fault) => return Err(fault),
            }
        }
        Ok(handles)
    }

    /// The tasks that the parts of a list name, or the first fault among them.
    pub fn handles(&self, alloc: Global, value: &Value) -> Result<Vec<usize>, HandleFault>
        ensures { Names (λ ns. ns.items) result (to_handles (tasks_of self.now) value.now) }
    {
        match value {
            Value::List(parts) => self.scalar_handles(alloc, parts.as_slice()),
            _ => Err(HandleFault::Type),
        }
    }
}
