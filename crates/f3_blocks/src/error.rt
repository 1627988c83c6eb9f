//! Why a block, a specification part or units cannot go on.

ghost use Rattle.std.specs.Prelude.{◌≡◌};
ghost use Rattle.f3_blocks.specs.declared.error.StepError.TheVariants.{Memory, OutOfPlace};

use f3_form::form::Form;
use std::alloc::{AllocError, AllocFailed};

/// Why a block, a specification part or units cannot go on with a statement.
#[derive(Clone, Copy, PartialEq, Eq, Debug)]
pub enum StepError {
    /// A growth of the host's memory was refused.
    Memory,
    /// Nothing goes on so (2.2, 4.5, 8.1, 11.1).
    OutOfPlace,
    /// It opens a 65th construct (own rule).
    TooDeep,
}

impl From<AllocError> for StepError {
    ghost from_gives = { λ _ e. e ≡ Memory };

    fn from(_error: AllocError) -> Self {
        StepError::Memory
    }
}

impl<T: Drop> From<AllocFailed<T>> for StepError {
    ghost from_gives = { λ _ e. e ≡ Memory };

    fn from(_error: AllocFailed<T>) -> Self {
        StepError::Memory
    }
}

/// Nothing goes on with this form, which is let go (2.2, 4.5, 8.1, 11.1).
pub fn out_of_place(form: Form) -> StepError
    ensures { result ≡ OutOfPlace }
{
    drop(form);
    StepError::OutOfPlace
}
