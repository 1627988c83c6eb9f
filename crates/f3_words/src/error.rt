//! Why nothing was read.

ghost use Rattle.std.specs.Prelude.{◌≡◌};
ghost use Rattle.f3_words.specs.declared.error.ReadError.TheVariants.{Memory};

use std::alloc::{AllocError, AllocFailed};

/// Why a statement has no form.
#[derive(Clone, Copy, PartialEq, Eq, Debug)]
pub enum ReadError {
    /// A growth of the host's memory was refused.
    Memory,
    /// Its tokens have no form of the profile.
    NoForm,
}

impl From<AllocError> for ReadError {
    ghost from_gives = { λ _ e. e ≡ Memory };

    fn from(_error: AllocError) -> Self {
        ReadError::Memory
    }
}

impl<T: Drop> From<AllocFailed<T>> for ReadError {
    ghost from_gives = { λ _ e. e ≡ Memory };

    fn from(_error: AllocFailed<T>) -> Self {
        ReadError::Memory
    }
}
