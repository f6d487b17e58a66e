// Why a call of an end is refused.
ghost use Rattle.std.specs.Prelude.{◌≡◌};
ghost use Rattle.ssh_ends.specs.Incoming.{refusal_of};
ghost use Rattle.ssh_ends.specs.declared.error.EndError.TheVariants.{NoMemory};

use ssh_channels::TableError;
use std::alloc::{AllocError, AllocFailed};
use thiserror::Error;

/// Why a call of an end is refused. After each of these the end is as it was.
#[derive(Clone, Copy, Debug, PartialEq, Eq, Error)]
pub enum EndError {
    /// There was no memory.
    #[error("no memory")]
    NoMemory,
    /// All 2^32 numbers of channels are in use.
    #[error("no channel number is free")]
    Full,
    /// The payload is no message that an end takes, or confirms a channel that does not wait for
    /// it.
    #[error("the payload is unexpected")]
    Unexpected,
}

impl From<TableError> for EndError {
    ghost from_gives = { λ why e. e ≡ refusal_of why };

    fn from(why: TableError) -> EndError {
        match why {
            TableError::NoMemory => EndError::NoMemory,
            TableError::Full => EndError::Full,
            TableError::Inconsistent => EndError::Unexpected,
        }
    }
}

impl From<AllocError> for EndError {
    ghost from_gives = { λ _ e. e ≡ NoMemory };

    fn from(_: AllocError) -> EndError {
        EndError::NoMemory
    }
}

impl<T: Drop> From<AllocFailed<T>> for EndError {
    ghost from_gives = { λ _ e. e ≡ NoMemory };

    fn from(_: AllocFailed<T>) -> EndError {
        EndError::NoMemory
    }
}
