// Why a text could not be read: it is refused, or there is no memory for what it says.
ghost use Rattle.std.specs.Prelude.{◌≡◌};
ghost use Rattle.texts.specs.declared.stop.ReadError.TheVariants.{Refused, NoMemory};

use crate::stop::ReadError;
use formats::fault::TextFault;
use std::alloc::{AllocError, AllocFailed};

impl From<TextFault> for ReadError {
    ghost from_gives = { λ f r. r ≡ Refused f };

    fn from(fault: TextFault) -> ReadError {
        ReadError::Refused(fault)
    }
}

impl From<AllocError> for ReadError {
    ghost from_gives = { λ _ r. r ≡ NoMemory };

    fn from(_: AllocError) -> ReadError {
        ReadError::NoMemory
    }
}

impl<T: Drop> From<AllocFailed<T>> for ReadError {
    ghost from_gives = { λ _ r. r ≡ NoMemory };

    fn from(_: AllocFailed<T>) -> ReadError {
        ReadError::NoMemory
    }
}
