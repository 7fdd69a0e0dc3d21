//! Why words are refused that are no command.

ghost use Rattle.std.specs.Prelude.{◌≡◌, ◌≢◌, ◌⊎◌};
ghost use Rattle.std.specs.IoError.{error_kind};

use std::alloc::{AllocError, AllocFailed};
use std::io::{self, ErrorKind};

/// Why words are no command.
#[derive(Clone, Copy, Debug, PartialEq, Eq)]
pub enum Refusal {
    /// the program does not know them
    Usage,
    /// memory was refused
    NoMemory,
}

impl Refusal {
    /// The refusal of words that could not be obtained. Out of memory is reported as such. Words that are not text are words that the program does
    /// not know.
    pub fn of_words(error: io::Error) -> Self
        ensures { (error_kind error ≡ ErrorKind.OutOfMemory) × (result ≡ Refusal.NoMemory)
            ⊎ (error_kind error ≢ ErrorKind.OutOfMemory) × (result ≡ Refusal.Usage) }
    {
        match error.kind() {
            ErrorKind::OutOfMemory => Refusal::NoMemory,
            _ => Refusal::Usage,
        }
    }
}

impl From<AllocError> for Refusal {
    ghost use Rattle.nv_commands.specs.declared.refusal.Refusal.TheVariants.{NoMemory};

    ghost from_gives = { λ _ refusal. refusal ≡ NoMemory };

    fn from(_error: AllocError) -> Self {
        Refusal::NoMemory
    }
}

impl<T: Drop> From<AllocFailed<T>> for Refusal {
    ghost use Rattle.nv_commands.specs.declared.refusal.Refusal.TheVariants.{NoMemory};

    ghost from_gives = { λ _ refusal. refusal ≡ NoMemory };

    fn from(_error: AllocFailed<T>) -> Self {
        Refusal::NoMemory
    }
}
