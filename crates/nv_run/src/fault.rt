//! Why a run has nothing to print.

use nv_mem::NoMemory;
use nv_threads::Mismatch;
use std::alloc::{AllocError, AllocFailed};

/// Why a run that began has nothing to print.
#[derive(Clone, Copy, Debug, PartialEq, Eq)]
pub enum RunFault {
    /// memory was refused to a guest's thread, or to what goes on around the threads
    NoMemory,
    /// what this line waits for was not met; no such line is lower
    NoCompletion { line: u64 },
    /// the log differs from what a port got, or from the sum of all
    Mismatch { guest: u8, place: u64 },
}

impl From<AllocError> for RunFault {
    ghost use Rattle.std.specs.Prelude.{◌≡◌};
    ghost use Rattle.nv_run.specs.declared.fault.RunFault.TheVariants as fault;

    ghost from_gives = { λ _ made. made ≡ fault.NoMemory };

    fn from(_error: AllocError) -> Self {
        RunFault::NoMemory
    }
}

impl<T: Drop> From<AllocFailed<T>> for RunFault {
    ghost use Rattle.std.specs.Prelude.{◌≡◌};
    ghost use Rattle.nv_run.specs.declared.fault.RunFault.TheVariants as fault;

    ghost from_gives = { λ _ made. made ≡ fault.NoMemory };

    fn from(_error: AllocFailed<T>) -> Self {
        RunFault::NoMemory
    }
}

impl From<NoMemory> for RunFault {
    ghost use Rattle.std.specs.Prelude.{◌≡◌};
    ghost use Rattle.nv_run.specs.declared.fault.RunFault.TheVariants as fault;

    ghost from_gives = { λ _ made. made ≡ fault.NoMemory };

    fn from(_error: NoMemory) -> Self {
        RunFault::NoMemory
    }
}

impl From<Mismatch> for RunFault {
    ghost use Rattle.std.specs.Prelude.{◌≡◌};
    ghost use Rattle.nv_run.specs.declared.fault.RunFault.TheVariants as fault;

    ghost from_gives = { λ mismatch made. made ≡ fault.Mismatch mismatch.guest mismatch.place };

    fn from(mismatch: Mismatch) -> Self {
        RunFault::Mismatch {
            guest: mismatch.guest,
            place: mismatch.place,
        }
    }
}
