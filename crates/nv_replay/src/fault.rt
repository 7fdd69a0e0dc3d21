//! Why a text is not replayed.

ghost use Rattle.std.specs.Prelude.{◌≡◌};
ghost use Rattle.nv_replay.specs.Refused.{of_refusal, of_script};

use crate::refusal::SetUpRefusal;
use nv_once_script::{FaultKind, ScriptFault};
use nv_world::Refusal;
use std::alloc::{AllocError, AllocFailed};

/// Why nothing of a text runs.
#[derive(Clone, Copy, Debug, PartialEq, Eq)]
pub enum ReplayFault {
    /// a line of the script is faulty
    Script { line: u64, kind: FaultKind },
    /// the set-up of the script is refused
    Refused(SetUpRefusal),
    /// memory was refused
    NoMemory,
}

impl From<ScriptFault> for ReplayFault {
    ghost from_gives = { λ script made. made ≡ of_script script };

    fn from(fault: ScriptFault) -> Self {
        match fault {
            ScriptFault::Line { line, kind } => ReplayFault::Script { line, kind },
            ScriptFault::NoMemory => ReplayFault::NoMemory,
        }
    }
}

impl From<Refusal> for ReplayFault {
    ghost from_gives = { λ refusal made. made ≡ of_refusal refusal };

    fn from(refusal: Refusal) -> Self {
        match refusal {
            Refusal::TooManyGuests => ReplayFault::Refused(SetUpRefusal::TooManyGuests),
            Refusal::ExtentsMeet => ReplayFault::Refused(SetUpRefusal::ExtentsMeet),
            Refusal::MapsMeet => ReplayFault::Refused(SetUpRefusal::MapsMeet),
            Refusal::BadSize => ReplayFault::Refused(SetUpRefusal::BadSize),
            Refusal::NoMemory => ReplayFault::NoMemory,
        }
    }
}

impl From<AllocError> for ReplayFault {
    ghost use Rattle.nv_replay.specs.declared.fault.ReplayFault.TheVariants.{NoMemory};

    ghost from_gives = { λ _ fault. fault ≡ NoMemory };

    fn from(_error: AllocError) -> Self {
        ReplayFault::NoMemory
    }
}

impl<T: Drop> From<AllocFailed<T>> for ReplayFault {
    ghost use Rattle.nv_replay.specs.declared.fault.ReplayFault.TheVariants.{NoMemory};

    ghost from_gives = { λ _ fault. fault ≡ NoMemory };

    fn from(_error: AllocFailed<T>) -> Self {
        ReplayFault::NoMemory
    }
}
