//! The faults that end the program, with their texts and statuses.

ghost use Rattle.std.specs.Prelude.{◌≡◌, ◌≢◌, ◌⊎◌, ◌++◌, OnOk, Some};
ghost use Rattle.std.specs.Io.KnownBytes.{Appends};
ghost use Rattle.std.specs.IoError.{error_kind};
ghost use Rattle.nv_commands.specs.Fault.{fault_of, of_replay, of_run, of_script, status_of, text_of};
ghost use Rattle.nv_print.specs.Printed.{line_feed};

use crate::exit_status::ExitStatus;
use crate::refusal::Refusal;
use nv_mem::NoMemory;
use nv_once_script::{FaultKind, ScriptFault};
use nv_print::CannotWrite;
use nv_replay::{ReplayFault, SetUpRefusal};
use nv_run::RunFault;
use std::alloc::AllocError;
use std::error::Error;
use std::fmt;
use std::io::{self, ErrorKind, Write};

/// Why the program ends with no success. Its text is one line of the fault writer.
#[derive(Clone, Copy, Debug, PartialEq, Eq)]
pub enum Fault {
    /// the word that `decode` reads, its only line, is not the digits of an entry
    BadBytes,
    /// words that the program does not know
    Usage,
    /// memory was refused
    NoMemory,
    /// a line of the script is faulty
    Script { line: u64, kind: FaultKind },
    /// the set-up of the script is refused
    Refused(SetUpRefusal),
    /// the input failed
    CannotRead,
    /// the output failed
    CannotWrite,
    /// what this line of a run waits for was not met
    NoCompletion { line: u64 },
    /// the log of a run differs at this place from what this guest's port got, or from the sum of all
    Mismatch { guest: u8, place: u64 },
}

impl Fault {
    /// The fault of an output that failed, whatever it says.
    pub fn of_output(_error: io::Error) -> Self
        ensures { result ≡ Fault.CannotWrite }
    {
        Self::CannotWrite
    }

    /// The fault of an input that failed: out of memory is reported as such, and nothing else is.
    pub fn of_input(error: io::Error) -> Self
        ensures { (error_kind error ≡ ErrorKind.OutOfMemory) × (result ≡ Fault.NoMemory)
            ⊎ (error_kind error ≢ ErrorKind.OutOfMemory) × (result ≡ Fault.CannotRead) }
    {
        match error.kind() {
            ErrorKind::OutOfMemory => Fault::NoMemory,
            _ => Fault::CannotRead,
        }
    }

    /// The exit status of a program that ends with this fault.
    pub fn status(self) -> ExitStatus
        ensures { result ≡ status_of self }
    {
        match self {
            Fault::BadBytes
            | Fault::Script { .. }
            | Fault::Refused(_)
            | Fault::NoCompletion { .. } => ExitStatus::ScriptFault,
            Fault::Usage => ExitStatus::Usage,
            Fault::NoMemory => ExitStatus::NoMemory,
            Fault::Mismatch { .. } => ExitStatus::Mismatch,
            Fault::CannotRead | Fault::CannotWrite => ExitStatus::InputOutput,
        }
    }
}

/// Reports a fault on one line, and flushes it.
///
/// # Errors
///
/// Where the line cannot be written or flushed. Some of it may have been written then.
pub fn report<E: Write>(fault: Fault, faults: &mut E) -> io::Result<()>
    ensures { OnOk result (Appends (E.contents faults.old) (E.contents faults.new) (text_of fault ++ line_feed)) }
{
    writeln!(faults, "{fault}")?;
    faults.flush()
}

impl fmt::Display for Fault {
    ghost output = { λ fault. Some (text_of fault) };

    fn fmt<W: fmt::Write>(&self, f: &mut fmt::Formatter<W>) -> fmt::Result {
        match self {
            Fault::BadBytes => f.write_str("line 1: bad bytes"),
            Fault::Usage => f.write_str("usage: nvmed once | replay | run | decode KIND HEX"),
            Fault::NoMemory => f.write_str("no memory"),
            Fault::Script { line, kind } => write!(f, "line {line}: {kind}"),
            Fault::Refused(refusal) => write!(f, "{refusal}"),
            Fault::CannotRead => f.write_str("cannot read"),
            Fault::CannotWrite => f.write_str("cannot write"),
            Fault::NoCompletion { line } => write!(f, "line {line}: no completion"),
            Fault::Mismatch { guest, place } => write!(f, "mismatch guest {guest} place {place}"),
        }
    }
}

impl Error for Fault {}

impl From<Refusal> for Fault {
    ghost from_gives = { λ refusal fault. fault ≡ fault_of refusal };

    fn from(refusal: Refusal) -> Self {
        match refusal {
            Refusal::Usage => Fault::Usage,
            Refusal::NoMemory => Fault::NoMemory,
        }
    }
}

impl From<AllocError> for Fault {
    ghost use Rattle.nv_commands.specs.declared.fault.Fault.TheVariants.{NoMemory};

    ghost from_gives = { λ _ fault. fault ≡ NoMemory };

    fn from(_error: AllocError) -> Self {
        Fault::NoMemory
    }
}

impl From<NoMemory> for Fault {
    ghost use Rattle.nv_commands.specs.declared.fault.Fault.TheVariants as fault;

    ghost from_gives = { λ _ made. made ≡ fault.NoMemory };

    fn from(_error: NoMemory) -> Self {
        Fault::NoMemory
    }
}

impl From<CannotWrite> for Fault {
    ghost use Rattle.nv_commands.specs.declared.fault.Fault.TheVariants as fault;

    ghost from_gives = { λ _ made. made ≡ fault.CannotWrite };

    fn from(_error: CannotWrite) -> Self {
        Fault::CannotWrite
    }
}

impl From<ScriptFault> for Fault {
    ghost from_gives = { λ script made. made ≡ of_script script };

    fn from(fault: ScriptFault) -> Self {
        match fault {
            ScriptFault::Line { line, kind } => Fault::Script { line, kind },
            ScriptFault::NoMemory => Fault::NoMemory,
        }
    }
}

impl From<ReplayFault> for Fault {
    ghost from_gives = { λ replay made. made ≡ of_replay replay };

    fn from(fault: ReplayFault) -> Self {
        match fault {
            ReplayFault::Script { line, kind } => Fault::Script { line, kind },
            ReplayFault::Refused(refusal) => Fault::Refused(refusal),
            ReplayFault::NoMemory => Fault::NoMemory,
        }
    }
}

impl From<RunFault> for Fault {
    ghost from_gives = { λ run made. made ≡ of_run run };

    fn from(fault: RunFault) -> Self {
        match fault {
            RunFault::NoMemory => Fault::NoMemory,
            RunFault::NoCompletion { line } => Fault::NoCompletion { line },
            RunFault::Mismatch { guest, place } => Fault::Mismatch { guest, place },
        }
    }
}
