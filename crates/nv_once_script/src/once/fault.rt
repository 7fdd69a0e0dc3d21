//! Why a text is no script.
ghost use Rattle.std.specs.Prelude.{◌≡◌, Some};

use std::alloc::{AllocError, AllocFailed};
use std::error::Error;
use std::fmt;

/// What is wrong with a line.
#[derive(Clone, Copy, Debug, PartialEq, Eq)]
pub enum FaultKind {
    /// its first word is none of the language
    UnknownWord,
    /// it has fewer words than its first word wants
    MissingWord,
    /// it has more words than its first word wants
    TooManyWords,
    /// a word is no number, or one that is too large or otherwise none of its place
    BadNumber,
    /// a word does not spell the bytes that its place wants
    BadBytes,
    /// the line is not allowed here
    OutOfPlace,
    /// it names bytes or a block that are not there
    OutOfRange,
}

impl fmt::Display for FaultKind {
    ghost use Rattle.nv_once_script.specs.OnceFault.{kind_text};

    ghost output = { λ kind. Some (kind_text kind) };

    fn fmt<W: fmt::Write>(&self, f: &mut fmt::Formatter<W>) -> fmt::Result {
        match self {
            FaultKind::UnknownWord => f.write_str("unknown word"),
            FaultKind::MissingWord => f.write_str("missing word"),
            FaultKind::TooManyWords => f.write_str("too many words"),
            FaultKind::BadNumber => f.write_str("bad number"),
            FaultKind::BadBytes => f.write_str("bad bytes"),
            FaultKind::OutOfPlace => f.write_str("out of place"),
            FaultKind::OutOfRange => f.write_str("out of range"),
        }
    }
}

impl Error for FaultKind {}

/// Why a text is no script: its first faulty line, or that memory was refused.
#[derive(Clone, Copy, Debug, PartialEq, Eq)]
pub enum ScriptFault {
    /// its first faulty line
    Line { line: u64, kind: FaultKind },
    /// memory was refused
    NoMemory,
}

impl fmt::Display for ScriptFault {
    ghost use Rattle.nv_once_script.specs.OnceFault.{fault_text};

    ghost output = { λ fault. Some (fault_text fault) };

    fn fmt<W: fmt::Write>(&self, f: &mut fmt::Formatter<W>) -> fmt::Result {
        match self {
            ScriptFault::Line { line, kind } => write!(f, "line {line}: {kind}"),
            ScriptFault::NoMemory => f.write_str("no memory"),
        }
    }
}

impl Error for ScriptFault {}

/// Why a line was not read.
#[derive(Clone, Copy, Debug, PartialEq, Eq)]
pub enum LineFault {
    /// it is faulty
    Faulty(FaultKind),
    /// memory was refused
    NoMemory,
}

impl LineFault {
    ghost use Rattle.nv_once_script.specs.OnceFault.{fault_on};

    /// The fault of the text whose line this one is.
    pub fn on(self, line: u64) -> ScriptFault
        ensures { result ≡ fault_on line self }
    {
        match self {
            LineFault::Faulty(kind) => ScriptFault::Line { line, kind },
            LineFault::NoMemory => ScriptFault::NoMemory,
        }
    }
}

impl From<FaultKind> for LineFault {
    ghost use Rattle.nv_once_script.specs.declared.once.fault.LineFault.TheVariants.{Faulty};

    ghost from_gives = { λ kind fault. fault ≡ Faulty kind };

    fn from(kind: FaultKind) -> Self {
        LineFault::Faulty(kind)
    }
}

impl From<AllocError> for LineFault {
    ghost use Rattle.nv_once_script.specs.declared.once.fault.LineFault.TheVariants.{NoMemory};

    ghost from_gives = { λ _ fault. fault ≡ NoMemory };

    fn from(_error: AllocError) -> Self {
        LineFault::NoMemory
    }
}

impl<T: Drop> From<AllocFailed<T>> for LineFault {
    ghost use Rattle.nv_once_script.specs.declared.once.fault.LineFault.TheVariants.{NoMemory};

    ghost from_gives = { λ _ fault. fault ≡ NoMemory };

    fn from(_error: AllocFailed<T>) -> Self {
        LineFault::NoMemory
    }
}
