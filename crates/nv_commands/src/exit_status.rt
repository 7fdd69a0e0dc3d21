//! The exit statuses of the program, by their names.

ghost use Rattle.std.specs.Prelude.{◌≡◌, MatchResult};
ghost use Rattle.nv_commands.specs.Fault.{status_of};

use crate::command::Failure;
use std::process::ExitCode;

/// How the program ended, as its exit status says.
#[derive(Clone, Copy, Debug, PartialEq, Eq)]
pub enum ExitStatus {
    /// 0: all was done
    Success = 0,
    /// 1: a fault of what was to be read
    ScriptFault = 1,
    /// 2: words that the program does not know
    Usage = 2,
    /// 3: memory was refused
    NoMemory = 3,
    /// 4: what was found at the end is not what was to be found
    Mismatch = 4,
    /// 5: input or output failed
    InputOutput = 5,
}

impl ExitStatus {
    /// How the program ends where a command ended so.
    pub fn of<W>(ended: &Result<W, Failure<W>>) -> Self
        ensures { MatchResult ended.now (λ _. result ≡ ExitStatus.Success) (λ failure. result ≡ status_of failure.fault) }
    {
        match ended {
            Ok(_) => ExitStatus::Success,
            Err(failure) => failure.fault.status(),
        }
    }
}

impl From<ExitStatus> for ExitCode {
    ghost use Rattle.std.specs.Process.{exit_status};
    ghost use Rattle.nv_commands.specs.ExitStatus.{exit_code};

    ghost from_gives = { λ status code. exit_status code ≡ exit_code status };

    fn from(status: ExitStatus) -> ExitCode {
        ExitCode::from(status as u8)
    }
}
