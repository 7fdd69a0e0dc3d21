//! The commands of the program.
ghost use Rattle.std.specs.Prelude.{◌≡◌, IfErr, IfOk, MatchOption, None, OnOk, Some};
ghost use Rattle.nv_commands.specs.Command.{IsFaultOf, LeavesInput, Prints};
ghost use Rattle.nv_commands.specs.Job.{IsJobOf, IsPrintable, PrintsJob};
ghost use Rattle.nv_commands.specs.Once.{IsStop};
ghost use Rattle.nv_commands.specs.Run.{IsRunFault};
ghost use Rattle.nv_run.specs.Played.{PrintsText};

use crate::entry_kind::EntryKind;
use crate::fault::Fault;
use crate::{decode, lines, once, replay, running};
use nv_entry::{Cqe, Sqe};
use nv_flat::One;
use nv_once_script::Script;
use nv_replay::Replay;
use nv_run::Played;
use std::alloc::Global;
use std::io::{BufWriter, Read, Write};
use std::sync::Wait;
use std::thread::Threads;
use std::time::Clock;

/// What the program is to do.
#[derive(Clone, Copy, Debug, PartialEq, Eq)]
pub enum Command<'a> {
    /// print the fields of the entry that these digits spell
    Decode { kind: EntryKind, digits: &'a str },
    /// run a script of commands on a private controller over flat memory: where it is known what there is to read, the run ends well
    /// or in the middle of its output only if that is a script, and a fault of the script is the one that its definition gives
    Once,
    /// put a mediated world through the events of a script, and print their replies: a fault of the script or of its set-up is the one that
    /// its definition gives, where it is known what there is to read
    Replay,
}

/// Why a command ended with no success.
#[derive(Debug, Drop)]
pub struct Failure<W> {
    /// what went wrong
    pub fault: Fault,
    /// the output as it was, where the fault came before anything could be written
    pub output: Option<W>,
}

impl<W: Write> Failure<W> {
    /// A fault that came before anything could be written.
    pub(crate) fn untouched(fault: Fault, output: W) -> Self
        ensures fault { result.fault ≡ fault }
        ensures output { result.output ≡ Some output }
    {
        Failure {
            fault,
            output: Some(output),
        }
    }
}

/// What is left to do once nothing more is to be read.
#[derive(Drop)]
enum Job {
    /// print the fields of a submission queue entry
    Submission(Sqe),
    /// print the fields of a completion queue entry
    Completion(Cqe),
    /// run a script
    Script(Script),
    /// put a world through events
    Replay(Replay),
    /// print what the guests' lines of a run came to
    Played(Played),
}

/// Does a command; a script runs on a controller of the kind `C`. What it prints goes to `output`, through a buffer that is empty at the end, and
/// the output is given back.
///
/// Where all goes well the output has grown by exactly the line of the entry, or by what the script prints. Digits that spell no entry are bad
/// bytes, and nothing else is. Only where the output failed or memory was refused can anything have been written before a fault is returned: with
/// any other fault the output is given back as it was. `decode` reads nothing.
///
/// # Errors
///
/// A [`Failure`] holds the [`Fault`]: digits that spell no entry, a faulty script or set-up, a failed input, refused memory, or a failed
/// output. It gives the output back as it was. Only after refused memory or a failed output can `output` be `None`, with part of the text
/// written.
pub fn perform<C: One, R: Read, W: Write + Drop>(
    alloc: Global,
    command: Command<'_>,
    input: &mut R,
    output: W,
) -> Result<W, Failure<W>>
    ensures ok { IfOk result (λ written. Prints C.built command.entry (R.remaining input.old) (W.contents output) (W.contents written)) }
    ensures err { IfErr result (λ failure. IsFaultOf command.entry (R.remaining input.old) failure.fault) }
    ensures unwritten { IfErr result (λ failure. MatchOption failure.output (IsStop failure.fault) (λ left. left ≡ output)) }
    ensures unread { LeavesInput command.entry input.old input.new }
{
    let job = match prepare(alloc, command, input) {
        Ok(job) => job,
        Err(fault) => return Err(Failure::untouched(fault, output)),
    };
    finish::<C, W>(alloc, job, output)
}

/// Lets the guests of a script act in threads of their own, before one mediated world, and waits for them. What was reported to them goes
/// to `output` once all are through and the log was compared with it, through a buffer that is empty at the end, and the output is given
/// back.
///
/// A fault of the script or of its set-up is the one that its definition gives, where it is known what there is to read.
///
/// # Errors
///
/// A [`Failure`] holds the [`Fault`]. A failed input, a faulty script or set-up, a wait that is never met, and a log that differs from what
/// was reported to the guests, come before anything is written: `output` is as it was. It can be `None` only where memory was refused or
/// the output failed.
pub fn perform_run<C: One, P: Threads + Wait + Clock + Sync, R: Read, W: Write + Drop>(
    rt: &P,
    alloc: Global,
    input: &mut R,
    output: W,
) -> Result<W, Failure<W>>
    ensures ok { IfOk result (λ written. PrintsText (R.remaining input.old) (W.contents output) (W.contents written)) }
    ensures err { IfErr result (λ failure. IsRunFault (R.remaining input.old) failure.fault) }
    ensures unwritten { IfErr result (λ failure. MatchOption failure.output (IsStop failure.fault) (λ left. left ≡ output)) }
{
    let played = match running::played(rt, alloc, input) {
        Ok(played) => played,
        Err(fault) => return Err(Failure::untouched(fault, output)),
    };
    finish::<C, W>(alloc, Job::Played(played), output)
}

// Does what is left to do, and gives the output back where that went well.
fn finish<C: One, W: Write + Drop>(alloc: Global, job: Job, output: W) -> Result<W, Failure<W>>
    requires { IsPrintable job }
    ensures ok { IfOk result (λ written. PrintsJob C.built job (W.contents output) (W.contents written)) }
    ensures err { IfErr result (λ failure. IsStop failure.fault) }
    ensures lost { IfErr result (λ failure. failure.output ≡ None) }
{
    match carry_out::<C, W>(alloc, job, output) {
        Ok(written) => Ok(written),
        Err(fault) => Err(Failure {
            fault,
            output: None,
        }),
    }
}

// Reads what a command needs.
fn prepare<R: Read>(alloc: Global, command: Command<'_>, input: &mut R) -> Result<Job, Fault>
    ensures ok { IfOk result (IsJobOf command.entry (R.remaining input.old)) }
    ensures err { IfErr result (IsFaultOf command.entry (R.remaining input.old)) }
    ensures unread { LeavesInput command.entry input.old input.new }
{
    match command {
        Command::Decode {
            kind: EntryKind::Submission,
            digits,
        } => {
            let entry = decode::submission(digits).ok_or(Fault::BadBytes)?;
            Ok(Job::Submission(entry))
        }
        Command::Decode {
            kind: EntryKind::Completion,
            digits,
        } => {
            let entry = decode::completion(digits).ok_or(Fault::BadBytes)?;
            Ok(Job::Completion(entry))
        }
        Command::Once => {
            let script = once::read(alloc, input)?;
            Ok(Job::Script(script))
        }
        Command::Replay => {
            let replay = replay::read(alloc, input)?;
            Ok(Job::Replay(replay))
        }
    }
}

// Does what is left to do, and gives the output back.
fn carry_out<C: One, W: Write + Drop>(alloc: Global, job: Job, output: W) -> Result<W, Fault>
    requires { IsPrintable job }
    ensures ok { IfOk result (λ written. PrintsJob C.built job (W.contents output) (W.contents written)) }
    ensures err { IfErr result IsStop }
{
    let Ok(mut buffer) = BufWriter::new(alloc, output) else {
        return Err(Fault::NoMemory);
    };
    print::<C, BufWriter<W>>(alloc, job, &mut buffer)?;
    let Ok(mut written) = buffer.into_inner() else {
        return Err(Fault::CannotWrite);
    };
    written.flush().map_err(Fault::of_output)?;
    Ok(written)
}

// Prints what is left to do.
fn print<C: One, W: Write>(alloc: Global, job: Job, output: &mut W) -> Result<(), Fault>
    requires { IsPrintable job }
    ensures ok { OnOk result (PrintsJob C.built job (W.contents output.old) (W.contents output.new)) }
    ensures err { IfErr result IsStop }
{
    match job {
        Job::Submission(entry) => lines::write_submission(&entry, output)?,
        Job::Completion(entry) => lines::write_completion(&entry, output)?,
        Job::Script(script) => once::run::<C, W>(alloc, &script, output)?,
        Job::Replay(replay) => nv_replay::run(alloc, replay, output)?,
        Job::Played(played) => nv_run::print(&played, output)?,
    }
    Ok(())
}
