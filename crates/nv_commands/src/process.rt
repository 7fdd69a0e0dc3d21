//! The program, but for which words are a command.
ghost use Rattle.std.specs.Prelude.{◌≡◌, IfErr, IfOk, IsOkAnd, MatchOption, MatchResult, OnOk};
ghost use Rattle.nv_commands.specs.Command.{IsFaultOf, LeavesInput, Prints};
ghost use Rattle.nv_commands.specs.Fault.{fault_of};
ghost use Rattle.nv_commands.specs.Once.{IsStop};
ghost use Rattle.nv_commands.specs.Request.{IsFaultOfRequest, PrintsRequest, RequestLeavesInput};

use crate::command::{Command, Failure, perform, perform_run};
use crate::exit_status::ExitStatus;
use crate::fault::{Fault, report};
use crate::grammar::{Grammar, request_of, words};
use crate::refusal::Refusal;
use crate::request::Request;
use nv_flat::One;
use std::alloc::Global;
use std::io::{Read, Write};
use std::process::ExitCode;
use std::rt::Env;
use std::sync::Wait;
use std::thread::Threads;
use std::time::Clock;

/// Does the command that the words are, on a controller of the kind `C` where it is a script. A fault is one line of `faults`, which is
/// left alone where there is none.
///
/// It ends well only if the words are a command and the output has grown by what that command prints.
///
/// # Errors
///
/// A [`Failure`] holds the [`Fault`] of the command, as [`perform`] returns it. Words that are no command are a fault before anything is
/// read or written: [`Fault::Usage`] or [`Fault::NoMemory`], by their [`Refusal`]. The output is then given back as it was.
pub fn run<C: One, R: Read, W: Write + Drop, E: Write>(
    alloc: Global,
    command: Result<Command<'_>, Refusal>,
    input: &mut R,
    output: W,
    faults: &mut E,
) -> Result<W, Failure<W>>
    ensures ok { IfOk result (λ written. IsOkAnd command.entry (λ known. Prints C.built known (R.remaining input.old) (W.contents output) (W.contents written))) }
    ensures err { IfErr result (λ failure. MatchResult command.entry (λ known. IsFaultOf known (R.remaining input.old) failure.fault) (λ refusal. failure.fault ≡ fault_of refusal)) }
    ensures unwritten { IfErr result (λ failure. MatchOption failure.output (IsStop failure.fault) (λ left. left ≡ output)) }
    ensures unread { MatchResult command.entry (λ known. LeavesInput known input.old input.new) (λ _. input.new ≡ input.old) }
    ensures quiet { OnOk result (faults.new ≡ faults.old) }
{
    let ended = match command {
        Ok(command) => perform::<C, R, W>(alloc, command, input, output),
        Err(refusal) => Err(Failure::untouched(Fault::from(refusal), output)),
    };
    tell(&ended, faults);
    ended
}

// Reports the fault with which a command ended, if it ended with one. Where that cannot be reported, nobody is left to report it to.
fn tell<W, E: Write>(ended: &Result<W, Failure<W>>, faults: &mut E)
    ensures { OnOk ended.now (faults.new ≡ faults.old) }
{
    if let Err(failure) = ended {
        let _ = report(failure.fault, faults);
    }
}

/// Does what the words ask for, on a controller of the kind `C` where that is a script of `once`. A fault is one line of `faults`, which is
/// left alone where there is none. Only the guests of `run` are waited for.
///
/// It ends well only if the words ask for something and the output has grown by what that prints.
///
/// # Errors
///
/// A [`Failure`] holds the [`Fault`], as [`perform`] or [`perform_run`] returns it. Words that ask for nothing are a fault before anything
/// is read or written: [`Fault::Usage`] or [`Fault::NoMemory`], by their [`Refusal`]. The output is then given back as it was.
pub fn serve<C: One, P: Threads + Wait + Clock + Sync, R: Read, W: Write + Drop, E: Write>(
    rt: &P,
    alloc: Global,
    request: Result<Request<'_>, Refusal>,
    input: &mut R,
    output: W,
    faults: &mut E,
) -> Result<W, Failure<W>>
    ensures ok { IfOk result (λ written. IsOkAnd request.entry (λ known. PrintsRequest C.built known (R.remaining input.old) (W.contents output) (W.contents written))) }
    ensures err { IfErr result (λ failure. MatchResult request.entry (λ known. IsFaultOfRequest known (R.remaining input.old) failure.fault) (λ refusal. failure.fault ≡ fault_of refusal)) }
    ensures unwritten { IfErr result (λ failure. MatchOption failure.output (IsStop failure.fault) (λ left. left ≡ output)) }
    ensures unread { MatchResult request.entry (λ known. RequestLeavesInput known input.old input.new) (λ _. input.new ≡ input.old) }
    ensures quiet { OnOk result (faults.new ≡ faults.old) }
{
    match request {
        Ok(Request::Alone(command)) => {
            run::<C, R, W, E>(alloc, Ok(command), input, output, faults)
        }
        Ok(Request::Run) => {
            let ended = perform_run::<C, P, R, W>(rt, alloc, input, output);
            tell(&ended, faults);
            ended
        }
        Err(refusal) => run::<C, R, W, E>(alloc, Err(refusal), input, output, faults),
    }
}

/// The whole program: does what the words of a process ask for in the grammar `G`, on its streams, and answers what the process is to end
/// with. A script of `once` runs on a controller of the kind `C`, and the threads of `run` are those of `rt`.
pub fn program<
    G: Grammar,
    C: One,
    P: Env + AllocGlobal,
    T: Threads + Wait + Clock + Sync,
    R: Read,
    W: Write + Drop,
    E: Write,
>(process: &P, rt: &T, input: &mut R, output: W, faults: &mut E) -> ExitCode {
    let words = words(process);
    let request = match &words {
        Ok(words) => request_of::<G, String>(process.alloc(), words),
        Err(refusal) => Err(*refusal),
    };
    let ended = serve::<C, T, R, W, E>(rt, process.alloc(), request, input, output, faults);
    ExitCode::from(ExitStatus::of(&ended))
}
