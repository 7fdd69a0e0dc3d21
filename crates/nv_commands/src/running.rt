//! The subcommand `run`: the guests of a script, each in a thread of its own, before one mediated world.
ghost use Rattle.std.specs.Prelude.{IfErr, IfOk};
ghost use Rattle.nv_commands.specs.Run.{IsPlayFault, IsRunFault, RunOpens};
ghost use Rattle.nv_run.specs.Played.{AreRead, IsPlayOf, IsPlayed};

use crate::fault::Fault;
use crate::input::read_all;
use nv_run::{Played, Run};
use std::alloc::Global;
use std::io::Read;
use std::sync::Wait;
use std::thread::Threads;
use std::time::Clock;

/// The run of a script's guests, once all have finished and the log was compared with what they were shown. The script is read whole before any
/// guest acts.
///
/// # Errors
///
/// [`Fault::Script`], [`Fault::Refused`] and [`Fault::CannotRead`] come before any guest acts. [`Fault::NoCompletion`] names the lowest
/// line whose wait is not met. [`Fault::Mismatch`] where the log differs from what the guests were shown, or from the sum of all.
/// [`Fault::NoMemory`] where memory is refused.
pub fn played<P: Threads + Wait + Clock + Sync, R: Read>(
    rt: &P,
    alloc: Global,
    input: &mut R,
) -> Result<Played, Fault>
    ensures ok { IfOk result (IsPlayOf (R.remaining input.old)) }
    ensures err { IfErr result (IsRunFault (R.remaining input.old)) }
{
    let run = read(alloc, input)?;
    play(rt, alloc, run)
}

// Reads a script whole, and opens its world.
fn read<R: Read>(alloc: Global, input: &mut R) -> Result<Run, Fault>
    ensures opens { IfOk result (λ _. RunOpens (R.remaining input.old)) }
    ensures ok { IfOk result (λ run. AreRead (R.remaining input.old) run.parts.items) }
    ensures err { IfErr result (IsRunFault (R.remaining input.old)) }
{
    let text = read_all(alloc, input)?;
    let run = nv_run::read(alloc, &text)?;
    Ok(run)
}

// Lets its guests act.
fn play<P: Threads + Wait + Clock + Sync>(rt: &P, alloc: Global, run: Run) -> Result<Played, Fault>
    ensures ok { IfOk result (IsPlayed run.parts.items) }
    ensures err { IfErr result IsPlayFault }
{
    let played = nv_run::play(rt, alloc, run)?;
    Ok(played)
}
