//! The subcommand `replay`: a script's world, put through its events.
ghost use Rattle.std.specs.Prelude.{IfErr, IfOk};
ghost use Rattle.nv_commands.specs.Replay.{IsReplayFault, IsReplayOf};

use crate::fault::Fault;
use crate::input::read_all;
use nv_replay::Replay;
use std::alloc::Global;
use std::io::Read;

/// Reads a script whole, and opens its world. Where it is known what there is to read, that is what the script comes to, and a fault of
/// the script or of its set-up is the one that its definition gives.
///
/// # Errors
///
/// [`Fault::Script`] names the first faulty line. [`Fault::Refused`] says why the set-up is refused. [`Fault::CannotRead`] where the input
/// fails. [`Fault::NoMemory`] where memory is refused.
pub fn read<R: Read>(alloc: Global, input: &mut R) -> Result<Replay, Fault>
    ensures ok { IfOk result (IsReplayOf (R.remaining input.old)) }
    ensures err { IfErr result (IsReplayFault (R.remaining input.old)) }
{
    let text = read_all(alloc, input)?;
    let replay = nv_replay::read(alloc, &text)?;
    Ok(replay)
}
