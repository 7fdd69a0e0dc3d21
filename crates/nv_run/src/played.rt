//! A run from its world to its answers.

ghost use Rattle.std.specs.Prelude.{IfOk};
ghost use Rattle.nv_run.specs.Played.{IsPlayed};

use crate::driven::{Driven, End};
use crate::fault::RunFault;
use crate::opening::Run;
use crate::part::Part;
use crate::stage::{Staged, stage};
use crate::walk::check_parts;
use nv_threads::{Port, Share, Shared, finish};
use nv_world::World;
use std::alloc::{AllocError, Global};
use std::sync::Wait;
use std::thread::Threads;
use std::time::Clock;

/// A run that ended well.
#[derive(Drop)]
pub struct Played {
    /// the world after it
    pub world: World,
    /// the guests' ports
    pub ports: Vec<Port>,
    /// how much each worker put into the log
    pub shares: Vec<Share>,
    /// what each guest did, by its number
    pub parts: Vec<Part>,
}

/// Runs the guests of a script in threads of their own, beside the mediator's workers.
///
/// # Errors
///
/// Memory was refused to a guest's thread, or to what goes on around the threads; else the lowest line whose wait wasn't met; else the first
/// difference between the log and what ports and workers kept, or between what a port got and what its guest's lines say.
pub fn play<R: Threads + Wait + Clock + Sync>(
    rt: &R,
    alloc: Global,
    run: Run,
) -> Result<Played, RunFault>
    ensures { IfOk result (IsPlayed run.parts.items) }
{
    let Run {
        world,
        lanes,
        guests,
        parts,
    } = run;
    let shared = Shared::new(world);
    let Staged { driven, shares } = stage(rt, alloc, &shared, lanes, guests, &parts)?;
    let world = shared.close();
    check_ends(&driven)?;
    let ports = ports_of(alloc, driven)?;
    finish(&world, &ports, &shares)?;
    check_parts(&parts, &ports)?;
    Ok(Played {
        world,
        ports,
        shares,
        parts,
    })
}

// The ports that the guests acted by.
fn ports_of(alloc: Global, driven: Vec<Driven>) -> Result<Vec<Port>, AllocError> {
    let mut ports = Vec::with_capacity(alloc, driven.len())?;
    for one in driven {
        let Driven { port, end: _ } = one;
        ports.push(port)?;
    }
    Ok(ports)
}

// That all guests' threads went through all their lines. Out of memory takes precedence over a wait that was not met. Of such waits the lowest line
// is reported.
fn check_ends(driven: &[Driven]) -> Result<(), RunFault> {
    let mut lowest = None;
    for one in driven {
        match one.end {
            End::Through => {}
            End::NoMemory => return Err(RunFault::NoMemory),
            End::NoCompletion { line } => lowest = Some(lower(lowest, line)),
        }
    }
    match lowest {
        Some(line) => Err(RunFault::NoCompletion { line }),
        None => Ok(()),
    }
}

// The lower of two lines.
fn lower(lowest: Option<u64>, line: u64) -> u64 {
    match lowest {
        Some(before) => before.min(line),
        None => line,
    }
}
