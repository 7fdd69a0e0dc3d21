//! From a text to a world and the guests that act in it.

ghost use Rattle.std.specs.Prelude.{◌≡◌, ◌<◌, IfOk, map, MatchResult};
ghost use Rattle.nv_replay.specs.Opening.{IsFaultOf, set_up_of};
ghost use Rattle.nv_replay_script.specs.ReplaySetUp.{guest_value};
ghost use Rattle.nv_run.specs.Opening.{run_of};
ghost use Rattle.nv_run.specs.Parts.{AreParted};
ghost use Rattle.nv_run.specs.Played.{ArePartsOf};
ghost use Rattle.nv_world.specs.Mediated.{mediated};

use crate::part::{Part, cast};
use nv_model::limits::MOST_GUESTS;
use nv_replay::{ReplayFault, open_world};
use nv_replay_script::GuestSetUp;
use nv_run_script::{Script, parse};
use nv_threads::Port;
use nv_world::World;
use std::alloc::{AllocError, Global};

/// A guest before its run.
#[derive(Drop)]
pub struct Guest {
    /// what it acts by
    pub port: Port,
    /// the lane of its planner
    pub lane: u8,
    /// how many bytes its planner's heap has
    pub heap: u64,
}

/// A world that was just opened, and the guests that are to act in it.
#[derive(Drop)]
pub struct Run {
    /// the world
    pub(crate) world: World,
    /// how many lanes it has
    pub(crate) lanes: u8,
    /// its guests, in order
    pub(crate) guests: Vec<Guest>,
    /// what each guest is to do, by its number
    pub(crate) parts: Vec<Part>,
}

/// Reads a script whole, and opens its world.
///
/// # Errors
///
/// The first faulty line; the first guest whose regions are no map; why the set-up is refused; or that memory was refused.
pub fn read(alloc: Global, text: &[u8]) -> Result<Run, ReplayFault>
    ensures opened { MatchResult result (λ run. run_of text.now ≡ Ok (mediated run.world).setup) (IsFaultOf (run_of text.now)) }
    ensures parts { IfOk result (λ run. ArePartsOf text.now run.parts.items) }
{
    let script = parse(alloc, text)?;
    open(alloc, script)
}

// Opens the world of a script.
fn open(alloc: Global, script: Script) -> Result<Run, ReplayFault>
    ensures opened { let wanted = set_up_of script.sizes (map guest_value script.guests.items)
        in MatchResult result (λ run. wanted ≡ Ok (mediated run.world).setup) (IsFaultOf wanted) }
    ensures parts { IfOk result (λ run. AreParted script.lines.items run.parts.items) }
{
    let Script {
        sizes,
        guests,
        lines,
    } = script;
    let heaps = heaps_of(alloc, &guests)?;
    let world = open_world(alloc, sizes, guests)?;
    let lanes = sizes.lanes as u8;
    let guests = guests_with(alloc, lanes, &heaps)?;
    let parts = cast(alloc, lines)?;
    Ok(Run {
        world,
        lanes,
        guests,
        parts,
    })
}

// How many bytes the guests' planners' heaps have, in order.
fn heaps_of(alloc: Global, guests: &[GuestSetUp]) -> Result<Vec<u64>, AllocError> {
    let mut heaps = Vec::new(alloc);
    for guest in guests {
        heaps.push(guest.heap)?;
    }
    Ok(heaps)
}

// The guests with these heaps. A guest's planner works by the lane of its number modulo their number.
fn guests_with(alloc: Global, lanes: u8, heaps: &[u64]) -> Result<Vec<Guest>, AllocError>
    requires { 0 < lanes }
{
    let mut guests = Vec::new(alloc);
    for number in 0..MOST_GUESTS {
        let Some(heap) = heaps.get(usize::from(number)) else {
            break;
        };
        guests.push(Guest {
            port: Port::new(alloc, number),
            lane: number % lanes,
            heap: *heap,
        })?;
    }
    Ok(guests)
}
