//! From a text to the mediator that its script opens.
ghost use Rattle.std.specs.Prelude.{◌≡◌, map, IfOk, MatchResult, None};
ghost use Rattle.nv_replay_script.specs.ReplayScript.{script_value};
ghost use Rattle.nv_replay_script.specs.ReplaySetUp.{guest_value};
ghost use Rattle.nv_mediator.specs.Hosted.{IsAtStart, setup_of};
ghost use Rattle.nv_world.specs.Mediated.{mediated, opened};
ghost use Rattle.nv_world_model.specs.SetUp.{refusal_of};
ghost use Rattle.nv_replay.specs.Opening.{IsFaultOf, IsRefusalOf, extent_written, guests_from, limit_of, mapped_guest};
ghost use Rattle.nv_replay.specs.Opening.{opened_by, replay_of, set_up_of};

use crate::fault::ReplayFault;
use crate::refusal::SetUpRefusal;
use crate::replay::Replay;
use nv_mediator::Mediator;
use nv_mem::GuestMap;
use nv_model::limits::MOST_DESCRIPTORS;
use nv_replay_script::{ExtentLine, GuestSetUp, Script, Sizes, parse};
use nv_world::{Extent, GuestSetup, Setup, World};
use std::alloc::{AllocError, Global};

/// Reads a script whole, and opens its mediator.
///
/// # Errors
///
/// The first faulty line; the first guest whose regions are no map; why the set-up is refused; or that memory was refused.
pub fn read(alloc: Global, text: &[u8]) -> Result<Replay, ReplayFault>
    ensures { MatchResult result (λ replay. replay_of text.now ≡ Ok replay) (IsFaultOf (replay_of text.now)) }
{
    let script = parse(alloc, text)?;
    open(alloc, script)
}

// Opens the mediator of a script.
fn open(alloc: Global, script: Script) -> Result<Replay, ReplayFault>
    ensures { let wanted = opened_by (script_value script)
        in MatchResult result (λ replay. wanted ≡ Ok replay) (IsFaultOf wanted) }
{
    let Script {
        sizes,
        guests,
        events,
    } = script;
    let mediator = open_mediator(alloc, sizes, guests)?;
    Ok(Replay::new(mediator, events))
}

/// Opens the world of a script's sizes and guests: the guests' maps in order, then the set-up.
///
/// # Errors
///
/// The first guest whose regions are no map; why the set-up is refused; or that memory was refused.
pub fn open_world(
    alloc: Global,
    sizes: Sizes,
    guests: Vec<GuestSetUp>,
) -> Result<World, ReplayFault>
    ensures opened { let wanted = set_up_of sizes (map guest_value guests.items)
        in MatchResult result (λ world. wanted ≡ Ok (mediated world).setup) (IsFaultOf wanted) }
    ensures fresh { IfOk result (λ world. mediated world ≡ opened (mediated world).setup) }
    ensures accepted { IfOk result (λ world. refusal_of (mediated world).setup ≡ None) }
{
    let mediator = open_mediator(alloc, sizes, guests)?;
    Ok(World::of(alloc, mediator))
}

// Opens the mediator of a script's sizes and guests: the guests' maps in order, then the set-up.
fn open_mediator(
    alloc: Global,
    sizes: Sizes,
    guests: Vec<GuestSetUp>,
) -> Result<Mediator, ReplayFault>
    ensures opened { let wanted = set_up_of sizes (map guest_value guests.items)
        in MatchResult result (λ mediator. wanted ≡ Ok (setup_of mediator)) (IsFaultOf wanted) }
    ensures fresh { IfOk result (λ mediator. IsAtStart (setup_of mediator) mediator) }
    ensures accepted { IfOk result (λ mediator. refusal_of (setup_of mediator) ≡ None) }
{
    let guests = map_guests(alloc, sizes.host, guests)?;
    let setup = Setup {
        host_bytes: sizes.host,
        mediator: sizes.mediator,
        disk_blocks: sizes.disk,
        lanes: sizes.lanes,
        guests,
    };
    let mediator = Mediator::new(alloc, setup)?;
    Ok(mediator)
}

// The guests with their maps, in order.
fn map_guests(
    alloc: Global,
    host: u64,
    guests: Vec<GuestSetUp>,
) -> Result<Vec<GuestSetup>, ReplayFault>
    ensures { let wanted = guests_from host 0 (map guest_value guests.items)
        in MatchResult result (λ made. wanted ≡ Ok made.items) (IsRefusalOf wanted) }
{
    let mut made = Vec::with_capacity(alloc, guests.len())?;
    for guest in guests {
        let mapped = map_guest(alloc, host, made.len(), guest)?;
        made.push(mapped)?;
    }
    Ok(made)
}

// A guest with its map and its extents.
fn map_guest(
    alloc: Global,
    host: u64,
    number: usize,
    guest: GuestSetUp,
) -> Result<GuestSetup, ReplayFault>
    ensures { let wanted = mapped_guest host number (guest_value guest)
        in MatchResult result (λ made. wanted ≡ Ok made) (IsRefusalOf wanted) }
{
    match GuestMap::new(host, guest.regions) {
        Ok(map) => Ok(GuestSetup {
            map,
            extents: take_extents(alloc, &guest.extents)?,
            limit: limit_in_bits(guest.limit),
        }),
        Err(error) => Err(ReplayFault::Refused(SetUpRefusal::Map {
            guest: number,
            error,
        })),
    }
}

// The extents of a guest as a world takes them, in the order written.
fn take_extents(alloc: Global, written: &[ExtentLine]) -> Result<Vec<Extent>, AllocError>
    ensures { IfOk result (λ made. made.items ≡ map extent_written written.now) }
{
    written
        .iter()
        .map(|extent| Extent {
            base: extent.base,
            blocks: extent.blocks,
        })
        .collect(alloc)
}

// The most descriptors of a guest's list. What doesn't fit into 32 bits is no limit that may be, and stays none.
fn limit_in_bits(named: Option<u64>) -> u32
    ensures { result ≡ limit_of named }
{
    match named {
        None => MOST_DESCRIPTORS,
        Some(limit) => u32::try_from(limit).unwrap_or(u32::MAX),
    }
}
