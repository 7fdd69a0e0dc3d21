//! Worlds in which a guest has a queue pair, and what it does there. What a call says of the world is not passed on: no test needs it for its proof.

use crate::simulated_guest::{Guest, rings};
use crate::simulated_worlds::{Extents, opened, step};
use nv_mem::{BoxedBytes, NoMemory};
use nv_model::{Act, Reply};
use nv_world::World;
use nv_world_model::Event;
use std::alloc::Global;
use std::process::Abort;
use std::test::Fail;

/// A world in which guest 0 has queue pair 1.
pub(crate) fn brought_up(alloc: Global, extents: &Extents) -> Result<World, Fail> {
    let mut world = opened(alloc, extents)?;
    bring_up(&mut world, alloc, 0)?;
    Ok(world)
}

/// A guest comes to have queue pair 1.
pub(crate) fn bring_up(world: &mut World, alloc: Global, guest: u8) -> Result<(), NoMemory> {
    let mut acts = Vec::new(alloc);
    Guest::new(false).bring_up(alloc, &mut acts)?;
    for act in acts {
        step(world, alloc, Event::Guest(guest, act));
    }
    step(world, alloc, Event::Admin(guest));
    step(world, alloc, Event::Admin(guest));
    Ok(())
}

/// A guest stores bytes.
pub(crate) fn store(
    world: &mut World,
    alloc: Global,
    guest: u8,
    addr: u64,
    bytes: &[u8],
) -> Result<(), NoMemory> {
    let bytes = BoxedBytes::from_slice(alloc, bytes)?;
    step(
        world,
        alloc,
        Event::Guest(guest, Act::Store { addr, bytes }),
    );
    Ok(())
}

/// A guest rings a doorbell.
pub(crate) fn ring(world: &mut World, alloc: Global, guest: u8, offset: u32, value: u32) {
    step(world, alloc, Event::Guest(guest, rings(offset, value)));
}

/// An event is done.
pub(crate) fn expect_done(rt: &impl Abort, world: &mut World, alloc: Global, event: Event) {
    assert!(rt; matches!(step(world, alloc, event), Reply::Done));
}
