//! What guest 0 does before there are workers, at the world itself.

use nv_bringup::{BRING_UP, Deed, act_of, bytes_of};
use nv_mem::BoxedBytes;
use nv_model::{Act, Reply};
use nv_world::World;
use nv_world_model::Event;
use std::alloc::Global;

// Whether the guest's act is done.
fn acts(world: &mut World, alloc: Global, act: Act) -> bool {
    matches!(world.step(alloc, Event::Guest(0, act)), Reply::Done)
}

/// Whether the guest stores bytes.
pub fn stores(world: &mut World, alloc: Global, addr: u64, bytes: &[u8]) -> bool {
    match BoxedBytes::from_slice(alloc, bytes) {
        Ok(bytes) => acts(world, alloc, Act::Store { addr, bytes }),
        Err(_) => false,
    }
}

/// Whether the guest stores an entry.
pub fn stores_entry(world: &mut World, alloc: Global, addr: u64, entry: &[u32; 16]) -> bool {
    stores(world, alloc, addr, &bytes_of(entry))
}

/// Whether the guest rings a doorbell.
pub fn rings(world: &mut World, alloc: Global, offset: u32, value: u32) -> bool {
    acts(world, alloc, Act::Doorbell { offset, value })
}

// Whether a deed of the guest's is done.
fn does(world: &mut World, alloc: Global, deed: &Deed) -> bool {
    match act_of(alloc, deed) {
        Ok(act) => acts(world, alloc, act),
        Err(_) => false,
    }
}

/// Whether an admin command of the guest is answered.
pub fn answers(world: &mut World, alloc: Global) -> bool {
    matches!(world.step(alloc, Event::Admin(0)), Reply::Done)
}

/// Whether the guest's queue pair 1 is made.
pub fn brings_up(world: &mut World, alloc: Global) -> bool {
    for deed in BRING_UP {
        if !does(world, alloc, deed) {
            return false;
        }
    }
    answers(world, alloc) && answers(world, alloc)
}
