//! A guest's act under the lock, and its reply twice.

ghost use Rattle.std.specs.Prelude.{◌≡◌, ◌≢◌, ℕ, IfOk, List, OnErr, Some, length, slice_get};
ghost use Rattle.nv_core.specs.Seat.{bytes_told};
ghost use Rattle.nv_threads.specs.Told.{bytes_of, room_of};
ghost use Rattle.nv_world.specs.Mediated.{IsLogged, mediated};

use nv_mem::{Bytes, NoMemory};
use nv_model::{Act, Reply};
use nv_world::World;
use nv_world_model::Event;
use std::alloc::Global;

/// How many bytes the dword of a register has.
const REGISTER_BYTES: usize = 4;

/// Carries out a guest's act in the world. Its reply comes twice; room for the bytes of the second is taken first, where the reply will
/// have some, and none else. Where no memory is left, nothing has changed.
pub(crate) fn tell(
    world: &mut World,
    alloc: Global,
    guest: u8,
    act: Act,
) -> Result<(Reply, Reply), NoMemory>
    ensures logged { IfOk result (λ told. IsLogged (Event.Guest guest act) (mediated world.old) told.0 (mediated world.new)) }
    ensures twice { IfOk result (λ told. told.1 ≡ told.0) }
    ensures memory { IfOk result (λ told. told.0 ≢ Reply.NoMemory) }
    ensures err { OnErr result (mediated world.new ≡ mediated world.old) }
{
    let room = room_for(world, alloc, guest, &act)?;
    let reply = world.step(alloc, Event::Guest(guest, act));
    if let Reply::NoMemory = &reply {
        return Err(NoMemory);
    }
    let again = filled(room, &reply);
    Ok((reply, again))
}

// Room for the bytes that an act will be answered, where it will have some.
fn room_for(world: &World, alloc: Global, guest: u8, act: &Act) -> Result<Option<Bytes>, NoMemory>
    ensures { IfOk result (λ room. room_of room ≡ bytes_of (slice_get world.now.geometry.guests guest) act.now) }
{
    let Some(len) = bytes_of(world, guest, act) else {
        return Ok(None);
    };
    let room = Bytes::new(alloc, vec![in alloc; 0; len]?)?;
    Ok(Some(room))
}

// How many bytes an act will be answered, if it will have some.
fn bytes_of(world: &World, guest: u8, act: &Act) -> Option<usize>
    ensures { result ≡ bytes_of (slice_get world.now.geometry.guests guest) act.now }
{
    let map = world.map(guest)?;
    match act {
        Act::Load { addr, len } => {
            if map.holds(*addr, *len) {
                Some(*len as usize)
            } else {
                None
            }
        }
        Act::RegRead { offset } => {
            if *offset % 4 == 0 {
                Some(REGISTER_BYTES)
            } else {
                None
            }
        }
        Act::Store { addr: _, bytes: _ } => None,
        Act::RegWrite {
            offset: _,
            value: _,
        } => None,
        Act::Doorbell {
            offset: _,
            value: _,
        } => None,
    }
}

// A reply once more, its bytes in this room.
fn filled(room: Option<Bytes>, reply: &Reply) -> Reply
    requires { (bytes : List ℕ) → bytes_told reply.now ≡ Some bytes → room_of room ≡ Some (length bytes) }
    ensures { result ≡ reply.now }
{
    match reply {
        Reply::Done => Reply::Done,
        Reply::Bytes(bytes) => {
            let Some(mut room) = room else { unreachable!() };
            room.copy_from_slice(bytes.as_slice());
            Reply::Bytes(room)
        }
        Reply::Idle => Reply::Idle,
        Reply::Busy => Reply::Busy,
        Reply::Held => Reply::Held,
        Reply::Stale => Reply::Stale,
        Reply::Unmapped => Reply::Unmapped,
        Reply::Ignored => Reply::Ignored,
        Reply::NoMemory => Reply::NoMemory,
    }
}
