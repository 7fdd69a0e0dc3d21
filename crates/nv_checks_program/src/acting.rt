//! What a guest's thread does by its port.

use nv_bringup::{BRING_UP, act_of, bytes_of};
use nv_mem::{BoxedBytes, NoMemory};
use nv_model::{Act, Reply};
use nv_threads::{Port, Shared};
use std::alloc::Global;
use std::sync::Wait;
use std::thread;
use std::time::{Clock, Duration};

/// How often a guest polls for a completion, 100 microseconds apart.
const LOOKS: u32 = 200_000;

/// A guest at its port.
#[derive(Drop)]
pub struct Seat<'a> {
    pub alloc: Global,
    pub shared: &'a Shared,
    pub port: &'a mut Port,
}

// Whether an act is done.
fn is_done<R: Wait>(rt: &R, seat: &mut Seat<'_>, act: Act) -> Result<bool, NoMemory> {
    let reply = seat.port.act(rt, seat.alloc, seat.shared, act)?;
    Ok(matches!(reply, Reply::Done))
}

/// Whether the guest stores bytes.
pub fn stores<R: Wait>(
    rt: &R,
    seat: &mut Seat<'_>,
    addr: u64,
    bytes: &[u8],
) -> Result<bool, NoMemory> {
    let bytes = BoxedBytes::from_slice(seat.alloc, bytes)?;
    is_done(rt, seat, Act::Store { addr, bytes })
}

/// Whether these bytes are in the guest's memory.
pub fn finds<R: Wait>(
    rt: &R,
    seat: &mut Seat<'_>,
    addr: u64,
    bytes: &[u8],
) -> Result<bool, NoMemory> {
    let act = Act::Load {
        addr,
        len: bytes.len() as u64,
    };
    let reply = seat.port.act(rt, seat.alloc, seat.shared, act)?;
    match &reply {
        Reply::Bytes(found) => Ok(found.as_slice() == bytes),
        _ => Ok(false),
    }
}

// Whether a doorbell is rung.
fn rings<R: Wait>(rt: &R, seat: &mut Seat<'_>, offset: u32, value: u32) -> Result<bool, NoMemory> {
    is_done(rt, seat, Act::Doorbell { offset, value })
}

/// Whether a dword of the guest's memory comes to have that value.
pub fn awaits<R: Wait + Clock>(
    rt: &R,
    seat: &mut Seat<'_>,
    addr: u64,
    value: u32,
) -> Result<bool, NoMemory> {
    for _look in 0..LOOKS {
        if finds(rt, seat, addr, &value.to_le_bytes())? {
            return Ok(true);
        }
        thread::sleep(rt, Duration::from_micros(100));
    }
    Ok(false)
}

// Whether the guest does what its bring-up takes.
fn does_all<R: Wait>(rt: &R, seat: &mut Seat<'_>) -> Result<bool, NoMemory> {
    for deed in BRING_UP {
        let act = act_of(seat.alloc, deed)?;
        if !is_done(rt, seat, act)? {
            return Ok(false);
        }
    }
    Ok(true)
}

/// Whether the guest's queue pair 1 is made.
pub fn brings_up<R: Wait + Clock>(rt: &R, seat: &mut Seat<'_>) -> Result<bool, NoMemory> {
    Ok(does_all(rt, seat)? && awaits(rt, seat, 0x1_101c, 0x0001_0002)?)
}

/// Whether a command in a slot of the submission queue is completed with that last dword.
pub fn ends<R: Wait + Clock>(
    rt: &R,
    seat: &mut Seat<'_>,
    slot: u32,
    entry: &[u32; 16],
    dword: u32,
) -> Result<bool, NoMemory> {
    if slot >= 15 {
        return Ok(false);
    }
    let at = u64::from(slot);
    Ok(
        stores(rt, seat, 0x1_3000 + 64 * at, &bytes_of(entry))?
            && rings(rt, seat, 0x1008, slot + 1)?
            && awaits(rt, seat, 0x1_200c + 16 * at, dword)?,
    )
}
