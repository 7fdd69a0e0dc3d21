//! The drive: a device that shares the memory with the mediator, and nothing else.

ghost use Rattle.std.specs.Prelude.{◌≡◌, ◌&&◌, length, nat_lt};
ghost use Rattle.nv_mem.specs.Lent.{bytes_of_hosts};
ghost use Rattle.nv_world_model.specs.Area.{tag_count};

use crate::watched::Watched;
use nv_device::{Device, IDENTIFIERS, Response};
use nv_entry::Status;
use nv_mem::{Host, NoMemory};
use nv_model::Reply;
use nv_world_model::Event;
use std::alloc::Global;

/// Carries out an event of the drive; any other is ignored. Stale where the device may not be asked that, which a mediator never makes it.
pub fn step(
    alloc: Global,
    event: &Event,
    device: &mut Device,
    memory: &mut [Watched],
) -> Result<Reply, NoMemory>
    ensures len { length (bytes_of_hosts memory.new) ≡ length (bytes_of_hosts memory.old) }
{
    let Some(watched) = memory.first_mut() else {
        return Ok(Reply::Ignored);
    };
    step_on(alloc, event, device, &mut watched.host)
}

// The same on the host's memory.
fn step_on(
    alloc: Global,
    event: &Event,
    device: &mut Device,
    host: &mut Host,
) -> Result<Reply, NoMemory>
    ensures len { length host.new ≡ length host.old }
{
    match event {
        Event::DevTake(lane) => take(alloc, *lane, device, host),
        Event::DevMove(lane, slot, number) => Ok(move_unit(*lane, *slot, *number, device, host)),
        Event::DevPost(lane, slot) => Ok(post(*lane, *slot, device, host)),
        Event::DevFail(lane, slot, status) => Ok(fail(*lane, *slot, *status, device, host)),
        Event::Keep(block) => Ok(reply_of(device.keep(*block))),
        _ => Ok(Reply::Ignored),
    }
}

/// Whether an event of the drive would be done now.
pub fn is_due(event: &Event, device: &Device) -> bool {
    match event {
        Event::DevTake(lane) => *lane < device.lanes() && device.waits(*lane),
        Event::DevMove(lane, slot, number) => {
            has_slot(device, *lane, *slot) && device.has_left(*lane, *slot, *number)
        }
        Event::DevPost(lane, slot) => {
            has_slot(device, *lane, *slot) && device.has_ended(*lane, *slot)
        }
        _ => false,
    }
}

// Whether there is such a lane and such a slot.
fn has_slot(device: &Device, lane: u8, slot: u8) -> bool
    ensures { result ≡ (nat_lt lane (length device.now.lanes) && nat_lt slot tag_count) }
{
    lane < device.lanes() && slot < IDENTIFIERS
}

// The front entry of a lane is taken.
fn take(alloc: Global, lane: u8, device: &mut Device, host: &Host) -> Result<Reply, NoMemory> {
    if lane >= device.lanes() {
        return Ok(Reply::Ignored);
    }
    if !device.has_area(host) || !device.may_take(lane, host) {
        return Ok(Reply::Stale);
    }
    let response = device.take(alloc, lane, host)?;
    Ok(reply_of(response))
}

// A unit of a command is moved.
fn move_unit(lane: u8, slot: u8, number: u64, device: &mut Device, host: &mut Host) -> Reply
    ensures len { length host.new ≡ length host.old }
{
    if !has_slot(device, lane, slot) {
        return Reply::Ignored;
    }
    if !device.may_move(lane, slot, number, host) {
        return Reply::Stale;
    }
    reply_of(device.move_unit(lane, slot, number, host))
}

// A command is completed.
fn post(lane: u8, slot: u8, device: &mut Device, host: &mut Host) -> Reply
    ensures len { length host.new ≡ length host.old }
{
    if !has_slot(device, lane, slot) {
        return Reply::Ignored;
    }
    if !device.has_area(host) {
        return Reply::Stale;
    }
    reply_of(device.post(lane, slot, host))
}

// A command fails.
fn fail(lane: u8, slot: u8, status: Status, device: &mut Device, host: &mut Host) -> Reply
    ensures len { length host.new ≡ length host.old }
{
    if !has_slot(device, lane, slot) {
        return Reply::Ignored;
    }
    if !device.holds(lane, slot) {
        return Reply::Idle;
    }
    if status.is_success() {
        return Reply::Ignored;
    }
    if !device.has_area(host) {
        return Reply::Stale;
    }
    reply_of(device.fail(lane, slot, status, host))
}

// What is answered where the device has answered.
fn reply_of(response: Response) -> Reply {
    match response {
        Response::Done => Reply::Done,
        Response::Idle => Reply::Idle,
    }
}
