//! Events of the physical controller.

ghost use Rattle.std.specs.Prelude.{◌≡◌, ◌&&◌, IfOk, OnErr, length, nat_lt};
ghost use Rattle.nv_core.specs.Answers.{said};
ghost use Rattle.nv_laws_sound.specs.Side.{tails_of};
ghost use Rattle.nv_core.specs.State.{IsOf, IsStep, state_of};
ghost use Rattle.nv_world_model.specs.Area.{tag_count};

use crate::front::Front;
use crate::layout::Layout;
use crate::state::Core;
use nv_device::{Device, IDENTIFIERS, Response};
use nv_entry::Status;
use nv_mem::{Host, NoMemory};
use nv_model::Reply;
use nv_world_model::Event;
use std::alloc::Global;

impl Core {
    /// The physical controller takes the front entry of a lane's submission ring. Idle where none waits, Ignored where there is no such
    /// lane.
    ///
    /// # Errors
    ///
    /// [`NoMemory`] where memory for the command in the controller is refused: nothing has changed. Memory is taken for that command.
    #[inline]
    pub fn dev_take(&mut self, alloc: Global, _layout: &Layout, lane: u8) -> Result<Reply, NoMemory>
        requires { IsOf _layout.now self.old }
        ensures ok { IfOk result (λ reply. IsStep _layout.now (Event.DevTake lane) self.old reply self.new) }
        ensures err { OnErr result (self.new ≡ self.old) }
    {
        let (device, front) = (&mut self.device, &self.front);
        device_takes(alloc, _layout, lane, &self.host, device, front)
    }

    /// The physical controller moves a unit, by its number, of the command that it holds in a slot of a lane. Idle where it holds none there,
    /// or one without such a unit left, Ignored where there is no such lane or slot.
    #[inline]
    pub fn dev_move(&mut self, _layout: &Layout, lane: u8, slot: u8, number: u64) -> Reply
        requires { IsOf _layout.now self.old }
        ensures { IsStep _layout.now (Event.DevMove lane slot number) self.old result self.new }
    {
        let (host, device) = (&mut self.host, &mut self.device);
        device_moves(_layout, lane, slot, number, host, device, &self.front)
    }

    /// The physical controller completes the command that it holds in a slot of a lane: with success, or with Compare Failure. Idle where it
    /// holds none there, or one that has units left, Ignored where there is no such lane or slot.
    #[inline]
    pub fn dev_post(&mut self, _layout: &Layout, lane: u8, slot: u8) -> Reply
        requires { IsOf _layout.now self.old }
        ensures { IsStep _layout.now (Event.DevPost lane slot) self.old result self.new }
    {
        let (host, device) = (&mut self.host, &mut self.device);
        device_posts(_layout, lane, slot, host, device, &self.front)
    }

    /// The command that the physical controller holds in a slot of a lane fails with that status. Idle where it holds none there, Ignored
    /// where there is no such lane or slot, or the status is that of success.
    #[inline]
    pub fn dev_fail(&mut self, _layout: &Layout, lane: u8, slot: u8, status: Status) -> Reply
        requires { IsOf _layout.now self.old }
        ensures { IsStep _layout.now (Event.DevFail lane slot status) self.old result self.new }
    {
        let (host, device) = (&mut self.host, &mut self.device);
        device_fails(_layout, lane, slot, status, host, device, &self.front)
    }
}

// The physical controller takes the front entry of a lane's submission ring.
#[inline(never)]
fn device_takes(
    alloc: Global,
    _layout: &Layout,
    lane: u8,
    host: &Host,
    device: &mut Device,
    _front: &Front,
) -> Result<Reply, NoMemory>
    requires { IsOf _layout.now (state_of host.now device.old _front.now) }
    ensures ok { IfOk result (λ reply.
        IsStep _layout.now (Event.DevTake lane) (state_of host.now device.old _front.now) reply (state_of host.now device.new _front.now)) }
    ensures err { OnErr result (device.new ≡ device.old) }
    ensures tails { tails_of device.new.lanes ≡ tails_of device.old.lanes }
{
    if lane >= device.lanes() {
        return Ok(Reply::Ignored);
    }
    if !device.waits(lane) {
        return Ok(Reply::Idle);
    }
    device.take(alloc, lane, host)?;
    Ok(Reply::Done)
}

// The physical controller moves a unit of the command that it holds in a slot of a lane.
#[inline(never)]
fn device_moves(
    _layout: &Layout,
    lane: u8,
    slot: u8,
    number: u64,
    host: &mut Host,
    device: &mut Device,
    _front: &Front,
) -> Reply
    requires { IsOf _layout.now (state_of host.old device.old _front.now) }
    ensures step { IsStep _layout.now (Event.DevMove lane slot number) (state_of host.old device.old _front.now) result
        (state_of host.new device.new _front.now) }
    ensures tails { tails_of device.new.lanes ≡ tails_of device.old.lanes }
{
    if !has_slot(device, lane, slot) {
        return Reply::Ignored;
    }
    let response = device.move_unit(lane, slot, number, host);
    reply_of(response)
}

// The physical controller completes the command that it holds in a slot of a lane.
#[inline(never)]
fn device_posts(
    _layout: &Layout,
    lane: u8,
    slot: u8,
    host: &mut Host,
    device: &mut Device,
    _front: &Front,
) -> Reply
    requires { IsOf _layout.now (state_of host.old device.old _front.now) }
    ensures step { IsStep _layout.now (Event.DevPost lane slot) (state_of host.old device.old _front.now) result (state_of host.new device.new _front.now) }
    ensures tails { tails_of device.new.lanes ≡ tails_of device.old.lanes }
{
    if !has_slot(device, lane, slot) {
        return Reply::Ignored;
    }
    let response = device.post(lane, slot, host);
    reply_of(response)
}

// The command that the physical controller holds in a slot of a lane fails with that status.
#[inline(never)]
fn device_fails(
    _layout: &Layout,
    lane: u8,
    slot: u8,
    status: Status,
    host: &mut Host,
    device: &mut Device,
    _front: &Front,
) -> Reply
    requires { IsOf _layout.now (state_of host.old device.old _front.now) }
    ensures step { IsStep _layout.now (Event.DevFail lane slot status) (state_of host.old device.old _front.now) result
        (state_of host.new device.new _front.now) }
    ensures tails { tails_of device.new.lanes ≡ tails_of device.old.lanes }
{
    if !has_slot(device, lane, slot) {
        return Reply::Ignored;
    }
    if !device.holds(lane, slot) {
        return Reply::Idle;
    }
    if status.is_success() {
        return Reply::Ignored;
    }
    device.fail(lane, slot, status, host);
    Reply::Done
}

/// Whether the physical controller has such a lane and such a slot.
pub(crate) fn has_slot(device: &Device, lane: u8, slot: u8) -> bool
    ensures { result ≡ (nat_lt lane (length device.now.lanes) && nat_lt slot tag_count) }
{
    lane < device.lanes() && slot < IDENTIFIERS
}

// What is answered where the physical controller has answered.
fn reply_of(response: Response) -> Reply
    ensures { result ≡ said response }
{
    match response {
        Response::Done => Reply::Done,
        Response::Idle => Reply::Idle,
    }
}
