//! Completions of the device.

ghost use Rattle.std.specs.Prelude.{◌≡◌, ◌<◌, IfSome, IsSome, is_some, false, length};
ghost use Rattle.nv_world_model.specs.Area.{tag_count};
ghost use Rattle.nv_world_model.specs.Device.{held_status};
ghost use Rattle.nv_world_model.specs.Step.{is_success};
ghost use Rattle.nv_device.specs.Physical.{HoldsArea, done_where, has_ended, held_at};
ghost use Rattle.nv_device.specs.Posting.{IsPosted};

use crate::device::Device;
use crate::response::Response;
use nv_entry::{Cqe, Status};
use nv_mem::Host;

impl Device {
    /// The completion of the command at a slot is posted: with success, or with Compare Failure where a Compare has differed.
    /// Idle where no command is there, or one that has units left.
    pub fn post(&mut self, lane: u8, slot: u8, host: &mut Host) -> Response
        requires lane { lane < length self.old.lanes }
        requires slot { slot < tag_count }
        requires area { HoldsArea (length host.old) self.old }
        ensures response { result ≡ done_where (has_ended (held_at self.old lane slot)) }
        ensures done { result ≡ Response.Done →
            IfSome (held_at self.old lane slot) (λ h. IsPosted lane slot (held_status h) host.old self.old host.new self.new) }
        ensures idle { result ≡ Response.Idle → (self.new ≡ self.old) × (host.new ≡ host.old) }
        ensures size { length host.new ≡ length host.old }
    {
        let ring = &self.lanes[usize::from(lane)];
        let Some(command) = ring.command(slot) else {
            return Response::Idle;
        };
        if !command.has_ended() {
            return Response::Idle;
        }
        let status = command.status();
        self.complete(lane, slot, status, host);
        Response::Done
    }

    /// The command at a slot fails: its completion is posted with that status, whatever units it has left. Idle where no
    /// command is there.
    pub fn fail(&mut self, lane: u8, slot: u8, status: Status, host: &mut Host) -> Response
        requires lane { lane < length self.old.lanes }
        requires slot { slot < tag_count }
        requires failure { is_success status ≡ false }
        requires area { HoldsArea (length host.old) self.old }
        ensures response { result ≡ done_where (is_some (held_at self.old lane slot)) }
        ensures done { result ≡ Response.Done → IsPosted lane slot status host.old self.old host.new self.new }
        ensures idle { result ≡ Response.Idle → (self.new ≡ self.old) × (host.new ≡ host.old) }
        ensures size { length host.new ≡ length host.old }
    {
        let ring = &self.lanes[usize::from(lane)];
        if ring.command(slot).is_none() {
            return Response::Idle;
        }
        self.complete(lane, slot, status, host);
        Response::Done
    }

    /// Whether the device holds a command at a slot.
    pub fn holds(&self, lane: u8, slot: u8) -> bool
        requires lane { lane < length self.now.lanes }
        requires slot { slot < tag_count }
        ensures { result ≡ is_some (held_at self.now lane slot) }
    {
        let ring = &self.lanes[usize::from(lane)];
        ring.command(slot).is_some()
    }

    /// Whether the device holds a command at a slot of which all units have moved.
    pub fn has_ended(&self, lane: u8, slot: u8) -> bool
        requires lane { lane < length self.now.lanes }
        requires slot { slot < tag_count }
        ensures { result ≡ has_ended (held_at self.now lane slot) }
    {
        let ring = &self.lanes[usize::from(lane)];
        match ring.command(slot) {
            Some(command) => command.has_ended(),
            None => false,
        }
    }

    /// Posts a completion of that status, and drops the command.
    fn complete(&mut self, lane: u8, slot: u8, status: Status, host: &mut Host)
        requires lane { lane < length self.old.lanes }
        requires slot { slot < tag_count }
        requires area { HoldsArea (length host.old) self.old }
        ensures posted { IsPosted lane slot status host.old self.old host.new self.new }
        ensures size { length host.new ≡ length host.old }
    {
        let ring = &self.lanes[usize::from(lane)];
        let queue = u16::from(lane) + 1;
        let (head, posted, phase) = (ring.head(), ring.posted(), ring.phase());
        let cqe = Cqe::new(0, head, queue, u16::from(slot), phase, status);
        let addr = self.completion_slot(lane, posted);
        host.store(addr, &cqe.bytes());
        self.lanes[usize::from(lane)].complete(slot);
    }
}
