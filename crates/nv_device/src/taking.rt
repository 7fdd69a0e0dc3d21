//! Entries that the device takes.

ghost use Rattle.std.specs.Prelude.{◌≡◌, ◌<◌, ◌↔◌, IsTrue, IfOk, OnErr, length};
ghost use Rattle.nv_device.specs.Physical.{HoldsArea, done_where};
ghost use Rattle.nv_device.specs.Taking.{MayTake, front_of, taken, waits};

use crate::command::{self, Command};
use crate::device::Device;
use crate::lane::IDENTIFIERS;
use crate::response::Response;
use nv_entry::Sqe;
use nv_mem::{Host, NoMemory};
use std::alloc::Global;

impl Device {
    /// Whether the front entry of a lane's submission ring may be taken, if one waits: its bytes and its list lie in the host,
    /// its blocks are on the disk, and no command in the device has its identifier, which is below 64. It is what
    /// [`Device::take`] requires.
    pub fn may_take(&self, lane: u8, host: &Host) -> bool
        requires lane { lane < length self.now.lanes }
        requires area { HoldsArea (length host.now) self.now }
        ensures { IsTrue result ↔ MayTake lane host.now self.now }
    {
        let ring = &self.lanes[usize::from(lane)];
        if ring.is_idle() {
            return true;
        }
        let sqe = self.front_entry(lane, host);
        let identifier = sqe.cid();
        identifier < u16::from(IDENTIFIERS)
            && ring.command(identifier as u8).is_none()
            && command::lies_in(&sqe, host)
            && command::is_on_disk(&sqe, self.blocks())
    }

    /// Takes the front entry of a lane's submission ring into the device, under its identifier, and reads its PRP list: where its bytes lie
    /// is settled now. Idle where no entry waits.
    ///
    /// # Errors
    ///
    /// [`NoMemory`] where memory for the command is refused: nothing has changed.
    pub fn take(&mut self, alloc: Global, lane: u8, host: &Host) -> Result<Response, NoMemory>
        requires lane { lane < length self.old.lanes }
        requires area { HoldsArea (length host.now) self.old }
        requires may { MayTake lane host.now self.old }
        ensures response { IfOk result (λ response. response ≡ done_where (waits lane self.old)) }
        ensures state { IfOk result (λ _. self.new ≡ taken lane host.now self.old) }
        ensures err { OnErr result (self.new ≡ self.old) }
    {
        let ring = &self.lanes[usize::from(lane)];
        if ring.is_idle() {
            return Ok(Response::Idle);
        }
        let sqe = self.front_entry(lane, host);
        let command = Command::new(alloc, sqe, host)?;
        self.lanes[usize::from(lane)].take(sqe.cid() as u8, command);
        Ok(Response::Done)
    }

    /// Whether an entry of a lane's submission ring waits.
    pub fn waits(&self, lane: u8) -> bool
        requires { lane < length self.now.lanes }
        ensures { result ≡ waits lane self.now }
    {
        !self.lanes[usize::from(lane)].is_idle()
    }

    /// The entry in the slot of a lane's submission ring that is taken next.
    fn front_entry(&self, lane: u8, host: &Host) -> Sqe
        requires lane { lane < length self.now.lanes }
        requires area { HoldsArea (length host.now) self.now }
        ensures { result ≡ front_of lane host.now self.now }
    {
        let head = self.lanes[usize::from(lane)].head();
        let mut bytes = [0; 64];
        host.load(self.submission_slot(lane, head), &mut bytes);
        Sqe::of(&bytes)
    }
}
