//! A virtual controller with its guest's memory, whose calls are made where their conditions are tested to hold.

ghost use Rattle.std.specs.Prelude.{◌≡◌, true};
ghost use Rattle.nv_model.specs.Controller.{is_ready};
ghost use Rattle.nv_vctl.specs.Vctl.{IsIoQueue};

use crate::hand;
use nv_entry::Status;
use nv_mem::{GuestMap, Region};
use nv_model::limits::LAST_QUEUE;
use nv_ring::Ring;
use nv_vctl::{Posted, Vctl};
use std::alloc::Global;
use std::test::Fail;

/// How many bytes the host has.
const HOST_LEN: u64 = 0x3_0000;

/// The host address of the guest's memory, which goes from guest address 0 to 1FFFFh.
const GUEST_AT: u64 = 0x1_0000;

/// How many bytes the guest's memory has.
const GUEST_LEN: u64 = 0x2_0000;

/// A controller, its guest's map, and the host.
#[derive(Drop)]
pub struct Desk {
    pub vctl: Vctl,
    pub map: GuestMap,
    pub host: Vec<u8>,
}

impl Desk {
    /// A controller at the start; the guest's memory is zeros.
    pub fn new(alloc: Global) -> Result<Self, Fail> {
        let regions = vec![in alloc;
            Region {
                guest: 0,
                host: GUEST_AT,
                len: GUEST_LEN
            },
        ]?;
        let map = GuestMap::new(HOST_LEN, regions)?;
        let host = vec![in alloc; 0; HOST_LEN as usize]?;
        Ok(Desk {
            vctl: Vctl::new(),
            map,
            host,
        })
    }

    /// Stores bytes at a guest address, and says whether they lie in the host.
    pub fn store(&mut self, addr: u64, bytes: &[u8]) -> bool {
        let Some(at) = addr.checked_add(GUEST_AT) else {
            return false;
        };
        hand::put(&mut self.host, at, bytes)
    }

    /// Whether these bytes are at a guest address.
    pub fn shows(&self, addr: u64, bytes: &[u8]) -> bool {
        let Some(at) = addr.checked_add(GUEST_AT) else {
            return false;
        };
        hand::has(&self.host, at, bytes)
    }

    /// The identifier of the command at the front of a queue; none where none may be taken.
    pub fn front(&self, queue: u16) -> Option<u16> {
        if self.map.host_len() != self.host.len() as u64 || !self.vctl.lies_in(&self.map) {
            return None;
        }
        let sqe = self.vctl.peek_sqe(queue, &self.map, &self.host)?;
        Some(sqe.cid())
    }

    /// Takes the front command of a queue, and says whether it could be taken.
    pub fn take(&mut self, queue: u16) -> bool {
        if !self.vctl.waits(queue) || !self.vctl.counts_more(queue) {
            return false;
        }
        self.vctl.took(queue);
        true
    }

    /// Posts a completion with success; none where a condition does not hold.
    pub fn post(&mut self, queue: u16, cid: u16) -> Option<Posted> {
        if !self.vctl.is_ready() || (queue != 0 && self.vctl.taken(queue) == 0) {
            return None;
        }
        if self.map.host_len() != self.host.len() as u64 || !self.vctl.lies_in(&self.map) {
            return None;
        }
        let success = Status::new(0, 0, false);
        Some(
            self.vctl
                .post_cqe(queue, 0, cid, success, &self.map, &mut self.host),
        )
    }

    /// Lets a command run out, and says whether the conditions hold.
    pub fn run_out(&mut self, queue: u16) -> bool {
        if self.vctl.is_enabled() || queue == 0 || self.vctl.taken(queue) == 0 {
            return false;
        }
        self.vctl.ran_out(queue);
        true
    }

    /// Makes an I/O completion queue, and says whether the conditions hold.
    pub fn make_completion(&mut self, queue: u16, base: u64, size: u16) -> bool {
        if !self.may_change(queue) || !Ring::fits(size) {
            return false;
        }
        self.vctl.create_completion_queue(queue, base, size, None);
        true
    }

    /// Makes an I/O submission queue, and says whether the conditions hold.
    pub fn make_submission(&mut self, queue: u16, base: u64, size: u16, completes_to: u16) -> bool {
        if !self.may_change(queue) || !Ring::fits(size) {
            return false;
        }
        if !self.vctl.has_completion_queue(completes_to) {
            return false;
        }
        self.vctl
            .create_submission_queue(queue, base, size, completes_to);
        true
    }

    /// Closes an I/O submission queue, and says whether the conditions hold.
    pub fn close(&mut self, queue: u16, cid: u16) -> bool {
        if !self.may_change(queue) || !self.vctl.has_submission_queue(queue) {
            return false;
        }
        self.vctl.close_submission_queue(queue, cid);
        true
    }

    /// Deletes an I/O submission queue, and says whether the conditions hold.
    pub fn delete_submission(&mut self, queue: u16) -> bool {
        if !self.may_change(queue)
            || self.vctl.taken(queue) != 0
            || self.vctl.deletion().is_some()
        {
            return false;
        }
        self.vctl.delete_submission_queue(queue);
        true
    }

    /// Deletes an I/O completion queue, and says whether the conditions hold.
    pub fn delete_completion(&mut self, queue: u16) -> bool {
        if !self.may_change(queue) || self.vctl.uses_completion_queue(queue) {
            return false;
        }
        self.vctl.delete_completion_queue(queue);
        true
    }

    /// Finishes the deletion that waits, and gives the identifier of its command; none where the conditions do not hold.
    pub fn finish(&mut self) -> Option<u16> {
        let waiting = self.vctl.deletion()?;
        if !self.vctl.is_ready() || self.vctl.taken(waiting.queue()) != 0 {
            return None;
        }
        self.vctl.finish_deletion();
        Some(waiting.cid())
    }

    /// Holds one more event request, and says whether it could be held.
    pub fn hold(&mut self) -> bool {
        if !self.vctl.can_hold_request() {
            return false;
        }
        self.vctl.hold_request();
        true
    }

    /// Whether the controller is ready and the number is that of an I/O queue.
    fn may_change(&self, queue: u16) -> bool
        ensures ready { result ≡ true → is_ready self.now.vctl ≡ true }
        ensures number { result ≡ true → IsIoQueue queue }
    {
        self.vctl.is_ready() && 0 < queue && queue <= LAST_QUEUE
    }
}
