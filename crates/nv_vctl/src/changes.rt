//! What admin commands do to queues and to what is held (Base Specification 2.0, "Admin Command Set").

ghost use Rattle.std.specs.Prelude.{◌≡◌, ◌*◌, ◌+◌, ◌<◌, ℕ, Bool, IsSome, Some, None, slice_index, true, false};
ghost use Rattle.std.specs.List.{list_any};
ghost use Rattle.nv_mem.specs.GuestMap.{everywhere};
ghost use Rattle.nv_model.specs.Admin.{uses};
ghost use Rattle.nv_model.specs.Controller.{completion_queue, is_ready, submission_queue, with_completion, with_submission};
ghost use Rattle.nv_model.specs.Laws.{QueuesInPlace};
ghost use Rattle.nv_model.specs.Limits.{most_requests};
ghost use Rattle.nv_model.specs.Queue.{cqe_size, new_completion, new_submission, sqe_size};
ghost use Rattle.nv_ring.specs.Ring.{FitsRing};
ghost use Rattle.nv_vctl.specs.Vctl.{IsIoQueue, MayFinish, closed, deletion_finished};

use crate::deletion::Deletion;
use crate::queues::{CompletionQueue, SubmissionQueue};
use crate::vctl::Vctl;

impl Vctl {
    /// An I/O submission queue of this number, 1 to [`nv_model::limits::LAST_QUEUE`], is made: empty, with `size` slots from guest address
    /// `base` on. The queues lie in the map as before, if its slots do.
    ///
    /// The caller knows that the controller is ready, that a queue may have so many slots (`nv_ring::Ring::fits`), and that its
    /// completion queue is there ([`Vctl::has_completion_queue`]).
    pub fn create_submission_queue(&mut self, queue: u16, base: u64, size: u16, completes_to: u16)
        requires ready { is_ready self.old ≡ true }
        requires number { IsIoQueue queue }
        requires size { FitsRing size }
        requires completion { IsSome (completion_queue self.old completes_to) }
        ensures state { self.new ≡ with_submission self.old queue (Some (new_submission base size completes_to)) }
        ensures in_place { (test : ℕ → Bool) → QueuesInPlace test self.old
            → everywhere test base (sqe_size * size) ≡ true → QueuesInPlace test self.new }
    {
        let made = SubmissionQueue::new(base, size, completes_to);
        self.submission[usize::from(queue)] = Some(made);
    }

    /// An I/O completion queue of this number, 1 to [`nv_model::limits::LAST_QUEUE`], is made: empty, with `size` slots from guest address
    /// `base` on, and with this interrupt vector, where its interrupts are enabled. The queues lie in the map as before, if its slots do.
    ///
    /// The caller knows that the controller is ready, and that a queue may have so many slots (`nv_ring::Ring::fits`).
    pub fn create_completion_queue(&mut self, queue: u16, base: u64, size: u16, vector: Option<u16>)
        requires ready { is_ready self.old ≡ true }
        requires number { IsIoQueue queue }
        requires size { FitsRing size }
        ensures state { self.new ≡ with_completion self.old queue (Some (new_completion base size vector)) }
        ensures in_place { (test : ℕ → Bool) → QueuesInPlace test self.old
            → everywhere test base (cqe_size * size) ≡ true → QueuesInPlace test self.new }
    {
        let made = CompletionQueue::new(base, size, vector);
        self.completion[usize::from(queue)] = Some(made);
    }

    /// An I/O submission queue goes.
    ///
    /// The caller knows that the controller is ready, that no command of the queue is taken ([`Vctl::taken`]), and that no
    /// deletion waits ([`Vctl::deletion`]).
    pub fn delete_submission_queue(&mut self, queue: u16)
        requires ready { is_ready self.old ≡ true }
        requires number { IsIoQueue queue }
        requires idle { slice_index self.old.taken queue ≡ 0 }
        requires no_deletion { self.old.deletion ≡ None }
        ensures state { self.new ≡ with_submission self.old queue None }
        ensures in_place { (test : ℕ → Bool) → QueuesInPlace test self.old → QueuesInPlace test self.new }
    {
        self.submission[usize::from(queue)] = None;
    }

    /// An I/O completion queue goes.
    ///
    /// The caller knows that the controller is ready, and that no submission queue uses it ([`Vctl::uses_completion_queue`]).
    pub fn delete_completion_queue(&mut self, queue: u16)
        requires ready { is_ready self.old ≡ true }
        requires number { IsIoQueue queue }
        requires unused { list_any (uses queue) self.old.submission ≡ false }
        ensures state { self.new ≡ with_completion self.old queue None }
        ensures in_place { (test : ℕ → Bool) → QueuesInPlace test self.old → QueuesInPlace test self.new }
    {
        self.completion[usize::from(queue)] = None;
    }

    /// An I/O submission queue closes: nothing more is taken of it, and its deletion by the command of that identifier waits until
    /// none of its commands is taken.
    ///
    /// The caller knows that the controller is ready, and that the queue is there ([`Vctl::has_submission_queue`]).
    pub fn close_submission_queue(&mut self, queue: u16, cid: u16)
        requires ready { is_ready self.old ≡ true }
        requires number { IsIoQueue queue }
        requires there { IsSome (submission_queue self.old queue) }
        ensures state { self.new ≡ closed self.old queue cid }
        ensures in_place { (test : ℕ → Bool) → QueuesInPlace test self.old → QueuesInPlace test self.new }
    {
        let Some(mut found) = self.submission_queue(usize::from(queue)) else {
            return;
        };
        found.closing = true;
        self.submission[usize::from(queue)] = Some(found);
        self.deletion = Some(Deletion::new(cid, queue));
    }

    /// The deletion that waits is done: its queue goes, and no deletion waits any more.
    ///
    /// The caller knows that the controller is ready, that a deletion waits ([`Vctl::deletion`]), and that no command of its queue
    /// is taken ([`Vctl::taken`]).
    pub fn finish_deletion(&mut self)
        requires ready { is_ready self.old ≡ true }
        requires may { MayFinish self.old.deletion self.old.taken }
        ensures state { self.new ≡ deletion_finished self.old }
        ensures in_place { (test : ℕ → Bool) → QueuesInPlace test self.old → QueuesInPlace test self.new }
    {
        let Some(waiting) = self.deletion else {
            return;
        };
        self.submission[usize::from(waiting.queue())] = None;
        self.deletion = None;
    }

    /// One more event request is held.
    ///
    /// The caller knows that one can be ([`Vctl::can_hold_request`]).
    pub fn hold_request(&mut self)
        requires { self.old.held_requests < most_requests }
        ensures state { self.new ≡ record self.old { held_requests = self.old.held_requests + 1 } }
        ensures in_place { (test : ℕ → Bool) → QueuesInPlace test self.old → QueuesInPlace test self.new }
    {
        self.held_requests += 1;
    }
}
