//! A guest's queues: where they are in its memory, and their positions.

ghost use Rattle.std.specs.Prelude.{◌≡◌, ◌+◌, ◌*◌, ◌<◌, ◌≤◌, ◌^◌, ◌&&◌, ◌↔◌, IsTrue, if◌then◌else◌, Some, is_some, nat_le, nat_lt, not, true, false};
ghost use Rattle.nv_model.specs.Controller.{front_of};
ghost use Rattle.nv_model.specs.Queue.{after_post, ahead, cqe_size, front_taken, is_empty, is_full, new_completion, new_submission, raised, sqe_size, unacknowledged};
ghost use Rattle.nv_mem.specs.GuestMap.{mapped};
ghost use Rattle.nv_model.specs.Laws.{IsCompletionInPlace, IsInOrder, IsSubmissionInPlace};
ghost use Rattle.nv_ring.specs.Ring.{FitsRing};

use nv_mem::GuestMap;
use nv_model::limits::{CQE_SIZE, SQE_SIZE};
use nv_ring::{Phase, Ring};
use std::marker::Model;

/// A submission queue: where its first slot is in the guest's memory, its positions, the completion queue that it uses, and whether it is being
/// deleted.
#[derive(Clone, Copy, Debug, PartialEq, Eq)]
pub(crate) struct SubmissionQueue {
    pub(crate) base: u64,
    pub(crate) ring: Ring,
    pub(crate) completes_to: u16,
    pub(crate) closing: bool,
}

impl Model for SubmissionQueue {
    ghost use Rattle.nv_model.specs.Queue.{SubmissionQueue as Queue};

    ghost Value = { Queue };

    ghost view = { λ q. record {
      base = q.base;
      size = q.ring.size;
      head = q.ring.head;
      tail = q.ring.tail;
      completes_to = q.completes_to;
      closing = q.closing;
    } };

    ghost inverse = { λ q. record {
      base = q.base;
      ring = record { size = q.size; head = q.head; tail = q.tail };
      completes_to = q.completes_to;
      closing = q.closing;
    } };
}

/// A completion queue: where its first slot is in the guest's memory, its positions, the phase tag of its pass, and the interrupt vector
/// of its completions, where its interrupts are enabled.
#[derive(Clone, Copy, Debug, PartialEq, Eq)]
pub struct CompletionQueue {
    pub(crate) base: u64,
    pub(crate) ring: Ring,
    pub(crate) phase: Phase,
    pub(crate) vector: Option<u16>,
}

impl Model for CompletionQueue {
    ghost use Rattle.nv_model.specs.Queue.{CompletionQueue as Queue};

    ghost Value = { Queue };

    ghost view = { λ q. record {
      base = q.base;
      size = q.ring.size;
      head = q.ring.head;
      tail = q.ring.tail;
      phase = q.phase;
      vector = q.vector;
    } };

    ghost inverse = { λ q. record {
      base = q.base;
      ring = record { size = q.size; head = q.head; tail = q.tail };
      phase = q.phase;
      vector = q.vector;
    } };
}

impl SubmissionQueue {
    /// An empty queue of `size` slots.
    pub(crate) fn new(base: u64, size: u16, completes_to: u16) -> Self
        requires { FitsRing size }
        ensures { result ≡ new_submission base size completes_to }
    {
        SubmissionQueue {
            base,
            ring: Ring::new(size),
            completes_to,
            closing: false,
        }
    }

    /// Whether its slots lie wholly in the map.
    pub(crate) fn lies_in(&self, map: &GuestMap) -> bool
        ensures { IsTrue result ↔ IsSubmissionInPlace (mapped map.now.regions) self.now }
    {
        map.holds(self.base, SQE_SIZE * u64::from(size_of(self.ring)))
    }

    /// Whether a command waits in it, and it does not close.
    pub(crate) fn waits(&self) -> bool
        ensures { result ≡ is_some (front_of (Some self.now)) }
    {
        !self.closing && !self.ring.empty()
    }

    /// The slot of the front entry.
    pub(crate) fn head(&self) -> u16
        ensures value { result ≡ self.now.head }
        ensures fits { result < self.now.size }
    {
        self.ring.head()
    }

    /// The front entry is taken.
    pub(crate) fn take_front(&mut self)
        requires { is_empty self.old.head self.old.tail ≡ false }
        ensures { self.new ≡ front_taken self.old }
    {
        self.ring.take();
    }

    /// Takes the slot as the tail, as its doorbell rings it; false, with nothing changed, where the queue closes or has no such slot.
    pub(crate) fn ring_tail(&mut self, tail: u16) -> bool
        ensures taken { result ≡ (not self.old.closing && nat_lt tail self.old.size) }
        ensures state { self.new ≡ (if not self.old.closing && nat_lt tail self.old.size then record self.old { tail = tail } else self.old) }
    {
        let rings = !self.closing && tail < self.ring.size();
        if rings {
            self.ring.set_tail(tail);
        }
        rings
    }

    /// The address of the front entry.
    pub(crate) fn front(&self) -> u64
        requires { self.now.base + sqe_size * self.now.size ≤ 2 ^ 64 }
        ensures { result ≡ self.now.base + sqe_size * self.now.head }
    {
        self.base + SQE_SIZE * u64::from(self.head())
    }
}

impl CompletionQueue {
    /// An empty queue of `size` slots, whose first pass writes phase tag 1.
    pub(crate) fn new(base: u64, size: u16, vector: Option<u16>) -> Self
        requires { FitsRing size }
        ensures { result ≡ new_completion base size vector }
    {
        CompletionQueue {
            base,
            ring: Ring::new(size),
            phase: Phase::new(),
            vector,
        }
    }

    /// Whether its slots lie wholly in the map.
    pub(crate) fn lies_in(&self, map: &GuestMap) -> bool
        ensures { IsTrue result ↔ IsCompletionInPlace (mapped map.now.regions) self.now }
    {
        map.holds(self.base, CQE_SIZE * u64::from(size_of(self.ring)))
    }

    /// How many slots it has.
    pub fn size(&self) -> u16
        ensures { result ≡ self.now.size }
    {
        let slots = self.ring;
        slots.size()
    }

    /// The slot of the oldest completion that the guest has not acknowledged.
    pub fn head(&self) -> u16
        ensures { result ≡ self.now.head }
    {
        let held = self.ring;
        held.head()
    }

    /// The slot of the next completion.
    pub fn tail(&self) -> u16
        ensures { result ≡ self.now.tail }
    {
        let posted = self.ring;
        posted.tail()
    }

    /// Whether it is full.
    pub(crate) fn is_full(&self) -> bool
        ensures { result ≡ is_full self.now.size self.now.head self.now.tail }
    {
        !self.ring.room()
    }

    /// The vector that it raises: that of its completions, where some are not acknowledged and its interrupts are enabled.
    pub fn raised(&self) -> Option<u16>
        ensures { result ≡ raised (Some self.now) }
    {
        if self.ring.empty() { None } else { self.vector }
    }

    /// The phase tag of this pass.
    pub fn phase(&self) -> bool
        ensures { result ≡ self.now.phase }
    {
        self.phase.expected()
    }

    /// Takes the slot as the head, as its doorbell rings it; false, with nothing changed, where it does not lie from the old head up
    /// to the tail, going round.
    pub(crate) fn ring_head(&mut self, head: u16) -> bool
        ensures taken { result ≡ (nat_lt head self.old.size && nat_le (ahead self.old.size self.old.head head) (unacknowledged self.old)) }
        ensures state { self.new ≡ (if nat_lt head self.old.size && nat_le (ahead self.old.size self.old.head head) (unacknowledged self.old)
            then record self.old { head = head } else self.old) }
    {
        let rings = head < self.ring.size() && self.ring.reaches(head);
        if rings {
            self.ring.set_head(head);
        }
        rings
    }

    /// The address of the slot that is written next.
    pub(crate) fn next(&self) -> u64
        requires { self.now.base + cqe_size * self.now.size ≤ 2 ^ 64 }
        ensures { result ≡ self.now.base + cqe_size * self.now.tail }
    {
        self.base + CQE_SIZE * u64::from(self.ring.tail())
    }

    /// One more completion is posted: the tail goes on, and at the wrap the phase tag is inverted.
    pub(crate) fn go_on(&mut self)
        requires { is_full self.old.size self.old.head self.old.tail ≡ false }
        ensures { self.new ≡ after_post self.old }
    {
        self.phase.go_on(self.ring, self.ring.tail());
        self.ring.put();
    }
}

// How many slots a ring has, whose head and tail are two of them.
fn size_of(ring: Ring) -> u16
    ensures value { result ≡ ring.size }
    ensures order { IsInOrder ring.size ring.head ring.tail }
{
    let (_head, _tail) = (ring.head(), ring.tail());
    ring.size()
}
