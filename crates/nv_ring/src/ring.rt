//! The positions of a queue's entries.

ghost use Rattle.std.specs.Prelude.{◌≡◌, ◌+◌, ◌-◌, ◌<◌, ◌≤◌, ◌↔◌, true, false, not, IsTrue};
ghost use Rattle.nv_model.specs.Queue.{ahead, is_empty, is_full, next_slot};
ghost use Rattle.nv_ring.specs.Ring.{FitsRing, waiting};

use nv_model::limits::MOST_SLOTS;
use std::marker::Model;

/// A ring of slots, of which those from the head up to the tail hold entries. It has 2 to 1,024 slots, and head and tail are
/// below that size.
#[derive(Clone, Copy, Debug, PartialEq, Eq)]
pub struct Ring {
    size: u16,
    head: u16,
    tail: u16,
}

impl Model for Ring {
    ghost use Rattle.nv_model.specs.Laws.{IsInOrder};
    ghost use Rattle.nv_ring.specs.Ring.{Positions};

    ghost Value = { Positions };

    ghost view = { λ r. record { size = r.size; head = r.head; tail = r.tail } };

    ghost invariant = { λ r. IsInOrder r.size r.head r.tail };

    ghost inverse = { λ p. record { size = p.size; head = p.head; tail = p.tail } };
}

impl Ring {
    /// Whether a ring may have so many slots: 2 to 1,024. It is what [`Ring::new`] requires.
    pub fn fits(size: u16) -> bool
        ensures { IsTrue result ↔ FitsRing size }
    {
        2 <= size && size <= MOST_SLOTS
    }

    /// An empty ring of `size` slots.
    pub fn new(size: u16) -> Self
        requires { FitsRing size }
        ensures { result ≡ record { size = size; head = 0; tail = 0 } }
    {
        Ring {
            size,
            head: 0,
            tail: 0,
        }
    }

    /// How many slots there are.
    pub fn size(self) -> u16
        ensures value { result ≡ self.size }
        ensures fits { FitsRing result }
    {
        self.size
    }

    /// The slot of the oldest entry.
    pub fn head(self) -> u16
        ensures value { result ≡ self.head }
        ensures fits { result < self.size }
    {
        self.head
    }

    /// The slot after the youngest entry: the next one that is written.
    pub fn tail(self) -> u16
        ensures value { result ≡ self.tail }
        ensures fits { result < self.size }
    {
        self.tail
    }

    /// The slot after a slot, wrapping around.
    pub fn next(self, at: u16) -> u16
        requires { at < self.size }
        ensures value { result ≡ next_slot self.size at }
        ensures fits { result < self.size }
    {
        (at + 1) % self.size
    }

    /// How far one slot is ahead of another, going round.
    pub fn ahead(self, from: u16, to: u16) -> u16
        requires from { from < self.size }
        requires to { to < self.size }
        ensures value { result ≡ ahead self.size from to }
        ensures fits { result < self.size }
    {
        if from <= to {
            to - from
        } else {
            self.size - (from - to)
        }
    }

    /// How many entries there are: one less than there are slots, at most.
    pub fn waiting(self) -> u16
        ensures value { result ≡ waiting self }
        ensures fits { result < self.size }
    {
        let Ring { head, tail, .. } = self;
        self.ahead(head, tail)
    }

    /// Whether there is room for an entry: the ring is not full.
    pub fn room(self) -> bool
        ensures value { result ≡ not (is_full self.size self.head self.tail) }
        ensures counted { IsTrue result ↔ (waiting self + 1 < self.size) }
    {
        let Ring { head, tail, .. } = self;
        head != self.next(tail)
    }

    /// Whether there is no entry.
    pub fn empty(self) -> bool
        ensures value { result ≡ is_empty self.head self.tail }
        ensures counted { IsTrue result ↔ (waiting self ≡ 0) }
    {
        self.head == self.tail
    }

    /// Whether the head may move up to a slot: whether it lies from the head up to the tail, going round.
    pub fn reaches(self, at: u16) -> bool
        requires { at < self.size }
        ensures { IsTrue result ↔ (ahead self.size self.head at ≤ waiting self) }
    {
        let way = self.ahead(self.head(), at);
        way <= self.waiting()
    }

    /// Moves the tail to a slot, as a doorbell rings it.
    pub fn set_tail(&mut self, at: u16)
        requires { at < self.old.size }
        ensures { self.new ≡ record self.old { tail = at } }
    {
        self.tail = at;
    }

    /// Moves the head to a slot, as a doorbell rings it.
    pub fn set_head(&mut self, at: u16)
        requires { at < self.old.size }
        ensures { self.new ≡ record self.old { head = at } }
    {
        self.head = at;
    }

    /// Takes the oldest entry out: one entry less is there.
    pub fn take(&mut self)
        requires { is_empty self.old.head self.old.tail ≡ false }
        ensures value { self.new ≡ record self.old { head = next_slot self.old.size self.old.head } }
        ensures counted { waiting self.new + 1 ≡ waiting self.old }
    {
        self.head = self.next(self.head);
    }

    /// Puts an entry after the others: there is one entry more.
    pub fn put(&mut self)
        requires { is_full self.old.size self.old.head self.old.tail ≡ false }
        ensures value { self.new ≡ record self.old { tail = next_slot self.old.size self.old.tail } }
        ensures counted { waiting self.new ≡ waiting self.old + 1 }
    {
        self.tail = self.next(self.tail);
    }
}
