//! The phase tag of a pass over a completion queue.

ghost use Rattle.std.specs.Prelude.{◌≡◌, ◌<◌, true, not};
ghost use Rattle.nv_ring.specs.Ring.{phase_behind};

use crate::ring::Ring;
use std::marker::Model;

/// The phase tag that one pass over a completion queue writes, and that its reader waits for. A contract sees it as
/// that tag.
#[derive(Clone, Copy, Debug, PartialEq, Eq)]
pub struct Phase {
    bit: bool,
}

impl Model for Phase {
    ghost use Rattle.std.specs.Prelude.{Bool};

    ghost Value = { Bool };

    ghost view = { λ p. p.bit };

    ghost inverse = { λ bit. record { bit = bit } };
}

impl Phase {
    /// The first pass: all phase tags of a new queue are taken as 0, and it writes 1.
    pub fn new() -> Self
        ensures { result ≡ true }
    {
        Phase { bit: true }
    }

    /// The tag that this pass writes.
    pub fn expected(self) -> bool
        ensures { result ≡ self }
    {
        self.bit
    }

    /// Goes on to the next pass, whose tag is the other one.
    pub fn flip(&mut self)
        ensures { self.new ≡ not self.old }
    {
        self.bit = !self.bit;
    }

    /// Goes on after the slot `at` of a ring: to the next pass where that was the ring's last slot.
    pub fn go_on(&mut self, ring: Ring, at: u16)
        requires { at < ring.size }
        ensures { self.new ≡ phase_behind ring.size at self.old }
    {
        if ring.next(at) == 0 {
            self.flip();
        }
    }
}
