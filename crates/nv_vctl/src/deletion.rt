//! Deletions that wait.

ghost use Rattle.std.specs.Prelude.{◌≡◌};

use std::marker::Model;

/// A deletion of an I/O submission queue that waits until none of the queue's commands is taken (Base Specification 2.0,
/// "Delete I/O Submission Queue command").
#[derive(Clone, Copy, Debug, PartialEq, Eq)]
pub struct Deletion {
    cid: u16,
    queue: u16,
}

impl Model for Deletion {
    ghost use Rattle.nv_model.specs.Controller.{Deletion as Waiting};

    ghost Value = { Waiting };

    ghost view = { λ d. record { cid = d.cid; queue = d.queue } };

    ghost inverse = { λ d. record { cid = d.cid; queue = d.queue } };
}

impl Deletion {
    /// The deletion of this queue by the command of that identifier.
    pub(crate) fn new(cid: u16, queue: u16) -> Self
        ensures { result ≡ record { cid = cid; queue = queue } }
    {
        Deletion { cid, queue }
    }

    /// The identifier of the command that asked for it.
    pub fn cid(self) -> u16
        ensures { result ≡ self.cid }
    {
        self.cid
    }

    /// The number of the queue.
    pub fn queue(self) -> u16
        ensures { result ≡ self.queue }
    {
        self.queue
    }
}
