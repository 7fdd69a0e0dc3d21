//! The doorbells.

ghost use Rattle.std.specs.Prelude.{◌≡◌, ℕ, Bool, is_some, true};
ghost use Rattle.nv_entry.specs.Layout.{bits};
ghost use Rattle.nv_model.specs.Controller.{completion_queue, doorbell, head_rung, is_ready, submission_queue, tail_rung};
ghost use Rattle.nv_model.specs.Laws.{QueuesInPlace};
ghost use Rattle.nv_vctl.specs.Vctl.{or_unchanged};

use crate::vctl::Vctl;

/// Where the doorbells begin.
const DOORBELLS: u32 = 0x1000;

/// The bytes of a queue pair's two doorbells.
const PAIR: u32 = 8;

/// Where the doorbell of the completion queue's head lies in them; that of the submission queue's tail comes first.
const HEAD: u32 = 4;

impl Vctl {
    /// Writes the doorbell at an offset, of which the low 16 bits count: the tail of submission queue y at 1000h + 8 y, the head
    /// of completion queue y at 1004h + 8 y; false, with nothing changed, exactly where the write is ignored (NVMe over PCIe
    /// Transport Specification 1.0, "Doorbell").
    ///
    /// A tail is taken where it is a slot of a queue that does not close, a head where it lies from the old head up to the tail,
    /// going round.
    #[tactic(auto, unfolding(nv_model::specs::Controller::doorbell))]
    pub fn doorbell(&mut self, offset: u32, value: u32) -> bool
        ensures taken { result ≡ is_some (doorbell self.old offset value) }
        ensures state { self.new ≡ or_unchanged self.old (doorbell self.old offset value) }
        ensures in_place { (test : ℕ → Bool) → QueuesInPlace test self.old → QueuesInPlace test self.new }
    {
        if !self.is_ready() || offset < DOORBELLS {
            return false;
        }
        let queue = (offset - DOORBELLS) / PAIR;
        let slot = low_half(value);
        match (offset - DOORBELLS) % PAIR {
            0 => self.ring_tail(queue as usize, slot),
            HEAD => self.ring_head(queue as usize, slot),
            _ => false,
        }
    }

    // The tail doorbell of a submission queue.
    fn ring_tail(&mut self, queue: usize, tail: u16) -> bool
        requires ready { is_ready self.old ≡ true }
        ensures taken { result ≡ is_some (tail_rung (submission_queue self.old queue) self.old queue tail) }
        ensures state { self.new ≡ or_unchanged self.old (tail_rung (submission_queue self.old queue) self.old queue tail) }
    {
        let Some(mut found) = self.submission_queue(queue) else {
            return false;
        };
        if !found.ring_tail(tail) {
            return false;
        }
        self.submission[queue] = Some(found);
        true
    }

    // The head doorbell of a completion queue.
    fn ring_head(&mut self, queue: usize, head: u16) -> bool
        requires ready { is_ready self.old ≡ true }
        ensures taken { result ≡ is_some (head_rung (completion_queue self.old queue) self.old queue head) }
        ensures state { self.new ≡ or_unchanged self.old (head_rung (completion_queue self.old queue) self.old queue head) }
    {
        let Some(mut found) = self.completion_queue(queue) else {
            return false;
        };
        if !found.ring_head(head) {
            return false;
        }
        self.completion[queue] = Some(found);
        true
    }
}

// The low 16 bits of a doorbell's value.
fn low_half(value: u32) -> u16
    ensures { result ≡ bits value 15 0 }
{
    (value & 0xffff) as u16
}
