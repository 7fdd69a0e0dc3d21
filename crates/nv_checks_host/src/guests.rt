//! A guest that keeps to the rules: its queue pair, and what it does with it.

use crate::desk::Form;
use crate::pair::Pair;
use nv_bringup::{BRING_UP, HEAD, SLOTS, SUBMISSIONS, TAIL, act_of, bytes_of};
use nv_world_model::Event;

/// What a guest knows of its queue pair.
#[derive(Clone, Copy)]
pub struct Guest {
    pub number: u8,
    // how many commands it has put into its queue, how many were completed, and how many completions it has acknowledged
    entered: u16,
    completed: u16,
    acknowledged: u16,
}

impl Guest {
    /// The guest of that number, whose queues are empty.
    pub fn new(number: u8) -> Self {
        Guest {
            number,
            entered: 0,
            completed: 0,
            acknowledged: 0,
        }
    }

    /// Makes its queues.
    pub fn bring_up(self, pair: &mut Pair) {
        for deed in BRING_UP {
            match act_of(pair.alloc, deed) {
                Ok(act) => {
                    pair.plays(&Event::Guest(self.number, act));
                }
                Err(_) => pair.lost = true,
            }
        }
        pair.plays(&Event::Admin(self.number));
        pair.plays(&Event::Admin(self.number));
    }

    /// Whether there is room for one more command and its completion.
    pub fn has_room(self) -> bool {
        self.entered.wrapping_sub(self.acknowledged) < SLOTS - 1
    }

    /// Puts a command into its queue and rings.
    pub fn enter(&mut self, pair: &mut Pair, entry: &[u32; 16], form: Form) {
        let addr = SUBMISSIONS + 64 * u64::from(self.entered % SLOTS);
        pair.store(self.number, addr, &bytes_of(entry), form);
        self.entered = self.entered.wrapping_add(1);
        pair.ring(self.number, TAIL, u32::from(self.entered % SLOTS));
    }

    /// One of its commands was completed.
    pub fn complete(&mut self) {
        self.completed = self.completed.wrapping_add(1);
    }

    /// Acknowledges what was completed.
    pub fn acknowledge(&mut self, pair: &mut Pair) {
        if self.acknowledged != self.completed {
            self.acknowledged = self.completed;
            pair.ring(self.number, HEAD, u32::from(self.completed % SLOTS));
        }
    }

    /// Whether all that it has put into its queue was completed.
    pub fn is_done(self) -> bool {
        self.entered == self.completed
    }
}
