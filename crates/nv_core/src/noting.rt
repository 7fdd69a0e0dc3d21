//! Which guests something may be due of.
//!
//! A guest is noted whenever its controller may have changed, and not any more once nothing is due of its queues whatever is in memory. So whoever looks for
//! what is due passes by the guests that are not noted.

ghost use Rattle.std.specs.Prelude.{◌≡◌, ◌+◌, ◌<◌, ◌==◌, ℕ, IsTrue, false, slice_get};
ghost use Rattle.std.specs.List.{list_any};
ghost use Rattle.nv_core.specs.Noted.{IsNoted, IsQuiet, IsSettled, Rests, has_front};
ghost use Rattle.nv_model.specs.Limits.{last_queue};
ghost use Rattle.nv_vctl.specs.Next.{IsNext};
ghost use Rattle.nv_world_model.specs.SetUp.{most_guests};

use crate::front::Front;
use nv_model::limits::{LAST_QUEUE, MOST_GUESTS};
use nv_tags::Group;
use nv_vctl::Vctl;

impl Front {
    /// Whether an event of a guest's admin queue or the taking of its commands may be due. Where not, none is, whatever is in memory.
    pub fn is_noted(&self, guest: u8) -> bool
        ensures { result ≡ false → Rests guest self.now }
    {
        guest >= MOST_GUESTS || (self.noted >> guest) & 1 != 0
    }

    /// The guests that are noted, lowest first. Of the others nothing is due, whatever is in memory.
    #[inline(always)]
    pub fn noted(&self) -> Group
        ensures { (guest : ℕ) → guest < most_guests → list_any (λ g. g == guest) result ≡ false → Rests guest self.now }
    {
        Group::of(u64::from(self.noted))
    }

    /// Whether a command of a guest's queue may be taken, where enough tags are free and whatever is in memory.
    pub fn waits(&self, guest: u8, queue: u16) -> bool
        ensures { result ≡ has_front queue (slice_get self.now.controllers guest) }
    {
        let number = usize::from(guest);
        if number >= self.controllers.len() {
            return false;
        }
        self.controllers[number].waits(queue)
    }

    /// The first I/O queue of a guest, from number `from` on, of which a command may be taken ([`Front::waits`]); 9 where it is none.
    pub fn next_waiting(&self, guest: u8, from: u16) -> u16
        ensures { IsNext (λ queue. has_front queue (slice_get self.now.controllers guest)) from (last_queue + 1) result }
    {
        let number = usize::from(guest);
        if number >= self.controllers.len() {
            return LAST_QUEUE + 1;
        }
        self.controllers[number].next_waiting(from)
    }

    /// The guest isn't noted any more, where nothing is due of its queues whatever is in memory.
    pub fn settle(&mut self, guest: u8)
        ensures { self.new ≡ self.old }
    {
        let number = usize::from(guest);
        if number < self.controllers.len() && is_quiet(&self.controllers[number]) {
            self.noted = settled(self.noted, guest);
        }
    }
}

/// The notes with a guest noted, too.
pub(crate) fn noted(notes: u16, guest: u8) -> u16
    ensures { IsNoted notes guest result }
{
    if guest >= MOST_GUESTS {
        return notes;
    }
    notes | (1 << guest)
}

// The notes without a guest.
fn settled(notes: u16, guest: u8) -> u16
    ensures { IsSettled notes guest result }
{
    if guest >= MOST_GUESTS {
        return notes;
    }
    notes & !(1 << guest)
}

// Whether nothing is due of a controller's queues, whatever is in memory.
fn is_quiet(vctl: &Vctl) -> bool
    ensures { IsTrue result → IsQuiet vctl.now }
{
    if nv_admin::is_due(vctl) {
        return false;
    }
    if vctl.next_waiting(1) <= LAST_QUEUE {
        return false;
    }
    true
}
