//! Commands whose guest's completion queue has no room for one more.

ghost use Rattle.std.specs.Prelude.{◌≡◌, ◌<◌, ◌==◌, ℕ, List, Some, false, is_some, slice_get, true};
ghost use Rattle.std.specs.List.{list_any};
ghost use Rattle.nv_core.specs.Front.{IsSideOf};
ghost use Rattle.nv_core.specs.FullQueues.{AreHeldWith, AreWaiting, IsFull, NoneWait, from_in, origin_by, origin_in};
ghost use Rattle.nv_core.specs.Tags.{command_at};
ghost use Rattle.nv_tags.specs.Numbers.{number_count};
ghost use Rattle.nv_world_model.specs.Due.{due};
ghost use Rattle.nv_world_model.specs.Geometry.{Geometry};
ghost use Rattle.nv_world_model.specs.World.{Command, World};

use crate::front::Front;
use crate::front_due::may_end;
use crate::lane::Lane;
use nv_model::limits::{LAST_QUEUE, MOST_GUESTS};
use nv_tags::{Group, TagState};
use nv_world_model::Event;

/// Where a command was taken from.
#[derive(Clone, Copy, Debug, PartialEq, Eq)]
pub(crate) struct Origin {
    /// The guest.
    pub(crate) guest: u8,
    /// The guest's submission queue.
    pub(crate) queue: u16,
}

impl Front {
    /// The tags of a lane whose commands were taken from the same queue as that of this tag, where the guest's completion queue has no room for one more:
    /// no completion of theirs is due. None where it has room, and where the tag is free or there is none.
    #[inline(never)]
    pub fn held_with(&self, lane: u8, tag: u8) -> Group
        ensures all { AreWaiting lane tag self.now result }
        ensures none { NoneWait lane tag self.now result }
        ensures full { AreHeldWith lane tag self.now result }
        ensures rest { (layout : Geometry) (other : ℕ) (memory : List ℕ) (w : World) → list_any (λ t. t == other) result ≡ true → IsSideOf self.now memory w →
            due layout (Event.Post lane other) w ≡ false }
    {
        let number = usize::from(lane);
        if number >= self.lanes.len() {
            return Group::none();
        }
        let ring = &self.lanes[number];
        let Some(origin) = ring.origin(tag) else {
            return Group::none();
        };
        if self.may_post(origin.guest, origin.queue) {
            return Group::none();
        }
        ring.from_queue(origin.guest, origin.queue)
    }

    // Whether a command of a queue of a guest may end, as far as its completion queue goes.
    fn may_post(&self, guest: u8, queue: u16) -> bool
        ensures no { result ≡ false → IsFull guest queue self.now }
        ensures yes { IsFull guest queue self.now → result ≡ false }
    {
        if guest >= MOST_GUESTS || queue > LAST_QUEUE {
            return true;
        }
        let number = usize::from(guest);
        if number >= self.controllers.len() {
            return true;
        }
        may_end(queue, &self.controllers[number])
    }
}

impl Lane {
    // Where a tag's command was taken from; `None` where the tag is free, or there is none.
    fn origin(&self, tag: u8) -> Option<Origin>
        ensures { result ≡ origin_in (slice_get self.now.tags tag) }
    {
        match self.state(tag) {
            None | Some(TagState::Free) => None,
            Some(_) => Some(self.origin_of(tag)),
        }
    }

    // The same of a tag that is used.
    fn origin_of(&self, tag: u8) -> Origin
        requires { is_some (command_at (slice_get self.now.tags tag)) ≡ true }
        ensures { (command : Command) → command_at (slice_get self.now.tags tag) ≡ Some command → result ≡ origin_by command }
    {
        let claim = self.tags.claimed(tag);
        Origin {
            guest: claim.guest,
            queue: claim.queue,
        }
    }

    // The tags of the commands that were taken from a queue of a guest, in order.
    fn from_queue(&self, guest: u8, queue: u16) -> Group
        requires guest { guest < number_count }
        requires queue { queue < number_count }
        ensures { result ≡ from_in guest queue self.now }
    {
        // With a field comes what is kept of the lane.
        let _known = &self.head;
        self.tags.from_queue(guest, queue)
    }
}
