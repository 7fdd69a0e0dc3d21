//! Whose commands tags have.

ghost use Rattle.std.specs.Prelude.{◌≡◌, Some, is_some, slice_get, true};
ghost use Rattle.nv_core.specs.Jobs.{held_by, holder_in};
ghost use Rattle.nv_core.specs.Tags.{command_at};
ghost use Rattle.nv_world_model.specs.World.{Command, tag_in};

use crate::front::Front;
use crate::lane::Lane;
use nv_tags::TagState;

/// Whose command a tag has, and the tag that the command goes by.
#[derive(Clone, Copy, Debug, PartialEq, Eq)]
pub struct Holder {
    /// The guest.
    pub guest: u8,
    /// The lowest tag of the command, by which it goes.
    pub leader: u8,
}

impl Front {
    /// Whose command a tag of a lane has, and the tag that it goes by; `None` where the tag is free, or there is none.
    pub fn holder(&self, lane: u8, tag: u8) -> Option<Holder>
        ensures { result ≡ holder_in (tag_in (slice_get self.now.lanes lane) tag) }
    {
        let number = usize::from(lane);
        if number >= self.lanes.len() {
            return None;
        }
        self.lanes[number].holder(tag)
    }
}

impl Lane {
    // Whose command a tag has, and the tag that it goes by; `None` where the tag is free, or there is none.
    fn holder(&self, tag: u8) -> Option<Holder>
        ensures { result ≡ holder_in (slice_get self.now.tags tag) }
    {
        match self.state(tag) {
            None | Some(TagState::Free) => None,
            Some(_) => Some(self.held(tag)),
        }
    }

    // The same of a tag that is used.
    fn held(&self, tag: u8) -> Holder
        requires { is_some (command_at (slice_get self.now.tags tag)) ≡ true }
        ensures { (command : Command) → command_at (slice_get self.now.tags tag) ≡ Some command → result ≡ held_by command }
    {
        Holder {
            guest: self.tags.claimed(tag).guest,
            leader: self.tags.leader(tag),
        }
    }
}
