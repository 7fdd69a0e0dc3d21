//! Tags by a number of their commands, as masks: by the guest's, or by the submission queue's.

ghost use Rattle.std.specs.Prelude.{◌≡◌, ◌<◌, length};
ghost use Rattle.nv_world_model.specs.Area.{tag_count};
ghost use Rattle.nv_tags.specs.Kept.{AreWith, AreWithout};
ghost use Rattle.nv_tags.specs.Numbers.{number_count};

use crate::group::without;
use nv_model::limits::MOST_GUESTS;

/// How many numbers have a mask: those of all guests, and so those of all queues.
pub(crate) const NUMBER_COUNT: usize = MOST_GUESTS as usize;

/// The tags of a mask are of that number, too. For a number from 16 on nothing is kept.
pub(crate) fn own(masks: &mut [u64; NUMBER_COUNT], number: u16, mask: u64)
    ensures size { length masks.new ≡ number_count }
    ensures bits { AreWith masks.old number mask masks.new }
{
    let at = usize::from(number);
    if at < NUMBER_COUNT {
        masks[at] |= mask;
    }
}

/// A tag is of that number no more. For a number from 16 on nothing is kept.
pub(crate) fn disown(masks: &mut [u64; NUMBER_COUNT], number: u16, tag: u8)
    requires { tag < tag_count }
    ensures size { length masks.new ≡ number_count }
    ensures bits { AreWithout masks.old number tag masks.new }
{
    let at = usize::from(number);
    if at < NUMBER_COUNT {
        masks[at] = without(masks[at], tag);
    }
}
