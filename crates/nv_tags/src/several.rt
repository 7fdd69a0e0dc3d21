//! Several tags at once.

ghost use Rattle.std.specs.Prelude.{◌≡◌, length, option_map};
ghost use Rattle.nv_tags.specs.Kept.{AreWithoutEach, tags_in};
ghost use Rattle.nv_tags.specs.Numbers.{ByGuest, ByQueue, number_count};
ghost use Rattle.nv_tags.specs.Tags.{lowest, set_each};
ghost use Rattle.nv_tags.specs.declared.state.TagState.TheVariants as state;

use crate::claim::Claim;
use crate::group::{Group, with};
use crate::owned::{NUMBER_COUNT, disown};
use crate::state::TagState;
use nv_model::limits::TAG_COUNT;

/// The `count` lowest tags of a mask, a bit for each; `None` where it has fewer.
pub(crate) fn lowest_mask(mask: u64, count: u8) -> Option<u64>
    ensures { option_map tags_in result ≡ lowest count (tags_in mask) }
{
    let mut left = Group::of(mask);
    let mut found = 0;
    for _tag in 0..count {
        found = with(found, left.pop()?);
    }
    Some(found)
}

/// Each of these tags is that command's, which was taken and goes by that leader.
pub(crate) fn take_each(
    states: &mut [TagState; TAG_COUNT],
    claims: &mut [Claim; TAG_COUNT],
    leaders: &mut [u8; TAG_COUNT],
    tags: Group,
    claim: &Claim,
    leader: u8,
)
    ensures states { states.new ≡ set_each tags state.Taken states.old }
    ensures claims { claims.new ≡ set_each tags claim.now claims.old }
    ensures leaders { leaders.new ≡ set_each tags leader leaders.old }
{
    let mut left = tags;
    while let Some(tag) = left.pop() {
        let at = usize::from(tag);
        states[at] = TagState::Taken;
        claims[at] = *claim;
        leaders[at] = leader;
    }
}

/// Each of these tags is free, and no more one of the guest and of the queue that its claim names.
pub(crate) fn free_each(
    states: &mut [TagState; TAG_COUNT],
    owned: &mut [u64; NUMBER_COUNT],
    queued: &mut [u64; NUMBER_COUNT],
    claims: &[Claim; TAG_COUNT],
    tags: Group,
)
    ensures states { states.new ≡ set_each tags state.Free states.old }
    ensures size { length owned.new ≡ number_count }
    ensures owned { AreWithoutEach ByGuest owned.old claims.now tags owned.new }
    ensures queues { length queued.new ≡ number_count }
    ensures queued { AreWithoutEach ByQueue queued.old claims.now tags queued.new }
{
    let mut left = tags;
    while let Some(tag) = left.pop() {
        let at = usize::from(tag);
        states[at] = TagState::Free;
        disown(owned, u16::from(claims[at].guest), tag);
        disown(queued, claims[at].queue, tag);
    }
}
