//! A lane's tags.

ghost use Rattle.std.specs.Prelude.{◌≡◌, ◌≢◌, ◌<◌, ◌⊎◌, ℕ, List, length, replicate, slice_set, Some, None, IfSome, is_some};
ghost use Rattle.nv_world_model.specs.Area.{tag_count};
ghost use Rattle.nv_world_model.specs.SetUp.{most_guests};
ghost use Rattle.nv_tags.specs.Numbers.{is_from, number_count};
ghost use Rattle.nv_tags.specs.Tags.{Ended, Flying, Free, Taken, Used, claimed, command_in, command_of, free_slot, group};
ghost use Rattle.nv_tags.specs.Tags.{Leads, is_ended, is_flying, is_of, is_taken, leader_in, leader_of, released, slot_at, state_at, tags_where, taken_by, with_point};
ghost use Rattle.nv_tags.specs.declared.state.TagState.TheVariants as state;

use crate::claim::Claim;
use crate::group::{Group, with, without};
use crate::owned::{NUMBER_COUNT, disown, own};
use crate::several::{free_each, lowest_mask, take_each};
use crate::state::TagState;
use nv_entry::{Sqe, Status};
use nv_model::limits::TAG_COUNT;
use std::marker::Model;

/// The tags of one lane. A contract sees them as a list of 64: each is free, or a command's that is at some point.
#[derive(Drop)]
pub struct Tags {
    states: [TagState; TAG_COUNT],
    claims: [Claim; TAG_COUNT],
    // the tag that each tag's command goes by
    leaders: [u8; TAG_COUNT],
    // for each tag, those that follow it in the group that goes by it, a bit for each
    groups: [u64; TAG_COUNT],
    // the free tags, a bit for each
    free: u64,
    // the tags whose commands were taken, and no more, a bit for each
    taken: u64,
    // the tags whose commands have ended, a bit for each
    ended: u64,
    // for each guest from 0 to 15, the tags that its commands have, a bit for each
    owned: [u64; NUMBER_COUNT],
    // for each number of a submission queue from 0 to 15, whichever guest's, the tags of the commands that were taken from it, a bit for each
    queued: [u64; NUMBER_COUNT],
}

impl Model for Tags {
    ghost use Rattle.std.specs.Prelude.{List};
    ghost use Rattle.nv_tags.specs.Kept.{AreKept, AreMarked, AreNumbered, slots_of};
    ghost use Rattle.nv_tags.specs.Numbers.{ByGuest, ByQueue};
    ghost use Rattle.nv_tags.specs.Tags.{Slot};

    ghost Value = { List Slot };

    ghost view = { λ t. slots_of t.states t.claims t.leaders };

    ghost invariant = { λ t. AreKept t.states t.claims t.leaders t.groups × AreMarked t.states t.free t.taken t.ended
        × AreNumbered ByGuest (slots_of t.states t.claims t.leaders) t.owned × AreNumbered ByQueue (slots_of t.states t.claims t.leaders) t.queued };
}

impl Tags {
    /// All tags are free.
    pub fn new() -> Self
        ensures { result ≡ replicate tag_count Free }
    {
        let nobodys = Claim {
            guest: 0,
            queue: 0,
            entry: Sqe::of(&[0; 64]),
        };
        Tags {
            states: [TagState::Free; TAG_COUNT],
            claims: [nobodys; TAG_COUNT],
            leaders: [0; TAG_COUNT],
            groups: [0; TAG_COUNT],
            free: u64::MAX,
            taken: 0,
            ended: 0,
            owned: [0; NUMBER_COUNT],
            queued: [0; NUMBER_COUNT],
        }
    }

    /// Whether some tag is free.
    pub fn has_free(&self) -> bool
        ensures { result ≡ is_some (free_slot self.now) }
    {
        self.free != 0
    }

    /// Whether so many tags are free: whether [`Tags::claim_group`] would give them.
    pub fn has_free_group(&self, count: u8) -> bool
        requires { 0 < count }
        ensures { result ≡ is_some (claimed count self.now) }
    {
        self.free.count_ones() >= u32::from(count)
    }

    /// Gives the command the lowest free tag, which it goes by; `None`, with nothing changed, where no tag is free.
    pub fn claim(&mut self, claim: Claim) -> Option<u8>
        ensures tag { result ≡ free_slot self.old }
        ensures some { IfSome result (λ tag. self.new ≡ slice_set self.old tag (Used (command_of claim tag) Taken)) }
        ensures none { result ≡ None → self.new ≡ self.old }
    {
        let guest = u16::from(claim.guest);
        let queue = claim.queue;
        let tag = Group::of(self.free).pop()?;
        let at = usize::from(tag);
        self.states[at] = TagState::Taken;
        self.claims[at] = claim;
        self.leaders[at] = tag;
        self.free = without(self.free, tag);
        self.taken = with(self.taken, tag);
        let only = with(0, tag);
        own(&mut self.owned, guest, only);
        own(&mut self.queued, queue, only);
        Some(tag)
    }

    /// Gives the command the `count` lowest free tags, all at once. It goes by the lowest of them, which is the result; `None`, with nothing
    /// changed, where fewer tags are free.
    pub fn claim_group(&mut self, claim: Claim, count: u8) -> Option<u8>
        requires { 0 < count }
        ensures leader { result ≡ leader_in (claimed count self.old) }
        ensures some { (tags : List ℕ) → claimed count self.old ≡ Some tags →
            IfSome result (λ leader. self.new ≡ taken_by (command_of claim leader) tags self.old) }
        ensures none { result ≡ None → self.new ≡ self.old }
    {
        if count == 1 {
            return self.claim(claim);
        }
        let mask = lowest_mask(self.free, count)?;
        let Some(leader) = Group::of(mask).pop() else {
            unreachable!()
        };
        take_each(
            &mut self.states,
            &mut self.claims,
            &mut self.leaders,
            Group::of(mask),
            &claim,
            leader,
        );
        self.groups[usize::from(leader)] |= without(mask, leader);
        self.free &= !mask;
        self.taken |= mask;
        own(&mut self.owned, u16::from(claim.guest), mask);
        own(&mut self.queued, claim.queue, mask);
        Some(leader)
    }

    /// The command of the tag, as it was claimed. The tag is not free.
    pub fn claimed(&self, tag: u8) -> &Claim
        requires used { state_at self.now tag ≢ state.Free }
        ensures { command_in (slot_at self.now tag) ≡ Some (command_of result.now (leader_of (slot_at self.now tag))) }
    {
        &self.claims[usize::from(tag)]
    }

    /// The tag that the command of the tag goes by: the lowest of the tags that it was claimed with. The tag is not free. One that is its
    /// own leader leads a group.
    pub fn leader(&self, tag: u8) -> u8
        requires used { state_at self.now tag ≢ state.Free }
        ensures value { result ≡ leader_of (slot_at self.now tag) }
        ensures there { result < tag_count }
        ensures leads { result ≡ tag → Leads tag self.now }
    {
        self.leaders[usize::from(tag)]
    }

    /// The tags of a command that goes by this tag, in order; itself, where it is the only one.
    pub fn group(&self, leader: u8) -> Group
        requires leads { Leads leader self.now }
        ensures { result ≡ group leader self.now }
    {
        Group::of(with(self.groups[usize::from(leader)], leader))
    }

    /// The tags whose commands were taken, and no more, in order.
    pub fn taken(&self) -> Group
        ensures { result ≡ tags_where is_taken self.now }
    {
        Group::of(self.taken)
    }

    /// The tags whose commands are with the physical controller, in order.
    pub fn flying(&self) -> Group
        ensures { result ≡ tags_where is_flying self.now }
    {
        Group::of(!(self.free | self.taken | self.ended))
    }

    /// The tags whose commands have ended, in order.
    pub fn ended(&self) -> Group
        ensures { result ≡ tags_where is_ended self.now }
    {
        Group::of(self.ended)
    }

    /// How many tags the commands of a guest, 0 to 15, have: 0 to 64.
    pub fn held(&self, guest: u8) -> u8
        requires { guest < most_guests }
        ensures { result ≡ length (tags_where (is_of guest) self.now) }
    {
        self.owned[usize::from(guest)].count_ones() as u8
    }

    /// The tags of the commands that were taken from a submission queue of a guest, both of a number from 0 to 15, in order.
    pub fn from_queue(&self, guest: u8, queue: u16) -> Group
        requires guest { guest < number_count }
        requires queue { queue < number_count }
        ensures { result ≡ tags_where (is_from guest queue) self.now }
    {
        Group::of(self.owned[usize::from(guest)] & self.queued[usize::from(queue)])
    }

    /// Where the tag, 0 to 63, is.
    pub fn state(&self, tag: u8) -> TagState
        requires there { tag < tag_count }
        ensures { result ≡ state_at self.now tag }
    {
        self.states[usize::from(tag)]
    }

    /// The command of the tag is handed to the physical controller. It was taken, and no more.
    pub fn fly(&mut self, tag: u8)
        requires taken { state_at self.old tag ≡ state.Taken }
        ensures { self.new ≡ with_point Flying tag self.old }
    {
        self.states[usize::from(tag)] = TagState::Flying;
        self.taken = without(self.taken, tag);
    }

    /// The command of the tag ends with this status. It was taken, or handed to the physical controller.
    pub fn end(&mut self, tag: u8, status: Status)
        requires going { (state_at self.old tag ≡ state.Taken) ⊎ (state_at self.old tag ≡ state.Flying) }
        ensures { self.new ≡ with_point (Ended status) tag self.old }
    {
        self.states[usize::from(tag)] = TagState::Ended(status);
        self.taken = without(self.taken, tag);
        self.ended = with(self.ended, tag);
    }

    /// The tag becomes free, and no other. It was not.
    pub fn release(&mut self, tag: u8)
        requires used { state_at self.old tag ≢ state.Free }
        ensures { self.new ≡ slice_set self.old tag Free }
    {
        let leader = usize::from(self.leaders[usize::from(tag)]);
        self.groups[leader] = without(self.groups[leader], tag);
        self.states[usize::from(tag)] = TagState::Free;
        self.free = with(self.free, tag);
        self.taken = without(self.taken, tag);
        self.ended = without(self.ended, tag);
        let claim = &self.claims[usize::from(tag)];
        let guest = u16::from(claim.guest);
        let queue = claim.queue;
        disown(&mut self.owned, guest, tag);
        disown(&mut self.queued, queue, tag);
    }

    /// The tags of a command that goes by this tag become free, all at once.
    pub fn release_group(&mut self, leader: u8)
        requires leads { Leads leader self.old }
        ensures { self.new ≡ released leader self.old }
    {
        let at = usize::from(leader);
        let freed = with(self.groups[at], leader);
        self.states[at] = TagState::Free;
        let claim = &self.claims[at];
        let guest = u16::from(claim.guest);
        let queue = claim.queue;
        disown(&mut self.owned, guest, leader);
        disown(&mut self.queued, queue, leader);
        free_each(
            &mut self.states,
            &mut self.owned,
            &mut self.queued,
            &self.claims,
            Group::of(self.groups[at]),
        );
        self.groups[at] = 0;
        self.free |= freed;
        self.taken &= !freed;
        self.ended &= !freed;
    }
}
