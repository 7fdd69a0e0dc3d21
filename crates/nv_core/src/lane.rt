//! The mediator's side of a lane.

ghost use Rattle.std.specs.Prelude.{◌≡◌, ◌<◌, ◌∷◌, ◌++◌, [], All, List, ℕ, None, OnErr, OnOk, Some, is_some, option_map, slice_get, true, vec_len};
ghost use Rattle.nv_core.specs.Groups.{tags_changed};
ghost use Rattle.nv_core.specs.Held.{held_in};
ghost use Rattle.nv_core.specs.Tags.{IsReading, command_at, ended_in, flying_in, is_flying, state_in, taken_in, unended, unled, untaken};
ghost use Rattle.nv_core.specs.declared.progress.Progress.TheVariants as progress;
ghost use Rattle.nv_model.specs.Transcript.{ReadDone as Read};
ghost use Rattle.nv_tags.specs.Tags.{command_of, set_each};
ghost use Rattle.nv_tags.specs.declared.state.TagState.TheVariants as state;
ghost use Rattle.nv_world_model.specs.Area.{tag_count};
ghost use Rattle.nv_world_model.specs.SetUp.{most_guests};
ghost use Rattle.nv_world_model.specs.World.{Command, Taken, claimed, lowest, tag_changed};

use crate::progress::{Progress, keep};
use nv_mem::NoMemory;
use nv_model::Reply;
use nv_model::limits::TAG_COUNT;
use nv_plan::{ReadDone, Transcript};
use nv_ring::Phase;
use nv_tags::{Claim, Group, TagState, Tags};
use std::alloc::Global;
use std::marker::Model;

/// The mediator's side of a lane: which slot of the completion ring is read next, the phase tag that it wants there, the tags, and
/// what is kept of each tag's command.
#[derive(Drop)]
pub(crate) struct Lane {
    pub(crate) head: u16,
    pub(crate) phase: Phase,
    pub(crate) tags: Tags,
    pub(crate) progress: Vec<Progress>,
}

impl Model for Lane {
    ghost use Rattle.nv_core.specs.Tags.{IsWhole, tags_of};
    ghost use Rattle.nv_world_model.specs.World.{Lane as MediatorLane};

    ghost Value = { MediatorLane };

    ghost view = { λ l. record { head = l.head; phase = l.phase; tags = tags_of l.tags l.progress.items } };

    ghost invariant = { λ l. IsWhole l.head l.tags l.progress.items };
}

impl Lane {
    /// Where a tag is; `None` where there is no such tag.
    pub(crate) fn state(&self, tag: u8) -> Option<TagState>
        ensures { result ≡ state_in (slice_get self.now.tags tag) }
    {
        // With a field comes what is kept of the lane.
        let _known = &self.head;
        if usize::from(tag) >= TAG_COUNT {
            return None;
        }
        Some(self.tags.state(tag))
    }

    /// Whether an identifier is that of a tag whose part is with the physical controller.
    pub(crate) fn is_flying(&self, identifier: u16) -> bool
        ensures flies { result ≡ is_flying (slice_get self.now.tags identifier) }
        ensures low { result ≡ true → identifier < tag_count }
    {
        // With a field comes what is kept of the lane.
        let _known = &self.head;
        if usize::from(identifier) >= TAG_COUNT {
            return false;
        }
        matches!(self.tags.state(identifier as u8), TagState::Flying)
    }

    /// What is answered where an event wants a command that was taken, by the tag that it goes by; `None` where it is one.
    pub(crate) fn untaken(&self, tag: u8) -> Option<Reply>
        ensures { result ≡ untaken tag (slice_get self.now.tags tag) }
    {
        match self.state(tag) {
            None => Some(Reply::Ignored),
            Some(TagState::Taken) => self.unled(tag),
            Some(_) => Some(Reply::Stale),
        }
    }

    /// What is answered where an event wants a command whose first part has ended, by the tag that it goes by; `None` where it is one.
    pub(crate) fn unended(&self, tag: u8) -> Option<Reply>
        ensures { result ≡ unended tag (slice_get self.now.tags tag) }
    {
        match self.state(tag) {
            None => Some(Reply::Ignored),
            Some(TagState::Ended(_)) => self.unled(tag),
            Some(_) => Some(Reply::Stale),
        }
    }

    // What is answered where a tag that is used is not the one that its command goes by.
    fn unled(&self, tag: u8) -> Option<Reply>
        requires { is_some (command_at (slice_get self.now.tags tag)) ≡ true }
        ensures { (command : Command) → command_at (slice_get self.now.tags tag) ≡ Some command → result ≡ unled tag command }
    {
        if self.tags.leader(tag) == tag {
            return None;
        }
        Some(Reply::Stale)
    }

    /// The tags whose commands were taken, and no more, in order.
    pub(crate) fn taken(&self) -> Group
        ensures { result ≡ taken_in (Some self.now) }
    {
        // With a field comes what is kept of the lane.
        let _known = &self.head;
        self.tags.taken()
    }

    /// The tags whose parts are with the physical controller, in order.
    pub(crate) fn flying(&self) -> Group
        ensures { result ≡ flying_in (Some self.now) }
    {
        // With a field comes what is kept of the lane.
        let _known = &self.head;
        self.tags.flying()
    }

    /// The tags whose parts have ended, in order.
    pub(crate) fn ended_parts(&self) -> Group
        ensures { result ≡ ended_in (Some self.now) }
    {
        // With a field comes what is kept of the lane.
        let _known = &self.head;
        self.tags.ended()
    }

    /// How many tags the commands of a guest have.
    pub(crate) fn held_by(&self, guest: u8) -> u8
        requires { guest < most_guests }
        ensures { result ≡ held_in guest (Some self.now) }
    {
        // With a field comes what is kept of the lane.
        let _known = &self.head;
        self.tags.held(guest)
    }

    /// Whether so many tags are free.
    pub(crate) fn has_free(&self, count: u8) -> bool
        requires { 0 < count }
        ensures { result ≡ is_some (claimed count self.now.tags) }
    {
        // With a field comes what is kept of the lane.
        let _known = &self.head;
        if count == 1 {
            return self.tags.has_free();
        }
        self.tags.has_free_group(count)
    }

    /// Gives the command the lowest free tags, so many of them, of which it goes by the first; `None`, with nothing changed, where fewer are
    /// free.
    pub(crate) fn claim(&mut self, alloc: Global, claim: Claim, count: u8) -> Option<u8>
        requires { 0 < count }
        ensures tag { result ≡ option_map lowest (claimed count self.old.tags) }
        ensures some { (tags : List ℕ) → claimed count self.old.tags ≡ Some tags →
            self.new ≡ tags_changed tags (Taken (command_of claim (lowest tags)) []) self.old }
        ensures none { result ≡ None → self.new ≡ self.old }
    {
        let tag = self.tags.claim_group(claim, count)?;
        if count == 1 {
            self.progress[usize::from(tag)] = Progress::Reading(Transcript::new(alloc));
            return Some(tag);
        }
        read_nothing(alloc, self.tags.group(tag), &mut self.progress);
        Some(tag)
    }

    /// The command of a tag that was taken.
    pub(crate) fn claimed(&self, tag: u8) -> &Claim
        requires { state_in (slice_get self.now.tags tag) ≡ Some state.Taken }
        ensures { (command : Command) (reads : List Read) → slice_get self.now.tags tag ≡ Some (Taken command reads) →
            command_of result.now command.leader ≡ command }
    {
        self.tags.claimed(tag)
    }

    /// A read joins the transcript of a tag that was taken. Where no memory is left, nothing has changed.
    pub(crate) fn push_read(&mut self, tag: u8, read: ReadDone) -> Result<(), NoMemory>
        requires { state_in (slice_get self.old.tags tag) ≡ Some state.Taken }
        ensures ok { (command : Command) (reads : List Read) → slice_get self.old.tags tag ≡ Some (Taken command reads) →
            OnOk result (self.new ≡ tag_changed tag (Taken command (reads ++ read ∷ [])) self.old) }
        ensures err { OnErr result (self.new ≡ self.old) }
    {
        let kept = &mut self.progress[usize::from(tag)];
        push_to(kept, read)?;
        Ok(())
    }
}

// Nothing was read yet of the lists of these tags' command.
fn read_nothing(alloc: Global, tags: Group, kept: &mut Vec<Progress>)
    requires { All (λ tag. tag < vec_len kept.old) tags }
    ensures { kept.new.items ≡ set_each tags (progress.Reading []) kept.old.items }
{
    let mut left = tags;
    while let Some(tag) = left.pop() {
        keep(kept, tag, Progress::Reading(Transcript::new(alloc)));
    }
}

// A read joins what is kept of a command that was taken.
fn push_to(kept: &mut Progress, read: ReadDone) -> Result<(), NoMemory>
    requires { IsReading kept.old }
    ensures ok { (reads : List Read) → kept.old ≡ progress.Reading reads → OnOk result (kept.new ≡ progress.Reading (reads ++ read ∷ [])) }
    ensures err { OnErr result (kept.new ≡ kept.old) }
{
    if let Progress::Reading(transcript) = kept {
        transcript.push(read)?;
    }
    Ok(())
}
