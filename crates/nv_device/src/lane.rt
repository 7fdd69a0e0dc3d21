//! A lane of the device: a pair of rings, and the commands that were taken from them.

ghost use Rattle.std.specs.Prelude.{◌≡◌, ◌==◌, ◌<◌, true, false, replicate, IfOk, MatchOption, Some, None, slice_get, slice_set};
ghost use Rattle.std.specs.List.{list_any, slice_index_or};
ghost use Rattle.nv_model.specs.Queue.{is_empty, next_slot};
ghost use Rattle.nv_world_model.specs.Area.{ring_size, tag_count};
ghost use Rattle.nv_world_model.specs.Device.{completion_posted, opening_device_lane, unit_gone, with_held};

use crate::command::Command;
use nv_mem::NoMemory;
use nv_model::limits::{RING_SLOTS, TAGS};
use nv_ring::{Phase, Ring};
use std::alloc::Global;
use std::marker::Model;

/// The identifiers of a lane's commands, from 0 on: as many as it has tags.
pub const IDENTIFIERS: u8 = TAGS;

/// A lane: the positions of its submission ring, which slot of its completion ring is written next and with which phase tag, and the commands in
/// the device, by identifier.
#[derive(Debug, Drop)]
pub(crate) struct PhysicalLane {
    submissions: Ring,
    posted: u16,
    phase: Phase,
    held: Vec<Option<Command>>,
}

impl Model for PhysicalLane {
    ghost use Rattle.nv_device.specs.Physical.{IsLane};
    ghost use Rattle.nv_world_model.specs.Device.{DeviceLane};

    ghost Value = { DeviceLane };

    ghost view = { λ l. record {
      head = l.submissions.head;
      tail = l.submissions.tail;
      posted = l.posted;
      phase = l.phase;
      held = l.held.items;
    } };

    ghost invariant = { λ l. IsLane l.submissions.size l.submissions.head l.posted l.held.items };
}

impl PhysicalLane {
    /// Empty rings in their first pass, and no command.
    pub(crate) fn new(alloc: Global) -> Result<Self, NoMemory>
        ensures { IfOk result (λ lane. lane ≡ opening_device_lane) }
    {
        Ok(PhysicalLane {
            submissions: Ring::new(RING_SLOTS),
            posted: 0,
            phase: Phase::new(),
            held: no_commands(alloc)?,
        })
    }

    /// Whether no entry waits.
    pub(crate) fn is_idle(&self) -> bool
        ensures { result ≡ is_empty self.now.head self.now.tail }
    {
        self.submissions.empty()
    }

    /// The slot of the submission ring that is taken next.
    pub(crate) fn head(&self) -> u16
        ensures value { result ≡ self.now.head }
        ensures fits { result < ring_size }
    {
        self.submissions.head()
    }

    /// The slot of the submission ring after the last entry that is there.
    pub(crate) fn tail(&self) -> u16
        ensures value { result ≡ self.now.tail }
        ensures fits { result < ring_size }
    {
        self.submissions.tail()
    }

    /// The slot of the completion ring that is written next.
    pub(crate) fn posted(&self) -> u16
        ensures value { result ≡ self.now.posted }
        ensures fits { result < ring_size }
    {
        self.posted
    }

    /// The phase tag that is written next.
    pub(crate) fn phase(&self) -> bool
        ensures { result ≡ self.now.phase }
    {
        self.phase.expected()
    }

    /// The doorbell of the submission ring is rung with this tail.
    pub(crate) fn ring(&mut self, tail: u16)
        requires { tail < ring_size }
        ensures { self.new ≡ record self.old { tail = tail } }
    {
        self.submissions.set_tail(tail);
    }

    /// The command in the device under an identifier.
    pub(crate) fn command(&self, slot: u8) -> Option<&Command>
        requires { slot < tag_count }
        ensures { MatchOption result (slice_index_or self.now.held slot None ≡ None)
            (λ command. slice_index_or self.now.held slot None ≡ Some command.now) }
    {
        self.held[usize::from(slot)].as_ref()
    }

    /// The front entry is taken, as that command.
    pub(crate) fn take(&mut self, slot: u8, command: Command)
        requires waits { is_empty self.old.head self.old.tail ≡ false }
        requires slot { slot < tag_count }
        ensures { self.new
            ≡ record self.old { head = next_slot ring_size self.old.head; held = slice_set self.old.held slot (Some command) } }
    {
        self.submissions.take();
        self.held[usize::from(slot)] = Some(command);
    }

    /// A unit of a command has moved, and whether the command differed so far is as given.
    pub(crate) fn unit_done(&mut self, slot: u8, number: u64, differed: bool)
        requires there { MatchOption (slice_index_or self.old.held slot None) ⊥ (λ h. list_any (λ k. k == number) h.left ≡ true) }
        requires slot { slot < tag_count }
        ensures { MatchOption (slice_index_or self.old.held slot None) ⊥
            (λ h. self.new ≡ with_held slot (Some (unit_gone number differed h)) self.old) }
    {
        if let Some(command) = &mut self.held[usize::from(slot)] {
            command.unit_done(number, differed);
        }
    }

    /// A command's completion is posted: the next one goes into the next slot, and the command is in the device no longer.
    pub(crate) fn complete(&mut self, slot: u8)
        requires { slot < tag_count }
        ensures { self.new ≡ completion_posted slot self.old }
    {
        self.phase.go_on(self.submissions, self.posted);
        self.posted = self.submissions.next(self.posted);
        self.held[usize::from(slot)] = None;
    }
}

/// Room for a command under each identifier.
fn no_commands(alloc: Global) -> Result<Vec<Option<Command>>, NoMemory>
    ensures { IfOk result (λ held. held.items ≡ replicate tag_count None) }
{
    let mut held = Vec::with_capacity(alloc, usize::from(IDENTIFIERS))?;
    for _identifier in 0..IDENTIFIERS {
        held.push(None)?;
    }
    Ok(held)
}
