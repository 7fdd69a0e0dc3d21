//! Lanes that are closed.

ghost use Rattle.std.specs.Prelude.{◌≡◌, ◌<◌, List, false, length, not, slice_get, slice_set, true};
ghost use Rattle.nv_core.specs.Reaping.{waits_in};
ghost use Rattle.nv_host.specs.Closing.{AreDone, IsEndedBy, IsLaneAlone, IsOver, IsRingAlone};
ghost use Rattle.nv_host.specs.Served.{LeadsTo, is_closed};
ghost use Rattle.nv_world_model.specs.World.{World};
ghost use Rattle.nv_world_model.specs.declared.logged.Logged.{Logged};

use crate::host_mediator::HostMediator;
use nv_mem::MemoryCell;

/// The lane was closed: nothing is taken for it any more.
#[derive(Clone, Copy, Debug, PartialEq, Eq)]
pub struct Closed;

impl HostMediator {
    /// Closes a lane, where the drive's completions can't be relied on any more: each command of the lane that is on its way ends as if the drive had
    /// failed it, with Internal Error, which the guest may try again. Nothing is taken for the lane from then on, and the other lanes go on. Nothing
    /// changes where there is no such lane.
    ///
    /// The host has stopped the drive before, by a reset, so that it writes nothing any more. The completions that are there by then are read first, as
    /// long as they name commands. Then each command that waits for its plan is given up. Each that the drive still has fails: the completion with which
    /// a drive fails it is written into the slot that is read next, and read. Commands that have ended are posted as ever.
    ///
    /// It takes no memory. Of the host's memory no byte changes but those of the lane's completion ring. Of the mediator nothing changes but the lane: the
    /// other lanes, all tails and the guests' controllers are as they were. To use the drive again the host makes another mediator.
    ///
    /// It is a run of the definition's own events, after each log that leads to the mediator and the memory as they are, and no other lane's and no guest's
    /// is among them: a Reap of each completion that is there, a GiveUp of what waits for its plan, a DevTake of each entry that the drive has not taken, and
    /// for each command that it has a DevFail and a Reap. So a log leads past a close, and [`HostMediator::promise`] says of it what it says of every other.
    /// Where no log leads to the mediator, since the drive did what it may not, the clauses on tags and bytes hold all the same.
    pub fn close<C: MemoryCell>(&mut self, lane: u8, memory: &mut [C])
        requires { length (C.bytes memory.old) ≡ self.old.setup.host_bytes }
        ensures logs { (first : World) (log : List Logged) (z : World) → LeadsTo self.old first (C.bytes memory.old) log z →
            IsEndedBy lane first log self.new (C.bytes memory.new) }
        ensures over { IsOver self.old.setup.geometry lane (C.bytes memory.old) self.old.side self.new.side }
        ensures ended { AreDone lane self.new.side }
        ensures alone { IsLaneAlone lane self.old.side self.new.side }
        ensures ring { IsRingAlone self.old.setup.geometry lane (C.bytes memory.old) (C.bytes memory.new) }
        ensures idle { waits_in self.old.setup.geometry lane (slice_get self.new.side.lanes lane) (C.bytes memory.new) ≡ false }
        ensures closed { self.new.closed ≡ slice_set self.old.closed lane true }
        ensures setup { self.new.setup ≡ self.old.setup }
        ensures spare { self.new.spare ≡ self.old.spare }
    {
        if lane >= self.lanes {
            return;
        }
        self.drain(lane, memory);
        self.give_up_each(lane);
        self.fail_each(lane, memory);
        self.mute(lane, memory);
        self.shut(lane);
    }

    /// Whether a lane was closed; no where there is no such lane.
    pub fn is_closed(&self, lane: u8) -> bool
        ensures { result ≡ is_closed self.now lane }
    {
        let at = usize::from(lane);
        if at >= self.closed.len() {
            return false;
        }
        self.closed[at]
    }

    /// Whether a lane was not closed.
    pub(crate) fn is_open(&self, lane: u8) -> bool
        ensures { result ≡ not (is_closed self.now lane) }
    {
        !self.is_closed(lane)
    }

    // The lane is marked as closed.
    fn shut(&mut self, lane: u8)
        requires { lane < self.old.setup.lanes }
        ensures side { self.new.side ≡ self.old.side }
        ensures closed { self.new.closed ≡ slice_set self.old.closed lane true }
        ensures setup { self.new.setup ≡ self.old.setup }
        ensures spare { self.new.spare ≡ self.old.spare }
    {
        let _known = &self.front;
        self.closed[usize::from(lane)] = true;
    }
}
