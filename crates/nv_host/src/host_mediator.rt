//! The mediator of a host, and what is promised of it.

ghost use Rattle.std.specs.Prelude.{◌≡◌, ◌+◌, ◌⊎◌, IfErr, IfOk, None, OnErr, Some, length};
ghost use Rattle.nv_host.specs.Shares.{needed_in_all};
ghost use Rattle.nv_host.specs.Served.{AreRingsAlone, IsAccepted, IsAtStart, IsPromised, first_refusal, opened, serving_refusal_of};
ghost use Rattle.nv_world_model.specs.Area.{tag_count};

use crate::holds::Holds;
use crate::shares::tags_left;
use nv_core::{Front, Layout};
use nv_mediator::{Refusal, Setup};
use nv_mem::{MemoryCell, NoMemory};
use nv_model::limits::TAG_COUNT;
use std::alloc::Global;
use std::marker::Model;

/// The mediator between up to 16 guests and a drive, for a host that has the memory and the drive.
///
/// Its type keeps that its set-up was accepted, and what the mediator's side keeps whatever is in memory. Beside that it has a flag for each lane, whether
/// it was closed, each guest's share of a lane's tags, and notes of commands that wait for room in their guests' completion queues.
#[derive(Drop)]
pub struct HostMediator {
    pub(crate) layout: Layout,
    pub(crate) host_bytes: u64,
    pub(crate) lanes: u8,
    pub(crate) front: Front,
    pub(crate) closed: Vec<bool>,
    // of each guest, how many tags of a lane it may have while one more command is taken for it there
    pub(crate) spare: Vec<u8>,
    pub(crate) holds: Holds,
}

impl Model for HostMediator {
    ghost use Rattle.nv_host.specs.Holds.{IsServedWith};
    ghost use Rattle.nv_host.specs.Served.{Served};

    ghost Value = { Served };

    ghost view = { λ m. record { setup = record { host_bytes = m.host_bytes; lanes = m.lanes; geometry = m.layout }; side = m.front; closed = m.closed.items; spare = m.spare.items } };

    ghost invariant = { λ m.
        IsServedWith (record { setup = record { host_bytes = m.host_bytes; lanes = m.lanes; geometry = m.layout }; side = m.front; closed = m.closed.items; spare = m.spare.items })
        m.holds };
}

impl HostMediator {
    /// The mediator of a set-up at its start, whatever the drive's blocks and the memory have. Zeros are written into the lanes' completion rings, as a
    /// driver does before a controller has them; no other byte changes.
    ///
    /// # Errors
    ///
    /// The first reason for which the set-up is refused, or that memory was: nothing has changed. To the reasons of a host's set-up comes a last one: the
    /// guests have more than 64 extents together, so that one command of each may need more tags than a lane has ([`Refusal::BadSize`]).
    pub fn new<C: MemoryCell>(
        alloc: Global,
        setup: Setup,
        memory: &mut [C],
    ) -> Result<Self, Refusal>
        requires { length (C.bytes memory.old) ≡ setup.host_bytes }
        ensures ok { IfOk result (λ mediator. IsAtStart setup mediator (C.bytes memory.new)) }
        ensures accepted { IfOk result (λ _. serving_refusal_of setup ≡ None) }
        ensures rings { IfOk result (λ _. AreRingsAlone setup (C.bytes memory.old) (C.bytes memory.new)) }
        ensures len { length (C.bytes memory.new) ≡ length (C.bytes memory.old) }
        ensures same { OnErr result (C.bytes memory.new ≡ C.bytes memory.old) }
        ensures err { IfErr result (λ refusal. (first_refusal setup ≡ Some refusal) ⊎ ((refusal ≡ Refusal.NoMemory) × (serving_refusal_of setup ≡ None))) }
    {
        if let Some(refusal) = setup.host_refusal() {
            return Err(refusal);
        }
        let Some(left) = tags_left(TAG_COUNT, &setup.guests) else {
            return Err(Refusal::BadSize);
        };
        let Ok(mediator) = Self::open(alloc, setup, left) else {
            return Err(Refusal::NoMemory);
        };
        mediator.clear_rings(memory);
        Ok(mediator)
    }

    // The mediator of a set-up that is not refused, where so many tags of a lane are left once each guest has what one command of it may need.
    fn open(alloc: Global, setup: Setup, left: usize) -> Result<Self, NoMemory>
        requires accepted { IsAccepted setup }
        requires left { left + needed_in_all setup.geometry.guests ≡ tag_count }
        ensures { IfOk result (λ mediator. mediator ≡ opened setup) }
    {
        let host_bytes = setup.host_bytes;
        let lanes = setup.lanes as u8;
        let guests = setup.guests.len();
        let layout = setup.into_layout(alloc)?;
        let front = Front::new(alloc, &layout, lanes)?;
        let closed = vec![in alloc; false; usize::from(lanes)]?;
        let spare = vec![in alloc; (left / guests.max(1)) as u8; guests]?;
        Ok(HostMediator {
            layout,
            host_bytes,
            lanes,
            front,
            closed,
            spare,
            holds: Holds::none(),
        })
    }

    /// What is promised of the mediator as it is; it does nothing.
    ///
    /// Of every log that leads to it, in whatever memory and from whatever start, the whole promise holds. Each event is contained: it reads and changes
    /// nothing of any guest but its owner. What a disciplined guest has seen, its memory and its namespace are those of a run of its own commands on a private controller, where
    /// the drive failed none of them.
    ///
    /// That there is such a log rests on the drive and on the host, which nothing here can prove. Between two calls the drive does what the definition's
    /// events of the physical controller do, DevTake, DevMove, DevPost, DevFail and Keep, in any order and number, and the memory is afterwards as they
    /// make it. Nothing else changes the memory or the disk but guests, whose stores are events of their own, each to its guest's memory alone. Then the
    /// calls, in the order in which they were made, and the drive's events between them are a log that leads there. A [`HostMediator::close`] is the events
    /// that its contract gives. Some of these are the drive's: it takes and fails what it was handed. It doesn't do them itself: the host has stopped it before,
    /// so that it does nothing more of that lane.
    #[inline(always)]
    pub fn promise(&self)
        ensures accepted { IsAccepted self.now.setup }
        ensures promised { IsPromised self.now }
    {
        let _known = &self.front;
    }
}
