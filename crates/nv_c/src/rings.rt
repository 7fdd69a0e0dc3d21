//! The queues of the host's drive, and lanes that are closed.

ghost use Rattle.std.specs.Prelude.{◌≡◌, ◌≤◌, MatchOption, Some};
ghost use Rattle.nv_c.specs.Calls.{Either, IsError, IsLeft, Lent, On};
ghost use Rattle.nv_c.specs.Serving.{AreRings, HasNoLane, HasNoRings, IsClosed, IsRingsTold};

use crate::handle::Nvmed;
use crate::held::Held;
use crate::{serving, status};
use nv_host::HostMediator;
use nv_model::limits::RING_SLOTS;
use std::alloc::Global;

/// A lane's rings: C's `nvmed_lane_rings`.
#[repr(C)]
#[derive(Clone, Copy)]
pub struct Rings {
    /// the host address of the submission ring, of entries of 64 bytes
    pub submission: u64,
    /// the host address of the completion ring, of entries of 16 bytes
    pub completion: u64,
    /// how many entries each has
    pub entries: u32,
    /// what the submission ring's tail doorbell is to have
    pub tail: u32,
    /// what the completion ring's head doorbell is to have
    pub head: u32,
    /// 1 where the lane was closed, and else 0
    pub closed: u32,
}

/// Reports a lane's rings: what it is answered. After an error they are as they were.
pub(crate) fn report(alloc: Global, handle: &mut Nvmed, lane: u8, rings: &mut Rings) -> u32
    ensures value { On (Either (HasNoRings rings.old rings.new) (IsRingsTold lane rings.old rings.new)) handle.old.hosted result handle.new.hosted }
    ensures unchanged { IsError result → rings.new ≡ rings.old }
{
    let Some(held) = handle.take(alloc) else {
        return status::NO_MEDIATOR;
    };
    let answer = rings_of(&held, lane, rings);
    handle.put(alloc, held);
    answer
}

// The rings of a mediator of either kind.
fn rings_of(held: &Held, lane: u8, rings: &mut Rings) -> u32
    ensures value { Either (HasNoRings rings.old rings.new) (IsRingsTold lane rings.old rings.new) held.now result held.now }
    ensures unchanged { IsError result → rings.new ≡ rings.old }
{
    let Held::Serving(mediator) = held else {
        return status::NO_SUCH;
    };
    match served_rings(mediator, lane) {
        Some(told) => {
            *rings = told;
            status::OK
        }
        None => status::NO_SUCH,
    }
}

// A lane's rings; `None` where there is no such lane.
fn served_rings(mediator: &HostMediator, lane: u8) -> Option<Rings>
    ensures { MatchOption result (mediator.now.setup.lanes ≤ lane) (λ rings. AreRings mediator.now lane rings) }
{
    let submission = mediator.submission_ring(lane)?;
    let completion = mediator.completion_ring(lane)?;
    let tail = mediator.tail(lane)?;
    let head = mediator.head(lane)?;
    Some(Rings {
        submission,
        completion,
        entries: u32::from(RING_SLOTS),
        tail: u32::from(tail),
        head: u32::from(head),
        closed: u32::from(mediator.is_closed(lane)),
    })
}

/// Closes a lane: what it is answered.
pub(crate) fn close(alloc: Global, handle: &mut Nvmed, lane: u8, memory: &mut [u8]) -> u32
    ensures value { On (Either HasNoLane (Lent (IsClosed lane) memory.old memory.new)) handle.old.hosted result handle.new.hosted }
    ensures left { IsLeft handle.old.hosted memory.old memory.new }
{
    let Some(mut held) = handle.take(alloc) else {
        return status::NO_MEDIATOR;
    };
    let answer = closed(&mut held, lane, memory);
    handle.put(alloc, held);
    answer
}

// Closes a lane of a mediator of either kind.
fn closed(held: &mut Held, lane: u8, memory: &mut [u8]) -> u32
    ensures value { Either HasNoLane (Lent (IsClosed lane) memory.old memory.new) held.old result held.new }
    ensures left { IsLeft (Some held.old) memory.old memory.new }
{
    match held {
        Held::Simulated(_simulated) => status::NO_SUCH,
        Held::Serving(mediator) => serving::close(mediator, lane, memory),
    }
}
