//! The interrupts of guests.

ghost use Rattle.std.specs.Prelude.{◌≡◌, ◌≢◌, IsTrue, false, length, map, slice_get};
ghost use Rattle.nv_c.specs.Calls.{Either, IsError, On};
ghost use Rattle.nv_c.specs.Serving.{HasNoVector, HasNoVectors, IsRaised, IsRaisedTold, IsSeen, IsSeenTold, vector_kept};
ghost use Rattle.nv_model.specs.Controller.{queue_count};

use crate::handle::Nvmed;
use crate::held::Held;
use crate::status;
use nv_host::HostMediator;
use nv_model::limits::QUEUE_COUNT;
use std::alloc::Global;

/// The vector that one of a guest's completion queues raises: what it is answered. After an error the vector is as it was.
pub(crate) fn vector(
    alloc: Global,
    handle: &mut Nvmed,
    guest: u8,
    queue: u32,
    vector: &mut u32,
) -> u32
    ensures value { On (Either (HasNoVector vector.old vector.new) (IsRaisedTold guest queue vector.old vector.new)) handle.old.hosted result handle.new.hosted }
    ensures unchanged { IsError result → vector.new ≡ vector.old }
{
    let Some(held) = handle.take(alloc) else {
        return status::NO_MEDIATOR;
    };
    let answer = vector_of(&held, guest, queue, vector);
    handle.put(alloc, held);
    answer
}

// The same of a mediator of either kind.
fn vector_of(held: &Held, guest: u8, queue: u32, vector: &mut u32) -> u32
    ensures value { Either (HasNoVector vector.old vector.new) (IsRaisedTold guest queue vector.old vector.new) held.now result held.now }
    ensures unchanged { IsError result → vector.new ≡ vector.old }
{
    match held {
        Held::Simulated(_simulated) => status::NO_SUCH,
        Held::Serving(mediator) => served_vector(mediator, guest, queue, vector),
    }
}

// The same of one that is lent the host's memory.
fn served_vector(mediator: &HostMediator, guest: u8, queue: u32, vector: &mut u32) -> u32
    ensures value { IsRaised queue (slice_get mediator.now.side.controllers guest) vector.old vector.new result }
    ensures unchanged { IsError result → vector.new ≡ vector.old }
{
    let Some(pending) = mediator.pending(guest) else {
        return status::IGNORED;
    };
    match pending.get(queue as usize) {
        None => status::NO_SUCH,
        Some(None) => status::IDLE,
        Some(Some(raised)) => {
            *vector = u32::from(*raised);
            status::OK
        }
    }
}

/// Whether the vectors that a guest's completion queues raise are others than those that are kept, and keeps them: what it is answered. Where there is no
/// answer to that, what is kept is as it was.
pub(crate) fn seen(alloc: Global, handle: &mut Nvmed, guest: u8, vectors: &mut [u32]) -> u32
    ensures value { On (Either (HasNoVectors vectors.old vectors.new) (IsSeenTold guest vectors.old vectors.new)) handle.old.hosted result handle.new.hosted }
    ensures unchanged { IsError result → vectors.new ≡ vectors.old }
{
    let Some(held) = handle.take(alloc) else {
        return status::NO_MEDIATOR;
    };
    let answer = seen_of(&held, guest, vectors);
    handle.put(alloc, held);
    answer
}

// The same of a mediator of either kind.
fn seen_of(held: &Held, guest: u8, vectors: &mut [u32]) -> u32
    ensures value { Either (HasNoVectors vectors.old vectors.new) (IsSeenTold guest vectors.old vectors.new) held.now result held.now }
    ensures unchanged { IsError result → vectors.new ≡ vectors.old }
{
    match held {
        Held::Simulated(_simulated) => status::NO_SUCH,
        Held::Serving(mediator) => served_seen(mediator, guest, vectors),
    }
}

// The same of one that is lent the host's memory.
fn served_seen(mediator: &HostMediator, guest: u8, vectors: &mut [u32]) -> u32
    ensures value { IsSeen (slice_get mediator.now.side.controllers guest) vectors.old vectors.new result }
    ensures unchanged { IsError result → vectors.new ≡ vectors.old }
{
    let Some(pending) = mediator.pending(guest) else {
        return status::IGNORED;
    };
    if vectors.len() != QUEUE_COUNT {
        return status::NO_SUCH;
    }
    if has_changed(&pending, vectors) {
        return status::OK;
    }
    status::IDLE
}

// Keeps these vectors; whether others were kept.
fn has_changed(pending: &[Option<u16>; QUEUE_COUNT], vectors: &mut [u32]) -> bool
    requires { length vectors.old ≡ queue_count }
    ensures now { vectors.new ≡ map vector_kept pending.now }
    ensures yes { IsTrue result → vectors.new ≢ vectors.old }
    ensures no { result ≡ false → vectors.new ≡ vectors.old }
{
    let now = pending.map(kept);
    if vectors[..] == now[..] {
        return false;
    }
    vectors.copy_from_slice(&now);
    true
}

/// A vector as a host keeps it.
pub(crate) fn kept(vector: Option<u16>) -> u32
    ensures { result ≡ vector_kept vector }
{
    match vector {
        None => 0,
        Some(vector) => u32::from(vector) + 1,
    }
}
