//! Which vectors of a guest a host signals whose interrupts are messages: those of completion queues that stand elsewhere than when it asked last.

ghost use Rattle.std.specs.Prelude.{◌≡◌, ◌≢◌, Some, length, slice_get};
ghost use Rattle.nv_c.specs.Calls.{Either, IsError, On};
ghost use Rattle.nv_c.specs.Posted.{AreNews, HasNoNews, IsNews, IsNewsTold, is_same, new_vector, standing_of};
ghost use Rattle.nv_c.specs.Serving.{vector_kept};
ghost use Rattle.nv_model.specs.Controller.{Controller, queue_count};
ghost use Rattle.nv_model.specs.Queue.{raised};

use crate::handle::Nvmed;
use crate::held::Held;
use crate::interrupts::kept;
use crate::status;
use nv_host::HostMediator;
use nv_model::limits::QUEUE_COUNT;
use nv_vctl::CompletionQueue;
use std::alloc::Global;

/// Where a completion queue stands: C's `nvmed_standing`. All zero where there is no queue.
#[repr(C)]
#[derive(Clone, Copy)]
pub struct Standing {
    /// how many slots it has
    pub size: u16,
    /// the slot of the next completion
    pub tail: u16,
    /// the slot of the oldest completion that the guest has not acknowledged
    pub head: u16,
    /// the phase tag of the next completion
    pub phase: u16,
}

/// Which vectors of a guest are to be signalled, of each completion queue, and keeps where the queues stand: what it is answered. Where there is no answer
/// to that, all is as it was.
pub(crate) fn posted(
    alloc: Global,
    handle: &mut Nvmed,
    guest: u8,
    seen: &mut [Standing],
    vectors: &mut [u32],
) -> u32
    ensures value { On (Either (HasNoNews seen.old seen.new vectors.old vectors.new) (IsNewsTold guest seen.old seen.new vectors.old vectors.new))
        handle.old.hosted result handle.new.hosted }
    ensures seen { IsError result → seen.new ≡ seen.old }
    ensures vectors { IsError result → vectors.new ≡ vectors.old }
{
    let Some(held) = handle.take(alloc) else {
        return status::NO_MEDIATOR;
    };
    let answer = posted_of(&held, guest, seen, vectors);
    handle.put(alloc, held);
    answer
}

// The same of a mediator of either kind.
fn posted_of(held: &Held, guest: u8, seen: &mut [Standing], vectors: &mut [u32]) -> u32
    ensures value { Either (HasNoNews seen.old seen.new vectors.old vectors.new) (IsNewsTold guest seen.old seen.new vectors.old vectors.new)
        held.now result held.now }
    ensures seen { IsError result → seen.new ≡ seen.old }
    ensures vectors { IsError result → vectors.new ≡ vectors.old }
{
    match held {
        Held::Simulated(_simulated) => status::NO_SUCH,
        Held::Serving(mediator) => served_posted(mediator, guest, seen, vectors),
    }
}

// The same of one that is lent the host's memory.
fn served_posted(
    mediator: &HostMediator,
    guest: u8,
    seen: &mut [Standing],
    vectors: &mut [u32],
) -> u32
    ensures value { IsNews (slice_get mediator.now.side.controllers guest) seen.old seen.new vectors.old vectors.new result }
    ensures seen { IsError result → seen.new ≡ seen.old }
    ensures vectors { IsError result → vectors.new ≡ vectors.old }
{
    if mediator.completion_queue(guest, 0).is_none() {
        return status::IGNORED;
    }
    if seen.len() != QUEUE_COUNT {
        return status::NO_SUCH;
    }
    if vectors.len() != QUEUE_COUNT {
        return status::NO_SUCH;
    }
    ask_each(mediator, guest, seen, vectors);
    status::OK
}

// Asks of each completion queue of a guest.
fn ask_each(mediator: &HostMediator, guest: u8, seen: &mut [Standing], vectors: &mut [u32])
    requires there { (c : Controller) × (slice_get mediator.now.side.controllers guest ≡ Some c) }
    requires seen { length seen.old ≡ queue_count }
    requires room { length vectors.old ≡ queue_count }
    ensures { (c : Controller) → slice_get mediator.now.side.controllers guest ≡ Some c → AreNews c seen.old seen.new vectors.new }
{
    for queue in 0..QUEUE_COUNT {
        let Some(now) = mediator.completion_queue(guest, queue) else {
            unreachable!()
        };
        vectors[queue] = ask(&now, &mut seen[queue]);
    }
}

// Which vector of a queue is to be signalled, counted from 1, and 0 for none; and keeps where the queue stands.
fn ask(queue: &Option<CompletionQueue>, seen: &mut Standing) -> u32
    ensures kept { seen.new ≡ standing_of queue.now }
    ensures told { result ≡ vector_kept (new_vector queue.now seen.old) }
{
    let stands = standing_of(queue);
    if is_same(&stands, seen) {
        return 0;
    }
    *seen = stands;
    kept(raised_by(queue))
}

// Where a queue stands.
fn standing_of(queue: &Option<CompletionQueue>) -> Standing
    ensures { result ≡ standing_of queue.now }
{
    match queue {
        None => Standing {
            size: 0,
            tail: 0,
            head: 0,
            phase: 0,
        },
        Some(queue) => Standing {
            size: queue.size(),
            tail: queue.tail(),
            head: queue.head(),
            phase: u16::from(queue.phase()),
        },
    }
}

// Whether two stand alike.
fn is_same(one: &Standing, other: &Standing) -> bool
    ensures { result ≡ is_same one.now other.now }
{
    one.size == other.size
        && one.tail == other.tail
        && one.head == other.head
        && one.phase == other.phase
}

// The vector that a queue raises.
fn raised_by(queue: &Option<CompletionQueue>) -> Option<u16>
    ensures { result ≡ raised queue.now }
{
    match queue {
        None => None,
        Some(queue) => queue.raised(),
    }
}
