//! Copies of events and replies for the log.

ghost use Rattle.std.specs.Prelude.{◌≡◌, IfOk, None};
ghost use Rattle.nv_core.specs.Seat.{bytes_told};

use nv_mem::NoMemory;
use nv_model::Reply;
use nv_world_model::Event;
use std::alloc::Global;

/// A reply that has no bytes, once more.
#[inline(always)]
pub(crate) fn word(reply: &Reply) -> Reply
    requires { bytes_told reply.now ≡ None }
    ensures { result ≡ reply.now }
{
    match reply {
        Reply::Bytes(_) => unreachable!(),
        Reply::Done => Reply::Done,
        Reply::Idle => Reply::Idle,
        Reply::Busy => Reply::Busy,
        Reply::Held => Reply::Held,
        Reply::Stale => Reply::Stale,
        Reply::Unmapped => Reply::Unmapped,
        Reply::Ignored => Reply::Ignored,
        Reply::NoMemory => Reply::NoMemory,
    }
}

/// An event once more. Memory is taken for the bytes of a store alone.
pub(crate) fn event(alloc: Global, event: &Event) -> Result<Event, NoMemory>
    ensures { IfOk result (λ copy. copy ≡ event.now) }
{
    match event {
        Event::Guest(guest, act) => Ok(Event::Guest(*guest, act.try_clone(alloc)?)),
        Event::Admin(guest) => Ok(Event::Admin(*guest)),
        Event::Take(guest, queue, lane) => Ok(Event::Take(*guest, *queue, *lane)),
        Event::List(lane, tag, addr, len) => Ok(Event::List(*lane, *tag, *addr, *len)),
        Event::Submit(lane, tag) => Ok(Event::Submit(*lane, *tag)),
        Event::GiveUp(lane, tag) => Ok(Event::GiveUp(*lane, *tag)),
        Event::DevTake(lane) => Ok(Event::DevTake(*lane)),
        Event::DevMove(lane, slot, number) => Ok(Event::DevMove(*lane, *slot, *number)),
        Event::DevPost(lane, slot) => Ok(Event::DevPost(*lane, *slot)),
        Event::DevFail(lane, slot, status) => Ok(Event::DevFail(*lane, *slot, *status)),
        Event::Keep(block) => Ok(Event::Keep(*block)),
        Event::Reap(lane) => Ok(Event::Reap(*lane)),
        Event::Post(lane, tag) => Ok(Event::Post(*lane, *tag)),
    }
}
