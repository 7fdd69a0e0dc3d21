//! Events as the mediator's own calls, where it has one.

use nv_mediator::Mediator;
use nv_mem::{Bytes, NoMemory};
use nv_model::{Act, Reply};
use nv_plan::{Job, Planned, make_plan};
use nv_world_model::Event;
use std::alloc::Global;

/// An event by its own call, if there is one.
pub fn call(mediator: &mut Mediator, alloc: Global, event: &Event) -> Result<Reply, NoMemory> {
    match event {
        Event::Guest(guest, act) => act_of(mediator, alloc, *guest, act, event),
        Event::Admin(guest) => Ok(mediator.admin(*guest)),
        Event::Take(guest, queue, lane) => Ok(mediator.take(alloc, *guest, *queue, *lane)),
        Event::Submit(lane, tag) => submit(mediator, alloc, *lane, *tag),
        Event::GiveUp(lane, tag) => Ok(mediator.give_up(*lane, *tag)),
        Event::DevMove(lane, slot, number) => Ok(mediator.dev_move(*lane, *slot, *number)),
        Event::DevPost(lane, slot) => Ok(mediator.dev_post(*lane, *slot)),
        Event::DevFail(lane, slot, status) => Ok(mediator.dev_fail(*lane, *slot, *status)),
        Event::Keep(block) => Ok(mediator.keep(*block)),
        Event::Reap(lane) => Ok(mediator.reap(*lane)),
        Event::Post(lane, tag) => Ok(mediator.post(*lane, *tag)),
        Event::List(_, _, _, _) | Event::DevTake(_) => mediator.step(alloc, event),
    }
}

// An act: a store and a load have a call of their own.
fn act_of(
    mediator: &mut Mediator,
    alloc: Global,
    guest: u8,
    act: &Act,
    event: &Event,
) -> Result<Reply, NoMemory> {
    match act {
        Act::Store { addr, bytes } => Ok(mediator.store(guest, *addr, bytes.as_slice())),
        Act::Load { addr, len } => load(mediator, alloc, guest, *addr, *len),
        _ => mediator.step(alloc, event),
    }
}

// A load, with its bytes as a reply has them.
fn load(
    mediator: &Mediator,
    alloc: Global,
    guest: u8,
    addr: u64,
    len: u64,
) -> Result<Reply, NoMemory> {
    let mut room = vec![in alloc; 0; (len & 0xffff) as usize]?;
    match mediator.load(guest, addr, &mut room) {
        Reply::Done => Ok(Reply::Bytes(Bytes::new(alloc, room)?)),
        reply => Ok(reply),
    }
}

// A Submit, by a plan that is made of the tag's job.
fn submit(mediator: &mut Mediator, alloc: Global, lane: u8, tag: u8) -> Result<Reply, NoMemory> {
    let Some(job) = mediator.job(alloc, lane, tag)? else {
        return mediator.step(alloc, &Event::Submit(lane, tag));
    };
    match planned(mediator, alloc, job) {
        Some(Planned::Plan(plan)) => Ok(mediator.submit_plan(plan).unwrap_or(Reply::Stale)),
        Some(Planned::Need(_, _, _)) => Ok(Reply::Stale),
        Some(Planned::NoMemory(_)) | None => Err(NoMemory),
    }
}

// What comes of a job.
fn planned(mediator: &Mediator, alloc: Global, job: Job) -> Option<Planned> {
    let map = mediator.map(job.guest)?;
    let ns = mediator.range(job.guest)?;
    let limit = mediator.limit(job.guest)?;
    Some(make_plan(alloc, alloc, job, map, ns, limit))
}
