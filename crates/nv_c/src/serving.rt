//! What is done to a mediator that is lent the host's memory.

ghost use Rattle.std.specs.Prelude.{◌≡◌, ◌==◌, ◌⊎◌, IfErr, IfOk, MatchResult, OnErr, length};
ghost use Rattle.nv_c.specs.Calls.{IsError, IsRefused, Lent, no_memory, status_of};
ghost use Rattle.nv_c.specs.Serving.{IsClosed, IsLoaded, IsRead, IsServed, IsStepped, IsTold, IsWorkLent, hosts_scope, status_of_why};
ghost use Rattle.nv_host.specs.Served.{AreRingsAlone, IsAtStart, Served, serving_refusal_of};

use crate::acting::dword_of;
use crate::held::Held;
use crate::status;
use crate::working::Scope;
use nv_host::{HostMediator, Scope as HostScope, Setup, Why as HostWhy};
use nv_mem::NoMemory;
use nv_model::{Act, Reply};
use nv_world_model::Event;
use std::alloc::Global;

// Whether the memory that was lent is as long as the set-up says.
fn fits(mediator: &HostMediator, memory: &[u8]) -> bool
    ensures { result ≡ (length memory.now == mediator.now.setup.host_bytes) }
{
    memory.len() as u64 == mediator.host_bytes()
}

/// The mediator of a set-up, in a box of its own; or what is answered where there is none.
pub(crate) fn open(alloc: Global, setup: Setup, memory: &mut [u8]) -> Result<Box<Held>, u32>
    requires { length memory.old ≡ setup.host_bytes }
    ensures ok { IfOk result (λ held. (h : Served) × (held.value ≡ Held.Serving h) × IsAtStart setup h memory.new) }
    ensures err { IfErr result (λ answer. IsRefused serving_refusal_of setup answer) }
    ensures rings { IfOk result (λ _. AreRingsAlone setup memory.old memory.new) }
    ensures left { IfErr result (λ answer. (answer ≡ no_memory) × AreRingsAlone setup memory.old memory.new ⊎ (memory.new ≡ memory.old)) }
{
    let mediator = match made(alloc, setup, memory) {
        Ok(mediator) => mediator,
        Err(answer) => return Err(answer),
    };
    match Box::new(alloc, Held::Serving(mediator)) {
        Ok(held) => Ok(held),
        Err(_) => Err(status::NO_MEMORY),
    }
}

// The mediator of a set-up, or what is answered where there is none.
fn made(alloc: Global, setup: Setup, memory: &mut [u8]) -> Result<HostMediator, u32>
    requires { length memory.old ≡ setup.host_bytes }
    ensures ok { IfOk result (λ mediator. IsAtStart setup mediator memory.new) }
    ensures err { IfErr result (λ answer. IsRefused serving_refusal_of setup answer) }
    ensures rings { IfOk result (λ _. AreRingsAlone setup memory.old memory.new) }
    ensures left { OnErr result (memory.new ≡ memory.old) }
{
    match HostMediator::new(alloc, setup, memory) {
        Ok(mediator) => Ok(mediator),
        Err(refusal) => Err(status::of_refusal(refusal)),
    }
}

/// A guest stores these bytes from its address `address` on: what it is answered.
pub(crate) fn store(
    mediator: &mut HostMediator,
    guest: u8,
    address: u64,
    bytes: &[u8],
    memory: &mut [u8],
) -> u32
    ensures { Lent (IsServed (Event.Guest guest (Act.Store address bytes.now))) memory.old memory.new mediator.old result mediator.new }
{
    if !fits(mediator, memory) {
        return status::OTHER_MEMORY;
    }
    status::of_reply(&mediator.store(guest, address, bytes, memory))
}

/// A guest loads as many bytes as there is room for from its address `address` on: what it is answered. After an error the room is as it was.
pub(crate) fn load(
    mediator: &HostMediator,
    guest: u8,
    address: u64,
    room: &mut [u8],
    memory: &[u8],
) -> u32
    ensures value { Lent (IsLoaded (Event.Guest guest (Act.Load address (length room.old))) room.old room.new) memory.now memory.now
        mediator.now result mediator.now }
    ensures unchanged { IsError result → room.new ≡ room.old }
{
    if !fits(mediator, memory) {
        return status::OTHER_MEMORY;
    }
    status::of_reply(&mediator.load(guest, address, room, memory))
}

/// A guest reads the dword of a register: what it is answered. After an error the value is as it was, or 0.
pub(crate) fn read(
    alloc: Global,
    mediator: &mut HostMediator,
    guest: u8,
    offset: u32,
    value: &mut u32,
    memory: &mut [u8],
) -> u32
    ensures value { Lent (IsRead (Event.Guest guest (Act.RegRead offset)) value.new) memory.old memory.new
        mediator.old result mediator.new }
    ensures none { IsError result → (value.new ≡ value.old) ⊎ (value.new ≡ 0) }
{
    if !fits(mediator, memory) {
        return status::OTHER_MEMORY;
    }
    match mediator.act(alloc, guest, &Act::RegRead { offset }, memory) {
        Ok(reply) => {
            *value = dword_of(&reply);
            status::of_reply(&reply)
        }
        // It reads without memory.
        Err(_) => unreachable!(),
    }
}

/// Whether an event is due, and nothing for a lane that was closed. After an error the answer is as it was.
pub(crate) fn due(mediator: &HostMediator, event: &Event, told: &mut u32, memory: &[u8]) -> u32
    ensures value { Lent (IsTold event.now told.new) memory.now memory.now mediator.now result mediator.now }
    ensures unchanged { IsError result → told.new ≡ told.old }
{
    if !fits(mediator, memory) {
        return status::OTHER_MEMORY;
    }
    *told = u32::from(mediator.due(event, memory));
    status::OK
}

/// Carries out an event: what it is answered.
pub(crate) fn step(
    alloc: Global,
    mediator: &mut HostMediator,
    event: &Event,
    memory: &mut [u8],
) -> u32
    ensures { Lent (IsStepped event.now) memory.old memory.new mediator.old result mediator.new }
{
    if !fits(mediator, memory) {
        return status::OTHER_MEMORY;
    }
    stepped(alloc, mediator, event, memory)
}

// An event, where the memory that was lent is as long as it has to be.
fn stepped(alloc: Global, mediator: &mut HostMediator, event: &Event, memory: &mut [u8]) -> u32
    requires { length memory.old ≡ mediator.old.setup.host_bytes }
    ensures value { IsStepped event.now memory.old memory.new mediator.old result mediator.new }
    ensures len { length memory.new ≡ length memory.old }
{
    match event {
        Event::Guest(guest, act) => of_room(mediator.act(alloc, *guest, act, memory)),
        Event::Admin(guest) => status::of_reply(&mediator.admin(*guest, memory)),
        Event::Take(guest, queue, lane) => {
            match mediator.take(alloc, *guest, *queue, *lane, memory) {
                Ok(reply) => status::of_reply(&reply),
                Err(_closed) => status::CLOSED,
            }
        }
        Event::List(lane, tag, addr, len) => {
            match mediator.list(alloc, *lane, *tag, *addr, *len, memory) {
                Ok((reply, _again)) => status::of_reply(&reply),
                Err(NoMemory) => status::NO_MEMORY,
            }
        }
        Event::Submit(lane, tag) => of_room(mediator.submit(alloc, *lane, *tag, memory)),
        Event::GiveUp(lane, tag) => give_up(mediator, *lane, *tag, memory),
        Event::Reap(lane) => match mediator.reap(*lane, memory) {
            Ok(reply) => status::of_reply(&reply),
            Err(_stray) => status::STRAY,
        },
        Event::Post(lane, tag) => status::of_reply(&mediator.post(*lane, *tag, memory)),
        Event::DevTake(_lane) => status::NO_SUCH,
        Event::DevMove(_lane, _slot, _number) => status::NO_SUCH,
        Event::DevPost(_lane, _slot) => status::NO_SUCH,
        Event::DevFail(_lane, _slot, _status) => status::NO_SUCH,
        Event::Keep(_block) => status::NO_SUCH,
    }
}

// A command is given up, whatever is in the memory that is lent.
fn give_up(mediator: &mut HostMediator, lane: u8, tag: u8, _memory: &[u8]) -> u32
    ensures { IsServed (Event.GiveUp lane tag) _memory.now _memory.now mediator.old result mediator.new }
{
    status::of_reply(&mediator.give_up(lane, tag))
}

// What an event is answered for which there may be no memory.
fn of_room(replied: Result<Reply, NoMemory>) -> u32
    ensures { MatchResult replied (λ reply. result ≡ status_of reply) (λ _. result ≡ no_memory) }
{
    match replied {
        Ok(reply) => status::of_reply(&reply),
        Err(NoMemory) => status::NO_MEMORY,
    }
}

/// Closes a lane: what it is answered.
pub(crate) fn close(mediator: &mut HostMediator, lane: u8, memory: &mut [u8]) -> u32
    ensures { Lent (IsClosed lane) memory.old memory.new mediator.old result mediator.new }
{
    if !fits(mediator, memory) {
        return status::OTHER_MEMORY;
    }
    if lane >= mediator.lanes() {
        return status::NO_SUCH;
    }
    mediator.close(lane, memory);
    status::OK
}

/// What is due of a scope is carried out, `most` events at most: what it is answered, and how many there were.
pub(crate) fn work(
    alloc: Global,
    mediator: &mut HostMediator,
    scope: Scope,
    most: u64,
    done: &mut u64,
    memory: &mut [u8],
) -> u32
    ensures { Lent (IsWorkLent scope most done.new) memory.old memory.new mediator.old result mediator.new }
{
    if !fits(mediator, memory) {
        return status::OTHER_MEMORY;
    }
    let worked = mediator.work(alloc, hosts_scope(scope), most, memory);
    *done = worked.done;
    of_end(worked.why)
}

// A scope, as the host's mediator has it.
fn hosts_scope(scope: Scope) -> HostScope
    ensures { result ≡ hosts_scope scope }
{
    match scope {
        Scope::Guest(guest) => HostScope::Guest(guest),
        Scope::Lane(lane) => HostScope::Lane(lane),
        Scope::All => HostScope::All,
    }
}

// What it is answered, by why it ended.
fn of_end(why: HostWhy) -> u32
    ensures { result ≡ status_of_why why }
{
    match why {
        HostWhy::Enough => status::OK,
        HostWhy::Starved | HostWhy::GaveUp => status::NO_MEMORY,
        HostWhy::Stray(_lane) => status::STRAY,
    }
}
