//! What is done to the mediator of a handle.

ghost use Rattle.std.specs.Prelude.{◌≡◌, ◌⊎◌, None, Some, length};
ghost use Rattle.nv_c.specs.Calls.{Either, IsDone, IsError, IsLeft, IsLoaded, IsRead, IsStepped, IsTold, IsWorkTold, Lent, On, dword_told};
ghost use Rattle.nv_c.specs.Serving.{IsLoaded as IsLoadedLent, IsRead as IsReadLent, IsServed, IsStepped as IsSteppedLent, IsTold as IsToldLent, IsWorkLent};

use crate::handle::Nvmed;
use crate::held::Held;
use crate::simulated::Simulated;
use crate::working::{self, Scope, Why};
use crate::{serving, status};
use nv_mediator::Mediator;
use nv_model::{Act, Reply};
use nv_world_model::Event;
use std::alloc::Global;

/// Carries out an event: what it is answered. Where there was no memory for it, which only some events need, nothing has changed.
pub(crate) fn step(alloc: Global, handle: &mut Nvmed, event: &Event, memory: &mut [u8]) -> u32
    ensures value { On (Either (IsStepped event.now) (Lent (IsSteppedLent event.now) memory.old memory.new))
        handle.old.hosted result handle.new.hosted }
    ensures left { IsLeft handle.old.hosted memory.old memory.new }
{
    let Some(mut held) = handle.take(alloc) else {
        return status::NO_MEDIATOR;
    };
    let answer = stepped(alloc, &mut held, event, memory);
    handle.put(alloc, held);
    answer
}

// An event on a mediator of either kind.
fn stepped(alloc: Global, held: &mut Held, event: &Event, memory: &mut [u8]) -> u32
    ensures value { Either (IsStepped event.now) (Lent (IsSteppedLent event.now) memory.old memory.new) held.old result held.new }
    ensures left { IsLeft (Some held.old) memory.old memory.new }
{
    match held {
        Held::Simulated(simulated) => simulated_step(alloc, &mut simulated.mediator, event),
        Held::Serving(mediator) => serving::step(alloc, mediator, event, memory),
    }
}

// An event on a mediator that has its own memory.
fn simulated_step(alloc: Global, mediator: &mut Mediator, event: &Event) -> u32
    ensures { IsStepped event.now mediator.old result mediator.new }
{
    match mediator.step(alloc, event) {
        Ok(reply) => status::of_reply(&reply),
        Err(_) => status::NO_MEMORY,
    }
}

/// A guest stores these bytes from its address `address` on: what it is answered. It takes no memory.
pub(crate) fn store(
    alloc: Global,
    handle: &mut Nvmed,
    guest: u8,
    address: u64,
    bytes: &[u8],
    memory: &mut [u8],
) -> u32
    ensures value { On (Either (IsDone (Event.Guest guest (Act.Store address bytes.now)))
        (Lent (IsServed (Event.Guest guest (Act.Store address bytes.now))) memory.old memory.new))
        handle.old.hosted result handle.new.hosted }
    ensures left { IsLeft handle.old.hosted memory.old memory.new }
{
    let Some(mut held) = handle.take(alloc) else {
        return status::NO_MEDIATOR;
    };
    let answer = stored(&mut held, guest, address, bytes, memory);
    handle.put(alloc, held);
    answer
}

// A store in a mediator of either kind.
fn stored(held: &mut Held, guest: u8, address: u64, bytes: &[u8], memory: &mut [u8]) -> u32
    ensures value { Either (IsDone (Event.Guest guest (Act.Store address bytes.now)))
        (Lent (IsServed (Event.Guest guest (Act.Store address bytes.now))) memory.old memory.new)
        held.old result held.new }
    ensures left { IsLeft (Some held.old) memory.old memory.new }
{
    match held {
        Held::Simulated(simulated) => {
            simulated_store(&mut simulated.mediator, guest, address, bytes)
        }
        Held::Serving(mediator) => serving::store(mediator, guest, address, bytes, memory),
    }
}

// A store in a mediator that has its own memory.
fn simulated_store(mediator: &mut Mediator, guest: u8, address: u64, bytes: &[u8]) -> u32
    ensures { IsDone (Event.Guest guest (Act.Store address bytes.now)) mediator.old result mediator.new }
{
    status::of_reply(&mediator.store(guest, address, bytes))
}

/// A guest loads as many bytes as there is room for from its address `address` on: what it is answered. It takes no memory. After an error the room
/// is as it was.
pub(crate) fn load(
    alloc: Global,
    handle: &mut Nvmed,
    guest: u8,
    address: u64,
    room: &mut [u8],
    memory: &[u8],
) -> u32
    ensures value { On (Either (IsLoaded (Event.Guest guest (Act.Load address (length room.old))) room.old room.new)
        (Lent (IsLoadedLent (Event.Guest guest (Act.Load address (length room.old))) room.old room.new) memory.now memory.now))
        handle.old.hosted result handle.new.hosted }
    ensures unchanged { IsError result → room.new ≡ room.old }
{
    let Some(held) = handle.take(alloc) else {
        return status::NO_MEDIATOR;
    };
    let answer = loaded(&held, guest, address, room, memory);
    handle.put(alloc, held);
    answer
}

// A load from a mediator of either kind.
fn loaded(held: &Held, guest: u8, address: u64, room: &mut [u8], memory: &[u8]) -> u32
    ensures value { Either (IsLoaded (Event.Guest guest (Act.Load address (length room.old))) room.old room.new)
        (Lent (IsLoadedLent (Event.Guest guest (Act.Load address (length room.old))) room.old room.new) memory.now memory.now)
        held.now result held.now }
    ensures unchanged { IsError result → room.new ≡ room.old }
{
    match held {
        Held::Simulated(simulated) => simulated_load(&simulated.mediator, guest, address, room),
        Held::Serving(mediator) => serving::load(mediator, guest, address, room, memory),
    }
}

// A load from a mediator that has its own memory.
fn simulated_load(mediator: &Mediator, guest: u8, address: u64, room: &mut [u8]) -> u32
    ensures value { IsLoaded (Event.Guest guest (Act.Load address (length room.old))) room.old room.new mediator.now result mediator.now }
    ensures unchanged { IsError result → room.new ≡ room.old }
{
    status::of_reply(&mediator.load(guest, address, room))
}

/// A guest reads the dword of a register: what it is answered. It takes no memory. After an error the value is as it was, or 0.
pub(crate) fn reg_read(
    alloc: Global,
    handle: &mut Nvmed,
    guest: u8,
    offset: u32,
    value: &mut u32,
    memory: &mut [u8],
) -> u32
    ensures value { On (Either (IsRead (Event.Guest guest (Act.RegRead offset)) value.new)
        (Lent (IsReadLent (Event.Guest guest (Act.RegRead offset)) value.new) memory.old memory.new))
        handle.old.hosted result handle.new.hosted }
    ensures none { IsError result → (value.new ≡ value.old) ⊎ (value.new ≡ 0) }
    ensures left { IsLeft handle.old.hosted memory.old memory.new }
{
    let Some(mut held) = handle.take(alloc) else {
        return status::NO_MEDIATOR;
    };
    let answer = read(alloc, &mut held, guest, offset, value, memory);
    handle.put(alloc, held);
    answer
}

// A register of a mediator of either kind.
fn read(
    alloc: Global,
    held: &mut Held,
    guest: u8,
    offset: u32,
    value: &mut u32,
    memory: &mut [u8],
) -> u32
    ensures value { Either (IsRead (Event.Guest guest (Act.RegRead offset)) value.new)
        (Lent (IsReadLent (Event.Guest guest (Act.RegRead offset)) value.new) memory.old memory.new)
        held.old result held.new }
    ensures none { IsError result → (value.new ≡ value.old) ⊎ (value.new ≡ 0) }
    ensures left { IsLeft (Some held.old) memory.old memory.new }
{
    match held {
        Held::Simulated(simulated) => {
            simulated_read(alloc, &mut simulated.mediator, guest, offset, value)
        }
        Held::Serving(mediator) => { serving::read(alloc, mediator, guest, offset, value, memory) }
    }
}

// A register of a mediator that has its own memory.
fn simulated_read(
    alloc: Global,
    mediator: &mut Mediator,
    guest: u8,
    offset: u32,
    value: &mut u32,
) -> u32
    ensures value { IsRead (Event.Guest guest (Act.RegRead offset)) value.new mediator.old result mediator.new }
    ensures none { IsError result → value.new ≡ 0 }
{
    match mediator.step(alloc, &Event::Guest(guest, Act::RegRead { offset })) {
        Ok(reply) => {
            *value = dword_of(&reply);
            status::of_reply(&reply)
        }
        // It reads without memory.
        Err(_) => unreachable!(),
    }
}

/// The dword that a reply returns, 0 where it returns none.
pub(crate) fn dword_of(reply: &Reply) -> u32
    ensures { result ≡ dword_told reply.now }
{
    let Reply::Bytes(bytes) = reply else {
        return 0;
    };
    match bytes.as_slice() {
        [a, b, c, d] => u32::from_le_bytes([*a, *b, *c, *d]),
        _ => 0,
    }
}

/// Whether an event is due. The call returns that this was reported, and the answer is 1 where the event is due and 0 otherwise. After an error the
/// answer is as it was.
pub(crate) fn due(
    alloc: Global,
    handle: &mut Nvmed,
    event: &Event,
    told: &mut u32,
    memory: &[u8],
) -> u32
    ensures value { On (Either (IsTold event.now told.new) (Lent (IsToldLent event.now told.new) memory.now memory.now))
        handle.old.hosted result handle.new.hosted }
    ensures unchanged { IsError result → told.new ≡ told.old }
{
    let Some(held) = handle.take(alloc) else {
        return status::NO_MEDIATOR;
    };
    let answer = asked(&held, event, told, memory);
    handle.put(alloc, held);
    answer
}

// Whether an event is due of a mediator of either kind.
fn asked(held: &Held, event: &Event, told: &mut u32, memory: &[u8]) -> u32
    ensures value { Either (IsTold event.now told.new) (Lent (IsToldLent event.now told.new) memory.now memory.now) held.now result held.now }
    ensures unchanged { IsError result → told.new ≡ told.old }
{
    match held {
        Held::Simulated(simulated) => {
            *told = u32::from(simulated.mediator.due(event));
            status::OK
        }
        Held::Serving(mediator) => serving::due(mediator, event, told, memory),
    }
}

/// What is due of a scope is carried out, `most` events at most: what it is answered, and how many there were.
pub(crate) fn work(
    alloc: Global,
    handle: &mut Nvmed,
    scope: Scope,
    most: u64,
    done: &mut u64,
    memory: &mut [u8],
) -> u32
    ensures value { On (Either (IsWorkTold scope most done.new) (Lent (IsWorkLent scope most done.new) memory.old memory.new))
        handle.old.hosted result handle.new.hosted }
    ensures none { handle.old.hosted ≡ None → done.new ≡ done.old }
    ensures left { IsLeft handle.old.hosted memory.old memory.new }
{
    let Some(mut held) = handle.take(alloc) else {
        return status::NO_MEDIATOR;
    };
    let answer = worked(alloc, &mut held, scope, most, done, memory);
    handle.put(alloc, held);
    answer
}

// What is due, of a mediator of either kind.
fn worked(
    alloc: Global,
    held: &mut Held,
    scope: Scope,
    most: u64,
    done: &mut u64,
    memory: &mut [u8],
) -> u32
    ensures value { Either (IsWorkTold scope most done.new) (Lent (IsWorkLent scope most done.new) memory.old memory.new) held.old result held.new }
    ensures left { IsLeft (Some held.old) memory.old memory.new }
{
    match held {
        Held::Simulated(simulated) => simulated_work(alloc, simulated, scope, most, done),
        Held::Serving(mediator) => serving::work(alloc, mediator, scope, most, done, memory),
    }
}

// What is due, of a mediator that has its own memory.
fn simulated_work(
    alloc: Global,
    simulated: &mut Simulated,
    scope: Scope,
    most: u64,
    done: &mut u64,
) -> u32
    ensures { IsWorkTold scope most done.new simulated.old result simulated.new }
{
    let Simulated { mediator, kept } = simulated;
    let ended = working::work(alloc, mediator, kept, scope, most);
    *done = ended.done;
    match ended.why {
        Why::Enough => status::OK,
        Why::Starved | Why::GaveUp => status::NO_MEMORY,
    }
}
