//! The library that a hypervisor links: the mediator without a log, used through calls from C.
//!
//! `include/nvmed.h` has the calls as C sees them. It tests each pointer for null, and passes on what is defined here, by references and slices: a
//! handle ([`Nvmed`]) and plain structs ([`Sizes`], [`Region`], [`GuestExtent`], [`Event`]). Each call on a handle returns one of the numbers of
//! `enum nvmed_status` for any numbers and any bytes. Nothing here aborts, prints, waits, or keeps anything outside the handle.
//!
//! A handle is a struct that C owns and that has one pointer. It is null where the handle holds nothing, and else points to a mediator in memory of
//! its own. A type that holds a `Vec` or a `Box` can't cross to C, and neither can a pointer to one. So the struct has a raw pointer, and its model
//! says what it owns. Each call takes the mediator out of the handle as a box, and puts it back. So only the functions of the handle (`handle`,
//! `handle/parts`), and one that gives the address of what is shown, are proved about pointers. Null is tested in the header, since a function here
//! that tests a pointer would be one more of these.
//!
//! Of a simulation `nvmed_work` chooses what is due in the world as it is, which changes nothing, and then carries it out. It keeps nothing from call to
//! call. The slot of the physical controller that was served last comes first. While others have something to do, a guest gets 64 events in a row at
//! most. Over the host's memory it is `HostMediator::work` of `nv_host`.
//!
//! This is a crate of its own because it is a static library: what else it needs is in `nv_mediator` and below. `docs/EMBEDDING.md` has what the
//! contracts don't say.
#![tactic(auto)]

ghost use Rattle.std.specs.Prelude.{◌≡◌, ◌⊎◌, IsSome, MatchOption, None, length};
ghost use Rattle.nv_c.specs.Calls.{Either, HasNone, IsBlockTold, IsDone, IsError, IsKeptTold, IsLeft, IsLoaded, IsNamedStep, IsNamedTold, IsOpened};
ghost use Rattle.nv_c.specs.Calls.{IsRead, IsCleared, IsServing, IsStepped, IsWorkTold, Lent, OfGuest, On, no_mediator, no_such};
ghost use Rattle.nv_c.specs.Names.{NamesNone};
ghost use Rattle.nv_c.specs.Posted.{HasNoNews, IsNewsTold};
ghost use Rattle.nv_c.specs.Serving.{HasNoShares, IsLoaded as IsLoadedLent, IsNamedStep as IsNamedStepLent, IsNamedTold as IsNamedToldLent, IsRead as IsReadLent, IsShareGiven};
ghost use Rattle.nv_c.specs.Serving.{IsWorkLent, HasNoLane, HasNoRings, HasNoVector, HasNoVectors, IsClosed, IsRaisedTold, IsRingsTold, IsSeenTold, IsServed, IsStepped as IsSteppedLent};
ghost use Rattle.nv_c.specs.Tables.{setup_of};
ghost use Rattle.nv_c.specs.Views.{IsShown};
ghost use Rattle.nv_c.specs.Work.{scope_numbered};

mod acting;
mod event;
mod handle;
mod held;
mod interrupts;
mod kept;
mod posted;
mod reading;
mod rings;
mod serving;
mod setup;
mod shares;
mod showing;
mod simulated;
mod status;
mod working;

pub use event::Event;
pub use handle::Nvmed;
use held::Held;
use nv_mediator::Mediator;
use nv_model::Act;
use nv_world_model::Event as Made;
pub use posted::Standing;
pub use rings::Rings;
pub use setup::{GuestExtent, Region, Sizes};
use simulated::Simulated;
use std::alloc::Global;
use working::Scope;

/// Version 2.3.
const VERSION: u32 = 131_075;

/// The version of the interface: its major number times 65,536, plus its minor number.
#[unsafe(no_mangle)]
pub extern "C" fn nvmed_raw_version() -> u32
    ensures { result ≡ 131075 }
{
    VERSION
}

/// Makes the mediator of a set-up, and puts it into a handle that holds none. There are as many guests as limits.
#[unsafe(no_mangle)]
pub extern "C" fn nvmed_raw_new(
    alloc: Global,
    handle: &mut Nvmed,
    sizes: &Sizes,
    limits: &[u32],
    regions: &[Region],
    extents: &[GuestExtent],
) -> u32
    ensures { IsOpened (setup_of sizes.now limits.now regions.now extents.now) handle.old.hosted result handle.new.hosted }
{
    if let Some(hosted) = handle.take(alloc) {
        handle.put(alloc, hosted);
        return status::IN_USE;
    }
    let setup = match setup::setup_of(alloc, sizes, limits, regions, extents) {
        Ok(setup) => setup,
        Err(answer) => return answer,
    };
    let mediator = match Mediator::new(alloc, setup) {
        Ok(mediator) => mediator,
        Err(refusal) => return status::of_refusal(refusal),
    };
    let held = Held::Simulated(Simulated::new(alloc, mediator));
    let Ok(held) = Box::new(alloc, held) else {
        return status::NO_MEMORY;
    };
    handle.put(alloc, held);
    status::OK
}

/// Makes the mediator of a set-up that is lent the host's memory, and puts it into a handle that holds none. There are as many guests as limits.
#[unsafe(no_mangle)]
pub extern "C" fn nvmed_raw_serve(
    alloc: Global,
    handle: &mut Nvmed,
    sizes: &Sizes,
    limits: &[u32],
    regions: &[Region],
    extents: &[GuestExtent],
    memory: &mut [u8],
) -> u32
    ensures value { IsServing (setup_of sizes.now limits.now regions.now extents.now) memory.old memory.new handle.old.hosted result handle.new.hosted }
    ensures cleared { IsCleared (setup_of sizes.now limits.now regions.now extents.now) result memory.old memory.new }
{
    if let Some(held) = handle.take(alloc) {
        handle.put(alloc, held);
        return status::IN_USE;
    }
    if memory.len() as u64 != sizes.host_bytes {
        return status::OTHER_MEMORY;
    }
    let setup = match setup::setup_of(alloc, sizes, limits, regions, extents) {
        Ok(setup) => setup,
        Err(answer) => return answer,
    };
    match serving::open(alloc, setup, memory) {
        Ok(held) => {
            handle.put(alloc, held);
            status::OK
        }
        Err(answer) => answer,
    }
}

/// Gives back what a handle holds, and all memory that it took.
#[unsafe(no_mangle)]
pub extern "C" fn nvmed_raw_free(alloc: Global, handle: &mut Nvmed) -> u32
    ensures answer { (handle.old.hosted ≡ None) × (result ≡ no_mediator) ⊎ IsSome handle.old.hosted × (result ≡ 0) }
    ensures empty { handle.new.hosted ≡ None }
{
    match handle.take(alloc) {
        Some(hosted) => {
            drop(hosted);
            status::OK
        }
        None => status::NO_MEDIATOR,
    }
}

/// A guest stores bytes.
#[unsafe(no_mangle)]
pub extern "C" fn nvmed_raw_store(
    alloc: Global,
    handle: &mut Nvmed,
    guest: u32,
    address: u64,
    bytes: &[u8],
    memory: &mut [u8],
) -> u32
    ensures value { OfGuest guest (Either (IsDone (Made.Guest guest (Act.Store address bytes.now)))
        (Lent (IsServed (Made.Guest guest (Act.Store address bytes.now))) memory.old memory.new)) handle.old.hosted result handle.new.hosted }
    ensures left { IsLeft handle.old.hosted memory.old memory.new }
{
    match event::byte(guest) {
        Some(guest) => acting::store(alloc, handle, guest, address, bytes, memory),
        None => status::NO_SUCH,
    }
}

/// A guest loads bytes, as many as there is room for. After an error the room is as it was.
#[unsafe(no_mangle)]
pub extern "C" fn nvmed_raw_load(
    alloc: Global,
    handle: &mut Nvmed,
    guest: u32,
    address: u64,
    room: &mut [u8],
    memory: &[u8],
) -> u32
    ensures value { OfGuest guest (Either (IsLoaded (Made.Guest guest (Act.Load address (length room.old))) room.old room.new)
        (Lent (IsLoadedLent (Made.Guest guest (Act.Load address (length room.old))) room.old room.new) memory.now memory.now))
        handle.old.hosted result handle.new.hosted }
    ensures unchanged { IsError result → room.new ≡ room.old }
{
    match event::byte(guest) {
        Some(guest) => acting::load(alloc, handle, guest, address, room, memory),
        None => status::NO_SUCH,
    }
}

/// A guest reads the dword of a register. After an error the value is as it was, or 0.
#[unsafe(no_mangle)]
pub extern "C" fn nvmed_raw_reg_read(
    alloc: Global,
    handle: &mut Nvmed,
    guest: u32,
    offset: u32,
    value: &mut u32,
    memory: &mut [u8],
) -> u32
    ensures value { OfGuest guest (Either (IsRead (Made.Guest guest (Act.RegRead offset)) value.new)
        (Lent (IsReadLent (Made.Guest guest (Act.RegRead offset)) value.new) memory.old memory.new)) handle.old.hosted result handle.new.hosted }
    ensures none { IsError result → (value.new ≡ value.old) ⊎ (value.new ≡ 0) }
    ensures left { IsLeft handle.old.hosted memory.old memory.new }
{
    match event::byte(guest) {
        Some(guest) => acting::reg_read(alloc, handle, guest, offset, value, memory),
        None => status::NO_SUCH,
    }
}

/// A guest writes the dword of a register.
#[unsafe(no_mangle)]
pub extern "C" fn nvmed_raw_reg_write(
    alloc: Global,
    handle: &mut Nvmed,
    guest: u32,
    offset: u32,
    value: u32,
    memory: &mut [u8],
) -> u32
    ensures value { OfGuest guest (Either (IsStepped (Made.Guest guest (Act.RegWrite offset value)))
        (Lent (IsSteppedLent (Made.Guest guest (Act.RegWrite offset value))) memory.old memory.new)) handle.old.hosted result handle.new.hosted }
    ensures left { IsLeft handle.old.hosted memory.old memory.new }
{
    match event::byte(guest) {
        Some(guest) => acting::step(
            alloc,
            handle,
            &Made::Guest(guest, Act::RegWrite { offset, value }),
            memory,
        ),
        None => status::NO_SUCH,
    }
}

/// A guest writes a doorbell.
#[unsafe(no_mangle)]
pub extern "C" fn nvmed_raw_doorbell(
    alloc: Global,
    handle: &mut Nvmed,
    guest: u32,
    offset: u32,
    value: u32,
    memory: &mut [u8],
) -> u32
    ensures value { OfGuest guest (Either (IsStepped (Made.Guest guest (Act.Doorbell offset value)))
        (Lent (IsSteppedLent (Made.Guest guest (Act.Doorbell offset value))) memory.old memory.new)) handle.old.hosted result handle.new.hosted }
    ensures left { IsLeft handle.old.hosted memory.old memory.new }
{
    match event::byte(guest) {
        Some(guest) => acting::step(
            alloc,
            handle,
            &Made::Guest(guest, Act::Doorbell { offset, value }),
            memory,
        ),
        None => status::NO_SUCH,
    }
}

/// Carries out an event that is no guest's act.
#[unsafe(no_mangle)]
pub extern "C" fn nvmed_raw_step(
    alloc: Global,
    handle: &mut Nvmed,
    event: &Event,
    memory: &mut [u8],
) -> u32
    ensures value { NamesNone event.now × (result ≡ no_such) × (handle.new.hosted ≡ handle.old.hosted)
        ⊎ On (Either (IsNamedStep event.now) (Lent (IsNamedStepLent event.now) memory.old memory.new)) handle.old.hosted result handle.new.hosted }
    ensures left { IsLeft handle.old.hosted memory.old memory.new }
{
    match event::made_of(event) {
        Some(event) => acting::step(alloc, handle, &event, memory),
        None => status::NO_SUCH,
    }
}

/// Whether an event would be done now: 1 where it is due, and else 0. After an error the answer is as it was.
#[unsafe(no_mangle)]
pub extern "C" fn nvmed_raw_due(
    alloc: Global,
    handle: &mut Nvmed,
    event: &Event,
    due: &mut u32,
    memory: &[u8],
) -> u32
    ensures value { NamesNone event.now × (result ≡ no_such) × (handle.new.hosted ≡ handle.old.hosted)
        ⊎ On (Either (IsNamedTold event.now due.new) (Lent (IsNamedToldLent event.now due.new) memory.now memory.now))
        handle.old.hosted result handle.new.hosted }
    ensures unchanged { IsError result → due.new ≡ due.old }
{
    let Some(event) = event::made_of(event) else {
        return status::NO_SUCH;
    };
    acting::due(alloc, handle, &event, due, memory)
}

/// Carries out what is due of a guest (scope 1), of a lane (2) or of all (3), `most` events at most, and returns how many there were. Where there
/// are fewer, nothing is left to be done, or there was no memory for what is left.
#[unsafe(no_mangle)]
pub extern "C" fn nvmed_raw_work(
    alloc: Global,
    handle: &mut Nvmed,
    scope: u32,
    number: u32,
    most: u64,
    done: &mut u64,
    memory: &mut [u8],
) -> u32
    ensures value { MatchOption (scope_numbered scope number) ((result ≡ no_such) × (handle.new.hosted ≡ handle.old.hosted) × (done.new ≡ done.old))
        (λ s. On (Either (IsWorkTold s most done.new) (Lent (IsWorkLent s most done.new) memory.old memory.new))
        handle.old.hosted result handle.new.hosted) }
    ensures none { handle.old.hosted ≡ None → done.new ≡ done.old }
    ensures left { IsLeft handle.old.hosted memory.old memory.new }
{
    match Scope::of(scope, number) {
        Some(scope) => acting::work(alloc, handle, scope, most, done, memory),
        None => status::NO_SUCH,
    }
}

/// Where a lane's rings lie, and what their doorbells are to have. After an error they are as they were.
#[unsafe(no_mangle)]
pub extern "C" fn nvmed_raw_rings(
    alloc: Global,
    handle: &mut Nvmed,
    lane: u32,
    rings: &mut Rings,
) -> u32
    ensures value { OfGuest lane (Either (HasNoRings rings.old rings.new) (IsRingsTold lane rings.old rings.new)) handle.old.hosted result handle.new.hosted }
    ensures unchanged { IsError result → rings.new ≡ rings.old }
{
    match event::byte(lane) {
        Some(lane) => rings::report(alloc, handle, lane, rings),
        None => status::NO_SUCH,
    }
}

/// The vector that the completion queue of that number, 0 to 8, raises for a guest. After an error the vector is as it was.
#[unsafe(no_mangle)]
pub extern "C" fn nvmed_raw_pending(
    alloc: Global,
    handle: &mut Nvmed,
    guest: u32,
    queue: u32,
    vector: &mut u32,
) -> u32
    ensures value { OfGuest guest (Either (HasNoVector vector.old vector.new) (IsRaisedTold guest queue vector.old vector.new))
        handle.old.hosted result handle.new.hosted }
    ensures unchanged { IsError result → vector.new ≡ vector.old }
{
    match event::byte(guest) {
        Some(guest) => interrupts::vector(alloc, handle, guest, queue, vector),
        None => status::NO_SUCH,
    }
}

/// Whether the vectors that a guest's completion queues raise, 9 of them, are others than those that are kept: OK where they are, and they are kept then;
/// IDLE where not. A vector is kept as one more than its number, and none as 0. After any other answer they are as they were.
#[unsafe(no_mangle)]
pub extern "C" fn nvmed_raw_seen(
    alloc: Global,
    handle: &mut Nvmed,
    guest: u32,
    vectors: &mut [u32],
) -> u32
    ensures value { OfGuest guest (Either (HasNoVectors vectors.old vectors.new) (IsSeenTold guest vectors.old vectors.new))
        handle.old.hosted result handle.new.hosted }
    ensures unchanged { IsError result → vectors.new ≡ vectors.old }
{
    match event::byte(guest) {
        Some(guest) => interrupts::seen(alloc, handle, guest, vectors),
        None => status::NO_SUCH,
    }
}

/// Which vectors of a guest are to be signalled by messages, and where its completion queues stand now, 9 of each: of each queue the vector that it raises,
/// where it stands elsewhere than is kept, as one more than its number, and else 0. After an error all is as it was.
#[unsafe(no_mangle)]
pub extern "C" fn nvmed_raw_posted(
    alloc: Global,
    handle: &mut Nvmed,
    guest: u32,
    seen: &mut [Standing],
    vectors: &mut [u32],
) -> u32
    ensures value { OfGuest guest (Either (HasNoNews seen.old seen.new vectors.old vectors.new) (IsNewsTold guest seen.old seen.new vectors.old vectors.new))
        handle.old.hosted result handle.new.hosted }
    ensures seen { IsError result → seen.new ≡ seen.old }
    ensures vectors { IsError result → vectors.new ≡ vectors.old }
{
    match event::byte(guest) {
        Some(guest) => posted::posted(alloc, handle, guest, seen, vectors),
        None => status::NO_SUCH,
    }
}

/// Gives a guest a share of each lane's tags.
#[unsafe(no_mangle)]
pub extern "C" fn nvmed_raw_share(alloc: Global, handle: &mut Nvmed, guest: u32, tags: u32) -> u32
    ensures { OfGuest guest (Either HasNoShares (IsShareGiven guest tags)) handle.old.hosted result handle.new.hosted }
{
    match event::byte(guest) {
        Some(guest) => shares::give(alloc, handle, guest, tags),
        None => status::NO_SUCH,
    }
}

/// Closes a lane.
#[unsafe(no_mangle)]
pub extern "C" fn nvmed_raw_close(
    alloc: Global,
    handle: &mut Nvmed,
    lane: u32,
    memory: &mut [u8],
) -> u32
    ensures value { OfGuest lane (Either HasNoLane (Lent (IsClosed lane) memory.old memory.new)) handle.old.hosted result handle.new.hosted }
    ensures left { IsLeft handle.old.hosted memory.old memory.new }
{
    match event::byte(lane) {
        Some(lane) => rings::close(alloc, handle, lane, memory),
        None => status::NO_SUCH,
    }
}

/// Shows bytes of a guest's memory, as many as there is room for and lie in a row in the host: where they lie, or are put into the room, until the
/// next call that changes something, and how many there are. After an error both outputs are as they were.
#[unsafe(no_mangle)]
pub extern "C" fn nvmed_raw_memory(
    alloc: Global,
    handle: &mut Nvmed,
    guest: u32,
    address: u64,
    room: &mut [u8],
    at: &mut *const u8,
    count: &mut u64,
) -> u32
    ensures value { OfGuest guest (Either (IsShown guest address (length room.old) at.old at.new count.new) HasNone) handle.old.hosted result handle.new.hosted }
    ensures unchanged { IsError result → (at.new ≡ at.old) × (count.new ≡ count.old) }
{
    match event::byte(guest) {
        Some(guest) => showing::memory(alloc, handle, guest, address, room, at, count),
        None => status::NO_SUCH,
    }
}

/// Where the 512 bytes of a block of the disk lie, until the next call that changes something. After an error the pointer is as it was.
#[unsafe(no_mangle)]
pub extern "C" fn nvmed_raw_block(
    alloc: Global,
    handle: &mut Nvmed,
    block: u64,
    at: &mut *const u8,
) -> u32
    ensures value { On (Either (IsBlockTold block at.new) HasNone) handle.old.hosted result handle.new.hosted }
    ensures unchanged { IsError result → at.new ≡ at.old }
{
    showing::block(alloc, handle, block, at)
}

/// Whether a block of the disk is kept when power is lost: 1 where it is, and else 0. After an error the answer is as it was.
#[unsafe(no_mangle)]
pub extern "C" fn nvmed_raw_kept(
    alloc: Global,
    handle: &mut Nvmed,
    block: u64,
    kept: &mut u32,
) -> u32
    ensures value { On (Either (IsKeptTold block kept.new) HasNone) handle.old.hosted result handle.new.hosted }
    ensures unchanged { IsError result → kept.new ≡ kept.old }
{
    showing::kept(alloc, handle, block, kept)
}
