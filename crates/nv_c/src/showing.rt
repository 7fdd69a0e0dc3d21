//! What is shown of a guest's memory and of the disk, where it lies.

ghost use Rattle.std.specs.Prelude.{◌≡◌, ◌≤◌, IfErr, IfOk, MatchOption, length};
ghost use Rattle.std.specs.Ptr.{as_ptr};
ghost use Rattle.nv_c.specs.Calls.{Either, HasNone, IsBlockShown, IsBlockTold, IsError, IsKeptTold, On};
ghost use Rattle.nv_c.specs.Views.{IsHandedOut, IsNoView, IsShown, IsView};

use crate::handle::Nvmed;
use crate::held::Held;
use crate::status;
use nv_mediator::Mediator;
use nv_model::limits::BLOCK_SIZE;
use std::alloc::Global;

/// Shows bytes of a guest's memory from its address `address` on: what it is answered, where the first byte is, and how many there are. Of as many
/// as there is room for they are those that lie in a row in the host. Where their bytes don't lie in one place, they are put into the room. After an
/// error both outputs are as they were.
pub(crate) fn memory(
    alloc: Global,
    handle: &mut Nvmed,
    guest: u8,
    address: u64,
    room: &mut [u8],
    at: &mut *const u8,
    count: &mut u64,
) -> u32
    ensures value { On (Either (IsShown guest address (length room.old) at.old at.new count.new) HasNone) handle.old.hosted result handle.new.hosted }
    ensures unchanged { IsError result → (at.new ≡ at.old) × (count.new ≡ count.old) }
{
    let Some(held) = handle.take(alloc) else {
        return status::NO_MEDIATOR;
    };
    let answer = memory_of(&held, guest, address, room, at, count);
    handle.put(alloc, held);
    answer
}

// What is shown of the memory that a mediator has of its own.
fn memory_of(
    held: &Held,
    guest: u8,
    address: u64,
    room: &mut [u8],
    at: &mut *const u8,
    count: &mut u64,
) -> u32
    ensures value { Either (IsShown guest address (length room.old) at.old at.new count.new) HasNone held.now result held.now }
    ensures unchanged { IsError result → (at.new ≡ at.old) × (count.new ≡ count.old) }
{
    let Held::Simulated(simulated) = held else {
        return status::NO_SUCH;
    };
    match shown(&simulated.mediator, guest, address, room, at, count) {
        Ok(_bytes) => status::OK,
        Err(answer) => answer,
    }
}

/// Shows a block of the disk: what it is answered, and where its first byte is. After an error the pointer is as it was.
pub(crate) fn block(alloc: Global, handle: &mut Nvmed, block: u64, at: &mut *const u8) -> u32
    ensures value { On (Either (IsBlockTold block at.new) HasNone) handle.old.hosted result handle.new.hosted }
    ensures unchanged { IsError result → at.new ≡ at.old }
{
    let Some(held) = handle.take(alloc) else {
        return status::NO_MEDIATOR;
    };
    let answer = block_of(&held, block, at);
    handle.put(alloc, held);
    answer
}

// What is shown of the disk that a mediator has of its own.
fn block_of(held: &Held, block: u64, at: &mut *const u8) -> u32
    ensures value { Either (IsBlockTold block at.new) HasNone held.now result held.now }
    ensures unchanged { IsError result → at.new ≡ at.old }
{
    let Held::Simulated(simulated) = held else {
        return status::NO_SUCH;
    };
    match block_shown(&simulated.mediator, block, at) {
        Some(_bytes) => status::OK,
        None => status::NO_SUCH,
    }
}

/// Whether a block of the disk is kept: what it is answered, and 1 where it is or 0 where it isn't. After an error the answer is as it was.
pub(crate) fn kept(alloc: Global, handle: &mut Nvmed, block: u64, kept: &mut u32) -> u32
    ensures value { On (Either (IsKeptTold block kept.new) HasNone) handle.old.hosted result handle.new.hosted }
    ensures unchanged { IsError result → kept.new ≡ kept.old }
{
    let Some(held) = handle.take(alloc) else {
        return status::NO_MEDIATOR;
    };
    let answer = kept_of(&held, block, kept);
    handle.put(alloc, held);
    answer
}

// Whether a block is kept of the disk that a mediator has of its own.
fn kept_of(held: &Held, block: u64, kept: &mut u32) -> u32
    ensures value { Either (IsKeptTold block kept.new) HasNone held.now result held.now }
    ensures unchanged { IsError result → kept.new ≡ kept.old }
{
    let Held::Simulated(simulated) = held else {
        return status::NO_SUCH;
    };
    match simulated.mediator.kept(block) {
        Some(is) => {
            *kept = u32::from(is);
            status::OK
        }
        None => status::NO_SUCH,
    }
}

// A view of a guest's memory, whose place and length are handed out; or what is answered where there is none.
fn shown<'a>(
    mediator: &'a Mediator,
    guest: u8,
    address: u64,
    room: &'a mut [u8],
    at: &mut *const u8,
    count: &mut u64,
) -> Result<&'a [u8], u32>
    ensures ok { IfOk result (λ bytes.
        IsView mediator.now guest address (length room.old) bytes.now × IsHandedOut bytes at.old at.new count.new) }
    ensures err { IfErr result (λ answer. IsNoView mediator.now guest address answer × (at.new ≡ at.old) × (count.new ≡ count.old)) }
{
    let bytes = view(mediator, guest, address, room)?;
    if !bytes.is_empty() {
        *at = place_of(bytes);
    }
    *count = bytes.len() as u64;
    Ok(bytes)
}

// A block of the disk, whose place is handed out; `None` where the disk has no such block.
fn block_shown<'a>(
    mediator: &'a Mediator,
    block: u64,
    at: &mut *const u8,
) -> Option<&'a [u8; BLOCK_SIZE]>
    ensures { MatchOption result ((mediator.now.geometry.disk_blocks ≤ block) × (at.new ≡ at.old))
        (λ bytes. IsBlockShown mediator.now block bytes at.new) }
{
    let bytes = mediator.block(block)?;
    *at = place_of(bytes);
    Some(bytes)
}

// Where bytes lie.
fn place_of(bytes: &[u8]) -> *const u8
    ensures { result ≡ as_ptr bytes.entry }
{
    bytes.as_ptr()
}

// A view of a guest's memory, or what is answered where there is none.
fn view<'a>(
    mediator: &'a Mediator,
    guest: u8,
    address: u64,
    room: &'a mut [u8],
) -> Result<&'a [u8], u32>
    ensures ok { IfOk result (λ bytes. IsView mediator.now guest address (length room.old) bytes.now) }
    ensures err { IfErr result (λ answer. IsNoView mediator.now guest address answer) }
{
    let Some(map) = mediator.map(guest) else {
        return Err(status::IGNORED);
    };
    if room.is_empty() {
        return Ok(&[]);
    }
    // The map was made for this host, and ends in it.
    mediator.promise();
    let _known = map.host_len();
    let Some((from, count)) = map.run(address, room.len() as u64) else {
        return Err(status::UNMAPPED);
    };
    Ok(mediator.host().bytes(from, count, room))
}
