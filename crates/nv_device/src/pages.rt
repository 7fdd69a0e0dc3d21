//! Where the bytes of a physical command lie: PRP1, PRP2 and a list, read in the host's memory.

ghost use Rattle.std.specs.Prelude.{◌≡◌, ◌+◌, ◌*◌, ◌%◌, ◌^◌, ◌<◌, ◌≤◌, ℕ, List, IfOk, OnOk, true, length, min};
ghost use Rattle.nv_entry.specs.Layout.{number_at};
ghost use Rattle.nv_mem.specs.declared.piece.Piece.{Piece};
ghost use Rattle.nv_model.specs.Memory.{byte_in, bytes_from};
ghost use Rattle.nv_model.specs.Prp.{pages_of, slots_of};
ghost use Rattle.nv_model.specs.Reading.{Spells};
ghost use Rattle.nv_device.specs.Pages.{ArePaged, IsEntryAt, behind_reading, entries_reading, host_reading, spells};
ghost use Rattle.nv_model.specs.Limits.{page};

use byteorder::{ByteOrder, LittleEndian};
use nv_mem::{Host, NoMemory, PAGE_SIZE, Piece, Places};
use std::alloc::Global;

/// The slots of a list page.
pub(crate) const SLOTS: u64 = PAGE_SIZE / 8;

/// The places of a transfer of `len` bytes by PRP1 and PRP2. The caller knows that they and the list lie in the host, and
/// that all are as PRP has them: nothing is checked here.
pub(crate) fn read_pages(
    alloc: Global,
    host: &Host,
    prp1: u64,
    prp2: u64,
    len: u64,
) -> Result<Places, NoMemory>
    requires some { 0 < len }
    requires most { len < 2 ^ 32 }
    requires spelled { spells (host_reading host.now prp1 prp2 len) ≡ true }
    ensures read { IfOk result (λ places. host_reading host.now prp1 prp2 len ≡ Spells places) }
    ensures paged { IfOk result ArePaged }
{
    let first = len.min(PAGE_SIZE - prp1 % PAGE_SIZE);
    let left = len - first;
    let mut places = Places::new(alloc);
    places.reserve((1 + pages_of(left)) as usize)?;
    places.push(Piece::Run {
        addr: prp1,
        len: first,
    })?;
    read_behind(host, prp2, left, &mut places)?;
    Ok(places)
}

/// How many pages hold so many bytes from a page's start on.
pub(crate) fn pages_of(bytes: u64) -> u64
    requires { bytes < 2 ^ 32 }
    ensures value { result ≡ pages_of bytes }
    ensures fits { result < 2 ^ 32 }
{
    (bytes + (PAGE_SIZE - 1)) / PAGE_SIZE
}

/// Adds the pages after PRP1's: none, the one that PRP2 names, or those of the list to which it points.
fn read_behind(host: &Host, prp2: u64, bytes: u64, places: &mut Places) -> Result<(), NoMemory>
    requires most { bytes < 2 ^ 32 }
    requires spelled { spells (behind_reading host.now (pages_of bytes) prp2 bytes places.old) ≡ true }
    requires first { length places.old ≡ 1 }
    ensures read { OnOk result (behind_reading host.now (pages_of bytes) prp2 bytes places.old ≡ Spells places.new) }
    ensures paged { OnOk result (ArePaged places.new) }
{
    let pages = pages_of(bytes);
    match pages {
        0 => Ok(()),
        1 => places.push(Piece::Run {
            addr: prp2,
            len: bytes,
        }),
        _ => read_list(host, prp2, pages, bytes, places),
    }
}

/// Adds the pages that a list names.
fn read_list(
    host: &Host,
    list: u64,
    pages: u64,
    bytes: u64,
    places: &mut Places,
) -> Result<(), NoMemory>
    requires aligned { list % 8 ≡ 0 }
    requires most { bytes ≤ page * pages }
    requires full { page * pages < bytes + page }
    requires spelled { spells (entries_reading host.now pages (slots_of list) list bytes places.old) ≡ true }
    requires there { list + 8 * min (slots_of list) pages ≤ length host.now }
    requires first { length places.old ≡ 1 }
    ensures read { OnOk result (entries_reading host.now pages (slots_of list) list bytes places.old ≡ Spells places.new) }
    ensures paged { OnOk result (ArePaged places.new) }
{
    // The end of the host fits in 64 bits, and so does the address after a slot.
    let _known = host.len();
    let mut from = list;
    let mut slots = (PAGE_SIZE - list % PAGE_SIZE) / 8;
    let mut pages = pages;
    let mut bytes = bytes;
    while pages > 0 {
        let (entry, entry_slots) = entry_at(host, from, slots, pages);
        let addr = slot(host, entry);
        let len = bytes.min(PAGE_SIZE);
        places.push(Piece::Run { addr, len })?;
        from = entry + 8;
        slots = entry_slots - 1;
        pages -= 1;
        bytes -= len;
    }
    Ok(())
}

/// Where the entry of the next page is, and how many slots there are from there to the end of its list page. Where more pages are left than slots,
/// the last slot points to the next list page.
fn entry_at(host: &Host, from: u64, slots: u64, pages: u64) -> (u64, u64)
    requires pages { 0 < pages }
    requires slots { 0 < slots }
    requires there { from + 8 * min slots pages ≤ length host.now }
    ensures { IsEntryAt host.now pages slots from result.1 result.0 }
{
    if slots == 1 && pages > 1 {
        (slot(host, from), SLOTS)
    } else {
        (from, slots)
    }
}

/// The number in a slot.
pub(crate) fn slot(host: &Host, at: u64) -> u64
    requires { at + 8 ≤ length host.now }
    ensures { result ≡ number_at (bytes_from (byte_in host.now) at 8) 0 8 }
{
    let mut bytes = [0; 8];
    host.load(at, &mut bytes);
    LittleEndian::read_u64(&bytes)
}
