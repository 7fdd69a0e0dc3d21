//! Whether PRP1, PRP2 and a list in the host's memory are as PRP has them, with all that they name in the host.

ghost use Rattle.std.specs.Prelude.{◌≡◌, ◌+◌, ◌*◌, ◌%◌, ◌^◌, ◌<◌, ◌≤◌, ℕ, List, MatchOption, false, length, min, is_none};
ghost use Rattle.nv_mem.specs.declared.piece.Piece.{Piece};
ghost use Rattle.nv_model.specs.Prp.{entry_fault, pages_of, slots_of};
ghost use Rattle.nv_device.specs.Pages.{IsNextEntry, behind_reading, entries_reading, host_reading, in_host, spells};
ghost use Rattle.nv_model.specs.Limits.{page};

use crate::pages::{SLOTS, pages_of, slot};
use nv_mem::{Host, PAGE_SIZE};

/// Whether PRP1 and PRP2 spell places for a transfer of `len` bytes.
pub(crate) fn spells(host: &Host, prp1: u64, prp2: u64, len: u64) -> bool
    requires some { 0 < len }
    requires most { len < 2 ^ 32 }
    ensures { result ≡ spells (host_reading host.now prp1 prp2 len) }
{
    let first = len.min(PAGE_SIZE - prp1 % PAGE_SIZE);
    fits(host, 4, prp1, first) && behind_spells(host, prp2, len - first)
}

/// The same of what is after PRP1's page.
fn behind_spells(host: &Host, prp2: u64, bytes: u64) -> bool
    requires most { bytes < 2 ^ 32 }
    ensures { (pieces : List Piece) → result ≡ spells (behind_reading host.now (pages_of bytes) prp2 bytes pieces) }
{
    let pages = pages_of(bytes);
    match pages {
        0 => true,
        1 => fits(host, PAGE_SIZE, prp2, bytes),
        _ => {
            let slots = (PAGE_SIZE - prp2 % PAGE_SIZE) / 8;
            fits(host, 8, prp2, 8 * slots.min(pages)) && list_spells(host, prp2, pages, bytes)
        }
    }
}

/// The same of the entries of a list.
fn list_spells(host: &Host, list: u64, pages: u64, bytes: u64) -> bool
    requires aligned { list % 8 ≡ 0 }
    requires most { bytes ≤ page * pages }
    requires full { page * pages < bytes + page }
    requires there { list + 8 * min (slots_of list) pages ≤ length host.now }
    ensures { (pieces : List Piece) → result ≡ spells (entries_reading host.now pages (slots_of list) list bytes pieces) }
{
    // The end of the host fits in 64 bits, and so does the address after a slot.
    let _known = host.len();
    let mut from = list;
    let mut slots = (PAGE_SIZE - list % PAGE_SIZE) / 8;
    let mut pages = pages;
    let mut bytes = bytes;
    while pages > 0 {
        let Some((entry, entry_slots)) = next_entry(host, from, slots, pages) else {
            return false;
        };
        let addr = slot(host, entry);
        let len = bytes.min(PAGE_SIZE);
        if !fits(host, PAGE_SIZE, addr, len) {
            return false;
        }
        from = entry + 8;
        slots = entry_slots - 1;
        pages -= 1;
        bytes -= len;
    }
    true
}

/// Where the entry of the next page is, and how many slots there are from there to the end of its list page, or none where a pointer to the next
/// list page is not as PRP requires it.
fn next_entry(host: &Host, from: u64, slots: u64, pages: u64) -> Option<(u64, u64)>
    requires pages { 0 < pages }
    requires slots { 0 < slots }
    requires there { from + 8 * min slots pages ≤ length host.now }
    ensures { MatchOption result
        ((bytes : ℕ) (pieces : List Piece) → spells (entries_reading host.now pages slots from bytes pieces) ≡ false)
        (λ e. IsNextEntry host.now pages slots from e.1 e.0) }
{
    if slots != 1 || pages == 1 {
        return Some((from, slots));
    }
    let pointer = slot(host, from);
    if fits(host, PAGE_SIZE, pointer, 8 * SLOTS.min(pages)) {
        Some((pointer, SLOTS))
    } else {
        None
    }
}

/// Whether an entry or pointer is a multiple of `alignment`, and the bytes that it names are in the host.
fn fits(host: &Host, alignment: u64, addr: u64, len: u64) -> bool
    requires { 0 < alignment }
    ensures { result ≡ is_none (entry_fault (in_host (length host.now)) alignment addr len) }
{
    addr % alignment == 0 && host.holds(addr, len)
}
