//! The position of a parse of region pages, and how it goes on slot by slot.

ghost use Rattle.std.specs.Prelude.{◌≡◌, None, Some, ◌+◌, ◌-◌, ◌*◌, ◌/◌, ◌%◌, ◌<◌, ◌≤◌, ◌^◌, [], ℕ, List, true, false, length};
ghost use Rattle.nv_mem.specs.GuestMap.{mapped};
ghost use Rattle.nv_mem.specs.declared.piece.Piece.{Piece};
ghost use Rattle.nv_model.specs.Limits.{most_bytes, most_entries, page};
ghost use Rattle.nv_model.specs.Prp.{entry_fault, pages_of, read_prp, read_prp2};
ghost use Rattle.nv_model.specs.Transcript.{fed};
ghost use Rattle.nv_prp.specs.Cursor.{ahead, is_asking, is_at_pointer, reading_from, read_entry, read_pointer, read_slot, IsInRange};

use crate::runs::Runs;
use byteorder::{ByteOrder, LittleEndian};
use nv_entry::StatusCode;
use nv_mem::{GuestMap, PAGE_SIZE, Piece};

/// How many slots a whole list page has.
const SLOTS: u32 = PAGE_SIZE as u32 / 8;

/// The position of a parse between two slots.
#[derive(Clone, Copy)]
pub struct Cursor {
    /// The guest address of the next slot. After the last slot it may be 2 to the 64.
    pub from: u128,
    /// How many slots there are to the end of the list page.
    pub slots: u32,
    /// How many pages are left.
    pub pages: u32,
    /// How many bytes of the transfer they hold.
    pub bytes: u64,
    /// What is wrong with what was read last, where it is faulty.
    pub fault: Option<StatusCode>,
}

impl Cursor {
    /// The cursor after PRP1 and PRP2 of a transfer of `need` bytes. The runs that they name are added.
    pub fn start(map: &GuestMap, prp1: u64, prp2: u64, need: u64, runs: &mut Runs) -> Self
        requires some { 0 < need }
        requires most { need ≤ most_bytes }
        requires none { runs.old ≡ [] }
        ensures dialogue { reading_from (mapped map.now.regions) result runs.new ≡ read_prp (mapped map.now.regions) prp1 prp2 need }
        ensures in_range { IsInRange result runs.new }
    {
        let len = need.min(PAGE_SIZE - prp1 % PAGE_SIZE);
        match fault_of(map, 4, prp1, len) {
            Some(code) => Cursor::at_end(Some(code)),
            None => {
                runs.push(Piece::Run { addr: prp1, len });
                Cursor::behind_prp1(map, prp2, need - len, runs)
            }
        }
    }

    // At the end of what is read.
    fn at_end(fault: Option<StatusCode>) -> Self
        ensures { result ≡ record { from = 0; slots = 0; pages = 0; bytes = 0; fault = fault } }
    {
        Cursor {
            from: 0,
            slots: 0,
            pages: 0,
            bytes: 0,
            fault,
        }
    }

    // The cursor after PRP2, where `bytes` bytes are left after PRP1's page.
    fn behind_prp1(map: &GuestMap, prp2: u64, bytes: u64, runs: &mut Runs) -> Self
        requires most { bytes ≤ most_bytes }
        requires one { length runs.old ≡ 1 }
        ensures dialogue { reading_from (mapped map.now.regions) result runs.new
            ≡ read_prp2 (mapped map.now.regions) (pages_of bytes) prp2 bytes runs.old }
        ensures in_range { IsInRange result runs.new }
    {
        let pages = ((bytes + (PAGE_SIZE - 1)) / PAGE_SIZE) as u32;
        if pages == 0 {
            Cursor::at_end(None)
        } else if pages == 1 {
            let own = Cursor {
                from: 0,
                slots: 1,
                pages,
                bytes,
                fault: None,
            };
            own.past_entry(map, prp2, runs)
        } else {
            Cursor::at_list(map, prp2, pages, bytes)
        }
    }

    // At the list of `pages` entries to which PRP2 points.
    fn at_list(map: &GuestMap, prp2: u64, pages: u32, bytes: u64) -> Self
        requires pages { 1 < pages }
        requires most { pages ≤ most_entries }
        requires bytes { bytes ≤ page * pages }
        requires full { page * pages < bytes + page }
        ensures dialogue { (runs : List Piece) → reading_from (mapped map.now.regions) result runs
            ≡ read_prp2 (mapped map.now.regions) pages prp2 bytes runs }
        ensures in_range { (runs : List Piece) → length runs ≡ 1 → IsInRange result runs }
    {
        let slots = ((PAGE_SIZE - prp2 % PAGE_SIZE) / 8) as u32;
        match fault_of(map, 8, prp2, u64::from(8 * slots.min(pages))) {
            Some(code) => Cursor::at_end(Some(code)),
            None => Cursor {
                from: u128::from(prp2),
                slots,
                pages,
                bytes,
                fault: None,
            },
        }
    }

    /// Whether the next slot is asked for.
    pub fn is_asking(&self) -> bool
        ensures { result ≡ is_asking self.now }
    {
        self.fault.is_none() && self.pages > 0
    }

    // Whether the next slot is a pointer to the next list page.
    fn is_at_pointer(&self) -> bool
        ensures { result ≡ is_at_pointer self.now }
    {
        self.slots == 1 && self.pages > 1
    }

    // The cursor after the next slot, which holds `value`. The run that it names is added.
    fn past_slot(self, map: &GuestMap, value: u64, runs: &mut Runs) -> Self
        requires asking { is_asking self ≡ true }
        requires in_range { IsInRange self runs.old }
        ensures dialogue { reading_from (mapped map.now.regions) result runs.new
            ≡ read_slot (mapped map.now.regions) self runs.old value }
        ensures in_range { IsInRange result runs.new }
        ensures progress { ahead result < ahead self }
    {
        if self.is_at_pointer() {
            self.past_pointer(map, value)
        } else {
            self.past_entry(map, value, runs)
        }
    }

    // The cursor after a pointer to the next list page: at the start of that page.
    fn past_pointer(self, map: &GuestMap, pointer: u64) -> Self
        requires sound { self.fault ≡ None }
        requires pointer { is_at_pointer self ≡ true }
        ensures dialogue { (runs : List Piece) → reading_from (mapped map.now.regions) result runs
            ≡ read_pointer (mapped map.now.regions) self runs pointer }
        ensures in_range { (runs : List Piece) → IsInRange self runs → IsInRange result runs }
        ensures progress { ahead result < ahead self }
    {
        match fault_of(
            map,
            PAGE_SIZE,
            pointer,
            u64::from(8 * SLOTS.min(self.pages)),
        ) {
            Some(code) => Cursor {
                fault: Some(code),
                ..self
            },
            None => Cursor {
                from: u128::from(pointer),
                slots: SLOTS,
                ..self
            },
        }
    }

    // The cursor after the entry of the next page, whose run is added.
    fn past_entry(self, map: &GuestMap, addr: u64, runs: &mut Runs) -> Self
        requires sound { self.fault ≡ None }
        requires pages { 0 < self.pages }
        requires in_range { IsInRange self runs.old }
        requires entry { is_at_pointer self ≡ false }
        ensures dialogue { reading_from (mapped map.now.regions) result runs.new
            ≡ read_entry (mapped map.now.regions) self runs.old addr }
        ensures in_range { IsInRange result runs.new }
        ensures progress { ahead result < ahead self }
    {
        let len = self.bytes.min(PAGE_SIZE);
        match fault_of(map, PAGE_SIZE, addr, len) {
            Some(code) => Cursor {
                fault: Some(code),
                ..self
            },
            None => {
                runs.push(Piece::Run { addr, len });
                Cursor {
                    from: self.from + 8,
                    slots: self.slots - 1,
                    pages: self.pages - 1,
                    bytes: self.bytes - len,
                    ..self
                }
            }
        }
    }
}

// The first check that an entry or pointer fails whose address must be a multiple of `alignment`, and which needs `len` bytes there.
pub(crate) fn fault_of(map: &GuestMap, alignment: u64, addr: u64, len: u64) -> Option<StatusCode>
    requires { 0 < alignment }
    ensures value { result ≡ entry_fault (mapped map.now.regions) alignment addr len }
    ensures aligned { result ≡ None → addr % alignment ≡ 0 }
{
    if addr % alignment != 0 {
        Some(StatusCode::PrpOffsetInvalid)
    } else if !map.holds(addr, len) {
        Some(StatusCode::DataTransferError)
    } else {
        None
    }
}

/// Reads the slots in these bytes, from the cursor on, after `runs`, and returns the cursor after them.
pub fn read_part(map: &GuestMap, cursor: Cursor, bytes: &[u8], runs: &mut Runs) -> Cursor
    requires whole { length bytes.now % 8 ≡ 0 }
    requires in_range { IsInRange cursor runs.old }
    ensures dialogue { reading_from (mapped map.now.regions) result runs.new
        ≡ fed (reading_from (mapped map.now.regions) cursor runs.old) bytes.now }
    ensures in_range { IsInRange result runs.new }
    ensures progress { is_asking cursor ≡ true → 0 < length bytes.now → ahead result < ahead cursor }
{
    let mut cursor = cursor;
    let mut rest = bytes;
    while cursor.is_asking() {
        let Some((slot, more)) = rest.split_first_chunk::<8>() else {
            break;
        };
        cursor = cursor.past_slot(map, LittleEndian::read_u64(slot), runs);
        rest = more;
    }
    cursor
}
