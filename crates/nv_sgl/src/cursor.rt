//! The position of a parse of a scatter gather list, and how it goes on descriptor by descriptor.

ghost use Rattle.std.specs.Prelude.{◌≡◌, Bool, List, false, None, Some, ◌+◌, ◌-◌, ◌*◌, ◌<◌, ◌≤◌};
ghost use Rattle.std.specs.Prelude.{◌^◌, ◌%◌, ◌++◌, IsTrue, IfOk, OnErr, OnOk, max, min, true, length, option_to_list};
ghost use Rattle.nv_entry.specs.Descriptor.{address_of, kind_of, length_of};
ghost use Rattle.nv_mem.specs.GuestMap.{mapped, all_mapped};
ghost use Rattle.nv_mem.specs.Places.{total_len};
ghost use Rattle.nv_model.specs.Sgl.{array_by, fault_by, pieces_by, segment_fault};
ghost use Rattle.nv_sgl.specs.Chain.{names_array};
ghost use Rattle.nv_mem.specs.declared.piece.Piece.{Piece};
ghost use Rattle.nv_mem.specs.declared.region.Region.{Region};
ghost use Rattle.nv_model.specs.Want.{want_of};
ghost use Rattle.nv_sgl.specs.Cursor.{array_at, is_asking, naming_at, IsInRange, NamesPart, ReadsPart, StandsBehind};
ghost use Rattle.nv_sgl.specs.Parse.{reading_of};

use nv_entry::{Descriptor, DescriptorType, StatusCode};
use nv_mem::{GuestMap, NoMemory, Piece, Places};
use nv_model::Want;
use nv_model::limits::PART_SIZE;
use std::alloc::Allocator;

/// How many descriptors of an array are wanted at once, at most.
const PART: u32 = PART_SIZE / 16;

/// The position of a parse between two descriptors.
#[derive(Clone, Copy)]
pub struct Cursor {
    /// The guest address of the next descriptor of the array. After the last one it may be 2 to the 64.
    pub from: u128,
    /// How many descriptors of the array are left.
    pub left: u32,
    /// Whether a Last Segment named the array.
    pub by_last: bool,
    /// How many more descriptors may be read.
    pub budget: u32,
    /// How many bytes the descriptors name that were read.
    pub total: u64,
    /// What is wrong with the descriptor that was read last, where it is faulty.
    pub fault: Option<StatusCode>,
}

impl Cursor {
    /// The cursor after the command's own descriptor, before that was examined: it is the first of the list and last in an array of one.
    pub fn at_own(limit: u32) -> Self
        requires { 0 < limit }
        ensures { result ≡ record { from = 0; left = 0; by_last = false; budget = limit - 1; total = 0; fault = None } }
    {
        Cursor {
            from: 0,
            left: 0,
            by_last: false,
            budget: limit - 1,
            total: 0,
            fault: None,
        }
    }

    /// Whether the next descriptor is asked for.
    #[inline(always)]
    pub fn is_asking(&self) -> bool
        ensures { result ≡ is_asking self.now }
    {
        self.fault.is_none() && self.left > 0 && self.budget > 0
    }

    // For how many descriptors there is to be room, where the bytes of `given` are there: for those of the array that may be read.
    #[inline(always)]
    fn room(&self, given: usize) -> usize
        ensures { result ≡ max given (min self.now.left self.now.budget) }
    {
        given.max(self.left.min(self.budget) as usize)
    }

    /// What a parse at this position wants to be fed, for a transfer of `need` bytes, or how it ended. The bytes of an array are wanted from its
    /// start on, 4,096 at a time, and the last time what is left.
    #[inline(always)]
    pub fn wants(&self, need: u64) -> Want
        requires { IsInRange self.now }
        ensures { (regions : List Region) (dest : Bool) (pieces : List Piece) → self.now.total ≡ total_len pieces →
            result ≡ want_of (reading_of (naming_at regions dest need self.now pieces)) }
    {
        let Cursor {
            from,
            left,
            budget,
            total,
            fault,
            ..
        } = *self;
        match fault {
            Some(code) => Want::Fault(code.refused()),
            None if left == 0 => {
                if total == need {
                    Want::Done
                } else {
                    Want::Fault(StatusCode::SglLengthInvalid.refused())
                }
            }
            None if budget == 0 => Want::TooLong,
            None => Want::Read {
                addr: from as u64,
                len: 16 * left.min(PART),
            },
        }
    }

    /// Moves past the next descriptor, before it is examined.
    #[inline(always)]
    pub fn pass_one(&mut self)
        requires left { 0 < self.old.left }
        requires budget { 0 < self.old.budget }
        requires in_range { self.old.from + 16 * self.old.left ≤ 2 ^ 64 }
        ensures { self.new ≡ record self.old { from = self.old.from + 16; left = self.old.left - 1; budget = self.old.budget - 1 } }
    {
        self.from += 16;
        self.left -= 1;
        self.budget -= 1;
    }

    // How many descriptors may be read of the array.
    #[inline(always)]
    fn most(&self) -> u32
        ensures left { result ≤ self.now.left }
        ensures budget { result ≤ self.now.budget }
        ensures fault { 0 < result → self.now.fault ≡ None }
    {
        match self.fault {
            Some(_) => 0,
            None => self.left.min(self.budget),
        }
    }

    // The cursor after this many more descriptors, all Data Blocks that are mapped, where `total` bytes are named up to there.
    #[inline(always)]
    fn behind_blocks(self, count: u32, total: u64) -> Self
        requires left { count ≤ self.left }
        requires budget { count ≤ self.budget }
        requires in_range { self.from + 16 * self.left ≤ 2 ^ 64 }
        ensures { result ≡ record self { from = self.from + 16 * count; left = self.left - count; budget = self.budget - count; total = total } }
    {
        Cursor {
            from: self.from + 16 * u128::from(count),
            left: self.left - count,
            budget: self.budget - count,
            total,
            ..self
        }
    }

    /// Examines `d`, after which `self` is.
    #[inline(always)]
    pub fn look_at(&mut self, map: &GuestMap, dest: bool, d: &Descriptor)
        requires array { self.old.from + 16 * self.old.left ≤ 2 ^ 64 }
        requires total { self.old.total + (2 ^ 32 - 1) * (self.old.budget + 1) < 2 ^ 64 }
        ensures behind { StandsBehind (mapped map.now.regions) dest self.old d.now self.new }
        ensures in_range { IsInRange self.new }
    {
        match d.kind() {
            Some(DescriptorType::DataBlock) => self.look_at_block(map, dest, d),
            _ => self.look_at_any(map, dest, d),
        }
    }

    // Examines `d`, after which `self` is, and adds the piece that it names. A Data Block, the most frequent of them, is distinguished from the
    // others once for both.
    #[inline(always)]
    fn take(
        &mut self,
        map: &GuestMap,
        dest: bool,
        d: &Descriptor,
        places: &mut Places,
    ) -> Result<(), NoMemory>
        requires array { self.old.from + 16 * self.old.left ≤ 2 ^ 64 }
        requires total { self.old.total + (2 ^ 32 - 1) * (self.old.budget + 1) < 2 ^ 64 }
        ensures behind { StandsBehind (mapped map.now.regions) dest self.old d.now self.new }
        ensures in_range { IsInRange self.new }
        ensures named { OnOk result (places.new ≡ places.old ++ pieces_by (kind_of d.now) dest d.now) }
    {
        match d.kind() {
            Some(DescriptorType::DataBlock) => {
                self.look_at_block(map, dest, d);
                push_block(d, dest, places)
            }
            _ => {
                self.look_at_any(map, dest, d);
                push_piece(d, dest, places)
            }
        }
    }

    // The same of a Data Block, the most frequent of them.
    #[inline(always)]
    fn look_at_block(&mut self, map: &GuestMap, _dest: bool, d: &Descriptor)
        requires block { kind_of d.now ≡ Some DescriptorType.DataBlock }
        requires array { self.old.from + 16 * self.old.left ≤ 2 ^ 64 }
        requires total { self.old.total + (2 ^ 32 - 1) * (self.old.budget + 1) < 2 ^ 64 }
        ensures behind { StandsBehind (mapped map.now.regions) _dest self.old d.now self.new }
        ensures in_range { IsInRange self.new }
    {
        let len = u64::from(d.length());
        self.total += len;
        self.fault = if map.holds(d.address(), len) {
            None
        } else {
            Some(StatusCode::DataTransferError)
        };
    }

    // The same of any descriptor.
    #[inline(always)]
    fn look_at_any(&mut self, map: &GuestMap, dest: bool, d: &Descriptor)
        requires array { self.old.from + 16 * self.old.left ≤ 2 ^ 64 }
        requires total { self.old.total + (2 ^ 32 - 1) * (self.old.budget + 1) < 2 ^ 64 }
        ensures behind { StandsBehind (mapped map.now.regions) dest self.old d.now self.new }
        ensures in_range { IsInRange self.new }
    {
        let fault = self.fault_of(map, d);
        self.total += u64::from(bytes_named(d, dest));
        self.fault = fault;
        if fault.is_none() {
            self.follow(d);
        }
    }

    // Goes on with the array that is read after `d`.
    #[inline(always)]
    fn follow(&mut self, d: &Descriptor)
        ensures array { array_at self.new ≡ array_by (kind_of d.now) (array_at self.old) d.now }
        ensures budget { self.new.budget ≡ self.old.budget }
        ensures total { self.new.total ≡ self.old.total }
        ensures fault { self.new.fault ≡ self.old.fault }
    {
        match d.kind() {
            Some(kind) if kind == DescriptorType::Segment || kind == DescriptorType::LastSegment =>
                {
                    self.from = u128::from(d.address());
                    self.left = d.length() / 16;
                    self.by_last = kind == DescriptorType::LastSegment;
                }
            _ => {}
        }
    }

    // The first check that `d` fails, where `self` is after it.
    #[inline(always)]
    fn fault_of(&self, map: &GuestMap, d: &Descriptor) -> Option<StatusCode>
        ensures value { result ≡ fault_by (kind_of d.now) (mapped map.now.regions) (array_at self.now) d.now }
        ensures inside { result ≡ None → names_array (kind_of d.now) ≡ true → address_of d.now + length_of d.now ≤ 2 ^ 64 }
    {
        match d.kind() {
            None => Some(StatusCode::SglTypeInvalid),
            Some(DescriptorType::BitBucket) => None,
            Some(DescriptorType::DataBlock) => {
                if map.holds(d.address(), u64::from(d.length())) {
                    None
                } else {
                    Some(StatusCode::DataTransferError)
                }
            }
            Some(DescriptorType::Segment | DescriptorType::LastSegment) => self.segment_fault(
                map, d,
            ),
        }
    }

    // The first check that a Segment or Last Segment fails.
    fn segment_fault(&self, map: &GuestMap, d: &Descriptor) -> Option<StatusCode>
        ensures value { result ≡ segment_fault (mapped map.now.regions) (array_at self.now) d.now }
        ensures inside { result ≡ None → address_of d.now + length_of d.now ≤ 2 ^ 64 }
    {
        let len = d.length();
        if self.by_last {
            Some(StatusCode::InvalidSglSegment)
        } else if self.left != 0 {
            Some(StatusCode::InvalidSglCount)
        } else if len == 0 || len % 16 != 0 {
            Some(StatusCode::InvalidSglSegment)
        } else if d.address() % 8 != 0 {
            Some(StatusCode::InvalidSglSegment)
        } else if !holds_some(map, d.address(), len) {
            Some(StatusCode::DataTransferError)
        } else {
            None
        }
    }
}

// Whether each of these addresses, at least one, is mapped. They then end at 2 to the 64 at the latest.
fn holds_some(map: &GuestMap, addr: u64, len: u32) -> bool
    requires { 0 < len }
    ensures value { result ≡ all_mapped map.now.regions addr len }
    ensures inside { IsTrue result → addr + len ≤ 2 ^ 64 }
{
    // With the length of the host comes what is known of every map.
    let _known = map.host_len();
    map.holds(addr, u64::from(len))
}

// How many bytes of the transfer a descriptor names.
#[inline(always)]
fn bytes_named(d: &Descriptor, dest: bool) -> u32
    ensures { result ≡ total_len (pieces_by (kind_of d.now) dest d.now) }
{
    match d.kind() {
        Some(DescriptorType::DataBlock) => d.length(),
        Some(DescriptorType::BitBucket) if dest => d.length(),
        _ => 0,
    }
}

/// The piece that a descriptor names, where it names bytes of the transfer.
#[inline(always)]
pub fn piece_of(d: &Descriptor, dest: bool) -> Option<Piece>
    ensures { option_to_list result ≡ pieces_by (kind_of d.now) dest d.now }
{
    let len = u64::from(d.length());
    match d.kind() {
        Some(DescriptorType::DataBlock) if len > 0 => Some(Piece::Run {
            addr: d.address(),
            len,
        }),
        Some(DescriptorType::BitBucket) if dest && len > 0 => Some(Piece::Bucket { len }),
        _ => None,
    }
}

/// Reads the descriptors in these bytes, from the cursor on, after `blocks`, and returns the cursor after them. Room for the array is
/// reserved at once, with its first bytes.
///
/// # Errors
///
/// [`NoMemory`] where memory for the descriptors is refused: the blocks are as they were.
#[inline(always)]
pub fn read_part<A: Allocator>(
    map: &GuestMap,
    dest: bool,
    cursor: Cursor,
    bytes: &[u8],
    blocks: &mut Vec<Descriptor, A>,
) -> Result<Cursor, NoMemory>
    requires whole { length bytes.now % 16 ≡ 0 }
    requires in_range { IsInRange cursor }
    ensures ok { IfOk result (λ c. ReadsPart (mapped map.now.regions) dest cursor bytes.now blocks.old.items c blocks.new.items) }
    ensures err { OnErr result (blocks.new.items ≡ blocks.old.items) }
{
    blocks.try_reserve(cursor.room(bytes.len() / 16))?;
    // The front of most arrays is Data Blocks. Nothing is counted there but how many they are and how many bytes they name, so that the loop
    // stays in registers.
    let most = cursor.most();
    let mut count = 0;
    let mut total = cursor.total;
    let mut rest = bytes;
    'front: while count < most {
        let Some((own, more)) = rest.split_first_chunk::<16>() else {
            break;
        };
        let d = Descriptor::of(own);
        if !is_mapped_block(map, &d) {
            break;
        }
        total += u64::from(d.length());
        count += 1;
        blocks.push_reserved(d);
        rest = more;
    }
    let mut cursor = cursor.behind_blocks(count, total);
    'others: while cursor.is_asking() {
        let Some((own, more)) = rest.split_first_chunk::<16>() else {
            break;
        };
        let d = Descriptor::of(own);
        cursor.pass_one();
        cursor.look_at(map, dest, &d);
        blocks.push_reserved(d);
        rest = more;
    }
    Ok(cursor)
}

// Whether a descriptor is a Data Block whose bytes are all mapped.
#[inline(always)]
fn is_mapped_block(map: &GuestMap, d: &Descriptor) -> bool
    ensures kind { IsTrue result → kind_of d.now ≡ Some DescriptorType.DataBlock }
    ensures mapped { IsTrue result → all_mapped map.now.regions (address_of d.now) (length_of d.now) ≡ true }
{
    match d.kind() {
        Some(DescriptorType::DataBlock) => map.holds(d.address(), u64::from(d.length())),
        _ => false,
    }
}

/// Adds the piece that a descriptor names, where it names bytes of the transfer.
///
/// # Errors
///
/// [`NoMemory`] where memory for the piece is refused.
#[inline(always)]
pub fn push_piece(d: &Descriptor, dest: bool, places: &mut Places) -> Result<(), NoMemory>
    ensures { OnOk result (places.new ≡ places.old ++ pieces_by (kind_of d.now) dest d.now) }
{
    if let Some(piece) = piece_of(d, dest) {
        places.push(piece)?;
    }
    Ok(())
}

// The same of a Data Block.
#[inline(always)]
fn push_block(d: &Descriptor, _dest: bool, places: &mut Places) -> Result<(), NoMemory>
    requires { kind_of d.now ≡ Some DescriptorType.DataBlock }
    ensures { OnOk result (places.new ≡ places.old ++ pieces_by (kind_of d.now) _dest d.now) }
{
    let len = u64::from(d.length());
    if len > 0 {
        let addr = d.address();
        places.push(Piece::Run { addr, len })?;
    }
    Ok(())
}

/// Reads the descriptors in these bytes, from the cursor on, adds the pieces that they name, and returns the cursor after them. Room for those of
/// the array is reserved at once.
///
/// # Errors
///
/// [`NoMemory`] where memory for the pieces is refused. The places may then have some of the pieces.
#[inline(always)]
pub fn read_places(
    map: &GuestMap,
    dest: bool,
    cursor: Cursor,
    bytes: &[u8],
    places: &mut Places,
) -> Result<Cursor, NoMemory>
    requires whole { length bytes.now % 16 ≡ 0 }
    requires in_range { IsInRange cursor }
    ensures { IfOk result (λ c. NamesPart (mapped map.now.regions) dest cursor bytes.now places.old c places.new) }
{
    places.reserve(cursor.room(bytes.len() / 16))?;
    let mut cursor = cursor;
    let mut rest = bytes;
    while cursor.is_asking() {
        let Some((own, more)) = rest.split_first_chunk::<16>() else {
            break;
        };
        let d = Descriptor::of(own);
        cursor.pass_one();
        cursor.take(map, dest, &d, places)?;
        rest = more;
    }
    Ok(cursor)
}
