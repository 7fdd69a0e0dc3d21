//! The ranges of a Dataset Management: where they are on the disk.

ghost use Rattle.std.specs.Prelude.{◌≡◌, ◌≤◌, ◌/◌, ◌++◌, IfOk, ℕ, OnOk, Some, length, map, slice_get, true};
ghost use Rattle.std.specs.List.{enumerate_from, list_all};
ghost use Rattle.std.specs.Option.{option_map};
ghost use Rattle.nv_entry.specs.Layout.{number_bytes};
ghost use Rattle.nv_model.specs.Judge.{range_fits, ranges_in};
ghost use Rattle.nv_model.specs.Limits.{part_size, range_size};
ghost use Rattle.nv_ns.specs.Extents.{Placed, blocks_in, placed};
ghost use Rattle.nv_plan.specs.Told.{portion_met, standing};
ghost use Rattle.nv_world_model.specs.Area.{translated_range};
ghost use Rattle.nv_world_model.specs.Share.{range_in, ranges_met};

use crate::ends::Ends;
use crate::portions::Portions;
use byteorder::{ByteOrder, LittleEndian};
use nv_entry::Range;
use nv_mem::NoMemory;
use nv_model::limits::RANGE_SIZE;
use nv_ns::{Extent, Part, VirtualNs};
use std::alloc::Global;

/// An extent as it is in its namespace: its number, and how many blocks of the namespace come before its own.
#[derive(Debug, Drop)]
struct Standing {
    number: usize,
    before: u64,
    extent: Extent,
}

/// What each extent of a namespace has of the ranges in these bytes. Each range lies in the namespace.
pub(crate) fn portions_met(
    alloc: Global,
    bytes: &[u8],
    ns: &VirtualNs,
) -> Result<Portions, NoMemory>
    requires short { length bytes.now ≤ part_size }
    requires fit { list_all (range_fits (blocks_in ns.now)) (ranges_in (length bytes.now / range_size) bytes.now) ≡ true }
    ensures { IfOk result (λ portions. portions ≡
        map (λ (p : ℕ × Placed). portion_met ns.now (ranges_in (length bytes.now / range_size) bytes.now) p.0 p.1) (enumerate_from 0 (placed 0 ns.now))) }
{
    // Ranges that do not overlap are cut at most once at each join.
    let joins = ns.len() - 1;
    let mut ranges = Vec::with_capacity(alloc, bytes.len() / RANGE_SIZE + joins)?;
    let mut ends = Ends::none();
    let mut before = 0;
    for (number, extent) in ns.as_slice().iter().enumerate() {
        let at = Standing {
            number,
            before,
            extent: *extent,
        };
        meet(bytes, ns, &at, &mut ranges)?;
        ends.push(ranges.len() as u32);
        before += extent.blocks();
    }
    Portions::ranged(alloc, ranges, ends)
}

// Adds what an extent has of the ranges in these bytes, as the disk has them.
fn meet(
    bytes: &[u8],
    ns: &VirtualNs,
    at: &Standing,
    ranges: &mut Vec<Range>,
) -> Result<(), NoMemory>
    requires fit { list_all (range_fits (blocks_in ns.now)) (ranges_in (length bytes.now / range_size) bytes.now) ≡ true }
    requires there { slice_get (placed 0 ns.now) at.now.number ≡ Some (standing at.now) }
    ensures { OnOk result (ranges.new.items ≡ ranges.old.items
        ++ map (translated_range ns.now) (ranges_met at.now.number (standing at.now) (ranges_in (length bytes.now / range_size) bytes.now))) }
{
    let mut rest = bytes;
    while let Some((range, more)) = rest.split_first_chunk::<RANGE_SIZE>() {
        if let Some(part) = range_met(ns, at, Range::of(range)) {
            ranges.push(part)?;
        }
        rest = more;
    }
    Ok(())
}

// What an extent has of a range of the namespace, as the disk has it: the first extent has each of no blocks.
fn range_met(ns: &VirtualNs, at: &Standing, range: Range) -> Option<Range>
    requires fits { range_fits (blocks_in ns.now) range ≡ true }
    requires there { slice_get (placed 0 ns.now) at.now.number ≡ Some (standing at.now) }
    ensures { result ≡ option_map (translated_range ns.now) (range_in at.now.number (standing at.now) range) }
{
    // The blocks of a namespace, and the places after its extents, have numbers of 64 bits.
    let _known = ns.as_slice();
    let start = range.start();
    let blocks = range.blocks();
    if blocks == 0 {
        if at.number > 0 {
            return None;
        }
        return Some(disk_range(at.extent.base() + start, 0));
    }
    let part = Part::of(at.extent, at.before, start, u64::from(blocks))?;
    Some(disk_range(part.start(), part.count() as u32))
}

// A range of the disk's blocks without attributes.
fn disk_range(start: u64, blocks: u32) -> Range
    ensures { result ≡ number_bytes 4 0 ++ number_bytes 4 blocks ++ number_bytes 8 start }
{
    let mut bytes = [0; 16];
    LittleEndian::write_u32(&mut bytes[4..], blocks);
    LittleEndian::write_u64(&mut bytes[8..], start);
    Range::of(&bytes)
}
