//! A host of 24 KiB and a guest's map of it, and copies whose outcome is given byte by byte.
use crate::hand;
use nv_bounce::{are_mapped, gather, name_no_bucket, scatter, total_len};
use nv_mem::{GuestMap, NoMemory, Piece, Places, Region};
use std::alloc::Global;
use std::process::Abort;
use std::test::Fail;

/// How many bytes the host has.
pub(crate) const HOST_LEN: u64 = 0x6000;

/// Some bytes, and the host address of the first.
pub(crate) type Span = (u64, &'static [u8]);

/// Which way the bytes go.
#[derive(Clone, Copy)]
pub(crate) enum Way {
    /// From the places to the slot.
    Gather,
    /// From the slot to the places.
    Scatter,
}

/// A copy between places and a slot: bytes of the host before it, beside zeros, and those that it changes.
pub(crate) struct Transfer {
    pub name: &'static str,
    pub pieces: &'static [Piece],
    pub slot: u64,
    pub before: &'static [Span],
    pub changed: &'static [Span],
}

/// A run of a guest's bytes.
macro_rules! run {
    ($addr:expr, $len:expr) => {
        nv_mem::Piece::Run {
            addr: $addr,
            len: $len,
        }
    };
}

/// Bytes that go nowhere.
macro_rules! bucket {
    ($len:expr) => {
        nv_mem::Piece::Bucket { len: $len }
    };
}

pub(crate) use bucket;
pub(crate) use run;

/// The guest's first page is at 3000h in the host, its next two are at 1000h, and its page at 8000h is at 5000h. The host's pages at 0
/// and at 4000h are nobody's.
pub(crate) fn map(alloc: Global) -> Result<GuestMap, Fail> {
    let regions = vec![in alloc;
        Region {
            guest: 0,
            host: 0x3000,
            len: 0x1000
        },
        Region {
            guest: 0x1000,
            host: 0x1000,
            len: 0x2000
        },
        Region {
            guest: 0x8000,
            host: 0x5000,
            len: 0x1000
        },
    ]?;
    Ok(GuestMap::new(HOST_LEN, regions)?)
}

/// These pieces as places.
pub(crate) fn places_of(alloc: Global, pieces: &[Piece]) -> Result<Places, NoMemory> {
    let mut places = Places::new(alloc);
    for piece in pieces {
        places.push(*piece)?;
    }
    Ok(places)
}

// Stores each of the spans, and says whether all of them lie in the host.
fn store_all(host: &mut [u8], spans: &[Span]) -> bool {
    for (addr, bytes) in spans {
        if !hand::put(host, *addr, bytes) {
            return false;
        }
    }
    true
}

/// Makes each copy, and asserts that what it changes is as given.
pub(crate) fn check_all(
    rt: &impl Abort,
    alloc: Global,
    copies: &[Transfer],
    way: Way,
) -> Result<(), Fail> {
    let map = map(alloc)?;
    for copy in copies {
        let right = is_right(alloc, &map, copy, way)?;
        assert!(rt; right, "{}", copy.name);
    }
    Ok(())
}

// Whether a copy is made, and changes what it is to change and nothing else.
fn is_right(alloc: Global, map: &GuestMap, copy: &Transfer, way: Way) -> Result<bool, NoMemory> {
    let places = places_of(alloc, copy.pieces)?;
    let mut host = [0; HOST_LEN as usize];
    let mut wanted = [0; HOST_LEN as usize];
    let stored = store_all(&mut host, copy.before)
        && store_all(&mut wanted, copy.before)
        && store_all(&mut wanted, copy.changed);
    Ok(stored && make(way, &places, map, &mut host, copy.slot) && host == wanted)
}

// Copies where the conditions hold, and says whether they do.
fn make(way: Way, places: &Places, map: &GuestMap, host: &mut [u8], slot: u64) -> bool {
    let Some(len) = total_len(places) else {
        return false;
    };
    if map.host_len() != host.len() as u64 || !are_mapped(places, map) {
        return false;
    }
    if !hand::lie_in(host, slot, len) || map.meets_host(slot, len) {
        return false;
    }
    match way {
        Way::Scatter => scatter(slot, places.pieces(), map, host),
        Way::Gather if name_no_bucket(places) => gather(places.pieces(), map, host, slot),
        Way::Gather => return false,
    }
    true
}
