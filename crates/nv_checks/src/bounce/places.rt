//! What is asked of places before a copy.
use crate::bounce::copies::{bucket, map, places_of, run};
use nv_bounce::{are_mapped, name_no_bucket, total_len};
use nv_mem::{GuestMap, NoMemory, Piece};
use std::alloc::Global;
use std::process::Abort;
use std::test::Fail;

/// Pieces, whether their addresses are mapped, whether they name no bucket, and how many bytes they name.
struct Row {
    pieces: &'static [Piece],
    are_mapped: bool,
    name_no_bucket: bool,
    total_len: Option<u64>,
}

const ROWS: &[Row] = &[
    Row {
        pieces: &[],
        are_mapped: true,
        name_no_bucket: true,
        total_len: Some(0),
    },
    Row {
        pieces: &[run!(0, 0x3000), run!(0x8fff, 1)],
        are_mapped: true,
        name_no_bucket: true,
        total_len: Some(0x3001),
    },
    Row {
        pieces: &[run!(0, 0x3001), run!(0x8000, 1)],
        are_mapped: false,
        name_no_bucket: true,
        total_len: Some(0x3002),
    },
    Row {
        pieces: &[run!(0, 1), run!(0x7fff, 2)],
        are_mapped: false,
        name_no_bucket: true,
        total_len: Some(3),
    },
    Row {
        pieces: &[bucket!(5), run!(0x10, 2)],
        are_mapped: true,
        name_no_bucket: false,
        total_len: Some(7),
    },
    Row {
        pieces: &[run!(0x10, 2), bucket!(0)],
        are_mapped: true,
        name_no_bucket: true,
        total_len: Some(2),
    },
    Row {
        pieces: &[run!(0, 0), bucket!(u64::MAX)],
        are_mapped: true,
        name_no_bucket: false,
        total_len: Some(u64::MAX),
    },
    Row {
        pieces: &[bucket!(u64::MAX), run!(0, 1)],
        are_mapped: true,
        name_no_bucket: false,
        total_len: None,
    },
];

fn check(rt: &impl Abort, alloc: Global, map: &GuestMap, rows: &[Row]) -> Result<(), NoMemory> {
    for row in rows {
        let places = places_of(alloc, row.pieces)?;
        let found = (
            are_mapped(&places, map),
            name_no_bucket(&places),
            total_len(&places),
        );
        let wanted = (row.are_mapped, row.name_no_bucket, row.total_len);
        assert!(rt; found == wanted, "{:?}", row.pieces);
    }
    Ok(())
}

#[test]
fn which_places_can_be_copied(rt: HostRuntime) -> Result<(), Fail> {
    let map = map(rt.alloc())?;
    check(&rt, rt.alloc(), &map, ROWS)?;
    Ok(())
}
