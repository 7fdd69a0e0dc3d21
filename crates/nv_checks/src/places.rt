//! Places keep the pieces as a list named them.

use nv_mem::{NoMemory, Piece, Places};

/// The first two touch, the third names addresses of the first again, and one is empty.
const PIECES: &[Piece] = &[
    Piece::Run {
        addr: 0x1000,
        len: 0x200,
    },
    Piece::Run {
        addr: 0x1200,
        len: 0x200,
    },
    Piece::Run {
        addr: 0x1100,
        len: 0x10,
    },
    Piece::Bucket { len: 0x1_0000_0000 },
    Piece::Bucket { len: 7 },
    Piece::Run {
        addr: u64::MAX,
        len: 0,
    },
];

fn push_all(places: &mut Places, pieces: &[Piece]) -> Result<(), NoMemory> {
    places.reserve(pieces.len())?;
    for piece in pieces {
        places.push(*piece)?;
    }
    Ok(())
}

#[test]
fn keeps_pieces_as_they_were_named(rt: HostRuntime) {
    let mut places = Places::new(rt.alloc());
    assert!(rt; places.pieces().is_empty());
    push_all(&mut places, PIECES).expect(&rt, "memory");
    assert!(rt; places.pieces() == PIECES);
    assert!(rt; places.try_clone(rt.alloc()).expect(&rt, "memory").pieces() == PIECES);
}
