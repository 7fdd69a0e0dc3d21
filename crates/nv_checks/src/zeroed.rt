//! A memory that is zero until it is written, over the ends of its chunks of 262,144 bytes.

use nv_zeroed::Zeroed;

// Whether these bytes, 16 at most, are loaded, lent and reported equal, and others are not.
fn shows(zeroed: &Zeroed, at: usize, want: &[u8]) -> bool {
    let mut bytes = [9; 16];
    let mut room = [9; 16];
    let len = want.len();
    if len > 16 || len > zeroed.len() || at > zeroed.len() - len {
        return false;
    }
    zeroed.load(at, &mut bytes[..len]);
    if &bytes[..len] != want || zeroed.bytes(at, len, &mut room) != want {
        return false;
    }
    bytes[len / 2] ^= 1;
    zeroed.equals(at, want) && (len == 0 || !zeroed.equals(at, &bytes[..len]))
}

// Stores bytes, and says whether the memory holds them.
fn stores(zeroed: &mut Zeroed, at: usize, bytes: &[u8]) -> bool {
    if bytes.len() > zeroed.len() || at > zeroed.len() - bytes.len() {
        return false;
    }
    zeroed.store(at, bytes);
    true
}

// Copies bytes, and says whether the memory holds both places and they are apart.
fn copies(zeroed: &mut Zeroed, from: usize, to: usize, len: usize) -> bool {
    if len > zeroed.len() || from > zeroed.len() - len || to > zeroed.len() - len {
        return false;
    }
    if from + len > to && to + len > from {
        return false;
    }
    zeroed.copy(from, to, len);
    true
}

const ROW: [u8; 12] = [1, 2, 3, 4, 5, 6, 7, 8, 9, 10, 11, 12];

#[test]
fn is_zero_at_first(rt: HostRuntime) {
    let zeroed = Zeroed::new(rt.alloc(), 800_000).expect(&rt, "memory");
    assert!(rt; zeroed.len() == 800_000 && !zeroed.is_empty());
    assert!(rt; shows(&zeroed, 0, &[0; 16]) && shows(&zeroed, 262_138, &[0; 12]));
    assert!(rt; shows(&zeroed, 799_988, &[0; 12]) && !shows(&zeroed, 799_989, &[0; 12]));
}

#[test]
fn shows_what_was_stored(rt: HostRuntime) {
    let mut zeroed = Zeroed::new(rt.alloc(), 800_000).expect(&rt, "memory");
    assert!(rt; stores(&mut zeroed, 262_138, &ROW) && stores(&mut zeroed, 799_988, &ROW));
    assert!(rt;
        shows(
            &zeroed,
            262_136,
            &[0, 0, 1, 2, 3, 4, 5, 6, 7, 8, 9, 10, 11, 12, 0, 0]
        )
    );
    assert!(rt; shows(&zeroed, 262_138, &ROW[..6]) && shows(&zeroed, 262_144, &ROW[6..]));
    assert!(rt; shows(&zeroed, 799_988, &ROW) && shows(&zeroed, 524_282, &[0; 12]));
    assert!(rt; stores(&mut zeroed, 262_143, &[20, 21]));
    assert!(rt; shows(&zeroed, 262_138, &[1, 2, 3, 4, 5, 20, 21, 8, 9, 10, 11, 12]));
    assert!(rt; stores(&mut zeroed, 800_000, &[]) && !stores(&mut zeroed, 800_000, &[1]));
}

#[test]
fn copies_from_chunk_to_chunk(rt: HostRuntime) {
    let mut zeroed = Zeroed::new(rt.alloc(), 800_000).expect(&rt, "memory");
    assert!(rt; stores(&mut zeroed, 262_138, &ROW));
    assert!(rt; copies(&mut zeroed, 262_138, 524_284, 12) && copies(&mut zeroed, 262_140, 10, 8));
    assert!(rt;
        shows(
            &zeroed,
            524_282,
            &[0, 0, 1, 2, 3, 4, 5, 6, 7, 8, 9, 10, 11, 12, 0, 0]
        )
    );
    assert!(rt; shows(&zeroed, 8, &[0, 0, 3, 4, 5, 6, 7, 8, 9, 10, 0, 0]));
    assert!(rt; shows(&zeroed, 262_138, &ROW));
    // within a chunk, and of bytes that were never written
    assert!(rt; copies(&mut zeroed, 12, 24, 4) && copies(&mut zeroed, 799_000, 12, 3));
    assert!(rt;
        shows(&zeroed, 8, &[0, 0, 3, 4, 0, 0, 0, 8, 9, 10, 0, 0])
            && shows(&zeroed, 22, &[0, 0, 5, 6, 7, 8, 0])
    );
}

#[test]
fn has_the_length_asked_for(rt: HostRuntime) {
    let none = Zeroed::new(rt.alloc(), 0).expect(&rt, "memory");
    assert!(rt; none.is_empty() && shows(&none, 0, &[]) && !shows(&none, 0, &[0]));
    let mut more = Zeroed::new(rt.alloc(), 262_145).expect(&rt, "memory");
    assert!(rt;
        stores(&mut more, 262_144, &[7])
            && shows(&more, 262_143, &[0, 7])
            && !shows(&more, 262_144, &[7, 0])
    );
    let mut whole = Zeroed::new(rt.alloc(), 262_144).expect(&rt, "memory");
    assert!(rt;
        stores(&mut whole, 262_143, &[7])
            && shows(&whole, 262_142, &[0, 7])
            && !stores(&mut whole, 262_144, &[7])
    );
    assert!(rt; Zeroed::new(rt.alloc(), usize::MAX).is_err());
}
