//! Terms of maps, of region pages and of physical entries, each distinguished from a similar one that the other rows let pass.

ghost use Rattle.std.specs.Prelude.{◌≡◌, [], ◌∷◌, ◌++◌, ◌+◌, ◌==◌, Some, None, true, false, map, not, replicate};
ghost use Rattle.std.specs.List.{range_with_len};
ghost use Rattle.nv_entry.specs.Layout.{number_bytes};
ghost use Rattle.nv_entry.specs.Descriptor.{kind_of};
ghost use Rattle.nv_entry.specs.Submission.{fuse_of, nlb_of, psdt_of};
ghost use Rattle.nv_mem.specs.GuestMap.{everywhere, guest_of, host_of, hosts_meet};
ghost use Rattle.nv_mem.specs.Places.{At, Bucket, places_of};
ghost use Rattle.nv_mem.specs.declared.piece.Piece.TheVariants as piece;
ghost use Rattle.nv_model.specs.Memory.{gathered};
ghost use Rattle.nv_prp.specs.Built.{built};
ghost use Rattle.nv_prp.specs.Fits.{may_follow};
ghost use Rattle.nv_world_model.specs.Area.{list_bytes, physical_entry};

/// Two regions whose guest and host addresses are in another order.
#[tactic(none)]
pub fn regions()
    ensures to_the_host { map (host_of (record { guest = 0x2000; host = 0x10000; len = 0x1000 } ∷ record { guest = 0x5000; host = 0x8000; len = 0x2000 } ∷ []))
        (0x1fff ∷ 0x2000 ∷ 0x2fff ∷ 0x3000 ∷ 0x4fff ∷ 0x5001 ∷ 0x6fff ∷ 0x7000 ∷ [])
        ≡ None ∷ Some 0x10000 ∷ Some 0x10fff ∷ None ∷ None ∷ Some 0x8001 ∷ Some 0x9fff ∷ None ∷ [] }
    ensures to_the_guest { map (guest_of (record { guest = 0x2000; host = 0x10000; len = 0x1000 } ∷ record { guest = 0x5000; host = 0x8000; len = 0x2000 } ∷ []))
        (0x7fff ∷ 0x8000 ∷ 0x9fff ∷ 0xa000 ∷ 0xffff ∷ 0x10001 ∷ 0x10fff ∷ 0x11000 ∷ [])
        ≡ None ∷ Some 0x5000 ∷ Some 0x6fff ∷ None ∷ None ∷ Some 0x2001 ∷ Some 0x2fff ∷ None ∷ [] }
    ensures runs { map (λ first. everywhere (λ at. not (at == 5)) first 3) (2 ∷ 3 ∷ 4 ∷ 5 ∷ 6 ∷ []) ≡ true ∷ false ∷ false ∷ false ∷ true ∷ [] }
    ensures the_last_meets { hosts_meet (record { guest = 0; host = 0x1000; len = 0x1000 } ∷ record { guest = 0x1000; host = 0x4000; len = 0x1000 } ∷ [])
        (record { guest = 0; host = 0x8000; len = 0x1000 } ∷ record { guest = 0x1000; host = 0x4000; len = 0x1000 } ∷ []) ≡ true }
    ensures none_meets { hosts_meet (record { guest = 0; host = 0x1000; len = 0x1000 } ∷ record { guest = 0x1000; host = 0x4000; len = 0x1000 } ∷ [])
        (record { guest = 0; host = 0x2000; len = 0x2000 } ∷ []) ≡ false }
    ensures buckets { places_of (piece.Run 7 2 ∷ piece.Bucket 2 ∷ []) ≡ At 7 ∷ At 8 ∷ Bucket ∷ Bucket ∷ [] }
    ensures bytes { gathered (λ at. at + 1) (At 7 ∷ At 3 ∷ []) ≡ 8 ∷ 4 ∷ [] }
{}

/// Region pages.
#[tactic(none)]
pub fn pages()
    ensures first_addresses { map (may_follow None) (0x1000 ∷ 0x1002 ∷ 0x1003 ∷ 0x1004 ∷ []) ≡ true ∷ false ∷ false ∷ true ∷ [] }
    ensures in_a_row { map (may_follow (Some 0x1804)) (0x1803 ∷ 0x1804 ∷ 0x1805 ∷ 0x3000 ∷ []) ≡ false ∷ true ∷ false ∷ false ∷ [] }
    ensures behind_a_page { map (may_follow (Some 0x2000)) (0x2000 ∷ 0x7000 ∷ 0x7004 ∷ 0x1000 ∷ []) ≡ true ∷ true ∷ false ∷ true ∷ [] }
    ensures a_page { built 0x403000 (range_with_len 0x1800 0x801) ≡ record { prp1 = 0x1800; prp2 = 0x2000; list = replicate 32 0; used = 0 } }
    ensures a_list { built 0x403000 (range_with_len 0x1ffc 0x1005)
        ≡ record { prp1 = 0x1ffc; prp2 = 0x403000; list = 0x2000 ∷ 0x3000 ∷ replicate 30 0; used = 2 } }
    ensures its_bytes { list_bytes (record { prp1 = 0; prp2 = 0; list = 0x0807060504030201 ∷ 0x18 ∷ replicate 30 0; used = 2 }) ≡ range_with_len 1 8 ++ number_bytes 8 0x18 }
{}

/// Entries.
#[tactic(none)]
pub fn entries()
    ensures physical { physical_entry 0x02 63 (record { prp1 = 0x1122334455667788; prp2 = 0x99aabbccddeeff00; list = []; used = 0 }) (0x0a ∷ 0x0b ∷ 0x4000000c ∷ [])
        ≡ 0x02 ∷ 0 ∷ 63 ∷ 0 ∷ 1 ∷ replicate 19 0 ++ 0x88 ∷ 0x77 ∷ 0x66 ∷ 0x55 ∷ 0x44 ∷ 0x33 ∷ 0x22 ∷ 0x11 ∷ 0x00 ∷ 0xff ∷ 0xee ∷ 0xdd ∷ 0xcc ∷ 0xbb ∷ 0xaa ∷ 0x99
        ∷ 0x0a ∷ 0 ∷ 0 ∷ 0 ∷ 0x0b ∷ 0 ∷ 0 ∷ 0 ∷ 0x0c ∷ 0 ∷ 0 ∷ 0x40 ∷ replicate 12 0 }
    ensures a_type_of_four_bits { kind_of (replicate 15 0 ++ 0x80 ∷ []) ≡ None }
    ensures bits_between { map (λ field. field (0 ∷ 0x3d ∷ replicate 62 0)) (fuse_of ∷ psdt_of ∷ []) ≡ 1 ∷ 0 ∷ [] }
    ensures a_bit_behind_the_blocks { nlb_of (replicate 50 0 ++ 0xff ∷ replicate 13 0) ≡ 0 }
{}
