//! Commands whose lists and ranges the mediator reads.

ghost use Rattle.std.specs.Prelude.{◌≡◌, [], ◌∷◌, ◌++◌, replicate};
ghost use Rattle.nv_model.specs.declared.act.Act.TheVariants as act;
ghost use Rattle.nv_model.specs.declared.reply.Reply.TheVariants as reply;
ghost use Rattle.nv_model.specs.Rows.{bit_bucket, block_range, by_prp, data_block};
ghost use Rattle.nv_world_model.specs.Rows.{behind, completed, handed_on, host_bytes, host_number, in_device, moves, one_command, told};
ghost use Rattle.nv_world_model.specs.RowsWorlds.{list_in_device, list_whole, paged_read, read_apart, split_read, two_described, two_ranges};
ghost use Rattle.nv_world_model.specs.declared.event.Event.TheVariants as event;

/// The examples of this module, a clause each.
#[tactic(none)]
pub fn examples()
    // Two blocks by a Last Segment whose second Data Block begins a page after the end of the first's: direct, by PRP1 and PRP2.
    ensures pages_that_follow_are_direct { behind (list_in_device 0x6000 32) (read_apart 0x3e00 0x5000) handed_on
        ≡ 0x02 ∷ 0 ∷ 0x103e00 ∷ 0x105000 ∷ 1005 ∷ 0 ∷ 1 ∷ [] }
    // One that begins within a page: bounced.
    ensures a_place_within_a_page_is_bounced { behind (list_in_device 0x6000 32) (read_apart 0x3e00 0x5200) handed_on
        ≡ 0x02 ∷ 0 ∷ 0x404000 ∷ 0 ∷ 1005 ∷ 0 ∷ 1 ∷ [] }
    // The same blocks are delivered either way.
    ensures both_deliver_their_blocks { behind (list_whole 0x6000 32 2) (read_apart 0x3e00 0x5000)
        (λ w. host_bytes 0x103fff 1 w ++ host_bytes 0x105000 1 w ++ host_bytes 0x1051ff 2 w ++ host_number 0x11200c 4 w ∷ [])
        ≡ 0xed ∷ 0xee ∷ 0xee ∷ 0x00 ∷ 0x00010007 ∷ [] }
    // The same by way of the bounce pages.
    ensures the_bounced_one_too { behind (list_whole 0x6000 32 2) (read_apart 0x3e00 0x5200)
        (λ w. host_bytes 0x103fff 1 w ++ host_bytes 0x105200 1 w ++ host_bytes 0x1053ff 2 w ++ host_number 0x11200c 4 w ∷ [])
        ≡ 0xed ∷ 0xee ∷ 0xee ∷ 0x00 ∷ 0x00010007 ∷ [] }
    // What was read of a list remains in effect, whatever is stored there afterwards, or read once more.
    ensures a_list_is_read_once { behind (event.Take 0 1 0 ∷ event.List 0 0 0x6000 32 ∷ event.Guest 0 (act.Store 0x6010 (data_block 0x20000 512))
        ∷ event.List 0 0 0x6000 32 ∷ event.Submit 0 0 ∷ event.DevTake 0 ∷ []) (read_apart 0x3e00 0x5000) handed_on
        ≡ 0x02 ∷ 0 ∷ 0x103e00 ∷ 0x105000 ∷ 1005 ∷ 0 ∷ 1 ∷ [] }
    // A read that is shorter than what is wanted is skipped.
    ensures a_short_read_is_skipped { behind (event.Take 0 1 0 ∷ event.List 0 0 0x6000 16 ∷ event.Guest 0 (act.Store 0x6010 (data_block 0x20000 512))
        ∷ event.List 0 0 0x6000 32 ∷ event.Submit 0 0 ∷ event.Post 0 0 ∷ []) (read_apart 0x3e00 0x5000) (host_number 0x11200c 4) ≡ 0x80090007 }
    // A Bit Bucket is bounced; its bytes go nowhere.
    ensures a_bit_bucket_discards_its_bytes { behind (list_whole 0x6000 32 2) (two_described 0x02 (data_block 0x3000 512) (bit_bucket 512))
        (λ w. handed_on w ++ host_bytes 0x404200 1 w ++ host_bytes 0x1031ff 2 w ++ host_number 0x11200c 4 w ∷ [])
        ≡ 0x02 ∷ 0 ∷ 0x404000 ∷ 0 ∷ 1005 ∷ 0 ∷ 1 ∷ 0xee ∷ 0xed ∷ 0x00 ∷ 0x00010007 ∷ [] }
    // In the list of a Write it counts as no bytes, so the list is too short, and no block changes.
    ensures a_bit_bucket_is_no_source { behind (event.Take 0 1 0 ∷ event.List 0 0 0x6000 32 ∷ event.Submit 0 0 ∷ event.DevTake 0 ∷ event.Post 0 0 ∷ [])
        (two_described 0x01 (data_block 0x3000 512) (bit_bucket 512)) (λ w. host_number 0x11200c 4 w ∷ w.disk 1005 0 ∷ w.disk 1006 0 ∷ [])
        ≡ 0x801f0007 ∷ 0xed ∷ 0xee ∷ [] }
    // Three pages by PRP, whose list begins in the last slot of a page and goes on in another: direct, with a list of the mediator's own.
    ensures a_list_of_pages_is_built { behind (event.Take 0 1 0 ∷ event.List 0 0 0x6ff8 8 ∷ event.List 0 0 0x7000 16 ∷ event.Submit 0 0 ∷ [])
        paged_read (λ w. handed_on w ++ host_number 0x403000 8 w ∷ host_number 0x403008 8 w ∷ host_number 0x403010 8 w ∷ [])
        ≡ 0x02 ∷ 0 ∷ 0x103000 ∷ 0x403000 ∷ 1005 ∷ 0 ∷ 23 ∷ 0x108000 ∷ 0x109000 ∷ 0 ∷ [] }
    // One block by PRP, with an offset of a multiple of 4.
    ensures an_offset_is_kept { behind in_device (one_command (by_prp 0x02 5 0 0x3004 0)) handed_on
        ≡ 0x02 ∷ 0 ∷ 0x103004 ∷ 0 ∷ 1005 ∷ 0 ∷ 0 ∷ [] }
    // A buffer that goes on in another region, from a page's end to a page's start: direct.
    ensures regions_may_follow { handed_on (split_read 0xff00) ≡ 0x02 ∷ 0 ∷ 0x10ff00 ∷ 0x150000 ∷ 1005 ∷ 0 ∷ 0 ∷ [] }
    // One that ends with the first region: direct, by one entry.
    ensures a_buffer_ends_with_a_region { handed_on (split_read 0xfe00) ≡ 0x02 ∷ 0 ∷ 0x10fe00 ∷ 0 ∷ 1005 ∷ 0 ∷ 0 ∷ [] }
    // One at an odd place: bounced.
    ensures an_odd_place_is_bounced { handed_on (split_read 0xff02) ≡ 0x02 ∷ 0 ∷ 0x404000 ∷ 0 ∷ 1005 ∷ 0 ∷ 0 ∷ [] }
    // Two ranges as the disk has them.
    ensures two_ranges_are_translated { behind (list_in_device 0x3000 32) (two_ranges (block_range 5 2) (block_range 0 1)) (host_bytes 0x404000 32)
        ≡ 0 ∷ 0 ∷ 0 ∷ 0 ∷ 2 ∷ 0 ∷ 0 ∷ 0 ∷ 0xed ∷ 0x03 ∷ 0 ∷ 0 ∷ 0 ∷ 0 ∷ 0 ∷ 0
        ∷ 0 ∷ 0 ∷ 0 ∷ 0 ∷ 1 ∷ 0 ∷ 0 ∷ 0 ∷ 0xe8 ∷ 0x03 ∷ 0 ∷ 0 ∷ 0 ∷ 0 ∷ 0 ∷ 0 ∷ [] }
    // The first of two ranges has no blocks, and begins right after the namespace: its unit of the device moves and changes nothing.
    ensures a_range_of_no_blocks_changes_nothing { behind (list_whole 0x3000 32 2) (two_ranges (block_range 64 0) (block_range 6 2))
        (λ w. w.disk 1064 0 ∷ w.disk 1005 0 ∷ w.disk 1006 0 ∷ w.disk 1007 511 ∷ w.disk 1008 0 ∷ host_number 0x11200c 4 w ∷ [])
        ≡ 0x28 ∷ 0xed ∷ 0 ∷ 0 ∷ 0xf0 ∷ 0x00010007 ∷ [] }
    // Each range has a unit of the device, which moves once.
    ensures each_range_has_a_unit { told (list_in_device 0x3000 32 ++ event.DevMove 0 0 0 ∷ event.DevMove 0 0 0 ∷ event.DevPost 0 0 ∷ event.DevMove 0 0 1 ∷ event.DevPost 0 0 ∷ [])
        (two_ranges (block_range 64 0) (block_range 6 2))
        ≡ reply.Done ∷ reply.Bytes (block_range 64 0 ++ block_range 6 2) ∷ reply.Done ∷ reply.Done
        ∷ reply.Done ∷ reply.Idle ∷ reply.Idle ∷ reply.Done ∷ reply.Done ∷ [] }
{}
