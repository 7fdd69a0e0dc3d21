//! Commands of one guest that go, from their doorbell to their completion.

ghost use Rattle.std.specs.Prelude.{◌≡◌, [], ◌∷◌, ◌++◌, replicate, true, false};
ghost use Rattle.nv_model.specs.declared.reply.Reply.TheVariants as reply;
ghost use Rattle.nv_model.specs.Rows.{block_range, by_sgl, bit_bucket, data_block, first_example, last_segment, manage};
ghost use Rattle.nv_world_model.specs.Rows.{behind, first_answers, handed_on, host_bytes, host_number, in_device, moves, one_command, one_command_on, told, whole};
ghost use Rattle.nv_world_model.specs.declared.event.Event.TheVariants as event;

/// The examples of this module, a clause each.
#[tactic(none)]
pub fn examples()
    // Each event of a direct Read is done.
    ensures each_event_of_a_direct_read_is_done { told (whole 1) (one_command first_example) ≡ replicate 7 reply.Done }
    // A direct Read is handed on with the guest's own pages, as they lie in the host, and the disk's block.
    ensures a_direct_read_is_handed_on { behind in_device (one_command first_example) handed_on ≡ 0x02 ∷ 0 ∷ 0x103000 ∷ 0 ∷ 1005 ∷ 0 ∷ 0 ∷ [] }
    // Its completion, in the first slot of the guest's queue.
    ensures a_direct_read_is_completed { behind (whole 1) (one_command first_example) (host_bytes 0x112000 16)
        ≡ 0x00 ∷ 0x00 ∷ 0x00 ∷ 0x00 ∷ 0x00 ∷ 0x00 ∷ 0x00 ∷ 0x00 ∷ 0x01 ∷ 0x00 ∷ 0x01 ∷ 0x00 ∷ 0x07 ∷ 0x00 ∷ 0x01 ∷ 0x00 ∷ [] }
    // And its buffer, which ends with its block: block 1005 of the disk.
    ensures a_direct_read_reads_its_block { behind (whole 1) (one_command first_example) (host_bytes 0x1031fe 3) ≡ 0xed ∷ 0xed ∷ 0x00 ∷ [] }
    // A Read to an odd place is handed on with a bounce page.
    ensures a_bounced_read_is_handed_on { behind in_device (one_command (by_sgl 0x02 5 0 (data_block 0x3002 512))) handed_on
        ≡ 0x02 ∷ 0 ∷ 0x404000 ∷ 0 ∷ 1005 ∷ 0 ∷ 0 ∷ [] }
    // Its block lies in the bounce page alone until it is posted.
    ensures a_bounced_read_waits_in_its_page { behind (in_device ++ moves 1 ++ event.DevPost 0 0 ∷ event.Reap 0 ∷ []) (one_command (by_sgl 0x02 5 0 (data_block 0x3002 512)))
        (λ w. host_number 0x404000 1 w ∷ host_number 0x103002 1 w ∷ []) ≡ 0xed ∷ 0x00 ∷ [] }
    // And then in its buffer, exactly.
    ensures a_bounced_read_is_delivered_when_it_is_posted { behind (whole 1) (one_command (by_sgl 0x02 5 0 (data_block 0x3002 512)))
        (λ w. host_bytes 0x103001 2 w ++ host_bytes 0x103201 2 w ++ host_number 0x11200c 4 w ∷ [])
        ≡ 0x00 ∷ 0xed ∷ 0xed ∷ 0x00 ∷ 0x00010007 ∷ [] }
    // Dataset Management: the range is handed on with the disk's block, and its blocks become zeros at once.
    ensures a_range_is_handed_on_and_deallocated { behind (event.Take 0 1 0 ∷ event.List 0 0 0x3000 16 ∷ event.Submit 0 0 ∷ event.DevTake 0 ∷ event.DevMove 0 0 0 ∷ [])
        (one_command_on 0x3000 (block_range 6 2) (manage true 0 (data_block 0x3000 16)))
        (λ w. handed_on w ++ host_number 0x404004 4 w ∷ host_number 0x404008 8 w
        ∷ w.disk 1005 0 ∷ w.disk 1006 0 ∷ w.disk 1007 511 ∷ w.disk 1008 0 ∷ [])
        ≡ 0x09 ∷ 0 ∷ 0x404000 ∷ 0 ∷ 0 ∷ 4 ∷ 0 ∷ 2 ∷ 1006 ∷ 0xed ∷ 0 ∷ 0 ∷ 0xf0 ∷ [] }
    // Before its ranges are read, its plan wants more.
    ensures a_plan_that_wants_more_is_stale { told (event.Take 0 1 0 ∷ event.Submit 0 0 ∷ []) (one_command (manage true 0 (data_block 0x3000 16))) ≡ reply.Done ∷ reply.Stale ∷ [] }
{}
