//! How a command of several parts ends.

ghost use Rattle.std.specs.Prelude.{◌≡◌, [], ◌∷◌, ◌++◌, true, false, replicate};
ghost use Rattle.nv_model.specs.Rows.{by_sgl, data_block};
ghost use Rattle.nv_model.specs.declared.act.Act.TheVariants as act;
ghost use Rattle.nv_model.specs.declared.reply.Reply.TheVariants as reply;
ghost use Rattle.nv_world_model.specs.declared.event.Event.TheVariants as event;
ghost use Rattle.nv_world_model.specs.RowsExtents.{behind, came, denied, ends, fails, frees, in_device, one_command, read_over, told, unrecovered};

/// The examples of this module, a clause each. For a Read over the join they give the first byte of each block that arrived, and the last dword of
/// the completion: block 1031 of the disk holds 07h, block 3000 holds B8h.
#[tactic(none)]
pub fn examples()
    // The last part ends first: there is no completion until both have ended, and then one.
    ensures it_waits_for_all { told (in_device ++ ends 1 ++ event.Post 0 0 ∷ event.Post 0 1 ∷ ends 0 ++ event.Post 0 1 ∷ event.Post 0 0 ∷ event.Post 0 0 ∷ [])
        (one_command (read_over 0x3e00))
        ≡ replicate 7 reply.Done ++ reply.Stale ∷ reply.Stale ∷ replicate 3 reply.Done ++ reply.Stale ∷ reply.Done ∷ reply.Stale ∷ [] }
    ensures both_blocks_came { behind (in_device ++ ends 1 ++ ends 0 ++ event.Post 0 0 ∷ []) (one_command (read_over 0x3e00)) (came 0x3e00)
        ≡ 0x07 ∷ 0xb8 ∷ 0x00010007 ∷ [] }
    // All its tags are free again, and not before.
    ensures none_is_free_before { behind (in_device ++ ends 0 ++ ends 1) (one_command (read_over 0x3e00)) frees ≡ false ∷ false ∷ true ∷ true ∷ [] }
    ensures all_are_free_behind { behind (in_device ++ ends 0 ++ ends 1 ++ event.Post 0 0 ∷ []) (one_command (read_over 0x3e00)) frees
        ≡ replicate 4 true }
    // A bounced Read reaches the guest at its end alone.
    ensures nothing_came_yet { behind (in_device ++ ends 0 ++ ends 1) (one_command (read_over 0x3002)) (came 0x3002) ≡ 0 ∷ 0 ∷ 0 ∷ [] }
    ensures it_came_at_the_end { behind (in_device ++ ends 0 ++ ends 1 ++ event.Post 0 0 ∷ []) (one_command (read_over 0x3002)) (came 0x3002)
        ≡ 0x07 ∷ 0xb8 ∷ 0x00010007 ∷ [] }
    // Its first part fails, or its last: nothing of it comes.
    ensures the_first_fails { behind (in_device ++ fails 0 unrecovered ++ ends 1 ++ event.Post 0 0 ∷ []) (one_command (read_over 0x3002)) (came 0x3002)
        ≡ 0 ∷ 0 ∷ 0x05030007 ∷ [] }
    ensures the_last_fails { behind (in_device ++ ends 0 ++ fails 1 unrecovered ++ event.Post 0 0 ∷ []) (one_command (read_over 0x3002)) (came 0x3002)
        ≡ 0 ∷ 0 ∷ 0x05030007 ∷ [] }
    // Both fail: the first in order decides, although the other failed before it.
    ensures the_first_decides { behind (in_device ++ fails 1 unrecovered ++ fails 0 denied ++ event.Post 0 0 ∷ []) (one_command (read_over 0x3002)) (came 0x3002)
        ≡ 0 ∷ 0 ∷ 0x050d0007 ∷ [] }
    // A Compare that differs in its second block.
    ensures a_compare_that_differs { behind (in_device ++ ends 0 ++ ends 1 ++ event.Post 0 0 ∷ [])
        (one_command (by_sgl 0x05 31 1 (data_block 0x3e00 1024))) (came 0x3e00) ≡ 0 ∷ 0 ∷ 0x050b0007 ∷ [] }
    // After a reset it runs out, without a completion, and all its tags are free.
    ensures it_runs_out { behind (in_device ++ event.Guest 0 (act.RegWrite 0x14 0) ∷ ends 1 ++ ends 0 ++ event.Post 0 0 ∷ [])
        (one_command (read_over 0x3e00)) (came 0x3e00) ≡ 0x07 ∷ 0xb8 ∷ 0 ∷ [] }
    ensures and_frees_its_tags { behind (in_device ++ event.Guest 0 (act.RegWrite 0x14 0) ∷ ends 1 ++ ends 0 ++ event.Post 0 0 ∷ [])
        (one_command (read_over 0x3e00)) frees ≡ replicate 4 true }
{}
