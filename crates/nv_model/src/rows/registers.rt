//! Registers and doorbells, as a guest reads and writes them.

ghost use Rattle.std.specs.Prelude.{◌≡◌, [], ◌∷◌, ◌++◌, Some, replicate};
ghost use Rattle.nv_model.specs.declared.reply.Reply.TheVariants as reply;
ghost use Rattle.nv_model.specs.Private.{start};
ghost use Rattle.nv_model.specs.RowsRuns.{at_start, bring_up, enable, first_posted, load, read_register, replied_to, ring, store, write_register};

/// The examples of this module, a clause each.
#[tactic(none)]
pub fn examples()
    // CAP and VS, as they read at any time.
    ensures cap_and_vs { replied_to (read_register 0x00 ∷ read_register 0x04 ∷ read_register 0x08 ∷ []) start
        ≡ Some (
        reply.Bytes (0xff ∷ 0x03 ∷ 0x01 ∷ 0x01 ∷ []) ∷ reply.Bytes (0x20 ∷ 0x00 ∷ 0x00 ∷ 0x00 ∷ [])
        ∷ reply.Bytes (0x00 ∷ 0x00 ∷ 0x02 ∷ 0x00 ∷ []) ∷ []) }
    // The others start at 0, and what is no register reads 0.
    ensures the_other_registers_start_at_zero { replied_to (read_register 0x0c ∷ read_register 0x14 ∷ read_register 0x1c ∷ read_register 0x24 ∷ read_register 0x28
        ∷ read_register 0x2c ∷ read_register 0x30 ∷ read_register 0x34 ∷ read_register 0x1000 ∷ []) start
        ≡ Some (replicate 9 (reply.Bytes (replicate 4 0))) }
    // A read at no multiple of 4 is ignored.
    ensures a_read_between_two_registers_is_ignored { replied_to (read_register 0x1e ∷ []) start ≡ Some (reply.Ignored ∷ []) }
    // CAP, VS, CSTS and what is no register are not written.
    ensures registers_that_are_not_written { replied_to (write_register 0x00 1 ∷ write_register 0x04 1 ∷ write_register 0x08 1 ∷ write_register 0x0c 1 ∷ write_register 0x1c 1
        ∷ write_register 0x15 1 ∷ write_register 0x1000 1 ∷ []) start
        ≡ Some (replicate 7 reply.Ignored) }
    // The admin queue registers read as they were written, in all bits.
    ensures the_admin_queue_registers_read_as_written { replied_to (write_register 0x24 0xffffffff ∷ read_register 0x24 ∷ write_register 0x34 0x12345678 ∷ read_register 0x34 ∷ []) start
        ≡ Some (
        reply.Done ∷ reply.Bytes (0xff ∷ 0xff ∷ 0xff ∷ 0xff ∷ []) ∷ reply.Done ∷ reply.Bytes (0x78 ∷ 0x56 ∷ 0x34 ∷ 0x12 ∷ []) ∷ []) }
    // They are not written while EN is 1.
    ensures the_admin_queue_registers_are_fixed_while_enabled { replied_to (enable ++ write_register 0x24 0 ∷ write_register 0x28 0
        ∷ write_register 0x2c 0 ∷ write_register 0x30 0 ∷ write_register 0x34 0
        ∷ read_register 0x24 ∷ read_register 0x1c ∷ []) start
        ≡ Some (
        replicate 4 reply.Done ++ replicate 5 reply.Ignored
        ++ reply.Bytes (0x1f ∷ 0x00 ∷ 0x1f ∷ 0x00 ∷ []) ∷ reply.Bytes (1 ∷ 0 ∷ 0 ∷ 0 ∷ []) ∷ []) }
    // The other bits of CC are kept and have no effect, whether EN is 1 or 0.
    ensures cc_written_while_enabled { replied_to (enable ++ write_register 0x14 0xffff0001 ∷ read_register 0x14 ∷ read_register 0x1c ∷ ring 0x1000 1 ∷ []) start
        ≡ Some (replicate 5 reply.Done ++ reply.Bytes (0x01 ∷ 0x00 ∷ 0xff ∷ 0xff ∷ []) ∷ reply.Bytes (1 ∷ 0 ∷ 0 ∷ 0 ∷ []) ∷ reply.Done ∷ []) }
    ensures cc_written_while_disabled { replied_to (write_register 0x14 0x00460000 ∷ read_register 0x14 ∷ read_register 0x1c ∷ []) start
        ≡ Some (reply.Done ∷ reply.Bytes (0x00 ∷ 0x00 ∷ 0x46 ∷ 0x00 ∷ []) ∷ reply.Bytes (0 ∷ 0 ∷ 0 ∷ 0 ∷ []) ∷ []) }
    // EN with admin queues of one slot: CFS, and RDY stays 0; EN clear clears CFS.
    ensures admin_queues_of_one_slot_fail { replied_to (write_register 0x14 1 ∷ read_register 0x1c ∷ write_register 0x14 0 ∷ read_register 0x1c ∷ []) start
        ≡ Some (reply.Done ∷ reply.Bytes (2 ∷ 0 ∷ 0 ∷ 0 ∷ []) ∷ reply.Done ∷ reply.Bytes (0 ∷ 0 ∷ 0 ∷ 0 ∷ []) ∷ []) }
    // EN with an admin queue that leaves the memory, by one slot: CFS.
    ensures an_admin_queue_that_leaves_the_memory_fails { replied_to (write_register 0x24 0x001f0040 ∷ write_register 0x28 0x1f000 ∷ write_register 0x30 0x11000 ∷ write_register 0x14 1
        ∷ read_register 0x1c ∷ []) start
        ≡ Some (replicate 4 reply.Done ++ reply.Bytes (2 ∷ 0 ∷ 0 ∷ 0 ∷ []) ∷ []) }
    // EN with an admin queue that begins within a page: CFS.
    ensures an_admin_queue_within_a_page_fails { replied_to (write_register 0x24 0x001f001f ∷ write_register 0x28 0x10040 ∷ write_register 0x30 0x11000 ∷ write_register 0x14 1
        ∷ read_register 0x1c ∷ []) start
        ≡ Some (replicate 4 reply.Done ++ reply.Bytes (2 ∷ 0 ∷ 0 ∷ 0 ∷ []) ∷ []) }
    // No doorbell is taken before the controller is ready.
    ensures a_doorbell_before_bring_up_is_ignored { replied_to (ring 0x1000 0 ∷ ring 0x1008 1 ∷ []) start ≡ Some (reply.Ignored ∷ reply.Ignored ∷ []) }
    // A submission tail is taken where it is a slot.
    ensures a_submission_tail_is_a_slot { replied_to (bring_up ++ ring 0x1008 15 ∷ ring 0x1008 16 ∷ ring 0x1008 0 ∷ []) start
        ≡ Some (replicate 8 reply.Done ++ reply.Ignored ∷ reply.Done ∷ []) }
    // Queues that are not there have no doorbells, and neither has what lies between two doorbells.
    ensures doorbells_that_are_not_there { replied_to (bring_up ++ ring 0x1010 0 ∷ ring 0x1014 0 ∷ ring 0x100a 0 ∷ ring 0x0ff8 0 ∷ ring 0x1048 0 ∷ ring 0x104c 0 ∷ []) start
        ≡ Some (replicate 7 reply.Done ++ replicate 6 reply.Ignored) }
    // A completion head is taken up to the tail; the low 16 bits count; what was freed is not freed again.
    ensures a_completion_head_goes_up_to_the_tail { replied_to (first_posted ++ ring 0x1008 16 ∷ ring 0x1014 0 ∷ ring 0x100c 2
        ∷ ring 0x100c 0x10001 ∷ ring 0x100c 0 ∷ ring 0x100c 1 ∷ []) at_start
        ≡ Some (replicate 9 reply.Done ++ reply.Ignored ∷ reply.Ignored ∷ reply.Ignored ∷ reply.Done ∷ reply.Ignored ∷ reply.Done ∷ []) }
    // A store or load that leaves the memory changes and gives nothing; no bytes are at any address.
    ensures acts_outside_the_memory { replied_to (store 0x1ffff (7 ∷ 7 ∷ []) ∷ load 0x1ffff 1 ∷ load 0x1ffff 2 ∷ load 0xffffffffffffffff 0 ∷ store 0xffffffffffffffff [] ∷ []) start
        ≡ Some (reply.Unmapped ∷ reply.Bytes (0 ∷ []) ∷ reply.Unmapped ∷ reply.Bytes [] ∷ reply.Done ∷ []) }
{}
