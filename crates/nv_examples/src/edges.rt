//! Edges of the definitions of memory, registers, commands and private steps, each computed. Of each there was a definition that is wrong there alone, and
//! that every other example lets pass.

ghost use Rattle.std.specs.Prelude.{◌≡◌, [], ◌∷◌, ◌++◌, true, false, Some, replicate, slice_set};
ghost use Rattle.nv_entry.specs.Layout.{dword};
ghost use Rattle.nv_mem.specs.Places.{At, Bucket};
ghost use Rattle.nv_model.specs.declared.reply.Reply.TheVariants as reply;
ghost use Rattle.nv_model.specs.Controller.{opening, ran_out};
ghost use Rattle.nv_model.specs.Memory.{bytes_from, scattered};
ghost use Rattle.nv_model.specs.Private.{AdminQueueStep, GiveUpStep, JudgeStep, start};
ghost use Rattle.nv_model.specs.Rows.{command, dword0, flush, prps, with_fua, write_zeroes, zeros};
ghost use Rattle.nv_model.specs.RowsRuns.{after, all_marks, bring_up, can_run, dword_in, new_completion_queue, new_submission_queue, numbered_blocks, read_register, replied_to};
ghost use Rattle.nv_model.specs.RowsRuns.{ring, store, with_command, write_register};
ghost use Rattle.nv_world_model.specs.ShareArea.{share_entry};
ghost use Rattle.nv_world_model.specs.Device.{device_unit};
ghost use Rattle.nv_world_model.specs.PrivateSteps.{steps_done};
ghost use Rattle.nv_world_model.specs.RowsSmall.{small_first};
ghost use Rattle.nv_world_model.specs.World.{Taken, with_tag};
ghost use Rattle.nv_world_model.specs.declared.event.Event.TheVariants as event;
ghost use Rattle.nv_examples.specs.Edges.{both_share};
ghost use Rattle.nv_examples.specs.Guests.{first, neighbour, opened};

/// Bytes that are given to places, in order.
#[tactic(none)]
pub fn bytes_given()
    // A bucket takes its byte.
    ensures a_bucket_takes_its_byte { bytes_from (scattered zeros (At 1 ∷ Bucket ∷ At 2 ∷ []) (7 ∷ 8 ∷ 9 ∷ [])) 1 2 ≡ 7 ∷ 9 ∷ [] }
    // An address that is named twice keeps the byte that was given last.
    ensures an_address_named_twice { bytes_from (scattered zeros (At 1 ∷ At 1 ∷ []) (7 ∷ 8 ∷ [])) 1 1 ≡ 8 ∷ [] }
{}

/// Registers of a private controller.
#[tactic(none)]
pub fn registers()
    // Where EN is 1 the admin queue registers are not written, although RDY is 0.
    ensures admin_queue_registers_behind_a_failure { replied_to (write_register 0x14 1 ∷ write_register 0x24 0x001f001f ∷ read_register 0x24 ∷ read_register 0x1c ∷ []) start
        ≡ Some (reply.Done ∷ reply.Ignored ∷ reply.Bytes (replicate 4 0) ∷ reply.Bytes (2 ∷ 0 ∷ 0 ∷ 0 ∷ []) ∷ []) }
    // RDY falls with the last of the commands that run out, and not with the first.
    ensures ready_until_the_last_runs_out { (ran_out (record opening { ready = true; taken = slice_set opening.taken 1 2 }) 1).ready ≡ true }
    ensures not_ready_behind_the_last { (ran_out (record opening { ready = true; taken = slice_set opening.taken 1 1 }) 1).ready ≡ false }
    // An admin completion queue has a length of its own: 512 slots leave the memory where the 32 of the submission queue would not,
    ensures a_longer_completion_queue { replied_to (write_register 0x24 0x01ff001f ∷ write_register 0x28 0x10000 ∷ write_register 0x30 0x1f000 ∷ write_register 0x14 1
        ∷ read_register 0x1c ∷ []) start
        ≡ Some (replicate 4 reply.Done ++ reply.Bytes (2 ∷ 0 ∷ 0 ∷ 0 ∷ []) ∷ []) }
    // and 32 slots don't where its 512 would.
    ensures a_shorter_completion_queue { replied_to (write_register 0x24 0x001f01ff ∷ write_register 0x28 0x10000 ∷ write_register 0x30 0x1f000 ∷ write_register 0x14 1
        ∷ read_register 0x1c ∷ []) start
        ≡ Some (replicate 4 reply.Done ++ reply.Bytes (1 ∷ 0 ∷ 0 ∷ 0 ∷ []) ∷ []) }
{}

/// Commands of a guest, and physical commands.
#[tactic(none)]
pub fn commands()
    // A completion queue may have the number of a submission queue.
    ensures a_completion_queue_of_a_submission_queues_number { after (bring_up ++ store 0x10080 (new_submission_queue 2 1 1 1 0x14000 ++ new_completion_queue 2 1 1 0x15000)
        ∷ ring 0x1000 4 ∷ AdminQueueStep ∷ AdminQueueStep ∷ []) start (λ p. dword_in 0x1102c p ∷ dword_in 0x1103c p ∷ [])
        ≡ Some (0x00010003 ∷ 0x00010003 ∷ []) }
    // A command that was refused, a Flush of namespace 2, is not judged again.
    ensures a_verdict_is_given { can_run (JudgeStep 0 ∷ []) (with_command zeros numbered_blocks (all_marks false) (command (dword0 flush 0 0) 2 (prps 0 0) 0 0 0)) ≡ true }
    ensures it_is_given_once { can_run (JudgeStep 0 ∷ JudgeStep 0 ∷ []) (with_command zeros numbered_blocks (all_marks false) (command (dword0 flush 0 0) 2 (prps 0 0) 0 0 0)) ≡ false }
    // A Write Zeroes of two blocks with FUA has it in CDW12 of its physical entry, beside NLB.
    ensures fua_of_a_physical_write_zeroes { dword (share_entry both_share small_first.namespace small_first (command (dword0 write_zeroes 0 0) 1 (replicate 16 0) 0 0 (with_fua 1)) 0x10000 0 1) 12
        ≡ with_fua 1 }
    // In the device its block is kept with it, and not kept without.
    ensures fua_keeps_what_it_clears { (device_unit 0 8 (record {
      entry = command (dword0 write_zeroes 0 0) 1 (replicate 16 0) 5 0 (with_fua 0);
      pieces = [];
      left = 0 ∷ [];
      differed = false;
    }) zeros numbered_blocks (all_marks false)).kept 5 ≡ true }
    ensures without_it_none_is_kept { (device_unit 0 8 (record {
      entry = command (dword0 write_zeroes 0 0) 1 (replicate 16 0) 5 0 0;
      pieces = [];
      left = 0 ∷ [];
      differed = false;
    }) zeros numbered_blocks (all_marks true)).kept 5 ≡ false }
{}

/// Steps of private controllers, of a command that is the neighbour's.
#[tactic(none)]
pub fn private_steps()
    // A command is handed on and given up by its own guest, whichever that is,
    ensures judged_by_its_guest { steps_done 1 neighbour (with_tag 0 3 (Taken (record { guest = 1; queue = 1; entry = []; leader = 3 }) []) opened) (event.Submit 0 3)
        ≡ JudgeStep 3 ∷ [] }
    ensures given_up_by_its_guest { steps_done 1 neighbour (with_tag 0 3 (Taken (record { guest = 1; queue = 1; entry = []; leader = 3 }) []) opened) (event.GiveUp 0 3)
        ≡ GiveUpStep 3 ∷ [] }
    // and by no other.
    ensures judged_by_no_other { steps_done 0 first (with_tag 0 3 (Taken (record { guest = 1; queue = 1; entry = []; leader = 3 }) []) opened) (event.Submit 0 3) ≡ [] }
    ensures given_up_by_no_other { steps_done 0 first (with_tag 0 3 (Taken (record { guest = 1; queue = 1; entry = []; leader = 3 }) []) opened) (event.GiveUp 0 3) ≡ [] }
{}
