//! The bytes that outstanding commands name: after the bring-up, the doorbell is rung for one command.

ghost use Rattle.std.specs.Prelude.{◌≡◌, [], ◌∷◌, ◌++◌, Some, true};
ghost use Rattle.nv_model.specs.Footprint.{Destination, Entry, ListBytes, Source, named_as};
ghost use Rattle.nv_model.specs.Private.{AdminQueueStep, TakeStep, start};
ghost use Rattle.nv_model.specs.Rows.{bit_bucket, block_range, by_prp, by_sgl, data_block, first_example, last_segment, manage, one_block, prp_entries, read, segment, write};
ghost use Rattle.nv_model.specs.RowsRuns.{admin_entry, after, bring_up, first_ended, first_posted, first_taken, five_event_requests, named_bytes, ring, rung, rung_with, store};

/// The examples of this module, a clause each.
#[tactic(none)]
pub fn examples()
    // A command for which the doorbell is not rung names nothing.
    ensures a_command_that_is_not_rung_names_nothing { after (bring_up ++ store 0x13000 first_example ∷ []) start named_bytes ≡ Some [] }
    // A command that is not taken names its entry and its buffer.
    ensures a_command_that_is_not_taken_names_its_entry { after (rung first_example) start named_bytes ≡ Some ((named_as Entry 0x13000 64 ∷ named_as Destination 0x3000 512 ∷ []) ∷ []) }
    // A taken one no longer names its entry.
    ensures a_taken_command_names_its_buffer { after first_taken start named_bytes ≡ Some ((named_as Destination 0x3000 512 ∷ []) ∷ []) }
    // One that has ended names it still.
    ensures an_ended_command_names_its_buffer { after first_ended start named_bytes ≡ Some ((named_as Destination 0x3000 512 ∷ []) ∷ []) }
    // A completed one names nothing.
    ensures a_completed_command_names_nothing { after first_posted start named_bytes ≡ Some [] }
    // The descriptors of a list are named one by one; a Bit Bucket has no bytes.
    ensures a_list_is_named_by_its_descriptors { after (rung_with 0x6000 (one_block ++ bit_bucket 512) (by_sgl read 5 1 (last_segment 0x6000 32))) start named_bytes
        ≡ Some (
        (named_as Entry 0x13000 64 ∷ named_as ListBytes 0x6000 16 ∷ named_as ListBytes 0x6010 16
        ∷ named_as Destination 0x3000 512 ∷ []) ∷ []) }
    // A refused command has no buffer, and of its list the descriptors up to the first fault.
    ensures a_refused_command_has_no_buffer { after (rung_with 0x6000 (one_block ++ segment 0x7000 16 ++ one_block) (by_sgl read 5 0 (segment 0x6000 48))) start named_bytes
        ≡ Some ((named_as Entry 0x13000 64 ∷ named_as ListBytes 0x6000 16 ∷ named_as ListBytes 0x6010 16 ∷ []) ∷ []) }
    // The buffer of a Write is a source.
    ensures the_buffer_of_a_write_is_a_source { after (rung (by_sgl write 5 0 one_block)) start named_bytes ≡ Some ((named_as Entry 0x13000 64 ∷ named_as Source 0x3000 512 ∷ []) ∷ []) }
    // The ranges of Dataset Management are read, and are its source.
    ensures the_ranges_are_read_and_are_a_source { after (rung_with 0x3000 (block_range 5 2) (manage true 0 (data_block 0x3000 16))) start named_bytes
        ≡ Some ((named_as Entry 0x13000 64 ∷ named_as ListBytes 0x3000 16 ∷ named_as Source 0x3000 16 ∷ []) ∷ []) }
    // Of a PRP list the slots that are read.
    ensures a_prp_list_is_named_by_its_slots { after (rung_with 0x6ff0 (prp_entries (0x8000 ∷ 0x9000 ∷ [])) (by_prp read 5 23 0x3000 0x6ff0)) start named_bytes
        ≡ Some (
        (named_as Entry 0x13000 64 ∷ named_as ListBytes 0x6ff0 8 ∷ named_as ListBytes 0x6ff8 8
        ∷ named_as Destination 0x3000 4096 ∷ named_as Destination 0x8000 4096 ∷ named_as Destination 0x9000 4096 ∷ []) ∷ []) }
    // An Identify names its entry and where its structure goes.
    ensures an_identify_names_its_destination { after (bring_up ++ store 0x10080 (admin_entry 0x06 3 0 0x15e00 0x17000 0x01 0) ∷ ring 0x1000 3 ∷ []) start named_bytes
        ≡ Some ((named_as Entry 0x10080 64 ∷ named_as Destination 0x15e00 512 ∷ named_as Destination 0x17000 3584 ∷ []) ∷ []) }
    // One that will be refused names its entry alone.
    ensures a_refused_identify_names_its_entry { after (bring_up ++ store 0x10080 (admin_entry 0x06 3 0 0x15000 0 0x03 0) ∷ ring 0x1000 3 ∷ []) start named_bytes
        ≡ Some ((named_as Entry 0x10080 64 ∷ []) ∷ []) }
    // So does one that is fused, and one with a list in the place of PRP entries.
    ensures a_fused_identify_names_its_entry { after (bring_up ++ store 0x10080 (admin_entry 0x0106 3 0 0x15000 0 0x01 0) ∷ ring 0x1000 3 ∷ []) start named_bytes
        ≡ Some ((named_as Entry 0x10080 64 ∷ []) ∷ []) }
    ensures an_identify_with_a_list_names_its_entry { after (bring_up ++ store 0x10080 (admin_entry 0x4006 3 0 0x15000 0 0x01 0) ∷ ring 0x1000 3 ∷ []) start named_bytes
        ≡ Some ((named_as Entry 0x10080 64 ∷ []) ∷ []) }
    // Other admin commands their entries, until they are taken; held event requests name nothing.
    ensures other_admin_commands_name_their_entries { after (bring_up ++ store 0x10080 five_event_requests ∷ ring 0x1000 5 ∷ AdminQueueStep ∷ []) start named_bytes
        ≡ Some ((named_as Entry 0x100c0 64 ∷ []) ∷ (named_as Entry 0x10100 64 ∷ []) ∷ []) }
    // In a queue that closes what was not taken names nothing.
    ensures untaken_commands_of_a_closing_queue_name_nothing { after (bring_up ++ store 0x13000 (first_example ++ by_sgl write 5 0 (data_block 0x5000 512)) ∷ ring 0x1008 2 ∷ TakeStep 1 0
        ∷ store 0x10080 (admin_entry 0x00 4 0 0 0 1 0) ∷ ring 0x1000 3 ∷ AdminQueueStep ∷ []) start named_bytes
        ≡ Some ((named_as Destination 0x3000 512 ∷ []) ∷ []) }
{}
