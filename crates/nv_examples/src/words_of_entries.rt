//! Fields of entries, descriptors, ranges and registers, each between bits that are not its own.
//!
//! Entries of counting bytes have a different number at each place, so that a field that is read elsewhere has another value.

ghost use Rattle.std.specs.Prelude.{◌≡◌, [], ◌∷◌, ◌++◌, ◌+◌, Some, None, true, false, map, nat_lt, replicate, slice_range};
ghost use Rattle.std.specs.List.{range_with_len};
ghost use Rattle.nv_entry.specs.Completion.{cid_of as completed_cid, phase_of, status_of};
ghost use Rattle.nv_entry.specs.Descriptor.{address_of, kind_of, length_of};
ghost use Rattle.nv_entry.specs.Opcode.{admin_opcode, data_pointer, io_opcode};
ghost use Rattle.nv_entry.specs.Range.{attributes_of, blocks_of, start_of};
ghost use Rattle.nv_entry.specs.StatusCode.{done_with, sc_of, sct_of};
ghost use Rattle.nv_entry.specs.Submission.{cid_of, deallocate_of, fua_of, fuse_of, nlb_of, nr_of, nsid_of, opcode_of, prp1_of, prp2_of, psdt_of, sgl_of, slba_of};
ghost use Rattle.nv_entry.specs.declared.data_pointer.DataPointer.TheVariants as pointer;
ghost use Rattle.nv_entry.specs.declared.descriptor_type.DescriptorType.TheVariants as kind;
ghost use Rattle.nv_entry.specs.declared.opcode.AdminOpcode.TheVariants as asked;
ghost use Rattle.nv_entry.specs.declared.opcode.IoOpcode.TheVariants as opcode;
ghost use Rattle.nv_entry.specs.declared.status_code.StatusCode.TheVariants as code;
ghost use Rattle.nv_model.specs.Admin.{completes_to_checks, completion_id, contiguous, namespace_structure, qid, qsize, selector};
ghost use Rattle.nv_model.specs.Reading.{first_failing};
ghost use Rattle.nv_model.specs.Controller.{admin_completion_base, admin_completion_size, admin_submission_base, admin_submission_size, can_enable, opening};
ghost use Rattle.nv_model.specs.Controller.{reg_read, reg_write, register, size_fits, with_completion};
ghost use Rattle.nv_model.specs.Queue.{new_completion};

/// Completions.
#[tactic(none)]
pub fn completions()
    ensures all_but_the_phase { status_of (replicate 12 0 ++ 0xfe ∷ 0xff ∷ 0x02 ∷ 0xfb ∷ []) ≡ record { sct = 5; sc = 0x81; dnr = true } }
    ensures all_but_dnr { status_of (replicate 12 0 ++ 0x01 ∷ 0x00 ∷ 0xfd ∷ 0x74 ∷ []) ≡ record { sct = 2; sc = 0x7e; dnr = false } }
    ensures phases { map phase_of ((replicate 12 0 ++ 0xfe ∷ 0xff ∷ 0x02 ∷ 0xfb ∷ []) ∷ (replicate 12 0 ++ 0x01 ∷ 0x00 ∷ 0xfd ∷ 0x74 ∷ []) ∷ []) ≡ 0 ∷ 1 ∷ [] }
    ensures identifiers { map completed_cid ((replicate 12 0 ++ 0xfe ∷ 0xff ∷ 0x02 ∷ 0xfb ∷ []) ∷ (replicate 12 0 ++ 0x01 ∷ 0x00 ∷ 0xfd ∷ 0x74 ∷ []) ∷ []) ≡ 0xfffe ∷ 1 ∷ [] }
{}

/// Commands.
#[tactic(none)]
pub fn submissions()
    ensures first_dwords { map (λ field. field (range_with_len 0x80 64)) (opcode_of ∷ fuse_of ∷ psdt_of ∷ cid_of ∷ nsid_of ∷ []) ≡ 0x80 ∷ 1 ∷ 2 ∷ 0x8382 ∷ 0x87868584 ∷ [] }
    ensures pointers { map (λ field. field (range_with_len 0x80 64)) (prp1_of ∷ prp2_of ∷ slba_of ∷ []) ≡ 0x9f9e9d9c9b9a9998 ∷ 0xa7a6a5a4a3a2a1a0 ∷ 0xafaeadacabaaa9a8 ∷ [] }
    ensures descriptor { sgl_of (range_with_len 0x80 64) ≡ range_with_len 0x98 16 }
    ensures last_dwords { map (λ field. field (range_with_len 0x80 64)) (nlb_of ∷ fua_of ∷ nr_of ∷ deallocate_of ∷ []) ≡ 0xb1b0 ∷ 0 ∷ 0xa8 ∷ 1 ∷ [] }
    ensures other_bits { map (λ field. field (range_with_len 0x42 64)) (fuse_of ∷ psdt_of ∷ fua_of ∷ deallocate_of ∷ []) ≡ 3 ∷ 1 ∷ 1 ∷ 1 ∷ [] }
    ensures no_bits { map (λ field. field (range_with_len 0 64)) (fuse_of ∷ psdt_of ∷ fua_of ∷ deallocate_of ∷ []) ≡ 1 ∷ 0 ∷ 0 ∷ 1 ∷ [] }
    ensures opcodes { map io_opcode (range_with_len 0 11) ≡ Some opcode.Flush ∷ Some opcode.Write ∷ Some opcode.Read ∷ None ∷ None ∷ Some opcode.Compare ∷ None ∷ None
        ∷ Some opcode.WriteZeroes ∷ Some opcode.DatasetManagement ∷ None ∷ [] }
    ensures admin_opcodes { map admin_opcode (range_with_len 0 14) ≡ Some asked.DeleteIoSubmissionQueue ∷ Some asked.CreateIoSubmissionQueue ∷ Some asked.GetLogPage ∷ None
        ∷ Some asked.DeleteIoCompletionQueue ∷ Some asked.CreateIoCompletionQueue ∷ Some asked.Identify ∷ None ∷ Some asked.Abort ∷ Some asked.SetFeatures
        ∷ Some asked.GetFeatures ∷ None ∷ Some asked.AsynchronousEventRequest ∷ None ∷ [] }
    ensures data_pointers { map data_pointer (range_with_len 0 4) ≡ pointer.Prp ∷ pointer.Sgl ∷ pointer.Sgl ∷ pointer.Reserved ∷ [] }
{}

/// Descriptors and ranges.
#[tactic(none)]
pub fn lists()
    ensures descriptor { map (λ field. field (range_with_len 0x81 16)) (address_of ∷ length_of ∷ []) ≡ 0x8887868584838281 ∷ 0x8c8b8a89 ∷ [] }
    ensures kinds { map (λ last. kind_of (replicate 15 0xff ++ last ∷ [])) (0x00 ∷ 0x10 ∷ 0x20 ∷ 0x30 ∷ 0x40 ∷ 0x50 ∷ 0xf0 ∷ [])
        ≡ Some kind.DataBlock ∷ Some kind.BitBucket ∷ Some kind.Segment ∷ Some kind.LastSegment ∷ None ∷ None ∷ None ∷ [] }
    ensures subtypes { map (λ last. kind_of (replicate 15 0 ++ last ∷ [])) (0x01 ∷ 0x12 ∷ 0x24 ∷ 0x38 ∷ 0x0f ∷ []) ≡ replicate 5 None }
    ensures range { map (λ field. field (range_with_len 0x81 16)) (attributes_of ∷ blocks_of ∷ start_of ∷ []) ≡ 0x84838281 ∷ 0x88878685 ∷ 0x908f8e8d8c8b8a89 ∷ [] }
{}

/// Status codes, with their types.
#[tactic(none)]
pub fn codes()
    ensures generic { map (λ c. sct_of c ∷ sc_of c ∷ []) (code.Success ∷ code.InvalidOpcode ∷ code.InvalidField ∷ code.DataTransferError ∷ code.InternalError ∷ code.InvalidNamespace
        ∷ code.CommandSequenceError ∷ code.InvalidSglSegment ∷ code.InvalidSglCount ∷ code.SglLengthInvalid ∷ code.SglTypeInvalid ∷ code.PrpOffsetInvalid ∷ code.LbaOutOfRange ∷ [])
        ≡ map (λ sc. 0 ∷ sc ∷ []) (0x00 ∷ 0x01 ∷ 0x02 ∷ 0x04 ∷ 0x06 ∷ 0x0b ∷ 0x0c ∷ 0x0d ∷ 0x0e ∷ 0x0f ∷ 0x11 ∷ 0x13 ∷ 0x80 ∷ []) }
    ensures specific { map (λ c. sct_of c ∷ sc_of c ∷ []) (code.CompletionQueueInvalid ∷ code.InvalidQueueIdentifier ∷ code.InvalidQueueSize ∷ code.EventLimitExceeded ∷ code.InvalidLogPage
        ∷ code.InvalidQueueDeletion ∷ []) ≡ map (λ sc. 1 ∷ sc ∷ []) (0x00 ∷ 0x01 ∷ 0x02 ∷ 0x05 ∷ 0x09 ∷ 0x0c ∷ []) }
    ensures of_media { map done_with (code.UnrecoveredReadError ∷ code.CompareFailure ∷ []) ≡ record { sct = 2; sc = 0x81; dnr = false } ∷ record { sct = 2; sc = 0x85; dnr = false } ∷ [] }
{}

/// Registers.
#[tactic(none)]
pub fn registers()
    ensures read_one_by_one { map (register (record opening { aqa = 0x00030007; asq_low = 0x10000; asq_high = 1; acq_low = 0x20000; acq_high = 2; failed = true }))
        (0x00 ∷ 0x04 ∷ 0x08 ∷ 0x0c ∷ 0x10 ∷ 0x14 ∷ 0x18 ∷ 0x1c ∷ 0x20 ∷ 0x24 ∷ 0x28 ∷ 0x2c ∷ 0x30 ∷ 0x34 ∷ 0x38 ∷ 0x1000 ∷ [])
        ≡ 0x010103ff ∷ 0x20 ∷ 0x00020000 ∷ 0 ∷ 0 ∷ 0 ∷ 0 ∷ 2 ∷ 0 ∷ 0x00030007 ∷ 0x10000 ∷ 1 ∷ 0x20000 ∷ 2 ∷ 0 ∷ 0 ∷ [] }
    ensures read_beside_them { map (reg_read (record opening { ready = true })) (0x1b ∷ 0x1c ∷ 0x1d ∷ 0x1e ∷ 0x1f ∷ []) ≡ None ∷ Some 1 ∷ None ∷ None ∷ None ∷ [] }
    ensures written_one_by_one { map (λ offset. reg_write (λ _. false) opening offset 7) (0x24 ∷ 0x28 ∷ 0x2c ∷ 0x30 ∷ 0x34 ∷ 0x38 ∷ [])
        ≡ Some (record opening { aqa = 7 }) ∷ Some (record opening { asq_low = 7 }) ∷ Some (record opening { asq_high = 7 }) ∷ Some (record opening { acq_low = 7 })
        ∷ Some (record opening { acq_high = 7 }) ∷ None ∷ [] }
    ensures sizes { map (λ aqa. admin_submission_size (record opening { aqa = aqa }) ∷ admin_completion_size (record opening { aqa = aqa }) ∷ []) (0xffffffff ∷ 0xf001f000 ∷ 0x0800f7ff ∷ [])
        ≡ (4096 ∷ 4096 ∷ []) ∷ (1 ∷ 2 ∷ []) ∷ (2048 ∷ 2049 ∷ []) ∷ [] }
    ensures bases { map (λ base. base (record opening { asq_low = 0x5000; asq_high = 3; acq_low = 0x6000; acq_high = 4 })) (admin_submission_base ∷ admin_completion_base ∷ [])
        ≡ 0x300005000 ∷ 0x400006000 ∷ [] }
    ensures sizes_that_fit { map size_fits (1 ∷ 2 ∷ 1024 ∷ 1025 ∷ []) ≡ false ∷ true ∷ true ∷ false ∷ [] }
    ensures sizes_that_enable { map (λ aqa. can_enable (λ _. true) (record opening { aqa = aqa })) (0x00010001 ∷ 0x00010000 ∷ 0x00000001 ∷ 0x00010400 ∷ 0x04000001 ∷ [])
        ≡ true ∷ false ∷ false ∷ false ∷ false ∷ [] }
    ensures places_that_enable { map (λ at. can_enable (λ addr. nat_lt addr 0x20000) (record opening { aqa = 0x00400040; asq_low = at; acq_low = 0x10000 }))
        (0x1e000 ∷ 0x1f000 ∷ 0x20000 ∷ 0x10800 ∷ []) ≡ true ∷ false ∷ false ∷ false ∷ [] }
    ensures completions_that_enable { map (λ at. can_enable (λ addr. nat_lt addr 0x20000) (record opening { aqa = 0x00400040; asq_low = 0x10000; acq_low = at }))
        (0x1f000 ∷ 0x20000 ∷ 0x10800 ∷ []) ≡ true ∷ false ∷ false ∷ [] }
{}

/// Admin commands.
#[tactic(none)]
pub fn admins()
    ensures fields { map (λ field. field (range_with_len 0x80 64)) (qid ∷ qsize ∷ contiguous ∷ completion_id ∷ selector ∷ []) ≡ 0xa9a8 ∷ 0xabaa ∷ 0 ∷ 0xafae ∷ 0xa8 ∷ [] }
    ensures an_odd_byte { contiguous (range_with_len 0x81 64) ≡ 1 }
    ensures completion_queues { map (λ number. first_failing (completes_to_checks (with_completion opening 8 (Some (new_completion 0 2 None))) (replicate 44 0 ++ 1 ∷ 0 ∷ number ∷ 0 ∷ replicate 16 0)))
        (0 ∷ 7 ∷ 8 ∷ 9 ∷ []) ≡ Some code.InvalidQueueIdentifier ∷ Some code.CompletionQueueInvalid ∷ None ∷ Some code.InvalidQueueIdentifier ∷ [] }
    ensures a_large_namespace { map (λ at. slice_range (namespace_structure 0x8877665544332211) at (at + 8)) (0 ∷ 8 ∷ 16 ∷ [])
        ≡ replicate 3 (0x11 ∷ 0x22 ∷ 0x33 ∷ 0x44 ∷ 0x55 ∷ 0x66 ∷ 0x77 ∷ 0x88 ∷ []) }
{}
