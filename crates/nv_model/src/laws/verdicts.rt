//! What each verdict that goes says, whatever the memory holds.
ghost use Rattle.std.specs.Prelude.{◌≡◌, ℕ, ◌+◌, ◌<◌, Bool, true, false, if◌then◌else◌, List, [], ◌∷◌, length, take, sum_by, All, Some, slice_get};
ghost use Rattle.std.specs.List.{list_all};
ghost use Rattle.nv_entry.specs.Opcode.{io_opcode};
ghost use Rattle.nv_entry.specs.Range.{blocks_of, start_of};
ghost use Rattle.nv_entry.specs.Submission.{opcode_of, slba_of};
ghost use Rattle.nv_mem.specs.Places.{places_of, total_len};
ghost use Rattle.nv_model.specs.Judge.{Work, Transfer, Clear, Manage, Keep, MoveBlock, ClearBlock, LeaveBlock, KeepAll, Go};
ghost use Rattle.nv_model.specs.Judge.{count_of, deallocates, form_of, is_fua, range_count_of, range_fits, range_units, transfer_len};
ghost use Rattle.nv_model.specs.Private.{Shape, verdict_in};
ghost use Rattle.nv_model.specs.Laws.{IsMappedPiece, IsMappedPlace, IsUnitWithin};

/// The work is that of the command's opcode.
pub fn work_is_the_commands()
    ensures { (shape : Shape) (memory : ℕ → ℕ) (entry : List ℕ) (work : Work) →
        verdict_in shape memory entry ≡ Go work → io_opcode (opcode_of entry) ≡ Some work.opcode }
{}

/// Each run of the buffer is mapped wholly, and so each of its places is a mapped address or a bucket.
pub fn buffer_is_mapped()
    ensures pieces { (shape : Shape) (memory : ℕ → ℕ) (entry : List ℕ) (work : Work) →
        verdict_in shape memory entry ≡ Go work → All (IsMappedPiece shape.mapped) work.pieces }
    ensures places { (shape : Shape) (memory : ℕ → ℕ) (entry : List ℕ) (work : Work) →
        verdict_in shape memory entry ≡ Go work → All (IsMappedPlace shape.mapped) (places_of work.pieces) }
{}

/// The buffer has the transfer's length.
pub fn buffer_has_the_transfers_length()
    ensures { (shape : Shape) (memory : ℕ → ℕ) (entry : List ℕ) (work : Work) →
        verdict_in shape memory entry ≡ Go work → total_len work.pieces ≡ transfer_len work.opcode entry }
{}

/// Each block of a unit lies in the namespace.
pub fn units_lie_in_the_namespace()
    ensures { (shape : Shape) (memory : ℕ → ℕ) (entry : List ℕ) (work : Work) →
        verdict_in shape memory entry ≡ Go work → All (IsUnitWithin shape.blocks) work.units }
{}

/// A Read, Write or Compare has one unit for each block of its range, in order, and each moves that block.
pub fn a_transfer_moves_each_block()
    ensures count { (shape : Shape) (memory : ℕ → ℕ) (entry : List ℕ) (work : Work) (dest : Bool) →
        verdict_in shape memory entry ≡ Go work → form_of work.opcode ≡ Transfer dest → length work.units ≡ count_of entry }
    ensures each { (shape : Shape) (memory : ℕ → ℕ) (entry : List ℕ) (work : Work) (dest : Bool) (i : ℕ) →
        verdict_in shape memory entry ≡ Go work → form_of work.opcode ≡ Transfer dest → i < count_of entry →
        slice_get work.units i ≡ Some (MoveBlock i (slba_of entry + i)) }
{}

/// A Write Zeroes has one unit for each block of its range, in order, which clears it: it is kept where the FUA bit is set.
pub fn write_zeroes_clears_each_block()
    ensures count { (shape : Shape) (memory : ℕ → ℕ) (entry : List ℕ) (work : Work) →
        verdict_in shape memory entry ≡ Go work → form_of work.opcode ≡ Clear → length work.units ≡ count_of entry }
    ensures each { (shape : Shape) (memory : ℕ → ℕ) (entry : List ℕ) (work : Work) (i : ℕ) →
        verdict_in shape memory entry ≡ Go work → form_of work.opcode ≡ Clear → i < count_of entry →
        slice_get work.units i ≡ Some (ClearBlock (slba_of entry + i) (is_fua entry)) }
{}

/// A Flush has one unit, which keeps all blocks of the namespace.
pub fn a_flush_keeps_all_blocks()
    ensures { (shape : Shape) (memory : ℕ → ℕ) (entry : List ℕ) (work : Work) →
        verdict_in shape memory entry ≡ Go work → form_of work.opcode ≡ Keep → work.units ≡ KeepAll shape.blocks ∷ [] }
{}

/// A Dataset Management has the units of its ranges, one for each of their blocks: there are as many ranges as it says, and each lies in
/// the namespace.
pub fn dataset_management_has_the_units_of_its_ranges()
    ensures { (shape : Shape) (memory : ℕ → ℕ) (entry : List ℕ) (work : Work) →
        verdict_in shape memory entry ≡ Go work → form_of work.opcode ≡ Manage →
        (length work.ranges ≡ range_count_of entry) × ((list_all (range_fits shape.blocks) work.ranges ≡ true)
        × (work.units ≡ range_units (deallocates entry) work.ranges)) }
{}

/// A Dataset Management has one unit for each block of each of its ranges, range by range, and in the order of a range's blocks. Where the
/// command deallocates, the block becomes zeros and is not kept; else it stays as it is.
pub fn dataset_management_has_a_unit_for_each_block()
    ensures count { (shape : Shape) (memory : ℕ → ℕ) (entry : List ℕ) (work : Work) →
        verdict_in shape memory entry ≡ Go work → form_of work.opcode ≡ Manage →
        length work.units ≡ sum_by blocks_of work.ranges }
    ensures each { (shape : Shape) (memory : ℕ → ℕ) (entry : List ℕ) (work : Work) (k i : ℕ) (range : List ℕ) →
        verdict_in shape memory entry ≡ Go work → form_of work.opcode ≡ Manage →
        slice_get work.ranges k ≡ Some range → i < blocks_of range →
        slice_get work.units (sum_by blocks_of (take k work.ranges) + i)
        ≡ Some (if deallocates entry then ClearBlock (start_of range + i) false else LeaveBlock (start_of range + i)) }
{}
