//! Which plan a verdict has.

ghost use Rattle.std.specs.Prelude.{◌≡◌, ℕ, ◌<◌, ◌+◌, ◌%◌, ◌⊎◌, Bool, true, false, List, [], ◌∷◌};
ghost use Rattle.nv_entry.specs.declared.opcode.IoOpcode.{IoOpcode};
ghost use Rattle.nv_entry.specs.declared.opcode.IoOpcode.TheVariants as opcode;
ghost use Rattle.nv_entry.specs.Status.{StatusField};
ghost use Rattle.nv_mem.specs.declared.region.Region.{Region};
ghost use Rattle.nv_model.specs.Judge.{Go, Refuse, Work, has_blocks, has_buffer};
ghost use Rattle.nv_prp.specs.Fits.{places_fit};
ghost use Rattle.nv_world_model.specs.Plan.{Answer, Bounced, Direct, NoData, Plan, plan_of};

/// A refused command is answered.
pub fn a_refusal_is_answered()
    ensures { (regions : List Region) (st : StatusField) → plan_of regions (Refuse st) ≡ Answer st }
{}

/// Flush and Write Zeroes move no data.
pub fn commands_without_a_buffer_move_no_data()
    ensures flush { (regions : List Region) (work : Work) → work.opcode ≡ opcode.Flush → plan_of regions (Go work) ≡ NoData work }
    ensures write_zeroes { (regions : List Region) (work : Work) → work.opcode ≡ opcode.WriteZeroes → plan_of regions (Go work) ≡ NoData work }
    ensures exactly { (regions : List Region) (work : Work) → has_buffer work.opcode ≡ false → plan_of regions (Go work) ≡ NoData work }
{}

/// A transfer of blocks is direct exactly where its places fit, and a Dataset Management never is.
pub fn transfers_are_direct_where_they_fit()
    ensures fits { (regions : List Region) (work : Work) → has_buffer work.opcode ≡ true → has_blocks work.opcode ≡ true →
        places_fit regions work.pieces ≡ true → plan_of regions (Go work) ≡ Direct work }
    ensures fits_not { (regions : List Region) (work : Work) → has_buffer work.opcode ≡ true →
        places_fit regions work.pieces ≡ false → plan_of regions (Go work) ≡ Bounced work }
    ensures dataset_management { (regions : List Region) (work : Work) → work.opcode ≡ opcode.DatasetManagement →
        plan_of regions (Go work) ≡ Bounced work }
{}
