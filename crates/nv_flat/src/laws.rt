//! What the theorem of one command says: laws about its definition, as functions that do nothing. Each contract is a law.

ghost use Rattle.std.specs.Prelude.{◌≡◌, [], ◌∷◌, All, Bool, List, None, Some, ℕ, false, length, true};
ghost use Rattle.std.specs.List.{slice_index_or};
ghost use Rattle.nv_entry.specs.Status.{StatusField};
ghost use Rattle.nv_entry.specs.StatusCode.{done_with};
ghost use Rattle.nv_entry.specs.declared.opcode.IoOpcode.TheVariants as opcode;
ghost use Rattle.nv_entry.specs.declared.status_code.StatusCode.{StatusCode};
ghost use Rattle.nv_entry.specs.declared.status_code.StatusCode.TheVariants.{InternalError, Success};
ghost use Rattle.nv_mem.specs.Places.{At, places_of};
ghost use Rattle.nv_model.specs.Judge.{Go, Refuse, Work, WorkUnit, field_refusal, is_read};
ghost use Rattle.nv_model.specs.Private.{Moved, moved_status, verdict_in};
ghost use Rattle.nv_model.specs.Carried.{moved_on, units_moved};
ghost use Rattle.nv_model.specs.Memory.{byte_in};
ghost use Rattle.nv_disk.specs.Flat.{Flat, byte_of_block, moved_of};
ghost use Rattle.nv_model.specs.Laws.{IsAnother, IsElsewhere};
ghost use Rattle.nv_flat.specs.Laws.{HasRun, IsAsLarge, IsMovedInSomeOrder};
ghost use Rattle.nv_flat.specs.One.{IsDone, IsRun, is_plain, shape_of};

use crate::one::One;

/// Every command has a run.
pub fn every_command_has_a_run()
    ensures { (old : Flat) (entry : List ℕ) → length old.kept ≡ length old.disk → HasRun old entry }
{}

/// A command that is refused ends with the refusal's status and changes nothing.
pub fn a_refused_command_changes_nothing()
    ensures { (old new : Flat) (entry : List ℕ) (st refusal : StatusField) →
        verdict_in (shape_of old) (byte_in old.memory) entry ≡ Refuse refusal → IsRun old entry st new →
        (st ≡ refusal) × (moved_of new false ≡ moved_of old false) }
{}

/// A command that goes moves each of its units once, in some order, and its status says whether a Compare differed.
pub fn each_unit_moves_once()
    ensures { (old new : Flat) (entry : List ℕ) (st : StatusField) (work : Work) →
        verdict_in (shape_of old) (byte_in old.memory) entry ≡ Go work → IsRun old entry st new → IsMovedInSomeOrder old work st new }
{}

/// A command of one unit has one outcome: that of its unit.
pub fn one_unit_has_one_outcome()
    ensures { (old new : Flat) (entry : List ℕ) (st : StatusField) (work : Work) (unit : WorkUnit) (behind : Moved) →
        verdict_in (shape_of old) (byte_in old.memory) entry ≡ Go work → work.units ≡ unit ∷ [] →
        behind ≡ moved_on unit work (moved_of old false) → IsRun old entry st new →
        (st ≡ moved_status behind.differed) × (moved_of new behind.differed ≡ behind) }
{}

/// A command that is no Read has one outcome: that of its units in order.
pub fn all_but_a_read_have_one_outcome()
    ensures { (old new : Flat) (entry : List ℕ) (st : StatusField) (work : Work) (behind : Moved) →
        verdict_in (shape_of old) (byte_in old.memory) entry ≡ Go work → is_read work.opcode ≡ false →
        behind ≡ units_moved work.units work (moved_of old false) → IsRun old entry st new →
        (st ≡ moved_status behind.differed) × (moved_of new behind.differed ≡ behind) }
{}

/// A command that goes ends with success, unless it is a Compare.
pub fn only_a_compare_fails()
    ensures { (old new : Flat) (entry : List ℕ) (st : StatusField) (work : Work) →
        verdict_in (shape_of old) (byte_in old.memory) entry ≡ Go work → (work.opcode ≡ opcode.Compare → ⊥) → IsRun old entry st new →
        st ≡ done_with Success }
{}

/// A byte changes only where a Read's buffer names it.
pub fn a_byte_outside_the_buffer_stays()
    ensures named { (old new : Flat) (entry : List ℕ) (st : StatusField) (work : Work) (addr : ℕ) →
        verdict_in (shape_of old) (byte_in old.memory) entry ≡ Go work → All (IsAnother (At addr)) (places_of work.pieces) → IsRun old entry st new →
        byte_in new.memory addr ≡ byte_in old.memory addr }
    ensures not_read { (old new : Flat) (entry : List ℕ) (st : StatusField) (work : Work) →
        verdict_in (shape_of old) (byte_in old.memory) entry ≡ Go work → is_read work.opcode ≡ false → IsRun old entry st new →
        byte_in new.memory ≡ byte_in old.memory }
{}

/// A block changes only where a unit names it, and so does its mark, but for a Flush.
pub fn a_block_of_no_unit_stays()
    ensures { (old new : Flat) (entry : List ℕ) (st : StatusField) (work : Work) (lba : ℕ) →
        verdict_in (shape_of old) (byte_in old.memory) entry ≡ Go work → All (IsElsewhere lba) work.units → IsRun old entry st new →
        (byte_of_block new.disk lba ≡ byte_of_block old.disk lba) × (slice_index_or new.kept lba false ≡ slice_index_or old.kept lba false) }
{}

/// Two controllers of the same sizes are equal where a private controller sees the same of both.
pub fn what_is_seen_is_all()
    ensures { (f g : Flat) → IsAsLarge f g → moved_of f false ≡ moved_of g false → f ≡ g }
{}

/// Every controller carries out the plain commands: each of them ends as a run says.
pub fn a_plain_command_ends_as_a_run<C: One>()
    ensures { (old new : Flat) (entry : List ℕ) (st : StatusField) → is_plain entry ≡ true → IsDone C.built old entry st new → IsRun old entry st new }
{}

/// A command whose fields are refused ends as a run says, whatever a controller carries out.
pub fn a_command_with_refused_fields_ends_as_a_run()
    ensures { (built : List ℕ → Bool) (old new : Flat) (entry : List ℕ) (st : StatusField) (refusal : StatusCode) →
        field_refusal (length old.disk) entry ≡ Some refusal → IsDone built old entry st new → IsRun old entry st new }
{}

/// A command that a controller leaves out, and whose fields are in order, ends with Internal Error and changes nothing.
pub fn a_command_that_is_left_out_changes_nothing()
    ensures { (built : List ℕ → Bool) (old new : Flat) (entry : List ℕ) (st : StatusField) →
        built entry ≡ false → field_refusal (length old.disk) entry ≡ None → IsDone built old entry st new →
        (st ≡ done_with InternalError) × (new ≡ old) }
{}
