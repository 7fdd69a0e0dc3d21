//! Carrying one command out on the private controller.
ghost use Rattle.std.specs.Prelude.{◌≡◌, ℕ, Bool, [], List, map, false, length, Some};
ghost use Rattle.std.specs.List.{range_with_len};
ghost use Rattle.nv_entry.specs.Status.{StatusField};
ghost use Rattle.nv_model.specs.Judge.{LeaveBlock, Work, WorkUnit, Go, Refuse, clear_units, is_read, move_units};
ghost use Rattle.nv_model.specs.Private.{Moved, Private, Shape, Taken, Ended, Unjudged, moved_status, run_of, verdict_in};
ghost use Rattle.nv_model.specs.Carried.{units_moved};
ghost use Rattle.nv_model.specs.Carrying.{IsCarriedOut, all_moved, cleared, judged_then_moved, this_far, units_from, unmoved};
ghost use Rattle.nv_model.specs.Laws.{HasMoved, IsOrderOf};

/// Judging a command that goes, and moving its units in order, is a run. After it the memory, the disk and the marks are those that its units leave
/// in order.
pub fn units_move_in_order()
    ensures { (shape : Shape) (p : Private) (name : ℕ) (t : Taken) (work : Work) →
        p.bag name ≡ Some t → t.progress ≡ Unjudged → verdict_in shape p.memory t.entry ≡ Go work →
        run_of shape (judged_then_moved name (length work.units)) p ≡ Some (record { state = all_moved name t work p; seen = [] }) }
{}

/// Judging a command that is refused is a run, after which the command has ended and nothing else has changed.
pub fn refusal_ends_it()
    ensures { (shape : Shape) (p : Private) (name : ℕ) (t : Taken) (st : StatusField) →
        p.bag name ≡ Some t → t.progress ≡ Unjudged → verdict_in shape p.memory t.entry ≡ Refuse st →
        run_of shape (judged_then_moved name 0) p ≡ Some (record { state = this_far name t (Ended st) p; seen = [] }) }
{}

/// A command that goes is carried out by judging it and moving its units in order; one that is refused, by judging it.
pub fn carries_out()
    ensures moved { (shape : Shape) (p : Private) (name : ℕ) (t : Taken) (work : Work) →
        p.bag name ≡ Some t → t.progress ≡ Unjudged → verdict_in shape p.memory t.entry ≡ Go work →
        IsCarriedOut shape p name t (moved_status (units_moved work.units work (unmoved p)).differed) (all_moved name t work p) }
    ensures refused { (shape : Shape) (p : Private) (name : ℕ) (t : Taken) (st : StatusField) →
        p.bag name ≡ Some t → t.progress ≡ Unjudged → verdict_in shape p.memory t.entry ≡ Refuse st →
        IsCarriedOut shape p name t st (this_far name t (Ended st) p) }
{}

/// And in no other way: a command that is refused ends with that status and changes nothing else, and one that goes ends where each
/// of its units has moved once, in some order.
pub fn nothing_else_carries_out()
    ensures refused { (shape : Shape) (p q : Private) (name : ℕ) (t : Taken) (st told : StatusField) →
        IsCarriedOut shape p name t st q → verdict_in shape p.memory t.entry ≡ Refuse told → (st ≡ told) × (q ≡ this_far name t (Ended told) p) }
    ensures moved { (shape : Shape) (p q : Private) (name : ℕ) (t : Taken) (work : Work) (st : StatusField) →
        IsCarriedOut shape p name t st q → verdict_in shape p.memory t.entry ≡ Go work → HasMoved p name t work st q }
{}

/// The order of the units makes no difference but to a Read, whose buffer may name a byte twice.
pub fn order_matters_to_a_read_alone()
    ensures { (shape : Shape) (memory : ℕ → ℕ) (entry : List ℕ) (work : Work) (order : List WorkUnit) (m : Moved) →
        verdict_in shape memory entry ≡ Go work → is_read work.opcode ≡ false → IsOrderOf order work.units →
        units_moved order work m ≡ units_moved work.units work m }
{}

/// What a unit does depends on the command, its buffer and its FUA bit alone, not on the other units.
pub fn a_unit_depends_on_no_other()
    ensures { (units others : List WorkUnit) (work : Work) (m : Moved) →
        units_moved units (record work { units = others }) m ≡ units_moved units work m }
{}

/// The units of a transfer are those that move its blocks from the first on.
pub fn a_transfer_moves_block_after_block()
    ensures { (slba count : ℕ) → move_units (range_with_len slba count) ≡ units_from 0 slba count }
{}

/// Units that clear blocks clear one after another, and units that leave blocks leave all as it is.
pub fn cleared_and_left_blocks()
    ensures cleared { (mark : Bool) (lbas : List ℕ) (work : Work) (m : Moved) →
        units_moved (clear_units mark lbas) work m ≡ cleared lbas mark m }
    ensures left { (lbas : List ℕ) (work : Work) (m : Moved) → units_moved (map LeaveBlock lbas) work m ≡ m }
{}
