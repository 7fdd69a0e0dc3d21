//! A command of several parts as its guest's private controller has it: one command, under the name of the lowest tag.

ghost use Rattle.std.specs.Prelude.{◌≡◌, [], ◌∷◌, ◌++◌, None, length};
ghost use Rattle.nv_model.specs.Private.{JudgeStep, MoveStep, PostStep, TakeStep};
ghost use Rattle.nv_world_model.specs.declared.event.Event.TheVariants as event;
ghost use Rattle.nv_world_model.specs.Disciplined.{taken_entries};
ghost use Rattle.nv_world_model.specs.RowsExtents.{behind, ends, in_device, left_of, member, one_command, read_over, steps, steps_of_each};

/// The examples of this module, a clause each.
#[tactic(none)]
pub fn examples()
    // The steps that its events represent: a unit of a part has its number in the whole.
    ensures it_is_taken { steps (event.Take 0 1 0) (one_command (read_over 0x3e00)) ≡ TakeStep 1 0 ∷ [] }
    ensures it_is_judged { behind (event.Take 0 1 0 ∷ []) (one_command (read_over 0x3e00)) (steps (event.Submit 0 0)) ≡ JudgeStep 0 ∷ [] }
    ensures its_units_move { behind in_device (one_command (read_over 0x3e00)) (steps_of_each (event.DevMove 0 0 0 ∷ event.DevMove 0 1 0 ∷ []))
        ≡ (MoveStep 0 0 ∷ []) ∷ (MoveStep 0 1 ∷ []) ∷ [] }
    ensures it_is_completed { behind (in_device ++ ends 0 ++ ends 1) (one_command (read_over 0x3e00)) (steps (event.Post 0 0)) ≡ PostStep 0 ∷ [] }
    // The units that are left, in the whole's order.
    ensures all_are_left { behind (event.Take 0 1 0 ∷ event.Submit 0 0 ∷ []) (one_command (read_over 0x3e00)) (λ w. left_of (member 0 w)) ≡ 0 ∷ 1 ∷ [] }
    ensures the_first_is_left { behind (in_device ++ event.DevMove 0 1 0 ∷ []) (one_command (read_over 0x3e00)) (λ w. left_of (member 0 w)) ≡ 0 ∷ [] }
    ensures the_last_is_left { behind (in_device ++ ends 0) (one_command (read_over 0x3e00)) (λ w. left_of (member 0 w)) ≡ 1 ∷ [] }
    ensures none_is_left { behind (in_device ++ ends 0 ++ ends 1) (one_command (read_over 0x3e00)) (λ w. left_of (member 0 w)) ≡ [] }
    // By its other tag it has no name.
    ensures no_name_by_another_tag { behind in_device (one_command (read_over 0x3e00)) (member 1) ≡ None }
    // Its entry is outstanding once.
    ensures outstanding_once { behind in_device (one_command (read_over 0x3e00)) (λ w. length (taken_entries 0 w)) ≡ 1 }
{}
