//! A lane's tags, by their point, by their guest and by the queue that their commands were taken from.

ghost use Rattle.std.specs.Prelude.{◌≡◌, [], ◌∷◌, Some, None, false, true, map};
ghost use Rattle.nv_core.specs.FullQueues.{from_in, is_from, origin_in};
ghost use Rattle.nv_core.specs.Held.{held_in, is_of};
ghost use Rattle.nv_core.specs.Tags.{ended_in, flying_in, is_ended, is_flying, is_taken, taken_in, those_in, unended, untaken};
ghost use Rattle.nv_entry.specs.StatusCode.{done_with};
ghost use Rattle.nv_entry.specs.declared.status_code.StatusCode.TheVariants.{Success};
ghost use Rattle.nv_examples_host.specs.Scenes.{busy_lane, command_of, flying, nine_tags};
ghost use Rattle.nv_model.specs.declared.reply.Reply.TheVariants as reply;
ghost use Rattle.nv_world_model.specs.World.{Ended, Free, InDevice, Taken, opening_lane};

/// Points.
#[tactic(none)]
pub fn points()
    ensures taken { taken_in (Some busy_lane) ≡ 0 ∷ 4 ∷ 5 ∷ [] }
    ensures flying { flying_in (Some busy_lane) ≡ 1 ∷ 6 ∷ 7 ∷ [] }
    ensures ended { ended_in (Some busy_lane) ≡ 2 ∷ 8 ∷ [] }
    ensures none_of_an_idle_lane { taken_in (Some opening_lane) ≡ [] }
    // Where there is no such lane.
    ensures none_without_a_lane { those_in is_taken None ≡ [] }
    ensures of_each_tag { map is_taken nine_tags ≡ true ∷ false ∷ false ∷ false ∷ true ∷ true ∷ false ∷ false ∷ false ∷ [] }
    ensures that_ended { map is_ended nine_tags ≡ false ∷ false ∷ true ∷ false ∷ false ∷ false ∷ false ∷ false ∷ true ∷ [] }
    ensures no_tag_flies { is_flying None ≡ false }
{}

/// How many tags a guest has.
#[tactic(none)]
pub fn held()
    ensures the_first { held_in 0 (Some busy_lane) ≡ 3 }
    ensures the_second { held_in 1 (Some busy_lane) ≡ 5 }
    ensures another { held_in 2 (Some busy_lane) ≡ 0 }
    // Free tags are nobody's, also not the first guest's.
    ensures free_ones { held_in 0 (Some opening_lane) ≡ 0 }
    ensures no_lane { held_in 0 None ≡ 0 }
    ensures each_of_the_first { map (is_of 0) nine_tags ≡ true ∷ true ∷ true ∷ false ∷ false ∷ false ∷ false ∷ false ∷ false ∷ [] }
{}

/// Where commands were taken from.
#[tactic(none)]
pub fn origins()
    // Queue 1 of both guests has commands in this lane, and queue 2 too.
    ensures first_by_queue_1 { from_in 0 1 busy_lane ≡ 0 ∷ 2 ∷ [] }
    ensures first_by_queue_2 { from_in 0 2 busy_lane ≡ 1 ∷ [] }
    ensures second_by_queue_1 { from_in 1 1 busy_lane ≡ 4 ∷ 5 ∷ 8 ∷ [] }
    ensures second_by_queue_2 { from_in 1 2 busy_lane ≡ 6 ∷ 7 ∷ [] }
    ensures by_no_queue { from_in 0 3 busy_lane ≡ [] }
    ensures by_the_admin_queue { from_in 0 0 busy_lane ≡ [] }
    ensures of_a_free_tag { is_from 0 0 Free ≡ false }
    ensures of_one_in_flight { origin_in (Some (flying 1 2 6 InDevice)) ≡ Some (record { guest = 1; queue = 2 }) }
    ensures of_one_that_waits { origin_in (Some (Taken (command_of 0 3 5) [])) ≡ Some (record { guest = 0; queue = 3 }) }
    ensures of_one_that_has_ended { origin_in (Some (Ended (command_of 1 4 8) (done_with Success) None)) ≡ Some (record { guest = 1; queue = 4 }) }
    ensures of_no_command { origin_in (Some Free) ≡ None }
    ensures of_no_tag { origin_in None ≡ None }
{}

/// How an event is answered that wants a command at another point.
#[tactic(none)]
pub fn refusals()
    ensures one_that_waits { untaken 4 (Some (Taken (command_of 1 1 4) [])) ≡ None }
    ensures by_another_tag { untaken 5 (Some (Taken (command_of 1 1 4) [])) ≡ Some reply.Stale }
    ensures by_a_lower_tag { untaken 3 (Some (Taken (command_of 1 1 4) [])) ≡ Some reply.Stale }
    ensures a_free_tag { untaken 3 (Some Free) ≡ Some reply.Stale }
    ensures one_in_flight { untaken 1 (Some (flying 0 2 1 InDevice)) ≡ Some reply.Stale }
    ensures one_that_has_ended { untaken 8 (Some (Ended (command_of 1 1 8) (done_with Success) None)) ≡ Some reply.Stale }
    ensures no_tag { untaken 99 None ≡ Some reply.Ignored }
    ensures ended { unended 8 (Some (Ended (command_of 1 1 8) (done_with Success) None)) ≡ None }
    ensures ended_by_another_tag { unended 9 (Some (Ended (command_of 1 1 8) (done_with Success) None)) ≡ Some reply.Stale }
    ensures that_waits_yet { unended 4 (Some (Taken (command_of 1 1 4) [])) ≡ Some reply.Stale }
    ensures that_flies_yet { unended 1 (Some (flying 0 2 1 InDevice)) ≡ Some reply.Stale }
    ensures that_is_free { unended 3 (Some Free) ≡ Some reply.Stale }
    ensures that_is_not_there { unended 99 None ≡ Some reply.Ignored }
{}
