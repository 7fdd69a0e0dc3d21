//! What becomes of tags as a lane is closed, and a world without the places of parts.

ghost use Rattle.std.specs.Prelude.{◌≡◌, [], ◌∷◌, Some, None, false, length, map, slice_get};
ghost use Rattle.nv_core.specs.Front.{with_side};
ghost use Rattle.nv_laws_sound.specs.Side.{opening_side, rung_with, tails_of};
ghost use Rattle.nv_entry.specs.StatusCode.{done_with};
ghost use Rattle.nv_entry.specs.declared.status_code.StatusCode.TheVariants.{InternalError, Success};
ghost use Rattle.nv_examples_host.specs.Scenes.{command_of, flying, given, part, reading, side, world_of};
ghost use Rattle.nv_host.specs.Closing.{failed, given_up, over};
ghost use Rattle.nv_host.specs.Ending.{failed_at, given_up_by};
ghost use Rattle.nv_laws_sound.specs.Unplaced.{after_unplaced, unplaced, unplaced_lane, unplaced_tag};
ghost use Rattle.nv_model.specs.declared.reply.Reply.TheVariants as reply;
ghost use Rattle.nv_world_model.specs.Device.{opening_device_lane};
ghost use Rattle.nv_world_model.specs.Rows.{controller_with};
ghost use Rattle.nv_world_model.specs.World.{Answered, Ended, Free, InDevice, Queued, Taken, opening_lane};

/// Tags of a lane that is closed.
#[tactic(none)]
pub fn closed()
    ensures handed_on { over 1 (flying 0 2 1 InDevice) ≡ Ended (command_of 0 2 1) (done_with InternalError) (Some part) }
    ensures handed_on_in_the_ring { failed (flying 1 2 6 (Queued 3)) ≡ Ended (command_of 1 2 6) (done_with InternalError) (Some part) }
    // A command that waits for its plan ends with Internal Error in the tag that it goes by alone.
    ensures waiting { over 4 (Taken (command_of 1 1 4) []) ≡ Ended (command_of 1 1 4) (done_with InternalError) None }
    ensures waiting_further_on { over 5 (Taken (command_of 1 1 4) []) ≡ Ended (command_of 1 1 4) (done_with Success) None }
    ensures waiting_before_it { given_up 3 (Taken (command_of 1 1 4) []) ≡ Ended (command_of 1 1 4) (done_with Success) None }
    ensures ended { over 2 (Ended (command_of 0 1 2) (done_with Success) (Some part)) ≡ Ended (command_of 0 1 2) (done_with Success) (Some part) }
    ensures ended_without_a_part { over 8 (Ended (command_of 0 1 8) (done_with Success) None) ≡ Ended (command_of 0 1 8) (done_with Success) None }
    ensures free { over 3 Free ≡ Free }
    // One of both alone leaves the other's.
    ensures a_failure_of_one_that_waits { failed (Taken (command_of 1 1 4) []) ≡ Taken (command_of 1 1 4) [] }
    ensures giving_up_one_in_flight { given_up 6 (flying 1 2 6 (Queued 3)) ≡ flying 1 2 6 (Queued 3) }
{}

/// The same, tag by tag.
#[tactic(none)]
pub fn steps()
    ensures that_one_fails { failed_at 1 1 (flying 0 2 1 InDevice) ≡ Ended (command_of 0 2 1) (done_with InternalError) (Some part) }
    ensures another_does_not { failed_at 1 7 (flying 1 2 6 (Answered 2)) ≡ flying 1 2 6 (Answered 2) }
    ensures nor_one_before_it { failed_at 7 1 (flying 0 2 1 InDevice) ≡ flying 0 2 1 InDevice }
    ensures that_one_is_given_up { given_up_by 4 5 (Taken (command_of 1 1 4) []) ≡ Ended (command_of 1 1 4) (done_with Success) None }
    ensures in_the_tag_that_it_goes_by { given_up_by 4 4 (Taken (command_of 1 1 4) []) ≡ Ended (command_of 1 1 4) (done_with InternalError) None }
    ensures another_is_not { given_up_by 0 4 (Taken (command_of 1 1 4) []) ≡ Taken (command_of 1 1 4) [] }
    ensures nor_one_that_goes_by_a_lower_tag { given_up_by 5 4 (Taken (command_of 1 1 4) []) ≡ Taken (command_of 1 1 4) [] }
    ensures nor_one_in_flight { given_up_by 6 6 (flying 1 2 6 (Queued 3)) ≡ flying 1 2 6 (Queued 3) }
    ensures nor_one_that_has_ended { given_up_by 2 2 (Ended (command_of 0 1 2) (done_with Success) None) ≡ Ended (command_of 0 1 2) (done_with Success) None }
    ensures nor_a_free_one { given_up_by 3 3 Free ≡ Free }
{}

/// Places.
#[tactic(none)]
pub fn places()
    ensures of_one_in_the_ring { unplaced_tag (flying 1 2 6 (Queued 3)) ≡ flying 1 2 6 InDevice }
    ensures of_one_that_is_answered { unplaced_tag (flying 1 2 6 (Answered 2)) ≡ flying 1 2 6 InDevice }
    ensures of_one_that_waits { unplaced_tag (Taken (command_of 1 1 4) []) ≡ Taken (command_of 1 1 4) [] }
    ensures of_one_that_has_ended { unplaced_tag (Ended (command_of 0 1 2) (done_with Success) None) ≡ Ended (command_of 0 1 2) (done_with Success) None }
    ensures of_a_free_tag { unplaced_tag Free ≡ Free }
    ensures of_a_lane { slice_get (unplaced_lane (reading 7 false)).tags 7 ≡ Some (flying 1 2 6 InDevice) }
    ensures its_head_stays { (unplaced_lane (reading 7 false)).head ≡ 7 }
    ensures its_phase_stays { (unplaced_lane (reading 7 false)).phase ≡ false }
    ensures of_a_world { map (λ l. slice_get l.tags 6) (unplaced (world_of (side []) [])).lanes ≡ Some (flying 1 2 6 InDevice) ∷ Some Free ∷ [] }
    ensures rings_stay { tails_of (unplaced (world_of (side []) [])).device ≡ 5 ∷ 7 ∷ [] }
    ensures a_reply_stays { (after_unplaced (record { world = world_of (side []) []; reply = reply.Busy })).reply ≡ reply.Busy }
{}

/// Sides.
#[tactic(none)]
pub fn sides()
    ensures tails { tails_of (world_of (side []) []).device ≡ 5 ∷ 7 ∷ [] }
    ensures written { tails_of (rung_with (3 ∷ 4 ∷ []) (opening_device_lane ∷ opening_device_lane ∷ [])) ≡ 3 ∷ 4 ∷ [] }
    ensures a_tail_too_few { tails_of (rung_with (3 ∷ []) (opening_device_lane ∷ opening_device_lane ∷ [])) ≡ 3 ∷ 0 ∷ [] }
    ensures a_tail_too_many { tails_of (rung_with (3 ∷ 4 ∷ []) (opening_device_lane ∷ [])) ≡ 3 ∷ [] }
    ensures the_drives_head_stays { map (λ d. d.head) (rung_with (3 ∷ []) (record opening_device_lane { head = 2 } ∷ [])) ≡ 2 ∷ [] }
    // A world with another side and memory keeps its blocks and marks.
    ensures another_tail { tails_of (with_side (record (side []) { tails = 6 ∷ 7 ∷ [] }) [] (world_of (side []) [])).device ≡ 6 ∷ 7 ∷ [] }
    ensures another_byte { (with_side (side []) (7 ∷ []) (world_of (side []) [])).host 0 ≡ 7 }
    ensures another_lane { (with_side (record (side []) { lanes = opening_lane ∷ [] }) [] (world_of (side []) [])).lanes ≡ opening_lane ∷ [] }
    ensures other_controllers { length (with_side (side (controller_with 16 1 ∷ [])) [] (world_of (side []) [])).controllers ≡ 1 }
    ensures the_same_block { (with_side (side []) (7 ∷ []) (world_of (side []) [])).disk 5 0 ≡ 5 }
    ensures at_the_start { (opening_side given.geometry 2).tails ≡ 0 ∷ 0 ∷ [] }
    ensures controllers_at_the_start { length (opening_side given.geometry 1).controllers ≡ 2 }
    ensures lanes_at_the_start { (opening_side given.geometry 2).lanes ≡ opening_lane ∷ opening_lane ∷ [] }
{}
