//! Which events a host's mediator makes, for whom, and which it does not.

ghost use Rattle.std.specs.Prelude.{◌≡◌, [], ◌∷◌, Some, None, false, true};
ghost use Rattle.nv_entry.specs.StatusCode.{done_with};
ghost use Rattle.nv_entry.specs.declared.status_code.StatusCode.TheVariants.{InternalError};
ghost use Rattle.nv_examples_host.specs.Scenes.{busy_lane, serving};
ghost use Rattle.nv_host.specs.Served.{is_closed, is_offered, is_reap, is_served, is_set};
ghost use Rattle.nv_host.specs.Work.{guest_served, is_allowed, lane_served};
ghost use Rattle.nv_model.specs.declared.act.Act.TheVariants as act;
ghost use Rattle.nv_world_model.specs.World.{opening_lane};
ghost use Rattle.nv_world_model.specs.declared.event.Event.TheVariants as event;

/// Closed lanes.
#[tactic(none)]
pub fn lanes()
    ensures the_first_is_open { is_closed (serving 9 9) 0 ≡ false }
    ensures the_second_was_closed { is_closed (serving 9 9) 1 ≡ true }
    ensures a_third_is_not_there { is_closed (serving 9 9) 2 ≡ false }
    ensures none { is_set None ≡ false }
    ensures nothing_is_taken_for_a_closed_one { is_offered (serving 9 9) (event.Take 0 1 1) ≡ false }
    ensures something_is_for_an_open_one { is_offered (serving 9 9) (event.Take 1 1 0) ≡ true }
    ensures what_was_taken_goes_on { is_offered (serving 9 9) (event.Submit 1 0) ≡ true }
    ensures completions_are_read { is_offered (serving 9 9) (event.Reap 1) ≡ true }
    ensures no_event_of_the_drive { is_offered (serving 9 9) (event.DevTake 0) ≡ false }
{}

/// Events of the drive's, and all others.
#[tactic(none)]
pub fn events()
    ensures acts { is_served (event.Guest 0 (act.Doorbell 0x1008 1)) ≡ true }
    ensures admin { is_served (event.Admin 0) ≡ true }
    ensures takes { is_served (event.Take 0 1 0) ≡ true }
    ensures reads { is_served (event.List 0 0 0x6000 32) ≡ true }
    ensures submits { is_served (event.Submit 0 0) ≡ true }
    ensures gives_up { is_served (event.GiveUp 0 0) ≡ true }
    ensures reaps { is_served (event.Reap 0) ≡ true }
    ensures posts { is_served (event.Post 0 0) ≡ true }
    ensures the_drive_takes { is_served (event.DevTake 0) ≡ false }
    ensures the_drive_moves { is_served (event.DevMove 0 0 0) ≡ false }
    ensures the_drive_posts { is_served (event.DevPost 0 0) ≡ false }
    ensures the_drive_fails { is_served (event.DevFail 0 0 (done_with InternalError)) ≡ false }
    ensures the_drive_keeps { is_served (event.Keep 0) ≡ false }
    ensures a_reap { is_reap (event.Reap 3) ≡ true }
    ensures the_drives_take_is_none { is_reap (event.DevTake 3) ≡ false }
    ensures the_drives_move_is_none { is_reap (event.DevMove 3 0 0) ≡ false }
    ensures the_drives_post_is_none { is_reap (event.DevPost 3 0) ≡ false }
    ensures the_drives_failure_is_none { is_reap (event.DevFail 3 0 (done_with InternalError)) ≡ false }
    ensures the_drives_mark_is_none { is_reap (event.Keep 3) ≡ false }
    ensures a_post_is_none { is_reap (event.Post 3 0) ≡ false }
    ensures a_take_is_none { is_reap (event.Take 0 1 3) ≡ false }
    ensures a_submit_is_none { is_reap (event.Submit 0 3) ≡ false }
    ensures an_act_is_none { is_reap (event.Guest 0 (act.Doorbell 0x1008 1)) ≡ false }
    ensures an_admin_event_is_none { is_reap (event.Admin 0) ≡ false }
    ensures a_list_is_none { is_reap (event.List 0 0 0x6000 32) ≡ false }
    ensures one_given_up_is_none { is_reap (event.GiveUp 0 0) ≡ false }
{}

/// Whose work an event is.
#[tactic(none)]
pub fn owners()
    ensures of_an_admin_command { guest_served (busy_lane ∷ opening_lane ∷ []) (event.Admin 5) ≡ Some 5 }
    ensures of_a_take { guest_served (busy_lane ∷ opening_lane ∷ []) (event.Take 5 1 0) ≡ Some 5 }
    // Of events that name a tag it is the guest of the tag's command.
    ensures of_a_list { guest_served (busy_lane ∷ opening_lane ∷ []) (event.List 0 4 0x6000 32) ≡ Some 1 }
    ensures of_a_submit { guest_served (busy_lane ∷ opening_lane ∷ []) (event.Submit 0 0) ≡ Some 0 }
    ensures of_one_given_up { guest_served (busy_lane ∷ opening_lane ∷ []) (event.GiveUp 0 5) ≡ Some 1 }
    ensures of_a_free_tag { guest_served (busy_lane ∷ opening_lane ∷ []) (event.Submit 0 3) ≡ None }
    ensures of_a_list_of_a_free_tag { guest_served (busy_lane ∷ opening_lane ∷ []) (event.List 0 3 0x6000 32) ≡ None }
    ensures of_another_lane { guest_served (busy_lane ∷ opening_lane ∷ []) (event.Submit 1 0) ≡ None }
    ensures of_a_list_of_another_lane { guest_served (busy_lane ∷ opening_lane ∷ []) (event.List 1 0 0x6000 32) ≡ None }
    ensures of_one_given_up_of_another_lane { guest_served (busy_lane ∷ opening_lane ∷ []) (event.GiveUp 1 0) ≡ None }
    ensures no_guests_is_a_reap { guest_served (busy_lane ∷ opening_lane ∷ []) (event.Reap 0) ≡ None }
    ensures no_guests_is_a_post { guest_served (busy_lane ∷ opening_lane ∷ []) (event.Post 0 2) ≡ None }
    ensures a_lanes_is_a_reap { lane_served (event.Reap 5) ≡ Some 5 }
    ensures a_lanes_is_a_post { lane_served (event.Post 5 2) ≡ Some 5 }
    ensures no_lanes_is_a_take { lane_served (event.Take 0 1 5) ≡ None }
    ensures no_lanes_is_a_submit { lane_served (event.Submit 5 0) ≡ None }
    // The drive is the host's.
    ensures no_lanes_is_the_drives { lane_served (event.DevTake 5) ≡ None }
{}

/// What may be made now.
#[tactic(none)]
pub fn allowed()
    ensures a_take_with_room { is_allowed (serving 3 9) (event.Take 0 1 0) ≡ true }
    ensures a_take_without_room { is_allowed (serving 2 9) (event.Take 0 1 0) ≡ false }
    ensures a_take_of_the_second_with_room { is_allowed (serving 0 5) (event.Take 1 1 0) ≡ true }
    ensures a_take_of_the_second_without_room { is_allowed (serving 9 4) (event.Take 1 1 0) ≡ false }
    ensures a_take_of_a_closed_lane { is_allowed (serving 3 9) (event.Take 0 1 1) ≡ false }
    // No other event asks for room.
    ensures a_post_without_room { is_allowed (serving 0 0) (event.Post 0 2) ≡ true }
    ensures no_event_of_the_drive { is_allowed (serving 9 9) (event.DevTake 0) ≡ false }
{}
