//! The guests' shares of a lane's tags, and which set-ups have room for them.

ghost use Rattle.std.specs.Prelude.{◌≡◌, ◌+◌, ◌^◌, [], ◌∷◌, Some, None, false, true, replicate};
ghost use Rattle.nv_core.specs.Noted.{has_front};
ghost use Rattle.nv_examples_host.specs.Scenes.{crowd, given, guest_of_two, host_of_size, serving, set_up_of, two_guests};
ghost use Rattle.nv_host.specs.Served.{first_refusal, has_share, opened, serving_refusal_of, unless_crowded};
ghost use Rattle.nv_host.specs.Shares.{is_within, most_given, most_needed, needed_in_all, needed_of, opening_spare};
ghost use Rattle.nv_host.specs.Sharing.{with_share};
ghost use Rattle.nv_mediator.specs.declared.refusal.Refusal.TheVariants as named;
ghost use Rattle.nv_world_model.specs.Rows.{controller_with, guest_at};
ghost use Rattle.nv_world_model.specs.SetUp.{BadSize, ExtentsMeet, host_refusal_of};
ghost use Rattle.nv_world_model.specs.declared.event.Event.TheVariants as event;

/// What commands may need.
#[tactic(none)]
pub fn needs()
    ensures a_tag_for_each_extent { most_needed guest_of_two ≡ 2 }
    ensures one_of_each_guest { needed_in_all two_guests ≡ 3 }
    ensures of_a_guest { needed_of (Some guest_of_two) ≡ 2 }
    ensures of_nobody { needed_of None ≡ 0 }
    // A lane has 64 tags: 61 are left beside those three.
    ensures equal_shares { opening_spare two_guests ≡ 30 ∷ 30 ∷ [] }
    ensures all_that_are_left { opening_spare (guest_of_two ∷ []) ≡ 62 ∷ [] }
    ensures nothing_left { opening_spare (crowd 8) ≡ replicate 8 0 }
    ensures nobodys_share { opening_spare [] ≡ [] }
{}

/// What an event gives.
#[tactic(none)]
pub fn gifts()
    ensures to_its_guest { most_given two_guests (event.Take 0 1 3) 0 3 ≡ 2 }
    ensures to_the_second { most_given two_guests (event.Take 1 1 3) 1 3 ≡ 1 }
    ensures to_another { most_given two_guests (event.Take 0 1 3) 1 3 ≡ 0 }
    ensures to_one_before_it { most_given two_guests (event.Take 1 1 3) 0 3 ≡ 0 }
    ensures on_a_lane_before_it { most_given two_guests (event.Take 0 1 3) 0 2 ≡ 0 }
    ensures on_another_lane { most_given two_guests (event.Take 0 3 1) 0 3 ≡ 0 }
    ensures to_nobody { most_given two_guests (event.Take 2 1 3) 2 3 ≡ 0 }
    ensures no_other_event { most_given two_guests (event.Submit 3 0) 0 3 ≡ 0 }
{}

/// Whether a share has room.
#[tactic(none)]
pub fn room()
    ensures as_many { is_within 3 (Some 3) ≡ true }
    ensures one_more { is_within 4 (Some 3) ≡ false }
    ensures none_yet { is_within 0 (Some 0) ≡ true }
    ensures nobodys { is_within 0 None ≡ false }
    // The first guest has three tags of the first lane, and the second five.
    ensures of_the_first { has_share (serving 3 9) 0 0 ≡ true }
    ensures too_little { has_share (serving 2 9) 0 0 ≡ false }
    ensures of_the_second { has_share (serving 0 5) 1 0 ≡ true }
    ensures too_little_of_the_second { has_share (serving 9 4) 1 0 ≡ false }
    ensures on_the_second_lane { has_share (serving 0 0) 0 1 ≡ true }
    ensures of_nobody { has_share (serving 9 9) 2 0 ≡ false }
    // A share of six tags is four beside the two that a command may need.
    ensures another_share { (with_share 0 6 guest_of_two (serving 3 9)).spare ≡ 4 ∷ 9 ∷ [] }
    ensures the_least { (with_share 0 2 guest_of_two (serving 3 9)).spare ≡ 0 ∷ 9 ∷ [] }
    ensures of_the_other { (with_share 1 6 (guest_at 0x200000 2000) (serving 3 9)).spare ≡ 3 ∷ 5 ∷ [] }
    ensures lanes_stay { (with_share 0 6 guest_of_two (serving 3 9)).closed ≡ false ∷ true ∷ [] }
{}

/// Whether a command waits.
#[tactic(none)]
pub fn fronts()
    ensures one_waits { has_front 1 (Some (controller_with 16 1)) ≡ true }
    ensures none_was_submitted { has_front 1 (Some (controller_with 16 0)) ≡ false }
    ensures of_no_queue { has_front 2 (Some (controller_with 16 1)) ≡ false }
    ensures of_nobody { has_front 1 None ≡ false }
    // The controller is not ready any more.
    ensures after_a_reset { has_front 1 (Some (record (controller_with 16 1) { ready = false })) ≡ false }
{}

/// Set-ups.
#[tactic(none)]
pub fn set_ups()
    // Eight guests of eight extents need all tags of a lane.
    ensures all_tags { serving_refusal_of (set_up_of (crowd 8)) ≡ None }
    ensures more_than_all { serving_refusal_of (set_up_of (crowd 9)) ≡ Some BadSize }
    ensures that_alone { host_refusal_of (set_up_of (crowd 9)) ≡ None }
    ensures one_tag_more { unless_crowded (guest_at 0x200000 2000 ∷ crowd 8) None ≡ Some BadSize }
    ensures its_name { first_refusal (set_up_of (crowd 9)) ≡ Some named.BadSize }
    ensures no_name { first_refusal (set_up_of (crowd 8)) ≡ None }
    // An earlier reason stays.
    ensures another_reason { unless_crowded (crowd 9) (Some ExtentsMeet) ≡ Some ExtentsMeet }
    ensures a_reason_without_a_crowd { unless_crowded [] (Some ExtentsMeet) ≡ Some ExtentsMeet }
    ensures of_one_guest { serving_refusal_of (set_up_of (guest_of_two ∷ [])) ≡ None }
    ensures of_two_that_meet { serving_refusal_of (set_up_of (guest_of_two ∷ guest_of_two ∷ [])) ≡ Some ExtentsMeet }
    // A host of 2^47 bytes and a disk of 2^48 blocks are the largest.
    ensures the_largest { serving_refusal_of (host_of_size (2 ^ 47) (2 ^ 48)) ≡ None }
    ensures a_larger_host { serving_refusal_of (host_of_size (2 ^ 47 + 4096) (2 ^ 48)) ≡ Some BadSize }
    ensures a_larger_disk { serving_refusal_of (host_of_size (2 ^ 47) (2 ^ 48 + 1)) ≡ Some BadSize }
    ensures a_disk_without_blocks { serving_refusal_of (host_of_size 0x1000000 0) ≡ Some BadSize }
{}

/// The mediator as it is made.
#[tactic(none)]
pub fn openings()
    ensures shares { (opened given).spare ≡ 30 ∷ 30 ∷ [] }
    ensures lanes { (opened given).closed ≡ false ∷ false ∷ [] }
    ensures tails { (opened given).side.tails ≡ 0 ∷ 0 ∷ [] }
{}
