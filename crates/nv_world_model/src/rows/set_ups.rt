//! Set-ups that make a world, and why others are refused.

ghost use Rattle.std.specs.Prelude.{◌≡◌, [], ◌∷◌, ◌++◌, ◌+◌, ◌^◌, Some, None};
ghost use Rattle.nv_world_model.specs.Rows.{guest_at};
ghost use Rattle.nv_world_model.specs.RowsShown.{disk_refused, extent_at, extents_from, first_guest, guest_of, guest_of_regions, guest_with_limit, guests_refused, large_refused};
ghost use Rattle.nv_world_model.specs.RowsShown.{refused, refused_of_another_host, second_guest, small_guests};
ghost use Rattle.nv_world_model.specs.SetUp.{BadSize, MapsMeet, ExtentsMeet, TooManyGuests};

/// The examples of this module, a clause each.
#[tactic(none)]
pub fn examples()
    // Two guests that are apart.
    ensures two_guests_apart { guests_refused (first_guest ∷ second_guest ∷ []) ≡ None }
    // No guest at all.
    ensures no_guest { guests_refused [] ≡ None }
    // At most 16 guests.
    ensures sixteen_guests { guests_refused (small_guests 16) ≡ None }
    // One more.
    ensures seventeen_guests { guests_refused (small_guests 17) ≡ Some TooManyGuests }
    // The second's first block is the first's last.
    ensures ranges_that_meet { guests_refused (first_guest ∷ guest_at 0x200000 1063 ∷ []) ≡ Some ExtentsMeet }
    // It is the one after that.
    ensures ranges_side_by_side { guests_refused (first_guest ∷ guest_at 0x200000 1064 ∷ []) ≡ None }
    // Ranges of the first and the last of three meet.
    ensures ranges_that_meet_further_on { guests_refused (first_guest ∷ second_guest ∷ guest_at 0x300000 1000 ∷ []) ≡ Some ExtentsMeet }
    // The second's first page is the first's last.
    ensures maps_that_meet { guests_refused (first_guest ∷ guest_at 0x11f000 2000 ∷ []) ≡ Some MapsMeet }
    // It is the one after that.
    ensures maps_side_by_side { guests_refused (first_guest ∷ guest_at 0x120000 2000 ∷ []) ≡ None }
    // A guest's last page is the first of the mediator's area.
    ensures a_map_that_meets_the_area { guests_refused (guest_at 0x3e1000 1000 ∷ []) ≡ Some MapsMeet }
    // The area begins after it.
    ensures a_map_before_the_area { guests_refused (guest_at 0x3e0000 1000 ∷ []) ≡ None }
    // A guest's first page is the last of the area.
    ensures a_map_at_the_end_of_the_area { guests_refused (guest_at 0xc42000 1000 ∷ []) ≡ Some MapsMeet }
    // It is the one after that.
    ensures a_map_behind_the_area { guests_refused (guest_at 0xc43000 1000 ∷ []) ≡ None }
    // Eight lanes that end with the host.
    ensures eight_lanes_fit { refused 0x4618000 8 0x400000 (first_guest ∷ second_guest ∷ []) ≡ None }
    // A host that is one page shorter.
    ensures eight_lanes_leave_the_host { refused 0x4617000 8 0x400000 (first_guest ∷ second_guest ∷ []) ≡ Some BadSize }
    // Two lanes leave the usual host.
    ensures two_lanes_leave_the_host { refused 0x1000000 2 0x400000 (first_guest ∷ second_guest ∷ []) ≡ Some BadSize }
    // No lane.
    ensures no_lane { refused 0x1000000 0 0x400000 (first_guest ∷ []) ≡ Some BadSize }
    // Nine lanes, in a host that would have them.
    ensures nine_lanes { refused 0x8000000 9 0x400000 (first_guest ∷ []) ≡ Some BadSize }
    // An area that does not begin with a page.
    ensures an_area_within_a_page { refused 0x1000000 1 0x400800 (first_guest ∷ []) ≡ Some BadSize }
    // A host that does not end with a page.
    ensures a_host_of_part_of_a_page { refused 0x1000800 1 0x400000 (first_guest ∷ []) ≡ Some BadSize }
    // The largest host.
    ensures the_largest_host { refused 0x40000000 1 0x400000 (first_guest ∷ []) ≡ None }
    // One that is larger.
    ensures a_host_that_is_too_large { refused 0x40001000 1 0x400000 (first_guest ∷ []) ≡ Some BadSize }
    // The largest disk, all of it the guest's.
    ensures the_largest_disk { disk_refused 2097152 0 2097152 ≡ None }
    // One that is larger.
    ensures a_disk_that_is_too_large { disk_refused 2097153 0 64 ≡ Some BadSize }
    // Blocks of a guest that leave the disk.
    ensures blocks_that_leave_the_disk { disk_refused 4096 4033 64 ≡ Some BadSize }
    // Blocks that end with it.
    ensures blocks_that_end_with_the_disk { disk_refused 4096 4032 64 ≡ None }
    // A guest without blocks.
    ensures a_guest_without_blocks { disk_refused 4096 1000 0 ≡ Some BadSize }
    // A guest without an extent.
    ensures a_guest_without_extents { guests_refused (guest_of 0x100000 [] ∷ []) ≡ Some BadSize }
    // A guest's second extent begins with the last block of its first.
    ensures extents_of_a_guest_that_meet { guests_refused (guest_of 0x100000 (extent_at 1000 32 ∷ extent_at 1031 8 ∷ []) ∷ []) ≡ Some ExtentsMeet }
    // A guest's third extent lies in another guest's first.
    ensures extents_of_guests_that_meet { guests_refused (first_guest ∷ guest_of 0x200000 (extent_at 2000 1 ∷ extent_at 2100 1 ∷ extent_at 1063 1 ∷ []) ∷ []) ≡ Some ExtentsMeet }
    // Two extents that are apart, the second before the first on the disk.
    ensures extents_that_are_apart { guests_refused (guest_of 0x100000 (extent_at 3000 32 ∷ extent_at 1000 32 ∷ []) ∷ []) ≡ None }
    // Two in a row.
    ensures extents_in_a_row { guests_refused (guest_of 0x100000 (extent_at 1000 32 ∷ extent_at 1032 32 ∷ []) ∷ []) ≡ None }
    // A second extent without blocks.
    ensures an_extent_without_blocks { guests_refused (guest_of 0x100000 (extent_at 1000 32 ∷ extent_at 3000 0 ∷ []) ∷ []) ≡ Some BadSize }
    // A second extent that leaves the disk.
    ensures an_extent_that_leaves_the_disk { guests_refused (guest_of 0x100000 (extent_at 1000 32 ∷ extent_at 4095 2 ∷ []) ∷ []) ≡ Some BadSize }
    // The most extents.
    ensures the_most_extents { guests_refused (guest_of 0x100000 (extents_from 1000 8) ∷ []) ≡ None }
    // One more.
    ensures too_many_extents { guests_refused (guest_of 0x100000 (extents_from 1000 9) ∷ []) ≡ Some BadSize }
    // A guest with the most regions.
    ensures the_most_regions { guests_refused (guest_of_regions 64 ∷ []) ≡ None }
    // One more.
    ensures too_many_regions { guests_refused (guest_of_regions 65 ∷ []) ≡ Some BadSize }
    // The largest limit of descriptors.
    ensures the_largest_limit { guests_refused (guest_with_limit 4096 ∷ []) ≡ None }
    // One that is larger.
    ensures a_limit_that_is_too_large { guests_refused (guest_with_limit 4097 ∷ []) ≡ Some BadSize }
    // None at all.
    ensures a_limit_of_no_descriptors { guests_refused (guest_with_limit 0 ∷ []) ≡ Some BadSize }
    // Seventeen guests come before their ranges that meet.
    ensures too_many_guests_come_first { guests_refused (small_guests 16 ++ guest_at 0x200000 0 ∷ []) ≡ Some TooManyGuests }
    // Ranges that meet come before maps that do.
    ensures ranges_come_before_maps { guests_refused (first_guest ∷ first_guest ∷ []) ≡ Some ExtentsMeet }
    // And before sizes.
    ensures ranges_come_before_sizes { refused 0x1000000 0 0x400000 (first_guest ∷ guest_at 0x200000 1063 ∷ []) ≡ Some ExtentsMeet }
    // Maps that meet come before sizes: nine lanes, whose area reaches a guest.
    ensures maps_come_before_sizes { refused 0x8000000 9 0x400000 (first_guest ∷ guest_at 0x4e5a000 2000 ∷ []) ≡ Some MapsMeet }
    // A map that was made for a larger host.
    ensures a_map_of_a_larger_host { refused_of_another_host 0x1001000 ≡ Some BadSize }
    // One that was made for a smaller host.
    ensures a_map_of_a_smaller_host { refused_of_another_host 0xfff000 ≡ Some BadSize }
    // One that was made for this host.
    ensures a_map_of_this_host { refused_of_another_host 0x1000000 ≡ None }
    // The most bytes of a host that has memory and a drive of its own, and the most blocks of the drive and of a guest.
    ensures a_host_and_a_drive_of_their_own { large_refused (2 ^ 47) (2 ^ 48) 4294967295 ≡ None }
    // Memory of one page more.
    ensures a_host_of_its_own_that_is_too_large { large_refused (2 ^ 47 + 4096) (2 ^ 48) 4294967295 ≡ Some BadSize }
    // A drive of one block more.
    ensures a_drive_that_is_too_large { large_refused (2 ^ 47) (2 ^ 48 + 1) 4294967295 ≡ Some BadSize }
    // A guest's namespace of one block more.
    ensures a_namespace_that_is_too_large { large_refused (2 ^ 47) (2 ^ 48) 4294967296 ≡ Some BadSize }
{}
