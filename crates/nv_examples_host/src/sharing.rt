//! Who is given a share of a lane's tags, who is not, and who has no more than a share.

ghost use Rattle.std.specs.Prelude.{[], ◌∷◌};
ghost use Rattle.nv_examples_host.specs.Scenes.{serving, two_guests};
ghost use Rattle.nv_host.specs.Shares.{AreShares};
ghost use Rattle.nv_host.specs.Sharing.{AreWithin, IsShare, IsShareRefused, IsWithin};
ghost use Rattle.nv_host.specs.declared.shares.ShareRefusal.TheVariants as refusal;

/// Shares that are given. A command of the first guest may need two tags.
#[tactic(none)]
pub fn given()
    ensures six { IsShare 0 6 (serving 3 9) (serving 4 9) }
    ensures two { IsShare 0 2 (serving 3 9) (serving 0 9) }
    ensures one { IsShare 0 1 (serving 3 9) (serving 0 9) → ⊥ }
    ensures as_spare { IsShare 0 6 (serving 3 9) (serving 6 9) → ⊥ }
    ensures anothers { IsShare 0 6 (serving 3 9) (serving 4 8) → ⊥ }
    ensures with_a_lane_opened { IsShare 0 6 (serving 3 9) (record (serving 4 9) { closed = [] }) → ⊥ }
    ensures nobodys { IsShare 2 6 (serving 3 9) (serving 3 9) → ⊥ }
{}

/// Shares that are refused.
#[tactic(none)]
pub fn refused()
    ensures nobodys { IsShareRefused 2 6 (serving 3 9) refusal.NoGuest }
    ensures somebodys { IsShareRefused 1 6 (serving 3 9) refusal.NoGuest → ⊥ }
    ensures too_small { IsShareRefused 0 1 (serving 3 9) refusal.TooSmall }
    ensures not_too_small { IsShareRefused 0 2 (serving 3 9) refusal.TooSmall → ⊥ }
    // Three tags are needed in all, and nine are the second's besides: 54 are two and the other 50.
    ensures too_large { IsShareRefused 0 55 (serving 3 9) refusal.TooLarge }
    ensures not_too_large { IsShareRefused 0 54 (serving 3 9) refusal.TooLarge → ⊥ }
    ensures too_small_for_too_large { IsShareRefused 0 1 (serving 3 62) refusal.TooLarge → ⊥ }
{}

/// Guests that have no more. The first has three tags of the first lane, and the second five.
#[tactic(none)]
pub fn within()
    ensures the_first_has_more { IsWithin 0 0 (serving 0 9) → ⊥ }
    ensures the_second_has_more { IsWithin 1 0 (serving 9 3) → ⊥ }
    ensures one_of_them_has_more { AreWithin 0 (serving 9 3) → ⊥ }
    ensures all_shares { AreShares two_guests (31 ∷ 30 ∷ []) }
    ensures one_tag_more { AreShares two_guests (31 ∷ 31 ∷ []) → ⊥ }
    ensures a_guest_without_one { AreShares two_guests (30 ∷ []) → ⊥ }
{}
