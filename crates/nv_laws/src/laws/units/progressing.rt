//! What is left of a command after a unit of one of its shares.

ghost use Rattle.std.specs.Prelude.{◌≡◌, ◌≢◌, ℕ, Bool, ◌||◌, ◌==◌, List, [], ◌∷◌, ◌++◌, Some, true, false, filter, slice_get};
ghost use Rattle.std.specs.List.{All, list_any};
ghost use Rattle.nv_model.specs.Carried.{units_moved};
ghost use Rattle.nv_model.specs.Judge.{Work, WorkUnit};
ghost use Rattle.nv_model.specs.Private.{Moved, numbers_of, others};
ghost use Rattle.nv_world_model.specs.Geometry.{Guest};
ghost use Rattle.nv_world_model.specs.Share.{Share, shares_of};
ghost use Rattle.nv_world_model.specs.Seat.{Rest, numbers_behind, rest};
ghost use Rattle.nv_laws_sound.specs.Consistent.{IsPlanned};
ghost use Rattle.nv_laws.specs.Units.{left_without};

/// No unit of a command is of two of its shares.
pub fn no_number_is_of_two_shares()
    ensures { (guest : Guest) (entry : List ℕ) (share : Share) (i j : ℕ) (a b : Share) (number : ℕ) →
        IsPlanned guest entry share → slice_get (shares_of guest.namespace entry share.whole) i ≡ Some a →
        slice_get (shares_of guest.namespace entry share.whole) j ≡ Some b → i ≢ j →
        list_any (λ n. n == number) a.numbers ≡ true → list_any (λ n. n == number) b.numbers ≡ false }
{}

/// After a unit moves, those units of its share are left that were left before, without those that it represents. The units that it represents are
/// among the whole's units that some share has left. A share has only its own units left. Of the whole, too, those units are left that were left
/// before, without the represented ones, where the other shares have none of this share's units left.
pub fn a_units_numbers_are_left_no_more()
    ensures share { (guest : Guest) (entry : List ℕ) (share : Share) (unit : ℕ) (left : List ℕ) →
        IsPlanned guest entry share → numbers_behind share (others unit left)
        ≡ left_without (numbers_behind share (unit ∷ [])) (numbers_behind share left) }
    ensures there { (guest : Guest) (entry : List ℕ) (share : Share) (is : IsPlanned guest entry share) (unit : ℕ)
        (left : List ℕ) (front back : List Rest) (differed : Bool) → list_any (λ k. k == unit) left ≡ true →
        All (λ k. list_any (λ n. n == k) (filter (λ n. list_any (λ (r : Rest). list_any (λ other. other == n) r.left)
        (front ++ rest (numbers_behind share left) differed ∷ back)) (numbers_of is.work)) ≡ true)
        (numbers_behind share (unit ∷ [])) }
    ensures among { (share : Share) (left : List ℕ) (number : ℕ) →
        list_any (λ n. n == number) (numbers_behind share left) ≡ true → list_any (λ n. n == number) share.numbers ≡ true }
    ensures whole { (guest : Guest) (entry : List ℕ) (share : Share) (unit : ℕ) (left all : List ℕ)
        (front back : List Rest) (before behind : Bool) → IsPlanned guest entry share →
        ((number : ℕ) → list_any (λ n. n == number) share.numbers ≡ true →
        list_any (λ (r : Rest). list_any (λ other. other == number) r.left) (front ++ back) ≡ false) →
        left_without (numbers_behind share (unit ∷ []))
        (filter (λ k. list_any (λ (r : Rest). list_any (λ other. other == k) r.left)
        (front ++ rest (numbers_behind share left) before ∷ back)) all)
        ≡ filter (λ k. list_any (λ (r : Rest). list_any (λ other. other == k) r.left)
        (front ++ rest (numbers_behind share (others unit left)) behind ∷ back)) all }
{}

/// That a Compare has differed before changes nothing of what units do but that one has.
pub fn a_compare_that_differed_changes_nothing_else()
    ensures { (units : List WorkUnit) (work : Work) (m : Moved) (differed : Bool) →
        units_moved units work (record m { differed = differed || m.differed })
        ≡ record (units_moved units work m) { differed = differed || (units_moved units work m).differed } }
{}
