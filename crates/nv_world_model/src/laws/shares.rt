//! What the shares of a plan are of the plan.

ghost use Rattle.std.specs.Prelude.{◌≡◌, ℕ, ◌+◌, ◌*◌, ◌^◌, ◌<◌, ◌≤◌, ◌==◌, Bool, true, List, [], ◌∷◌, drop, flat_map, length, take};
ghost use Rattle.std.specs.List.{All, count_by};
ghost use Rattle.nv_mem.specs.GuestMap.{mapped};
ghost use Rattle.nv_mem.specs.Places.{places_of, total_len};
ghost use Rattle.nv_mem.specs.declared.piece.Piece.{Piece};
ghost use Rattle.nv_mem.specs.declared.region.Region.{Region};
ghost use Rattle.nv_ns.specs.BlockRange.{Extent};
ghost use Rattle.nv_ns.specs.Extents.{Namespace, blocks_in};
ghost use Rattle.nv_model.specs.Endings.{MayEndIn};
ghost use Rattle.nv_model.specs.Judge.{Go, Manage, Work, deallocates, form_of, judge};
ghost use Rattle.nv_model.specs.Laws.{IsMappedPiece};
ghost use Rattle.nv_model.specs.Limits.{block};
ghost use Rattle.nv_model.specs.Private.{numbers_of};
ghost use Rattle.nv_prp.specs.Fits.{places_fit};
ghost use Rattle.nv_world_model.specs.Plan.{plan_of};
ghost use Rattle.nv_world_model.specs.Share.{Share, cut_pieces, shares_of, tags_of_entry};
ghost use Rattle.nv_world_model.specs.SharesLaws.{FitsFields, HasItsUnits, IsShareOf};

/// With one extent a command that goes has one share, which is its plan.
pub fn one_extent_has_one_share()
    ensures { (regions : List Region) (mapped : ℕ → Bool) (limit : ℕ) (extent : Extent) (entry : List ℕ) (work : Work) →
        MayEndIn (judge mapped limit extent.blocks entry) (Go work) → shares_of (extent ∷ []) entry (plan_of regions (Go work))
        ≡ record { whole = plan_of regions (Go work); plan = plan_of regions (Go work); numbers = numbers_of work } ∷ [] }
{}

/// Among the numbers of all shares' units each number is as often as among the whole's: once each unit, and never another.
pub fn each_unit_is_of_one_share()
    ensures { (regions : List Region) (mapped : ℕ → Bool) (limit : ℕ) (ns : Namespace) (entry : List ℕ) (work : Work) (number : ℕ) →
        MayEndIn (judge mapped limit (blocks_in ns) entry) (Go work) →
        count_by (λ n. n == number) (flat_map (λ (share : Share). share.numbers) (shares_of ns entry (plan_of regions (Go work))))
        ≡ count_by (λ n. n == number) (numbers_of work) }
{}

/// The places of what is cut out of a buffer are its places from the first of these bytes on.
pub fn what_is_cut_out_lies_there()
    ensures { (skip len : ℕ) (pieces : List Piece) → places_of (cut_pieces skip len pieces) ≡ take len (drop skip (places_of pieces)) }
{}

/// What fits PRP still fits, cut at a block: of mapped pieces, any run of whole blocks.
pub fn what_fits_prp_fits_cut_at_a_block()
    ensures { (regions : List Region) (first count : ℕ) (pieces : List Piece) → All (IsMappedPiece (mapped regions)) pieces →
        places_fit regions pieces ≡ true → 0 < count → block * (first + count) ≤ total_len pieces →
        places_fit regions (cut_pieces (block * first) (block * count) pieces) ≡ true }
{}

/// A share's own plan is of a part of the whole work: its units are those of its numbers, and each moves what the whole's unit moves.
pub fn a_share_is_a_part_of_the_whole()
    ensures { (regions : List Region) (mapped : ℕ → Bool) (limit : ℕ) (ns : Namespace) (entry : List ℕ) (work : Work) →
        MayEndIn (judge mapped limit (blocks_in ns) entry) (Go work) → All (IsShareOf work) (shares_of ns entry (plan_of regions (Go work))) }
{}

/// A command that goes has as many shares as its fields take tags.
pub fn each_share_has_a_tag()
    ensures { (regions : List Region) (mapped : ℕ → Bool) (limit : ℕ) (ns : Namespace) (entry : List ℕ) (work : Work) →
        MayEndIn (judge mapped limit (blocks_in ns) entry) (Go work) →
        length (shares_of ns entry (plan_of regions (Go work))) ≡ tags_of_entry ns entry }
{}

/// Of a namespace that has an extent, each command takes at least one tag, and no more than there are extents.
pub fn a_command_takes_no_more_tags_than_extents()
    ensures at_least_one { (ns : Namespace) (entry : List ℕ) → 0 < length ns → 1 ≤ tags_of_entry ns entry }
    ensures no_more { (ns : Namespace) (entry : List ℕ) → 0 < length ns → tags_of_entry ns entry ≤ length ns }
{}

/// A share of a Dataset Management has the units of its own ranges, where the guest's ranges can be cut in 16 bytes; those that lie in a
/// namespace of at most 2 to the 32 blocks can.
pub fn a_share_has_the_units_of_its_ranges()
    ensures units { (regions : List Region) (mapped : ℕ → Bool) (limit : ℕ) (ns : Namespace) (entry : List ℕ) (work : Work) →
        MayEndIn (judge mapped limit (blocks_in ns) entry) (Go work) → form_of work.opcode ≡ Manage → All FitsFields work.ranges →
        All (HasItsUnits (deallocates entry)) (shares_of ns entry (plan_of regions (Go work))) }
    ensures small { (mapped : ℕ → Bool) (limit blocks : ℕ) (entry : List ℕ) (work : Work) →
        MayEndIn (judge mapped limit blocks entry) (Go work) → blocks ≤ 2 ^ 32 → All FitsFields work.ranges }
{}
