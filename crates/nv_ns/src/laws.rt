//! What the definitions of this crate come to, as functions that do nothing: each contract is a law.
ghost use Rattle.std.specs.Prelude.{◌≡◌, ℕ, ◌+◌, ◌<◌, ◌≤◌, ◌↔◌, IsTrue, List, [], ◌∷◌, ◌++◌, length, map, take, Some, slice_get};
ghost use Rattle.std.specs.List.{All, count_by, flat_map, range_with_len};
ghost use Rattle.nv_ns.specs.BlockRange.{Extent, InNamespace, in_namespace};
ghost use Rattle.nv_ns.specs.Extents.{Cut, Namespace};
ghost use Rattle.nv_ns.specs.Laws.{AreApart, LiesInOne, NamesBlocks};
ghost use Rattle.nv_ns.specs.Extents.{blocks_in, cuts, has_block, place_in};
ghost use Rattle.nv_ns.specs.Laws.{blocks_cut, places_of_cut};

/// A range that has blocks is in the namespace exactly when every block of it is, and a range of no blocks exactly when it starts no later than
/// just after the last block.
pub fn in_namespace_is_every_block()
    ensures some_blocks { (slba count blocks : ℕ) → 0 < count →
        InNamespace slba count blocks ↔ ((i : ℕ) → i < count → slba + i < blocks) }
    ensures no_blocks { (slba blocks : ℕ) → InNamespace slba 0 blocks ↔ (slba ≤ blocks) }
{}

/// The test that computes is true exactly where the range is in the namespace.
pub fn in_namespace_is_tested()
    ensures { (slba count blocks : ℕ) →
        IsTrue (in_namespace slba count blocks) ↔ InNamespace slba count blocks }
{}

/// The blocks of an extent are contiguous from its base, after the blocks of the extents before it. In a namespace of one extent each block is in
/// the disk's range that the extent is, and no two are in one place.
pub fn blocks_lie_in_a_row()
    ensures row { (front rest : Namespace) (extent : Extent) (i : ℕ) → i < extent.blocks →
        place_in (front ++ extent ∷ rest) (blocks_in front + i) ≡ extent.base + i }
    ensures inside { (extent : Extent) (lba : ℕ) → lba < extent.blocks →
        (extent.base ≤ place_in (extent ∷ []) lba) × (place_in (extent ∷ []) lba < extent.base + extent.blocks) }
    ensures apart { (extent : Extent) (lba other : ℕ) → lba < extent.blocks → other < extent.blocks →
        place_in (extent ∷ []) lba ≡ place_in (extent ∷ []) other → lba ≡ other }
{}

/// What the cuts of a run of blocks name, one after the other, is where each of its blocks is.
pub fn cuts_spell_the_blocks()
    ensures { (ns : Namespace) (slba count : ℕ) → InNamespace slba count (blocks_in ns) →
        flat_map places_of_cut (cuts ns slba count) ≡ map (place_in ns) (range_with_len slba count) }
{}

/// No cut is empty; each lies in one extent, and names blocks of the run where they lie; there are no more of them than extents.
pub fn each_cut_is_a_part_of_one_extent()
    ensures some { (ns : Namespace) (slba count : ℕ) → All (λ (cut : Cut). 0 < cut.count) (cuts ns slba count) }
    ensures lies { (ns : Namespace) (slba count : ℕ) → All (LiesInOne ns) (cuts ns slba count) }
    ensures names { (ns : Namespace) (slba count : ℕ) → All (NamesBlocks ns slba count) (cuts ns slba count) }
    ensures few { (ns : Namespace) (slba count : ℕ) → length (cuts ns slba count) ≤ length ns }
{}

/// The cuts of a run have all its blocks, each cut begins after those before it, and a run of no blocks has no cuts.
pub fn cuts_are_the_run()
    ensures all { (ns : Namespace) (slba count : ℕ) → InNamespace slba count (blocks_in ns) →
        blocks_cut (cuts ns slba count) ≡ count }
    ensures in_order { (ns : Namespace) (slba count i : ℕ) (cut : Cut) → slice_get (cuts ns slba count) i ≡ Some cut →
        cut.first ≡ blocks_cut (take i (cuts ns slba count)) }
    ensures none { (ns : Namespace) (slba : ℕ) → cuts ns slba 0 ≡ [] }
{}

/// A namespace of one extent is that range of the disk, and a run of its blocks is one cut; so is one that lies in the first extent.
pub fn one_extent_is_one_range()
    ensures blocks { (extent : Extent) → blocks_in (extent ∷ []) ≡ extent.blocks }
    ensures places { (extent : Extent) (lba : ℕ) → lba < extent.blocks → place_in (extent ∷ []) lba ≡ extent.base + lba }
    ensures cut { (extent : Extent) (slba count : ℕ) → 0 < count → InNamespace slba count extent.blocks →
        cuts (extent ∷ []) slba count ≡ record { first = 0; start = extent.base + slba; count = count } ∷ [] }
    ensures first { (extent : Extent) (rest : List Extent) (slba count : ℕ) → 0 < count → InNamespace slba count extent.blocks →
        cuts (extent ∷ rest) slba count ≡ record { first = 0; start = extent.base + slba; count = count } ∷ [] }
{}

/// A block lies in one of the extents; where no block of the disk is in two of them, in exactly one, and two blocks at one place are one.
pub fn apart_extents_share_no_block()
    ensures inside { (ns : Namespace) (lba : ℕ) → lba < blocks_in ns → 1 ≤ count_by (has_block (place_in ns lba)) ns }
    ensures one { (ns : Namespace) (lba : ℕ) → AreApart ns → lba < blocks_in ns →
        count_by (has_block (place_in ns lba)) ns ≡ 1 }
    ensures apart { (ns : Namespace) (lba other : ℕ) → AreApart ns → lba < blocks_in ns → other < blocks_in ns →
        place_in ns lba ≡ place_in ns other → lba ≡ other }
{}
