//! What the definitions of this crate come to, as functions that do nothing: each contract is a law.
ghost use Rattle.std.specs.Prelude.{◌≡◌, ℕ, ◌+◌, ◌<◌, ◌≤◌, ◌↔◌, ◌⊎◌, false, None, Some, IsTrue, List, length, slice_index};
ghost use Rattle.nv_mem.specs.declared.region.Region.{Region};
ghost use Rattle.nv_mem.specs.declared.piece.Piece.{Piece};
ghost use Rattle.nv_mem.specs.Bytes.{InMemory, bytes_at, after_store};
ghost use Rattle.nv_mem.specs.GuestMap.{Mapping, IsSound, all_mapped, host_of, hosts_meet, span_met};
ghost use Rattle.nv_mem.specs.MapRefusal.{refusal_of};
ghost use Rattle.nv_mem.specs.MapRuns.{IsLongestRun, InImage, AllMapped};
ghost use Rattle.nv_mem.specs.Places.{places_of, total_len};

/// A list of regions is refused exactly where it is no map.
pub fn refused_exactly_where_unsound()
    ensures accepted { (m : Mapping) → refusal_of m.host_len m.regions ≡ None → IsSound m }
    ensures sound { (m : Mapping) → IsSound m → refusal_of m.host_len m.regions ≡ None }
{}

/// Two guest addresses of a map that are different have different host addresses.
pub fn addresses_stay_apart()
    ensures { (m : Mapping) (a b host : ℕ) →
        IsSound m → host_of m.regions a ≡ Some host → host_of m.regions b ≡ Some host → a ≡ b }
{}

/// The host address of a mapped guest address is below the host's length.
pub fn image_lies_in_the_host()
    ensures { (m : Mapping) (addr host : ℕ) →
        IsSound m → host_of m.regions addr ≡ Some host → host < m.host_len }
{}

/// The test that computes is true exactly where each address is mapped.
pub fn all_mapped_is_tested()
    ensures { (rs : List Region) (addr len : ℕ) →
        IsTrue (all_mapped rs addr len) ↔ AllMapped rs addr len }
{}

/// There is one longest run at most.
pub fn longest_run_is_one()
    ensures { (rs : List Region) (addr len host n other m : ℕ) →
        IsLongestRun rs addr len host n → IsLongestRun rs addr len other m → (host ≡ other) × (n ≡ m) }
{}

/// Two maps whose regions are apart in host addresses share no byte of the host, and a map shares
/// none with a part of the host that its regions are apart from.
pub fn maps_apart_share_no_byte()
    ensures maps { (rs ss : List Region) (host : ℕ) →
        hosts_meet rs ss ≡ false → InImage rs host → InImage ss host → ⊥ }
    ensures span { (rs : List Region) (start len host : ℕ) →
        span_met rs start len ≡ false → InImage rs host → start ≤ host → host < start + len → ⊥ }
{}

/// A store makes the bytes at its addresses those that were handed in, and leaves every other
/// byte, every range of other bytes and the memory's length as they were.
pub fn store_changes_the_named_bytes_alone()
    ensures length { (memory bytes : List ℕ) (addr : ℕ) → InMemory (length memory) addr (length bytes) →
        length (after_store memory addr bytes) ≡ length memory }
    ensures named { (memory bytes : List ℕ) (addr i : ℕ) → InMemory (length memory) addr (length bytes) →
        i < length bytes →
        slice_index (after_store memory addr bytes) (addr + i) ≡ slice_index bytes i }
    ensures others { (memory bytes : List ℕ) (addr at : ℕ) → InMemory (length memory) addr (length bytes) →
        (at < addr) ⊎ (addr + length bytes ≤ at) →
        slice_index (after_store memory addr bytes) at ≡ slice_index memory at }
    ensures ranges { (memory bytes : List ℕ) (addr from n : ℕ) → InMemory (length memory) addr (length bytes) →
        (from + n ≤ addr) ⊎ (addr + length bytes ≤ from) →
        bytes_at (after_store memory addr bytes) from n ≡ bytes_at memory from n }
    ensures read_back { (memory bytes : List ℕ) (addr : ℕ) → InMemory (length memory) addr (length bytes) →
        bytes_at (after_store memory addr bytes) addr (length bytes) ≡ bytes }
{}

/// A store of bytes whose addresses all lie in a map's image lies in the host, and leaves every
/// byte outside the image as it was.
pub fn store_in_an_image_stays_in_it()
    ensures inside { (m : Mapping) (addr n : ℕ) →
        IsSound m → ((i : ℕ) → i < n → InImage m.regions (addr + i)) → InMemory m.host_len addr n }
    ensures others { (m : Mapping) (memory bytes : List ℕ) (addr at : ℕ) →
        IsSound m → length memory ≡ m.host_len →
        ((i : ℕ) → i < length bytes → InImage m.regions (addr + i)) →
        ¬ (InImage m.regions at) →
        slice_index (after_store memory addr bytes) at ≡ slice_index memory at }
{}

/// Pieces name as many places as they have bytes.
pub fn places_are_as_many_as_bytes()
    ensures { (pieces : List Piece) → length (places_of pieces) ≡ total_len pieces }
{}
