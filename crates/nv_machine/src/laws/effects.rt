//! What effects come to in the host's memory.
ghost use Rattle.std.specs.Prelude.{◌≡◌, ℕ, ◌+◌, ◌%◌, ◌<◌, ◌≤◌, Bool, List, length, map, true, false};
ghost use Rattle.std.specs.List.{All, AllPairs, range_with_len};
ghost use Rattle.nv_bounce.specs.Bounce.{gathered_to, scattered_from};
ghost use Rattle.nv_machine.specs.Effects.{Effect, ReadsIn, WritesIn, completion_stores, copies_from, copies_to, effects_on, hosts_from, stores, writes_to};
ghost use Rattle.nv_mem.specs.GuestMap.{IsApart, IsSound, Mapping, all_mapped, span_met};
ghost use Rattle.nv_mem.specs.MapRuns.{InImage};
ghost use Rattle.nv_mem.specs.Page.{page_size};
ghost use Rattle.nv_mem.specs.Places.{Place, addresses};
ghost use Rattle.nv_mem.specs.declared.region.Region.{Region};
ghost use Rattle.nv_model.specs.Memory.{bytes_from, image, put_image, scattered, stored};

/// Bytes of a guest's memory that are fetched are what the guest would read there.
pub fn a_fetch_reads_the_guests_memory()
    ensures { (regions : List Region) (addr len : ℕ) (host : ℕ → ℕ) → all_mapped regions addr len ≡ true →
        map host (hosts_from regions addr len) ≡ bytes_from (image regions host) addr len }
{}

/// Each byte that is fetched of a guest's memory lies in that guest's regions; and bytes within a page, as those of a queue's entry, lie in a row in the host.
pub fn what_is_fetched_is_the_guests()
    ensures each { (regions : List Region) (addr len : ℕ) → All (InImage regions) (hosts_from regions addr len) }
    ensures row { (map : Mapping) (addr len : ℕ) → IsSound map → 0 < len → addr % page_size + len ≤ page_size → all_mapped map.regions addr len ≡ true →
        (at : ℕ) × (hosts_from map.regions addr len ≡ range_with_len at len) }
{}

/// Effects leave each byte that none of them writes, and what they come to in two memories is the same where these are and where effects read.
pub fn effects_change_what_they_write_by_what_they_read()
    ensures others { (effects : List Effect) (host : ℕ → ℕ) (at : ℕ) → All (λ (e : Effect). writes_to e at ≡ false) effects →
        effects_on effects host at ≡ host at }
    ensures same { (part : ℕ → Bool) (effects : List Effect) (host other : ℕ → ℕ) (at : ℕ) → All (ReadsIn (λ (a : ℕ). part a ≡ true)) effects →
        ((a : ℕ) → part a ≡ true → host a ≡ other a) → host at ≡ other at → effects_on effects host at ≡ effects_on effects other at }
{}

/// What is stored at places of a guest's memory, or copied there, is written in that guest's regions alone, and so is a completion; what is copied from
/// there is read in them alone. The other side of a copy is the bytes from an address on, as many as there are places.
pub fn stores_and_copies_stay_where_they_belong()
    ensures stores { (regions : List Region) (places : List Place) (bytes : List ℕ) → All (WritesIn (InImage regions)) (stores regions places bytes) }
    ensures copies { (regions : List Region) (from : ℕ) (places : List Place) → All (WritesIn (InImage regions)) (copies_to regions from places) }
    ensures copied { (regions : List Region) (from : ℕ) (places : List Place) →
        All (ReadsIn (λ (at : ℕ). (from ≤ at) × (at < from + length places))) (copies_to regions from places) }
    ensures gathers { (regions : List Region) (places : List Place) (to : ℕ) →
        All (WritesIn (λ (at : ℕ). (to ≤ at) × (at < to + length places))) (copies_from regions places to) }
    ensures gathered { (regions : List Region) (places : List Place) (to : ℕ) → All (ReadsIn (InImage regions)) (copies_from regions places to) }
    ensures completion { (map : Mapping) (addr : ℕ) (entry : List ℕ) → IsSound map → addr % 16 ≡ 0 → length entry ≡ 16 →
        all_mapped map.regions addr 16 ≡ true → All (WritesIn (InImage map.regions)) (completion_stores map.regions addr entry) }
{}

/// Bytes that are stored at places are scattered in the guest's memory, and those of its own store are stored there.
pub fn stores_are_the_guests()
    ensures places { (regions : List Region) (places : List Place) (bytes : List ℕ) (host : ℕ → ℕ) → AllPairs IsApart regions →
        effects_on (stores regions places bytes) host ≡ put_image regions (scattered (image regions host) places bytes) host }
    ensures run { (regions : List Region) (addr : ℕ) (bytes : List ℕ) (host : ℕ → ℕ) → AllPairs IsApart regions →
        effects_on (stores regions (addresses addr (length bytes)) bytes) host ≡ put_image regions (stored (image regions host) addr bytes) host }
{}

/// Bytes that are copied one after another to places, or from them, from or to addresses that are none of the guest's, are scattered there, or gathered.
pub fn copies_scatter_and_gather()
    ensures to { (regions : List Region) (places : List Place) (from : ℕ) (host : ℕ → ℕ) → AllPairs IsApart regions →
        span_met regions from (length places) ≡ false → effects_on (copies_to regions from places) host ≡ scattered_from regions places from host }
    ensures from { (regions : List Region) (places : List Place) (to : ℕ) (host : ℕ → ℕ) → span_met regions to (length places) ≡ false →
        effects_on (copies_from regions places to) host ≡ gathered_to regions places to host }
{}

/// A completion that is stored in two parts is stored in the guest's memory: its 16 bytes lie in a row in the host.
pub fn a_completion_is_stored()
    ensures { (map : Mapping) (addr : ℕ) (entry : List ℕ) (host : ℕ → ℕ) → IsSound map → addr % 16 ≡ 0 → length entry ≡ 16 →
        all_mapped map.regions addr 16 ≡ true →
        effects_on (completion_stores map.regions addr entry) host ≡ put_image map.regions (stored (image map.regions host) addr entry) host }
{}
