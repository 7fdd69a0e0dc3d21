//! What the copies come to, as functions that do nothing: each contract is a law.
ghost use Rattle.std.specs.Prelude.{◌≡◌, ℕ, List, None, false, length, true};
ghost use Rattle.nv_mem.specs.GuestMap.{IsSound, Mapping, guest_of, mapped, span_met};
ghost use Rattle.nv_mem.specs.Places.{Place};
ghost use Rattle.nv_mem.specs.declared.region.Region.{Region};
ghost use Rattle.nv_model.specs.Memory.{bytes_from, gathered, image, scattered};
ghost use Rattle.nv_bounce.specs.Bounce.{gathered_to, scattered_from};

/// The slot has the gathered bytes, and nothing changes for the guest.
pub fn a_guest_sees_nothing_of_a_gather()
    ensures slot { (regions : List Region) (places : List Place) (slot : ℕ) (host : ℕ → ℕ) →
        bytes_from (gathered_to regions places slot host) slot (length places) ≡ gathered (image regions host) places }
    ensures guest { (regions : List Region) (places : List Place) (slot : ℕ) (host : ℕ → ℕ) → span_met regions slot (length places) ≡ false →
        image regions (gathered_to regions places slot host) ≡ image regions host }
{}

/// The guest has the slot's bytes at its places, and all that is not the guest's stays: each byte, and so the slot.
pub fn a_scatter_changes_the_guests_memory_alone()
    ensures guest { (map : Mapping) (places : List Place) (slot : ℕ) (host : ℕ → ℕ) (addr : ℕ) → IsSound map → mapped map.regions addr ≡ true →
        image map.regions (scattered_from map.regions places slot host) addr
        ≡ scattered (image map.regions host) places (bytes_from host slot (length places)) addr }
    ensures others { (regions : List Region) (places : List Place) (slot : ℕ) (host : ℕ → ℕ) (at : ℕ) → guest_of regions at ≡ None →
        scattered_from regions places slot host at ≡ host at }
    ensures slot { (regions : List Region) (places : List Place) (slot : ℕ) (host : ℕ → ℕ) → span_met regions slot (length places) ≡ false →
        bytes_from (scattered_from regions places slot host) slot (length places) ≡ bytes_from host slot (length places) }
{}

/// What is gathered and scattered to the same places again leaves the host as the gather made it.
pub fn what_was_gathered_is_scattered_back()
    ensures { (map : Mapping) (places : List Place) (slot : ℕ) (host : ℕ → ℕ) → IsSound map → span_met map.regions slot (length places) ≡ false →
        scattered_from map.regions places slot (gathered_to map.regions places slot host) ≡ gathered_to map.regions places slot host }
{}
