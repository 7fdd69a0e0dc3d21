//! A guest's memory in the host: what is put back is there.

ghost use Rattle.std.specs.Prelude.{◌≡◌, ℕ, true, List, Some, None};
ghost use Rattle.nv_mem.specs.GuestMap.{IsSound, Mapping, guest_of, host_of, mapped};
ghost use Rattle.nv_mem.specs.declared.region.Region.{Region};
ghost use Rattle.nv_model.specs.Memory.{image, put_image};

/// A memory that is put back is the guest's image where it is mapped, and nothing else of the host changes.
pub fn an_image_is_put_back()
    ensures there { (m : Mapping) (memory host : ℕ → ℕ) (addr : ℕ) → IsSound m → mapped m.regions addr ≡ true →
        image m.regions (put_image m.regions memory host) addr ≡ memory addr }
    ensures others { (regions : List Region) (memory host : ℕ → ℕ) (at : ℕ) → guest_of regions at ≡ None →
        put_image regions memory host at ≡ host at }
    ensures inverse { (m : Mapping) (addr at : ℕ) → IsSound m → host_of m.regions addr ≡ Some at → guest_of m.regions at ≡ Some addr }
{}
