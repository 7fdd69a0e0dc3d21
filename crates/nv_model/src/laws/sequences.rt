//! What a scatter gather list says, as one sequence of descriptors.
ghost use Rattle.std.specs.Prelude.{◌≡◌, ℕ, ◌+◌, ◌≤◌, Bool, List, [], All, Some, length, slice_get, take};
ghost use Rattle.std.specs.List.{flat_map};
ghost use Rattle.nv_entry.specs.declared.status_code.StatusCode.{StatusCode};
ghost use Rattle.nv_model.specs.Dialogue.{in_memory};
ghost use Rattle.nv_model.specs.Reading.{Faulty, TooLong, Spells};
ghost use Rattle.nv_model.specs.Sgl.{read_sgl};
ghost use Rattle.nv_model.specs.SglSequence.{IsFaultless, Member, fault_of, first_members, member_pieces};

/// The first descriptor with a fault decides, by the first check that it fails, where it is one of those that may be
/// read. If none of them has one, a list of more descriptors is too long, and any other spells the pieces that its
/// descriptors name, in order.
pub fn scatter_gather_lists_are_one_sequence()
    ensures faulty { (mapped : ℕ → Bool) (dest : Bool) (limit : ℕ) (own : List ℕ) (memory : ℕ → ℕ) (i : ℕ) (m : Member) (code : StatusCode) →
        slice_get (first_members mapped memory own limit) i ≡ Some m → fault_of mapped m ≡ Some code →
        All (IsFaultless mapped) (take i (first_members mapped memory own limit)) →
        in_memory memory (read_sgl mapped dest limit own) ≡ Faulty code }
    ensures too_long { (mapped : ℕ → Bool) (dest : Bool) (limit : ℕ) (own : List ℕ) (memory : ℕ → ℕ) →
        All (IsFaultless mapped) (first_members mapped memory own limit) → length (first_members mapped memory own (limit + 1)) ≡ limit + 1 →
        in_memory memory (read_sgl mapped dest limit own) ≡ TooLong }
    ensures spells { (mapped : ℕ → Bool) (dest : Bool) (limit : ℕ) (own : List ℕ) (memory : ℕ → ℕ) →
        All (IsFaultless mapped) (first_members mapped memory own limit) → length (first_members mapped memory own (limit + 1)) ≤ limit →
        in_memory memory (read_sgl mapped dest limit own) ≡ Spells (flat_map (member_pieces dest) (first_members mapped memory own limit)) }
{}
