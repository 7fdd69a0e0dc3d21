//! What physical region pages say: which entry decides, and where each byte lies.
ghost use Rattle.std.specs.Prelude.{◌≡◌, ℕ, ◌<◌, Bool, List, All, Some, slice_get, take};
ghost use Rattle.nv_entry.specs.declared.status_code.StatusCode.{StatusCode};
ghost use Rattle.nv_mem.specs.Places.{At, places_of};
ghost use Rattle.nv_mem.specs.declared.piece.Piece.{Piece};
ghost use Rattle.nv_model.specs.Dialogue.{in_memory};
ghost use Rattle.nv_model.specs.Prp.{read_prp};
ghost use Rattle.nv_model.specs.PrpAddresses.{byte_address};
ghost use Rattle.nv_model.specs.PrpEntries.{IsFaultlessEntry, PrpEntry, entry_fault_of, transfer_entries};
ghost use Rattle.nv_model.specs.Reading.{Faulty, Spells};

/// Of the entries and list pointers that a transfer meets the first with a fault decides, by the first check that it
/// fails. Where none has one, pieces are spelled.
pub fn region_pages_are_checked_in_order()
    ensures faulty { (mapped : ℕ → Bool) (memory : ℕ → ℕ) (prp1 prp2 len i : ℕ) (e : PrpEntry) (code : StatusCode) → 0 < len →
        slice_get (transfer_entries memory prp1 prp2 len) i ≡ Some e → entry_fault_of mapped e ≡ Some code →
        All (IsFaultlessEntry mapped) (take i (transfer_entries memory prp1 prp2 len)) →
        in_memory memory (read_prp mapped prp1 prp2 len) ≡ Faulty code }
    ensures spells { (mapped : ℕ → Bool) (memory : ℕ → ℕ) (prp1 prp2 len : ℕ) → 0 < len →
        All (IsFaultlessEntry mapped) (transfer_entries memory prp1 prp2 len) →
        (pieces : List Piece) × (in_memory memory (read_prp mapped prp1 prp2 len) ≡ Spells pieces) }
{}

/// What PRP1 and PRP2 spell names byte by byte the address in its page, which the entry of that page names.
pub fn region_pages_name_each_byte()
    ensures { (mapped : ℕ → Bool) (memory : ℕ → ℕ) (prp1 prp2 len : ℕ) (pieces : List Piece) (i : ℕ) →
        in_memory memory (read_prp mapped prp1 prp2 len) ≡ Spells pieces → i < len →
        slice_get (places_of pieces) i ≡ Some (At (byte_address memory prp1 prp2 len i)) }
{}
