//! What the definitions of this crate come to, as functions that do nothing: each contract is a law.
ghost use Rattle.std.specs.Prelude.{◌≡◌, ℕ, ◌-◌, ◌%◌, ◌≤◌, true, List, ◌++◌, All, length, replicate, take};
ghost use Rattle.std.specs.List.{list_all};
ghost use Rattle.nv_mem.specs.GuestMap.{mapped};
ghost use Rattle.nv_mem.specs.Places.{total_len};
ghost use Rattle.nv_mem.specs.declared.piece.Piece.{Piece};
ghost use Rattle.nv_mem.specs.declared.region.Region.{Region};
ghost use Rattle.nv_model.specs.Dialogue.{in_memory};
ghost use Rattle.nv_model.specs.Laws.{IsMappedPiece};
ghost use Rattle.nv_model.specs.Limits.{most_bytes, most_entries, page};
ghost use Rattle.nv_model.specs.Memory.{bytes_from};
ghost use Rattle.nv_model.specs.Transcript.{fed};
ghost use Rattle.nv_model.specs.Want.{want_of};
ghost use Rattle.nv_model.specs.declared.want.Want.TheVariants as want;
ghost use Rattle.nv_prp.specs.Built.{built};
ghost use Rattle.nv_prp.specs.Spelled.{HoldsList, SpellsAddresses, reading_of};
ghost use Rattle.nv_prp.specs.Fits.{fit_prp, host_addresses, is_run};
ghost use Rattle.nv_prp.specs.Parse.{Parse, dialogue_of};

/// A parse that is fed the bytes that a memory shows at what it wants ends in this memory as it would have without them.
pub fn feeding_what_a_memory_shows_keeps_the_end()
    ensures { (memory : ℕ → ℕ) (p : Parse) (addr len : ℕ) → want_of (dialogue_of p) ≡ want.Read addr len →
        in_memory memory (fed (dialogue_of p) (bytes_from memory addr len)) ≡ in_memory memory (dialogue_of p) }
{}

/// What is built for host addresses that fit PRP spells exactly these addresses, in any memory that holds its list. That is how the PRP definition
/// reads it. The numbers after the list are zeros.
pub fn built_prps_spell_the_addresses()
    ensures zeros { (list_page : ℕ) (addresses : List ℕ) → let p = built list_page addresses in
        p.list ≡ take p.used p.list ++ replicate (most_entries - p.used) 0 }
    ensures spells { (memory : ℕ → ℕ) (list_page : ℕ) (addresses : List ℕ) →
        fit_prp addresses ≡ true → length addresses ≤ most_bytes → list_page % page ≡ 0 →
        HoldsList memory list_page (built list_page addresses) →
        SpellsAddresses addresses (reading_of memory (built list_page addresses) (length addresses)) }
{}

/// Runs of mapped bytes have as many host addresses as bytes.
pub fn mapped_runs_have_an_address_for_each_byte()
    ensures { (regions : List Region) (pieces : List Piece) →
        All (IsMappedPiece (mapped regions)) pieces → list_all is_run pieces ≡ true →
        length (host_addresses regions pieces) ≡ total_len pieces }
{}
