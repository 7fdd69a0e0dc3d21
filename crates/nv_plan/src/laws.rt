//! What a plan comes to, as functions that do nothing: each contract is a law.

ghost use Rattle.std.specs.Prelude.{◌≡◌, ℕ, ◌*◌, ◌^◌, ◌<◌, ◌≤◌, ◌%◌, Bool, true, false, IsTrue, List, [], ◌++◌, All, Some, length};
ghost use Rattle.std.specs.List.{list_all};
ghost use Rattle.nv_entry.specs.Range.{blocks_of};
ghost use Rattle.nv_entry.specs.Status.{StatusField};
ghost use Rattle.nv_mem.specs.GuestMap.{mapped};
ghost use Rattle.nv_mem.specs.Places.{places_of, total_len};
ghost use Rattle.nv_model.specs.Judge.{Manage, Transfer, Work, form_of, range_fits};
ghost use Rattle.nv_model.specs.Laws.{IsMappedPiece};
ghost use Rattle.nv_model.specs.Limits.{block, most_bytes, page, range_size};
ghost use Rattle.nv_model.specs.Transcript.{ReadDone};
ghost use Rattle.nv_model.proofs.RunPieces.{IsRunPiece};
ghost use Rattle.nv_ns.specs.Extents.{blocks_in, is_namespace, most_extents};
ghost use Rattle.nv_prp.specs.Built.{built};
ghost use Rattle.nv_prp.specs.Spelled.{HoldsList, SpellsAddresses, reading_of};
ghost use Rattle.nv_prp.specs.Fits.{host_addresses, places_fit};
ghost use Rattle.nv_world_model.specs.Geometry.{regions_of};
ghost use Rattle.nv_world_model.specs.Plan.{Answer, Bounced, Direct};
ghost use Rattle.nv_world_model.specs.Seat.{work_of};
ghost use Rattle.nv_world_model.specs.Share.{Share, tags_of_entry};
ghost use Rattle.nv_plan.specs.Laws.{LiesIn};
ghost use Rattle.nv_plan.specs.Made.{IsJobsPlan, MadePlan, plan_made, share_made, shares_made};
ghost use Rattle.nv_plan.specs.Outline.{kind_of};
ghost use Rattle.nv_plan.specs.Parts.{len_in, places_in, ranges_of};

/// A plan follows from the command, what was read of its lists and what the guest was given, alone; and what is read then changes
/// nothing.
pub fn a_plan_follows_from_its_job()
    ensures same { (p q : MadePlan) → IsJobsPlan p → IsJobsPlan q →
        p.job.sqe ≡ q.job.sqe → p.job.reads ≡ q.job.reads → p.given ≡ q.given → p.outline ≡ q.outline }
    ensures further { (p q : MadePlan) (more : List ReadDone) → IsJobsPlan p → IsJobsPlan q →
        p.job.sqe ≡ q.job.sqe → p.job.reads ++ more ≡ q.job.reads → p.given ≡ q.given → p.outline ≡ q.outline }
{}

/// What is done with each part is what is done with the whole.
pub fn each_part_is_of_the_plans_kind()
    ensures whole { (p : MadePlan) → IsJobsPlan p → p.outline.kind ≡ kind_of (plan_made p) }
    ensures part { (p : MadePlan) (part : ℕ) (share : Share) → share_made part p ≡ Some share → kind_of share.plan ≡ kind_of (plan_made p) }
    ensures of_whole { (p : MadePlan) (part : ℕ) (share : Share) → share_made part p ≡ Some share → share.whole ≡ plan_made p }
{}

/// A command that goes has a part for each tag that it takes; one that is answered has none.
pub fn a_part_for_each_tag()
    ensures tags { (p : MadePlan) (work : Work) → IsJobsPlan p → work_of (plan_made p) ≡ Some work →
        length (shares_made p) ≡ tags_of_entry p.given.namespace p.job.sqe }
    ensures answer { (p : MadePlan) (st : StatusField) → plan_made p ≡ Answer st → shares_made p ≡ [] }
    ensures most { (p : MadePlan) → IsJobsPlan p → IsTrue (is_namespace p.given.namespace) → length (shares_made p) ≤ most_extents }
{}

/// The places of a part are mapped, and name its bytes in their order; those of a source are runs. A part of a transfer of blocks has as
/// many bytes as its blocks, one at least, and a part of a Dataset Management as many as its ranges take up; neither has more than a
/// transfer may have.
pub fn places_are_mapped_and_as_long_as_the_transfer()
    ensures mapped { (p : MadePlan) (part : ℕ) (share : Share) → IsJobsPlan p → share_made part p ≡ Some share →
        All (IsMappedPiece (mapped (regions_of p.given))) (places_in share.plan) }
    ensures source { (p : MadePlan) (part : ℕ) (share : Share) (work : Work) → IsJobsPlan p → share_made part p ≡ Some share →
        work_of share.plan ≡ Some work → form_of work.opcode ≡ Transfer false → All IsRunPiece (places_in share.plan) }
    ensures places { (p : MadePlan) (part : ℕ) (share : Share) (work : Work) (dest : Bool) → IsJobsPlan p → share_made part p ≡ Some share →
        work_of share.plan ≡ Some work → form_of work.opcode ≡ Transfer dest → places_of (places_in share.plan) ≡ places_of work.pieces }
    ensures blocks { (p : MadePlan) (part : ℕ) (share : Share) (work : Work) (dest : Bool) → IsJobsPlan p → share_made part p ≡ Some share →
        work_of share.plan ≡ Some work → form_of work.opcode ≡ Transfer dest →
        (total_len work.pieces ≡ block * length work.units) × (0 < total_len work.pieces) }
    ensures ranges { (p : MadePlan) (part : ℕ) (share : Share) (work : Work) → IsJobsPlan p → share_made part p ≡ Some share →
        work_of share.plan ≡ Some work → form_of work.opcode ≡ Manage → total_len work.pieces ≡ range_size * length work.ranges }
    ensures most { (p : MadePlan) (part : ℕ) (share : Share) → IsJobsPlan p → share_made part p ≡ Some share → len_in share.plan ≤ most_bytes }
{}

/// A transfer of blocks is direct exactly where its host addresses fit PRP. Those of each part fit then, too: each of its bytes has one, and
/// what is built for them spells exactly these.
pub fn direct_addresses_fit_and_spell_the_image()
    ensures fit { (p : MadePlan) (part : ℕ) (share : Share) (work : Work) → IsJobsPlan p → share_made part p ≡ Some share →
        share.plan ≡ Direct work → places_fit (regions_of p.given) (places_in share.plan) ≡ true }
    ensures bounced { (p : MadePlan) (work : Work) (dest : Bool) → IsJobsPlan p → plan_made p ≡ Bounced work →
        form_of work.opcode ≡ Transfer dest → places_fit (regions_of p.given) work.pieces ≡ false }
    ensures addresses { (p : MadePlan) (part : ℕ) (share : Share) (work : Work) → IsJobsPlan p → share_made part p ≡ Some share →
        share.plan ≡ Direct work → length (host_addresses (regions_of p.given) (places_in share.plan)) ≡ total_len work.pieces }
    ensures spelled { (p : MadePlan) (part : ℕ) (share : Share) (work : Work) (memory : ℕ → ℕ) (list_page : ℕ) →
        IsJobsPlan p → share_made part p ≡ Some share → share.plan ≡ Direct work →
        let addresses = host_addresses (regions_of p.given) (places_in share.plan) in
        list_page % page ≡ 0 → HoldsList memory list_page (built list_page addresses) →
        SpellsAddresses addresses (reading_of memory (built list_page addresses) (length addresses)) }
{}

/// The ranges of a plan lie in the guest's namespace. So on the disk each range of a part lies in one extent, where their lengths are
/// numbers of 32 bits, as those of bytes are, or the namespace is one extent: a range outside of it is never in a plan.
pub fn ranges_lie_in_the_namespace()
    ensures fit { (p : MadePlan) (work : Work) → IsJobsPlan p → work_of (plan_made p) ≡ Some work →
        list_all (range_fits (blocks_in p.given.namespace)) work.ranges ≡ true }
    ensures inside { (p : MadePlan) (part : ℕ) (share : Share) → IsJobsPlan p → IsTrue (is_namespace p.given.namespace) →
        length p.given.namespace ≡ 1 → share_made part p ≡ Some share → All (LiesIn p.given.namespace) (ranges_of p.given.namespace share.plan) }
    ensures apart { (p : MadePlan) (part : ℕ) (share : Share) (work : Work) → IsJobsPlan p → IsTrue (is_namespace p.given.namespace) →
        share_made part p ≡ Some share → work_of (plan_made p) ≡ Some work → All (λ range. blocks_of range < 2 ^ 32) work.ranges →
        All (LiesIn p.given.namespace) (ranges_of p.given.namespace share.plan) }
{}
