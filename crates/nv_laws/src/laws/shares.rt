//! What is written for the share of a command that has no other. What a share is of its plan is said by the laws of `nv_world_model`. This builds on
//! them: of a command that is one physical command, the guest can read its own entry in what is handed on.

ghost use Rattle.std.specs.Prelude.{◌≡◌, ℕ, Bool, List, [], ◌∷◌, length};
ghost use Rattle.nv_entry.specs.Submission.{opcode_of};
ghost use Rattle.nv_mem.specs.declared.region.Region.{Region};
ghost use Rattle.nv_ns.specs.Extents.{Namespace, blocks_in};
ghost use Rattle.nv_model.specs.Endings.{MayEndIn};
ghost use Rattle.nv_model.specs.Judge.{Go, Work, form_of, judge};
ghost use Rattle.nv_world_model.specs.Area.{bounce_page, list_page, physical_entry, prps_of};
ghost use Rattle.nv_world_model.specs.Geometry.{Guest};
ghost use Rattle.nv_world_model.specs.Plan.{plan_of};
ghost use Rattle.nv_world_model.specs.Share.{shares_of, whole_share};
ghost use Rattle.nv_world_model.specs.ShareArea.{share_entry};
ghost use Rattle.nv_laws.specs.ByEntry.{entry_dwords};

/// With one extent the whole is a command's one share. What is handed on for the whole as one share, in any namespace, is by the fields of the
/// guest's entry: its block on the disk with its NLB and FUA, or its NR and deallocate, and with the PRPs of its plan.
pub fn one_extent_is_written_by_the_entry()
    ensures alone { (regions : List Region) (mapped : ℕ → Bool) (limit : ℕ) (ns : Namespace) (entry : List ℕ) (work : Work) → length ns ≡ 1 →
        MayEndIn (judge mapped limit (blocks_in ns) entry) (Go work) →
        shares_of ns entry (plan_of regions (Go work)) ≡ whole_share (plan_of regions (Go work)) work ∷ [] }
    ensures entry { (regions : List Region) (mapped : ℕ → Bool) (limit : ℕ) (guest : Guest) (entry : List ℕ) (work : Work) (mediator lane tag : ℕ) →
        MayEndIn (judge mapped limit (blocks_in guest.namespace) entry) (Go work) →
        share_entry (whole_share (plan_of regions (Go work)) work) guest.namespace guest entry mediator lane tag
        ≡ physical_entry (opcode_of entry) tag
        (prps_of (plan_of regions (Go work)) guest (list_page mediator lane tag) (bounce_page mediator lane tag))
        (entry_dwords (form_of work.opcode) guest.namespace entry) }
{}
