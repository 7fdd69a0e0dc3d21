//! A physical entry names bytes and blocks of its command's guest alone, and nothing else is stored in a submission ring.

ghost use Rattle.std.specs.Prelude.{◌≡◌, ℕ, ◌<◌, All, List, Some, None, false, length, slice_get, true};
ghost use Rattle.std.specs.List.{Contains};
ghost use Rattle.nv_laws_sound.specs.Area.{ranges_of};
ghost use Rattle.nv_laws_sound.specs.Consistent.{IsPlanned};
ghost use Rattle.nv_laws_sound.specs.LaidOut.{IsLaidOut};
ghost use Rattle.nv_laws_sound.specs.Side.{IsKept, Side};
ghost use Rattle.nv_machine.specs.Effects.{Effect, writes_to};
ghost use Rattle.nv_machine.specs.Entries.{IsInRing, IsOfShare, IsOwnEntry, StoresEntry};
ghost use Rattle.nv_machine.specs.Machine.{call};
ghost use Rattle.nv_mem.specs.GuestMap.{IsSound};
ghost use Rattle.nv_model.specs.Transcript.{ReadDone, Settled};
ghost use Rattle.nv_world_model.specs.Area.{bounce_page, list_bytes, list_page, prps_of, tag_count};
ghost use Rattle.nv_world_model.specs.Geometry.{Geometry, Guest};
ghost use Rattle.nv_world_model.specs.Plan.{Plan, plan_over};
ghost use Rattle.nv_world_model.specs.SetUp.{SetUp, host_refusal_of};
ghost use Rattle.nv_world_model.specs.Share.{Share, shares_of};
ghost use Rattle.nv_world_model.specs.ShareArea.{is_no_command, share_entry};
ghost use Rattle.nv_world_model.specs.declared.event.Event.TheVariants as event;

/// In any set-up that is not refused, the physical entry of a share of a plan names bytes of its guest's memory or of its tag's bounce pages, and blocks of
/// its guest's extents, and no others: whatever is in memory but for what its tag's pages show. A share that manages no range has no entry.
pub fn a_physical_entry_is_its_guests()
    ensures { (s : SetUp) (number : ℕ) (given : Guest) (entry : List ℕ) (share : Share) (lane tag : ℕ) → host_refusal_of s ≡ None →
        ((other : ℕ) (guest : Guest) → slice_get s.geometry.guests other ≡ Some guest → IsSound guest.memory_map) →
        slice_get s.geometry.guests number ≡ Some given → lane < s.lanes → tag < tag_count → IsPlanned given entry share → is_no_command share ≡ false →
        IsOwnEntry s.geometry given lane tag
        (list_bytes (prps_of share.plan given (list_page s.geometry.mediator lane tag) (bounce_page s.geometry.mediator lane tag)))
        (ranges_of share.plan given) (share_entry share given.namespace given entry s.geometry.mediator lane tag) }
{}

/// Each share of a plan is planned, so each effect of a Submit is one of those of such a share, of the command that its tag names; and where an effect writes
/// in a submission ring at all, it stores the share's whole physical entry, which is the guest's.
pub fn what_is_handed_on_is_planned()
    ensures shares { (given : Guest) (entry : List ℕ) (reads : List ReadDone) (plan : Plan) → plan_over given entry reads ≡ Settled plan →
        All (IsPlanned given entry) (shares_of given.namespace entry plan) }
    ensures effects { (geometry : Geometry) (s : Side) (lane leader : ℕ) (fetched : List ℕ) → IsKept geometry s →
        All (IsOfShare geometry s lane leader) (call geometry (event.Submit lane leader) fetched s).now.effects }
    ensures rings { (host_bytes : ℕ) (geometry : Geometry) (s : Side) (lane leader other at : ℕ) (fetched : List ℕ) (effect : Effect) →
        IsLaidOut host_bytes (length s.lanes) geometry → IsKept geometry s →
        Contains (call geometry (event.Submit lane leader) fetched s).now.effects effect →
        IsInRing geometry other at → writes_to effect at ≡ true → StoresEntry geometry s lane leader effect }
{}
