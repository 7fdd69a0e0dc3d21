//! The verdict and the source of a command that is handed on.

ghost use Rattle.std.specs.Prelude.{◌≡◌, ◌≢◌, ℕ, ◌<◌, List, All, Some, false, length, slice_get};
ghost use Rattle.std.specs.List.{AllPairs};
ghost use Rattle.nv_mem.specs.GuestMap.{mapped};
ghost use Rattle.nv_mem.specs.Places.{places_of, total_len};
ghost use Rattle.nv_model.specs.Dialogue.{asked};
ghost use Rattle.nv_model.specs.Judge.{Transfer, Work, form_of, judge};
ghost use Rattle.nv_model.specs.Memory.{bytes_from, gathered, image};
ghost use Rattle.nv_model.specs.Parts.{ShowsOn};
ghost use Rattle.nv_model.specs.Private.{verdict_in};
ghost use Rattle.nv_model.specs.Transcript.{ReadDone, Settled};
ghost use Rattle.nv_world_model.specs.Area.{bounce_page, ring_size, tag_count};
ghost use Rattle.nv_world_model.specs.Geometry.{Geometry, Guest, regions_of, shape_of};
ghost use Rattle.nv_world_model.specs.Plan.{Bounced, Plan, plan_of, plan_over};
ghost use Rattle.nv_world_model.specs.Share.{Share};
ghost use Rattle.nv_world_model.specs.Device.{DeviceLane};
ghost use Rattle.nv_world_model.specs.ShareArea.{share_written};
ghost use Rattle.nv_world_model.specs.Seat.{Owner};
ghost use Rattle.nv_world_model.specs.Step.{handed_on};
ghost use Rattle.nv_world_model.specs.World.{Command, World};
ghost use Rattle.nv_laws_sound.specs.Consistent.{IsPlanned};
ghost use Rattle.nv_laws_sound.specs.LaidOut.{IsLaidOut};

/// Verdict at submission: where the reads of a command's lists show a memory wherever judging the command in that
/// memory asks, its plan is that of its verdict in that memory, whatever else they show and whenever they were made.
pub fn the_plan_is_the_verdicts_at_submission()
    ensures { (guest : Guest) (entry : List ℕ) (reads : List ReadDone) (plan : Plan) (memory : ℕ → ℕ) →
        plan_over guest entry reads ≡ Settled plan →
        All (ShowsOn memory (asked memory (judge (mapped (regions_of guest)) guest.limit
        (shape_of guest).blocks entry))) reads →
        plan ≡ plan_of (regions_of guest) (verdict_in (shape_of guest) memory entry) }
{}

/// Where it is bounced, a share's part of the source of a Write and of a Compare is in its tag's bounce pages, in order, as the guest's memory has
/// it.
pub fn a_source_is_bounced_as_the_guest_has_it()
    ensures { (geometry : Geometry) (guest : Guest) (entry : List ℕ) (share : Share) (work : Work)
        (lane tag slot : ℕ) (host : ℕ → ℕ) → IsPlanned guest entry share →
        slot < ring_size → share.plan ≡ Bounced work → form_of work.opcode ≡ Transfer false →
        bytes_from (share_written share guest entry geometry.mediator lane tag slot host)
        (bounce_page geometry.mediator lane tag) (total_len work.pieces)
        ≡ gathered (image (regions_of guest) host) (places_of work.pieces) }
{}

/// So each share finds its part of the source in its tag's pages where all are handed on one after the other, each in a
/// tag of its own: as the guest's memory had it before the first, which it has still.
pub fn each_share_finds_its_part_of_the_source()
    ensures source { (host_bytes : ℕ) (geometry : Geometry) (w : World) (lane : ℕ) (d : DeviceLane)
        (command : Command) (o : Owner) (tags : List ℕ) (shares : List Share) (i tag : ℕ) (share : Share) (work : Work) →
        IsLaidOut host_bytes (length w.lanes) geometry → lane < length w.lanes → slice_get w.device lane ≡ Some d →
        d.tail < ring_size → slice_get geometry.guests o.number ≡ Some o.given →
        All (IsPlanned o.given command.entry) shares → All (λ tag. tag < tag_count) tags → AllPairs (λ a b. a ≢ b) tags →
        slice_get tags i ≡ Some tag → slice_get shares i ≡ Some share →
        share.plan ≡ Bounced work → form_of work.opcode ≡ Transfer false →
        bytes_from (handed_on geometry.mediator lane tags shares command o w).host
        (bounce_page geometry.mediator lane tag) (total_len work.pieces)
        ≡ gathered (image (regions_of o.given) w.host) (places_of work.pieces) }
    ensures memory { (host_bytes : ℕ) (geometry : Geometry) (w : World) (lane : ℕ) (d : DeviceLane)
        (command : Command) (o : Owner) (tags : List ℕ) (shares : List Share) →
        IsLaidOut host_bytes (length w.lanes) geometry → lane < length w.lanes → slice_get w.device lane ≡ Some d →
        d.tail < ring_size → slice_get geometry.guests o.number ≡ Some o.given →
        All (IsPlanned o.given command.entry) shares → All (λ tag. tag < tag_count) tags →
        image (regions_of o.given) (handed_on geometry.mediator lane tags shares command o w).host
        ≡ image (regions_of o.given) w.host }
{}
