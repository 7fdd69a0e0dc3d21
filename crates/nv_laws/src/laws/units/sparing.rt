//! What others' units, and blocks that become kept, do to a guest's blocks.

ghost use Rattle.std.specs.Prelude.{◌≡◌, ◌≢◌, ℕ, ◌<◌, Some, true, false, ◌==◌, length, slice_get};
ghost use Rattle.std.specs.List.{list_any};
ghost use Rattle.nv_model.specs.Judge.{Work};
ghost use Rattle.nv_model.specs.Private.{Private};
ghost use Rattle.nv_ns.specs.Extents.{blocks_in, place_in};
ghost use Rattle.nv_world_model.specs.Device.{Held, device_unit};
ghost use Rattle.nv_world_model.specs.Geometry.{Geometry, Guest};
ghost use Rattle.nv_world_model.specs.Share.{Share};
ghost use Rattle.nv_world_model.specs.PrivateSteps.{keeps, others_moves, steps_of};
ghost use Rattle.nv_world_model.specs.Step.{kept_block, step};
ghost use Rattle.nv_world_model.specs.World.{World};
ghost use Rattle.nv_world_model.specs.declared.event.Event.{Event};
ghost use Rattle.nv_world_model.specs.declared.event.Event.TheVariants as event;
ghost use Rattle.nv_model.specs.declared.reply.Reply.TheVariants as reply;
ghost use Rattle.nv_laws_sound.specs.Consistent.{IsConsistent};
ghost use Rattle.nv_laws_sound.specs.LaidOut.{IsLaidOut};
ghost use Rattle.nv_laws.specs.Marks.{HasSameDisk, RunsToMarks, SameMarks, touches_blocks};
ghost use Rattle.nv_laws.specs.Units.{IsHeld};

/// Another guest's unit leaves the bytes of a guest's blocks as they are. The steps that it represents on the guest's private controller (a Flush's
/// unit makes each block kept, any other unit is no step) give the guest's marks exactly.
pub fn anothers_unit_raises_marks_at_most()
    ensures steps { (geometry : Geometry) (w : World) (owner : ℕ) (held : Guest) (lane tag : ℕ) (share : Share) (whole work : Work) (h : Held)
        (unit number : ℕ) (guest : Guest) → IsHeld geometry w owner held lane tag share whole work h → number ≢ owner →
        steps_of number guest w (event.DevMove lane tag unit) reply.Done ≡ others_moves (Some work) guest.namespace }
    ensures marks { (host_bytes : ℕ) (geometry : Geometry) (w : World) (owner : ℕ) (held : Guest) (lane tag : ℕ)
        (share : Share) (whole work : Work)
        (h : Held) (unit number : ℕ) (guest : Guest) (p : Private) →
        IsLaidOut host_bytes (length w.lanes) geometry → IsConsistent geometry w →
        IsHeld geometry w owner held lane tag share whole work h →
        list_any (λ k. k == unit) h.left ≡ true → slice_get geometry.guests number ≡ Some guest → number ≢ owner →
        SameMarks guest.namespace p.kept w.kept →
        RunsToMarks guest (others_moves (Some work) guest.namespace) p
        (device_unit unit geometry.disk_blocks h w.host w.disk w.kept).kept }
    ensures bytes { (host_bytes : ℕ) (geometry : Geometry) (w : World) (owner : ℕ) (held : Guest) (lane tag : ℕ)
        (share : Share) (whole work : Work)
        (h : Held) (unit number : ℕ) (guest : Guest) (lba offset : ℕ) →
        IsLaidOut host_bytes (length w.lanes) geometry → IsConsistent geometry w →
        IsHeld geometry w owner held lane tag share whole work h →
        list_any (λ k. k == unit) h.left ≡ true → slice_get geometry.guests number ≡ Some guest → number ≢ owner →
        lba < blocks_in guest.namespace →
        (device_unit unit geometry.disk_blocks h w.host w.disk w.kept).disk
        (place_in guest.namespace lba) offset ≡ w.disk (place_in guest.namespace lba) offset }
{}

/// Where a block of the disk becomes kept, the steps that this represents give a guest's marks exactly: the guest's own block becomes kept if the
/// disk's block is one of its blocks, and otherwise nothing happens.
pub fn a_kept_block_raises_its_own_mark()
    ensures steps { (w : World) (number : ℕ) (guest : Guest) (block : ℕ) →
        steps_of number guest w (event.Keep block) reply.Done ≡ keeps guest.namespace block }
    ensures marks { (guest : Guest) (p : Private) (w : World) (block : ℕ) → SameMarks guest.namespace p.kept w.kept →
        RunsToMarks guest (keeps guest.namespace block) p (kept_block block w).kept }
{}

/// No event but a unit that moves and a block that becomes kept changes any block or mark.
pub fn blocks_change_by_units_and_kept_blocks_alone()
    ensures { (w : World) (geometry : Geometry) (e : Event) → touches_blocks e ≡ false →
        HasSameDisk w (step geometry e w).world }
{}
