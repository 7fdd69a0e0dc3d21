//! A guest's memory in the host after a unit of a share of its command.

ghost use Rattle.std.specs.Prelude.{◌≡◌, ℕ, true, ◌==◌, length};
ghost use Rattle.std.specs.List.{list_any};
ghost use Rattle.nv_model.specs.Carried.{units_moved};
ghost use Rattle.nv_model.specs.Judge.{Work, is_read};
ghost use Rattle.nv_model.specs.Memory.{gathered, image};
ghost use Rattle.nv_model.specs.Private.{Moved, places_of_block};
ghost use Rattle.nv_world_model.specs.Area.{bounce_page};
ghost use Rattle.nv_world_model.specs.Device.{Held, device_unit};
ghost use Rattle.nv_world_model.specs.Geometry.{Geometry, Guest, regions_of};
ghost use Rattle.nv_world_model.specs.Plan.{Bounced, Direct};
ghost use Rattle.nv_world_model.specs.Share.{Share};
ghost use Rattle.nv_world_model.specs.World.{World};
ghost use Rattle.nv_laws_sound.specs.Consistent.{IsConsistent};
ghost use Rattle.nv_laws_sound.specs.LaidOut.{IsLaidOut};
ghost use Rattle.nv_laws.specs.Units.{GivesBlock, IsHeld, SameBlocks, addresses_of_block, own_units, whole_of};

/// A direct transfer's places have in the guest's memory what the host has where the device accesses it. A direct Read's unit gives the same bytes
/// to the same places of the guest's memory and of its private controller's memory: a byte that is the same in both stays so.
pub fn a_direct_unit_moves_in_the_guests_memory()
    ensures source { (host_bytes : ℕ) (geometry : Geometry) (w : World) (number : ℕ) (guest : Guest) (lane tag : ℕ)
        (share : Share) (whole work : Work)
        (h : Held) (unit : ℕ) →
        IsLaidOut host_bytes (length w.lanes) geometry → IsConsistent geometry w →
        IsHeld geometry w number guest lane tag share whole work h →
        share.plan ≡ Direct work →
        gathered (image (regions_of guest) w.host) (places_of_block work unit)
        ≡ gathered w.host (addresses_of_block share.plan guest (bounce_page geometry.mediator lane tag) unit) }
    ensures read { (host_bytes : ℕ) (geometry : Geometry) (w : World) (number : ℕ) (guest : Guest) (lane tag : ℕ)
        (share : Share) (whole work : Work)
        (h : Held) (unit : ℕ) (own : Moved) →
        IsLaidOut host_bytes (length w.lanes) geometry → IsConsistent geometry w →
        IsHeld geometry w number guest lane tag share whole work h →
        list_any (λ k. k == unit) h.left ≡ true → share.plan ≡ Direct work → is_read work.opcode ≡ true →
        SameBlocks guest.namespace own (whole_of w h.differed) →
        GivesBlock (places_of_block work unit) (places_of_block work unit) own.memory (units_moved
        (own_units whole share unit) whole own).memory
        (image (regions_of guest) w.host)
        (image (regions_of guest) (device_unit unit geometry.disk_blocks h w.host w.disk w.kept).memory) }
    ensures same { (host_bytes : ℕ) (geometry : Geometry) (w : World) (number : ℕ) (guest : Guest) (lane tag : ℕ)
        (share : Share) (whole work : Work)
        (h : Held) (unit : ℕ) (own : Moved) →
        IsLaidOut host_bytes (length w.lanes) geometry → IsConsistent geometry w →
        IsHeld geometry w number guest lane tag share whole work h →
        list_any (λ k. k == unit) h.left ≡ true → share.plan ≡ Direct work → is_read work.opcode ≡ true →
        SameBlocks guest.namespace own (whole_of w h.differed) →
        (addr : ℕ) → own.memory addr ≡ image (regions_of guest) w.host addr →
        (units_moved (own_units whole share unit) whole own).memory addr
        ≡ image (regions_of guest) (device_unit unit geometry.disk_blocks h w.host w.disk w.kept).memory addr }
{}

/// A bounced command's unit leaves the guest's memory as it was.
pub fn a_bounced_unit_leaves_the_guests_memory()
    ensures { (host_bytes : ℕ) (geometry : Geometry) (w : World) (number : ℕ) (guest : Guest) (lane tag : ℕ)
        (share : Share) (whole work : Work)
        (h : Held) (unit : ℕ) →
        IsLaidOut host_bytes (length w.lanes) geometry → IsConsistent geometry w →
        IsHeld geometry w number guest lane tag share whole work h →
        share.plan ≡ Bounced work →
        image (regions_of guest) (device_unit unit geometry.disk_blocks h w.host w.disk w.kept).memory ≡ image
        (regions_of guest) w.host }
{}
