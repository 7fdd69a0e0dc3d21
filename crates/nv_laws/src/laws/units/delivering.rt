//! Late delivery of a bounced Read.

ghost use Rattle.std.specs.Prelude.{◌≡◌, ◌≢◌, ℕ, Bool, Some, ◌+◌, ◌*◌, ◌<◌, ◌≤◌, ◌==◌, List, All, true, false, length, slice_get};
ghost use Rattle.std.specs.List.{Contains, list_any};
ghost use Rattle.nv_entry.specs.Status.{StatusField};
ghost use Rattle.nv_mem.specs.GuestMap.{IsSound, mapped};
ghost use Rattle.nv_mem.specs.Places.{At, places_of, total_len};
ghost use Rattle.nv_mem.specs.declared.piece.Piece.{Piece};
ghost use Rattle.nv_model.specs.Carried.{units_moved};
ghost use Rattle.nv_model.specs.Footprint.{Destination, buffer_named};
ghost use Rattle.nv_model.specs.Judge.{Transfer, Work, form_of, is_read};
ghost use Rattle.nv_model.specs.Laws.{IsAnother};
ghost use Rattle.nv_model.specs.Limits.{block};
ghost use Rattle.nv_model.specs.Memory.{bytes_from, gathered, image};
ghost use Rattle.nv_model.specs.Private.{Moved, places_of_block};
ghost use Rattle.nv_world_model.specs.Area.{bounce_page, tag_count};
ghost use Rattle.nv_world_model.specs.Device.{Held, device_unit};
ghost use Rattle.nv_world_model.specs.Disciplined.{clash};
ghost use Rattle.nv_world_model.specs.Geometry.{Geometry, Guest, regions_of};
ghost use Rattle.nv_world_model.specs.Plan.{Bounced};
ghost use Rattle.nv_world_model.specs.Share.{Share, shares_of};
ghost use Rattle.nv_world_model.specs.Seat.{Owner, work_of};
ghost use Rattle.nv_world_model.specs.SetUp.{any_two};
ghost use Rattle.nv_world_model.specs.Step.{delivered_all, delivered_from, scattered_to};
ghost use Rattle.nv_world_model.specs.World.{Command, Ended, World, tag_of};
ghost use Rattle.nv_laws_sound.specs.Consistent.{IsConsistent, IsPlanned};
ghost use Rattle.nv_laws_sound.specs.LaidOut.{IsLaidOut};
ghost use Rattle.nv_laws.specs.Delivered.{HasPage, delivered_places};
ghost use Rattle.nv_laws.specs.Places.{HasAt, NameNoneTwice};
ghost use Rattle.nv_laws.specs.Units.{IsHeld, SameBlocks, addresses_of_block, own_units, whole_of};

/// A destination no two of whose runs share a byte names none twice; and where the whole names none twice, neither a
/// share nor a block of it does.
pub fn runs_apart_name_no_byte_twice()
    ensures whole { (pieces : List Piece) → any_two clash (buffer_named Destination pieces) ≡ false →
        NameNoneTwice (places_of pieces) }
    ensures part { (work : Work) (unit : ℕ) → NameNoneTwice (places_of work.pieces) →
        NameNoneTwice (places_of_block work unit) }
    ensures share { (guest : Guest) (entry : List ℕ) (share : Share) (is : IsPlanned guest entry share) (work : Work) →
        work_of share.plan ≡ Some work → NameNoneTwice (places_of is.work.pieces) → NameNoneTwice (places_of work.pieces) }
{}

/// A block of a share lies where the whole's of its number does; and a byte is in a share's part of the buffer only if it
/// is in the whole, and in the whole only if it is in some share's.
pub fn a_share_lies_in_the_whole()
    ensures blocks { (guest : Guest) (entry : List ℕ) (share : Share) (is : IsPlanned guest entry share) (work : Work)
        (dest : Bool) (unit number : ℕ) →
        work_of share.plan ≡ Some work → form_of is.work.opcode ≡ Transfer dest →
        slice_get share.numbers unit ≡ Some number → places_of_block work unit ≡ places_of_block is.work number }
    ensures part { (guest : Guest) (entry : List ℕ) (share : Share) (is : IsPlanned guest entry share) (work : Work)
        (addr : ℕ) → work_of share.plan ≡ Some work → All (IsAnother (At addr)) (places_of is.work.pieces) →
        All (IsAnother (At addr)) (places_of work.pieces) }
    ensures together { (guest : Guest) (entry : List ℕ) (share : Share) (is : IsPlanned guest entry share)
        (dest : Bool) (addr : ℕ) → form_of is.work.opcode ≡ Transfer dest →
        ((other : Share) → Contains (shares_of guest.namespace entry share.whole) other → (work : Work) →
        work_of other.plan ≡ Some work → All (IsAnother (At addr)) (places_of work.pieces)) →
        All (IsAnother (At addr)) (places_of is.work.pieces) }
{}

/// After a unit of a share of a bounced Read, its part of the bounce pages has the bytes that the guest's own memory has at the block's places,
/// where they name no byte twice. The parts of other units have theirs as before, where no place of the share's destination does. At the places of
/// the whole's other blocks, in whichever share they are, the guest's own memory has what it had.
pub fn a_bounced_block_stands_in_its_page()
    ensures moved { (host_bytes : ℕ) (geometry : Geometry) (w : World) (number : ℕ) (guest : Guest) (lane tag : ℕ)
        (share : Share) (whole work : Work)
        (h : Held) (unit : ℕ) (own : Moved) →
        IsLaidOut host_bytes (length w.lanes) geometry → IsConsistent geometry w →
        IsHeld geometry w number guest lane tag share whole work h →
        list_any (λ k. k == unit) h.left ≡ true → share.plan ≡ Bounced work → is_read work.opcode ≡ true →
        SameBlocks guest.namespace own (whole_of w h.differed) → NameNoneTwice (places_of_block work unit) →
        HasAt (units_moved (own_units whole share unit) whole own).memory (places_of_block work unit)
        (bytes_from (device_unit unit geometry.disk_blocks h w.host w.disk w.kept).memory
        (bounce_page geometry.mediator lane tag + block * unit) block) }
    ensures others { (host_bytes : ℕ) (geometry : Geometry) (w : World) (number : ℕ) (guest : Guest) (lane tag : ℕ)
        (share : Share) (whole work : Work)
        (h : Held) (unit : ℕ) (own : Moved) (other : ℕ) →
        IsLaidOut host_bytes (length w.lanes) geometry → IsConsistent geometry w →
        IsHeld geometry w number guest lane tag share whole work h →
        list_any (λ k. k == unit) h.left ≡ true → share.plan ≡ Bounced work → is_read work.opcode ≡ true →
        SameBlocks guest.namespace own (whole_of w h.differed) → NameNoneTwice (places_of work.pieces) → other ≢ unit →
        HasAt own.memory (places_of_block work other) (bytes_from w.host
        (bounce_page geometry.mediator lane tag + block * other) block) →
        HasAt (units_moved (own_units whole share unit) whole own).memory (places_of_block work other)
        (bytes_from (device_unit unit geometry.disk_blocks h w.host w.disk w.kept).memory
        (bounce_page geometry.mediator lane tag + block * other) block) }
    ensures elsewhere { (host_bytes : ℕ) (geometry : Geometry) (w : World) (number : ℕ) (guest : Guest) (lane tag : ℕ)
        (share : Share) (whole work : Work) (h : Held) (unit at other : ℕ) (bytes : List ℕ) (own : Moved) →
        IsLaidOut host_bytes (length w.lanes) geometry → IsConsistent geometry w →
        IsHeld geometry w number guest lane tag share whole work h →
        list_any (λ k. k == unit) h.left ≡ true → is_read work.opcode ≡ true →
        SameBlocks guest.namespace own (whole_of w h.differed) → NameNoneTwice (places_of whole.pieces) →
        slice_get share.numbers unit ≡ Some at → other ≢ at → HasAt own.memory (places_of_block whole other) bytes →
        HasAt (units_moved (own_units whole share unit) whole own).memory (places_of_block whole other) bytes }
{}

/// What is delivered at last of a share is what the guest's own memory has had since the units moved. Where each unit's part of the bounce pages
/// has what that memory has at its places, and the guest's memory has what that memory has elsewhere, the guest's memory after the delivery is that
/// memory. A bounced Read's shares are delivered, and each has a block of bytes for each of its units.
pub fn what_is_delivered_is_what_the_units_moved()
    ensures units { (guest : Guest) (entry : List ℕ) (share : Share) (work : Work) (dest : Bool) →
        IsPlanned guest entry share → work_of share.plan ≡ Some work → form_of work.opcode ≡ Transfer dest →
        total_len work.pieces ≡ block * length work.units }
    ensures when { (o : Owner) (command : Command) (st : StatusField) (share : Share) (work : Work) (w : World) (bounce : ℕ) →
        share.plan ≡ Bounced work → is_read work.opcode ≡ true →
        delivered_from (Some (Ended command st (Some share))) bounce o w ≡ scattered_to bounce work o w }
    ensures memory { (o : Owner) (work : Work) (w : World) (bounce units : ℕ) (memory : ℕ → ℕ) → IsSound o.given.memory_map →
        total_len work.pieces ≡ block * units →
        ((unit : ℕ) → unit < units →
        HasAt memory (places_of_block work unit) (bytes_from w.host (bounce + block * unit) block)) →
        (addr : ℕ) → mapped (regions_of o.given) addr ≡ true →
        (All (IsAnother (At addr)) (places_of work.pieces) → image (regions_of o.given) w.host addr ≡ memory addr) →
        image (regions_of o.given) (scattered_to bounce work o w).host addr ≡ memory addr }
{}

/// Delivered tag by tag, a command's bytes are what the guest's own memory has had since the units moved. Where that memory has what each tag's
/// bounce pages have at the places of its share, and what the guest's memory has elsewhere, the guest's memory after the delivery of all tags is
/// that memory.
pub fn tag_by_tag_what_the_units_moved_is_delivered()
    ensures { (host_bytes : ℕ) (geometry : Geometry) (w : World) (lane : ℕ) (o : Owner) (memory : ℕ → ℕ)
        (tags : List ℕ) (addr : ℕ) →
        IsLaidOut host_bytes (length w.lanes) geometry → IsConsistent geometry w → lane < length w.lanes →
        slice_get geometry.guests o.number ≡ Some o.given → All (λ tag. tag < tag_count) tags →
        All (λ tag. HasPage memory w.host (bounce_page geometry.mediator lane tag)
        (delivered_places (tag_of w lane tag))) tags → mapped (regions_of o.given) addr ≡ true →
        (All (λ tag. All (IsAnother (At addr)) (delivered_places (tag_of w lane tag))) tags →
        image (regions_of o.given) w.host addr ≡ memory addr) →
        image (regions_of o.given) (delivered_all geometry.mediator lane tags o w).host addr ≡ memory addr }
{}

/// The source of a Write and of a Compare is bounced as it was gathered: where the bounce pages have its bytes in order, each unit's part of them
/// has the bytes at the block's places, and that is where the device reads.
pub fn a_bounced_source_stands_in_its_pages()
    ensures part { (memory host : ℕ → ℕ) (work : Work) (bounce unit : ℕ) →
        bytes_from host bounce (total_len work.pieces) ≡ gathered memory (places_of work.pieces) →
        block * unit + block ≤ total_len work.pieces →
        bytes_from host (bounce + block * unit) block ≡ gathered memory (places_of_block work unit) }
    ensures looked_at { (guest : Guest) (work : Work) (host : ℕ → ℕ) (bounce unit : ℕ) →
        block * unit + block ≤ total_len work.pieces →
        gathered host (addresses_of_block (Bounced work) guest bounce unit) ≡ bytes_from host
        (bounce + block * unit) block }
{}
