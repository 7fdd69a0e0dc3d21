//! A moved unit is the private unit.

ghost use Rattle.std.specs.Prelude.{◌≡◌, ℕ, Bool, List, [], ◌∷◌, Some, true, false, ◌==◌, length, map};
ghost use Rattle.std.specs.List.{All, list_any};
ghost use Rattle.nv_model.specs.Carried.{units_moved};
ghost use Rattle.nv_model.specs.Carrying.{at_work};
ghost use Rattle.nv_model.specs.Judge.{Transfer, Work, form_of, is_read};
ghost use Rattle.nv_model.specs.Memory.{gathered};
ghost use Rattle.nv_model.specs.Private.{AtWork, MoveStep, Moved, Private, Shape, Taken, places_of_block, run_of};
ghost use Rattle.nv_world_model.specs.Area.{bounce_page};
ghost use Rattle.nv_world_model.specs.Device.{Held, device_unit, unit_gone};
ghost use Rattle.nv_world_model.specs.Geometry.{Geometry, Guest};
ghost use Rattle.nv_world_model.specs.Share.{Share};
ghost use Rattle.nv_world_model.specs.PrivateSteps.{steps_of};
ghost use Rattle.nv_world_model.specs.Seat.{name_of, numbers_behind};
ghost use Rattle.nv_world_model.specs.Step.{device_moved, replied, step};
ghost use Rattle.nv_world_model.specs.World.{World};
ghost use Rattle.nv_world_model.specs.declared.event.Event.TheVariants as event;
ghost use Rattle.nv_model.specs.declared.reply.Reply.TheVariants as reply;
ghost use Rattle.nv_laws_sound.specs.Consistent.{IsConsistent};
ghost use Rattle.nv_laws_sound.specs.LaidOut.{IsLaidOut};
ghost use Rattle.nv_laws.specs.Units.{GivesBlock, IsHeld, SameBlocks, addresses_of_block, left_without, own_of, own_units, whole_of};

/// A unit of a share that the device moves does to a guest's blocks, each where the disk has it, what those units of the guest's whole command do
/// that it represents (for a range of Dataset Management, all its blocks' units): the same bytes, the same marks, and a Compare differs in both or
/// in neither. The source of a Write and of a Compare is any memory that has at the places of the share's block what the host has where the device
/// reads: the guest's memory where the transfer is direct, the tag's bounce pages where it isn't.
pub fn a_moved_unit_is_the_private_unit()
    ensures blocks { (host_bytes : ℕ) (geometry : Geometry) (w : World) (number : ℕ) (guest : Guest) (lane tag : ℕ)
        (share : Share) (whole work : Work)
        (h : Held) (unit : ℕ) (own : Moved) →
        IsLaidOut host_bytes (length w.lanes) geometry → IsConsistent geometry w →
        IsHeld geometry w number guest lane tag share whole work h →
        list_any (λ k. k == unit) h.left ≡ true → SameBlocks guest.namespace own (whole_of w h.differed) →
        (form_of work.opcode ≡ Transfer false → gathered own.memory (places_of_block work unit)
        ≡ gathered w.host (addresses_of_block share.plan guest (bounce_page geometry.mediator lane tag) unit)) →
        SameBlocks guest.namespace (units_moved (own_units whole share unit) whole own)
        (device_unit unit geometry.disk_blocks h w.host w.disk w.kept) }
    ensures read { (host_bytes : ℕ) (geometry : Geometry) (w : World) (number : ℕ) (guest : Guest) (lane tag : ℕ)
        (share : Share) (whole work : Work)
        (h : Held) (unit : ℕ) (own : Moved) →
        IsLaidOut host_bytes (length w.lanes) geometry → IsConsistent geometry w →
        IsHeld geometry w number guest lane tag share whole work h →
        list_any (λ k. k == unit) h.left ≡ true → is_read work.opcode ≡ true →
        SameBlocks guest.namespace own (whole_of w h.differed) →
        GivesBlock (places_of_block work unit) (addresses_of_block share.plan guest
        (bounce_page geometry.mediator lane tag) unit)
        own.memory (units_moved (own_units whole share unit) whole own).memory
        w.host (device_unit unit geometry.disk_blocks h w.host w.disk w.kept).memory }
    ensures others { (host_bytes : ℕ) (geometry : Geometry) (w : World) (number : ℕ) (guest : Guest) (lane tag : ℕ)
        (share : Share) (whole work : Work)
        (h : Held) (unit : ℕ) (own : Moved) →
        IsLaidOut host_bytes (length w.lanes) geometry → IsConsistent geometry w →
        IsHeld geometry w number guest lane tag share whole work h →
        list_any (λ k. k == unit) h.left ≡ true → is_read work.opcode ≡ false →
        ((units_moved (own_units whole share unit) whole own).memory ≡ own.memory)
        × ((device_unit unit geometry.disk_blocks h w.host w.disk w.kept).memory ≡ w.host) }
{}

/// The steps that a unit's event represents on its guest's private controller are those of the units that it represents, under the name of the tag
/// that the command goes by. Where the command is at work there with those units left, these steps are a run, and after it the command is at work
/// again, without those units.
pub fn a_units_steps_are_a_run()
    ensures steps { (geometry : Geometry) (w : World) (number : ℕ) (guest : Guest) (lane tag : ℕ) (share : Share)
        (whole work : Work) (h : Held) (unit : ℕ) (is : IsHeld geometry w number guest lane tag share whole work h) →
        steps_of number guest w (event.DevMove lane tag unit) reply.Done
        ≡ map (MoveStep (name_of lane is.command.leader)) (numbers_behind share (unit ∷ [])) }
    ensures run { (host_bytes : ℕ) (geometry : Geometry) (w : World) (number : ℕ) (guest : Guest) (lane tag : ℕ)
        (share : Share) (whole work : Work) (h : Held) (unit : ℕ) (shape : Shape) (name : ℕ) (t : Taken) (p : Private)
        (left : List ℕ) (differed : Bool) →
        IsLaidOut host_bytes (length w.lanes) geometry → IsConsistent geometry w →
        IsHeld geometry w number guest lane tag share whole work h → p.bag name ≡ Some t →
        t.progress ≡ AtWork whole left differed →
        All (λ k. list_any (λ n. n == k) left ≡ true) (numbers_behind share (unit ∷ [])) →
        run_of shape (map (MoveStep name) (numbers_behind share (unit ∷ []))) p
        ≡ Some (record {
          state = at_work name t whole (left_without (numbers_behind share (unit ∷ [])) left)
              (units_moved (own_units whole share unit) whole (own_of p differed)) p;
          seen = [];
        }) }
{}

/// A unit that is left moves by its event, whichever unit is named: the host, the disk and the marks after it are those that the unit leaves, and
/// the share is in the device with one unit fewer.
pub fn a_unit_moves_by_its_event()
    ensures done { (geometry : Geometry) (w : World) (number : ℕ) (guest : Guest) (lane tag : ℕ) (share : Share) (whole work : Work) (h : Held) (unit : ℕ) →
        IsHeld geometry w number guest lane tag share whole work h → list_any (λ k. k == unit) h.left ≡ true →
        step geometry (event.DevMove lane tag unit) w ≡ replied reply.Done
        (device_moved geometry.disk_blocks lane tag unit h w) }
    ensures behind { (geometry : Geometry) (w : World) (lane tag : ℕ) (h : Held) (unit : ℕ) →
        whole_of (device_moved geometry.disk_blocks lane tag unit h w)
        (device_unit unit geometry.disk_blocks h w.host w.disk w.kept).differed
        ≡ device_unit unit geometry.disk_blocks h w.host w.disk w.kept }
    ensures held { (geometry : Geometry) (w : World) (number : ℕ) (guest : Guest) (lane tag : ℕ) (share : Share) (whole work : Work) (h : Held) (unit : ℕ) →
        IsHeld geometry w number guest lane tag share whole work h →
        IsHeld geometry (device_moved geometry.disk_blocks lane tag unit h w) number guest lane tag share whole work
        (unit_gone unit (device_unit unit geometry.disk_blocks h w.host w.disk w.kept).differed h) }
{}
