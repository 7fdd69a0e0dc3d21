//! The tags of a command in a consistent world.

ghost use Rattle.std.specs.Prelude.{◌≡◌, ℕ, ◌≤◌, List, map, Some, length, slice_get};
ghost use Rattle.nv_model.specs.Transcript.{ReadDone};
ghost use Rattle.nv_world_model.specs.Geometry.{Geometry, Guest};
ghost use Rattle.nv_world_model.specs.Share.{Share, shares_of, tags_of_entry};
ghost use Rattle.nv_world_model.specs.World.{Command, Flying, Lane, Standing, Tag, Taken, World, group};
ghost use Rattle.nv_laws_sound.specs.Consistent.{IsConsistent};
ghost use Rattle.nv_laws_sound.specs.Groups.{Handed, command_of, group_of, part_of, parts_of};

/// A command's tags go by one of them that is no higher than the others. A command that waits for its plan has as many as it may become
/// physical commands, and one that was handed on has the shares of its plan in them, in order.
pub fn a_commands_tags_belong_together()
    ensures leads { (geometry : Geometry) (w : World) (lane tag : ℕ) (l : Lane) (t : Tag) (command : Command) → IsConsistent geometry w →
        slice_get w.lanes lane ≡ Some l → slice_get l.tags tag ≡ Some t → command_of (part_of t) ≡ Some command →
        (command.leader ≤ tag) × ((first : Tag) × ((slice_get l.tags command.leader ≡ Some first) × (command_of (part_of first) ≡ Some command))) }
    ensures waiting { (geometry : Geometry) (w : World) (lane tag : ℕ) (l : Lane) (command : Command) (reads : List ReadDone) (guest : Guest) →
        IsConsistent geometry w → slice_get w.lanes lane ≡ Some l → slice_get l.tags tag ≡ Some (Taken command reads) → command.leader ≡ tag →
        slice_get geometry.guests command.guest ≡ Some guest → length (group w lane tag) ≡ tags_of_entry guest.namespace command.entry }
    ensures handed { (geometry : Geometry) (w : World) (lane tag : ℕ) (l : Lane) (command : Command) (share : Share) (standing : Standing) (guest : Guest) →
        IsConsistent geometry w → slice_get w.lanes lane ≡ Some l → slice_get l.tags tag ≡ Some (Flying command share standing) →
        slice_get geometry.guests command.guest ≡ Some guest →
        group_of command.leader (parts_of l.tags) ≡ map (Handed command) (shares_of guest.namespace command.entry share.whole) }
{}
