//! What groups of tags come to, as functions that do nothing: each contract is a law.

ghost use Rattle.std.specs.Prelude.{◌≡◌, ℕ, List, Some, length};
ghost use Rattle.std.specs.List.{Contains};
ghost use Rattle.nv_world_model.specs.World.{Command};
ghost use Rattle.nv_tags.specs.Laws.{AreLed};
ghost use Rattle.nv_tags.specs.Tags.{Slot, claimed, group, leader_in, released, taken_by};

/// Tags that a command is given are as many as were asked for; and where no command goes by a free tag, they are exactly the group of the
/// lowest of them.
pub fn a_claimed_group_is_its_leaders()
    ensures count { (slots : List Slot) (count : ℕ) (tags : List ℕ) → claimed count slots ≡ Some tags → length tags ≡ count }
    ensures group { (slots : List Slot) (count leader : ℕ) (tags : List ℕ) (command : Command) → AreLed slots →
        claimed count slots ≡ Some tags → leader_in (Some tags) ≡ Some leader → command.leader ≡ leader →
        group leader (taken_by command tags slots) ≡ tags }
    ensures led { (slots : List Slot) (count leader : ℕ) (tags : List ℕ) (command : Command) → AreLed slots →
        claimed count slots ≡ Some tags → leader_in (Some tags) ≡ Some leader → command.leader ≡ leader →
        AreLed (taken_by command tags slots) }
{}

/// No tag is in two groups.
pub fn no_tag_is_in_two_groups()
    ensures { (slots : List Slot) (tag leader other : ℕ) → Contains (group leader slots) tag → Contains (group other slots) tag →
        leader ≡ other }
{}
