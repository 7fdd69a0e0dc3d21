//! Laws about fine traces, as functions that do nothing: each contract is a law.

ghost use Rattle.std.specs.Prelude.{◌≡◌, ℕ, Bool, List, None, Some, replicate, slice_get};
ghost use Rattle.nv_fine.specs.Drive.{DriveAccess, DriveLane, Outside, Working, driven};
ghost use Rattle.nv_fine.specs.Fine.{Access, Call, Fine, traced};
ghost use Rattle.nv_fine.specs.Owned.{IsFresh, IsOwned, IsPosted, IsWaiting, fresh_lane};
ghost use Rattle.nv_fine.specs.Reach.{IsForCommands, IsIn};
ghost use Rattle.nv_fine.specs.Turns.{StaysWithin, Turn, start_of, turned};
ghost use Rattle.nv_fine.specs.Whose.{IsItsGuests};
ghost use Rattle.nv_laws_sound.specs.Consistent.{IsBetween};
ghost use Rattle.nv_mem.specs.GuestMap.{IsSound};
ghost use Rattle.nv_world_model.specs.Geometry.{Geometry, Guest};
ghost use Rattle.nv_world_model.specs.SetUp.{SetUp, host_refusal_of};
ghost use Rattle.nv_world_model.specs.World.{Lane};

/// From the start of any set-up that is not refused, and from anything in memory, each access of a call of the mediator reads and changes nothing but the memory,
/// the tags' pages and the next ring slots of the guest that the call is for, and the slot of the physical completion that is read next. It is so in every fine
/// trace; and it is so whatever guests and drive do between two accesses, be it what no drive may do.
pub fn each_access_leaves_the_others_alone()
    ensures traces { (s : SetUp) (o : Outside) (zeroes : Bool) (accesses : List Access) (f : Fine) (c : Call) → host_refusal_of s ≡ None →
        ((number : ℕ) (guest : Guest) → slice_get s.geometry.guests number ≡ Some guest → IsSound guest.memory_map) →
        traced s.geometry zeroes accesses (start_of s o) ≡ Some f → f.call ≡ Some c → StaysWithin s.geometry f c }
    ensures whatever_others_do { (s : SetUp) (o : Outside) (turns : List Turn) (f : Fine) (c : Call) → host_refusal_of s ≡ None →
        ((number : ℕ) (guest : Guest) → slice_get s.geometry.guests number ≡ Some guest → IsSound guest.memory_map) →
        turned s.geometry turns (start_of s o) ≡ Some f → f.call ≡ Some c → StaysWithin s.geometry f c }
{}

/// Each access of the drive reads an entry that waits, or list or source of a command that is in it; it writes the destination of such a command, or the
/// completion that comes next; and of blocks it changes those that such a command names. It has no other way into memory.
pub fn each_access_of_the_drive_is_for_a_command()
    ensures { (geometry : Geometry) (zeroes : Bool) (tails : List ℕ) (a : DriveAccess) (o p : Outside) →
        driven geometry zeroes tails a o ≡ Some p → IsForCommands geometry tails a o p }
{}

/// In every fine trace from the start of any set-up that is not refused, with a fresh drive, what is in the drive is the mediator's. Each command that the drive has
/// taken is of a tag that flies, by its identifier, with the entry that the mediator made of a share of a guest's command. What the drive may read for it, of list and
/// source, and what it may write is that guest's memory, or in pages of that guest's tags; and blocks that it names by SLBA and NLB are in that guest's extents. Each
/// entry that waits in a submission ring is such an entry, and is in memory, whole. Each completion that waits is of a tag that flies, and the drive has that tag's
/// command no longer.
/// So it is whatever guests store meanwhile, at whichever times the drive reads, and whichever call of the mediator is under way.
pub fn what_is_in_the_drive_is_the_mediators()
    // A drive can be fresh: over a memory of zeros.
    ensures start { (s : SetUp) (disk : ℕ → ℕ → ℕ) (kept : ℕ → Bool) →
        IsFresh s (record { memory = (λ _. 0); disk = disk; kept = kept; lanes = replicate s.lanes fresh_lane }) }
    ensures commands { (s : SetUp) (o : Outside) (zeroes : Bool) (accesses : List Access) (f : Fine) (lane id : ℕ) (k : Working) → host_refusal_of s ≡ None →
        ((number : ℕ) (guest : Guest) → slice_get s.geometry.guests number ≡ Some guest → IsSound guest.memory_map) → IsFresh s o →
        traced s.geometry zeroes accesses (start_of s o) ≡ Some f → IsIn f.outside lane id k → IsOwned s.geometry f lane id k }
    ensures entries { (s : SetUp) (o : Outside) (zeroes : Bool) (accesses : List Access) (f : Fine) (lane slot tail : ℕ) (d : DriveLane) → host_refusal_of s ≡ None →
        ((number : ℕ) (guest : Guest) → slice_get s.geometry.guests number ≡ Some guest → IsSound guest.memory_map) → IsFresh s o →
        traced s.geometry zeroes accesses (start_of s o) ≡ Some f → slice_get f.outside.lanes lane ≡ Some d → slice_get f.side.tails lane ≡ Some tail →
        IsBetween d.head tail slot → IsWaiting s.geometry f lane slot }
    ensures completions { (s : SetUp) (o : Outside) (zeroes : Bool) (accesses : List Access) (f : Fine) (lane slot : ℕ) (l : Lane) (d : DriveLane) → host_refusal_of s ≡ None →
        ((number : ℕ) (guest : Guest) → slice_get s.geometry.guests number ≡ Some guest → IsSound guest.memory_map) → IsFresh s o →
        traced s.geometry zeroes accesses (start_of s o) ≡ Some f → slice_get f.side.lanes lane ≡ Some l → slice_get f.outside.lanes lane ≡ Some d →
        IsBetween l.head d.posted slot → IsPosted s.geometry f lane slot d }
{}

/// In every fine trace from such a start with a fresh drive, each access of the drive is for one guest: the one whose tag has the identifier that the command goes by. What
/// it reads or changes in memory is that guest's memory, or in pages of that guest's tags; or an entry that the mediator put into a submission ring, or the completion that
/// comes next. The blocks that it changes are in that guest's extents, but for those that a Dataset Management names in its ranges.
pub fn each_access_of_the_drive_is_its_guests()
    ensures { (s : SetUp) (o p : Outside) (zeroes : Bool) (accesses : List Access) (a : DriveAccess) (f : Fine) → host_refusal_of s ≡ None →
        ((number : ℕ) (guest : Guest) → slice_get s.geometry.guests number ≡ Some guest → IsSound guest.memory_map) → IsFresh s o →
        traced s.geometry zeroes accesses (start_of s o) ≡ Some f → driven s.geometry zeroes f.side.tails a f.outside ≡ Some p → IsItsGuests s.geometry f a p }
{}
