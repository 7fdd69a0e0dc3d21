//! What comes of shares, as functions that do nothing: each contract is a law.

ghost use Rattle.std.specs.Prelude.{ℕ, List};
ghost use Rattle.nv_host.specs.Served.{IsServed, Served};
ghost use Rattle.nv_host.specs.Sharing.{AreWithin, HasRoom, IsWithin};
ghost use Rattle.nv_host.specs.Work.{IsWork, IsWorked, Scene, scene};
ghost use Rattle.nv_host.specs.declared.worked.Scope.{Scope};
ghost use Rattle.nv_host.specs.declared.worked.Scope.TheVariants as scope;
ghost use Rattle.nv_host.specs.declared.worked.Worked.{Worked};
ghost use Rattle.nv_world_model.specs.declared.event.Event.TheVariants as event;

/// Where no guest has more than its share of a lane, a guest whose share has room there may have its next command taken, whatever others do and whatever is
/// in memory: the Take of it is work. So where [`crate::HostMediator::work`] has left nothing of a guest to be done, no command of it waits while its share
/// of an open lane has room.
pub fn a_share_with_room_has_its_command_taken()
    ensures { (h : Served) (memory : List ℕ) (guest queue lane : ℕ) → IsServed h → AreWithin lane h → HasRoom guest queue lane h →
        IsWork (scope.Guest guest) (scene h memory) (event.Take guest queue lane) }
{}

/// A guest that has no more than its share of a lane has no more after a call of [`crate::HostMediator::work`], whatever others have and do. A share that
/// is set below what the guest has already is no such.
pub fn work_keeps_each_guest_within_its_share()
    ensures { (sc : Scope) (most : ℕ) (worked : Worked) (old new : Scene) (guest lane : ℕ) → IsWorked sc most worked old new →
        IsWithin guest lane old.served → IsWithin guest lane new.served }
{}
