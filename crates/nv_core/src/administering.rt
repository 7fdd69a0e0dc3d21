//! The guests' admin queues.

ghost use Rattle.std.specs.Prelude.{◌≡◌, ℕ, [], List, length, slice_get};
ghost use Rattle.nv_core.specs.AdminEffects.{AreStoresMapped, admin_effects, admin_reply, command_hosts};
ghost use Rattle.nv_core.specs.Seat.{told_by};
ghost use Rattle.nv_core.specs.Front.{IsSideStep};
ghost use Rattle.nv_core.specs.Kept.{IsLent};
ghost use Rattle.nv_laws_sound.specs.Side.{IsKept};
ghost use Rattle.nv_machine.specs.Doing.{replied};
ghost use Rattle.nv_machine.specs.Machine.{call, fetch};

use crate::front::Front;
use crate::layout::Layout;
use crate::noting::noted;
use nv_admin::{Admin, Administered};
use nv_entry::Sqe;
use nv_mem::MemoryCell;
use nv_model::Reply;
use nv_world_model::Event;

impl Front {
    /// One event of a guest's admin queue: a command of it, or the end of a deletion that waits. Idle where there is nothing to do, Held
    /// where the admin completion queue is full, Ignored where there is no such guest.
    #[inline(never)]
    pub fn admin<C: MemoryCell>(&mut self, layout: &Layout, guest: u8, host: &mut [C]) -> Reply
        requires { IsLent layout.now self.old (C.bytes host.old) }
        ensures step { IsSideStep layout.now (Event.Admin guest) self.old (C.bytes host.old) result self.new (C.bytes host.new) }
        ensures tails { self.new.tails ≡ self.old.tails }
        ensures len { length (C.bytes host.new) ≡ length (C.bytes host.old) }
    {
        let Some(given) = layout.guest(guest) else {
            return Reply::Ignored;
        };
        let number = usize::from(guest);
        if number >= self.controllers.len() {
            return Reply::Ignored;
        }
        let block_count = given.ns().blocks();
        self.noted = noted(self.noted, guest);
        let vctl = &mut self.controllers[number];
        reply_of(nv_admin::admin(vctl, block_count, given.map(), host))
    }

    /// The guest address of the command that [`Front::admin_fetched`] is given, which has 64 bytes. `None` where nothing is fetched.
    pub fn admin_fetch(&self, layout: &Layout, guest: u8) -> Option<u64>
        requires { IsKept layout.now self.now }
        ensures { fetch layout.now (Event.Admin guest) self.now ≡ command_hosts (slice_get layout.now.guests guest) result }
    {
        let given = layout.guest(guest)?;
        let number = usize::from(guest);
        if number >= self.controllers.len() {
            return None;
        }
        // With the length of the host comes what is known of every map.
        let _known = given.map().host_len();
        nv_admin::command_at(&self.controllers[number])
    }

    /// [`Front::admin`] without a memory, by the command that was fetched. Where nothing is fetched any command does: it isn't looked at. `None`
    /// where there is no such guest. What is to be stored is in the result, at addresses of the guest, all of which are mapped.
    pub fn admin_fetched(&mut self, layout: &Layout, guest: u8, entry: &Sqe) -> Option<Administered>
        requires { IsKept layout.now self.old }
        ensures call { call layout.now (Event.Admin guest) entry.now self.old
            ≡ replied (admin_reply result) (record { side = self.new; effects = admin_effects (slice_get layout.now.guests guest) result }) }
        ensures unasked { fetch layout.now (Event.Admin guest) self.old ≡ [] → (other : List ℕ) →
            call layout.now (Event.Admin guest) other self.old ≡ call layout.now (Event.Admin guest) entry.now self.old }
        ensures mapped { AreStoresMapped (slice_get layout.now.guests guest) result }
        ensures tails { self.new.tails ≡ self.old.tails }
    {
        let given = layout.guest(guest)?;
        let number = usize::from(guest);
        if number >= self.controllers.len() {
            return None;
        }
        let block_count = given.ns().blocks();
        self.noted = noted(self.noted, guest);
        let vctl = &mut self.controllers[number];
        Some(nv_admin::administer(vctl, block_count, given.map(), entry))
    }
}

// What the event of an admin queue is answered.
fn reply_of(admin: Admin) -> Reply
    ensures { result ≡ told_by admin }
{
    match admin {
        Admin::Done => Reply::Done,
        Admin::Idle => Reply::Idle,
        Admin::Held => Reply::Held,
    }
}
