//! Loads and stores of bytes that are lent.

ghost use Rattle.std.specs.Prelude.{◌≡◌, length};
ghost use Rattle.nv_core.specs.Seat.{IsLoaded};
ghost use Rattle.nv_core.specs.Front.{IsSideStep};
ghost use Rattle.nv_core.specs.Kept.{IsLent};

use crate::front::Front;
use crate::layout::Layout;
use crate::seat;
use nv_mem::MemoryCell;
use nv_model::{Act, Reply};
use nv_world_model::Event;

impl Front {
    /// A guest stores these bytes from its address `addr` on, as by the act that holds them: Unmapped, with nothing changed, where one of them
    /// is mapped nowhere, and Ignored where there is no such guest.
    pub fn store<C: MemoryCell>(
        &self,
        layout: &Layout,
        guest: u8,
        addr: u64,
        bytes: &[u8],
        host: &mut [C],
    ) -> Reply
        requires { IsLent layout.now self.now (C.bytes host.old) }
        ensures step { IsSideStep layout.now (Event.Guest guest (Act.Store addr bytes.now)) self.now (C.bytes host.old) result self.now (C.bytes host.new) }
        ensures len { length (C.bytes host.new) ≡ length (C.bytes host.old) }
    {
        let Some(given) = layout.guest(guest) else {
            return Reply::Ignored;
        };
        seat::store(given, addr, bytes, host)
    }

    /// A guest loads as many bytes from its address `addr` on as there is room for, as by the act that asks for them: Done, with the bytes in
    /// the room; Unmapped, with the room as it was, where one of them is mapped nowhere, and Ignored where there is no such guest. Nothing
    /// of the world changes.
    pub fn load<C: MemoryCell>(
        &self,
        layout: &Layout,
        guest: u8,
        addr: u64,
        room: &mut [u8],
        host: &[C],
    ) -> Reply
        requires { IsLent layout.now self.now (C.bytes host.now) }
        ensures { let load = Event.Guest guest (Act.Load addr (length room.old)) in
            IsLoaded (λ reply. IsSideStep layout.now load self.now (C.bytes host.now) reply self.now (C.bytes host.now)) result room.old room.new }
    {
        let Some(given) = layout.guest(guest) else {
            return Reply::Ignored;
        };
        seat::load_into(given, addr, room, host)
    }
}
