//! The events of guests.

ghost use Rattle.std.specs.Prelude.{◌≡◌, IfOk, IsTrue, OnErr, length};
ghost use Rattle.nv_core.specs.Seat.{IsLoaded, is_long_load};
ghost use Rattle.nv_host.specs.Served.{IsDone};

use crate::host_mediator::HostMediator;
use nv_mem::{MemoryCell, NoMemory};
use nv_model::{Act, Reply};
use nv_world_model::Event;
use std::alloc::Global;

impl HostMediator {
    /// A guest acts: it reads and writes its memory, its controller's registers and its doorbells. Ignored where there is no such guest.
    ///
    /// # Errors
    ///
    /// [`NoMemory`] where memory for the bytes of a load is refused: nothing has changed. Memory is taken for a load of more than 7 bytes, and for
    /// nothing else.
    pub fn act<C: MemoryCell>(
        &mut self,
        alloc: Global,
        guest: u8,
        act: &Act,
        memory: &mut [C],
    ) -> Result<Reply, NoMemory>
        requires { length (C.bytes memory.old) ≡ self.old.setup.host_bytes }
        ensures ok { IfOk result (λ reply. IsDone (Event.Guest guest act.now) self.old (C.bytes memory.old) reply self.new (C.bytes memory.new)) }
        ensures err { OnErr result ((self.new ≡ self.old) × ((C.bytes memory.new ≡ C.bytes memory.old) × IsTrue (is_long_load act.now))) }
        ensures setup { self.new.setup ≡ self.old.setup }
        ensures len { length (C.bytes memory.new) ≡ length (C.bytes memory.old) }
    {
        self.holds.forget(guest);
        self.front.act(alloc, &self.layout, guest, act, memory)
    }

    /// A guest stores these bytes from its address `addr` on, as by the act that holds them: Unmapped, with nothing changed, where one of them is mapped
    /// nowhere, and Ignored where there is no such guest. A guest that has its memory by itself, and stores there without a call, does the same.
    pub fn store<C: MemoryCell>(
        &self,
        guest: u8,
        addr: u64,
        bytes: &[u8],
        memory: &mut [C],
    ) -> Reply
        requires { length (C.bytes memory.old) ≡ self.now.setup.host_bytes }
        ensures done { IsDone (Event.Guest guest (Act.Store addr bytes.now)) self.now (C.bytes memory.old) result self.now (C.bytes memory.new) }
        ensures len { length (C.bytes memory.new) ≡ length (C.bytes memory.old) }
    {
        self.front.store(&self.layout, guest, addr, bytes, memory)
    }

    /// A guest loads as many bytes from its address `addr` on as there is room for, as by the act that asks for them: Done, with the bytes in the room;
    /// Unmapped, with the room as it was, where one of them is mapped nowhere, and Ignored where there is no such guest. Nothing of the world changes.
    pub fn load<C: MemoryCell>(&self, guest: u8, addr: u64, room: &mut [u8], memory: &[C]) -> Reply
        requires { length (C.bytes memory.now) ≡ self.now.setup.host_bytes }
        ensures { let load = Event.Guest guest (Act.Load addr (length room.old)) in
            IsLoaded (λ reply. IsDone load self.now (C.bytes memory.now) reply self.now (C.bytes memory.now)) result room.old room.new }
    {
        self.front.load(&self.layout, guest, addr, room, memory)
    }

    /// One event of a guest's admin queue: a command of it, or the end of a deletion that waits. Idle where there is nothing to do, Held where the admin
    /// completion queue is full, Ignored where there is no such guest.
    pub fn admin<C: MemoryCell>(&mut self, guest: u8, memory: &mut [C]) -> Reply
        requires { length (C.bytes memory.old) ≡ self.old.setup.host_bytes }
        ensures done { IsDone (Event.Admin guest) self.old (C.bytes memory.old) result self.new (C.bytes memory.new) }
        ensures len { length (C.bytes memory.new) ≡ length (C.bytes memory.old) }
    {
        let reply = self.front.admin(&self.layout, guest, memory);
        self.holds.note(&reply, guest);
        reply
    }
}
