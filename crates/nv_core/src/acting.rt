//! What guests do.

ghost use Rattle.std.specs.Prelude.{◌≡◌, IfOk, IsTrue, OnErr, length};
ghost use Rattle.nv_core.specs.Seat.{IsActed, is_long_load};
ghost use Rattle.nv_core.specs.Front.{IsSideStep};
ghost use Rattle.nv_core.specs.Kept.{IsLent};
ghost use Rattle.nv_model.specs.Memory.{byte_in};

use crate::front::Front;
use crate::layout::{Grant, Layout};
use crate::noting::noted;
use crate::seat;
use nv_mem::{MemoryCell, NoMemory};
use nv_model::{Act, Reply};
use nv_vctl::Vctl;
use nv_world_model::Event;
use std::alloc::Global;

impl Front {
    /// A guest acts: it reads and writes its memory, its controller's registers and its doorbells. Ignored where there is no such guest.
    ///
    /// # Errors
    ///
    /// [`NoMemory`] where memory for the bytes of a load is refused: nothing has changed. Memory is taken for the bytes of a load that a
    /// reply does not hold in itself, and for nothing else.
    #[inline(never)]
    pub fn act<C: MemoryCell>(
        &mut self,
        alloc: Global,
        layout: &Layout,
        guest: u8,
        act: &Act,
        host: &mut [C],
    ) -> Result<Reply, NoMemory>
        requires { IsLent layout.now self.old (C.bytes host.old) }
        ensures ok { IfOk result (λ reply.
            IsSideStep layout.now (Event.Guest guest act.now) self.old (C.bytes host.old) reply self.new (C.bytes host.new)) }
        ensures err { OnErr result ((self.new ≡ self.old) × ((C.bytes host.new ≡ C.bytes host.old) × IsTrue (is_long_load act.now))) }
        ensures tails { self.new.tails ≡ self.old.tails }
        ensures len { length (C.bytes host.new) ≡ length (C.bytes host.old) }
    {
        let Some(given) = layout.guest(guest) else {
            return Ok(Reply::Ignored);
        };
        let number = usize::from(guest);
        if number >= self.controllers.len() {
            return Ok(Reply::Ignored);
        }
        self.noted = noted(self.noted, guest);
        let vctl = &mut self.controllers[number];
        let reply = act_in_seat(alloc, given, act, vctl, host)?;
        Ok(reply)
    }
}

// An act on a guest's part of the host and on its controller.
fn act_in_seat<C: MemoryCell>(
    alloc: Global,
    given: &Grant,
    act: &Act,
    vctl: &mut Vctl,
    host: &mut [C],
) -> Result<Reply, NoMemory>
    requires { given.now.memory_map.host_len ≡ length (C.bytes host.old) }
    ensures ok { IfOk result (λ reply. IsActed given.now act.now (byte_in (C.bytes host.old)) vctl.old reply (byte_in (C.bytes host.new)) vctl.new) }
    ensures err { OnErr result ((vctl.new ≡ vctl.old) × (((C.bytes host.new) ≡ (C.bytes host.old)) × IsTrue (is_long_load act.now))) }
    ensures len { length (C.bytes host.new) ≡ length (C.bytes host.old) }
{
    match act {
        Act::Store { addr, bytes } => Ok(seat::store(given, *addr, bytes.as_slice(), host)),
        Act::Load { addr, len } => seat::load(alloc, given, *addr, *len, host),
        Act::RegRead { offset } => Ok(seat::read_register(given, vctl, *offset)),
        Act::RegWrite { offset, value } => Ok(seat::write_register(given, vctl, *offset, *value)),
        Act::Doorbell { offset, value } => Ok(seat::ring_doorbell(given, vctl, *offset, *value)),
    }
}
