//! Whether an event is due.

ghost use Rattle.std.specs.Prelude.{◌≡◌, ◌&&◌, ℕ, List, false, length, slice_get};
ghost use Rattle.nv_core.specs.Front.{IsBeside};
ghost use Rattle.nv_core.specs.Reaping.{waits_in};
ghost use Rattle.nv_host.specs.Served.{LeadsTo, is_closed, is_offered, is_reap};
ghost use Rattle.nv_world_model.specs.Due.{due};
ghost use Rattle.nv_world_model.specs.World.{World};
ghost use Rattle.nv_world_model.specs.declared.logged.Logged.{Logged};

use crate::host_mediator::HostMediator;
use nv_mem::MemoryCell;
use nv_world_model::Event;

impl HostMediator {
    /// Whether an event is one of Admin, Take, Reap and Post and would be done now; a Take for a lane that was closed is not due. It is what a worker asks
    /// before it makes such an event. A Reap is due where the slot that is read next has the phase tag that is wanted, whatever else is in memory. Nothing
    /// changes, no memory is taken, and what it costs does not depend on the host.
    #[tactic(auto, unfolding(nv_world_model::specs::Due::due))]
    pub fn due<C: MemoryCell>(&self, event: &Event, memory: &[C]) -> bool
        requires { length (C.bytes memory.now) ≡ self.now.setup.host_bytes }
        ensures logs { (first : World) (log : List Logged) (z : World) → LeadsTo self.now first (C.bytes memory.now) log z →
            result ≡ (is_offered self.now event.now && due self.now.setup.geometry event.now z) }
        ensures worlds { (w : World) → IsBeside self.now.side (C.bytes memory.now) w → is_reap event.now ≡ false →
            result ≡ (is_offered self.now event.now && due self.now.setup.geometry event.now w) }
        ensures slot { (lane : ℕ) → event.now ≡ Event.Reap lane →
            result ≡ waits_in self.now.setup.geometry lane (slice_get self.now.side.lanes lane) (C.bytes memory.now) }
    {
        match event {
            Event::Admin(guest) => self.admin_due(*guest),
            Event::Take(guest, queue, lane) => {
                self.is_open(*lane) && self.take_due(*guest, *queue, *lane, memory)
            }
            Event::Reap(lane) => self.reap_due(*lane, memory),
            Event::Post(lane, tag) => self.post_due(*lane, *tag),
            Event::Guest(_guest, _act) => false,
            Event::List(_lane, _tag, _addr, _len) => false,
            Event::Submit(_lane, _tag) => false,
            Event::GiveUp(_lane, _tag) => false,
            Event::DevTake(_lane) => false,
            Event::DevMove(_lane, _slot, _number) => false,
            Event::DevPost(_lane, _slot) => false,
            Event::DevFail(_lane, _slot, _status) => false,
            Event::Keep(_block) => false,
        }
    }

    /// Whether a guest's admin queue has something to do.
    pub(crate) fn admin_due(&self, guest: u8) -> bool
        ensures { (memory : List ℕ) (w : World) → IsBeside self.now.side memory w → result ≡ due self.now.setup.geometry (Event.Admin guest) w }
    {
        self.front.admin_due(&self.layout, guest)
    }

    // Whether a command of a guest's I/O queue may be taken, and as many tags of the lane are free as it wants.
    fn take_due<C: MemoryCell>(&self, guest: u8, queue: u16, lane: u8, memory: &[C]) -> bool
        requires { length (C.bytes memory.now) ≡ self.now.setup.host_bytes }
        ensures { (w : World) → IsBeside self.now.side (C.bytes memory.now) w → result ≡ due self.now.setup.geometry (Event.Take guest queue lane) w }
    {
        self.front
            .take_due(&self.layout, guest, queue, lane, memory)
    }

    /// Whether a completion of a lane waits: the slot of its completion ring that is read next has the phase tag that is wanted.
    pub(crate) fn reap_due<C: MemoryCell>(&self, lane: u8, memory: &[C]) -> bool
        requires { length (C.bytes memory.now) ≡ self.now.setup.host_bytes }
        ensures slot { result ≡ waits_in self.now.setup.geometry lane (slice_get self.now.side.lanes lane) (C.bytes memory.now) }
        ensures logs { (first : World) (log : List Logged) (z : World) → LeadsTo self.now first (C.bytes memory.now) log z →
            result ≡ due self.now.setup.geometry (Event.Reap lane) z }
    {
        self.front.reap_due(&self.layout, lane, memory)
    }

    /// Whether all tags of the command that goes by a tag have ended, and it may be completed or runs out.
    pub(crate) fn post_due(&self, lane: u8, tag: u8) -> bool
        ensures { (memory : List ℕ) (w : World) → IsBeside self.now.side memory w → result ≡ due self.now.setup.geometry (Event.Post lane tag) w }
    {
        self.front.post_due(&self.layout, lane, tag)
    }
}
