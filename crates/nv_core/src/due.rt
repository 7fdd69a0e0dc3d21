//! Whether an event is due: whether it would be done now.

ghost use Rattle.std.specs.Prelude.{◌≡◌};
ghost use Rattle.nv_core.specs.State.{IsOf, world_of};
ghost use Rattle.nv_device.specs.Units.{IsLowest};
ghost use Rattle.nv_world_model.specs.Due.{due};

use crate::device_events::has_slot;
use crate::layout::Layout;
use crate::state::Core;
use nv_world_model::Event;
use std::slice;

impl Core {
    /// Whether an event is one of Admin, Take, DevTake, DevMove, DevPost, Reap and Post and would be done now. Nothing changes, and what it
    /// costs depends on neither the host nor how many commands are on their way: but for free tags and the tags of one command, nothing is
    /// searched.
    #[tactic(auto, unfolding(nv_world_model::specs::Due::due))]
    pub fn due(&self, layout: &Layout, event: &Event) -> bool
        requires { IsOf layout.now self.now }
        ensures { result ≡ due layout.now event.now (world_of self.now) }
    {
        match event {
            Event::Admin(guest) => self.front.admin_due(layout, *guest),
            Event::Take(guest, queue, lane) => {
                let host = slice::from_ref(&self.host);
                self.front.take_due(layout, *guest, *queue, *lane, host)
            }
            Event::DevTake(lane) => self.dev_take_due(layout, *lane),
            Event::DevMove(lane, slot, number) => self.dev_move_due(layout, *lane, *slot, *number),
            Event::DevPost(lane, slot) => self.dev_post_due(layout, *lane, *slot),
            Event::Reap(lane) => self
                .front
                .reap_due(layout, *lane, slice::from_ref(&self.host)),
            Event::Post(lane, tag) => self.front.post_due(layout, *lane, *tag),
            Event::Guest(_guest, _act) => false,
            Event::List(_lane, _tag, _addr, _len) => false,
            Event::Submit(_lane, _tag) => false,
            Event::GiveUp(_lane, _tag) => false,
            Event::DevFail(_lane, _slot, _status) => false,
            Event::Keep(_block) => false,
        }
    }

    /// The lowest unit that DevMove is due for, of the command that the physical controller holds in a slot of a lane; `None` where it holds none
    /// there, or all units have moved. It scans the units that have moved, and nothing else.
    pub fn next_unit(&self, _layout: &Layout, lane: u8, slot: u8) -> Option<u64>
        requires { IsOf _layout.now self.now }
        ensures { IsLowest (λ number. due _layout.now (Event.DevMove lane slot number) (world_of self.now)) result }
    {
        if !has_slot(&self.device, lane, slot) {
            return None;
        }
        self.device.next_unit(lane, slot)
    }

    // Whether an entry of a lane's submission ring waits for the physical controller.
    fn dev_take_due(&self, _layout: &Layout, lane: u8) -> bool
        requires { IsOf _layout.now self.now }
        ensures { result ≡ due _layout.now (Event.DevTake lane) (world_of self.now) }
    {
        if lane >= self.device.lanes() {
            return false;
        }
        self.device.waits(lane)
    }

    // Whether the command that the physical controller holds in a slot of a lane has that unit left.
    fn dev_move_due(&self, _layout: &Layout, lane: u8, slot: u8, number: u64) -> bool
        requires { IsOf _layout.now self.now }
        ensures { result ≡ due _layout.now (Event.DevMove lane slot number) (world_of self.now) }
    {
        if !has_slot(&self.device, lane, slot) {
            return false;
        }
        self.device.has_left(lane, slot, number)
    }

    // Whether the physical controller holds a command in a slot of a lane of which all units have moved.
    fn dev_post_due(&self, _layout: &Layout, lane: u8, slot: u8) -> bool
        requires { IsOf _layout.now self.now }
        ensures { result ≡ due _layout.now (Event.DevPost lane slot) (world_of self.now) }
    {
        if !has_slot(&self.device, lane, slot) {
            return false;
        }
        self.device.has_ended(lane, slot)
    }
}
