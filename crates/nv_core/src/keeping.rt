//! Blocks that become kept.

ghost use Rattle.std.specs.Prelude.{◌≡◌};
ghost use Rattle.nv_core.specs.State.{IsOf, IsStep};

use crate::layout::Layout;
use crate::state::Core;
use nv_model::Reply;
use nv_world_model::Event;

impl Core {
    /// A block of the disk becomes kept, as the physical controller may make it at any time. Idle where there is no such block.
    #[inline(never)]
    pub fn keep(&mut self, layout: &Layout, block: u64) -> Reply
        requires { IsOf layout.now self.old }
        ensures { IsStep layout.now (Event.Keep block) self.old result self.new }
    {
        // With the number of the blocks comes that each has a mark.
        let _known = self.device.blocks();
        if block >= layout.disk_blocks() {
            return Reply::Idle;
        }
        self.device.keep(block);
        Reply::Done
    }
}
