//! What is shown of the host's memory and of the disk.

ghost use Rattle.std.specs.Prelude.{◌≡◌, ◌≤◌, MatchOption, length};
ghost use Rattle.nv_core.specs.Shown.{IsBlock, mark_shown};
ghost use Rattle.nv_core.specs.State.{world_of};
ghost use Rattle.nv_model.specs.Memory.{byte_in};
ghost use Rattle.nv_world.specs.Mediated.{setup_of};

use crate::world::World;
use nv_mem::Host;
use nv_model::limits::BLOCK_SIZE;

impl World {
    /// The host's memory: the guests' memory, by their maps, the mediator's area, and what is nobody's.
    pub fn host(&self) -> &Host
        ensures bytes { byte_in result.now ≡ (world_of self.now.state).host }
        ensures len { length result.now ≡ (setup_of self.now).host_bytes }
    {
        self.mediator.host()
    }

    /// The 512 bytes of a block of the disk, by its number on the disk; `None` where there is no such block.
    pub fn block(&self, block: u64) -> Option<&[u8; BLOCK_SIZE]>
        ensures { MatchOption result (self.now.geometry.disk_blocks ≤ block)
            (λ bytes. IsBlock self.now.geometry.disk_blocks (world_of self.now.state) block bytes.now) }
    {
        self.mediator.block(block)
    }

    /// Whether a block of the disk, by its number on the disk, is kept when power is lost; `None` where there is no
    /// such block.
    pub fn kept(&self, block: u64) -> Option<bool>
        ensures { result ≡ mark_shown self.now.geometry.disk_blocks (world_of self.now.state) block }
    {
        self.mediator.kept(block)
    }
}
