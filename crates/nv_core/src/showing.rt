//! What is shown of the host, of the disk, and how many lanes there are.

ghost use Rattle.std.specs.Prelude.{◌≡◌, ◌≤◌, MatchOption, length};
ghost use Rattle.nv_core.specs.Shown.{IsBlock, mark_shown};
ghost use Rattle.nv_core.specs.State.{IsOf, world_of};

use crate::layout::Layout;
use crate::state::Core;
use nv_mem::Host;
use nv_model::limits::BLOCK_SIZE;

impl Core {
    /// The host's memory.
    pub fn host(&self) -> &Host
        ensures { result.now ≡ self.now.host }
    {
        &self.host
    }

    /// How many lanes there are.
    pub fn lanes(&self, _layout: &Layout) -> u8
        requires { IsOf _layout.now self.now }
        ensures { (result ≡ length (world_of self.now).device) × (result ≡ length (world_of self.now).lanes) }
    {
        self.device.lanes()
    }

    /// The bytes of a block of the disk; `None` where there is no such block.
    pub fn block(&self, block: u64) -> Option<&[u8; BLOCK_SIZE]>
        ensures { MatchOption result (length self.now.device.disk ≤ block)
            (λ bytes. IsBlock (length self.now.device.disk) (world_of self.now) block bytes.now) }
    {
        if block >= self.device.blocks() {
            return None;
        }
        Some(self.device.block(block))
    }

    /// Whether a block of the disk is kept when power is lost; `None` where there is no such block.
    pub fn kept(&self, block: u64) -> Option<bool>
        ensures { result ≡ mark_shown (length self.now.device.disk) (world_of self.now) block }
    {
        if block >= self.device.blocks() {
            return None;
        }
        Some(self.device.kept(block))
    }
}
