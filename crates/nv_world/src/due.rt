//! What is due in the world.

ghost use Rattle.std.specs.Prelude.{◌≡◌};
ghost use Rattle.nv_core.specs.State.{world_of};
ghost use Rattle.nv_world_model.specs.Due.{due};

use crate::world::World;
use nv_world_model::Event;

impl World {
    /// Whether an event is one of Admin, Take, DevTake, DevMove, DevPost, Reap and Post and would be done now. It is what a worker asks
    /// before it makes such an event: nothing changes, the log neither, and no memory is taken. What it costs depends on neither the log
    /// nor the host.
    pub fn due(&self, event: &Event) -> bool
        ensures { result ≡ due self.now.geometry event.now (world_of self.now.state) }
    {
        self.mediator.due(event)
    }
}
