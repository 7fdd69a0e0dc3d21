//! The state of the world.

use crate::front::Front;
use nv_device::Device;
use nv_mem::Host;
use std::marker::Model;

/// The mediated world: the host's memory, the physical controller, and the mediator's side.
///
/// Nothing of it keeps where a part is that was handed on: that follows from the rings and the physical controller.
#[derive(Drop)]
pub struct Core {
    pub(crate) host: Host,
    pub(crate) device: Device,
    pub(crate) front: Front,
}

impl Model for Core {
    ghost use Rattle.std.specs.Prelude.{◌≡◌};
    ghost use Rattle.nv_laws_sound.specs.Side.{tails_of};
    ghost use Rattle.nv_core.specs.State.{State, state_of};

    ghost Value = { State };

    ghost view = { λ c. state_of c.host c.device c.front };

    ghost invariant = { λ c. tails_of c.device.lanes ≡ c.front.tails };
}
