//! The world at its start.

ghost use Rattle.std.specs.Prelude.{◌≡◌, IfOk, length, replicate};
ghost use Rattle.nv_laws_sound.specs.Side.{opening_side};
ghost use Rattle.nv_core.specs.State.{IsOpening};
ghost use Rattle.nv_device.specs.Physical.{FitsLimits};
ghost use Rattle.nv_model.specs.Controller.{opening};
ghost use Rattle.nv_world_model.specs.World.{opening_lane};

use crate::front::Front;
use crate::lane::Lane;
use crate::layout::Layout;
use crate::state::Core;
use nv_device::Device;
use nv_mem::{Host, NoMemory};
use nv_vctl::Vctl;
use std::alloc::Global;

impl Core {
    /// The world of a layout at its start, in a host of `host_bytes` bytes and with so many lanes: bytes and blocks are zeros, no block is
    /// kept, rings are empty, tags are free, and no controller is enabled.
    ///
    /// The caller knows that a device may be so large and its area begin there ([`Device::fits`] tests it).
    ///
    /// # Errors
    ///
    /// [`NoMemory`] where memory for the host, the device, the lanes or the controllers is refused.
    pub fn new(alloc: Global, layout: &Layout, host_bytes: u64, lanes: u8) -> Result<Self, NoMemory>
        requires { FitsLimits layout.now.mediator lanes layout.now.disk_blocks }
        ensures { IfOk result (IsOpening layout.now host_bytes lanes) }
    {
        let host = Host::new(alloc, host_bytes)?;
        let device = Device::new(alloc, layout.mediator, lanes, layout.disk_blocks)?;
        let front = Front::new(alloc, layout, lanes)?;
        Ok(Core {
            host,
            device,
            front,
        })
    }
}

impl Front {
    /// The side of a layout at its start, with so many lanes: all tags are free, rings are empty, and no controller is enabled.
    ///
    /// # Errors
    ///
    /// [`NoMemory`] where memory for the lanes or the controllers is refused.
    pub fn new(alloc: Global, layout: &Layout, lanes: u8) -> Result<Self, NoMemory>
        ensures { IfOk result (λ side. side ≡ opening_side layout.now lanes) }
    {
        let count = usize::from(lanes);
        let lanes = opening_lanes(alloc, lanes)?;
        let tails = vec![in alloc; 0; count]?;
        let controllers = opening_controllers(alloc, layout.guests.len())?;
        Ok(Front {
            lanes,
            tails,
            controllers,
            noted: 0,
        })
    }
}

// Lanes all of whose tags are free.
fn opening_lanes(alloc: Global, count: u8) -> Result<Vec<Lane>, NoMemory>
    ensures { IfOk result (λ lanes. lanes.items ≡ replicate count opening_lane) }
{
    let mut lanes = Vec::with_capacity(alloc, usize::from(count))?;
    for _lane in 0..count {
        lanes.push(Lane::new(alloc)?)?;
    }
    Ok(lanes)
}

// Controllers that are not enabled.
fn opening_controllers(alloc: Global, count: usize) -> Result<Vec<Vctl>, NoMemory>
    ensures { IfOk result (λ controllers. controllers.items ≡ replicate count opening) }
{
    let mut controllers = Vec::with_capacity(alloc, count)?;
    for _guest in 0..count {
        controllers.push(Vctl::new())?;
    }
    Ok(controllers)
}
