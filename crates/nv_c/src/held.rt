//! What a handle holds.

ghost use Rattle.nv_c.specs.Promise.{IsKept};

use crate::simulated::Simulated;
use nv_host::HostMediator;

/// A mediator of either kind.
#[derive(Drop)]
pub enum Held {
    /// It has a memory and a disk of its own.
    Simulated(Simulated),
    /// Each call is lent the host's memory, and the drive is the host's.
    Serving(HostMediator),
}

impl Held {
    /// What is promised of the mediator; it does nothing.
    pub(crate) fn promise(&self)
        ensures { IsKept self.now }
    {
        match self {
            Held::Simulated(simulated) => simulated.mediator.promise(),
            Held::Serving(mediator) => mediator.promise(),
        }
    }
}
