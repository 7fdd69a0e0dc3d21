//! A mediator with its own memory and disk, as a handle holds it.

use crate::kept::Kept;
use nv_mediator::Mediator;
use std::alloc::Global;
use std::marker::Model;

/// A mediator, and beside it the plans that were put aside. A contract sees the mediator.
#[derive(Drop)]
pub struct Simulated {
    pub(crate) mediator: Mediator,
    pub(crate) kept: Kept,
}

impl Model for Simulated {
    ghost use Rattle.nv_mediator.specs.Hosted.{Hosted};

    ghost Value = { Hosted };

    ghost view = { λ h. h.mediator };
}

impl Simulated {
    ghost use Rattle.std.specs.Prelude.{◌≡◌};

    /// A mediator of which no plan was put aside.
    pub(crate) fn new(alloc: Global, mediator: Mediator) -> Self
        ensures { result ≡ mediator }
    {
        Simulated {
            mediator,
            kept: Kept::none(alloc),
        }
    }
}
