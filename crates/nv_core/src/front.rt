//! The mediator's side of the world.

use crate::lane::Lane;
use nv_vctl::Vctl;
use std::marker::Model;

/// The mediator's side of the world: lanes with their tags, the tails of their submission rings, and each guest's controller.
///
/// It has neither the host's memory nor the physical controller. A call that needs memory is lent it. Its type keeps that nothing is due of a guest's
/// queues that is not noted.
#[derive(Drop)]
pub struct Front {
    pub(crate) lanes: Vec<Lane>,
    pub(crate) tails: Vec<u16>,
    pub(crate) controllers: Vec<Vctl>,
    // the guests that something may be due of, a bit for each
    pub(crate) noted: u16,
}

impl Model for Front {
    ghost use Rattle.nv_laws_sound.specs.Side.{Side};
    ghost use Rattle.nv_core.specs.Noted.{AreNoted};

    ghost Value = { Side };

    ghost view = { λ f. record { lanes = f.lanes.items; tails = f.tails.items; controllers = f.controllers.items } };

    ghost invariant = { λ f. AreNoted f.controllers.items f.noted };
}
