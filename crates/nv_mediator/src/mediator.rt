//! The mediator, and what is promised of it.

ghost use Rattle.std.specs.Prelude.{◌≡◌, ◌⊎◌, IfErr, IfOk, None, Some};
ghost use Rattle.nv_core.specs.State.{world_of};
ghost use Rattle.nv_laws_sound.specs.Consistent.{IsConsistent};
ghost use Rattle.nv_mediator.specs.Hosted.{HasLog, IsAtStart, IsPromised, setup_of};
ghost use Rattle.nv_mediator.specs.Refused.{refused};
ghost use Rattle.nv_world_model.specs.SetUp.{refusal_of};

use crate::checking;
use crate::refusal::Refusal;
use crate::setup::Setup;
use nv_core::{Core, Layout};
use std::alloc::Global;
use std::marker::Model;

/// The mediated world: up to 16 guests, the physical controller and the mediator between them. Nothing is kept of the events that led to it.
///
/// Its type keeps that its set-up was accepted, and that some log of events leads to it from the set-up's start by the definition's steps.
#[derive(Drop)]
pub struct Mediator {
    pub(crate) layout: Layout,
    pub(crate) core: Core,
}

impl Model for Mediator {
    ghost use Rattle.nv_mediator.specs.Hosted.{Hosted, IsHosted};

    ghost Value = { Hosted };

    ghost view = { λ m. record { geometry = m.layout; state = m.core } };

    ghost invariant = { λ m. IsHosted (record { geometry = m.layout; state = m.core }) };
}

impl Mediator {
    /// The world of a set-up at its start.
    ///
    /// # Errors
    ///
    /// The first reason for which the set-up is refused, or that memory was.
    pub fn new(alloc: Global, setup: Setup) -> Result<Self, Refusal>
        ensures ok { IfOk result (λ mediator. IsAtStart setup mediator) }
        ensures accepted { IfOk result (λ _. refusal_of setup ≡ None) }
        ensures err { IfErr result (λ refusal. (refused (refusal_of setup) ≡ Some refusal) ⊎ ((refusal ≡ Refusal.NoMemory) × (refusal_of setup ≡ None))) }
    {
        if let Some(refusal) = checking::refusal_of(&setup) {
            return Err(refusal);
        }
        Self::open(alloc, setup).map_err(|_| Refusal::NoMemory)
    }

    /// What is promised of the world as it is; it does nothing.
    ///
    /// The set-up was accepted. Of every log that leads from the set-up's start to this world the whole promise holds. Each event is contained: it
    /// reads and changes nothing of any guest but its owner. What a disciplined guest has seen, its memory and its namespace are those of a run of
    /// its own commands on a private controller, where the physical controller failed none of them. There is such a log: what each call ensures of
    /// its event is what one more member of a log needs. And the world is consistent: each tag that was handed on is in one place.
    #[inline(always)]
    pub fn promise(&self)
        ensures accepted { refusal_of (setup_of self.now) ≡ None }
        ensures consistent { IsConsistent self.now.geometry (world_of self.now.state) }
        ensures promised { IsPromised self.now }
        ensures led { HasLog self.now }
    {
        let _known = &self.core;
    }
}
