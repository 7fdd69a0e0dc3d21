//! The world, with the log of what has happened in it.

ghost use Rattle.std.specs.Prelude.{◌≡◌, ◌⊎◌, IfOk, IfErr, IfSome, MatchOption, None, Some, slice_get};
ghost use Rattle.nv_mediator.specs.Hosted.{IsAtStart};
ghost use Rattle.nv_core.specs.State.{world_of};
ghost use Rattle.nv_core.specs.Submit.{IsLimit};
ghost use Rattle.nv_world.specs.Mediated.{IsContained, KeepsPromise, limit_of, map_of, mediated, opened, range_of, setup_of};
ghost use Rattle.nv_world.specs.Refused.{refused};
ghost use Rattle.nv_world_model.specs.Log.{IsReplay};
ghost use Rattle.nv_world_model.specs.SetUp.{SetUp, refusal_of, world_at_start};

use nv_mediator::{Mediator, Refusal, Setup};
use nv_mem::GuestMap;
use nv_ns::VirtualNs;
use nv_world_model::Logged;
use std::alloc::Global;
use std::marker::Model;

/// The mediated world: up to 16 guests, the physical controller and the mediator between them, and a log of each event with its reply.
///
/// It is a [`Mediator`] with a log. Its type keeps that the mediator is where the log leads, from the start of the set-up on, by the
/// definition's steps.
#[derive(Drop)]
pub struct World {
    pub(crate) mediator: Mediator,
    pub(crate) log: Vec<Logged>,
}

impl Model for World {
    ghost use Rattle.nv_world.specs.Mediated.{IsRunning, Kept};

    ghost Value = { Kept };

    ghost view = { λ w. record { geometry = w.mediator.geometry; state = w.mediator.state; log = w.log.items } };

    ghost invariant = { λ w. IsRunning (record { geometry = w.mediator.geometry; state = w.mediator.state; log = w.log.items }) };
}

impl World {
    /// The world of a set-up at its start, with an empty log.
    ///
    /// # Errors
    ///
    /// The first reason for which the set-up is refused, or that memory was.
    pub fn new(alloc: Global, setup: Setup) -> Result<Self, Refusal>
        ensures ok { IfOk result (λ world. mediated world ≡ opened setup) }
        ensures accepted { IfOk result (λ _. refusal_of setup ≡ None) }
        ensures err { IfErr result (λ refusal. (refused (refusal_of setup) ≡ Some refusal) ⊎ ((refusal ≡ Refusal.NoMemory) × (refusal_of setup ≡ None))) }
    {
        let mediator = Mediator::new(alloc, setup)?;
        Ok(World::of(alloc, mediator))
    }

    /// The world of a mediator at the start of its set-up, with an empty log.
    pub fn of(alloc: Global, mediator: Mediator) -> Self
        requires { (setup : SetUp) × IsAtStart setup mediator }
        ensures { (setup : SetUp) → IsAtStart setup mediator → mediated result ≡ opened setup }
    {
        World {
            mediator,
            log: Vec::new(alloc),
        }
    }

    /// The events so far, each with its reply, in order. The world is where they lead, from the start of the set-up on, and each is contained:
    /// it reads and changes nothing of a guest but its owner's. What a disciplined guest has seen, its memory and its namespace are those of a
    /// run of its own commands on a private controller, where the physical controller failed none of them.
    pub fn log(&self) -> &[Logged]
        ensures value { result.now ≡ self.now.log }
        ensures accepted { refusal_of (setup_of self.now) ≡ None }
        ensures replayed { IsReplay self.now.geometry (world_at_start (setup_of self.now)) self.now.log (world_of self.now.state) }
        ensures contained { IsContained self.now }
        ensures promise { KeepsPromise self.now }
    {
        self.mediator.promise();
        &self.log
    }

    /// The memory of the guest of that number; `None` where there is no such guest.
    pub fn map(&self, guest: u8) -> Option<&GuestMap>
        ensures { MatchOption result (slice_get self.now.geometry.guests guest ≡ None)
            (λ map. Some map.now ≡ map_of (slice_get self.now.geometry.guests guest)) }
    {
        self.mediator.map(guest)
    }

    /// The namespace of the guest of that number; `None` where there is no such guest.
    pub fn range(&self, guest: u8) -> Option<&VirtualNs>
        ensures { MatchOption result (slice_get self.now.geometry.guests guest ≡ None)
            (λ ns. Some ns.now ≡ range_of (slice_get self.now.geometry.guests guest)) }
    {
        self.mediator.range(guest)
    }

    /// The most descriptors of a list that the guest of that number was given, 1 to 4,096; `None` where there is no such guest.
    pub fn limit(&self, guest: u8) -> Option<u32>
        ensures value { result ≡ limit_of (slice_get self.now.geometry.guests guest) }
        ensures fits { IfSome result (λ limit. IsLimit limit) }
    {
        self.mediator.limit(guest)
    }
}
