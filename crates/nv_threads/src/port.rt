//! What a guest acts by.

ghost use Rattle.std.specs.Prelude.{◌≡◌, ◌≢◌, ◌<◌, IfOk, [], ◌∷◌, ◌++◌, OnErr};
ghost use Rattle.nv_world_model.specs.SetUp.{most_guests};

use crate::locked::Errand;
use crate::shared::Shared;
use crate::telling::tell;
use nv_mem::NoMemory;
use nv_model::{Act, Reply};
use nv_world_model::{Event, Logged};
use std::alloc::Global;
use std::marker::Model;
use std::sync::Wait;

/// What a guest acts by: it keeps a list of the guest's events, each with the reply that it gave back.
#[derive(Debug, Drop)]
pub struct Port {
    guest: u8,
    calls: Vec<Logged>,
}

impl Model for Port {
    ghost use Rattle.std.specs.Prelude.{◌<◌};
    ghost use Rattle.nv_threads.specs.Told.{Told};
    ghost use Rattle.nv_world_model.specs.SetUp.{most_guests};

    ghost Value = { Told };

    ghost view = { λ p. record { guest = p.guest; calls = p.calls.items } };

    ghost invariant = { λ p. p.guest < most_guests };
}

impl Port {
    /// The port of the guest of that number, which is below 16. Its list is empty.
    pub fn new(alloc: Global, guest: u8) -> Self
        requires { guest < most_guests }
        ensures { result ≡ record { guest = guest; calls = [] } }
    {
        Port {
            guest,
            calls: Vec::new(alloc),
        }
    }

    /// The guest acts in the shared world: its event is made there, and goes into the port's list with the reply that is given back. This
    /// waits for the world's lock.
    ///
    /// # Errors
    ///
    /// There was no memory: for the list, for the bytes of an event or a reply, or for the world's step. The event was not made, and the
    /// list is as it was.
    pub fn act<R: Wait>(
        &mut self,
        rt: &R,
        alloc: Global,
        shared: &Shared,
        act: Act,
    ) -> Result<Reply, NoMemory>
        ensures guest { self.new.guest ≡ self.old.guest }
        ensures ok { IfOk result (λ reply. self.new.calls ≡ self.old.calls ++ record { event = Event.Guest self.old.guest act; reply = reply } ∷ []) }
        ensures memory { IfOk result (λ reply. reply ≢ Reply.NoMemory) }
        ensures err { OnErr result (self.new ≡ self.old) }
    {
        self.calls.reserve(1)?;
        let again = act.try_clone(alloc)?;
        let errand = Errand::of(&act);
        let mut locked = shared.lock(rt);
        let (reply, kept) = tell(&mut locked.world, alloc, self.guest, act)?;
        let concern = locked.concern(self.guest, errand);
        drop(locked);
        shared.bells.ring(concern);
        self.calls.push_reserved(Logged {
            event: Event::Guest(self.guest, again),
            reply: kept,
        });
        Ok(reply)
    }

    /// The guest's number, below 16.
    pub fn guest(&self) -> u8
        ensures value { result ≡ self.now.guest }
        ensures below { result < most_guests }
    {
        self.guest
    }

    /// The guest's events so far, each with the reply that was given back, in order.
    pub fn calls(&self) -> &[Logged]
        ensures { result.now ≡ self.now.calls }
    {
        &self.calls
    }
}
