//! Steps of the world.

ghost use Rattle.std.specs.Prelude.{◌≡◌, ◌<◌, ◌++◌, ◌∷◌, [], IfOk, OnErr, OnOk, vec_capacity, vec_len};
ghost use Rattle.nv_world.specs.Mediated.{IsAdvanced, IsContained, IsLogged, IsStepped, KeepsPromise, mediated};

use crate::copies;
use crate::world::World;
use nv_mem::NoMemory;
use nv_model::Reply;
use nv_world_model::{Event, Logged};
use std::alloc::Global;

impl World {
    /// Carries out an event and logs it with its reply. Where no memory is left, nothing has changed, the log neither.
    ///
    /// Each step in the log is contained: it reads and changes nothing of a guest but its owner's.
    pub fn step(&mut self, alloc: Global, event: Event) -> Reply
        ensures step { IsStepped event (mediated self.old) result (mediated self.new) }
        ensures contained { IsContained self.new }
        ensures promise { KeepsPromise self.new }
    {
        let reply = self.step_twice(alloc, event);
        // With the log comes what is known of its steps.
        let _known = self.log();
        reply
    }

    /// Carries out an event and logs it with its reply, which is then last in the log, and nowhere else: nothing of it is copied.
    ///
    /// Each step in the log is contained: it reads and changes nothing of a guest but its owner's.
    ///
    /// # Errors
    ///
    /// There was no memory for it. Nothing has changed, and neither has the log.
    pub fn advance(&mut self, alloc: Global, event: Event) -> Result<(), NoMemory>
        ensures ok { OnOk result (IsAdvanced event (mediated self.old) (mediated self.new)) }
        ensures err { OnErr result (mediated self.new ≡ mediated self.old) }
        ensures contained { IsContained self.new }
        ensures promise { KeepsPromise self.new }
    {
        let ended = self.step_once(alloc, event);
        // With the log comes what is known of its steps.
        let _known = self.log();
        ended
    }

    /// Takes room in the log for so many more events, so that these find it there: nothing is logged, and nothing else changes. A step whose
    /// room is not there takes it itself.
    ///
    /// # Errors
    ///
    /// There was no memory for it. Nothing has changed.
    pub fn reserve(&mut self, events: usize) -> Result<(), NoMemory>
        ensures { mediated self.new ≡ mediated self.old }
    {
        self.log.reserve(events)?;
        Ok(())
    }

    // The step itself, with its reply for the log and for the caller.
    fn step_twice(&mut self, alloc: Global, event: Event) -> Reply
        ensures { IsStepped event (mediated self.old) result (mediated self.new) }
    {
        match event {
            Event::DevMove(lane, slot, number) => match self.move_unit(lane, slot, number) {
                Ok(reply) => reply,
                Err(_) => Reply::NoMemory,
            },
            event => self.step_any(alloc, event),
        }
    }

    // A step of any kind, with its reply for the log and for the caller.
    #[inline(never)]
    fn step_any(&mut self, alloc: Global, event: Event) -> Reply
        ensures { IsStepped event (mediated self.old) result (mediated self.new) }
    {
        if self.log.reserve(1).is_err() {
            return Reply::NoMemory;
        }
        let told = self.mediator.step_twice(alloc, &event);
        let Ok((reply, logged)) = told else {
            return Reply::NoMemory;
        };
        self.log.push_reserved(Logged {
            event,
            reply: logged,
        });
        reply
    }

    // The step itself, with its reply for the log alone.
    fn step_once(&mut self, alloc: Global, event: Event) -> Result<(), NoMemory>
        ensures ok { OnOk result (IsAdvanced event (mediated self.old) (mediated self.new)) }
        ensures err { OnErr result (mediated self.new ≡ mediated self.old) }
    {
        match event {
            Event::DevMove(lane, slot, number) => {
                let _reply = self.move_unit(lane, slot, number)?;
                Ok(())
            }
            event => self.advance_any(alloc, event),
        }
    }

    // The step by which the physical controller moves a unit, as most steps do. It needs no memory but the log's, and its reply has no bytes, so
    // little is stored that may have to be freed: what is stored after the copy of a block waits until that copy is complete.
    #[inline(never)]
    fn move_unit(&mut self, lane: u8, slot: u8, number: u64) -> Result<Reply, NoMemory>
        ensures ok { IfOk result (λ reply. IsLogged (Event.DevMove lane slot number) (mediated self.old) reply (mediated self.new)) }
        ensures err { OnErr result (mediated self.new ≡ mediated self.old) }
    {
        self.log.reserve(1)?;
        let reply = self.mediator.dev_move(lane, slot, number);
        let again = copies::word(&reply);
        push(&mut self.log, Event::DevMove(lane, slot, number), again);
        Ok(reply)
    }

    // A step of any kind, with its reply for the log alone.
    #[inline(never)]
    fn advance_any(&mut self, alloc: Global, event: Event) -> Result<(), NoMemory>
        ensures ok { OnOk result (IsAdvanced event (mediated self.old) (mediated self.new)) }
        ensures err { OnErr result (mediated self.new ≡ mediated self.old) }
    {
        self.log.reserve(1)?;
        let reply = self.mediator.step(alloc, &event)?;
        put(&mut self.log, event, reply);
        Ok(())
    }
}

// Puts an event into a log that has room, with its reply. Each kind of reply is written as what it is: of a reply without bytes, nothing is read
// where bytes would be.
#[inline(always)]
fn put(log: &mut Vec<Logged>, event: Event, reply: Reply)
    requires { vec_len log.old < vec_capacity log.old }
    ensures { log.new.items ≡ log.old.items ++ (record { event = event; reply = reply }) ∷ [] }
{
    match reply {
        Reply::Bytes(bytes) => push(log, event, Reply::Bytes(bytes)),
        Reply::Done => push(log, event, Reply::Done),
        Reply::Idle => push(log, event, Reply::Idle),
        Reply::Busy => push(log, event, Reply::Busy),
        Reply::Held => push(log, event, Reply::Held),
        Reply::Stale => push(log, event, Reply::Stale),
        Reply::Unmapped => push(log, event, Reply::Unmapped),
        Reply::Ignored => push(log, event, Reply::Ignored),
        Reply::NoMemory => push(log, event, Reply::NoMemory),
    }
}

// An event and its reply at the end of a log that has room.
#[inline(always)]
fn push(log: &mut Vec<Logged>, event: Event, reply: Reply)
    requires { vec_len log.old < vec_capacity log.old }
    ensures { log.new.items ≡ log.old.items ++ (record { event = event; reply = reply }) ∷ [] }
{
    log.push_reserved(Logged { event, reply });
}
