//! Many steps of the world.

ghost use Rattle.std.specs.Prelude.{◌≡◌, OnErr, OnOk};
ghost use Rattle.nv_world.specs.Mediated.{AreAnswered, IsContained, IsStepped, KeepsPromise, mediated};

use crate::copies;
use crate::world::World;
use nv_mem::NoMemory;
use nv_model::Reply;
use nv_world_model::Event;
use std::alloc::Global;

impl World {
    /// Carries out these events one after another, and appends their replies to others. A step for which there is no memory is answered so, and the
    /// next one is made. So is an event of which there was no copy for the log. Each step in the log is contained.
    ///
    /// # Errors
    ///
    /// There was no memory for all of the replies, and nothing has changed.
    pub fn run(
        &mut self,
        alloc: Global,
        events: &[Event],
        replies: &mut Vec<Reply>,
    ) -> Result<(), NoMemory>
        ensures ok { OnOk result (AreAnswered events.now (mediated self.old) replies.old.items replies.new.items (mediated self.new)) }
        ensures err { OnErr result ((mediated self.new ≡ mediated self.old) × (replies.new.items ≡ replies.old.items)) }
        ensures contained { IsContained self.new }
        ensures promise { KeepsPromise self.new }
    {
        let ended = self.run_all(alloc, events, replies);
        // With the log comes what is known of its steps.
        let _known = self.log();
        ended
    }

    // The events themselves.
    fn run_all(
        &mut self,
        alloc: Global,
        events: &[Event],
        replies: &mut Vec<Reply>,
    ) -> Result<(), NoMemory>
        ensures ok { OnOk result (AreAnswered events.now (mediated self.old) replies.old.items replies.new.items (mediated self.new)) }
        ensures err { OnErr result ((mediated self.new ≡ mediated self.old) × (replies.new.items ≡ replies.old.items)) }
    {
        replies.reserve(events.len())?;
        for event in events {
            replies.push_reserved(self.step_lent(alloc, event));
        }
        Ok(())
    }

    // Carries out an event that is lent.
    fn step_lent(&mut self, alloc: Global, event: &Event) -> Reply
        ensures { IsStepped event.now (mediated self.old) result (mediated self.new) }
    {
        let Ok(event) = copies::event(alloc, event) else {
            return Reply::NoMemory;
        };
        self.step(alloc, event)
    }
}
