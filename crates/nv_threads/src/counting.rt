//! Events that a worker makes, and counts.

ghost use Rattle.std.specs.Prelude.{◌≡◌, ◌+◌, ◌<◌, false, true};
ghost use Rattle.nv_threads.specs.Counting.{HasCounted, most_events};
ghost use Rattle.nv_world.specs.Mediated.{IsStepped, IsSubmitted, mediated};

use crate::share::Share;
use nv_model::Reply;
use nv_plan::Plan;
use nv_world::World;
use nv_world_model::Event;
use std::alloc::Global;

impl Share {
    /// No event yet.
    pub(crate) fn new() -> Self
        ensures { result ≡ 0 }
    {
        Share { events: 0 }
    }

    /// Makes an event in the world, and counts it where it was logged.
    pub(crate) fn step(&mut self, world: &mut World, alloc: Global, event: Event) -> Reply
        ensures stepped { IsStepped event (mediated world.old) result (mediated world.new) }
        ensures counted { HasCounted self.old world.old.log self.new world.new.log }
    {
        let before = world.log().len();
        let reply = world.step(alloc, event);
        let grown = world.log().len() != before;
        self.count(grown);
        reply
    }

    /// Carries out a plan in the world, and counts its event where it was logged.
    pub(crate) fn submit(&mut self, world: &mut World, plan: Plan) -> Reply
        ensures submitted { IsSubmitted plan (mediated world.old) result (mediated world.new) }
        ensures counted { HasCounted self.old world.old.log self.new world.new.log }
    {
        let before = world.log().len();
        let reply = world.submit_plan(plan);
        let grown = world.log().len() != before;
        self.count(grown);
        reply
    }

    // Counts one more event, where the log has grown.
    fn count(&mut self, grown: bool)
        ensures same { grown ≡ false → self.new ≡ self.old }
        ensures more { grown ≡ true → self.old < most_events → self.new ≡ self.old + 1 }
    {
        if grown {
            self.events = self.events.saturating_add(1);
        }
    }
}
