//! Plans that were made elsewhere.

ghost use Rattle.std.specs.Prelude.{◌≡◌};
ghost use Rattle.nv_world.specs.Mediated.{IsContained, IsSubmitted, KeepsPromise, mediated};

use crate::world::World;
use nv_model::Reply;
use nv_plan::Plan;
use nv_world_model::{Event, Logged};

impl World {
    /// Carries out a plan that was made elsewhere, as the event Submit of its tag, and logs it so. Stale, with nothing logged, where what it was
    /// made of is not current: its job is not its tag's, or the guest's map, namespace or limit is another. Where no memory is left, nothing has
    /// changed.
    pub fn submit_plan(&mut self, plan: Plan) -> Reply
        ensures submitted { IsSubmitted plan (mediated self.old) result (mediated self.new) }
        ensures contained { IsContained self.new }
        ensures promise { KeepsPromise self.new }
    {
        let reply = self.submit_made(plan);
        // With the log comes what is known of its steps.
        let _known = self.log();
        reply
    }

    // The plan itself.
    fn submit_made(&mut self, plan: Plan) -> Reply
        ensures { IsSubmitted plan (mediated self.old) result (mediated self.new) }
    {
        let job = plan.job();
        let event = Event::Submit(job.lane, job.tag);
        if self.log.reserve(1).is_err() {
            return Reply::NoMemory;
        }
        let Some(reply) = self.mediator.submit_plan(plan) else {
            return Reply::Stale;
        };
        self.log.push_reserved(Logged {
            event,
            reply: Reply::Done,
        });
        reply
    }
}
