//! Steps of the mediator.

ghost use Rattle.std.specs.Prelude.{◌≡◌, IfOk, IfSome, IsTrue, None, OnErr};
ghost use Rattle.nv_core.specs.State.{world_of};
ghost use Rattle.nv_core.specs.Submit.{IsCurrent};
ghost use Rattle.nv_mediator.specs.Hosted.{IsMade, IsSame, may_want};

use crate::mediator::Mediator;
use crate::performing;
use nv_mem::NoMemory;
use nv_model::Reply;
use nv_plan::Plan;
use nv_world_model::Event;
use std::alloc::Global;

impl Mediator {
    /// Carries out an event.
    ///
    /// # Errors
    ///
    /// There was no memory for it, and nothing has changed. Only a load of more than 7 bytes, a List, a Submit and a DevTake want any.
    #[inline]
    pub fn step(&mut self, alloc: Global, event: &Event) -> Result<Reply, NoMemory>
        ensures ok { IfOk result (λ reply. IsMade event.now self.old reply self.new) }
        ensures err { OnErr result ((self.new ≡ self.old) × IsTrue (may_want event.now)) }
    {
        performing::known(event);
        performing::perform(alloc, &self.layout, &mut self.core, event)
    }

    /// Carries out an event, for whoever keeps a log: the reply comes twice.
    ///
    /// # Errors
    ///
    /// There was no memory for it, or for the second reply. The world is as it was.
    #[inline]
    pub fn step_twice(&mut self, alloc: Global, event: &Event) -> Result<(Reply, Reply), NoMemory>
        ensures ok { IfOk result (λ told. IsMade event.now self.old told.0 self.new) }
        ensures again { IfOk result (λ told. told.1 ≡ told.0) }
        ensures err { OnErr result (IsSame self.old self.new) }
    {
        performing::known(event);
        performing::perform_twice(alloc, &self.layout, &mut self.core, event)
    }

    /// Carries out a plan that was made elsewhere, as the event Submit of its tag. `None`, with nothing changed, where it was not made from what is
    /// there now: its job is not its tag's, or the guest's map, namespace or limit is another. It takes no memory.
    #[inline]
    pub fn submit_plan(&mut self, plan: Plan) -> Option<Reply>
        ensures some { IfSome result (λ reply.
            IsCurrent self.old.geometry (world_of self.old.state) plan
            × IsMade (Event.Submit plan.job.lane plan.job.tag) self.old reply self.new) }
        ensures done { IfSome result (λ reply. reply ≡ Reply.Done) }
        ensures none { result ≡ None → (self.new ≡ self.old) × (IsCurrent self.old.geometry (world_of self.old.state) plan → ⊥) }
    {
        self.core.submit_plan(&self.layout, plan)
    }
}
