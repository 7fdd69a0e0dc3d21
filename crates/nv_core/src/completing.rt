//! Commands that have ended, completed for their guests without the host's memory.

ghost use Rattle.std.specs.Prelude.{◌≡◌, ◌<◌, ◌++◌, [], IfOk, MatchResult, Some, is_some, slice_get, slice_index, true};
ghost use Rattle.nv_core.specs.Completing.{AreCounted, IsAnswered, IsCountedIn, IsEnding, completion_for, copies, ended_controller, ended_posting, ended_side, stores_of};
ghost use Rattle.nv_laws_sound.specs.Side.{IsKept};
ghost use Rattle.nv_machine.specs.Machine.{call};
ghost use Rattle.nv_vctl.specs.Vctl.{CompletionsFit};

use crate::front::Front;
use crate::front_due::may_end;
use crate::layout::Layout;
use crate::noting::noted;
use nv_entry::Status;
use nv_model::Reply;
use nv_vctl::{Posting, Vctl};
use nv_world_model::Event;

/// A completion that is to be stored, and whose it is.
#[derive(Clone, Copy, Debug, PartialEq, Eq)]
pub struct Completion {
    /// The guest.
    pub guest: u8,
    /// Where in the guest's memory it goes, and its bytes.
    pub posting: Posting,
}

/// A command that has ended and is completed next.
#[derive(Clone, Copy, Debug, PartialEq, Eq)]
pub(crate) struct Ending {
    /// The guest.
    pub(crate) guest: u8,
    /// The guest's submission queue.
    pub(crate) queue: u16,
    /// The guest's own identifier of the command.
    pub(crate) cid: u16,
    /// The status that it ends with.
    pub(crate) status: Status,
}

impl Front {
    /// The command that goes by a tag, whose parts have all ended, is completed for its guest, and its tags become free. Where the guest has
    /// reset its controller meanwhile, the command runs out without a completion. Held, with nothing changed, where the guest's completion queue
    /// is full; Stale where some part has not ended, or the tag is none that a command goes by; Ignored where there is no such tag.
    ///
    /// No memory is touched. The caller first copies the bytes of a bounced Read that succeeded, and then stores the completion: its last dword,
    /// which has the phase tag, after the rest. No call says yet which copies these are.
    ///
    /// The caller knows that each guest's controller counts the guest's commands, as it does in every world that events lead to.
    #[inline(never)]
    pub fn complete(&mut self, layout: &Layout, lane: u8, tag: u8) -> (Reply, Option<Completion>)
        requires kept { IsKept layout.now self.old }
        requires counted { AreCounted layout.now self.old }
        ensures side { (call layout.now (Event.Post lane tag) [] self.old).now.side ≡ self.new }
        ensures reply { (call layout.now (Event.Post lane tag) [] self.old).reply ≡ Some result.0 }
        ensures effects { let effects = (call layout.now (Event.Post lane tag) [] self.old).now.effects in
            effects ≡ copies effects ++ stores_of layout.now result.1 }
    {
        let ending = match self.ending(layout, lane, tag) {
            Ok(ending) => ending,
            Err(reply) => return (reply, None),
        };
        (Reply::Done, self.finish(lane, tag, ending))
    }

    /// The command that goes by a tag, where it has ended and may be completed; what is answered, where not.
    pub(crate) fn ending(&self, layout: &Layout, lane: u8, tag: u8) -> Result<Ending, Reply>
        requires { IsKept layout.now self.now }
        ensures ending { MatchResult result (λ ending. IsEnding lane tag self.now ending) (λ answer. IsAnswered layout.now (Event.Post lane tag) self.now answer) }
        ensures given { IfOk result (λ ending. is_some (slice_get layout.now.guests ending.guest) ≡ true) }
    {
        if let Some(reply) = self.unended(lane, tag) {
            return Err(reply);
        }
        let ring = &self.lanes[usize::from(lane)];
        let claim = ring.ended(tag);
        let guest = claim.guest;
        let Some(given) = layout.guest(guest) else {
            return Err(Reply::Stale);
        };
        // With the length of the host comes what is known of every map.
        let _known = given.map().host_len();
        let Some(status) = ring.outcome(tag) else {
            return Err(Reply::Stale);
        };
        let queue = claim.queue;
        if !may_end(queue, &self.controllers[usize::from(guest)]) {
            return Err(Reply::Held);
        }
        Ok(Ending {
            guest,
            queue,
            cid: claim.entry.cid(),
            status,
        })
    }

    /// A command that has ended is completed, or runs out, and its tags become free.
    pub(crate) fn finish(&mut self, lane: u8, tag: u8, ending: Ending) -> Option<Completion>
        requires ending { IsEnding lane tag self.old ending }
        requires counted { IsCountedIn self.old ending }
        ensures side { (e : IsEnding lane tag self.old ending) → self.new ≡ ended_side lane tag ending e.at e.controller self.old }
        ensures completion { (e : IsEnding lane tag self.old ending) →
            result ≡ completion_for ending.guest (ended_posting ending.queue ending.cid ending.status e.controller) }
    {
        let guest = ending.guest;
        self.noted = noted(self.noted, guest);
        let completion = settle(ending, &mut self.controllers[usize::from(guest)]);
        self.lanes[usize::from(lane)].release(tag);
        completion
    }
}

// A command that has ended is completed by its guest's controller, or runs out there.
fn settle(ending: Ending, vctl: &mut Vctl) -> Option<Completion>
    requires queue { 0 < ending.queue }
    requires taken { 0 < slice_index vctl.old.taken ending.queue }
    requires fits { CompletionsFit vctl.old }
    ensures completion { result ≡ completion_for ending.guest (ended_posting ending.queue ending.cid ending.status vctl.old) }
    ensures controller { vctl.new ≡ ended_controller ending.queue ending.cid ending.status vctl.old }
{
    if !vctl.is_enabled() {
        vctl.ran_out(ending.queue);
        return None;
    }
    let posting = vctl.post(ending.queue, 0, ending.cid, ending.status)?;
    Some(Completion {
        guest: ending.guest,
        posting,
    })
}
