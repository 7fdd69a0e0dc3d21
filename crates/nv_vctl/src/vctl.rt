//! The controller, and what can be read of it.

ghost use Rattle.std.specs.Prelude.{◌≡◌, ◌+◌, ◌-◌, ◌*◌, ◌<◌, ◌≤◌, ◌==◌, ◌↔◌, ℕ, All, Bool};
ghost use Rattle.std.specs.Prelude.{IfSome, IsTrue, drop, if◌then◌else◌, not, nat_lt, is_some, length, slice_index, slice_set, sum};
ghost use Rattle.std.specs.List.{list_any};
ghost use Rattle.nv_model.specs.Admin.{has_io_queue, is_queue_full, uses};
ghost use Rattle.nv_entry.specs.Status.{StatusField};
ghost use Rattle.nv_model.specs.Controller.{completion_queue, front, front_of, is_enabled, is_ready, opening, pending, post, running, submission_queue};
ghost use Rattle.nv_mem.specs.GuestMap.{mapped};
ghost use Rattle.nv_model.specs.Laws.{IsCompletionInPlace, IsSubmissionInPlace, QueuesInPlace};
ghost use Rattle.nv_model.specs.Limits.{last_queue, most_requests};
ghost use Rattle.nv_model.specs.Queue.{raised};
ghost use Rattle.nv_vctl.specs.Next.{IsNext};
ghost use Rattle.nv_vctl.specs.Vctl.{IsWhole, most_taken};

use crate::deletion::Deletion;
use crate::queues::{CompletionQueue, SubmissionQueue};
use crate::registers::enables;
use nv_mem::GuestMap;
use nv_model::limits::{LAST_QUEUE, MOST_REQUESTS, QUEUE_COUNT};
use std::marker::Model;

/// The most taken commands of a queue that are counted.
pub const MOST_TAKEN: u16 = 65_535;

/// A guest's virtual controller. A contract sees it as the registers, the queues by number, how many commands of each are
/// taken, the event requests that are held, and a deletion that waits.
#[derive(Debug, Drop)]
pub struct Vctl {
    pub(crate) cc: u32,
    pub(crate) aqa: u32,
    pub(crate) asq_low: u32,
    pub(crate) asq_high: u32,
    pub(crate) acq_low: u32,
    pub(crate) acq_high: u32,
    pub(crate) ready: bool,
    pub(crate) failed: bool,
    pub(crate) submission: [Option<SubmissionQueue>; QUEUE_COUNT],
    pub(crate) completion: [Option<CompletionQueue>; QUEUE_COUNT],
    pub(crate) taken: [u16; QUEUE_COUNT],
    pub(crate) held_requests: u8,
    pub(crate) deletion: Option<Deletion>,
}

impl Model for Vctl {
    ghost use Rattle.nv_model.specs.Controller.{Controller};
    ghost use Rattle.nv_vctl.specs.Vctl.{IsWhole};

    ghost Value = { Controller };

    ghost use Rattle.nv_vctl.specs.Inside.{controller_of};

    ghost view = { controller_of };

    ghost invariant = { λ v. IsWhole (controller_of v) };
}

impl Vctl {
    /// The controller at the start: every register is 0 but CAP and VS, and no queue is there.
    #[tactic(auto, unfolding(nv_model::specs::Controller::opening))]
    pub fn new() -> Self
        ensures state { result ≡ opening }
        ensures in_place { (test : ℕ → Bool) → QueuesInPlace test result }
    {
        Vctl {
            cc: 0,
            aqa: 0,
            asq_low: 0,
            asq_high: 0,
            acq_low: 0,
            acq_high: 0,
            ready: false,
            failed: false,
            submission: [None; QUEUE_COUNT],
            completion: [None; QUEUE_COUNT],
            taken: [0; QUEUE_COUNT],
            held_requests: 0,
            deletion: None,
        }
    }

    /// Whether the controller is enabled: CC.EN is 1.
    pub fn is_enabled(&self) -> bool
        ensures value { result ≡ is_enabled self.now }
        ensures whole { IsWhole self.now }
    {
        enables(self.cc)
    }

    /// Whether the controller is ready: CC.EN and CSTS.RDY are both 1.
    pub fn is_ready(&self) -> bool
        ensures value { result ≡ is_ready self.now }
        ensures whole { IsWhole self.now }
    {
        self.is_enabled() && self.ready
    }

    /// Whether commands are running: some are taken.
    pub fn is_running(&self) -> bool
        ensures { result ≡ not (running self.now == 0) }
    {
        any_taken(&self.taken)
    }

    /// How many commands of an I/O queue are taken. There is none of a queue of another number.
    pub fn taken(&self, queue: u16) -> u16
        ensures { result ≡ slice_index self.now.taken queue }
    {
        self.taken.get(usize::from(queue)).copied().unwrap_or(0)
    }

    /// Whether there is a submission queue of that number.
    pub fn has_submission_queue(&self, queue: u16) -> bool
        ensures { result ≡ is_some (submission_queue self.now queue) }
    {
        self.submission_queue(usize::from(queue)).is_some()
    }

    /// Whether there is a completion queue of that number.
    pub fn has_completion_queue(&self, queue: u16) -> bool
        ensures { result ≡ is_some (completion_queue self.now queue) }
    {
        self.completion_queue(usize::from(queue)).is_some()
    }

    /// Whether some submission queue uses the completion queue of that number.
    pub fn uses_completion_queue(&self, queue: u16) -> bool
        ensures { result ≡ list_any (uses queue) self.now.submission }
    {
        self.submission.iter().any(|found| uses(found, queue))
    }

    /// Whether an I/O queue is there, of submissions or of completions.
    pub fn has_io_queue(&self) -> bool
        ensures { result ≡ has_io_queue self.now }
    {
        has_io_submission_queue(&self.submission) || has_io_completion_queue(&self.completion)
    }

    /// Whether the admin completion queue is there and full.
    pub fn is_admin_full(&self) -> bool
        ensures { result ≡ is_queue_full (completion_queue self.now 0) }
    {
        match &self.completion[0] {
            Some(queue) => queue.is_full(),
            None => false,
        }
    }

    /// Whether a completion of a command of a queue can be posted: the queue is there, and its completion queue has room.
    #[tactic(auto, unfolding(nv_model::specs::Controller::post))]
    pub fn has_room(&self, queue: u16) -> bool
        ensures { (dw0 cid : ℕ) (st : StatusField) → result ≡ is_some (post self.now queue dw0 cid st) }
    {
        let Some(from) = self.submission_queue(usize::from(queue)) else {
            return false;
        };
        let Some(to) = self.completion_queue(usize::from(from.completes_to)) else {
            return false;
        };
        !to.is_full()
    }

    /// Whether one more event request can be held.
    pub fn can_hold_request(&self) -> bool
        ensures { result ≡ nat_lt self.now.held_requests most_requests }
    {
        self.held_requests < MOST_REQUESTS
    }

    /// The deletion that waits, if there is one.
    pub fn deletion(&self) -> Option<Deletion>
        ensures { result ≡ self.now.deletion }
    {
        self.deletion
    }

    /// Whether a command of a queue may be taken: the controller is ready, and the queue is there, does not close and has a
    /// command that waits.
    #[tactic(auto, unfolding(nv_model::specs::Controller::front))]
    pub fn waits(&self, queue: u16) -> bool
        ensures { result ≡ is_some (front self.now queue) }
    {
        match self.submission_queue(usize::from(queue)) {
            Some(found) => self.is_ready() && found.waits(),
            None => false,
        }
    }

    /// The first I/O queue, from number `from` on, of which a command may be taken ([`Vctl::waits`]); 9 where it is none.
    pub fn next_waiting(&self, from: u16) -> u16
        ensures { IsNext (λ queue. is_some (front self.now queue)) from (last_queue + 1) result }
    {
        if !self.is_ready() {
            return LAST_QUEUE + 1;
        }
        for queue in from..LAST_QUEUE + 1 {
            if self.holds_command(queue) {
                return queue;
            }
        }
        LAST_QUEUE + 1
    }

    // Whether the submission queue of that number is there, does not close and has a command that waits.
    fn holds_command(&self, queue: u16) -> bool
        ensures { result ≡ is_some (front_of (submission_queue self.now queue)) }
    {
        match self.submission_queue(usize::from(queue)) {
            Some(found) => found.waits(),
            None => false,
        }
    }

    /// Whether one more taken command of a queue can be counted: fewer than [`MOST_TAKEN`] are taken.
    pub fn counts_more(&self, queue: u16) -> bool
        ensures { result ≡ nat_lt (slice_index self.now.taken queue) most_taken }
    {
        self.taken(queue) < MOST_TAKEN
    }

    /// Whether the queues that are there lie wholly in the map, as every call that is lent a map and a host requires. Every call
    /// keeps it.
    pub fn lies_in(&self, map: &GuestMap) -> bool
        ensures { IsTrue result ↔ QueuesInPlace (mapped map.now.regions) self.now }
    {
        submissions_lie_in(&self.submission, map) && completions_lie_in(&self.completion, map)
    }

    /// The interrupt vectors that are pending, by the number of the completion queue that raises them: one that holds completions which the guest
    /// has not acknowledged, and whose interrupts are enabled.
    pub fn pending(&self) -> [Option<u16>; QUEUE_COUNT]
        ensures { result ≡ pending self.now }
    {
        self.completion.each_ref().map(raised)
    }

    /// The submission queue of a number.
    pub(crate) fn submission_queue(&self, queue: usize) -> Option<SubmissionQueue>
        ensures { result ≡ submission_queue self.now queue }
    {
        self.submission.get(queue).copied().flatten()
    }

    /// The completion queue of a number; `None` where none is there.
    pub fn completion_queue(&self, queue: usize) -> Option<CompletionQueue>
        ensures { result ≡ completion_queue self.now queue }
    {
        self.completion.get(queue).copied().flatten()
    }
}

/// Whether some command is taken, by how many of each queue are.
pub(crate) fn any_taken(taken: &[u16; QUEUE_COUNT]) -> bool
    ensures { result ≡ not (sum taken.now == 0) }
{
    any_nonzero(taken)
}

/// One more command of a queue is taken, where it is an I/O queue.
pub(crate) fn count_taken(taken: &mut [u16; QUEUE_COUNT], queue: usize)
    requires number { queue < length taken.old }
    requires counted { 0 < queue → slice_index taken.old queue < most_taken }
    ensures { taken.new ≡ (if queue == 0 then taken.old else slice_set taken.old queue (slice_index taken.old queue + 1)) }
{
    if queue != 0 {
        taken[queue] += 1;
    }
}

/// One command fewer of a queue is taken, where it is an I/O queue.
pub(crate) fn count_ended(taken: &mut [u16; QUEUE_COUNT], queue: usize)
    requires number { queue < length taken.old }
    requires taken { 0 < queue → 0 < slice_index taken.old queue }
    ensures { taken.new ≡ (if queue == 0 then taken.old else slice_set taken.old queue (slice_index taken.old queue - 1)) }
{
    if queue != 0 {
        taken[queue] -= 1;
    }
}

// Whether some of these counts is not 0.
fn any_nonzero(counts: &[u16; QUEUE_COUNT]) -> bool
    ensures { result ≡ list_any (λ n. not (n == 0)) counts.now }
{
    counts.iter().any(|count| *count != 0)
}

// Whether a submission queue is there beside that of the admin queue.
fn has_io_submission_queue(queues: &[Option<SubmissionQueue>; QUEUE_COUNT]) -> bool
    ensures { result ≡ list_any is_some (drop 1 queues.now) }
{
    queues.iter().skip(1).any(|found| found.is_some())
}

// Whether a completion queue is there beside that of the admin queue.
fn has_io_completion_queue(queues: &[Option<CompletionQueue>; QUEUE_COUNT]) -> bool
    ensures { result ≡ list_any is_some (drop 1 queues.now) }
{
    queues.iter().skip(1).any(|found| found.is_some())
}

// Whether the submission queues that are there lie in the map.
fn submissions_lie_in(queues: &[Option<SubmissionQueue>; QUEUE_COUNT], map: &GuestMap) -> bool
    ensures { IsTrue result ↔ All (λ o. IfSome o (IsSubmissionInPlace (mapped map.now.regions))) queues.now }
{
    queues.iter().flatten().all(|found| found.lies_in(map))
}

// Whether the completion queues that are there lie in the map.
fn completions_lie_in(queues: &[Option<CompletionQueue>; QUEUE_COUNT], map: &GuestMap) -> bool
    ensures { IsTrue result ↔ All (λ o. IfSome o (IsCompletionInPlace (mapped map.now.regions))) queues.now }
{
    queues.iter().flatten().all(|found| found.lies_in(map))
}

// The vector that a completion queue raises, if it is there.
fn raised(found: &Option<CompletionQueue>) -> Option<u16>
    ensures { result ≡ raised found.now }
{
    match found {
        Some(queue) => queue.raised(),
        None => None,
    }
}

// Whether there is a queue, and it uses that completion queue.
fn uses(found: &Option<SubmissionQueue>, queue: u16) -> bool
    ensures { result ≡ uses queue found.now }
{
    match found {
        Some(used) => used.completes_to == queue,
        None => false,
    }
}
