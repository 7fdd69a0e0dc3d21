//! What holds along every run of the private controller: its counts, its queues and RDY go with the taken commands.
ghost use Rattle.std.specs.Prelude.{◌≡◌, ◌↔◌, ℕ, ◌<◌, ◌≤◌, Bool, true, false, List, length, slice_index, Option, Some, None, IsSome};
ghost use Rattle.nv_entry.specs.Submission.{cid_of};
ghost use Rattle.nv_entry.specs.Status.{StatusField};
ghost use Rattle.nv_model.specs.Queue.{SubmissionQueue, CompletionQueue, is_full};
ghost use Rattle.nv_model.specs.Controller.{Deletion, completion_queue, is_enabled, post, queue_count, running, submission_queue};
ghost use Rattle.nv_model.specs.Private.{After, PostStep, Private, Run, RunOutStep, Shape, Step, Taken, ending, run_of, start_with, step};
ghost use Rattle.nv_model.specs.Running.{AlongEveryRun, HasTaken, IsRunning, count_below};

/// The start is consistent, whatever memory and blocks have, and each step and each run stay so.
pub fn runs_stay_consistent()
    ensures start { (memory : ℕ → ℕ) (disk : ℕ → ℕ → ℕ) → IsRunning (start_with memory disk) }
    ensures step { (shape : Shape) (s : Step) (p : Private) (a : After) →
        IsRunning p → step shape s p ≡ Some a → IsRunning a.state }
    ensures run { (shape : Shape) (steps : List Step) (p : Private) (r : Run) →
        IsRunning p → run_of shape steps p ≡ Some r → IsRunning r.state }
    ensures from_start { AlongEveryRun IsRunning }
{}

/// Along every run the controller counts the commands that are taken, by their queue, which is an I/O queue: no name from
/// some bound on is taken, and below it are as many of each queue as are counted. So none is counted exactly where none is
/// taken.
pub fn taken_commands_are_counted()
    ensures by_queue { AlongEveryRun (λ p.
        (bound : ℕ) × (((name : ℕ) → bound ≤ name → p.bag name ≡ None)
        × ((queue : ℕ) → count_below p.bag queue bound ≡ slice_index p.controller.taken queue))) }
    ensures of_io_queues { AlongEveryRun (λ p. (name : ℕ) (t : Taken) →
        p.bag name ≡ Some t → (0 < t.queue) × (t.queue < queue_count)) }
    ensures no_admin_commands { AlongEveryRun (λ p. slice_index p.controller.taken 0 ≡ 0) }
    ensures lengths { AlongEveryRun (λ p.
        (length p.controller.taken ≡ queue_count) × (length p.controller.submission ≡ queue_count)
        × (length p.controller.completion_queues ≡ queue_count)) }
    ensures none { AlongEveryRun (λ p. (running p.controller ≡ 0) ↔ ((name : ℕ) → p.bag name ≡ None)) }
{}

/// Along every run, while the controller is enabled, the submission queue of each taken command is there; the completion
/// queue of each submission queue is there; while it is not, no queue is there; and a waiting deletion names an I/O queue
/// that is there.
pub fn queues_of_taken_commands_are_there()
    ensures submission { AlongEveryRun (λ p. (name : ℕ) (t : Taken) →
        is_enabled p.controller ≡ true → p.bag name ≡ Some t → IsSome (submission_queue p.controller t.queue)) }
    ensures completion { AlongEveryRun (λ p. (y : ℕ) (q : SubmissionQueue) →
        submission_queue p.controller y ≡ Some q → IsSome (completion_queue p.controller q.completes_to)) }
    ensures while_disabled { AlongEveryRun (λ p. (y : ℕ) → is_enabled p.controller ≡ false →
        (submission_queue p.controller y ≡ None) × (completion_queue p.controller y ≡ None)) }
    ensures deletion { AlongEveryRun (λ p. (d : Deletion) →
        p.controller.deletion ≡ Some d → (0 < d.queue) × IsSome (submission_queue p.controller d.queue)) }
{}

/// Along every run RDY is 1 while a command is taken, and, while EN is 0, only then; where EN and RDY are 1 the admin
/// queues are there.
pub fn ready_while_a_command_is_taken()
    ensures taken { AlongEveryRun (λ p. (name : ℕ) (t : Taken) → p.bag name ≡ Some t → p.controller.ready ≡ true) }
    ensures while_disabled { AlongEveryRun (λ p.
        is_enabled p.controller ≡ false → (p.controller.ready ≡ true) ↔ HasTaken p.bag) }
    ensures admin_queues { AlongEveryRun (λ p.
        is_enabled p.controller ≡ true → p.controller.ready ≡ true →
        IsSome (submission_queue p.controller 0) × IsSome (completion_queue p.controller 0)) }
{}

/// Along every run, while the controller is enabled, a taken command that has ended has a completion queue, and it cannot
/// be completed exactly where that queue is full.
pub fn a_completion_waits_only_for_room()
    ensures has_queue { AlongEveryRun (λ p. (name : ℕ) (t : Taken) →
        is_enabled p.controller ≡ true → p.bag name ≡ Some t →
        (q : SubmissionQueue) × ((cq : CompletionQueue) × ((submission_queue p.controller t.queue ≡ Some q)
        × (completion_queue p.controller q.completes_to ≡ Some cq)))) }
    ensures full { AlongEveryRun (λ p.
        (name : ℕ) (t : Taken) (st : StatusField) (q : SubmissionQueue) (cq : CompletionQueue) →
        is_enabled p.controller ≡ true → p.bag name ≡ Some t → ending t.progress ≡ Some st →
        submission_queue p.controller t.queue ≡ Some q → completion_queue p.controller q.completes_to ≡ Some cq →
        (post p.controller t.queue 0 (cid_of t.entry) st ≡ None) ↔ (is_full cq.size cq.head cq.tail ≡ true)) }
    ensures step { AlongEveryRun (λ p.
        (shape : Shape) (name : ℕ) (t : Taken) (st : StatusField) (q : SubmissionQueue) (cq : CompletionQueue) →
        is_enabled p.controller ≡ true → p.bag name ≡ Some t → ending t.progress ≡ Some st →
        submission_queue p.controller t.queue ≡ Some q → completion_queue p.controller q.completes_to ≡ Some cq →
        IsSome (step shape (PostStep name) p) ↔ (is_full cq.size cq.head cq.tail ≡ false)) }
{}

/// A command that runs out is taken no longer, and the others are as they were; along every run RDY stays 1 exactly where
/// another is taken still.
pub fn ready_falls_with_the_last()
    ensures gone { (shape : Shape) (p : Private) (a : After) (name : ℕ) →
        step shape (RunOutStep name) p ≡ Some a → a.state.bag name ≡ None }
    ensures others { (shape : Shape) (p : Private) (a : After) (name other : ℕ) →
        step shape (RunOutStep name) p ≡ Some a → (other ≡ name → ⊥) → a.state.bag other ≡ p.bag other }
    ensures ready { AlongEveryRun (λ p. (shape : Shape) (a : After) (name : ℕ) →
        step shape (RunOutStep name) p ≡ Some a → (a.state.controller.ready ≡ true) ↔ HasTaken a.state.bag) }
{}
