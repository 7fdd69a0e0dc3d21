//! A controller's queues stay in order, and hold one entry less than they have slots at most.
ghost use Rattle.std.specs.Prelude.{◌≡◌, ℕ, ◌+◌, ◌-◌, ◌<◌, ◌≤◌, Bool, true, false, List, Some};
ghost use Rattle.nv_entry.specs.Status.{StatusField};
ghost use Rattle.nv_model.specs.Queue.{SubmissionQueue, CompletionQueue, ahead, front_taken, is_full, after_post, unacknowledged, waiting};
ghost use Rattle.nv_model.specs.Controller.{Controller, Posted, completion_queue, doorbell, front, head_rung, opening, post, ran_out, reg_write, submission_queue, took};
ghost use Rattle.nv_model.specs.Admin.{Stepped, admin};
ghost use Rattle.nv_model.specs.Private.{Private, Run, Shape, Step, run_of, start_with};
ghost use Rattle.nv_model.specs.Laws.{QueuesInOrder, QueuesOnPages};

/// Whatever a controller does, its queues stay in order.
pub fn queues_stay_in_order()
    ensures opening { QueuesInOrder opening }
    ensures reg_write { (mapped : ℕ → Bool) (c after : Controller) (offset value : ℕ) →
        QueuesInOrder c → reg_write mapped c offset value ≡ Some after → QueuesInOrder after }
    ensures doorbell { (c after : Controller) (offset value : ℕ) →
        QueuesInOrder c → doorbell c offset value ≡ Some after → QueuesInOrder after }
    ensures took { (c : Controller) (y : ℕ) → QueuesInOrder c → QueuesInOrder (took c y) }
    ensures post { (c : Controller) (y dw0 cid : ℕ) (st : StatusField) (r : Posted) →
        QueuesInOrder c → post c y dw0 cid st ≡ Some r → QueuesInOrder r.controller }
    ensures ran_out { (c : Controller) (y : ℕ) → QueuesInOrder c → QueuesInOrder (ran_out c y) }
    ensures admin { (mapped : ℕ → Bool) (blocks : ℕ) (c after : Controller) (memory behind : ℕ → ℕ) →
        QueuesInOrder c → admin mapped blocks c memory ≡ Stepped after behind → QueuesInOrder after }
{}

/// And each of its queues begins with a page.
pub fn queues_begin_with_a_page()
    ensures opening { QueuesOnPages opening }
    ensures reg_write { (mapped : ℕ → Bool) (c after : Controller) (offset value : ℕ) →
        QueuesOnPages c → reg_write mapped c offset value ≡ Some after → QueuesOnPages after }
    ensures doorbell { (c after : Controller) (offset value : ℕ) →
        QueuesOnPages c → doorbell c offset value ≡ Some after → QueuesOnPages after }
    ensures took { (c : Controller) (y : ℕ) → QueuesOnPages c → QueuesOnPages (took c y) }
    ensures post { (c : Controller) (y dw0 cid : ℕ) (st : StatusField) (r : Posted) →
        QueuesOnPages c → post c y dw0 cid st ≡ Some r → QueuesOnPages r.controller }
    ensures ran_out { (c : Controller) (y : ℕ) → QueuesOnPages c → QueuesOnPages (ran_out c y) }
    ensures admin { (mapped : ℕ → Bool) (blocks : ℕ) (c after : Controller) (memory behind : ℕ → ℕ) →
        QueuesOnPages c → admin mapped blocks c memory ≡ Stepped after behind → QueuesOnPages after }
{}

/// The queues are in order at the start, whatever memory and blocks have, and after each run.
pub fn runs_keep_queues_in_order()
    ensures start { (memory : ℕ → ℕ) (disk : ℕ → ℕ → ℕ) → QueuesInOrder (start_with memory disk).controller }
    ensures run { (shape : Shape) (steps : List Step) (p : Private) (r : Run) →
        QueuesInOrder p.controller → run_of shape steps p ≡ Some r → QueuesInOrder r.state.controller }
    ensures from_start { (memory : ℕ → ℕ) (disk : ℕ → ℕ → ℕ) (shape : Shape) (steps : List Step) (r : Run) →
        run_of shape steps (start_with memory disk) ≡ Some r → QueuesInOrder r.state.controller }
{}

/// A queue in order holds one entry less than it has slots at most, and a completion queue is full exactly where it holds that many.
pub fn a_slot_stays_empty()
    ensures submission { (c : Controller) (y : ℕ) (q : SubmissionQueue) →
        QueuesInOrder c → submission_queue c y ≡ Some q → waiting q ≤ q.size - 1 }
    ensures completion { (c : Controller) (y : ℕ) (q : CompletionQueue) →
        QueuesInOrder c → completion_queue c y ≡ Some q → unacknowledged q ≤ q.size - 1 }
    ensures full { (c : Controller) (y : ℕ) (q : CompletionQueue) →
        QueuesInOrder c → completion_queue c y ≡ Some q → (is_full q.size q.head q.tail ≡ true → unacknowledged q ≡ q.size - 1)
        × (unacknowledged q ≡ q.size - 1 → is_full q.size q.head q.tail ≡ true) }
{}

/// A command is taken only where one waits, and then one waits less.
pub fn a_take_lowers_what_waits()
    ensures had_one { (c : Controller) (y addr : ℕ) (q : SubmissionQueue) →
        QueuesInOrder c → submission_queue c y ≡ Some q → front c y ≡ Some addr → 0 < waiting q }
    ensures behind { (c : Controller) (y : ℕ) (q : SubmissionQueue) →
        submission_queue c y ≡ Some q → submission_queue (took c y) y ≡ Some (front_taken q) }
    ensures one_less { (c : Controller) (y addr : ℕ) (q : SubmissionQueue) →
        QueuesInOrder c → submission_queue c y ≡ Some q → front c y ≡ Some addr → waiting (front_taken q) + 1 ≡ waiting q }
{}

/// A completion is posted only where its queue is not full, and one more is unacknowledged then, which still leaves a slot.
pub fn a_post_raises_what_is_unacknowledged()
    ensures had_room { (c : Controller) (y dw0 cid : ℕ) (st : StatusField) (q : SubmissionQueue) (cq : CompletionQueue) (r : Posted) →
        submission_queue c y ≡ Some q → completion_queue c q.completes_to ≡ Some cq → post c y dw0 cid st ≡ Some r →
        is_full cq.size cq.head cq.tail ≡ false }
    ensures behind { (c : Controller) (y dw0 cid : ℕ) (st : StatusField) (q : SubmissionQueue) (cq : CompletionQueue) (r : Posted) →
        submission_queue c y ≡ Some q → completion_queue c q.completes_to ≡ Some cq → post c y dw0 cid st ≡ Some r →
        completion_queue r.controller q.completes_to ≡ Some (after_post cq) }
    ensures one_more { (c : Controller) (y dw0 cid : ℕ) (st : StatusField) (q : SubmissionQueue) (cq : CompletionQueue) (r : Posted) →
        QueuesInOrder c →
        submission_queue c y ≡ Some q → completion_queue c q.completes_to ≡ Some cq → post c y dw0 cid st ≡ Some r →
        unacknowledged (after_post cq) ≡ unacknowledged cq + 1 }
    ensures still_room { (c : Controller) (y dw0 cid : ℕ) (st : StatusField) (q : SubmissionQueue) (cq : CompletionQueue) (r : Posted) →
        QueuesInOrder c →
        submission_queue c y ≡ Some q → completion_queue c q.completes_to ≡ Some cq → post c y dw0 cid st ≡ Some r →
        unacknowledged cq + 1 < cq.size }
{}

/// A head doorbell lowers what is unacknowledged by the completions that it acknowledges, whose tail stays.
pub fn a_head_doorbell_acknowledges()
    ensures { (c after : Controller) (y head : ℕ) (q : CompletionQueue) →
        QueuesInOrder c → completion_queue c y ≡ Some q → head_rung (Some q) c y head ≡ Some after →
        (now : CompletionQueue) × ((completion_queue after y ≡ Some now) × ((now.tail ≡ q.tail)
        × (unacknowledged now + ahead q.size q.head now.head ≡ unacknowledged q))) }
{}
