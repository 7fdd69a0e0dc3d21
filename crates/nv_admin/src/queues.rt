//! I/O queues, created and deleted (Base Specification 2.0, "Create I/O Completion Queue command" and its kin). The order of the checks
//! and the status of each fault are the project's own choice (profile).

ghost use Rattle.std.specs.Prelude.{◌≡◌, ◌≤◌, ℕ, ◌+◌, ◌*◌, Bool, IfOk, IsSome, None, is_some, true};
ghost use Rattle.std.specs.Result.{result_err};
ghost use Rattle.nv_entry.specs.Submission.{prp1_of};
ghost use Rattle.nv_mem.specs.GuestMap.{everywhere, mapped};
ghost use Rattle.nv_model.specs.Admin.{completes_to_checks, completion_id, create_completion, create_submission, delete_completion, delete_submission, new_queue_checks, place_checks, qid, qsize};
ghost use Rattle.nv_model.specs.Controller.{completion_queue, is_ready, submission_queue};
ghost use Rattle.nv_model.specs.Laws.{QueuesInPlace};
ghost use Rattle.nv_model.specs.Queue.{sqe_size};
ghost use Rattle.nv_model.specs.Reading.{first_failing};
ghost use Rattle.nv_ring.specs.Ring.{FitsRing};
ghost use Rattle.nv_vctl.specs.Vctl.{IsIoQueue};
ghost use Rattle.nv_admin.specs.Effect.{Keeps, effect};

use crate::fields;
use crate::outcome::Outcome;
use nv_entry::{Sqe, StatusCode};
use nv_mem::{GuestMap, PAGE_SIZE};
use nv_model::limits::{CQE_SIZE, LAST_QUEUE, MOST_SLOTS, SQE_SIZE};
use nv_vctl::Vctl;

/// Create I/O Submission Queue.
pub(crate) fn create_submission_queue(
    vctl: &mut Vctl,
    sqe: &Sqe,
    map: &GuestMap,
) -> Result<Outcome, StatusCode>
    requires { is_ready vctl.old ≡ true }
    ensures effect { (memory : ℕ → ℕ) → create_submission (mapped map.now.regions) sqe.now vctl.old memory ≡ effect result vctl.new memory }
    ensures keeps { Keeps vctl.old vctl.new }
    ensures in_place { let test = mapped map.now.regions in QueuesInPlace test vctl.old → QueuesInPlace test vctl.new }
{
    let queue = fields::queue(sqe);
    let size = check_new_queue(sqe, vctl.has_submission_queue(queue))?;
    let completes_to = check_completes_to(sqe, vctl)?;
    check_place(sqe, SQE_SIZE, size, map)?;
    vctl.create_submission_queue(queue, sqe.prp1(), size, completes_to);
    Ok(Outcome::Done { dw0: 0 })
}

/// Create I/O Completion Queue. Its interrupt fields are kept with the queue, and nothing is refused because of them.
pub(crate) fn create_completion_queue(
    vctl: &mut Vctl,
    sqe: &Sqe,
    map: &GuestMap,
) -> Result<Outcome, StatusCode>
    requires { is_ready vctl.old ≡ true }
    ensures effect { (memory : ℕ → ℕ) → create_completion (mapped map.now.regions) sqe.now vctl.old memory ≡ effect result vctl.new memory }
    ensures keeps { Keeps vctl.old vctl.new }
    ensures in_place { let test = mapped map.now.regions in QueuesInPlace test vctl.old → QueuesInPlace test vctl.new }
{
    let queue = fields::queue(sqe);
    let size = check_new_queue(sqe, vctl.has_completion_queue(queue))?;
    check_place(sqe, CQE_SIZE, size, map)?;
    vctl.create_completion_queue(queue, sqe.prp1(), size, fields::vector(sqe));
    Ok(Outcome::Done { dw0: 0 })
}

/// Delete I/O Submission Queue. A queue with taken commands closes, and its deletion waits for them.
pub(crate) fn delete_submission_queue(vctl: &mut Vctl, sqe: &Sqe) -> Result<Outcome, StatusCode>
    requires ready { is_ready vctl.old ≡ true }
    requires no_deletion { vctl.old.deletion ≡ None }
    ensures effect { (memory : ℕ → ℕ) → delete_submission sqe.now vctl.old memory ≡ effect result vctl.new memory }
    ensures keeps { Keeps vctl.old vctl.new }
    ensures in_place { (test : ℕ → Bool) → QueuesInPlace test vctl.old → QueuesInPlace test vctl.new }
{
    // With whether it is ready comes what is known of every controller.
    let _known = vctl.is_ready();
    let queue = fields::queue(sqe);
    if queue == 0 || !vctl.has_submission_queue(queue) {
        return Err(StatusCode::InvalidQueueIdentifier);
    }
    if vctl.taken(queue) == 0 {
        vctl.delete_submission_queue(queue);
        Ok(Outcome::Done { dw0: 0 })
    } else {
        vctl.close_submission_queue(queue, sqe.cid());
        Ok(Outcome::Pending)
    }
}

/// Delete I/O Completion Queue.
pub(crate) fn delete_completion_queue(vctl: &mut Vctl, sqe: &Sqe) -> Result<Outcome, StatusCode>
    requires { is_ready vctl.old ≡ true }
    ensures effect { (memory : ℕ → ℕ) → delete_completion sqe.now vctl.old memory ≡ effect result vctl.new memory }
    ensures keeps { Keeps vctl.old vctl.new }
    ensures in_place { (test : ℕ → Bool) → QueuesInPlace test vctl.old → QueuesInPlace test vctl.new }
{
    // With whether it is ready comes what is known of every controller.
    let _known = vctl.is_ready();
    let queue = fields::queue(sqe);
    if queue == 0 || !vctl.has_completion_queue(queue) {
        return Err(StatusCode::InvalidQueueIdentifier);
    }
    if vctl.uses_completion_queue(queue) {
        return Err(StatusCode::InvalidQueueDeletion);
    }
    vctl.delete_completion_queue(queue);
    Ok(Outcome::Done { dw0: 0 })
}

// The checks of a new queue's number, size and contiguity, where `there` says whether a queue of that number is there. Its size is returned.
fn check_new_queue(sqe: &Sqe, there: bool) -> Result<u16, StatusCode>
    ensures fault { result_err result ≡ first_failing (new_queue_checks there sqe.now) }
    ensures number { IfOk result (λ size. IsIoQueue (qid sqe.now)) }
    ensures size { IfOk result (λ size. (size ≡ qsize sqe.now + 1) × FitsRing size) }
{
    let queue = fields::queue(sqe);
    if queue == 0 || queue > LAST_QUEUE || there {
        return Err(StatusCode::InvalidQueueIdentifier);
    }
    let last_slot = fields::last_slot(sqe);
    if last_slot == 0 || last_slot >= MOST_SLOTS {
        return Err(StatusCode::InvalidQueueSize);
    }
    if !fields::is_contiguous(sqe) {
        return Err(StatusCode::InvalidField);
    }
    Ok(last_slot + 1)
}

// The checks of the completion queue that a new submission queue names. Its number is given back.
fn check_completes_to(sqe: &Sqe, vctl: &Vctl) -> Result<u16, StatusCode>
    ensures fault { result_err result ≡ first_failing (completes_to_checks vctl.now sqe.now) }
    ensures number { IfOk result (λ number. number ≡ completion_id sqe.now) }
    ensures there { IfOk result (λ number. IsSome (completion_queue vctl.now number)) }
{
    let completes_to = fields::completes_to(sqe);
    if completes_to == 0 || completes_to > LAST_QUEUE {
        return Err(StatusCode::InvalidQueueIdentifier);
    }
    if !vctl.has_completion_queue(completes_to) {
        return Err(StatusCode::CompletionQueueInvalid);
    }
    Ok(completes_to)
}

// The checks of a new queue's place: its base is a page's start, and all its slots, of so many bytes each, are mapped.
fn check_place(sqe: &Sqe, slot: u64, size: u16, map: &GuestMap) -> Result<(), StatusCode>
    requires slot { slot ≤ sqe_size }
    requires size { size ≡ qsize sqe.now + 1 }
    ensures fault { result_err result ≡ first_failing (place_checks (mapped map.now.regions) slot sqe.now) }
    ensures in_map { IfOk result (λ _. everywhere (mapped map.now.regions) (prp1_of sqe.now) (slot * size) ≡ true) }
{
    let base = sqe.prp1();
    if base % PAGE_SIZE != 0 {
        return Err(StatusCode::PrpOffsetInvalid);
    }
    if !map.holds(base, slot * u64::from(size)) {
        return Err(StatusCode::DataTransferError);
    }
    Ok(())
}
