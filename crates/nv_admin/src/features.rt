//! Features and event requests (Base Specification 2.0, "Set Features command", "Get Features command", "Asynchronous Event Request
//! command"). The number of queues is the one feature that is known (profile).

ghost use Rattle.std.specs.Prelude.{◌≡◌, ℕ, Bool};
ghost use Rattle.nv_model.specs.Admin.{get_features, request_event, set_features};
ghost use Rattle.nv_model.specs.Laws.{QueuesInPlace};
ghost use Rattle.nv_admin.specs.Effect.{Keeps, effect};

use crate::fields;
use crate::outcome::Outcome;
use nv_entry::{Sqe, StatusCode};
use nv_model::limits::LAST_QUEUE;
use nv_vctl::Vctl;

/// FID of Number of Queues.
const NUMBER_OF_QUEUES: u8 = 0x07;

/// As many I/O submission queues and I/O completion queues as there may be, counted from 0.
const QUEUES_ALLOCATED: u32 = 0x1_0001 * (LAST_QUEUE as u32 - 1);

/// The number of queues, counted from 0, that may not be asked for.
const TOO_MANY_QUEUES: u16 = 0xffff;

/// Set Features. No number of queues may be asked for once an I/O queue is there.
pub(crate) fn set_features(vctl: &Vctl, sqe: &Sqe) -> Result<Outcome, StatusCode>
    ensures { (memory : ℕ → ℕ) → set_features sqe.now vctl.now memory ≡ effect result vctl.now memory }
{
    if fields::selector(sqe) != NUMBER_OF_QUEUES {
        return Err(StatusCode::InvalidField);
    }
    if vctl.has_io_queue() {
        return Err(StatusCode::CommandSequenceError);
    }
    let (submission, completion) = fields::queues_asked(sqe);
    if submission == TOO_MANY_QUEUES || completion == TOO_MANY_QUEUES {
        return Err(StatusCode::InvalidField);
    }
    Ok(Outcome::Done {
        dw0: QUEUES_ALLOCATED,
    })
}

/// Get Features.
pub(crate) fn get_features(vctl: &Vctl, sqe: &Sqe) -> Result<Outcome, StatusCode>
    ensures { (memory : ℕ → ℕ) → get_features sqe.now vctl.now memory ≡ effect result vctl.now memory }
{
    if fields::selector(sqe) != NUMBER_OF_QUEUES {
        return Err(StatusCode::InvalidField);
    }
    Ok(Outcome::Done {
        dw0: QUEUES_ALLOCATED,
    })
}

/// Asynchronous Event Request: held and never answered, as there are no events, up to the limit that AERL gives.
pub(crate) fn request_event(vctl: &mut Vctl) -> Result<Outcome, StatusCode>
    ensures effect { (memory : ℕ → ℕ) → request_event vctl.old memory ≡ effect result vctl.new memory }
    ensures keeps { Keeps vctl.old vctl.new }
    ensures in_place { (test : ℕ → Bool) → QueuesInPlace test vctl.old → QueuesInPlace test vctl.new }
{
    if !vctl.can_hold_request() {
        return Err(StatusCode::EventLimitExceeded);
    }
    vctl.hold_request();
    Ok(Outcome::Pending)
}
