//! The fields of admin commands in their command dwords.

ghost use Rattle.std.specs.Prelude.{◌≡◌, ◌==◌, not};
ghost use Rattle.nv_entry.specs.Layout.{bits};
ghost use Rattle.nv_entry.specs.Submission.{cdw_of};
ghost use Rattle.nv_model.specs.Admin.{completion_id, contiguous, interrupts_enabled, qid, qsize, selector, vector_of};

use nv_entry::Sqe;

/// QID, the queue that a command names: CDW10 bits 15:0.
pub(crate) fn queue(sqe: &Sqe) -> u16
    ensures { result ≡ qid sqe.now }
{
    low_half(sqe.cdw10())
}

/// QSIZE, the slots of a new queue, counted from 0: CDW10 bits 31:16.
pub(crate) fn last_slot(sqe: &Sqe) -> u16
    ensures { result ≡ qsize sqe.now }
{
    high_half(sqe.cdw10())
}

/// PC, whether a new queue is physically contiguous: CDW11 bit 0.
pub(crate) fn is_contiguous(sqe: &Sqe) -> bool
    ensures { result ≡ not (contiguous sqe.now == 0) }
{
    sqe.cdw11() & 1 != 0
}

/// CQID, the completion queue of a new submission queue: CDW11 bits 31:16.
pub(crate) fn completes_to(sqe: &Sqe) -> u16
    ensures { result ≡ completion_id sqe.now }
{
    high_half(sqe.cdw11())
}

/// The interrupt vector of a new completion queue, CDW11 bits 31:16, where IEN, CDW11 bit 1, enables its interrupts.
pub(crate) fn vector(sqe: &Sqe) -> Option<u16>
    ensures { result ≡ vector_of sqe.now }
{
    if enables_interrupts(sqe) {
        Some(high_half(sqe.cdw11()))
    } else {
        None
    }
}

/// CNS of Identify, and FID of Set Features and Get Features: CDW10 bits 7:0.
pub(crate) fn selector(sqe: &Sqe) -> u8
    ensures { result ≡ selector sqe.now }
{
    (sqe.cdw10() & 0xff) as u8
}

/// How many submission queues and completion queues Set Features asks for, each counted from 0: the halves of CDW11.
pub(crate) fn queues_asked(sqe: &Sqe) -> (u16, u16)
    ensures submission { result.0 ≡ bits (cdw_of 11 sqe.now) 15 0 }
    ensures completion { result.1 ≡ bits (cdw_of 11 sqe.now) 31 16 }
{
    (low_half(sqe.cdw11()), high_half(sqe.cdw11()))
}

// IEN, whether the interrupts of a new completion queue are enabled: CDW11 bit 1.
fn enables_interrupts(sqe: &Sqe) -> bool
    ensures { result ≡ (interrupts_enabled sqe.now == 1) }
{
    sqe.cdw11() >> 1 & 1 == 1
}

// Bits 15:0 of a dword.
fn low_half(dword: u32) -> u16
    ensures { result ≡ bits dword 15 0 }
{
    (dword & 0xffff) as u16
}

// Bits 31:16 of a dword.
fn high_half(dword: u32) -> u16
    ensures { result ≡ bits dword 31 16 }
{
    (dword >> 16) as u16
}
