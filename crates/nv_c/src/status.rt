//! What a call is answered: the numbers of `enum nvmed_status`.

ghost use Rattle.std.specs.Prelude.{◌≡◌};
ghost use Rattle.nv_c.specs.Calls.{status_of, status_of_map, status_of_refusal};

use nv_mediator::Refusal;
use nv_mem::MapError;
use nv_model::Reply;

/// It was done.
pub(crate) const OK: u32 = 0;
/// There is nothing to do.
pub(crate) const IDLE: u32 = 1;
/// The lane has too few free tags.
const BUSY: u32 = 2;
/// The completion queue is full.
const HELD: u32 = 3;
/// The tag is not at that point.
const STALE: u32 = 4;
/// Not all of these addresses are mapped.
pub(crate) const UNMAPPED: u32 = 5;
/// It has no effect: there is no such guest, for one.
pub(crate) const IGNORED: u32 = 6;
/// There was no memory for it, and nothing has changed.
pub(crate) const NO_MEMORY: u32 = 8;
/// There are more than 16 guests.
pub(crate) const TOO_MANY_GUESTS: u32 = 9;
/// Two extents have a block in common.
const RANGES_MEET: u32 = 10;
/// Two guests' memories meet in the host, or one of them and the mediator's area.
const MAPS_MEET: u32 = 11;
/// A size is beyond its limits.
pub(crate) const BAD_SIZE: u32 = 12;
/// Addresses or length of a region are no multiple of 4,096, or it is empty.
const UNALIGNED: u32 = 13;
/// Two regions of a guest have an address in common.
const OVERLAP: u32 = 14;
/// A region leaves the host's memory.
const OUTSIDE_HOST: u32 = 15;
/// The handle holds no mediator.
pub(crate) const NO_MEDIATOR: u32 = 16;
/// The handle holds a mediator already.
pub(crate) const IN_USE: u32 = 17;
/// There is no such guest, lane, tag, queue, slot, block, kind of event or scope.
pub(crate) const NO_SUCH: u32 = 18;
/// The memory that is lent is not as long as the set-up says.
pub(crate) const OTHER_MEMORY: u32 = 20;
/// The lane was closed.
pub(crate) const CLOSED: u32 = 21;
/// A completion names no command that the drive has.
pub(crate) const STRAY: u32 = 22;

/// What an event is answered, by its reply.
pub(crate) fn of_reply(reply: &Reply) -> u32
    ensures { result ≡ status_of reply.now }
{
    match reply {
        Reply::Done => OK,
        Reply::Bytes(_) => OK,
        Reply::Idle => IDLE,
        Reply::Busy => BUSY,
        Reply::Held => HELD,
        Reply::Stale => STALE,
        Reply::Unmapped => UNMAPPED,
        Reply::Ignored => IGNORED,
        Reply::NoMemory => NO_MEMORY,
    }
}

/// What a set-up is answered, by the reason for which it was refused.
pub(crate) fn of_refusal(refusal: Refusal) -> u32
    ensures { result ≡ status_of_refusal refusal }
{
    match refusal {
        Refusal::NoMemory => NO_MEMORY,
        Refusal::TooManyGuests => TOO_MANY_GUESTS,
        Refusal::ExtentsMeet => RANGES_MEET,
        Refusal::MapsMeet => MAPS_MEET,
        Refusal::BadSize => BAD_SIZE,
    }
}

/// What a set-up is answered, by the reason for which a guest's regions are no map.
pub(crate) fn of_map_error(error: MapError) -> u32
    ensures { result ≡ status_of_map error }
{
    match error {
        MapError::Unaligned => UNALIGNED,
        MapError::Overlap => OVERLAP,
        MapError::OutsideHost => OUTSIDE_HOST,
    }
}
