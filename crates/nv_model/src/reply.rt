//! The replies to acts and events.

use nv_mem::Bytes;

/// What an act or an event is answered.
#[derive(Debug, Drop)]
pub enum Reply {
    /// It was done.
    Done,
    /// It was done, and these are the bytes that were asked for.
    Bytes(Bytes),
    /// There is nothing to do.
    Idle,
    /// The lane has no free tag.
    Busy,
    /// The completion queue is full.
    Held,
    /// The tag is not at that point, or the job is another.
    Stale,
    /// Not all of these addresses are mapped.
    Unmapped,
    /// A write or read that has no effect.
    Ignored,
    /// There was no memory for it, and nothing changed.
    NoMemory,
}
