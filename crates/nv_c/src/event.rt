//! Events, by a plain struct.

ghost use Rattle.std.specs.Prelude.{◌≤◌, MatchOption};
ghost use Rattle.nv_c.specs.Names.{IsByte, IsStatus, IsWord, Names, NamesNone};

use nv_entry::Status;
use nv_world_model::Event as Made;

/// An event that is no guest's act: C's `nvmed_event`. A number that its kind does not use may be any number.
#[repr(C)]
#[derive(Clone, Copy)]
pub struct Event {
    /// which event it is, 1 to 12
    pub kind: u32,
    /// the number of the guest
    pub guest: u32,
    /// the number of the guest's I/O queue
    pub queue: u32,
    /// the number of the lane
    pub lane: u32,
    /// the tag
    pub tag: u32,
    /// the slot of the physical controller
    pub slot: u32,
    /// the status with which a command fails: its code, plus 256 times its type
    pub status: u32,
    /// 1 where the status says not to retry, and else 0
    pub dnr: u32,
    /// a guest address
    pub address: u64,
    /// how many bytes
    pub bytes: u64,
    /// the number of a unit, or of a block of the disk
    pub number: u64,
}

/// The event that it is; `None` where there is no such kind, or a number that the kind uses fits no guest, queue, lane, tag, slot or status.
pub(crate) fn made_of(event: &Event) -> Option<Made>
    ensures { MatchOption result (NamesNone event.now) (Names event.now) }
{
    let lane = byte(event.lane);
    let tag = byte(event.tag);
    let slot = byte(event.slot);
    Some(match event.kind {
        1 => Made::Admin(byte(event.guest)?),
        2 => Made::Take(byte(event.guest)?, word(event.queue)?, lane?),
        3 => Made::List(lane?, tag?, event.address, event.bytes),
        4 => Made::Submit(lane?, tag?),
        5 => Made::GiveUp(lane?, tag?),
        6 => Made::DevTake(lane?),
        7 => Made::DevMove(lane?, slot?, event.number),
        8 => Made::DevPost(lane?, slot?),
        9 => Made::DevFail(lane?, slot?, status(event)?),
        10 => Made::Keep(event.number),
        11 => Made::Reap(lane?),
        12 => Made::Post(lane?, tag?),
        _ => return None,
    })
}

/// A number as a byte; `None` where it is above 255.
pub(crate) fn byte(number: u32) -> Option<u8>
    ensures { MatchOption result (256 ≤ number) (λ byte. IsByte byte number) }
{
    if number > 255 {
        return None;
    }
    Some(number as u8)
}

// A number as 16 bits; `None` where it is above 65,535.
fn word(number: u32) -> Option<u16>
    ensures { MatchOption result (65536 ≤ number) (λ word. IsWord word number) }
{
    if number > 65535 {
        return None;
    }
    Some(number as u16)
}

// The status with which a command fails; `None` where its type is above 7.
fn status(event: &Event) -> Option<Status>
    ensures { MatchOption result (2048 ≤ event.now.status) (IsStatus event.now) }
{
    let sct = event.status / 256;
    if sct > 7 {
        return None;
    }
    Some(Status::new(sct as u8, (event.status % 256) as u8, event.dnr != 0))
}
