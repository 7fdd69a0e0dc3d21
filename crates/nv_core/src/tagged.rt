//! Events of tags that were taken.

ghost use Rattle.std.specs.Prelude.{◌≡◌, ℕ, ◌&&◌, [], IfErr, IfOk, IfSome, List, None, OnErr, Some, map, nat_le, slice_get};
ghost use Rattle.nv_core.specs.Front.{IsSideStep};
ghost use Rattle.nv_core.specs.Kept.{IsLent};
ghost use Rattle.nv_core.specs.Listing.{IsListed, IsUnlisted, bytes_or};
ghost use Rattle.nv_laws_sound.specs.Side.{IsKept};
ghost use Rattle.nv_core.specs.Seat.{bytes_told};
ghost use Rattle.nv_core.specs.Tags.{unended, untaken};
ghost use Rattle.nv_machine.specs.Doing.{replied};
ghost use Rattle.nv_machine.specs.Machine.{call, fetch};
ghost use Rattle.nv_model.specs.Limits.{part_size};
ghost use Rattle.nv_model.specs.Memory.{byte_in};
ghost use Rattle.nv_world_model.specs.World.{tag_in};

use crate::front::Front;
use crate::layout::Layout;
use crate::seat;
use nv_entry::StatusCode;
use nv_mem::{Bytes, MemoryCell, NoMemory};
use nv_model::Reply;
use nv_model::limits::PART_SIZE;
use nv_plan::ReadDone;
use nv_world_model::Event;
use std::alloc::Global;

impl Front {
    /// Ends the command of a tag that was taken with Internal Error. Stale where the tag is at another point, Ignored where there is no
    /// such tag.
    #[inline(never)]
    pub fn give_up(&mut self, _layout: &Layout, lane: u8, tag: u8) -> Reply
        requires { IsKept _layout.now self.old }
        ensures call { (fetched : List ℕ) →
            call _layout.now (Event.GiveUp lane tag) fetched self.old ≡ replied result (record { side = self.new; effects = [] }) }
        ensures step { (memory : List ℕ) → IsSideStep _layout.now (Event.GiveUp lane tag) self.old memory result self.new memory }
        ensures tails { self.new.tails ≡ self.old.tails }
    {
        if let Some(reply) = self.untaken(lane, tag) {
            return reply;
        }
        self.lanes[usize::from(lane)].answer(tag, StatusCode::InternalError.status());
        Reply::Done
    }

    /// Bytes of the guest's memory join the transcript of a tag that was taken, and are the reply. Stale where the tag is at another point,
    /// Ignored where there is no such tag, Unmapped where not all of the bytes are mapped, and Ignored where they are none or more than
    /// 4,096.
    ///
    /// Bytes that are the reply are returned once more, for a log: after the event there might be no memory for a copy.
    ///
    /// # Errors
    ///
    /// [`NoMemory`] where memory for the bytes, or for their place in the transcript, is refused: nothing has changed.
    #[inline(never)]
    pub fn list<C: MemoryCell>(
        &mut self,
        alloc: Global,
        layout: &Layout,
        lane: u8,
        tag: u8,
        addr: u64,
        len: u64,
        host: &[C],
    ) -> Result<(Reply, Option<Bytes>), NoMemory>
        requires { IsLent layout.now self.old (C.bytes host.now) }
        ensures ok { IfOk result (λ told.
            IsSideStep layout.now (Event.List lane tag addr len) self.old (C.bytes host.now) told.0 self.new (C.bytes host.now)) }
        ensures again { IfOk result (λ told. told.1 ≡ bytes_told told.0) }
        ensures err { OnErr result (self.new ≡ self.old) }
        ensures tails { self.new.tails ≡ self.old.tails }
    {
        let shown = self.part_of_list(alloc, layout, lane, tag, addr, len, host)?;
        let again = Bytes::from_slice(alloc, shown.as_slice())?;
        let kept = Bytes::from_slice(alloc, shown.as_slice())?;
        match self.list_fetched(layout, lane, tag, addr, len, kept)? {
            None => Ok((Reply::Bytes(shown), Some(again))),
            Some(reply) => Ok((reply, None)),
        }
    }

    /// [`Front::list`] without a memory, by the bytes that were fetched. `None` where they join the transcript, and are the reply; what is answered
    /// where they don't: then there are none to fetch, and they aren't looked at.
    ///
    /// # Errors
    ///
    /// [`NoMemory`] where memory for their place in the transcript is refused: nothing has changed.
    pub fn list_fetched(
        &mut self,
        layout: &Layout,
        lane: u8,
        tag: u8,
        addr: u64,
        len: u64,
        bytes: Bytes,
    ) -> Result<Option<Reply>, NoMemory>
        requires { IsKept layout.now self.old }
        ensures call { IfOk result (λ other. call layout.now (Event.List lane tag addr len) bytes self.old
            ≡ replied (bytes_or bytes other) (record { side = self.new; effects = [] })) }
        ensures told { IfOk result (λ other. IfSome other (λ reply. bytes_told reply ≡ None)) }
        ensures err { OnErr result (self.new ≡ self.old) }
        ensures tails { self.new.tails ≡ self.old.tails }
    {
        match self.listing(layout, lane, tag, addr, len) {
            Err(reply) => Ok(Some(reply)),
            Ok(_guest) => {
                let ring = &mut self.lanes[usize::from(lane)];
                ring.push_read(tag, ReadDone::new(addr, bytes))?;
                Ok(None)
            }
        }
    }

    // The bytes that a List fetches; none where there are none to fetch.
    fn part_of_list<C: MemoryCell>(
        &self,
        alloc: Global,
        layout: &Layout,
        lane: u8,
        tag: u8,
        addr: u64,
        len: u64,
        host: &[C],
    ) -> Result<Bytes, NoMemory>
        requires { IsLent layout.now self.now (C.bytes host.now) }
        ensures { IfOk result (λ bytes. bytes ≡ map (byte_in (C.bytes host.now)) (fetch layout.now (Event.List lane tag addr len) self.now)) }
    {
        let Ok(guest) = self.listing(layout, lane, tag, addr, len) else {
            return Ok(Bytes::few(&[]));
        };
        let Some(given) = layout.guest(guest) else {
            return Ok(Bytes::few(&[]));
        };
        let bytes = seat::read_bytes(alloc, given, addr, len, host)?;
        Ok(bytes)
    }

    // The guest in whose memory a List reads; or what it is answered where it reads nothing.
    fn listing(&self, layout: &Layout, lane: u8, tag: u8, addr: u64, len: u64) -> Result<u8, Reply>
        requires { IsKept layout.now self.now }
        ensures ok { IfOk result (λ guest. IsListed layout.now self.now lane tag addr len guest) }
        ensures err { IfErr result (λ reply. IsUnlisted layout.now self.now lane tag addr len reply) }
    {
        if let Some(reply) = self.untaken(lane, tag) {
            return Err(reply);
        }
        let at = usize::from(lane);
        let guest = self.lanes[at].claimed(tag).guest;
        let Some(given) = layout.guest(guest) else {
            return Err(Reply::Stale);
        };
        if !given.map().holds(addr, len) {
            return Err(Reply::Unmapped);
        }
        if !is_part(len) {
            return Err(Reply::Ignored);
        }
        Ok(guest)
    }

    /// What is answered where an event wants a command that was taken, by the tag that it goes by; `None` where it is one.
    pub(crate) fn untaken(&self, lane: u8, tag: u8) -> Option<Reply>
        ensures { result ≡ untaken tag (tag_in (slice_get self.now.lanes lane) tag) }
    {
        let number = usize::from(lane);
        if number >= self.lanes.len() {
            return Some(Reply::Ignored);
        }
        self.lanes[number].untaken(tag)
    }

    /// What is answered where an event wants a command whose first part has ended, by the tag that it goes by; `None` where it is one.
    pub(crate) fn unended(&self, lane: u8, tag: u8) -> Option<Reply>
        ensures { result ≡ unended tag (tag_in (slice_get self.now.lanes lane) tag) }
    {
        let number = usize::from(lane);
        if number >= self.lanes.len() {
            return Some(Reply::Ignored);
        }
        self.lanes[number].unended(tag)
    }
}

// Whether so many bytes may be read of a list at once.
fn is_part(len: u64) -> bool
    ensures { result ≡ (nat_le 1 len && nat_le len part_size) }
{
    1 <= len && len <= u64::from(PART_SIZE)
}
