//! Completions of the physical controller that are read.

ghost use Rattle.std.specs.Prelude.{◌≡◌, ◌+◌, ◌<◌, ◌++◌, ◌↔◌, [], false, true, IfOk, IsTrue, Ok, OnErr, length, slice_get};
ghost use Rattle.std.specs.Result.{result_ok};
ghost use Rattle.nv_core.specs.Front.{IsBeside, IsLive, IsLiveStep, IsReaped};
ghost use Rattle.nv_core.specs.Kept.{IsLent};
ghost use Rattle.nv_core.specs.Reaping.{answer_of, idle_at, is_wanted, names_command};
ghost use Rattle.nv_entry.specs.Completion.{cid_of, phase_of};
ghost use Rattle.nv_machine.specs.Doing.{replied};
ghost use Rattle.nv_machine.specs.Machine.{call, is_new};
ghost use Rattle.nv_mem.specs.Bytes.{InMemory};
ghost use Rattle.nv_model.specs.Memory.{byte_in, bytes_from};
ghost use Rattle.nv_model.specs.Queue.{cqe_size};
ghost use Rattle.nv_world_model.specs.Area.{tag_count};
ghost use Rattle.nv_world_model.specs.Geometry.{Geometry};
ghost use Rattle.nv_world_model.specs.Step.{passed_on};
ghost use Rattle.nv_world_model.specs.World.{World};

use crate::area::completion_slot;
use crate::front::Front;
use crate::lane::Lane;
use crate::layout::Layout;
use nv_entry::{Cqe, Status, StatusCode};
use nv_mem::MemoryCell;
use nv_model::Reply;
use nv_world_model::Event;

/// The status code type of media and data integrity errors.
const MEDIA_ERROR: u8 = 2;

/// A completion that names no command that the physical controller has: its submission queue is another, or its identifier is that of no such command.
#[derive(Clone, Copy, Debug, PartialEq, Eq)]
pub struct Stray;

impl Front {
    /// The next completion of a lane ends the command of the tag that it names, with the status that the guest gets. It is there where its slot has
    /// the phase tag that is wanted of it: the dword with the phase tag is read first, and the others only then. Idle where none waits, Ignored where
    /// there is no such lane.
    ///
    /// # Errors
    ///
    /// [`Stray`] where it names no command that the physical controller has, by its submission queue and its command identifier: nothing has changed. A
    /// controller that keeps to the standard posts no such completion.
    #[inline(never)]
    pub fn reap<C: MemoryCell>(
        &mut self,
        layout: &Layout,
        lane: u8,
        host: &[C],
    ) -> Result<Reply, Stray>
        requires { IsLent layout.now self.old (C.bytes host.now) }
        ensures answer { result_ok result ≡ answer_of layout.now lane (slice_get self.old.lanes lane) (C.bytes host.now) }
        ensures ok { IfOk result (λ reply.
            IsLiveStep layout.now (Event.Reap lane) self.old (C.bytes host.now) reply self.new (C.bytes host.now)) }
        ensures ended { result ≡ Ok Reply.Done → IsReaped layout.now lane self.old self.new (C.bytes host.now) }
        ensures there { result ≡ Ok Reply.Done → lane < length self.old.lanes }
        ensures same { (result ≡ Ok Reply.Done → ⊥) → self.new ≡ self.old }
        ensures stray { OnErr result ((w : World) → IsBeside self.old (C.bytes host.now) w → IsLive layout.now w → ⊥) }
        ensures tails { self.new.tails ≡ self.old.tails }
    {
        let at = usize::from(lane);
        if at >= self.lanes.len() {
            return Ok(Reply::Ignored);
        }
        // The end of the host fits in 64 bits.
        let _known = C::len(host);
        let slot = completion_slot(layout.mediator(), lane, self.lanes[at].head());
        let last = last_dword_at(slot, host);
        if !self.is_wanted(lane, last) {
            return Ok(Reply::Idle);
        }
        self.reap_fetched(lane, first_dwords_at(slot, host), last)
    }

    /// Whether the last dword of the completion in the slot that a lane reads next has the phase tag that is wanted of it. Where it has, the other 12 bytes
    /// are fetched, and then [`Front::reap_fetched`] is called. Where it hasn't, a Reap is Idle, or Ignored where there is no such lane.
    pub fn is_wanted(&self, lane: u8, last: [u8; 4]) -> bool
        ensures wanted { result ≡ is_wanted (slice_get self.now.lanes lane) last }
        ensures idle { result ≡ false → (geometry : Geometry) → call geometry (Event.Reap lane) last self.now
            ≡ replied (idle_at (slice_get self.now.lanes lane)) (record { side = self.now; effects = [] }) }
    {
        let at = usize::from(lane);
        if at >= self.lanes.len() {
            return false;
        }
        is_new(&self.lanes[at], last)
    }

    /// [`Front::reap`] without a memory, by the completion that was fetched: first its last dword, and then its first 12 bytes. Where the dword isn't wanted
    /// any bytes do for the others: they aren't looked at.
    ///
    /// # Errors
    ///
    /// [`Stray`] as of [`Front::reap`]: the machine's call has no reply.
    pub fn reap_fetched(&mut self, lane: u8, first: [u8; 12], last: [u8; 4]) -> Result<Reply, Stray>
        ensures call { (geometry : Geometry) → call geometry (Event.Reap lane) (last ++ first) self.old
            ≡ record { now = record { side = self.new; effects = [] }; reply = result_ok result } }
        ensures tails { self.new.tails ≡ self.old.tails }
    {
        let at = usize::from(lane);
        if at >= self.lanes.len() {
            return Ok(Reply::Ignored);
        }
        let ring = &mut self.lanes[at];
        if !is_new(ring, last) {
            return Ok(Reply::Idle);
        }
        let completion = completion_of(first, last);
        if !names_command(lane, ring, &completion) {
            return Err(Stray);
        }
        let identifier = completion.cid();
        ring.end_with(identifier as u8, passed_on(completion.status()));
        ring.read_completion();
        Ok(Reply::Done)
    }
}

// Whether a completion is new to a lane, by its last dword: it has the phase tag that is wanted in the slot that is read next.
fn is_new(ring: &Lane, last: [u8; 4]) -> bool
    ensures { result ≡ is_new ring.now last }
{
    let [a, b, c, d] = last;
    Cqe::of(&[0, 0, 0, 0, 0, 0, 0, 0, 0, 0, 0, 0, a, b, c, d]).phase() == ring.wanted_phase()
}

// Whether a completion names a command of a lane that the physical controller has; its identifier is that of a tag then.
fn names_command(lane: u8, ring: &Lane, completion: &Cqe) -> bool
    ensures named { result ≡ names_command lane ring.now completion.now }
    ensures low { result ≡ true → cid_of completion.now < tag_count }
{
    completion.sqid() == u16::from(lane) + 1 && ring.is_flying(completion.cid())
}

/// The last dword of the completion at a host address, which has its phase tag.
pub(crate) fn last_dword_at<C: MemoryCell>(addr: u64, host: &[C]) -> [u8; 4]
    requires { InMemory (length (C.bytes host.now)) addr cqe_size }
    ensures { result ≡ bytes_from (byte_in (C.bytes host.now)) (addr + 12) 4 }
{
    // The end of the host fits in 64 bits.
    let _known = C::len(host);
    let mut last = [0; 4];
    C::load(host, addr + 12, &mut last);
    last
}

/// The phase tag in the last dword of the completion at a host address.
pub(crate) fn phase_in<C: MemoryCell>(_addr: u64, last: [u8; 4], _host: &[C]) -> bool
    requires { last ≡ bytes_from (byte_in (C.bytes _host.now)) (_addr + 12) 4 }
    ensures { IsTrue result ↔ (phase_of (bytes_from (byte_in (C.bytes _host.now)) _addr cqe_size) ≡ 1) }
{
    let [a, b, c, d] = last;
    Cqe::of(&[0, 0, 0, 0, 0, 0, 0, 0, 0, 0, 0, 0, a, b, c, d]).phase()
}

// The first 12 bytes of the completion at a host address.
fn first_dwords_at<C: MemoryCell>(addr: u64, host: &[C]) -> [u8; 12]
    requires { InMemory (length (C.bytes host.now)) addr cqe_size }
    ensures { result ≡ bytes_from (byte_in (C.bytes host.now)) addr 12 }
{
    let mut first = [0; 12];
    C::load(host, addr, &mut first);
    first
}

// The completion of 12 bytes and the last dword.
fn completion_of(first: [u8; 12], last: [u8; 4]) -> Cqe
    ensures { result ≡ first ++ last }
{
    let [a, b, c, d, e, f, g, h, i, j, k, l] = first;
    let [m, n, o, p] = last;
    Cqe::of(&[a, b, c, d, e, f, g, h, i, j, k, l, m, n, o, p])
}

// The status that the guest gets: a media error as it is, any other failure as Internal Error.
fn passed_on(status: Status) -> Status
    ensures { result ≡ passed_on status }
{
    if status.is_success() {
        return StatusCode::Success.status();
    }
    if status.sct() == MEDIA_ERROR {
        return status;
    }
    StatusCode::InternalError.status()
}
