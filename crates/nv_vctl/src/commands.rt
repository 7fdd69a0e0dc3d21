//! Commands: read, taken, completed, or run out.

ghost use Rattle.std.specs.Prelude.{◌≡◌, ◌<◌, ℕ, Bool, IsSome, None, length, option_map, slice_index, true, false};
ghost use Rattle.nv_mem.specs.GuestMap.{mapped};
ghost use Rattle.nv_model.specs.Admin.{is_queue_full};
ghost use Rattle.nv_model.specs.Controller.{completion_queue, front, is_enabled, is_ready, post, ran_out, took};
ghost use Rattle.nv_model.specs.Laws.{QueuesInPlace};
ghost use Rattle.nv_model.specs.Memory.{byte_in, image};
ghost use Rattle.nv_vctl.specs.Vctl.{CompletionsFit, SubmissionsFit, completes_in, controller_behind, entry_at, host_behind, most_taken, posted_or_held, posting_of};
ghost use Rattle.nv_vctl.specs.declared.posted.Posted.TheVariants as posted;

use crate::posted::Posted;
use crate::posting::Posting;
use crate::vctl::{Vctl, any_taken, count_ended, count_taken};
use nv_entry::{Cqe, Sqe, Status};
use nv_mem::{GuestMap, MemoryCell};

impl Vctl {
    /// The command at the front of a queue; `None` exactly where none may be taken. Queue 0 is the admin queue.
    ///
    /// The caller knows that the map was made for a host of this length ([`GuestMap::host_len`]), and that the queues that are
    /// there lie wholly in the map, as every call keeps it.
    pub fn peek_sqe<C: MemoryCell>(&self, queue: u16, map: &GuestMap, host: &[C]) -> Option<Sqe>
        requires host { map.now.host_len ≡ length (C.bytes host.now) }
        requires in_place { QueuesInPlace (mapped map.now.regions) self.now }
        ensures { result ≡ entry_at (image map.now.regions (byte_in (C.bytes host.now))) (front self.now queue) }
    {
        // With the length of the host comes what is known of every map.
        let _known = map.host_len();
        let addr = self.front(queue)?;
        let mut entry = [0; 64];
        nv_bounce::load(addr, map, host, &mut entry);
        Some(Sqe::of(&entry))
    }

    /// The guest address of the command at the front of a queue, which has 64 bytes; `None` exactly where none may be taken. Queue 0 is the
    /// admin queue.
    ///
    /// The caller knows that the submission queues end at 2 to the 64 at the latest, as those do that lie wholly in a map
    /// ([`Vctl::lies_in`]).
    pub fn front(&self, queue: u16) -> Option<u64>
        requires { SubmissionsFit self.now }
        ensures { result ≡ front self.now queue }
    {
        if !self.waits(queue) {
            return None;
        }
        let found = self.submission_queue(usize::from(queue))?;
        Some(found.front())
    }

    /// The command at the front of a queue is taken: the head moves on, and of an I/O queue one more command is taken.
    ///
    /// The caller knows that one may be taken ([`Vctl::waits`]) and, of an I/O queue, counted ([`Vctl::counts_more`]).
    #[tactic(auto, unfolding(nv_model::specs::Controller::took))]
    pub fn took(&mut self, queue: u16)
        requires waits { IsSome (front self.old queue) }
        requires counted { 0 < queue → slice_index self.old.taken queue < most_taken }
        ensures state { self.new ≡ took self.old queue }
        ensures in_place { (test : ℕ → Bool) → QueuesInPlace test self.old → QueuesInPlace test self.new }
    {
        let number = usize::from(queue);
        let Some(mut found) = self.submission_queue(number) else {
            return;
        };
        found.take_front();
        self.submission[number] = Some(found);
        count_taken(&mut self.taken, number);
    }

    /// Posts the completion of a command of a queue, with this command specific dword, command identifier and status; of an I/O
    /// queue one command fewer is taken then. Held, with nothing changed, exactly where the completion queue is full. No byte of
    /// the host changes but the 16 of the entry.
    ///
    /// The caller knows that the controller is ready ([`Vctl::is_ready`]) and that a command of the I/O queue is taken
    /// ([`Vctl::taken`]), that the map was made for a host of this length ([`GuestMap::host_len`]), and that the queues that are
    /// there lie wholly in the map, as every call keeps it.
    pub fn post_cqe<C: MemoryCell>(
        &mut self,
        queue: u16,
        dw0: u32,
        cid: u16,
        status: Status,
        map: &GuestMap,
        host: &mut [C],
    ) -> Posted
        requires ready { is_ready self.old ≡ true }
        requires taken { 0 < queue → 0 < slice_index self.old.taken queue }
        requires host { map.now.host_len ≡ length (C.bytes host.old) }
        requires in_place { QueuesInPlace (mapped map.now.regions) self.old }
        ensures posted { result ≡ posted_or_held (post self.old queue dw0 cid status) }
        ensures state { self.new ≡ controller_behind self.old (post self.old queue dw0 cid status) }
        ensures host { byte_in (C.bytes host.new) ≡ host_behind map.now.regions (byte_in (C.bytes host.old)) (post self.old queue dw0 cid status) }
        ensures len { length (C.bytes host.new) ≡ length (C.bytes host.old) }
        ensures held { result ≡ posted.Held → is_queue_full (completes_in self.old queue) ≡ true }
        ensures admin { queue ≡ 0 → result ≡ posted.Held → is_queue_full (completion_queue self.old 0) ≡ true }
        ensures in_place { QueuesInPlace (mapped map.now.regions) self.new }
    {
        // With the length of the host comes what is known of every map.
        let _known = map.host_len();
        let Some(posting) = self.post(queue, dw0, cid, status) else {
            return Posted::Held;
        };
        nv_bounce::store(&posting.entry, posting.addr, map, host);
        Posted::Done
    }

    /// The completion of a command of a queue, with this command specific dword, command identifier and status, for the caller to
    /// store where it goes; of an I/O queue one command fewer is taken then. `None`, with nothing changed, exactly where the
    /// completion queue is full.
    ///
    /// The caller knows that the controller is ready ([`Vctl::is_ready`]) and that a command of the I/O queue is taken
    /// ([`Vctl::taken`]), and that the completion queues end at 2 to the 64 at the latest, as those do that lie wholly in a map
    /// ([`Vctl::lies_in`]).
    pub fn post(&mut self, queue: u16, dw0: u32, cid: u16, status: Status) -> Option<Posting>
        requires ready { is_ready self.old ≡ true }
        requires taken { 0 < queue → 0 < slice_index self.old.taken queue }
        requires fits { CompletionsFit self.old }
        ensures posting { result ≡ option_map posting_of (post self.old queue dw0 cid status) }
        ensures state { self.new ≡ controller_behind self.old (post self.old queue dw0 cid status) }
        ensures held { result ≡ None → is_queue_full (completes_in self.old queue) ≡ true }
        ensures admin { queue ≡ 0 → result ≡ None → is_queue_full (completion_queue self.old 0) ≡ true }
        ensures in_place { (test : ℕ → Bool) → QueuesInPlace test self.old → QueuesInPlace test self.new }
    {
        let number = usize::from(queue);
        let from = self.submission_queue(number)?;
        let completes_to = usize::from(from.completes_to);
        let mut to = self.completion_queue(completes_to)?;
        if to.is_full() {
            return None;
        }
        let cqe = Cqe::new(dw0, from.head(), queue, cid, to.phase(), status);
        let addr = to.next();
        to.go_on();
        self.completion[completes_to] = Some(to);
        count_ended(&mut self.taken, number);
        Some(Posting {
            addr,
            entry: cqe.bytes(),
        })
    }

    /// A taken command of an I/O queue runs out after a reset, without a completion: one command fewer is taken, and CSTS.RDY
    /// falls with the last one.
    ///
    /// The caller knows that the controller is not enabled ([`Vctl::is_enabled`]) and that a command of the queue is taken
    /// ([`Vctl::taken`]).
    #[tactic(auto, unfolding(nv_model::specs::Controller::ran_out))]
    pub fn ran_out(&mut self, queue: u16)
        requires disabled { is_enabled self.old ≡ false }
        requires io_queue { 0 < queue }
        requires taken { 0 < slice_index self.old.taken queue }
        ensures state { self.new ≡ ran_out self.old queue }
        ensures in_place { (test : ℕ → Bool) → QueuesInPlace test self.old → QueuesInPlace test self.new }
    {
        count_ended(&mut self.taken, usize::from(queue));
        self.ready = self.ready && any_taken(&self.taken);
    }
}
