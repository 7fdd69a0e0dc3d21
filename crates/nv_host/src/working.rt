//! What is due, carried out.

ghost use Rattle.std.specs.Prelude.{◌≡◌, ◌<◌, ◌≤◌, ◌==◌, ℕ, ⊤, [], IfOk, IsTrue, List, OnErr, Some, false, length, slice_get, true};
ghost use Rattle.std.specs.List.{list_any};
ghost use Rattle.nv_host.specs.Passes.{LaneRests, IsPass, IsRoundOf, NonePosts, QueuesRest};
ghost use Rattle.nv_host.specs.Work.{IsStray, IsWorked, Leads, NotDue, Rests, scene};
ghost use Rattle.nv_world_model.specs.Area.{tag_count};
ghost use Rattle.nv_world_model.specs.SetUp.{most_guests};
ghost use Rattle.nv_world_model.specs.World.{Lane};

use crate::host_mediator::HostMediator;
use crate::worked::{Round, Scope, Why, Worked, is_done};
use nv_core::Stray;
use nv_mem::MemoryCell;
use nv_model::limits::{MOST_GUESTS, MOST_LANES};
use nv_tags::Group;
use nv_world_model::Event;
use std::alloc::Global;

/// How many events a guest gets in a row, at most, while lanes and other guests wait; but a command's lists are read up to their end.
const TURN: u64 = 64;

impl HostMediator {
    /// Carries out what is due of a scope, `most` events at most.
    ///
    /// Of a lane the drive's completions are read, and the commands that have ended are completed for their guests. Of a guest its admin commands are
    /// carried out; its commands that wait are planned and handed on, and others are taken. A command for whose plan there is no memory is given up.
    ///
    /// The guests' queues come first, with half of `most` at most, so that a call which takes commands polls the lanes once. Then it goes round until nothing
    /// is left: all lanes, each with its commands that wait for their plans, and the queues of all guests. These commands of a lane, and each guest's queues,
    /// get 64 events at most before the next turn. The lists of a command that was begun are read up to their end, as far as `most` allows, since a plan that
    /// is cut off begins again with what was read.
    ///
    /// A round costs what its events cost, and a look at each lane. Tags are looked at where their commands wait or have ended, and guests where a note says that
    /// something may be due of their queues; the note is made when the guest's controller changes. A command that waits for room in its guest's completion queue
    /// is noted when it is looked at, and then passed by until the controller of a guest with such commands changes.
    ///
    /// A guest's next command is taken for a lane only where the guest has so few tags there that the command may need whatever it can
    /// ([`HostMediator::set_share`]). So a call leaves each guest within its share of a lane where it was; and since all shares together are no more than a
    /// lane has, a guest whose share has room has its commands taken, whatever others do ([`crate::laws`]).
    ///
    /// A completion that names no command ends the call ([`Why::Stray`]): the host stops the drive, and closes the lane by [`HostMediator::close`].
    /// Nothing is taken for a lane that was closed. The host then writes its doorbells, from [`HostMediator::tail`] and [`HostMediator::head`].
    ///
    /// Each call begins with the first guest and with the first lane, so whoever asks for few events at a time asks by the scopes in turn.
    pub fn work<C: MemoryCell>(
        &mut self,
        alloc: Global,
        scope: Scope,
        most: u64,
        memory: &mut [C],
    ) -> Worked
        requires { length (C.bytes memory.old) ≡ self.old.setup.host_bytes }
        ensures worked { IsWorked scope most result (scene self.old (C.bytes memory.old)) (scene self.new (C.bytes memory.new)) }
        ensures setup { self.new.setup ≡ self.old.setup }
        ensures closed { self.new.closed ≡ self.old.closed }
        ensures spare { self.new.spare ≡ self.old.spare }
        ensures len { length (C.bytes memory.new) ≡ length (C.bytes memory.old) }
    {
        let early = self.serve_first(alloc, scope, most / 2, memory);
        let stopped = early.has_stopped();
        if stopped {
            return early;
        }
        let mut done = early.done;
        while done < most {
            let round = self.go_round(alloc, scope, most - done, memory);
            let whole = Worked::after(done, round.worked);
            if round.is_last() {
                return whole;
            }
            done = whole.done;
        }
        Worked::so_far(done)
    }

    // What comes before the rounds, so many events at most: where it is a matter of all, a turn of each guest's queues.
    fn serve_first<C: MemoryCell>(
        &mut self,
        alloc: Global,
        scope: Scope,
        most: u64,
        memory: &mut [C],
    ) -> Worked
        requires { length (C.bytes memory.old) ≡ self.old.setup.host_bytes }
        ensures pass { IsPass scope ⊤ most result (scene self.old (C.bytes memory.old)) (scene self.new (C.bytes memory.new)) }
        ensures setup { self.new.setup ≡ self.old.setup }
        ensures len { length (C.bytes memory.new) ≡ length (C.bytes memory.old) }
    {
        if most == 0 {
            return Worked::so_far(0);
        }
        match scope {
            Scope::Guest(_guest) => Worked::so_far(0),
            Scope::Lane(_lane) => Worked::so_far(0),
            Scope::All => self.serve_guests(alloc, most, memory),
        }
    }

    // One round of a scope.
    fn go_round<C: MemoryCell>(
        &mut self,
        alloc: Global,
        scope: Scope,
        most: u64,
        memory: &mut [C],
    ) -> Round
        requires some { 0 < most }
        requires lent { length (C.bytes memory.old) ≡ self.old.setup.host_bytes }
        ensures round { IsRoundOf scope most result (scene self.old (C.bytes memory.old)) (scene self.new (C.bytes memory.new)) }
        ensures setup { self.new.setup ≡ self.old.setup }
        ensures len { length (C.bytes memory.new) ≡ length (C.bytes memory.old) }
    {
        match scope {
            Scope::Guest(guest) => {
                let worked = self.serve_guest(alloc, guest, most, most, memory);
                Round::of(worked)
            }
            Scope::Lane(lane) => {
                let worked = self.serve_lane(lane, most, memory);
                Round::of(worked)
            }
            Scope::All => self.serve_all(alloc, most, memory),
        }
    }

    // One round of all: the lanes with their commands that wait for their plans, and then the guests' queues. Where nothing was due of these, only the lanes
    // up to the last that had something are polled once more.
    fn serve_all<C: MemoryCell>(&mut self, alloc: Global, most: u64, memory: &mut [C]) -> Round
        requires some { 0 < most }
        requires lent { length (C.bytes memory.old) ≡ self.old.setup.host_bytes }
        ensures round { IsRoundOf Scope.All most result (scene self.old (C.bytes memory.old)) (scene self.new (C.bytes memory.new)) }
        ensures setup { self.new.setup ≡ self.old.setup }
        ensures len { length (C.bytes memory.new) ≡ length (C.bytes memory.old) }
    {
        self.sizes();
        let served = self.serve_lanes(alloc, most, memory);
        let (lanes, upto) = served;
        if lanes.ends(most) {
            return Round::of(lanes);
        }
        let guests = self.serve_guests(alloc, most - lanes.done, memory);
        let worked = Worked::after(lanes.done, guests);
        if guests.ends(1) {
            return Round::of(worked);
        }
        let busy = self.next_busy(0, upto, memory);
        self.sizes();
        Round {
            worked,
            rests: busy >= upto,
        }
    }

    // One round of all lanes. Those of which nothing is due are passed by. Of the lanes from the number on that is returned, too, nothing is due after it.
    fn serve_lanes<C: MemoryCell>(
        &mut self,
        alloc: Global,
        most: u64,
        memory: &mut [C],
    ) -> (Worked, u8)
        requires some { 0 < most }
        requires lent { length (C.bytes memory.old) ≡ self.old.setup.host_bytes }
        ensures pass { let old = scene self.old (C.bytes memory.old) in
            IsPass Scope.All ((lane : ℕ) → lane < self.old.setup.lanes → LaneRests old lane) most result.0 old (scene self.new (C.bytes memory.new)) }
        ensures rest { (lane : ℕ) → result.1 ≤ lane → lane < self.old.setup.lanes → LaneRests (scene self.new (C.bytes memory.new)) lane }
        ensures setup { self.new.setup ≡ self.old.setup }
        ensures len { length (C.bytes memory.new) ≡ length (C.bytes memory.old) }
    {
        let count = self.lanes();
        let mut done: u64 = 0;
        let mut upto = 0;
        let mut lane = self.next_busy(0, count, memory);
        while lane < count {
            if done >= most {
                return (Worked::so_far(done), count);
            }
            let pass = self.serve_busy(alloc, lane, most - done, memory);
            let stopped = pass.has_stopped();
            let whole = Worked::after(done, pass);
            if stopped {
                return (whole, count);
            }
            let some = whole.done > done;
            done = whole.done;
            let next = self.next_busy(lane + 1, count, memory);
            if some {
                upto = lane + 1;
            }
            lane = next;
        }
        (Worked::so_far(done), upto)
    }

    // The first lane, from that number on and below number `to`, of which something may be due; `to` where that is none.
    fn next_busy<C: MemoryCell>(&self, from: u8, to: u8, memory: &[C]) -> u8
        requires { length (C.bytes memory.now) ≡ self.now.setup.host_bytes }
        ensures passed { (lane : ℕ) → from ≤ lane → lane < result → LaneRests (scene self.now (C.bytes memory.now)) lane }
        ensures on { result < to → from ≤ result }
    {
        self.front
            .next_busy(&self.layout, from, to, &self.holds.tags, memory)
    }

    // A lane's round, and then its commands that wait for their plans. These have 64 events at most, and the lists of the last as many more as `most` allows.
    #[inline(never)]
    fn serve_busy<C: MemoryCell>(
        &mut self,
        alloc: Global,
        lane: u8,
        most: u64,
        memory: &mut [C],
    ) -> Worked
        requires some { 0 < most }
        requires lent { length (C.bytes memory.old) ≡ self.old.setup.host_bytes }
        ensures pass { let old = scene self.old (C.bytes memory.old) in
            IsPass Scope.All (LaneRests old lane) most result old (scene self.new (C.bytes memory.new)) }
        ensures setup { self.new.setup ≡ self.old.setup }
        ensures len { length (C.bytes memory.new) ≡ length (C.bytes memory.old) }
    {
        let served = self.serve_news(lane, most, memory);
        if served.ends(most) {
            return served;
        }
        let done = served.done;
        let planned = self.plan_lane(alloc, lane, TURN.min(most - done), most - done, memory);
        Worked::after(done, planned)
    }

    // A turn of each guest's queues.
    fn serve_guests<C: MemoryCell>(&mut self, alloc: Global, most: u64, memory: &mut [C]) -> Worked
        requires some { 0 < most }
        requires lent { length (C.bytes memory.old) ≡ self.old.setup.host_bytes }
        ensures pass { let old = scene self.old (C.bytes memory.old) in
            IsPass Scope.All ((guest : ℕ) → guest < most_guests → QueuesRest old guest) most result old (scene self.new (C.bytes memory.new)) }
        ensures setup { self.new.setup ≡ self.old.setup }
        ensures len { length (C.bytes memory.new) ≡ length (C.bytes memory.old) }
    {
        let mut done: u64 = 0;
        let mut noted = self.front.noted();
        while let Some(guest) = noted.pop() {
            if done >= most {
                return Worked::so_far(done);
            }
            let left = most - done;
            let pass = self.serve_queues(alloc, guest, left.min(TURN), left, memory);
            let stopped = pass.has_stopped();
            let whole = Worked::after(done, pass);
            if stopped {
                return whole;
            }
            done = whole.done;
        }
        Worked::so_far(done)
    }

    // A lane's round: the drive's completions, and then those of its commands for their guests.
    #[inline(always)]
    fn serve_lane<C: MemoryCell>(&mut self, lane: u8, most: u64, memory: &mut [C]) -> Worked
        requires some { 0 < most }
        requires lent { length (C.bytes memory.old) ≡ self.old.setup.host_bytes }
        ensures pass { let old = scene self.old (C.bytes memory.old) in
            IsPass (Scope.Lane lane) (Rests (Scope.Lane lane) old) most result old (scene self.new (C.bytes memory.new)) }
        ensures setup { self.new.setup ≡ self.old.setup }
        ensures len { length (C.bytes memory.new) ≡ length (C.bytes memory.old) }
    {
        if !self.front.has_news(&self.layout, lane, memory) {
            return Worked::so_far(0);
        }
        self.serve_news(lane, most, memory)
    }

    // The same of a lane where something may be due.
    #[inline(never)]
    fn serve_news<C: MemoryCell>(&mut self, lane: u8, most: u64, memory: &mut [C]) -> Worked
        requires some { 0 < most }
        requires lent { length (C.bytes memory.old) ≡ self.old.setup.host_bytes }
        ensures pass { let old = scene self.old (C.bytes memory.old) in
            IsPass (Scope.Lane lane) (Rests (Scope.Lane lane) old) most result old (scene self.new (C.bytes memory.new)) }
        ensures setup { self.new.setup ≡ self.old.setup }
        ensures len { length (C.bytes memory.new) ≡ length (C.bytes memory.old) }
    {
        let read = self.reap_each(lane, most, memory);
        if read.ends(most) {
            return read;
        }
        let done = read.done;
        let posted = self.post_each(lane, most - done, memory);
        Worked::after(done, posted)
    }

    // Reads the completions of a lane.
    fn reap_each<C: MemoryCell>(&mut self, lane: u8, most: u64, memory: &[C]) -> Worked
        requires some { 0 < most }
        requires lent { length (C.bytes memory.now) ≡ self.old.setup.host_bytes }
        ensures pass { let old = scene self.old (C.bytes memory.now) in
            IsPass (Scope.Lane lane) (NotDue old (Event.Reap lane)) most result old (scene self.new (C.bytes memory.now)) }
        ensures setup { self.new.setup ≡ self.old.setup }
    {
        let mut done: u64 = 0;
        while done < most {
            match self.has_read(lane, memory) {
                Ok(read) => {
                    if read {
                        done += 1;
                    } else {
                        return Worked::so_far(done);
                    }
                }
                Err(Stray) => {
                    return Worked {
                        done,
                        why: Why::Stray(lane),
                    };
                }
            }
        }
        Worked::so_far(done)
    }

    // Reads the next completion of a lane; whether there was one.
    fn has_read<C: MemoryCell>(&mut self, lane: u8, memory: &[C]) -> Result<bool, Stray>
        requires { length (C.bytes memory.now) ≡ self.old.setup.host_bytes }
        ensures yes { IfOk result (λ is. is ≡ true → Leads (Scope.Lane lane) 1 (scene self.old (C.bytes memory.now)) (scene self.new (C.bytes memory.now))) }
        ensures no { IfOk result (λ is. is ≡ false → (self.new ≡ self.old) × NotDue (scene self.old (C.bytes memory.now)) (Event.Reap lane)) }
        ensures stray { OnErr result ((self.new ≡ self.old) × IsStray (Scope.Lane lane) (scene self.old (C.bytes memory.now)) lane) }
        ensures setup { self.new.setup ≡ self.old.setup }
    {
        match self.reap(lane, memory) {
            Ok(reply) => Ok(is_done(&reply)),
            Err(Stray) => Err(Stray),
        }
    }

    // Completes the commands of a lane that have ended. Those that are noted as waiting for room in their guests' completion queues are passed by; where one
    // more is found to wait, those of the same queue are noted.
    fn post_each<C: MemoryCell>(&mut self, lane: u8, most: u64, memory: &mut [C]) -> Worked
        requires some { 0 < most }
        requires lent { length (C.bytes memory.old) ≡ self.old.setup.host_bytes }
        ensures pass { let old = scene self.old (C.bytes memory.old) in
            IsPass (Scope.Lane lane) (NonePosts old lane) most result old (scene self.new (C.bytes memory.new)) }
        ensures setup { self.new.setup ≡ self.old.setup }
        ensures len { length (C.bytes memory.new) ≡ length (C.bytes memory.old) }
    {
        let mut done: u64 = 0;
        let mut ended = self.to_post(lane);
        while let Some(tag) = ended.pop() {
            if done >= most {
                return Worked::so_far(done);
            }
            let posted = self.has_posted(lane, tag, memory);
            if posted {
                done += 1;
            } else {
                ended.drop_all(self.note_held(lane, tag));
            }
        }
        Worked::so_far(done)
    }

    // The tags of a lane whose commands have ended, but for those that are noted as waiting for room.
    fn to_post(&self, lane: u8) -> Group
        ensures { (memory : List ℕ) (tag : ℕ) → list_any (λ t. t == tag) result ≡ false → NotDue (scene self.now memory) (Event.Post lane tag) }
    {
        let mut ended = self.front.ended(lane);
        ended.drop_all(self.holds.of_lane(lane));
        ended
    }

    // The tags of a lane that are of the same queue as this one, where its guest's completion queue has no room: none of their commands may be completed.
    // That is noted.
    fn note_held(&mut self, lane: u8, tag: u8) -> Group
        ensures others { (memory : List ℕ) (other : ℕ) → list_any (λ t. t == other) result ≡ true → NotDue (scene self.old memory) (Event.Post lane other) }
        ensures same { self.new ≡ self.old }
    {
        let held = self.front.held_with(lane, tag);
        if let Some(holder) = self.front.holder(lane, tag) {
            if lane < MOST_LANES && holder.guest < MOST_GUESTS {
                self.holds.add(lane, &held, holder.guest);
            }
        }
        held
    }

    // Completes the command that goes by a tag, where that is due; whether it was.
    fn has_posted<C: MemoryCell>(&mut self, lane: u8, tag: u8, memory: &mut [C]) -> bool
        requires { length (C.bytes memory.old) ≡ self.old.setup.host_bytes }
        ensures yes { IsTrue result → Leads (Scope.Lane lane) 1 (scene self.old (C.bytes memory.old)) (scene self.new (C.bytes memory.new)) }
        ensures no { result ≡ false → (scene self.new (C.bytes memory.new) ≡ scene self.old (C.bytes memory.old))
            × NotDue (scene self.old (C.bytes memory.old)) (Event.Post lane tag) }
        ensures setup { self.new.setup ≡ self.old.setup }
        ensures len { length (C.bytes memory.new) ≡ length (C.bytes memory.old) }
    {
        is_done(&self.post(lane, tag, memory))
    }

    // A guest's round: its commands that wait for their plans, its admin commands, and those that may be taken. It has `turn` events, and the lists of its
    // last command have as many more as `most` allows.
    fn serve_guest<C: MemoryCell>(
        &mut self,
        alloc: Global,
        guest: u8,
        turn: u64,
        most: u64,
        memory: &mut [C],
    ) -> Worked
        requires some { 0 < turn }
        requires within { turn ≤ most }
        requires lent { length (C.bytes memory.old) ≡ self.old.setup.host_bytes }
        ensures pass { let old = scene self.old (C.bytes memory.old) in
            IsPass (Scope.Guest guest) (Rests (Scope.Guest guest) old) most result old (scene self.new (C.bytes memory.new)) }
        ensures setup { self.new.setup ≡ self.old.setup }
        ensures len { length (C.bytes memory.new) ≡ length (C.bytes memory.old) }
    {
        match self.limit(guest) {
            None => Worked::so_far(0),
            Some(_limit) => self.serve_there(alloc, guest, turn, most, memory),
        }
    }

    // The same of a guest that is there.
    fn serve_there<C: MemoryCell>(
        &mut self,
        alloc: Global,
        guest: u8,
        turn: u64,
        most: u64,
        memory: &mut [C],
    ) -> Worked
        requires some { 0 < turn }
        requires within { turn ≤ most }
        requires lent { length (C.bytes memory.old) ≡ self.old.setup.host_bytes }
        ensures pass { let old = scene self.old (C.bytes memory.old) in
            IsPass (Scope.Guest guest) (Rests (Scope.Guest guest) old) most result old (scene self.new (C.bytes memory.new)) }
        ensures setup { self.new.setup ≡ self.old.setup }
        ensures len { length (C.bytes memory.new) ≡ length (C.bytes memory.old) }
    {
        self.sizes();
        let planned = self.plan_lanes(alloc, guest, turn, most, memory);
        if planned.ends(turn) {
            return planned;
        }
        let done = planned.done;
        let rest = self.serve_queues(alloc, guest, turn - done, most - done, memory);
        Worked::after(done, rest)
    }

    // A turn of a guest's queues. A guest that isn't noted is passed by, and one of whom nothing is due whatever is in memory isn't noted any more.
    #[inline(always)]
    fn serve_queues<C: MemoryCell>(
        &mut self,
        alloc: Global,
        guest: u8,
        turn: u64,
        most: u64,
        memory: &mut [C],
    ) -> Worked
        requires some { 0 < turn }
        requires within { turn ≤ most }
        requires lent { length (C.bytes memory.old) ≡ self.old.setup.host_bytes }
        ensures pass { let old = scene self.old (C.bytes memory.old) in
            IsPass (Scope.Guest guest) (QueuesRest old guest) most result old (scene self.new (C.bytes memory.new)) }
        ensures setup { self.new.setup ≡ self.old.setup }
        ensures len { length (C.bytes memory.new) ≡ length (C.bytes memory.old) }
    {
        self.settle(guest);
        if !self.front.is_noted(guest) {
            return Worked::so_far(0);
        }
        self.serve_noted(alloc, guest, turn, most, memory)
    }

    // The guest isn't noted any more, where nothing is due of its queues whatever is in memory.
    fn settle(&mut self, guest: u8)
        ensures { self.new ≡ self.old }
    {
        self.front.settle(guest);
    }

    // The same of a guest that is noted.
    #[inline(never)]
    fn serve_noted<C: MemoryCell>(
        &mut self,
        alloc: Global,
        guest: u8,
        turn: u64,
        most: u64,
        memory: &mut [C],
    ) -> Worked
        requires some { 0 < turn }
        requires within { turn ≤ most }
        requires lent { length (C.bytes memory.old) ≡ self.old.setup.host_bytes }
        ensures pass { let old = scene self.old (C.bytes memory.old) in
            IsPass (Scope.Guest guest) (QueuesRest old guest) most result old (scene self.new (C.bytes memory.new)) }
        ensures setup { self.new.setup ≡ self.old.setup }
        ensures len { length (C.bytes memory.new) ≡ length (C.bytes memory.old) }
    {
        let first = self.admin_each(guest, turn, memory);
        if first.ends(turn) {
            return first;
        }
        let done = first.done;
        let rest = self.take_queues(alloc, guest, turn - done, most - done, memory);
        Worked::after(done, rest)
    }

    // Carries out the guest's admin commands.
    fn admin_each<C: MemoryCell>(&mut self, guest: u8, most: u64, memory: &mut [C]) -> Worked
        requires some { 0 < most }
        requires lent { length (C.bytes memory.old) ≡ self.old.setup.host_bytes }
        ensures pass { let old = scene self.old (C.bytes memory.old) in
            IsPass (Scope.Guest guest) (NotDue old (Event.Admin guest)) most result old (scene self.new (C.bytes memory.new)) }
        ensures setup { self.new.setup ≡ self.old.setup }
        ensures len { length (C.bytes memory.new) ≡ length (C.bytes memory.old) }
    {
        let mut done: u64 = 0;
        while done < most {
            let served = self.has_served(guest, memory);
            if served {
                done += 1;
            } else {
                return Worked::so_far(done);
            }
        }
        Worked::so_far(done)
    }

    // Carries out one event of the guest's admin queue where there is one; whether there was.
    fn has_served<C: MemoryCell>(&mut self, guest: u8, memory: &mut [C]) -> bool
        requires { length (C.bytes memory.old) ≡ self.old.setup.host_bytes }
        ensures yes { IsTrue result → Leads (Scope.Guest guest) 1 (scene self.old (C.bytes memory.old)) (scene self.new (C.bytes memory.new)) }
        ensures no { result ≡ false → (scene self.new (C.bytes memory.new) ≡ scene self.old (C.bytes memory.old))
            × NotDue (scene self.old (C.bytes memory.old)) (Event.Admin guest) }
        ensures setup { self.new.setup ≡ self.old.setup }
        ensures len { length (C.bytes memory.new) ≡ length (C.bytes memory.old) }
    {
        if self.admin_due(guest) {
            let _done = self.admin(guest, memory);
            return true;
        }
        false
    }

    // What is kept of how many lanes, guests and tags there are.
    pub(crate) fn sizes(&self)
        ensures lanes { length self.now.side.lanes ≡ self.now.setup.lanes }
        ensures guests { length self.now.setup.geometry.guests ≤ most_guests }
        ensures tags { (lane : ℕ) (l : Lane) → slice_get self.now.side.lanes lane ≡ Some l → length l.tags ≡ tag_count }
    {
        let _known = &self.front;
    }
}
