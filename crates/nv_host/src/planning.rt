//! A guest's commands that wait for their plans: their lists are read, and their plans carried out.

ghost use Rattle.std.specs.Prelude.{◌≡◌, ◌<◌, ◌≤◌, ◌↔◌, ℕ, IfOk, IsTrue, List, OnErr, Some, false, length, slice_get, true};
ghost use Rattle.nv_core.specs.Jobs.{holder_in};
ghost use Rattle.nv_core.specs.Submit.{IsCurrentIn, IsLimit};
ghost use Rattle.nv_host.specs.Passes.{IsGiven, IsOwn, IsPass, IsReading, IsStride, IsWaiting, MayGiveUp, NoneWaits, NoneWaitsAt};
ghost use Rattle.nv_host.specs.Work.{IsWork, Leads, scene};
ghost use Rattle.nv_model.specs.Transcript.{Settled};
ghost use Rattle.nv_plan.specs.Made.{outcome_of};
ghost use Rattle.nv_world_model.specs.Geometry.{Guest};
ghost use Rattle.nv_world_model.specs.Plan.{Plan as Made};
ghost use Rattle.nv_world_model.specs.World.{tag_in};

use crate::host_mediator::HostMediator;
use crate::worked::{Scope, Why, Worked, is_done};
use nv_core::Holder;
use nv_mem::{GuestMap, MemoryCell, NoMemory};
use nv_model::Reply;
use nv_ns::VirtualNs;
use nv_plan::{Job, Next, Plan, Planned, Planning, ReadDone};
use nv_world_model::Event;
use std::alloc::Global;

/// How the reading of a command's lists went on.
#[derive(Clone, Copy)]
pub(crate) enum Stride {
    /// what was wanted was read
    Read,
    /// nothing more is wanted
    Planned,
    /// there was no memory for the plan
    Starved,
    /// there was no memory for the event
    Full,
    /// the event was made, and the plan has not got what it read
    Lost,
}

/// What a guest was given: a copy of its map, which lasts while the mediator changes.
#[derive(Drop)]
pub(crate) struct GrantCopy {
    map: GuestMap,
    ns: VirtualNs,
    limit: u32,
}

impl HostMediator {
    /// The guest's commands of a lane that wait are planned and handed on. It has `turn` events, and the lists of its last command have as many more as
    /// `most` allows.
    pub(crate) fn plan_each<C: MemoryCell>(
        &mut self,
        alloc: Global,
        guest: u8,
        lane: u8,
        turn: u64,
        most: u64,
        memory: &mut [C],
    ) -> Worked
        requires some { 0 < turn }
        requires within { turn ≤ most }
        requires lent { length (C.bytes memory.old) ≡ self.old.setup.host_bytes }
        ensures pass { let old = scene self.old (C.bytes memory.old) in
            IsPass (Scope.Guest guest) (NoneWaits old guest lane) most result old (scene self.new (C.bytes memory.new)) }
        ensures setup { self.new.setup ≡ self.old.setup }
        ensures len { length (C.bytes memory.new) ≡ length (C.bytes memory.old) }
    {
        let mut done: u64 = 0;
        let mut taken = self.front.taken(lane);
        while let Some(tag) = taken.pop() {
            if done >= turn {
                return Worked::so_far(done);
            }
            let pass = self.plan(alloc, guest, lane, tag, most - done, memory);
            let stopped = pass.has_stopped();
            let whole = Worked::after(done, pass);
            if stopped {
                return whole;
            }
            done = whole.done;
        }
        Worked::so_far(done)
    }

    /// The guest's command that goes by a tag, where it waits: what it wants of its lists is read, and its plan is carried out.
    pub(crate) fn plan<C: MemoryCell>(
        &mut self,
        alloc: Global,
        guest: u8,
        lane: u8,
        tag: u8,
        most: u64,
        memory: &mut [C],
    ) -> Worked
        requires some { 0 < most }
        requires lent { length (C.bytes memory.old) ≡ self.old.setup.host_bytes }
        ensures pass { let old = scene self.old (C.bytes memory.old) in
            IsPass (Scope.Guest guest) (NoneWaitsAt old guest lane tag) most result old (scene self.new (C.bytes memory.new)) }
        ensures setup { self.new.setup ≡ self.old.setup }
        ensures len { length (C.bytes memory.new) ≡ length (C.bytes memory.old) }
    {
        if !self.is_own(guest, lane, tag) {
            return Worked::so_far(0);
        }
        match self.limit(guest) {
            None => Worked::so_far(0),
            Some(_limit) => self.plan_own(alloc, guest, lane, tag, most, memory),
        }
    }

    // The same where the command is that guest's, and the guest is there. Most commands have no lists, and are planned and handed on at once.
    fn plan_own<C: MemoryCell>(
        &mut self,
        alloc: Global,
        guest: u8,
        lane: u8,
        tag: u8,
        most: u64,
        memory: &mut [C],
    ) -> Worked
        requires some { 0 < most }
        requires lent { length (C.bytes memory.old) ≡ self.old.setup.host_bytes }
        requires own { IsOwn (scene self.old (C.bytes memory.old)) guest lane tag }
        requires there { (given : Guest) × (slice_get self.old.setup.geometry.guests guest ≡ Some given) }
        ensures pass { let old = scene self.old (C.bytes memory.old) in
            IsPass (Scope.Guest guest) (NoneWaitsAt old guest lane tag) most result old (scene self.new (C.bytes memory.new)) }
        ensures setup { self.new.setup ≡ self.old.setup }
        ensures len { length (C.bytes memory.new) ≡ length (C.bytes memory.old) }
    {
        match self.has_submitted(alloc, guest, lane, tag, memory) {
            Ok(submitted) => {
                if submitted {
                    return Worked::so_far(1);
                }
                self.read_for(alloc, guest, lane, tag, most, memory)
            }
            Err(NoMemory) => self.end_waiting(guest, lane, tag, most, memory),
        }
    }

    // Plans the command that goes by a tag and hands it on, where it waits and no more of its lists is wanted; whether it did.
    fn has_submitted<C: MemoryCell>(
        &mut self,
        alloc: Global,
        guest: u8,
        lane: u8,
        tag: u8,
        memory: &mut [C],
    ) -> Result<bool, NoMemory>
        requires lent { length (C.bytes memory.old) ≡ self.old.setup.host_bytes }
        requires own { IsOwn (scene self.old (C.bytes memory.old)) guest lane tag }
        ensures yes { IfOk result (λ is. is ≡ true →
            Leads (Scope.Guest guest) 1 (scene self.old (C.bytes memory.old)) (scene self.new (C.bytes memory.new))) }
        ensures no { IfOk result (λ is. is ≡ false → scene self.new (C.bytes memory.new) ≡ scene self.old (C.bytes memory.old)) }
        ensures err { OnErr result (scene self.new (C.bytes memory.new) ≡ scene self.old (C.bytes memory.old)) }
        ensures setup { self.new.setup ≡ self.old.setup }
        ensures len { length (C.bytes memory.new) ≡ length (C.bytes memory.old) }
    {
        match self.submit(alloc, lane, tag, memory) {
            Ok(reply) => Ok(is_done(&reply)),
            Err(NoMemory) => Err(NoMemory),
        }
    }

    // Reads the lists of the guest's command that goes by a tag, where it waits, up to its plan, which is carried out.
    fn read_for<C: MemoryCell>(
        &mut self,
        alloc: Global,
        guest: u8,
        lane: u8,
        tag: u8,
        most: u64,
        memory: &mut [C],
    ) -> Worked
        requires some { 0 < most }
        requires lent { length (C.bytes memory.old) ≡ self.old.setup.host_bytes }
        requires own { IsOwn (scene self.old (C.bytes memory.old)) guest lane tag }
        requires there { (given : Guest) × (slice_get self.old.setup.geometry.guests guest ≡ Some given) }
        ensures pass { let old = scene self.old (C.bytes memory.old) in
            IsPass (Scope.Guest guest) (NoneWaitsAt old guest lane tag) most result old (scene self.new (C.bytes memory.new)) }
        ensures setup { self.new.setup ≡ self.old.setup }
        ensures len { length (C.bytes memory.new) ≡ length (C.bytes memory.old) }
    {
        match self.job(alloc, lane, tag) {
            Ok(job) => match job {
                None => Worked::so_far(0),
                Some(job) => self.read_lists(alloc, guest, job, most, memory),
            },
            Err(NoMemory) => Worked {
                done: 0,
                why: Why::Starved,
            },
        }
    }

    // Gives the guest's command up that goes by a tag, where it waits: there was no memory for its plan.
    fn end_waiting<C: MemoryCell>(
        &mut self,
        guest: u8,
        lane: u8,
        tag: u8,
        most: u64,
        memory: &[C],
    ) -> Worked
        requires some { 0 < most }
        requires own { IsOwn (scene self.old (C.bytes memory.now)) guest lane tag }
        ensures pass { let old = scene self.old (C.bytes memory.now) in
            IsPass (Scope.Guest guest) (NoneWaitsAt old guest lane tag) most result old (scene self.new (C.bytes memory.now)) }
        ensures setup { self.new.setup ≡ self.old.setup }
    {
        if self.is_waiting(lane, tag) {
            return self.end_unplanned(guest, lane, tag, most, memory);
        }
        Worked::so_far(0)
    }

    // Whether a command of the guest's goes by a tag.
    fn is_own(&self, guest: u8, lane: u8, tag: u8) -> bool
        ensures { IsTrue result ↔ (holder_in (tag_in (slice_get self.now.side.lanes lane) tag) ≡ Some (record { guest = guest; leader = tag })) }
    {
        match self.holder(lane, tag) {
            Some(Holder { guest: its, leader }) => its == guest && leader == tag,
            None => false,
        }
    }

    // What a guest was given: its map, its namespace and its limit on descriptors.
    fn given_to(&self, guest: u8) -> (&GuestMap, &VirtualNs, u32)
        requires { (given : Guest) × (slice_get self.now.setup.geometry.guests guest ≡ Some given) }
        ensures is { slice_get self.now.setup.geometry.guests guest ≡ Some (record { memory_map = result.0.now; namespace = result.1.now; limit = result.2 }) }
        ensures limit { IsLimit result.2 }
    {
        let (Some(map), Some(ns), Some(limit)) = (
            self.map(guest),
            self.range(guest),
            self.limit(guest),
        ) else {
            unreachable!()
        };
        (map, ns, limit)
    }

    // Carries out a plan that was made of the mediator as it is.
    fn carry_out<C: MemoryCell>(
        &mut self,
        _guest: u8,
        plan: Plan,
        _most: u64,
        memory: &mut [C],
    ) -> Worked
        requires some { 0 < _most }
        requires lent { length (C.bytes memory.old) ≡ self.old.setup.host_bytes }
        requires current { IsCurrentIn self.old.setup.geometry self.old.side.lanes plan }
        requires work { IsWork (Scope.Guest _guest) (scene self.old (C.bytes memory.old)) (Event.Submit plan.job.lane plan.job.tag) }
        ensures pass { IsPass (Scope.Guest _guest) ⊥ _most result (scene self.old (C.bytes memory.old)) (scene self.new (C.bytes memory.new)) }
        ensures setup { self.new.setup ≡ self.old.setup }
        ensures len { length (C.bytes memory.new) ≡ length (C.bytes memory.old) }
    {
        let Some(_reply) = self.submit_plan(plan, memory) else {
            unreachable!()
        };
        Worked::so_far(1)
    }

    // Gives a command up: there was no memory for its plan.
    fn end_unplanned<C: MemoryCell>(
        &mut self,
        _guest: u8,
        lane: u8,
        tag: u8,
        _most: u64,
        _memory: &[C],
    ) -> Worked
        requires some { 0 < _most }
        requires may { MayGiveUp _guest (scene self.old (C.bytes _memory.now)) lane tag }
        ensures pass { IsPass (Scope.Guest _guest) ⊥ _most result (scene self.old (C.bytes _memory.now)) (scene self.new (C.bytes _memory.now)) }
        ensures setup { self.new.setup ≡ self.old.setup }
    {
        let _reply = self.give_up(lane, tag);
        Worked {
            done: 1,
            why: Why::GaveUp,
        }
    }

    // Reads what the command of a job wants of its lists, up to its plan, which is carried out. It is not inlined, since a function pays for its locals at
    // each call, and most commands need none of these.
    #[inline(never)]
    fn read_lists<C: MemoryCell>(
        &mut self,
        alloc: Global,
        guest: u8,
        job: Job,
        most: u64,
        memory: &mut [C],
    ) -> Worked
        requires some { 0 < most }
        requires lent { length (C.bytes memory.old) ≡ self.old.setup.host_bytes }
        requires waits { (given : Guest) × IsWaiting guest (scene self.old (C.bytes memory.old)) job given }
        ensures pass { IsPass (Scope.Guest guest) ⊥ most result (scene self.old (C.bytes memory.old)) (scene self.new (C.bytes memory.new)) }
        ensures setup { self.new.setup ≡ self.old.setup }
        ensures len { length (C.bytes memory.new) ≡ length (C.bytes memory.old) }
    {
        let (lane, tag) = (job.lane, job.tag);
        let Ok(given) = self.grant_of(alloc, job.guest, memory) else {
            return self.end_unplanned(guest, lane, tag, most, memory);
        };
        match Planning::new(alloc, alloc, job, &given.map, &given.ns, given.limit) {
            Ok(planning) => self.read_on(alloc, guest, planning, most, memory),
            Err(_) => self.end_unplanned(guest, lane, tag, most, memory),
        }
    }

    // A copy of what a guest was given.
    fn grant_of<C: MemoryCell>(
        &self,
        alloc: Global,
        guest: u8,
        _memory: &[C],
    ) -> Result<GrantCopy, NoMemory>
        requires { (given : Guest) × (slice_get self.now.setup.geometry.guests guest ≡ Some given) }
        ensures { IfOk result (λ copy. IsGiven (scene self.now (C.bytes _memory.now)) guest copy) }
    {
        let (map, ns, limit) = self.given_to(guest);
        Ok(GrantCopy {
            map: map.try_clone(alloc)?,
            ns: *ns,
            limit,
        })
    }

    // Reads on for a plan under way.
    fn read_on<'a, C: MemoryCell>(
        &mut self,
        alloc: Global,
        guest: u8,
        mut planning: Planning<'a, Global>,
        most: u64,
        memory: &mut [C],
    ) -> Worked
        requires some { 0 < most }
        requires lent { length (C.bytes memory.old) ≡ self.old.setup.host_bytes }
        requires reading { IsReading guest (scene self.old (C.bytes memory.old)) planning }
        ensures pass { IsPass (Scope.Guest guest) ⊥ most result (scene self.old (C.bytes memory.old)) (scene self.new (C.bytes memory.new)) }
        ensures setup { self.new.setup ≡ self.old.setup }
        ensures len { length (C.bytes memory.new) ≡ length (C.bytes memory.old) }
    {
        let mut done: u64 = 0;
        while done < most {
            match self.read_next(alloc, guest, &mut planning, memory) {
                Stride::Read => done += 1,
                Stride::Planned => {
                    let rest = self.hand_over(guest, planning, most - done, memory);
                    return Worked::after(done, rest);
                }
                Stride::Starved => {
                    let Job { lane, tag, .. } = planning.into_job();
                    let rest = self.end_unplanned(guest, lane, tag, most - done, memory);
                    return Worked::after(done, rest);
                }
                Stride::Full => {
                    return Worked {
                        done,
                        why: Why::Starved,
                    };
                }
                Stride::Lost => return Worked::so_far(done + 1),
            }
        }
        Worked::so_far(done)
    }

    // Reads what a plan under way wants next.
    fn read_next<'a, C: MemoryCell>(
        &mut self,
        alloc: Global,
        _guest: u8,
        planning: &mut Planning<'a, Global>,
        memory: &[C],
    ) -> Stride
        requires lent { length (C.bytes memory.now) ≡ self.old.setup.host_bytes }
        requires reading { IsReading _guest (scene self.old (C.bytes memory.now)) planning.old }
        ensures stride { IsStride _guest (scene self.old (C.bytes memory.now)) planning.old result (scene self.new (C.bytes memory.now)) planning.new }
        ensures setup { self.new.setup ≡ self.old.setup }
    {
        let (addr, len) = match planning.wants() {
            Ok(Next::Read { addr, len }) => (addr, len),
            Ok(Next::Done) => return Stride::Planned,
            Err(NoMemory) => return Stride::Starved,
        };
        let Job { lane, tag, .. } = planning.job();
        let Ok((reply, _again)) = self.list(alloc, *lane, *tag, addr, len, memory) else {
            return Stride::Full;
        };
        let Reply::Bytes(bytes) = reply else {
            return Stride::Lost;
        };
        if bytes.as_slice().len() as u64 != len {
            return Stride::Lost;
        }
        match planning.feed(ReadDone::new(addr, bytes)) {
            Ok(()) => Stride::Read,
            Err(NoMemory) => Stride::Lost,
        }
    }

    // Carries out the plan of a command of which all was read.
    fn hand_over<'a, C: MemoryCell>(
        &mut self,
        guest: u8,
        planning: Planning<'a, Global>,
        most: u64,
        memory: &mut [C],
    ) -> Worked
        requires some { 0 < most }
        requires lent { length (C.bytes memory.old) ≡ self.old.setup.host_bytes }
        requires reading { IsReading guest (scene self.old (C.bytes memory.old)) planning }
        requires planned { (plan : Made) × (outcome_of planning.given planning.job ≡ Settled plan) }
        ensures pass { IsPass (Scope.Guest guest) ⊥ most result (scene self.old (C.bytes memory.old)) (scene self.new (C.bytes memory.new)) }
        ensures setup { self.new.setup ≡ self.old.setup }
        ensures len { length (C.bytes memory.new) ≡ length (C.bytes memory.old) }
    {
        match planning.finish() {
            Planned::Plan(plan) => self.carry_out(guest, plan, most, memory),
            Planned::NoMemory(job) => self.end_unplanned(guest, job.lane, job.tag, most, memory),
            Planned::Need(_, _, _) => unreachable!(),
        }
    }
}
