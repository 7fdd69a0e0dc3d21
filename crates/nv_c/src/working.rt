//! What is due, carried out.

ghost use Rattle.std.specs.Prelude.{◌≡◌, ◌<◌, ◌≤◌, ◌↔◌, ℕ, ⊤, IsTrue, None, Some, false, length};
ghost use Rattle.nv_c.specs.Work.{IsChoice, IsFound, IsTurn, IsWork, IsWorked, NonePosts, NoneTakes, NoneWaits, NoneWaitsAt, PartyRests, Rests, SlotRests, scope_numbered};
ghost use Rattle.nv_core.specs.Jobs.{holder_of, job_of};
ghost use Rattle.nv_core.specs.Submit.{IsCurrent};
ghost use Rattle.nv_mediator.specs.Hosted.{hosted_world};
ghost use Rattle.nv_world_model.specs.Due.{due};

use crate::event::byte;
use crate::kept::Kept;
use crate::reading::{give_up, given_to, read_lists, resume_lists};
use nv_mediator::{Holder, Mediator};
use nv_model::limits::{LAST_QUEUE, MOST_GUESTS, MOST_LANES};
use nv_plan::{Job, Plan, Planned, make_plan};
use nv_tags::Group;
use nv_world_model::Event;
use std::alloc::Global;

/// Of whom what is due is carried out.
#[derive(Clone, Copy)]
pub(crate) enum Scope {
    /// a guest: its admin commands, and its commands that wait, which are taken and planned
    Guest(u8),
    /// a lane: the physical controller's side of it, its completions, and those of its commands
    Lane(u8),
    /// all guests, and then all lanes
    All,
}

impl Scope {
    /// The scope of that number in `enum nvmed_scope`, of the guest or the lane of the other; `None` where there is none.
    pub(crate) fn of(scope: u32, number: u32) -> Option<Self>
        ensures { result ≡ scope_numbered scope number }
    {
        if scope == 3 {
            return Some(Scope::All);
        }
        let number = byte(number)?;
        match scope {
            1 => Some(Scope::Guest(number)),
            2 => Some(Scope::Lane(number)),
            _ => None,
        }
    }
}

/// How many guests and lanes there may be, in a row.
const PARTIES: u8 = MOST_GUESTS + MOST_LANES;

/// How many events a guest gets in a row, at most, while another guest or a lane has something, too.
pub(crate) const TURN: u64 = 64;

/// What is to be done next.
#[derive(Drop)]
pub(crate) enum Choice {
    /// this event
    Make(Event),
    /// this plan is carried out
    Submit(Plan),
    /// bytes of the lists of this job's command are read
    Read(Job),
    /// the lists of the command of this lane and tag are read on, whose plan was put aside
    Resume(u8, u8),
    /// the command of this lane and tag is given up: there was no memory for its plan
    GiveUp(u8, u8),
    /// nothing is due
    Nothing,
    /// there was no memory to see what is
    Starved,
}

/// What was done.
#[derive(Clone, Copy)]
pub(crate) enum Turn {
    /// so many events, at least one
    Served(u64),
    /// so many events, of which the last gave a command up, since there was no memory for its plan
    GaveUp(u64),
    /// nothing was due
    Idle,
    /// there was no memory for what is
    Starved,
}

// Where something was due last, where the next search begins. What is done does not depend on it, but for the order.
#[derive(Clone, Copy)]
pub(crate) struct Last {
    // the number of the one who was served, in a row of the guests and then the lanes
    party: u8,
    // how many events it got in a row
    events: u64,
    // a slot of the physical controller
    slot: u8,
    // the unit that comes next there
    unit: u64,
    // the guests of whom nothing was found, a bit for each
    idle: u64,
}

impl Last {
    // Nothing was due yet.
    fn new() -> Self {
        Last {
            party: 0,
            events: 0,
            slot: 0,
            unit: 0,
            idle: 0,
        }
    }

    // Notes that nothing was found of the one of that number.
    fn passed(&mut self, party: u8) {
        if party < MOST_GUESTS {
            self.idle |= 1 << party;
        }
    }

    // The guests of whom nothing was found since the last such call.
    fn take_idle(&mut self) -> Group {
        let idle = Group::of(self.idle);
        self.idle = 0;
        idle
    }

    // Notes whom the search begins with: after a guest's whole turn the next one. What a lane has to do ends by itself.
    fn go_round(&mut self) {
        if self.party < MOST_GUESTS && self.events >= TURN {
            self.party = self.party.wrapping_add(1) % PARTIES;
            self.events = 0;
        }
    }

    // Notes who is served.
    fn found(&mut self, party: u8) {
        if self.party != party {
            self.party = party;
            self.events = 0;
        }
    }

    // Notes so many events more.
    fn served(&mut self, events: u64) {
        self.events = self.events.saturating_add(events);
    }

    /// How many events are left of the turn.
    pub(crate) fn left(&self) -> u64 {
        TURN.saturating_sub(self.events)
    }
}

/// Why a call ended.
#[derive(Clone, Copy)]
pub(crate) enum Why {
    /// as many events were made as were asked for, or nothing is left
    Enough,
    /// there was no memory for what is left
    Starved,
    /// there was no memory for the plan of a command, which was given up
    GaveUp,
}

/// How a call went.
#[derive(Clone, Copy)]
pub(crate) struct Ended {
    /// how many events were made
    pub(crate) done: u64,
    /// why there were no more
    pub(crate) why: Why,
}

/// Carries out what is due of a scope, `most` events at most.
pub(crate) fn work(
    alloc: Global,
    mediator: &mut Mediator,
    kept: &mut Kept,
    scope: Scope,
    most: u64,
) -> Ended
    ensures { IsWorked scope most result mediator.old mediator.new }
{
    let mut last = Last::new();
    let mut done: u64 = 0;
    while done < most {
        match serve(alloc, mediator, kept, scope, &mut last, most - done) {
            Turn::Served(count) => {
                last.served(count);
                done += count;
            }
            Turn::GaveUp(count) => {
                return Ended {
                    done: done + count,
                    why: Why::GaveUp,
                };
            }
            Turn::Idle => {
                return Ended {
                    done,
                    why: Why::Enough,
                };
            }
            Turn::Starved => {
                return Ended {
                    done,
                    why: Why::Starved,
                };
            }
        }
    }
    Ended {
        done,
        why: Why::Enough,
    }
}

// Makes the events of a scope that come next, `most` at most.
fn serve(
    alloc: Global,
    mediator: &mut Mediator,
    kept: &mut Kept,
    scope: Scope,
    last: &mut Last,
    most: u64,
) -> Turn
    requires { 0 < most }
    ensures { IsTurn scope most mediator.old result mediator.new }
{
    let next = next_of(alloc, mediator, kept, scope, last);
    settle_idle(mediator, last);
    match next {
        Choice::Make(event) => make(alloc, mediator, scope, &event, most),
        Choice::Submit(plan) => submit(mediator, scope, plan, most),
        Choice::Read(job) => read_lists(alloc, mediator, kept, scope, last, job, most),
        Choice::Resume(lane, tag) => resume_lists(
            alloc, mediator, kept, scope, last, lane, tag, most,
        ),
        Choice::GiveUp(lane, tag) => give_up(alloc, mediator, scope, lane, tag, most),
        Choice::Nothing => Turn::Idle,
        Choice::Starved => Turn::Starved,
    }
}

// Guests of whom nothing was found are noted no more, where nothing is due of their queues: the next searches pass by them.
fn settle_idle(mediator: &mut Mediator, last: &mut Last)
    ensures { mediator.new ≡ mediator.old }
{
    let mut idle = last.take_idle();
    while let Some(guest) = idle.pop() {
        if mediator.is_noted(guest) {
            mediator.settle(guest);
        }
    }
}

// Makes an event.
fn make(alloc: Global, mediator: &mut Mediator, _scope: Scope, event: &Event, _most: u64) -> Turn
    requires some { 0 < _most }
    requires work { IsWork _scope mediator.old event.now }
    ensures { IsTurn _scope _most mediator.old result mediator.new }
{
    match mediator.step(alloc, event) {
        Ok(_reply) => Turn::Served(1),
        Err(_) => Turn::Starved,
    }
}

// Carries out a plan that was made of the world as it is.
pub(crate) fn submit(mediator: &mut Mediator, _scope: Scope, plan: Plan, _most: u64) -> Turn
    requires some { 0 < _most }
    requires current { IsCurrent mediator.old.geometry (hosted_world mediator.old) plan }
    requires work { IsWork _scope mediator.old (Event.Submit plan.job.lane plan.job.tag) }
    ensures { IsTurn _scope _most mediator.old result mediator.new }
{
    let Some(_reply) = mediator.submit_plan(plan) else {
        unreachable!()
    };
    Turn::Served(1)
}

/// Whether another than the one who is served has something, or there was no memory to see.
pub(crate) fn is_another_waiting(
    alloc: Global,
    mediator: &Mediator,
    kept: &Kept,
    scope: Scope,
    last: &Last,
) -> bool {
    let Scope::All = scope else {
        return false;
    };
    let mut search = *last;
    let party = last.party;
    let next = party.saturating_add(1);
    let after = next_among(alloc, mediator, kept, next, PARTIES, &mut search);
    !matches!(after, Choice::Nothing)
        || !matches!(
            next_among(alloc, mediator, kept, 0, party, &mut search),
            Choice::Nothing
        )
}

// What comes next of a scope.
fn next_of(alloc: Global, mediator: &Mediator, kept: &Kept, scope: Scope, last: &mut Last) -> Choice
    ensures { IsChoice scope mediator.now (Rests scope mediator.now) result }
{
    match scope {
        Scope::Guest(guest) => next_of_guest(alloc, mediator, kept, guest),
        Scope::Lane(lane) => next_of_lane(mediator, lane, last),
        Scope::All => next_of_all(alloc, mediator, kept, last),
    }
}

// What comes next of the one who was served last, where its turn is not over, or else of the next who has something.
fn next_of_all(alloc: Global, mediator: &Mediator, kept: &Kept, last: &mut Last) -> Choice
    ensures { IsChoice Scope.All mediator.now (Rests Scope.All mediator.now) result }
{
    mediator.promise();
    last.go_round();
    let first = last.party;
    match next_among(alloc, mediator, kept, first, PARTIES, last) {
        Choice::Nothing => next_among(alloc, mediator, kept, 0, first, last),
        choice => choice,
    }
}

// What comes next of those from number `from` on, below number `to`.
fn next_among(
    alloc: Global,
    mediator: &Mediator,
    kept: &Kept,
    from: u8,
    to: u8,
    last: &mut Last,
) -> Choice
    ensures { IsChoice Scope.All mediator.now ((number : ℕ) → from ≤ number → number < to → PartyRests mediator.now number) result }
{
    for number in from..to {
        match next_of_one(alloc, mediator, kept, number, last) {
            Choice::Nothing => last.passed(number),
            choice => {
                last.found(number);
                return choice;
            }
        }
    }
    Choice::Nothing
}

// What comes next of the one of that number.
fn next_of_one(
    alloc: Global,
    mediator: &Mediator,
    kept: &Kept,
    number: u8,
    last: &mut Last,
) -> Choice
    ensures { IsChoice Scope.All mediator.now (PartyRests mediator.now number) result }
{
    if number < MOST_GUESTS {
        next_of_guest(alloc, mediator, kept, number)
    } else {
        next_of_lane(mediator, number - MOST_GUESTS, last)
    }
}

// What comes next of a guest: an admin command, a command that waits for its plan, or one that may be taken.
fn next_of_guest(alloc: Global, mediator: &Mediator, kept: &Kept, guest: u8) -> Choice
    ensures { IsChoice (Scope.Guest guest) mediator.now (Rests (Scope.Guest guest) mediator.now) result }
{
    mediator.promise();
    if is_admin_due(mediator, guest) {
        return Choice::Make(Event::Admin(guest));
    }
    for lane in 0..mediator.lanes() {
        match next_plan(alloc, mediator, kept, guest, lane) {
            Choice::Nothing => {}
            choice => return choice,
        }
        if let Some(event) = next_take(mediator, guest, lane) {
            return Choice::Make(event);
        }
    }
    Choice::Nothing
}

// Whether a guest's admin queue has something to do.
fn is_admin_due(mediator: &Mediator, guest: u8) -> bool
    ensures { result ≡ due mediator.now.geometry (Event.Admin guest) (hosted_world mediator.now) }
{
    mediator.is_noted(guest) && mediator.due(&Event::Admin(guest))
}

// What comes next of a guest's commands on a lane that wait for their plans.
fn next_plan(alloc: Global, mediator: &Mediator, kept: &Kept, guest: u8, lane: u8) -> Choice
    ensures { IsChoice (Scope.Guest guest) mediator.now (NoneWaits guest lane mediator.now) result }
{
    let mut taken = mediator.taken(lane);
    while let Some(tag) = taken.pop() {
        match next_of_tag(alloc, mediator, kept, guest, lane, tag) {
            Choice::Nothing => {}
            choice => return choice,
        }
    }
    Choice::Nothing
}

// What comes next of a guest's command that goes by a tag, where there is one, and it waits for its plan.
fn next_of_tag(
    alloc: Global,
    mediator: &Mediator,
    kept: &Kept,
    guest: u8,
    lane: u8,
    tag: u8,
) -> Choice
    ensures { IsChoice (Scope.Guest guest) mediator.now (NoneWaitsAt guest lane tag mediator.now) result }
{
    if is_own(mediator, guest, lane, tag) {
        return plan(alloc, mediator, kept, guest, lane, tag);
    }
    Choice::Nothing
}

// Whether a command of the guest's goes by a tag.
fn is_own(mediator: &Mediator, guest: u8, lane: u8, tag: u8) -> bool
    ensures { IsTrue result ↔ (holder_of (hosted_world mediator.now) lane tag ≡ Some (record { guest = guest; leader = tag })) }
{
    match mediator.holder(lane, tag) {
        Some(Holder { guest: its, leader }) => its == guest && leader == tag,
        None => false,
    }
}

// What comes next of a guest's command that goes by a tag, where it waits for its plan: what it wants of its lists is read, its plan is carried
// out, or it is given up where there is no memory for the plan.
fn plan(alloc: Global, mediator: &Mediator, kept: &Kept, guest: u8, lane: u8, tag: u8) -> Choice
    requires { holder_of (hosted_world mediator.now) lane tag ≡ Some (record { guest = guest; leader = tag }) }
    ensures { IsChoice (Scope.Guest guest) mediator.now (job_of (hosted_world mediator.now) lane tag ≡ None) result }
{
    mediator.promise();
    if kept.has(lane, tag) && mediator.is_waiting(lane, tag) {
        return Choice::Resume(lane, tag);
    }
    let Ok(job) = mediator.job(alloc, lane, tag) else {
        return Choice::Starved;
    };
    let Some(job) = job else {
        return Choice::Nothing;
    };
    let (map, ns, limit) = given_to(mediator, guest);
    match make_plan(alloc, alloc, job, map, ns, limit) {
        Planned::Need(job, _, _) => Choice::Read(job),
        Planned::Plan(plan) => Choice::Submit(plan),
        Planned::NoMemory(_) => Choice::GiveUp(lane, tag),
    }
}

// The taking of a guest's command on a lane that is due.
fn next_take(mediator: &Mediator, guest: u8, lane: u8) -> Option<Event>
    ensures { IsFound (Scope.Guest guest) mediator.now (NoneTakes guest lane mediator.now) result }
{
    if !mediator.is_noted(guest) {
        return None;
    }
    for queue in 1..=LAST_QUEUE {
        let event = Event::Take(guest, queue, lane);
        if mediator.due(&event) {
            return Some(event);
        }
    }
    None
}

// What comes next of a lane: the next unit of the slot that was served last, a command that may be completed for its guest, a physical completion,
// an entry, or a command in a slot.
fn next_of_lane(mediator: &Mediator, lane: u8, last: &mut Last) -> Choice
    ensures { IsChoice (Scope.Lane lane) mediator.now (Rests (Scope.Lane lane) mediator.now) result }
{
    mediator.promise();
    if mediator.due(&Event::DevMove(lane, last.slot, last.unit)) {
        let unit = last.unit;
        last.unit = unit.saturating_add(1);
        return Choice::Make(Event::DevMove(lane, last.slot, unit));
    }
    if let Some(event) = next_post(mediator, lane) {
        return Choice::Make(event);
    }
    if mediator.due(&Event::Reap(lane)) {
        return Choice::Make(Event::Reap(lane));
    }
    if mediator.due(&Event::DevTake(lane)) {
        return Choice::Make(Event::DevTake(lane));
    }
    match next_in_slots(mediator, lane, last) {
        Some(event) => Choice::Make(event),
        None => Choice::Nothing,
    }
}

// The completion for a guest that is due on a lane.
fn next_post(mediator: &Mediator, lane: u8) -> Option<Event>
    ensures { IsFound (Scope.Lane lane) mediator.now (NonePosts lane mediator.now) result }
{
    let mut ended = mediator.ended(lane);
    while let Some(tag) = ended.pop() {
        let event = Event::Post(lane, tag);
        if mediator.due(&event) {
            return Some(event);
        }
    }
    None
}

// What is due of the commands that the physical controller holds in a lane's slots: the slot of a command has the number of its tag.
fn next_in_slots(mediator: &Mediator, lane: u8, last: &mut Last) -> Option<Event>
    ensures { IsFound (Scope.Lane lane) mediator.now ((slot : ℕ) → SlotRests lane mediator.now slot) result }
{
    mediator.promise();
    let mut flying = mediator.flying(lane);
    while let Some(slot) = flying.pop() {
        if let Some(event) = next_in_slot(mediator, lane, slot, last) {
            return Some(event);
        }
    }
    None
}

// What is due of the command in a slot: its completion, or its next unit.
fn next_in_slot(mediator: &Mediator, lane: u8, slot: u8, last: &mut Last) -> Option<Event>
    ensures { IsFound (Scope.Lane lane) mediator.now (SlotRests lane mediator.now slot) result }
{
    let event = Event::DevPost(lane, slot);
    if mediator.due(&event) {
        return Some(event);
    }
    let unit = mediator.next_unit(lane, slot)?;
    last.slot = slot;
    last.unit = unit.saturating_add(1);
    Some(Event::DevMove(lane, slot, unit))
}
