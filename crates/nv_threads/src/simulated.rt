//! The workers without threads, one turn at a time in random order, in a world in which guests act.
//!
//! A worker that makes an event makes one that is due. A worker that makes none, since it found nothing or waits for a bell that was not rung, has
//! nothing to do: the world is polled for it everywhere, without notes (`simulated_due`). A guest to which something was posted has news. Its
//! planners are notified where another entry may be at the front of its queue and a lane is short of tags. From time to time the world is shared
//! anew, so that workers start with commands that are under way. Guests have one extent each, or several, so that their commands take several tags
//! and tags run out. In every second simulation guests may have all tags of a lane; in the others each keeps to its share.

use crate::bits::bit;
use crate::concern::Concern;
use crate::device_side::LaneDevice;
use crate::given::GrantCopy;
use crate::locked::{Errand, Locked};
use crate::maker::Prepared;
use crate::notes::Notes;
use crate::planning::GuestPlanner;
use crate::reaping::LaneReaper;
use crate::shared::Shared;
use crate::simulated_counts::{Ended, Met, are_sizes_noted};
use crate::simulated_due::{
    ALL_UNITS, FEW_UNITS, has_nothing_to_move, has_nothing_to_plan, has_nothing_to_reap,
    is_within_share, was_due,
};
use crate::simulated_guest::{Chance, Guest, is_reset, is_store};
use crate::simulated_noted::note_the_same;
use crate::simulated_seats::{MakerSeat, Seat, devices, makers, planners, reapers};
use crate::simulated_worlds::{
    Extents, FEW, GUESTS, LANES, MANY, ONE, entry, events, most_of, opened, step, taken_by,
};
use crate::tasks::{Task, Turn};
use crate::telling::tell;
use nv_model::Act;
use nv_model::limits::TAGS;
use nv_world::World;
use nv_world_model::{Event, Logged};
use std::alloc::Global;
use std::process::Abort;
use std::sync::Wait;
use std::test::Fail;
use std::time::Clock;

/// How many turns in a row a planner, and the physical controller on a lane, may have without an event.
const LOOKS: u32 = 200;

const PASSES: u32 = 140_000;

/// How many simulations there are, one a seed, where guests have one extent, and of each kind where they have several.
const SIMULATIONS: u64 = 8;

const SIMULATIONS_APART: u64 = 4;

/// How many turns a simulation has, how many of them belong to a phase, and how many phases there are before the worlds are shared anew.
const TURNS: u32 = 60_000;

const PHASE: u32 = 2_000;

const PHASES: u32 = 7;

/// After how many turns notes are compared with the world.
const CHECKED: u32 = 61;

/// How many turns workers have alone until all commands have run out.
const LAST_TURNS: u32 = 10_000;

/// An admin command of a guest was answered, or a command of its was taken on a lane.
#[derive(Clone, Copy)]
enum Move {
    Admin(u8),
    Take(u8, u8),
}

/// A world with its guests and workers.
#[derive(Drop)]
struct Simulation<'a> {
    alloc: Global,
    // what each guest was given
    givens: &'a [GrantCopy],
    locked: Locked,
    // whether guests keep to their shares
    shares: bool,
    // how many extents the guest has that has most
    most: u32,
    guests: Vec<Guest>,
    planners: Vec<Seat<GuestPlanner>>,
    // where they make their plans, in their order
    makers: Vec<MakerSeat<'a>>,
    devices: Vec<Seat<LaneDevice>>,
    reapers: Vec<Seat<LaneReaper>>,
    // whose command each tag of a lane had last, lane by lane
    owners: Vec<u8>,
    // what has ended and is not posted
    ended: Ended,
    met: Met,
}

impl<'a> Simulation<'a> {
    // A world without workers.
    fn new(
        alloc: Global,
        extents: &Extents,
        givens: &'a [GrantCopy],
        shares: bool,
    ) -> Result<Self, Fail> {
        let world = opened(alloc, extents)?;
        let notes = notes_of(&world, shares);
        let mut guests = Vec::new(alloc);
        for _guest in 0..GUESTS {
            guests.push(Guest::new(*extents != ONE))?;
        }
        Ok(Simulation {
            alloc,
            givens,
            locked: Locked { world, notes },
            shares,
            most: most_of(extents),
            guests,
            planners: Vec::new(alloc),
            makers: Vec::new(alloc),
            devices: Vec::new(alloc),
            reapers: Vec::new(alloc),
            owners: vec![in alloc; 0; usize::from(LANES) * usize::from(TAGS)]?,
            ended: Ended::new(),
            met: Met::new(),
        })
    }

    // Workers start on the world as it is, in the place of others, after somebody else has taken commands.
    fn share(&mut self, chance: &mut Chance) -> Result<(), Fail> {
        for guest in 0..GUESTS {
            for lane in 0..LANES {
                take(
                    &mut self.locked.world,
                    self.alloc,
                    guest,
                    lane,
                    chance.below(4),
                );
                self.note_owners(lane)?;
            }
        }
        self.locked.notes = notes_of(&self.locked.world, self.shares);
        self.ended.share(&self.locked.notes);
        self.sit_down()
    }

    // Workers that have polled nothing yet.
    fn sit_down(&mut self) -> Result<(), Fail> {
        let used = self.locked.notes.served();
        self.planners = planners(self.alloc)?;
        self.makers = makers(self.alloc, self.givens)?;
        self.devices = devices(self.alloc, &used)?;
        self.reapers = reapers(self.alloc)?;
        Ok(())
    }

    // Rings for all whom an event concerns.
    fn ring(&mut self, concern: Concern) {
        for seat in self.planners.iter_mut() {
            seat.is_rung |= concern.planners & bit(seat.worker.guest) != 0;
        }
        for seat in self.devices.iter_mut() {
            seat.is_rung |= concern.devices & bit(seat.worker.lane) != 0;
        }
        for seat in self.reapers.iter_mut() {
            seat.is_rung |= concern.reapers & bit(seat.worker.lane) != 0;
        }
    }

    // The event that a worker made after so many, where it made one.
    fn made(&self, before: usize) -> Option<&Logged> {
        entry(&self.locked.world, before)
    }

    // A guest's act; whether those that should be notified were.
    fn act(&mut self, guest: u8, act: Act) -> Result<bool, Fail> {
        let errand = Errand::of(&act);
        let is_store = is_store(&act);
        self.met.resets = self.met.resets.saturating_add(u64::from(is_reset(&act)));
        tell(&mut self.locked.world, self.alloc, guest, act)?;
        let concern = self.locked.concern(guest, errand);
        self.ring(concern);
        Ok(!is_store || self.has_rung(guest, concern))
    }

    // Whether a guest's planners were notified after an event that may have brought another entry to the front, where a lane has tags free, but
    // fewer than some command takes.
    fn has_rung(&self, guest: u8, told: Concern) -> bool {
        for lane in 0..LANES {
            let free = self.locked.notes.used(lane).count_zeros();
            if 0 < free && free < self.most {
                return told.planners & bit(guest) != 0;
            }
        }
        true
    }

    // What a guest does next, by chance; whether those that should be notified were.
    fn guest_turn(&mut self, guest: u8, chance: &mut Chance, heeds: bool) -> Result<bool, Fail> {
        let Some(seat) = self.guests.get_mut(usize::from(guest)) else {
            return Ok(false);
        };
        let acts = seat.acts(self.alloc, chance, heeds)?;
        let mut is_right = true;
        for act in acts {
            is_right &= self.act(guest, act)?;
        }
        Ok(is_right)
    }

    // A turn of a lane's reaper; whether it made what it should, and notified those it should.
    fn reaper_turn(&mut self, lane: u8, is_late: bool) -> bool {
        let before = events(&self.locked.world);
        let notes = self.locked.notes;
        let Some(seat) = self.reapers.get_mut(usize::from(lane)) else {
            return false;
        };
        if !seat.looks(is_late) {
            return has_nothing_to_reap(&self.locked.world, lane);
        }
        if seat.waits {
            self.met.woken = self.met.woken.saturating_add(u64::from(seat.is_rung));
            seat.worker.thorough = !seat.is_rung;
        }
        seat.is_rung = false;
        let concern = seat.worker.turn(&mut self.locked, self.alloc);
        seat.waits = concern.is_none();
        let Some(told) = concern else {
            return has_nothing_to_reap(&self.locked.world, lane);
        };
        self.ring(told);
        self.ended.follow(&notes, entry(&self.locked.world, before));
        let Some(logged) = self.made(before) else {
            return false;
        };
        if !was_due(logged) {
            return false;
        }
        match &logged.event {
            Event::Post(lane, tag) => {
                let owner = self.owner(*lane, *tag);
                told.guests == bit(owner) && self.has_rung(owner, told)
            }
            _ => told.guests == 0,
        }
    }

    // Whose command a tag had last.
    fn owner(&self, lane: u8, tag: u8) -> u8 {
        self.owners
            .get(place_of(lane, tag))
            .copied()
            .unwrap_or(GUESTS)
    }

    // Notes whose commands those of a lane are that were taken and not planned.
    fn note_owners(&mut self, lane: u8) -> Result<(), Fail> {
        for tag in 0..TAGS {
            if let Some(guest) = taken_by(&self.locked.world, self.alloc, lane, tag)? {
                note_owner(&mut self.owners, lane, tag, guest);
            }
        }
        Ok(())
    }

    // Whether a lane has nothing for its physical controller. One time in eight all units are asked for.
    fn has_nothing_to_move(&self, lane: u8) -> bool {
        let world = &self.locked.world;
        let units = if events(world) % 8 == 0 {
            ALL_UNITS
        } else {
            FEW_UNITS
        };
        has_nothing_to_move(world, lane, units)
    }

    // Turns of the physical controller on a lane until it has made an event or has none to make; whether they came to an end, and it made what it
    // should.
    fn device_turn(&mut self, lane: u8, is_late: bool) -> bool {
        if !self.device_polls(lane, is_late) {
            return self.has_nothing_to_move(lane);
        }
        let before = events(&self.locked.world);
        for _ in 0..PASSES {
            let Some(told) = self.device_pass(lane) else {
                return self.has_nothing_to_move(lane);
            };
            if events(&self.locked.world) != before {
                self.ring(told);
                return self.was_due(before);
            }
        }
        false
    }

    // Whether the physical controller polls a lane now.
    fn device_polls(&mut self, lane: u8, is_late: bool) -> bool {
        let Some(seat) = self.devices.get_mut(usize::from(lane)) else {
            return false;
        };
        if !seat.looks(is_late) {
            return false;
        }
        if seat.waits {
            self.met.woken = self.met.woken.saturating_add(u64::from(seat.is_rung));
            if !seat.is_rung {
                seat.worker.look_everywhere();
            }
        }
        seat.is_rung = false;
        true
    }

    // One of its turns: whom it concerns, or `None` where there was nothing to do.
    fn device_pass(&mut self, lane: u8) -> Option<Concern> {
        let seat = self.devices.get_mut(usize::from(lane))?;
        let concern = seat.worker.turn(&mut self.locked, self.alloc);
        seat.waits = concern.is_none();
        concern
    }

    // Whether the event that was made after so many was due.
    fn was_due(&self, before: usize) -> bool {
        match self.made(before) {
            Some(logged) => was_due(logged),
            None => false,
        }
    }

    // Turns of a planner until it has made an event or has none to make; whether they came to an end, and it made what it should and notified
    // those it should.
    fn planner_turn<R: Wait + Clock>(
        &mut self,
        rt: &R,
        at: usize,
        is_late: bool,
        is_starved: bool,
    ) -> Result<bool, Fail> {
        let before = events(&self.locked.world);
        let Some(seat) = self.planners.get_mut(at) else {
            return Ok(false);
        };
        let guest = seat.worker.guest;
        let lane = seat.worker.lane;
        if !seat.looks(is_late) {
            return Ok(has_nothing_to_plan(&self.locked, self.alloc, guest, lane)?);
        }
        if seat.waits {
            self.met.woken = self.met.woken.saturating_add(u64::from(seat.is_rung));
        }
        seat.is_rung = false;
        for _ in 0..LOOKS {
            let Some(told) = self.planner_step(rt, at, is_starved) else {
                self.met.hold_back(&self.locked.notes, guest, lane);
                return Ok(has_nothing_to_plan(&self.locked, self.alloc, guest, lane)?);
            };
            self.ring(told);
            if events(&self.locked.world) != before {
                return self.has_told(before, told);
            }
        }
        Ok(false)
    }

    // Whether the event after so many was due, and the guest was notified of it where it is an admin command's answer. Whose commands were taken is
    // noted.
    fn has_told(&mut self, before: usize, told: Concern) -> Result<bool, Fail> {
        self.ended
            .follow(&self.locked.notes, entry(&self.locked.world, before));
        if !self.was_due(before) {
            return Ok(false);
        }
        match self.moved(before) {
            Some(Move::Admin(guest)) => {
                Ok(told.guests == bit(guest) && self.has_rung(guest, told))
            }
            Some(Move::Take(guest, lane)) => {
                self.met.passed = self
                    .met
                    .passed
                    .saturating_add(u64::from(told.planners != 0));
                self.note_owners(lane)?;
                let is_within = is_within_share(&self.locked, guest, lane);
                Ok(is_within && told.guests == 0 && self.has_rung(guest, told))
            }
            None => Ok(told.guests == 0),
        }
    }

    // What a planner did by the event after so many, where its guest may have to be notified.
    fn moved(&self, before: usize) -> Option<Move> {
        match &self.made(before)?.event {
            Event::Admin(guest) => Some(Move::Admin(*guest)),
            Event::Take(guest, _queue, lane) => Some(Move::Take(*guest, *lane)),
            _ => None,
        }
    }

    // A turn of a planner, which goes on with what comes of a job or of what was read for it: whom that concerns, or `None` where there was nothing
    // to do.
    fn planner_step<R: Wait + Clock>(
        &mut self,
        rt: &R,
        at: usize,
        is_starved: bool,
    ) -> Option<Concern> {
        let seat = self.planners.get_mut(at)?;
        let making = self.makers.get_mut(at)?;
        let prepared = match making.read.take() {
            Some((tag, _)) if is_starved => Prepared::NoMemory(tag),
            Some((tag, read)) => {
                self.met.fed = self.met.fed.saturating_add(1);
                making.maker.feed(rt, tag, read)
            }
            None => {
                let turn = seat.worker.turn(&mut self.locked, self.alloc);
                seat.waits = matches!(turn, Turn::Nothing);
                match turn {
                    Turn::Job(job) if is_starved => Prepared::NoMemory(job.tag),
                    Turn::Job(job) => making.maker.plan(rt, job),
                    Turn::Read(tag, read) => {
                        making.read = Some((tag, read));
                        return Some(Concern::nobody());
                    }
                    Turn::Done(concern) => return Some(concern),
                    Turn::Nothing => return None,
                }
            }
        };
        if let Prepared::Plan(plan) = &prepared {
            self.ended.see(plan);
            self.met.see(plan);
        }
        go_on(&mut seat.worker, &mut self.locked, prepared)
    }

    // Counts lanes without a free tag, and with few.
    fn look_at_lanes(&mut self) {
        for lane in 0..LANES {
            match self.locked.notes.used(lane).count_zeros() {
                0 => self.met.full = self.met.full.saturating_add(1),
                1..=7 => self.met.short = self.met.short.saturating_add(1),
                _ => {}
            }
        }
    }

    // Whether notes say of the tags what the world says of them, and of the queues what its log says.
    fn is_well_noted(&self) -> bool {
        let anew = Notes::of(&self.locked.world);
        note_the_same(&self.locked.notes, &anew)
    }

    // One turn of somebody, by chance; whether it was as it should be. In one phase of four the physical controller has no turns, in one the
    // reapers have none, and in one no guest reports that it has read completions. One plan in sixteen finds no memory.
    fn turn<R: Wait + Clock>(
        &mut self,
        rt: &R,
        number: u32,
        chance: &mut Chance,
    ) -> Result<bool, Fail> {
        let phase = number / PHASE % 4;
        let is_late = chance.below(8) == 0;
        let guest = chance.below(u64::from(GUESTS)) as u8;
        let lane = chance.below(u64::from(LANES)) as u8;
        let is_right = match chance.below(8) {
            0 | 1 => self.guest_turn(guest, chance, phase != 3)?,
            2 | 3 | 4 => {
                let is_starved = chance.below(16) == 0;
                self.planner_turn(rt, planner_at(guest, lane), is_late, is_starved)?
            }
            5 | 6 => phase == 1 || self.device_turn(lane, is_late),
            _ => phase == 2 || self.reaper_turn(lane, is_late),
        };
        Ok(is_right && self.ended.is_noted(&self.locked.notes))
    }

    // One turn of some worker, by chance; whether it was what it should be.
    fn workers_turn<R: Wait + Clock>(&mut self, rt: &R, chance: &mut Chance) -> Result<bool, Fail> {
        let guest = chance.below(u64::from(GUESTS)) as u8;
        let lane = chance.below(u64::from(LANES)) as u8;
        let is_right = match chance.below(6) {
            0 | 1 | 2 => self.planner_turn(rt, planner_at(guest, lane), true, false)?,
            3 | 4 => self.device_turn(lane, true),
            _ => self.reaper_turn(lane, true),
        };
        Ok(is_right && self.ended.is_noted(&self.locked.notes))
    }
}

// What there is to be noted of a world, where guests keep to their shares or don't.
fn notes_of(world: &World, shares: bool) -> Notes {
    let notes = Notes::of(world);
    if shares {
        notes
    } else {
        notes.without_shares()
    }
}

// Whether guests keep to their shares in the simulation of a seed.
fn has_shares(seed: u64) -> bool {
    seed % 2 == 0
}

// Where the planner of a guest on a lane sits.
fn planner_at(guest: u8, lane: u8) -> usize {
    usize::from(guest) * usize::from(LANES) + usize::from(lane)
}

// Goes on with what came of a job, as a planner does that took the lock for it: whom that concerns. `None` where there was no memory.
pub(crate) fn go_on(
    planner: &mut GuestPlanner,
    locked: &mut Locked,
    prepared: Prepared,
) -> Option<Concern> {
    planner.task = match prepared {
        Prepared::Wanted(tag, addr, len) => Task::Read(tag, addr, len),
        Prepared::NoMemory(tag) => Task::GiveUp(tag),
        Prepared::Again(tag) => Task::Plan(tag),
        Prepared::Plan(plan) => return planner.submit(locked, plan),
    };
    Some(Concern::nobody())
}

// So many commands of a guest are taken in a world, where there are as many.
fn take(world: &mut World, alloc: Global, guest: u8, lane: u8, count: u64) {
    for _ in 0..count {
        step(world, alloc, Event::Take(guest, 1, lane));
    }
}

// Notes whose command a tag has.
fn note_owner(owners: &mut [u8], lane: u8, tag: u8, guest: u8) {
    if let Some(owner) = owners.get_mut(place_of(lane, tag)) {
        *owner = guest;
    }
}

// Where the owner of a lane's tag is stored.
fn place_of(lane: u8, tag: u8) -> usize {
    usize::from(lane) * usize::from(TAGS) + usize::from(tag)
}

// What guests with these extents are given.
fn givens<R: Wait>(rt: &R, alloc: Global, extents: &Extents) -> Result<Vec<GrantCopy>, Fail> {
    let shared = Shared::new(opened(alloc, extents)?);
    let mut givens = Vec::new(alloc);
    for guest in 0..GUESTS {
        if let Some(given) = GrantCopy::of(rt, alloc, &shared, guest)? {
            givens.push(given)?;
        }
    }
    Ok(givens)
}

// So many turns of a simulation; the test ends where a worker did something else than it should.
fn simulate<R: Abort + Wait + Clock>(
    rt: &R,
    simulation: &mut Simulation,
    seed: u64,
    turns: u32,
) -> Result<(), Fail> {
    let mut chance = Chance::new(seed);
    for number in 0..turns {
        if number % (PHASE * PHASES) == 0 {
            simulation.share(&mut chance)?;
        }
        let is_right = simulation.turn(rt, number, &mut chance)?;
        expect_right(rt, is_right, number, events(&simulation.locked.world));
        if number % CHECKED == 0 {
            expect_noted(rt, number, simulation);
        }
        simulation.look_at_lanes();
    }
    Ok(())
}

// A turn was as it should be.
fn expect_right(rt: &impl Abort, is_right: bool, number: u32, events: usize) {
    assert!(rt; is_right, "turn {number} behind {events} events");
}

// Notes are what they should be after a turn.
fn expect_noted(rt: &impl Abort, number: u32, simulation: &Simulation) {
    let is_noted = simulation.is_well_noted() && are_sizes_noted(&simulation.locked);
    assert!(rt; is_noted, "notes of turn {number}");
}

// Ends the test where no lane was ever full, or no command held back where guests keep to their shares, nobody was ever notified, no plan was fed, or a plan
// had several parts.
fn expect_met(rt: &impl Abort, simulation: &Simulation) {
    let met = &simulation.met;
    let ran_out = if simulation.shares {
        met.held_back
    } else {
        met.full
    };
    assert!(rt; ran_out > 0 && met.woken > 0 && met.fed > 0);
    assert!(rt; events(&simulation.locked.world) > 10_000);
    assert!(rt; met.parted == 0);
}

#[test]
fn workers_do_all_that_is_due(rt: HostRuntime) -> Result<(), Fail> {
    let givens = givens(&rt, rt.alloc(), &ONE)?;
    for seed in 1..=SIMULATIONS {
        simulate_one(&rt, rt.alloc(), &givens, seed)?;
    }
    Ok(())
}

// A simulation of guests that have one extent; the test ends where it did not meet with what it is for.
fn simulate_one<R: Abort + Wait + Clock>(
    rt: &R,
    alloc: Global,
    givens: &[GrantCopy],
    seed: u64,
) -> Result<(), Fail> {
    let mut simulation = Simulation::new(alloc, &ONE, givens, has_shares(seed))?;
    simulate(rt, &mut simulation, seed, TURNS)?;
    expect_met(rt, &simulation);
    Ok(())
}

// Goes on counting what simulations meet with.
fn simulate_more<R: Abort + Wait + Clock>(
    rt: &R,
    alloc: Global,
    extents: &Extents,
    givens: &[GrantCopy],
    seed: u64,
    met: &mut Met,
) -> Result<(), Fail> {
    let mut simulation = Simulation::new(alloc, extents, givens, has_shares(seed))?;
    simulation.met = *met;
    simulate(rt, &mut simulation, seed, TURNS)?;
    *met = simulation.met;
    Ok(())
}

// Ends the test where a worker did something else than it should, or where the simulations did not meet with all that they are for.
fn simulate_apart<R: Abort + Wait + Clock>(
    rt: &R,
    alloc: Global,
    extents: &Extents,
) -> Result<(), Fail> {
    let givens = givens(rt, alloc, extents)?;
    let mut met = Met::new();
    for seed in 1..=SIMULATIONS_APART {
        simulate_more(rt, alloc, extents, &givens, seed, &mut met)?;
    }
    met.expect_all(rt);
    Ok(())
}

#[test]
fn workers_do_all_that_is_due_where_commands_take_several_tags(
    rt: HostRuntime,
) -> Result<(), Fail> {
    simulate_apart(&rt, rt.alloc(), &FEW)
}

#[test]
fn workers_do_all_that_is_due_where_tags_are_short(rt: HostRuntime) -> Result<(), Fail> {
    simulate_apart(&rt, rt.alloc(), &MANY)
}

// Guests reset their controllers, and workers get turns alone until all commands have run out: then no tag is noted as taken, and none as ended.
fn run_out<R: Abort + Wait + Clock>(
    rt: &R,
    alloc: Global,
    extents: &Extents,
    seed: u64,
) -> Result<(), Fail> {
    let givens = givens(rt, alloc, extents)?;
    let mut simulation = Simulation::new(alloc, extents, &givens, has_shares(seed))?;
    simulate(rt, &mut simulation, seed, PHASE * 4)?;
    for guest in 0..GUESTS {
        let reset = Act::RegWrite {
            offset: 0x14,
            value: 0,
        };
        simulation.act(guest, reset)?;
    }
    work_to_the_end(rt, &mut simulation, seed)?;
    expect_nothing(rt, &simulation.locked.notes);
    Ok(())
}

// Workers get turns alone.
fn work_to_the_end<R: Abort + Wait + Clock>(
    rt: &R,
    simulation: &mut Simulation,
    seed: u64,
) -> Result<(), Fail> {
    let mut chance = Chance::new(seed);
    for number in 0..LAST_TURNS {
        let is_right = simulation.workers_turn(rt, &mut chance)?;
        expect_right(rt, is_right, number, events(&simulation.locked.world));
    }
    Ok(())
}

// No tag is noted as taken, and none as ended.
fn expect_nothing(rt: &impl Abort, notes: &Notes) {
    for lane in 0..LANES {
        assert!(rt; notes.used(lane) == 0);
    }
    assert!(rt; notes.with_ended() == 0);
}

#[test]
fn nothing_is_noted_where_all_commands_have_run_out(rt: HostRuntime) -> Result<(), Fail> {
    for extents in [ONE, FEW, MANY] {
        for seed in 1..=2 {
            run_out(&rt, rt.alloc(), &extents, seed)?;
        }
    }
    Ok(())
}
