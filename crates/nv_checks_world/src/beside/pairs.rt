//! Random runs of both guests, each beside the runs of each guest alone.

use crate::beside::bench::{HONEST, HOSTILE};
use crate::beside::busy::Busy;
use crate::beside::hostile;
use crate::beside::runs::{Runs, Trial, attempt};
use nv_bringup::Random;
use std::process::Abort;

/// How many seeds a test has, from its first on.
const SEEDS: u32 = 50;

/// How many stretches a run has, and how many turns each stretch has; about half of the turns are the honest guest's. Memory and blocks are
/// compared after each stretch, replies after each event.
const STRETCHES: u32 = 16;

const TURNS: u32 = 50;

/// The fewest commands of the honest guest that end in a run.
const FEWEST: u16 = 4;

/// What came of a run, or of several: how many commands of the honest guest ended, how many of them well, and how many had another tag than in the
/// run of that guest alone; and how many commands of the other guest were taken.
#[derive(Clone, Copy)]
struct Tally {
    ended: u32,
    succeeded: u32,
    renumbered: u32,
    others: u32,
}

const NOTHING: Tally = Tally {
    ended: 0,
    succeeded: 0,
    renumbered: 0,
    others: 0,
};

/// The run of a seed, and what came of it.
#[derive(Clone, Copy)]
struct Seeded {
    seed: u32,
    tally: Tally,
}

impl Trial for Seeded {
    // The test ends where a guest is served otherwise than alone, or the honest guest's commands don't end.
    fn play<R: Abort>(&mut self, rt: &R, runs: &mut Runs) {
        let mut random = Random::new(u64::from(self.seed));
        let mut busy = Busy::new();
        runs.bring_up(HONEST);
        runs.bring_up(HOSTILE);
        for _ in 0..STRETCHES {
            stretch(runs, &mut busy, &mut random);
            runs.expect_alike(rt, "a random run");
        }
        busy.drain(runs, &mut random);
        runs.expect_alike(rt, "a random run");
        assert!(rt; busy.is_idle() && busy.ended >= FEWEST, "{}", self.seed);
        self.tally = Tally {
            ended: u32::from(busy.ended),
            succeeded: u32::from(busy.succeeded),
            renumbered: runs.tags.renumbered,
            others: runs.tags.others,
        };
    }
}

// The turns of a stretch.
fn stretch(runs: &mut Runs, busy: &mut Busy, random: &mut Random) {
    for _ in 0..TURNS {
        if random.once_in(2) {
            busy.turn(runs, random);
        } else {
            hostile::turn(runs, random);
        }
    }
}

// The same of a run more.
fn sum(one: Tally, other: Tally) -> Tally {
    Tally {
        ended: one.ended.wrapping_add(other.ended),
        succeeded: one.succeeded.wrapping_add(other.succeeded),
        renumbered: one.renumbered.wrapping_add(other.renumbered),
        others: one.others.wrapping_add(other.others),
    }
}

// Ends the test where a run of these seeds differs from those alone, or where too little happened in them.
fn expect(rt: &(impl Abort + AllocGlobal), first: u32) {
    let mut all = NOTHING;
    for place in 0..SEEDS {
        let seed = first.wrapping_add(place);
        let tally = NOTHING;
        let mut seeded = Seeded { seed, tally };
        attempt(rt, seed % 2 == 1, &mut seeded);
        all = sum(all, seeded.tally);
    }
    assert!(rt;
        all.ended >= 500 && all.succeeded >= 400 && all.renumbered >= 150 && all.others >= 400,
        "{} ended, {} of them well, {} with another tag, beside {}",
        all.ended,
        all.succeeded,
        all.renumbered,
        all.others
    );
}

#[test]
fn random_runs_of_seeds_1_to_50(rt: HostRuntime) {
    expect(&rt, 1);
}

#[test]
fn random_runs_of_seeds_51_to_100(rt: HostRuntime) {
    expect(&rt, 51);
}

#[test]
fn random_runs_of_seeds_101_to_150(rt: HostRuntime) {
    expect(&rt, 101);
}

#[test]
fn random_runs_of_seeds_151_to_200(rt: HostRuntime) {
    expect(&rt, 151);
}
