//! A log, played on a host's mediator beside a drive and on a mediator of the whole world: two guests, two lanes, and events by what is due, in a
//! random order.

use crate::commands::{change_page, form, sane, store_lists};
use crate::counts::Kind;
use crate::desk::Form;
use crate::guests::Guest;
use crate::pair::Pair;
use crate::two_guests::{AREA, BLOCKS, FIRST_BLOCK, GUEST_PAGES, GUESTS, opened};
use nv_bringup::Random;
use nv_entry::Status;
use nv_model::Act;
use nv_model::limits::{LANE_PAGES, RING_SLOTS, TAGS};
use nv_world_model::Event;
use std::process::Abort;

/// How many lanes there are.
const LANES: u8 = 2;

/// How many turns a run has, and how many it may have until nothing is left to do.
const TURNS: u32 = 24_000;

const LAST_TURNS: u32 = 40_000;

/// After how many turns the memory of guests and the rings are compared.
const INTERVAL: u32 = 4_000;

/// A run: both worlds, the guests, and how many entries the drive has taken of each lane.
#[derive(Drop)]
struct Run {
    pair: Pair,
    guests: [Guest; GUESTS as usize],
    random: Random,
    taken: [u32; LANES as usize],
}

impl Run {
    // A turn, in which a guest may do something.
    fn turn(&mut self) {
        match self.random.below(20) {
            0..=3 => self.enters(),
            4 => self.looks(),
            _ => self.works(),
        }
    }

    // A turn of all but new commands.
    fn works(&mut self) {
        let lane = self.random.byte() % LANES;
        match self.random.below(16) {
            0 => self.acknowledges(),
            1 | 2 => self.takes(lane),
            3..=5 => self.goes_on(lane),
            6 => self.drive_takes(lane),
            7..=10 => self.moves(lane),
            11 => self.ends(lane),
            12 | 13 => self.reaps(lane),
            _ => self.posts(lane),
        }
    }

    // One of the guests.
    fn guest(&mut self) -> &mut Guest {
        let number = self.random.byte() % GUESTS;
        &mut self.guests[usize::from(number)]
    }

    // A guest puts a command into its queue, or changes its data where there is no room.
    fn enters(&mut self) {
        let entry = sane(&mut self.random);
        let form = form(&mut self.random);
        let number = self.random.byte() % GUESTS;
        let guest = &mut self.guests[usize::from(number)];
        if guest.has_room() && self.random.once_in(2) {
            guest.enter(&mut self.pair, &entry, form);
        } else {
            change_page(&mut self.pair, number, &mut self.random);
        }
    }

    // A guest loads bytes, reads a register, or the drive keeps a block.
    fn looks(&mut self) {
        let number = self.guest().number;
        let addr = 0x1_2000 + 64 * u64::from(self.random.below(300));
        let event = match self.random.below(4) {
            0 => Event::Guest(number, Act::RegRead { offset: 0x1c }),
            1 => Event::Keep(FIRST_BLOCK + u64::from(self.random.below(120))),
            _ => Event::Guest(number, Act::Load { addr, len: 300 }),
        };
        let form = form(&mut self.random);
        self.pair.play(&event, form);
    }

    // A guest acknowledges completions.
    fn acknowledges(&mut self) {
        let number = self.random.byte() % GUESTS;
        self.guests[usize::from(number)].acknowledge(&mut self.pair);
    }

    // A command is taken.
    fn takes(&mut self, lane: u8) {
        let number = self.random.byte() % GUESTS;
        self.if_due(&Event::Take(number, 1, lane));
    }

    // A command that was taken goes on.
    fn goes_on(&mut self, lane: u8) {
        let first = self.random.byte();
        for place in 0..TAGS {
            let tag = first.wrapping_add(place) % TAGS;
            if self.pair.mediator.is_waiting(lane, tag) {
                if let Some(event) = self.pair.desk.wanted(self.pair.alloc, lane, tag) {
                    let form = form(&mut self.random);
                    self.pair.play(&event, form);
                }
                return;
            }
        }
    }

    // The drive takes an entry.
    fn drive_takes(&mut self, lane: u8) {
        if self.if_due(&Event::DevTake(lane)) {
            if let Some(taken) = self.taken.get_mut(usize::from(lane)) {
                *taken = taken.saturating_add(1);
            }
        }
    }

    // The drive moves a unit of one of its commands: any, or the first that is left.
    fn moves(&mut self, lane: u8) {
        let first = self.random.byte();
        for place in 0..TAGS {
            let slot = first.wrapping_add(place) % TAGS;
            if let Some(unit) = self.pair.mediator.next_unit(lane, slot) {
                let other = u64::from(self.random.below(16));
                if !self.if_due(&Event::DevMove(lane, slot, other)) {
                    self.if_due(&Event::DevMove(lane, slot, unit));
                }
                return;
            }
        }
    }

    // The drive completes one of its commands, or fails one.
    fn ends(&mut self, lane: u8) {
        let first = self.random.byte();
        if self.random.once_in(32) {
            let status = Status::new(2, 0x81, false);
            self.pair.plays(&Event::DevFail(lane, first % TAGS, status));
        }
        for place in 0..TAGS {
            let slot = first.wrapping_add(place) % TAGS;
            if self.if_due(&Event::DevPost(lane, slot)) {
                return;
            }
        }
    }

    // A completion of the drive is read.
    fn reaps(&mut self, lane: u8) {
        self.if_due(&Event::Reap(lane));
    }

    // A command is completed for its guest.
    fn posts(&mut self, lane: u8) {
        let first = self.random.byte();
        for place in 0..TAGS {
            let tag = first.wrapping_add(place) % TAGS;
            if let Some(holder) = self.pair.mediator.holder(lane, tag) {
                if self.if_due(&Event::Post(lane, tag)) {
                    if let Some(guest) = self.guests.get_mut(usize::from(holder.guest)) {
                        guest.complete();
                    }
                    return;
                }
            }
        }
    }

    // Carries out an event, if it is due. Whether it was done.
    fn if_due(&mut self, event: &Event) -> bool {
        self.pair.due(event) && self.pair.plays(event)
    }

    // Whether all commands were completed.
    fn is_done(&self) -> bool {
        self.guests.iter().all(|guest| guest.is_done())
    }

    // Whether the guests' memory and the rings of the lanes are the same.
    fn is_same(&self) -> bool {
        self.pair.are_same_pages(0, GUEST_PAGES)
            && (0..LANES).all(|lane| {
                let from = AREA + 4096 * LANE_PAGES * u64::from(lane);
                self.pair.are_same_pages(from, 4)
            })
    }
}

// Plays the turns of a run, and then until nothing is left to do.
fn plays(rt: &impl Abort, run: &mut Run) {
    for turn in 0..TURNS {
        run.turn();
        if turn % INTERVAL == 0 {
            assert!(rt; run.is_same(), "memory differs");
        }
    }
    for _turn in 0..LAST_TURNS {
        if run.is_done() {
            return;
        }
        run.works();
    }
}

// Ends the test where a run of this seed differs, or where too little happened in it.
fn expect_alike(rt: &(impl Abort + AllocGlobal), seed: u64) {
    let pair = opened(rt.alloc(), LANES).expect(rt, "a mediator and a desk");
    let mut run = Run {
        pair,
        guests: [Guest::new(0), Guest::new(1)],
        random: Random::new(seed),
        taken: [0; LANES as usize],
    };
    for guest in run.guests {
        guest.bring_up(&mut run.pair);
        store_lists(&mut run.pair, guest.number);
    }
    plays(rt, &mut run);
    expect_end(rt, &run);
}

// Ends the test where a run has not ended as it should.
fn expect_end(rt: &impl Abort, run: &Run) {
    let pair = &run.pair;
    assert!(rt; !pair.lost && pair.differs.is_none(), "an event differs");
    assert!(rt;
        pair.again.is_none() && pair.own_again() == 0,
        "a byte is read again"
    );
    assert!(rt; run.is_done(), "commands are left");
    assert!(rt; run.is_same(), "memory differs");
    assert!(rt;
        pair.are_same_pages(AREA, LANE_PAGES * 2),
        "the area differs"
    );
    assert!(rt;
        pair.are_same_blocks(FIRST_BLOCK, BLOCKS),
        "the disk differs"
    );
    let wraps = run
        .taken
        .iter()
        .all(|taken| *taken > 2 * u32::from(RING_SLOTS));
    assert!(rt; wraps, "a ring has not wrapped");
    assert!(rt; pair.counts.done_of(Kind::Post) >= 300, "few commands");
    assert!(rt; pair.desk.plans().fewest() >= 30, "few plans of a kind");
}

#[test]
fn a_mediator_beside_a_drive_is_the_world(rt: HostRuntime) {
    expect_alike(&rt, 3);
}
