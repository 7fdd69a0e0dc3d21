//! One fetch: within one call of a host's mediator no byte of a guest's memory is read twice, and none that the call wrote is read. Guests do what they
//! like, and each kind of call has many events.
//!
//! One exception is known, and counted exactly: a Write or Compare that goes by the bounce pages copies a byte as often as its list names it.

use crate::commands::{form, sane, store_lists};
use crate::desk::Form;
use crate::guests::Guest;
use crate::pair::Pair;
use crate::two_guests::{AREA, BLOCKS, FIRST_BLOCK, GUEST_PAGES, GUESTS, opened};
use crate::wild::WILD;
use nv_bringup::{
    ADMIN_SUBMISSIONS, ADMIN_TAIL, CC, DISABLED, HEAD, Random, SUBMISSIONS, TAIL, Wild, bytes_of,
};
use nv_entry::Status;
use nv_model::Act;
use nv_model::limits::{LANE_PAGES, TAGS};
use nv_world_model::Event;
use std::process::Abort;

/// How many rounds there are. In each, every kind of call has at least one event. They take seconds in the optimised program; `rt try` checks each step, and
/// ends in its time with 1,500.
const ROUNDS: u32 = 100_000;

/// After how many rounds the guests' memory and the rings are compared.
const INTERVAL: u32 = 500;

/// The upper halves of the admin queues' addresses, in ASQ and ACQ. A guest that has written them can't begin anew before they are 0, since the bring-up
/// writes the lower halves alone.
const UPPER_HALVES: [u32; 2] = [0x2c, 0x34];

/// A run of guests that do what they like.
#[derive(Drop)]
struct Run {
    pair: Pair,
    random: Random,
}

impl Run {
    // A round: an event of each kind at least.
    fn round(&mut self) {
        let guest = self.random.byte() % GUESTS;
        self.stores(guest);
        self.enters(guest);
        self.enters(guest);
        self.looks(guest);
        self.administers(guest);
        for _time in 0..2 {
            self.takes();
        }
        self.gives_up();
        self.lists();
        self.submits(Form::Plain);
        self.submits(Form::Lent);
        self.drives();
        for _time in 0..2 {
            self.pair.plays(&Event::Reap(0));
            self.posts();
        }
        if self.random.once_in(200) {
            self.resets(guest);
        }
    }

    // Rows of lists are stored, and bytes anywhere.
    fn stores(&mut self, guest: u8) {
        let (at, low, high) = WILD.row(&mut self.random);
        self.pair.store_row(guest, at, low, high, Form::Plain);
        let (at, low, high) = WILD.row(&mut self.random);
        self.pair.store_row(guest, at, low, high, Form::Lent);
        if self.random.once_in(4) {
            let at = WILD.somewhere(&mut self.random);
            let low = u64::from(self.random.word());
            self.pair.store_row(guest, at, low, low << 32, Form::Lent);
        }
    }

    // A command is put into a slot, and doorbells are rung.
    fn enters(&mut self, guest: u8) {
        let slot = self.random.below(16);
        let entry = if self.random.once_in(2) {
            if self.random.once_in(6) {
                store_lists(&mut self.pair, guest);
            }
            sane(&mut self.random)
        } else {
            WILD.command(&mut self.random)
        };
        let addr = SUBMISSIONS + 64 * u64::from(slot);
        let form = form(&mut self.random);
        self.pair.store(guest, addr, &bytes_of(&entry), form);
        let rung = self.pair.ring(guest, TAIL, (slot % 16 + 1) % 16);
        if !rung {
            self.brings_up(guest);
        }
        let head = self.random.below(16);
        self.pair.ring(guest, HEAD, head);
        if self.random.once_in(8) {
            let doorbell = ADMIN_TAIL + 4 * (self.random.below(22) & 0x1f);
            let value = if self.random.once_in(4) {
                self.random.word()
            } else {
                self.random.below(18)
            };
            self.pair.ring(guest, doorbell, value);
        }
    }

    // Bytes are loaded, and registers read and written.
    fn looks(&mut self, guest: u8) {
        for form in [Form::Plain, Form::Lent] {
            let addr = WILD.somewhere(&mut self.random);
            let len = Wild::length(&mut self.random) & 0x1fff;
            self.pair
                .play(&Event::Guest(guest, Act::Load { addr, len }), form);
        }
        let offset = Wild::offset(&mut self.random);
        let value = WILD.value(&mut self.random);
        self.pair
            .plays(&Event::Guest(guest, Act::RegRead { offset }));
        if offset != CC || self.random.once_in(64) {
            self.pair.write(guest, offset, value);
        } else {
            self.pair.write(guest, 0x24, value);
        }
    }

    // An admin command is put into the queue, and one is carried out.
    fn administers(&mut self, guest: u8) {
        let slot = self.random.below(32);
        let identifier = u16::from(self.random.byte());
        let entry = WILD.admin_command(&mut self.random, identifier);
        let addr = ADMIN_SUBMISSIONS + 64 * u64::from(slot);
        self.pair.store(guest, addr, &bytes_of(&entry), Form::Plain);
        self.pair.ring(guest, ADMIN_TAIL, (slot % 32 + 1) % 32);
        self.pair.plays(&Event::Admin(guest));
        let head = self.random.below(32);
        self.pair.ring(guest, ADMIN_TAIL + 4, head);
    }

    // A command is taken, from a queue that has one if there is any.
    fn takes(&mut self) {
        let guest = self.random.byte() % GUESTS;
        for queue in 1..4 {
            let event = Event::Take(guest, queue, 0);
            if self.pair.due(&event) {
                self.pair.plays(&event);
                return;
            }
        }
        let queue = u16::from(self.random.byte() % 10);
        self.pair.plays(&Event::Take(guest, queue, 0));
    }

    // A tag whose command waits for its plan; any where there is none.
    fn waiting(&mut self) -> u8 {
        let first = self.random.byte();
        for place in 0..TAGS {
            let tag = first.wrapping_add(place) % TAGS;
            if self.pair.mediator.is_waiting(0, tag) {
                return tag;
            }
        }
        first % TAGS
    }

    // Parts of lists are read: those that are wanted, and others.
    fn lists(&mut self) {
        for _time in 0..4 {
            let tag = self.waiting();
            match self.pair.desk.wanted(self.pair.alloc, 0, tag) {
                Some(event) if matches!(event, Event::List(..)) => {
                    self.pair.plays(&event);
                }
                _ => self.lists_else(tag),
            }
        }
    }

    // Any bytes are read for a command, though nobody asked.
    fn lists_else(&mut self, tag: u8) {
        if self.random.once_in(4) {
            let addr = WILD.somewhere(&mut self.random);
            let len = Wild::length(&mut self.random);
            self.pair.plays(&Event::List(0, tag, addr, len));
        }
    }

    // A command goes on until it is submitted, or for a while.
    fn submits(&mut self, form: Form) {
        let tag = self.waiting();
        for _time in 0..8 {
            match self.pair.desk.wanted(self.pair.alloc, 0, tag) {
                Some(event) if matches!(event, Event::List(..)) => {
                    self.pair.plays(&event);
                }
                Some(event) => {
                    self.pair.play(&event, form);
                    return;
                }
                None => break,
            }
        }
        self.pair.play(&Event::Submit(0, tag), form);
    }

    // A command is given up, most often one that is not there.
    fn gives_up(&mut self) {
        let tag = if self.random.once_in(6) {
            self.waiting()
        } else {
            self.random.byte() % TAGS
        };
        self.pair.plays(&Event::GiveUp(0, tag));
    }

    // The drive goes on: it takes entries, moves units, completes commands, and fails some.
    fn drives(&mut self) {
        for _time in 0..3 {
            self.pair.plays(&Event::DevTake(0));
        }
        for _time in 0..4 {
            if let Some(slot) = self.held() {
                self.drive_ends(slot);
            }
        }
    }

    // A slot in which the drive holds a command.
    fn held(&mut self) -> Option<u8> {
        let first = self.random.byte();
        for place in 0..TAGS {
            let slot = first.wrapping_add(place) % TAGS;
            if self.pair.mediator.next_unit(0, slot).is_some()
                || self.pair.due(&Event::DevPost(0, slot))
            {
                return Some(slot);
            }
        }
        None
    }

    // The drive moves what is left of a command in a slot, and completes it. It fails some, and those that are long.
    fn drive_ends(&mut self, slot: u8) {
        let most = if self.random.once_in(16) { 0 } else { 32 };
        for _unit in 0..most {
            let Some(unit) = self.pair.mediator.next_unit(0, slot) else {
                self.pair.plays(&Event::DevPost(0, slot));
                return;
            };
            self.pair.plays(&Event::DevMove(0, slot, unit));
        }
        let status = Status::new(2, 0x81, false);
        self.pair.plays(&Event::DevFail(0, slot, status));
    }

    // A command is completed for its guest.
    fn posts(&mut self) {
        let first = self.random.byte();
        for place in 0..TAGS {
            let tag = first.wrapping_add(place) % TAGS;
            if self.pair.due(&Event::Post(0, tag)) {
                self.pair.plays(&Event::Post(0, tag));
                return;
            }
        }
        self.pair.plays(&Event::Post(0, first % TAGS));
    }

    // A guest whose queue is not there tries to make its queues, or begins anew.
    fn brings_up(&mut self, guest: u8) {
        match self.random.below(32) {
            0 => self.resets(guest),
            1..=8 => Guest::new(guest).bring_up(&mut self.pair),
            _ => {}
        }
    }

    // A guest turns its controller off, and makes its queues once more.
    fn resets(&mut self, guest: u8) {
        self.pair.write(guest, CC, DISABLED);
        for offset in UPPER_HALVES {
            self.pair.write(guest, offset, 0);
        }
        Guest::new(guest).bring_up(&mut self.pair);
        store_lists(&mut self.pair, guest);
    }

    // Whether the guests' memory and the rings are the same.
    fn is_same(&self) -> bool {
        self.pair.are_same_pages(0, GUEST_PAGES) && self.pair.are_same_pages(AREA, 4)
    }
}

// Plays the rounds of a run.
fn plays(rt: &impl Abort, run: &mut Run) {
    for guest in 0..GUESTS {
        run.resets(guest);
    }
    for round in 0..ROUNDS {
        run.round();
        if round % INTERVAL == 0 {
            assert!(rt; run.is_same(), "memory differs");
        }
    }
}

// Ends the test where a run has not ended as it should.
fn expect_end(rt: &impl Abort, pair: &Pair) {
    assert!(rt; !pair.lost && pair.differs.is_none(), "an event differs");
    assert!(rt;
        pair.again.is_none() && pair.own_again() == 0,
        "a byte is read again"
    );
    assert!(rt; pair.are_same_pages(0, GUEST_PAGES), "memory differs");
    assert!(rt; pair.are_same_pages(AREA, LANE_PAGES), "the area differs");
    assert!(rt;
        pair.are_same_blocks(FIRST_BLOCK, BLOCKS),
        "the disk differs"
    );
    let (events, done) = pair.counts.fewest();
    assert!(rt; events >= ROUNDS && done >= ROUNDS / 100, "few events");
    let plans = pair.desk.plans().fewest();
    assert!(rt;
        plans >= ROUNDS / 100 && pair.desk.plans().named_again() > 0,
        "few plans of a kind"
    );
}

#[test]
fn a_call_reads_no_byte_twice(rt: HostRuntime) {
    let mut run = Run {
        pair: opened(rt.alloc(), 1).expect(&rt, "a mediator and a desk"),
        random: Random::new(11),
    };
    plays(&rt, &mut run);
    expect_end(&rt, &run.pair);
}
