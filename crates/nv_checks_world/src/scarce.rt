//! A command that needs two tags where one is free: it waits in its queue, and is taken once another has come free.

use crate::bench::Bench;
use nv_bringup::{Span, bytes_of};
use nv_entry::Sqe;
use nv_model::Reply;
use nv_world_model::Event;
use std::process::Abort;

/// A namespace with a join after block 31.
const TWO: &[Span] = &[
    Span {
        base: 3000,
        blocks: 32,
    },
    Span {
        base: 1000,
        blocks: 32,
    },
];

/// The slots of the queue: room for all commands.
const MANY: u16 = 128;

/// The command at the front of the queue is taken.
const TAKE: Event = Event::Take(0, 1, 0);

/// How many commands of one tag there are before: all tags of the lane but one.
const BEFORE: u16 = 63;

// A Write Zeroes of that many blocks, less 1, from block 31 on.
fn zeroes(identifier: u16, more: u32) -> Sqe {
    let head = 8 | u32::from(identifier) << 16;
    Sqe::of(&bytes_of(&[head, 1, 0, 0, 0, 0, 0, 0, 0, 0, 31, 0, more, 0, 0, 0]))
}

// So many commands of one block are entered and taken.
fn fill(bench: &mut Bench) {
    for number in 0..BEFORE {
        bench.enter(0, number, &zeroes(number, 0));
        bench.must(TAKE);
    }
}

// The command of a tag, which was taken, is carried out and completed.
fn end(bench: &mut Bench, tag: u8) {
    bench.submit(0, tag);
    bench.must(Event::DevTake(0));
    bench.must(Event::DevMove(0, tag, 0));
    bench.must(Event::DevPost(0, tag));
    bench.must(Event::Reap(0));
    bench.must(Event::Post(0, tag));
}

// Ends the test where the command at the front of the queue does not wait, or takes a tag, of which so many are taken.
fn expect_waits(rt: &impl Abort, bench: &mut Bench, taken: u8) {
    assert!(rt;
        !bench.world.due(&TAKE) && matches!(bench.answers(TAKE), Reply::Busy),
        "{taken}"
    );
    assert_eq!(rt; bench.tags_of(0, 0), taken);
}

// Ends the test where a tag is not of a command that goes by that tag.
fn expect_held(rt: &impl Abort, bench: &Bench, tag: u8, leader: u8) {
    let holder = bench.world.holder(0, tag).expect(rt, "a command");
    assert_eq!(rt; (holder.guest, holder.leader), (0, leader), "{tag}");
}

// Ends the test where all tags but one of those from that number on are not of commands of their own.
fn expect_alone(rt: &impl Abort, bench: &Bench, from: u8, to: u8) {
    for tag in from..to {
        expect_held(rt, bench, tag, tag);
    }
}

// Ends the test where the command of two tags does not get those that are free, 20 and 63, or another command loses its own.
fn expect_taken(rt: &impl Abort, bench: &mut Bench) {
    bench.must(TAKE);
    expect_alone(rt, bench, 0, 20);
    expect_held(rt, bench, 20, 20);
    expect_alone(rt, bench, 21, 63);
    expect_held(rt, bench, 63, 20);
}

// Ends the test where a command was not completed in that place, with success.
fn expect_completed(rt: &impl Abort, bench: &Bench, place: u16, identifier: u16) {
    let told = bench.completion(0, place).expect(rt, "a completion");
    assert!(rt; told.status().is_success() && told.phase(), "{place}");
    assert_eq!(rt; told.cid(), identifier, "{place}");
}

// Ends the test where the commands of these tags, which have the same identifiers, were not completed from that place on, in that order.
fn expect_in_order(rt: &impl Abort, bench: &Bench, place: u16, from: u16, to: u16) {
    let mut place = place;
    for identifier in from..to {
        expect_completed(rt, bench, place, identifier);
        place = place.wrapping_add(1);
    }
}

// Ends the test where a command is lost: tag 20 ended first, then the lane goes on, in whose order the command of two tags goes by tag 20.
fn expect_all(rt: &impl Abort, bench: &mut Bench) {
    bench.go_on(0);
    expect_completed(rt, bench, 0, 20);
    expect_in_order(rt, bench, 1, 0, 20);
    expect_completed(rt, bench, 21, BEFORE);
    expect_in_order(rt, bench, 22, 21, BEFORE);
    assert!(rt; bench.is_free(0) && !bench.failed);
}

#[test]
fn a_command_of_two_tags_waits_for_both(rt: HostRuntime) {
    let mut bench = Bench::new(rt.alloc(), 1, &[TWO], MANY).expect(&rt, "a world");
    bench.bring_up(0);
    fill(&mut bench);
    bench.enter(0, BEFORE, &zeroes(BEFORE, 1));
    expect_waits(&rt, &mut bench, 63);
    expect_waits(&rt, &mut bench, 63);
    end(&mut bench, 20);
    expect_taken(&rt, &mut bench);
    expect_all(&rt, &mut bench);
}
