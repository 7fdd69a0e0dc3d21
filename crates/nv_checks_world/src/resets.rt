//! A guest that resets its controller while a command of several parts is on its way: between any two of the events by which the parts are handed on,
//! taken, moved, posted and reaped. The command runs out without a completion, its tags come free, and the guest is served as ever afterwards.

use crate::bench::Bench;
use crate::failing::{READ, THREE, entry};
use nv_bringup::{CC, COMPLETIONS, CSTS, DISABLED, ENABLED, SLOTS};
use nv_model::{Act, Reply};
use nv_world_model::Event;
use std::process::Abort;

/// How many events a command of three parts has after its doorbell, the last of which completes it.
const STEPS: u8 = 15;

/// A completion queue in which nothing was posted.
const NOTHING: [u8; 256] = [0; 256];

// An event of a Read of three parts under tag 0, by its number.
fn step_of(number: u8) -> Event {
    match number {
        0 => Event::Take(0, 1, 0),
        1 => Event::Submit(0, 0),
        2..=4 => Event::DevTake(0),
        5 => Event::DevMove(0, 2, 0),
        6 => Event::DevPost(0, 2),
        7 => Event::Reap(0),
        8 => Event::DevMove(0, 0, 0),
        9 => Event::DevMove(0, 1, 0),
        10 => Event::DevPost(0, 1),
        11 => Event::DevPost(0, 0),
        12 | 13 => Event::Reap(0),
        _ => Event::Post(0, 0),
    }
}

// The events from that number on, up to another.
fn play(bench: &mut Bench, from: u8, to: u8) {
    for number in from..to {
        bench.must(step_of(number));
    }
}

// Whether the controller is ready.
fn is_ready(bench: &mut Bench) -> bool {
    let event = Event::Guest(0, Act::RegRead { offset: CSTS });
    match bench.answers(event) {
        Reply::Bytes(bytes) => bytes.as_slice() == [1, 0, 0, 0].as_slice(),
        _ => false,
    }
}

// Whether the guest can enable its controller.
fn is_enabled(bench: &mut Bench) -> bool {
    bench.does(Event::Guest(
        0,
        Act::RegWrite {
            offset: CC,
            value: ENABLED,
        },
    ))
}

// The guest makes its queues, with nothing in them, and puts the Read into one.
fn begin(bench: &mut Bench) {
    bench.bring_up(0);
    bench.store(0, COMPLETIONS, &NOTHING);
    bench.enter(0, 0, &entry(&READ, 9));
}

// Ends the test where a reset after so many events lets the command complete, or lose a tag, or ends before the command does.
fn expect_runs_out(rt: &impl Abort, bench: &mut Bench, behind: u8) {
    begin(bench);
    play(bench, 0, behind);
    bench.write_register(0, CC, DISABLED);
    play(bench, behind, STEPS - 1);
    assert_eq!(rt; bench.tags_of(0, 0), 3, "{behind}");
    assert!(rt; is_ready(bench) && !is_enabled(bench), "{behind}");
    play(bench, STEPS - 1, STEPS);
    assert!(rt; bench.is_free(0) && !is_ready(bench), "{behind}");
    assert!(rt; bench.shows(0, COMPLETIONS, &NOTHING), "{behind}");
    assert!(rt; !bench.failed, "{behind}");
}

// Ends the test where the guest's next command is not served.
fn expect_served(rt: &impl Abort, bench: &mut Bench) {
    begin(bench);
    play(bench, 0, STEPS);
    let told = bench.completion(0, 0).expect(rt, "a completion");
    assert!(rt; told.status().is_success() && told.cid() == 9 && told.phase());
    assert!(rt; bench.is_free(0) && !bench.failed);
    bench.write_register(0, CC, DISABLED);
}

// Ends the test where it is so after a reset between some two of the events.
fn expect_all(rt: &impl Abort, bench: &mut Bench) {
    for behind in 1..STEPS {
        expect_runs_out(rt, bench, behind);
        expect_served(rt, bench);
    }
}

#[test]
fn a_command_of_parts_runs_out_behind_a_reset(rt: HostRuntime) {
    let mut bench = Bench::new(rt.alloc(), 1, &[THREE], SLOTS).expect(&rt, "a world");
    expect_all(&rt, &mut bench);
}
