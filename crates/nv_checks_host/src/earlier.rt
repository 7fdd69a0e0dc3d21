//! A host that starts anew, with a drive that has earlier data and a memory full of other bytes.
//!
//! Beside it goes on the mediator of the whole world. Its guest has written the data, and resets its controller where the host starts anew.

use crate::desk::Form;
use crate::guests::Guest;
use crate::pair::Pair;
use crate::two_guests::{BLOCKS, FIRST_BLOCK, opened, setup};
use nv_bringup::{CC, DISABLED, Random, io_entry};
use nv_model::limits::RING_SLOTS;
use nv_model::{Act, Reply};
use nv_world_model::Event;
use std::process::Abort;

/// How many commands bring both rings of a lane back to where they were: two passes, since the phase tag is inverted after each.
const COMMANDS: u16 = 2 * RING_SLOTS;

/// A Write of block 5 from 3000h, and a Read of it to 4000h.
const WRITE: [u32; 16] = io_entry!(0x0009_0001, [0x3000, 0, 0, 0], [5, 0, 0]);

const READ: [u32; 16] = io_entry!(0x000a_0002, [0x4000, 0, 0, 0], [5, 0, 0]);

/// What the first 16 bytes of the block are.
const DATA: (u64, u64) = (0x0123_4567_89ab_cdef, 0xfeed_f00d);

// A command of the guest's goes to the drive and back.
fn run(rt: &impl Abort, pair: &mut Pair, guest: &mut Guest, entry: &[u32; 16]) {
    guest.enter(pair, entry, Form::Plain);
    let events = [
        Event::Take(0, 1, 0),
        Event::Submit(0, 0),
        Event::DevTake(0),
        Event::DevMove(0, 0, 0),
        Event::DevPost(0, 0),
        Event::Reap(0),
        Event::Post(0, 0),
    ];
    for event in &events {
        assert!(rt; pair.plays(event), "an event isn't done");
    }
    guest.complete();
    guest.acknowledge(pair);
}

// Whether the guest finds the earlier data where the Read has put it.
fn finds(pair: &mut Pair) -> bool {
    let load = Event::Guest(
        0,
        Act::Load {
            addr: 0x4000,
            len: 16,
        },
    );
    let alloc = pair.alloc;
    let wanted = (u128::from(DATA.0) | u128::from(DATA.1) << 64).to_le_bytes();
    match pair.desk.step(alloc, &load, Form::Plain) {
        Ok(Reply::Bytes(bytes)) => bytes.as_slice() == wanted.as_slice(),
        _ => false,
    }
}

/// The guest reads what was on the drive before the host started, and each reply is that of the mediator which has gone on.
#[test]
fn a_guest_reads_what_the_drive_had(rt: HostRuntime) {
    let mut pair = opened(rt.alloc(), 1).expect(&rt, "a mediator and a desk");
    let mut guest = Guest::new(0);
    guest.bring_up(&mut pair);
    pair.store_row(0, 0x3000, DATA.0, DATA.1, Form::Plain);
    for _command in 0..COMMANDS {
        run(&rt, &mut pair, &mut guest, &WRITE);
    }
    pair.write(0, CC, DISABLED);
    let anew = setup(rt.alloc(), 1).expect(&rt, "a set-up");
    assert!(rt; pair.desk.restart(rt.alloc(), anew, &mut Random::new(11)));
    let mut guest = Guest::new(0);
    guest.bring_up(&mut pair);
    assert!(rt; !finds(&mut pair));
    // Each slot of the lane's completion ring is read: none has a completion before the drive writes one.
    for _command in 0..RING_SLOTS {
        run(&rt, &mut pair, &mut guest, &READ);
    }
    assert!(rt; finds(&mut pair), "the data isn't there");
    assert!(rt; !pair.lost && pair.differs.is_none(), "an event differs");
    assert!(rt;
        pair.are_same_blocks(FIRST_BLOCK, BLOCKS),
        "the disk differs"
    );
}
