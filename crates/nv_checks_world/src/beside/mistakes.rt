//! The comparison itself: where a guest is served otherwise beside another than alone, it is found.

use crate::beside::bench::{HONEST, behind, entry_at};
use crate::beside::honest::{Honest, ROUND};
use crate::beside::runs::{Runs, Trial, attempt};
use nv_bringup::{CC, CSTS, DISABLED, TAIL, bytes_of, io_entry};
use nv_mem::BoxedBytes;
use nv_model::Act;
use nv_world_model::Event;
use std::process::Abort;

/// The last byte of the guest's memory.
const LAST: u64 = 0x1_ffff;

// Carries out an event of the honest guest's in the run of both guests, and in no other.
fn play_once(runs: &mut Runs, event: Event) {
    if runs.both.advance(runs.alloc, event).is_err() {
        runs.lost = true;
    }
}

// The honest guest ends a round of its commands, with nobody else.
fn serve(rt: &impl Abort, runs: &mut Runs) {
    runs.bring_up(HONEST);
    Honest::new(1).run(rt, runs, ROUND);
    runs.expect_alike(rt, "alike so far");
}

// A byte of memory is found where it is stored, and where it is loaded.
fn expect_byte_found(rt: &impl Abort, runs: &mut Runs) {
    let bytes = BoxedBytes::from_slice(runs.alloc, &[1]).expect(rt, "a byte");
    let addr = LAST;
    play_once(runs, Event::Guest(HONEST, Act::Store { addr, bytes }));
    assert!(rt; runs.differs.is_none() && !runs.has_same_state());
    runs.load(HONEST, addr, 1);
    assert!(rt; runs.differs.is_some());
}

// A register is found where it is read.
fn expect_register_found(rt: &impl Abort, runs: &mut Runs) {
    let offset = CC;
    let value = DISABLED;
    play_once(runs, Event::Guest(HONEST, Act::RegWrite { offset, value }));
    assert!(rt; runs.is_alike());
    runs.read(HONEST, CSTS);
    assert!(rt; !runs.is_alike() && runs.has_same_state());
}

/// A Write of a block from a000h, where 512 bytes are 21h.
const WRITE: [u32; 16] = io_entry!(0x0007_4001, [0xa000, 0, 512, 0], [7, 0, 0]);

// Stores a byte at a000h in the run of both guests, and in no other.
fn store_once(rt: &impl Abort, runs: &mut Runs, byte: u8) {
    let bytes = BoxedBytes::from_slice(runs.alloc, &[byte]).expect(rt, "a byte");
    let addr = 0xa000;
    play_once(runs, Event::Guest(HONEST, Act::Store { addr, bytes }));
}

// A block is found, where its source was another when it moved, and is the same again.
fn expect_block_found(rt: &impl Abort, runs: &mut Runs) {
    runs.store(HONEST, entry_at(ROUND), &bytes_of(&WRITE));
    runs.ring(HONEST, TAIL, behind(ROUND));
    runs.play(Event::Take(HONEST, 1, 1));
    let tag = runs.tags.nth(HONEST, 0).expect(rt, "a tag");
    runs.carry(tag, false);
    runs.carry(tag, false);
    store_once(rt, runs, 0x20);
    runs.carry(tag, false);
    assert!(rt; runs.is_done() && !runs.has_same_state());
    store_once(rt, runs, 0x21);
    assert!(rt; runs.differs.is_none() && !runs.has_same_state());
}

/// What differs beside another guest, after a round of the honest guest's commands.
#[derive(Clone, Copy)]
enum Mistake {
    Byte,
    Register,
    Block,
}

impl Trial for Mistake {
    fn play<R: Abort>(&mut self, rt: &R, runs: &mut Runs) {
        serve(rt, runs);
        match self {
            Mistake::Byte => expect_byte_found(rt, runs),
            Mistake::Register => expect_register_found(rt, runs),
            Mistake::Block => expect_block_found(rt, runs),
        }
    }
}

#[test]
fn what_differs_is_found(rt: HostRuntime) {
    for mut mistake in [Mistake::Byte, Mistake::Register, Mistake::Block] {
        attempt(&rt, false, &mut mistake);
    }
}
