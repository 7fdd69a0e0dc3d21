//! What a guest that does as it pleases does, step by step, with what comes of it.

use crate::beside::bench::{HOSTILE, entry_at};
use crate::beside::honest::Honest;
use crate::beside::runs::Runs;
use crate::beside::tags::Tag;
use nv_bringup::{CC, MEDIATOR, bytes_of};
use nv_entry::Status;
use nv_model::Reply;
use nv_model::limits::{LANE_SIZE, PAGE_SIZE, RING_PAGES, RING_SLOTS, SQE_SIZE, TAG_PAGES};
use nv_world_model::Event;
use std::process::Abort;

/// A step of the guest, or of the mediator or the device on its one command, or a check of what is there.
#[derive(Clone, Copy)]
pub enum Deed {
    /// It makes its queues.
    BringUp,
    /// It stores 16 bytes: the address and the halves.
    Row(u64, u64, u64),
    /// It stores 512 bytes that are the same.
    Fill(u64, u8),
    /// It puts a command, with these dwords, into the slot of that number.
    Enter(u16, [u32; 16]),
    /// It rings a doorbell.
    Ring(u32, u32),
    /// It writes CC.
    Control(u32),
    /// Its command is taken by the first lane.
    Take,
    List(u64, u64),
    Submit,
    /// The device takes what is in the lane, until it has taken the command.
    DevTake,
    Move(u64),
    DevPost,
    DevFail(u8, u8, bool),
    /// What the device has posted is reaped, until the command has ended.
    Reap,
    Post,
    /// The command goes on until it has ended and was reported.
    Carry,
    /// The dword at an address is this.
    Dword(u64, u32),
    /// The register has this value.
    Register(u32, u32),
    /// 512 bytes are this one.
    Shows(u64, u8),
    /// PRP1 and PRP2 of the physical entry in a slot of the first lane's ring, where no other guest uses that lane.
    Prps(u64, u64, u64),
    /// The first 512 bytes of the command's bounce pages are this one.
    Bounce(u8),
}

/// What an event was answered.
#[derive(Clone, Copy)]
pub enum Told {
    Done,
    Ignored,
    Stale,
    Bytes,
    /// Nothing is answered, or several events are.
    Any,
}

/// A step, and what is answered.
pub type Row = (Deed, Told);

/// The honest guest beside the other: how many steps it makes after each of the other's, and whether by the same lane.
#[derive(Clone, Copy)]
pub struct Beside {
    pub name: &'static str,
    pub pace: u16,
    pub shares_lane: bool,
}

/// Plays these steps, with the honest guest's between, and ends the test where something else is answered or found.
pub fn play(rt: &impl Abort, runs: &mut Runs, honest: &mut Honest, beside: Beside, rows: &[Row]) {
    for (deed, told) in rows {
        if matches!(deed, Deed::Carry) {
            carry(rt, runs, honest, beside);
        } else if !matches!(deed, Deed::Prps(..)) || !beside.shares_lane {
            step(rt, runs, beside, *deed, *told);
        }
        go_on(rt, runs, honest, beside);
    }
}

// The honest guest goes on.
fn go_on(rt: &impl Abort, runs: &mut Runs, honest: &mut Honest, beside: Beside) {
    for _ in 0..beside.pace {
        honest.step(rt, runs);
    }
}

// The other guest's command goes on to its end, with the honest guest's steps between.
fn carry(rt: &impl Abort, runs: &mut Runs, honest: &mut Honest, beside: Beside) {
    for _ in 0..4000 {
        if let Some(tag) = runs.tags.nth(HOSTILE, 0) {
            runs.carry(tag, false);
            go_on(rt, runs, honest, beside);
        }
    }
    assert!(rt; runs.tags.nth(HOSTILE, 0).is_none(), "{}", beside.name);
}

// Plays a step, and ends the test where something else is answered or found.
fn step(rt: &impl Abort, runs: &mut Runs, beside: Beside, deed: Deed, told: Told) {
    // a tag that there is not, where the guest has none
    let tag = runs.tags.nth(HOSTILE, 0).unwrap_or(Tag {
        lane: 255,
        number: 255,
    });
    act(runs, deed);
    handle(runs, tag, deed);
    let found = shows(runs, tag, deed);
    assert!(rt; found && is_told(runs, told), "{}", beside.name);
}

// Whether the last event was answered so.
fn is_told(runs: &Runs, told: Told) -> bool {
    match told {
        Told::Any => true,
        Told::Done => matches!(runs.told(), Some(Reply::Done)),
        Told::Ignored => matches!(runs.told(), Some(Reply::Ignored)),
        Told::Stale => matches!(runs.told(), Some(Reply::Stale)),
        Told::Bytes => matches!(runs.told(), Some(Reply::Bytes(_))),
    }
}

// Carries out what a guest does.
fn act(runs: &mut Runs, deed: Deed) {
    match deed {
        Deed::BringUp => runs.bring_up(HOSTILE),
        Deed::Row(addr, low, high) => runs.store_row(HOSTILE, addr, low, high),
        Deed::Fill(addr, byte) => runs.store(HOSTILE, addr, &[byte; 512]),
        Deed::Enter(number, dwords) => {
            runs.store(HOSTILE, entry_at(number), &bytes_of(&dwords));
        }
        Deed::Ring(offset, value) => runs.ring(HOSTILE, offset, value),
        Deed::Control(value) => runs.write(HOSTILE, CC, value),
        Deed::Dword(addr, _) => runs.load(HOSTILE, addr, 4),
        Deed::Register(offset, _) => runs.read(HOSTILE, offset),
        Deed::Shows(addr, _) => runs.load(HOSTILE, addr, 512),
        _ => {}
    }
}

// Carries out what the mediator does with the guest's command, or the device.
fn handle(runs: &mut Runs, tag: Tag, deed: Deed) {
    let Tag { lane, number } = tag;
    match deed {
        Deed::Take => runs.play(Event::Take(HOSTILE, 1, 0)),
        Deed::List(addr, len) => runs.play(Event::List(lane, number, addr, len)),
        Deed::Submit => runs.play(Event::Submit(lane, number)),
        Deed::DevTake => until_taken(runs, tag),
        Deed::Move(unit) => runs.play(Event::DevMove(lane, number, unit)),
        Deed::DevPost => runs.play(Event::DevPost(lane, number)),
        Deed::DevFail(sct, sc, dnr) => {
            let status = Status::new(sct % 8, sc, dnr);
            runs.play(Event::DevFail(lane, number, status));
        }
        Deed::Reap => until_ended(runs, tag),
        Deed::Post => runs.play(Event::Post(lane, number)),
        _ => {}
    }
}

// The device takes what is in the lane, until it has taken the command.
fn until_taken(runs: &mut Runs, tag: Tag) {
    let first = Event::DevMove(tag.lane, tag.number, 0);
    for _ in 0..RING_SLOTS {
        if !runs.both.due(&first) {
            runs.play(Event::DevTake(tag.lane));
        }
    }
}

// What the device has posted is reaped, until the command has ended.
fn until_ended(runs: &mut Runs, tag: Tag) {
    let post = Event::Post(tag.lane, tag.number);
    for _ in 0..RING_SLOTS {
        if !runs.both.due(&post) {
            runs.play(Event::Reap(tag.lane));
        }
    }
}

// Whether what is checked is so.
fn shows(runs: &Runs, tag: Tag, deed: Deed) -> bool {
    match deed {
        Deed::Dword(_, dword) => runs.has_told(&dword.to_le_bytes()),
        Deed::Register(_, value) => runs.has_told(&value.to_le_bytes()),
        Deed::Shows(_, byte) => runs.has_told(&[byte; 512]),
        Deed::Prps(slot, prp1, prp2) => {
            let prps = u128::from(prp1) | u128::from(prp2) << 64;
            let addr = MEDIATOR + SQE_SIZE * (slot % u64::from(RING_SLOTS)) + 24;
            runs.host_shows(addr, &prps.to_le_bytes())
        }
        Deed::Bounce(byte) => {
            let page = RING_PAGES + TAG_PAGES * u64::from(tag.number) + 1;
            let addr = MEDIATOR + LANE_SIZE * u64::from(tag.lane) + PAGE_SIZE * page;
            runs.host_shows(addr, &[byte; 512])
        }
        _ => true,
    }
}
