//! A run of both guests, and beside it a run of each alone.

use crate::beside::bench::{
    self, HONEST, HONEST_IMAGE, HONEST_SPANS, HOSTILE, HOSTILE_IMAGES, HOSTILE_SPANS,
};
use crate::beside::tags::{Own, Tags};
use nv_bringup::{BRING_UP, MEMORY, Span, act_of, is_same_page, is_same_reply};
use nv_mem::{BoxedBytes, Host, NoMemory, PAGE_SIZE};
use nv_model::{Act, Reply};
use nv_world::World;
use nv_world_model::Event;
use std::alloc::Global;
use std::process::Abort;

/// Three worlds: each event is carried out in one, and in that of its guest, too, where the other guest does nothing.
#[derive(Drop)]
pub struct Runs {
    pub alloc: Global,
    pub both: World,
    honest: World,
    hostile: World,
    pub tags: Tags,
    /// how many events the run of both guests had directly after the first that was answered otherwise in the run of its guest alone
    pub differs: Option<usize>,
    /// whether memory was refused
    pub lost: bool,
}

impl Runs {
    /// All at their start, with nobody brought up; none where memory was refused.
    pub fn new(alloc: Global, more: bool) -> Option<Self> {
        Some(Runs {
            alloc,
            both: bench::opened(alloc, more)?,
            honest: bench::opened(alloc, more)?,
            hostile: bench::opened(alloc, more)?,
            tags: Tags::new(),
            differs: None,
            lost: false,
        })
    }

    /// Carries out an event, in the run of its guest alone, too.
    pub fn play(&mut self, event: Event) {
        match self.try_play(event) {
            Ok(true) => {}
            Ok(false) => {
                if self.differs.is_none() {
                    self.differs = Some(self.both.log().len());
                }
            }
            Err(_) => self.lost = true,
        }
    }

    // Whether an event is answered alike in both runs that have it.
    fn try_play(&mut self, event: Event) -> Result<bool, NoMemory> {
        self.both.advance(self.alloc, event)?;
        let Some(logged) = self.both.log().last() else {
            return Err(NoMemory);
        };
        let Some(own) = self.tags.renumber(self.alloc, &self.both, logged)? else {
            return Ok(true);
        };
        let Own { guest, event } = own;
        match guest {
            HONEST => is_answered(&mut self.honest, self.alloc, event, &logged.reply),
            HOSTILE => is_answered(&mut self.hostile, self.alloc, event, &logged.reply),
            _ => Ok(true),
        }
    }

    // Carries out an act of a guest that takes memory.
    fn act(&mut self, guest: u8, act: Result<Act, NoMemory>) {
        match act {
            Ok(act) => self.play(Event::Guest(guest, act)),
            Err(_) => self.lost = true,
        }
    }

    /// A guest stores bytes.
    pub fn store(&mut self, guest: u8, addr: u64, bytes: &[u8]) {
        let bytes = BoxedBytes::from_slice(self.alloc, bytes);
        self.act(guest, bytes.map(|bytes| Act::Store { addr, bytes }));
    }

    /// A guest stores 16 bytes: two addresses, a descriptor or a range.
    pub fn store_row(&mut self, guest: u8, addr: u64, low: u64, high: u64) {
        let row = u128::from(low) | u128::from(high) << 64;
        self.store(guest, addr, &row.to_le_bytes());
    }

    /// A guest stores a page of this byte.
    pub fn fill(&mut self, guest: u8, addr: u64, byte: u8) {
        self.store(guest, addr, &[byte; PAGE_SIZE as usize]);
    }

    /// A guest loads bytes.
    pub fn load(&mut self, guest: u8, addr: u64, len: u64) {
        self.play(Event::Guest(guest, Act::Load { addr, len }));
    }

    /// A guest writes a register.
    pub fn write(&mut self, guest: u8, offset: u32, value: u32) {
        self.play(Event::Guest(guest, Act::RegWrite { offset, value }));
    }

    /// A guest reads a register.
    pub fn read(&mut self, guest: u8, offset: u32) {
        self.play(Event::Guest(guest, Act::RegRead { offset }));
    }

    /// A guest rings a doorbell.
    pub fn ring(&mut self, guest: u8, offset: u32, value: u32) {
        self.play(Event::Guest(guest, Act::Doorbell { offset, value }));
    }

    /// A guest makes its admin queues and queue runs 1.
    pub fn bring_up(&mut self, guest: u8) {
        for deed in BRING_UP {
            self.act(guest, act_of(self.alloc, deed));
        }
        self.play(Event::Admin(guest));
        self.play(Event::Admin(guest));
    }

    /// The last reply in the run of both guests.
    pub fn told(&self) -> Option<&Reply> {
        Some(&self.both.log().last()?.reply)
    }

    /// Whether the last event was done.
    pub fn is_done(&self) -> bool {
        matches!(self.told(), Some(Reply::Done))
    }

    /// Whether these are the bytes of the last reply.
    pub fn has_told(&self, want: &[u8]) -> bool {
        match self.told() {
            Some(Reply::Bytes(bytes)) => bytes.as_slice() == want,
            _ => false,
        }
    }

    /// The bytes of the last reply, where they are a completion's.
    pub fn told_entry(&self) -> Option<[u8; 16]> {
        let Some(Reply::Bytes(bytes)) = self.told() else {
            return None;
        };
        let bytes = bytes.as_slice();
        if bytes.len() != 16 {
            return None;
        }
        let mut entry = [0; 16];
        entry.copy_from_slice(bytes);
        Some(entry)
    }

    /// Whether these bytes are at an address of the host, in the run of both guests.
    pub fn host_shows(&self, addr: u64, bytes: &[u8]) -> bool {
        let host = self.both.host();
        host.holds(addr, bytes.len() as u64) && host.equals(addr, bytes)
    }

    /// Whether each guest's memory and blocks are as in the run of that guest alone.
    pub fn has_same_state(&self) -> bool {
        is_same_guest(&self.both, &self.honest, &[HONEST_IMAGE], HONEST_SPANS)
            && is_same_guest(&self.both, &self.hostile, &HOSTILE_IMAGES, HOSTILE_SPANS)
    }

    /// Whether each guest was answered as in the run of that guest alone so far, and its memory and blocks are the same.
    pub fn is_alike(&self) -> bool {
        self.differs.is_none() && self.has_same_state()
    }

    /// Ends the test where it was not.
    pub fn expect_alike(&self, rt: &impl Abort, name: &str) {
        assert!(rt; !self.lost && !self.tags.astray, "{name}");
        assert_eq!(rt; self.differs, None, "{name}");
        assert!(rt; self.has_same_state(), "{name}");
    }
}

/// What is tried in worlds at their start.
pub trait Trial {
    /// Plays it, and ends the test where something is other than it has to be.
    fn play<R: Abort>(&mut self, rt: &R, runs: &mut Runs);
}

/// Tries something, where the other guest may have more memory. The worlds are made and given back here alone.
pub fn attempt<T: Trial, R: Abort + AllocGlobal>(rt: &R, more: bool, trial: &mut T) {
    let mut runs = Runs::new(rt.alloc(), more).expect(rt, "three worlds");
    trial.play(rt, &mut runs);
}

// Whether an event is answered so in the run of its guest alone.
fn is_answered(
    alone: &mut World,
    alloc: Global,
    event: Event,
    reply: &Reply,
) -> Result<bool, NoMemory> {
    alone.advance(alloc, event)?;
    match alone.log().last() {
        Some(told) => Ok(is_same_reply(reply, &told.reply)),
        None => Err(NoMemory),
    }
}

// Whether the memory of a guest, whose regions begin at these host addresses, and its blocks are the same in two worlds.
fn is_same_guest(one: &World, other: &World, images: &[u64], spans: &[Span]) -> bool {
    images
        .iter()
        .all(|image| is_same_memory(one.host(), other.host(), *image))
        && spans.iter().all(|span| are_same_blocks(one, other, *span))
}

// Whether blocks in a row are the same in two worlds.
fn are_same_blocks(one: &World, other: &World, span: Span) -> bool {
    (0..span.blocks).all(|block| is_same_block(one, other, span.base.wrapping_add(block)))
}

// Whether a region of the hosts' memory is the same.
fn is_same_memory(one: &Host, other: &Host, image: u64) -> bool {
    (0..MEMORY / PAGE_SIZE).all(|page| {
        let addr = image.wrapping_add(page.wrapping_mul(PAGE_SIZE));
        is_same_page(one, other, addr)
    })
}

// Whether a block of the disks is the same.
fn is_same_block(one: &World, other: &World, block: u64) -> bool {
    match (one.block(block), other.block(block)) {
        (Some(one), Some(other)) => one == other,
        _ => false,
    }
}
