//! A desk beside a mediator: the same events, the same replies, and the same memory and disk.

use crate::counts::{Counts, Kind};
use crate::desk::{Desk, Form};
use nv_bringup::{is_same_page, is_same_reply};
use nv_mediator::Mediator;
use nv_mem::{BoxedBytes, NoMemory, PAGE_SIZE};
use nv_model::{Act, Reply};
use nv_world_model::Event;
use std::alloc::Global;

/// The mediator and the desk, and what was seen of them.
#[derive(Drop)]
pub struct Pair {
    pub alloc: Global,
    pub mediator: Mediator,
    pub desk: Desk,
    pub counts: Counts,
    /// the kind of the first event that was answered otherwise, or was due in one of the two alone
    pub differs: Option<Kind>,
    /// the kind of the first event whose call read bytes of a guest again, but for those that its command names again
    pub again: Option<Kind>,
    /// whether memory was refused
    pub lost: bool,
}

impl Pair {
    /// Both, of which nothing was seen yet.
    pub fn of(alloc: Global, mediator: Mediator, desk: Desk) -> Self {
        Pair {
            alloc,
            mediator,
            desk,
            counts: Counts::new(),
            differs: None,
            again: None,
            lost: false,
        }
    }

    /// Carries out an event in both. Whether it was done.
    pub fn play(&mut self, event: &Event, form: Form) -> bool {
        let kind = Kind::of(event, form);
        let due = self.mediator.due(event);
        if self.desk.due(event) != due {
            self.note_difference(kind);
        }
        let reply = self.desk.step(self.alloc, event, form);
        let wanted = self.mediator.step(self.alloc, event);
        let (Ok(reply), Ok(wanted)) = (reply, wanted) else {
            self.lost = true;
            return false;
        };
        if !is_same_reply(&reply, &wanted) {
            self.note_difference(kind);
        }
        if self.again.is_none() && self.guests_again() != self.desk.plans().named_again() {
            self.again = Some(kind);
        }
        let done = matches!(wanted, Reply::Done | Reply::Bytes(_));
        self.counts.count(kind, done);
        done
    }

    /// Carries out an event in both, by the call that takes it as it is. Whether it was done.
    pub fn plays(&mut self, event: &Event) -> bool {
        self.play(event, Form::Plain)
    }

    /// A guest stores bytes.
    pub fn store(&mut self, guest: u8, addr: u64, bytes: &[u8], form: Form) {
        match BoxedBytes::from_slice(self.alloc, bytes) {
            Ok(bytes) => {
                self.play(&Event::Guest(guest, Act::Store { addr, bytes }), form);
            }
            Err(NoMemory) => self.lost = true,
        }
    }

    /// A guest stores 16 bytes: two addresses, a descriptor or a range.
    pub fn store_row(&mut self, guest: u8, addr: u64, low: u64, high: u64, form: Form) {
        let row = u128::from(low) | u128::from(high) << 64;
        self.store(guest, addr, &row.to_le_bytes(), form);
    }

    /// A guest rings a doorbell.
    pub fn ring(&mut self, guest: u8, offset: u32, value: u32) -> bool {
        self.plays(&Event::Guest(guest, Act::Doorbell { offset, value }))
    }

    /// A guest writes a register.
    pub fn write(&mut self, guest: u8, offset: u32, value: u32) {
        self.plays(&Event::Guest(guest, Act::RegWrite { offset, value }));
    }

    /// Whether an event is due, for the mediator.
    pub fn due(&self, event: &Event) -> bool {
        self.mediator.due(event)
    }

    /// How many bytes of guests were read by a call that had read or written them.
    pub fn guests_again(&self) -> u32 {
        match self.desk.watched() {
            Some(watched) => watched.guests_again(),
            None => 0,
        }
    }

    /// The same of bytes of the mediator's area.
    pub fn own_again(&self) -> u32 {
        match self.desk.watched() {
            Some(watched) => watched.own_again(),
            None => 0,
        }
    }

    /// Whether so many pages of memory from a host address on are the same in both.
    pub fn are_same_pages(&self, from: u64, pages: u64) -> bool {
        let Some(watched) = self.desk.watched() else {
            return false;
        };
        let (one, other) = (self.mediator.host(), &watched.host);
        (0..pages).all(|page| {
            is_same_page(one, other, from.wrapping_add(PAGE_SIZE.wrapping_mul(page)))
        })
    }

    /// Whether so many blocks from one on are the same in both, and kept in both or in neither.
    pub fn are_same_blocks(&self, from: u64, blocks: u64) -> bool {
        (0..blocks).all(|block| self.is_same_block(from.wrapping_add(block)))
    }

    // Whether a block is the same in both, and kept in both or in neither.
    fn is_same_block(&self, block: u64) -> bool {
        let device = self.desk.device();
        block < device.blocks()
            && self.mediator.kept(block) == Some(device.kept(block))
            && self.mediator.block(block) == Some(device.block(block))
    }

    // Notes that an event of that kind was answered otherwise.
    fn note_difference(&mut self, kind: Kind) {
        if self.differs.is_none() {
            self.differs = Some(kind);
        }
    }
}
