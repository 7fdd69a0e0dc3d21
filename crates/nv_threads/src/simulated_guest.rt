//! A guest that acts by chance.

ghost use Rattle.std.specs.Prelude.{◌<◌};

use nv_mem::{BoxedBytes, NoMemory};
use nv_model::Act;
use std::alloc::Global;

/// Numbers by chance, the same for the same seed.
#[derive(Drop)]
pub(crate) struct Chance {
    state: u64,
}

impl Chance {
    pub(crate) fn new(seed: u64) -> Self {
        Chance { state: seed }
    }

    /// A number below that one.
    pub(crate) fn below(&mut self, count: u64) -> u64
        requires { 0 < count }
        ensures { result < count }
    {
        self.state = self
            .state
            .wrapping_mul(6_364_136_223_846_793_005)
            .wrapping_add(1_442_695_040_888_963_407);
        (self.state >> 33) % count
    }
}

/// The entries of a queue pair's rings.
const SLOTS: u32 = 64;

/// Where a guest's admin submission queue, its I/O queue 1 and its completion queues lie.
const ADMIN: u64 = 0x1_0000;

const QUEUE: u64 = 0x1_3000;

/// Where it writes the ranges of Dataset Managements, and in how many places one after the other.
const RANGES: u64 = 0x1_8000;

const PLACES: u64 = 16;

/// The registers AQA, ASQ, ACQ and CC of the bring-up, and their values.
const REGISTERS: [(u32, u32); 4] = [
    (0x24, 0x001f_001f),
    (0x28, 0x1_0000),
    (0x30, 0x1_1000),
    (0x14, 0x0046_0001),
];

/// The doorbells of the admin queue pair and of queue pair 1.
const ADMIN_TAIL: u32 = 0x1000;

const ADMIN_HEAD: u32 = 0x1004;

const TAIL: u32 = 0x1008;

const HEAD: u32 = 0x100c;

/// An entry: its opcode with the flags, identifier, PRP1 or the first half of a descriptor, the second half, and CDW10 to CDW12.
pub(crate) fn entry_of(
    command: u32,
    identifier: u32,
    prp1: u32,
    second: (u32, u32),
    cdw: [u32; 3],
) -> [u8; 64] {
    let mut bytes = [0; 64];
    let dwords = [
        (0, command | identifier << 16),
        (4, 1),
        (24, prp1),
        (32, second.0),
        (36, second.1),
        (40, cdw[0]),
        (44, cdw[1]),
        (48, cdw[2]),
    ];
    for (at, dword) in dwords {
        if let Some(place) = bytes.get_mut(at..at + 4) {
            place.copy_from_slice(&dword.to_le_bytes());
        }
    }
    bytes
}

// An I/O command by chance: a Read or a Write of up to eight blocks by PRP, a Read by a Data Block, a Flush, a Read by a segment of 64
// descriptors, Write Zeroes, and one that is refused.
fn command(chance: &mut Chance, identifier: u32) -> [u8; 64] {
    let block = chance.below(48) as u32;
    let last = chance.below(8) as u32;
    match chance.below(7) {
        0 => entry_of(0x02, identifier, 0x6000, (0, 0), [block, 0, last]),
        1 => entry_of(0x01, identifier, 0x4000, (0, 0), [block, 0, last]),
        2 => entry_of(0x4002, identifier, 0x3100, (512, 0), [block, 0, 0]),
        3 => entry_of(0x00, identifier, 0, (0, 0), [0, 0, 0]),
        4 => entry_of(
            0x4002,
            identifier,
            0x8000,
            (1024, 0x3000_0000),
            [block, 0, 0],
        ),
        5 => entry_of(0x08, identifier, 0, (0, 0), [block, 0, last]),
        _ => entry_of(0x02, identifier, 0x6001, (0, 0), [block + 64, 0, last]),
    }
}

// A transfer by chance whose blocks may lie in several extents: a Read or a Write by a Data Block of bytes that the physical controller can't
// reach at once, a Read by a segment of 64 descriptors, or a Compare; and now and then a Read of such bytes of queue 1.
fn transfer(chance: &mut Chance, identifier: u32) -> [u8; 64] {
    let block = chance.below(60) as u32;
    let last = chance.below(8) as u32;
    let bytes = 512 * (last + 1);
    match chance.below(16) {
        0..=3 => entry_of(0x4002, identifier, 0x3101, (bytes, 0), [block, 0, last]),
        4..=7 => entry_of(0x4001, identifier, 0x3101, (bytes, 0), [block, 0, last]),
        8 => entry_of(0x4002, identifier, 0x1_3001, (bytes, 0), [block, 0, last]),
        9..=11 => entry_of(
            0x4002,
            identifier,
            0x8000,
            (1024, 0x3000_0000),
            [block, 0, last],
        ),
        _ => entry_of(0x05, identifier, 0x4000, (0, 0), [block, 0, last]),
    }
}

// A range by chance, of up to 15 blocks.
fn range(chance: &mut Chance) -> [u8; 16] {
    let start = chance.below(52) as u8;
    let count = chance.below(16) as u8;
    range_of(start, count)
}

/// A range of so many blocks from that one on.
pub(crate) fn range_of(start: u8, count: u8) -> [u8; 16] {
    let mut bytes = [0; 16];
    bytes[4] = count;
    bytes[8] = start;
    bytes
}

/// A guest: where it writes its next entries. It checks no reply, so what it does is not always disciplined.
#[derive(Drop)]
pub(crate) struct Guest {
    admin: u32,
    tail: u32,
    identifier: u32,
    // whether it also has commands that are made for several extents, and writes over entries that wait
    is_spread: bool,
    // where it wrote ranges last
    place: u64,
}

impl Guest {
    /// One that has done nothing yet.
    pub(crate) fn new(is_spread: bool) -> Self {
        Guest {
            admin: 0,
            tail: 0,
            identifier: 0,
            is_spread,
            place: 0,
        }
    }

    // The number of the next command.
    fn identify(&mut self) -> u32 {
        self.identifier = self.identifier.wrapping_add(1) % 0x8000;
        self.identifier
    }

    /// What it does next: a few acts. It reports that it has read completions only where it heeds them.
    pub(crate) fn acts(
        &mut self,
        alloc: Global,
        chance: &mut Chance,
        heeds: bool,
    ) -> Result<Vec<Act>, NoMemory> {
        let mut acts = Vec::new(alloc);
        match chance.below(512) {
            0..=7 => self.bring_up(alloc, &mut acts)?,
            8..=15 => self.create(alloc, &mut acts)?,
            16..=18 => self.reset(chance, &mut acts)?,
            19 | 20 => self.delete(alloc, &mut acts)?,
            21..=47 => acts.push(rings(ADMIN_HEAD, chance.below(32) as u32))?,
            48..=191 if heeds => acts.push(rings(HEAD, chance.below(u64::from(SLOTS)) as u32))?,
            48..=195 => acts.push(Act::RegRead { offset: 0x1c })?,
            196..=203 if self.is_spread => self.write_over(alloc, chance, &mut acts)?,
            204 | 205 if self.is_spread => self.read_over(alloc, &mut acts)?,
            _ => self.submit(alloc, chance, &mut acts)?,
        }
        Ok(acts)
    }

    /// Writes its registers and creates queue pair 1.
    pub(crate) fn bring_up(&mut self, alloc: Global, acts: &mut Vec<Act>) -> Result<(), NoMemory> {
        self.admin = 0;
        for (offset, value) in REGISTERS {
            acts.push(Act::RegWrite { offset, value })?;
        }
        self.create(alloc, acts)
    }

    // Creates queue pair 1.
    fn create(&mut self, alloc: Global, acts: &mut Vec<Act>) -> Result<(), NoMemory> {
        self.tail = 0;
        let size = (SLOTS - 1) << 16 | 1;
        let identifier = self.identify();
        let completions = entry_of(0x05, identifier, 0x1_2000, (0, 0), [size, 1, 0]);
        self.administer(alloc, acts, &completions)?;
        let entries = entry_of(0x01, identifier, 0x1_3000, (0, 0), [size, 0x0001_0001, 0]);
        self.administer(alloc, acts, &entries)?;
        Ok(acts.push(rings(ADMIN_TAIL, self.admin))?)
    }

    // Deletes submission queue 1, with what is under way in it.
    fn delete(&mut self, alloc: Global, acts: &mut Vec<Act>) -> Result<(), NoMemory> {
        let identifier = self.identify();
        let entry = entry_of(0x00, identifier, 0, (0, 0), [1, 0, 0]);
        self.administer(alloc, acts, &entry)?;
        Ok(acts.push(rings(ADMIN_TAIL, self.admin))?)
    }

    // Disables its controller, one time in four, and else leaves it enabled.
    fn reset(&mut self, chance: &mut Chance, acts: &mut Vec<Act>) -> Result<(), NoMemory> {
        let value = if chance.below(4) == 0 { 0 } else { 0x0046_0001 };
        Ok(acts.push(Act::RegWrite {
            offset: 0x14,
            value,
        })?)
    }

    // Writes an entry of the admin queue.
    fn administer(
        &mut self,
        alloc: Global,
        acts: &mut Vec<Act>,
        entry: &[u8; 64],
    ) -> Result<(), NoMemory> {
        let addr = ADMIN + 64 * u64::from(self.admin);
        self.admin = self.admin.wrapping_add(1) % 32;
        let bytes = BoxedBytes::from_slice(alloc, entry)?;
        Ok(acts.push(Act::Store { addr, bytes })?)
    }

    // Writes up to eight commands, and rings for them.
    fn submit(
        &mut self,
        alloc: Global,
        chance: &mut Chance,
        acts: &mut Vec<Act>,
    ) -> Result<(), NoMemory> {
        for _ in 0..=chance.below(8) {
            let entry = self.command(alloc, chance, acts)?;
            let addr = QUEUE + 64 * u64::from(self.tail);
            self.tail = self.tail.wrapping_add(1) % SLOTS;
            let bytes = BoxedBytes::from_slice(alloc, &entry)?;
            acts.push(Act::Store { addr, bytes })?;
        }
        Ok(acts.push(rings(TAIL, self.tail))?)
    }
}

impl Guest {
    // Writes a command over any entry of queue 1, and rings for nothing.
    fn write_over(
        &mut self,
        alloc: Global,
        chance: &mut Chance,
        acts: &mut Vec<Act>,
    ) -> Result<(), NoMemory> {
        let entry = self.command(alloc, chance, acts)?;
        let addr = QUEUE + 64 * chance.below(u64::from(SLOTS));
        let bytes = BoxedBytes::from_slice(alloc, &entry)?;
        Ok(acts.push(Act::Store { addr, bytes })?)
    }

    // Has what an Identify reads written over queue 1.
    fn read_over(&mut self, alloc: Global, acts: &mut Vec<Act>) -> Result<(), NoMemory> {
        let identifier = self.identify();
        let entry = entry_of(0x06, identifier, 0x1_3000, (0, 0), [1, 0, 0]);
        self.administer(alloc, acts, &entry)?;
        Ok(acts.push(rings(ADMIN_TAIL, self.admin))?)
    }

    // Its next I/O command.
    fn command(
        &mut self,
        alloc: Global,
        chance: &mut Chance,
        acts: &mut Vec<Act>,
    ) -> Result<[u8; 64], NoMemory> {
        let identifier = self.identify();
        if !self.is_spread {
            return Ok(command(chance, identifier));
        }
        match chance.below(4) {
            0 => self.manage(alloc, chance, acts, identifier),
            1 => Ok(transfer(chance, identifier)),
            _ => Ok(command(chance, identifier)),
        }
    }

    // Writes up to four ranges for a Dataset Management, which deallocates them or does nothing with them.
    fn manage(
        &mut self,
        alloc: Global,
        chance: &mut Chance,
        acts: &mut Vec<Act>,
        identifier: u32,
    ) -> Result<[u8; 64], NoMemory> {
        self.place = self.place.wrapping_add(1) % PLACES;
        let addr = RANGES + 64 * self.place;
        let last = chance.below(4) as u32;
        for number in 0..=u64::from(last) {
            let bytes = BoxedBytes::from_slice(alloc, &range(chance))?;
            acts.push(Act::Store {
                addr: addr + 16 * number,
                bytes,
            })?;
        }
        let deallocates = 4 * chance.below(2) as u32;
        Ok(entry_of(
            0x09,
            identifier,
            addr as u32,
            (0, 0),
            [last, deallocates, 0],
        ))
    }
}

/// A doorbell that is rung.
pub(crate) fn rings(offset: u32, value: u32) -> Act {
    Act::Doorbell { offset, value }
}

/// Whether an act disables the guest's controller.
pub(crate) fn is_reset(act: &Act) -> bool {
    match act {
        Act::RegWrite { offset, value } => *offset == 0x14 && value % 2 == 0,
        _ => false,
    }
}

/// Whether an act stores bytes in the guest's memory.
pub(crate) fn is_store(act: &Act) -> bool {
    match act {
        Act::Store { addr: _, bytes: _ } => true,
        _ => false,
    }
}
