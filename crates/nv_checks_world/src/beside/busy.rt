//! An honest guest that has up to four commands of all kinds at once, each with memory of its own.

use crate::beside::bench::{HONEST, behind, completion_at, entry_at};
use crate::beside::runs::Runs;
use nv_bringup::{Fields, HEAD, Random, SLOTS, TAIL, bytes_of};
use nv_entry::Cqe;
use nv_mem::PAGE_SIZE;
use nv_world_model::Event;

/// How many commands there may be at once.
const AREAS: u16 = 4;

/// How many pages of data a command has.
const PAGES: u64 = 3;

/// Opcodes of transfers: Write, Read and Compare; and what PSDT adds to them where the list is an SGL.
const TRANSFERS: [u32; 3] = [1, 2, 5];

const COMPARE: u32 = 5;

const SGL: u32 = 0x4000;

/// The last dword of a Segment and of a Last Segment.
const SEGMENT: u32 = 0x2000_0000;

const LAST: u32 = 0x3000_0000;

/// The upper halves of a Bit Bucket of one block, and of a Last Segment of two descriptors.
const BUCKET: u64 = 0x1000_0000_0000_0200;

const NEXT_ARRAY: u64 = 0x3000_0000_0000_0020;

/// FUA, in CDW12, and AD, in CDW11.
const FUA: u32 = 1 << 30;

const AD: u32 = 4;

/// The guest, under way.
#[derive(Clone, Copy)]
pub struct Busy {
    entered: u16,
    /// how many of its commands have ended, and how many of these well
    pub ended: u16,
    pub succeeded: u16,
    in_use: [bool; AREAS as usize],
}

/// The memory of a command: where its data and its lists begin.
#[derive(Clone, Copy)]
struct Area {
    data: u32,
    list: u32,
}

impl Area {
    // The memory of the command of that number.
    fn of(number: u16) -> Self {
        let place = u32::from(number % AREAS);
        Area {
            data: 0x4000 * place,
            list: 0x1_4000 + 0x2000 * place,
        }
    }
}

impl Busy {
    /// With no command yet.
    pub fn new() -> Self {
        Busy {
            entered: 0,
            ended: 0,
            succeeded: 0,
            in_use: [false; AREAS as usize],
        }
    }

    /// Goes on somewhere: a command is put into the queue, taken, carried on, or polled for in the completion queue.
    pub fn turn(&mut self, runs: &mut Runs, random: &mut Random) {
        match random.below(8) {
            0 | 1 => self.enter(runs, random),
            2 | 3 => take(runs, random),
            4..=6 => carry(runs, random),
            _ => self.look(runs),
        }
    }

    /// Ends what is under way.
    pub fn drain(&mut self, runs: &mut Runs, random: &mut Random) {
        for _ in 0..400 {
            take(runs, random);
            carry(runs, random);
        }
        for _ in 0..AREAS {
            self.look(runs);
        }
    }

    /// Whether each command that was put into the queue has ended.
    pub fn is_idle(&self) -> bool {
        self.entered == self.ended
    }

    // Puts a command into the queue, if there is memory for it.
    fn enter(&mut self, runs: &mut Runs, random: &mut Random) {
        let number = self.entered;
        if self.is_in_use(number) {
            return;
        }
        self.set_in_use(number, true);
        let fields = command(runs, random, Area::of(number));
        runs.store(HONEST, entry_at(number), &bytes_of(&fields.entry(number)));
        runs.ring(HONEST, TAIL, behind(number));
        self.entered = self.entered.wrapping_add(1);
    }

    // Polls for the next completion, and reads the command's data where the completion is there.
    fn look(&mut self, runs: &mut Runs) {
        let number = self.ended;
        runs.load(HONEST, completion_at(number), 16);
        let Some(told) = runs.told_entry() else {
            return;
        };
        let completion = Cqe::of(&told);
        if completion.phase() != (number / SLOTS % 2 == 0) {
            return;
        }
        let data = u64::from(Area::of(completion.cid()).data);
        for page in 0..PAGES {
            runs.load(HONEST, data + PAGE_SIZE * page, PAGE_SIZE);
        }
        if completion.status().is_success() {
            self.succeeded = self.succeeded.wrapping_add(1);
        }
        self.set_in_use(completion.cid(), false);
        self.ended = self.ended.wrapping_add(1);
        runs.ring(HONEST, HEAD, behind(number));
    }

    // Whether the memory of the command of that number has a command.
    fn is_in_use(&self, number: u16) -> bool {
        self.in_use
            .get(usize::from(number % AREAS))
            .copied()
            .unwrap_or(true)
    }

    fn set_in_use(&mut self, number: u16, is: bool) {
        if let Some(room) = self.in_use.get_mut(usize::from(number % AREAS)) {
            *room = is;
        }
    }
}

// Its next command is taken, if it is due.
fn take(runs: &mut Runs, random: &mut Random) {
    let event = Event::Take(HONEST, 1, random.byte() % 2);
    if runs.both.due(&event) {
        runs.play(event);
    }
}

// One of its commands goes on.
fn carry(runs: &mut Runs, random: &mut Random) {
    if let Some(tag) = runs.tags.nth(HONEST, random.word()) {
        runs.carry(tag, random.once_in(2));
    }
}

// A command, and what is in memory for it.
fn command(runs: &mut Runs, random: &mut Random, area: Area) -> Fields {
    match random.below(12) {
        0 => plain(0, [0, 0, 0]),
        1 => plain(8, [random.below(60), 0, flags(random) | random.below(6)]),
        2 => ranges(runs, random, area),
        _ => transfer(runs, random, area),
    }
}

// A command without data.
fn plain(opcode: u32, dwords: [u32; 3]) -> Fields {
    Fields {
        opcode,
        data: [0, 0, 0, 0],
        dwords,
    }
}

// FUA, or nothing.
fn flags(random: &mut Random) -> u32 {
    if random.once_in(4) { FUA } else { 0 }
}

// A Dataset Management of one to three ranges.
fn ranges(runs: &mut Runs, random: &mut Random, area: Area) -> Fields {
    let count = 1 + random.below(3) % 3;
    for place in 0..count {
        let addr = u64::from(area.list) + 16 * u64::from(place);
        let blocks = u64::from(random.below(4)) << 32;
        runs.store_row(HONEST, addr, blocks, u64::from(random.below(62)));
    }
    let deallocate = if random.once_in(2) { AD } else { 0 };
    Fields {
        opcode: 9 | SGL,
        data: [area.list, 0, 16 * count, 0],
        dwords: [count - 1, deallocate, 0],
    }
}

// A Write, Read or Compare by one of six kinds of lists. What a Write moves and a Read replaces is stored before.
fn transfer(runs: &mut Runs, random: &mut Random, area: Area) -> Fields {
    let opcode = random.among(&TRANSFERS);
    if opcode != COMPARE {
        for page in 0..PAGES {
            runs.fill(
                HONEST,
                u64::from(area.data) + PAGE_SIZE * page,
                random.byte(),
            );
        }
    }
    let (list, data, nlb) = listed(runs, random, area);
    Fields {
        opcode: opcode | list,
        data,
        dwords: [random.below(60), 0, flags(random) | nlb],
    }
}

// What names the bytes: PSDT, the data pointer, and NLB.
fn listed(runs: &mut Runs, random: &mut Random, area: Area) -> (u32, [u32; 4], u32) {
    let data = area.data;
    let odd = random.below(256) & 0xff;
    let nlb = random.below(8) & 7;
    match random.below(6) {
        // two pages at most, from an offset on
        0 => (0, [data | 4 * odd & 0x1fc, 0, data | 0x1000, 0], nlb),
        1 => three_pages(runs, area, nlb),
        // one Data Block, which may begin anywhere
        2 => (SGL, [data | odd, 0, 512 * (nlb + 1), 0], nlb),
        // a Data Block of one block, and one of the others
        3 => two_blocks(runs, area, odd, nlb),
        4 => past_bucket(runs, area, odd),
        _ => two_arrays(runs, area),
    }
}

// 17 blocks or more, which end in a third page: two page entries are in a list.
fn three_pages(runs: &mut Runs, area: Area, more: u32) -> (u32, [u32; 4], u32) {
    let Area { data, list } = area;
    let third = u64::from(data | 0x2000);
    runs.store_row(HONEST, u64::from(list), u64::from(data | 0x1000), third);
    (0, [data, 0, list, 0], 16 | more & 7)
}

// A Last Segment: a Data Block of one block, and one of the others, which may begin anywhere.
fn two_blocks(runs: &mut Runs, area: Area, odd: u32, nlb: u32) -> (u32, [u32; 4], u32) {
    let Area { data, list } = area;
    let at = u64::from(list);
    runs.store_row(HONEST, at, u64::from(data), 512);
    let second = u64::from(data | 0x1000 | odd);
    runs.store_row(HONEST, at + 16, second, 512 * u64::from(nlb));
    (SGL, [list, 0, 32, LAST], nlb)
}

// A Last Segment: a Data Block, and a Bit Bucket of one block.
fn past_bucket(runs: &mut Runs, area: Area, odd: u32) -> (u32, [u32; 4], u32) {
    let Area { data, list } = area;
    let at = u64::from(list);
    runs.store_row(HONEST, at, u64::from(data | odd), 512);
    runs.store_row(HONEST, at + 16, 0, BUCKET);
    (SGL, [list, 0, 32, LAST], 1)
}

// A Segment: half a block, and a Last Segment of one block and another half.
fn two_arrays(runs: &mut Runs, area: Area) -> (u32, [u32; 4], u32) {
    let Area { data, list } = area;
    let at = u64::from(list);
    runs.store_row(HONEST, at, u64::from(data), 256);
    runs.store_row(HONEST, at + 16, at + 256, NEXT_ARRAY);
    runs.store_row(HONEST, at + 256, u64::from(data | 0x400), 512);
    runs.store_row(HONEST, at + 272, u64::from(data | 0x900), 256);
    (SGL, [list, 0, 32, SEGMENT], 1)
}
