//! Eight guests of eight extents each on eight lanes, and thousands of their commands side by side: each ends as on a flat controller of that guest
//! alone, the bytes and blocks are the same, and no tag is lost.

use crate::bench::{Bench, block_of};
use nv_bringup::{BLOCKS, Fields, MEMORY, Random, SLOTS, Span, bytes_of};
use nv_entry::{Sqe, Status};
use nv_flat::FlatController;
use nv_mem::PAGE_SIZE;
use nv_model::Reply;
use nv_model::limits::{MOST_LANES, TAGS};
use nv_world_model::Event;
use std::alloc::Global;
use std::process::Abort;

const GUESTS: u8 = 8;

const LANES: u8 = MOST_LANES;

/// How many commands a guest has at once. Each has blocks and memory of its own, so that it doesn't matter in which order they end.
const AT_ONCE: u16 = 4;

/// How many rounds there are, in each of which each guest has that many commands: 10,016 commands.
const ROUNDS: u16 = 313;

/// How often each lane goes on in a round, half of what is due each time, and how often whole.
const SLOW: u8 = 4;

const WHOLE: u8 = 8;

/// The bits that the numbers of lanes have in which commands go, round by round: one lane, two, four or all.
const LANE_BITS: [u32; 4] = [0, 1, 3, 7];

const PAGES: u64 = 12;

const AREA: u32 = 0x3000;

/// Where the lists of ranges begin, and how far apart.
const LISTS: u32 = 0xc000;

const LIST: u32 = 32;

/// AD, in CDW11.
const AD: u32 = 4;

/// Opcodes, with what PSDT adds to those whose list is an SGL.
const FLUSH: u32 = 0;

const ZEROES: u32 = 8;

const MANAGE: u32 = 0x4009;

const TRANSFERS: [u32; 4] = [1, 1, 2, 5];

const SGL: u32 = 0x4000;

const NONE: [u32; 4] = [0; 4];

/// The namespace of a guest: on the disk, each of its extents lies among those of the other guests.
macro_rules! namespace {
    ($guest:literal) => {
        &[
            Span { base: 5 * $guest, blocks: 5 },
            Span { base: 40 + 11 * $guest, blocks: 11 },
            Span { base: 128 + 3 * $guest, blocks: 3 },
            Span { base: 152 + 13 * $guest, blocks: 13 },
            Span { base: 256 + $guest, blocks: 1 },
            Span { base: 264 + 15 * $guest, blocks: 15 },
            Span { base: 384 + 7 * $guest, blocks: 7 },
            Span { base: 440 + 9 * $guest, blocks: 9 },
        ]
    };
}

const NAMESPACES: [&[Span]; GUESTS as usize] = [
    namespace!(0),
    namespace!(1),
    namespace!(2),
    namespace!(3),
    namespace!(4),
    namespace!(5),
    namespace!(6),
    namespace!(7),
];

/// The blocks of a command: so many and one more, from that one on. They lie within the sixteen of its place.
#[derive(Clone, Copy)]
struct Blocks {
    first: u32,
    more: u32,
}

/// What is random of a command: that of a guest and a number is always the same.
#[derive(Clone, Copy)]
struct Choice {
    kind: u32,
    form: u32,
    blocks: Blocks,
}

// What is chosen of a guest's command of that number.
fn chosen(guest: u8, number: u16) -> Choice {
    let mut random = Random::new(u64::from(guest) << 16 | u64::from(number));
    let _first = random.word();
    let more = random.word() & 15;
    let first = 16 * u32::from(number & 3) | random.word() & (15 ^ more);
    Choice {
        kind: random.word() & 7,
        form: random.word() & 15,
        blocks: Blocks { first, more },
    }
}

// A transfer of these blocks from or to an address: by PRP, or by one Data Block, which may begin between dwords.
fn transfer(form: u32, addr: u32, blocks: Blocks) -> Fields {
    let len = 512 * (blocks.more & 15) + 512;
    let (list, data) = match form & 3 {
        0 => (0, [addr, 0, addr.wrapping_add(0x1000), 0]),
        1 => (SGL, [addr, 0, len, 0]),
        _ => (SGL, [addr | 2, 0, len, 0]),
    };
    Fields {
        opcode: TRANSFERS[(form / 4 & 3) as usize] | list,
        data,
        dwords: [blocks.first, 0, blocks.more],
    }
}

// What an entry says of a command.
fn fields_of(choice: &Choice, place: u32) -> Fields {
    let Blocks { first, more } = choice.blocks;
    match choice.kind {
        0 => Fields {
            opcode: FLUSH,
            data: NONE,
            dwords: [0, 0, 0],
        },
        1 => Fields {
            opcode: ZEROES,
            data: NONE,
            dwords: [first, 0, more],
        },
        2 => Fields {
            opcode: MANAGE,
            data: [LISTS + LIST * (place & 3), 0, LIST, 0],
            dwords: [1, choice.form & AD, 0],
        },
        _ => transfer(choice.form, AREA * (place & 3), choice.blocks),
    }
}

// A guest's command of that number.
fn command(guest: u8, number: u16) -> Sqe {
    let fields = fields_of(&chosen(guest, number), u32::from(number));
    Sqe::of(&bytes_of(&fields.entry(number)))
}

// Two ranges of a guest's command of that number: its blocks, and one more.
fn ranges(guest: u8, number: u16) -> [u8; 32] {
    let Blocks { first, more } = chosen(guest, number).blocks;
    let blocks = u128::from(more) + 1 << 32 | u128::from(first) << 64;
    let other = 16 * (number & 3) + (number / 4 & 15);
    let one = 1 << 32 | u128::from(other) << 64;
    let mut bytes = [0; 32];
    bytes[..16].copy_from_slice(&blocks.to_le_bytes());
    bytes[16..].copy_from_slice(&one.to_le_bytes());
    bytes
}

// A page for a command of that number.
fn pattern(number: u16) -> [u8; PAGE_SIZE as usize] {
    let mut bytes = [0u8; PAGE_SIZE as usize];
    for (at, byte) in bytes.iter_mut().enumerate() {
        let place = at as u64;
        let value = u64::from(number)
            .wrapping_mul(37)
            .wrapping_add(place / 512)
            .wrapping_add(place.wrapping_mul(11));
        *byte = (value % 256) as u8;
    }
    bytes
}

/// Eight guests in a world, and a flat controller beside each.
#[derive(Drop)]
struct Many {
    bench: Bench,
    flats: Vec<FlatController>,
    /// which lanes commands go by: those whose numbers have no other bits
    lanes: u32,
    /// how often a command found too few tags free
    busy: u32,
}

// As many flat controllers as there are guests.
fn flats(alloc: Global) -> Option<Vec<FlatController>> {
    let mut flats = Vec::new(alloc);
    for _ in 0..GUESTS {
        let flat = FlatController::new(alloc, MEMORY, BLOCKS).ok()?;
        flats.push(flat).ok()?;
    }
    Some(flats)
}

impl Many {
    // All at their start, the guests with their queues.
    fn new(alloc: Global) -> Option<Self> {
        let mut many = Many {
            bench: Bench::new(alloc, u64::from(LANES), &NAMESPACES, SLOTS)?,
            flats: flats(alloc)?,
            lanes: 0,
            busy: 0,
        };
        many.bring_up();
        Some(many)
    }

    // All guests make their queues.
    fn bring_up(&mut self) {
        for guest in 0..GUESTS {
            self.bench.bring_up(guest);
        }
    }

    // A guest stores bytes in the world and in its flat controller.
    fn store(&mut self, guest: u8, addr: u64, bytes: &[u8]) {
        if let Some(flat) = self.flats.get_mut(usize::from(guest))
            && flat.holds(addr, bytes.len() as u64)
        {
            flat.store(addr, bytes);
            self.bench.store(guest, addr, bytes);
        }
    }

    // A guest stores what its command of that number may want, and puts it into its queue.
    fn enter(&mut self, guest: u8, number: u16) {
        let place = u64::from(number & 3);
        let page = 3 * place + u64::from(number % 3);
        self.store(guest, PAGE_SIZE * page, &pattern(number));
        let list = u64::from(LISTS) + u64::from(LIST) * place;
        self.store(guest, list, &ranges(guest, number));
        self.bench.enter(guest, number, &command(guest, number));
    }

    // Each guest puts its commands of a round into its queue.
    fn enter_all(&mut self, first: u16) {
        for guest in 0..GUESTS {
            for place in 0..AT_ONCE {
                self.enter(guest, first.wrapping_add(place));
            }
        }
    }

    // A guest's next command is taken by some lane, where enough of its tags are free.
    fn take(&mut self, guest: u8) {
        let lane = (self.bench.random.word() & self.lanes & 7) as u8;
        if matches!(self.bench.answers(Event::Take(guest, 1, lane)), Reply::Busy) {
            self.busy = self.busy.wrapping_add(1);
        }
    }

    // Each guest's commands are taken.
    fn take_all(&mut self) {
        for _ in 0..AT_ONCE {
            for guest in 0..GUESTS {
                self.take(guest);
            }
        }
    }

    // Commands are taken, and all lanes go on.
    fn turn(&mut self) {
        self.take_all();
        for lane in 0..LANES {
            self.bench.go_on(lane);
        }
    }

    // Commands are taken and go on that often, and of so many events that are due one is done.
    fn turns(&mut self, often: u8, pace: u32) {
        self.bench.pace = pace;
        for _ in 0..often {
            self.turn();
        }
    }

    // Commands of a round, from that number on, are entered and taken, and some events of them are done.
    fn begin(&mut self, first: u16) {
        self.lanes = LANE_BITS[usize::from(first / AT_ONCE % 4)];
        self.bench.backwards = first / 16 % 2 == 1;
        self.enter_all(first);
        self.turns(SLOW, 2);
    }

    // Whether a tag is free, or of a command whose leader is a tag of the same command.
    fn is_led(&self, lane: u8, tag: u8) -> bool {
        let world = &self.bench.world;
        match world.holder(lane, tag) {
            Some(holder) => world.holder(lane, holder.leader) == Some(holder),
            None => true,
        }
    }

    // Whether all tags of a lane are that.
    fn are_led(&self, lane: u8) -> bool {
        for tag in 0..TAGS {
            if !self.is_led(lane, tag) {
                return false;
            }
        }
        true
    }

    // Whether that is so on all lanes.
    fn are_all_led(&self) -> bool {
        for lane in 0..LANES {
            if !self.are_led(lane) {
                return false;
            }
        }
        true
    }

    // Whether all tags of all lanes are free.
    fn are_free(&self) -> bool {
        for lane in 0..LANES {
            if !self.bench.is_free(lane) {
                return false;
            }
        }
        true
    }

    // The status with which a guest's command of that number ends on its flat controller.
    fn flat_status(&mut self, guest: u8, number: u16) -> Option<Status> {
        let flat = self.flats.get_mut(usize::from(guest))?;
        let ended = flat.one(self.bench.alloc, &command(guest, number)).ok()?;
        Some(ended.status())
    }

    // The place of a guest's command of a round that a completion ends, as the flat controller ends it; none where it is none.
    fn told(&mut self, guest: u8, first: u16, number: u16) -> Option<u16> {
        let told = self.bench.completion(guest, number)?;
        self.bench.look(guest, number);
        let status = self.flat_status(guest, told.cid())?;
        let place = told.cid().wrapping_sub(first);
        if place < AT_ONCE && told.status() == status {
            Some(place)
        } else {
            None
        }
    }

    // Whether each of a guest's commands of a round has ended once, as on the flat controller.
    fn have_ended(&mut self, guest: u8, first: u16) -> bool {
        let mut ended = 0u16;
        for place in 0..AT_ONCE {
            let Some(told) = self.told(guest, first, first.wrapping_add(place)) else {
                return false;
            };
            ended |= 1 << (told & 3);
        }
        ended == 15
    }

    // Whether a page of a guest's memory is the same as the flat controller's.
    fn is_same_page(&self, guest: u8, addr: u64) -> bool {
        let mut bytes = [0; PAGE_SIZE as usize];
        match self.flats.get(usize::from(guest)) {
            Some(flat) if flat.holds(addr, PAGE_SIZE) => {
                flat.load(addr, &mut bytes);
                self.bench.shows(guest, addr, &bytes)
            }
            _ => false,
        }
    }

    // Whether all pages of its data are.
    fn are_same_pages(&self, guest: u8) -> bool {
        for page in 0..PAGES {
            if !self.is_same_page(guest, PAGE_SIZE * page) {
                return false;
            }
        }
        true
    }

    // Whether one of a guest's blocks is the same as the flat controller's.
    fn is_same_block(&self, guest: u8, block: u64) -> bool {
        let number = block_of(NAMESPACES[usize::from(guest & 7)], block);
        match (self.flats.get(usize::from(guest)), number) {
            (Some(flat), Some(number)) if block < flat.blocks() => {
                self.bench.world.block(number) == Some(flat.block(block))
            }
            _ => false,
        }
    }

    // Whether all its blocks are.
    fn are_same_blocks(&self, guest: u8) -> bool {
        for block in 0..BLOCKS {
            if !self.is_same_block(guest, block) {
                return false;
            }
        }
        true
    }

    // Whether the round from that number on has ended for a guest as on its flat controller.
    fn is_alike(&mut self, guest: u8, first: u16) -> bool {
        self.have_ended(guest, first) && self.are_same_pages(guest) && self.are_same_blocks(guest)
    }

    // Whether it has for all of them.
    fn are_alike(&mut self, first: u16) -> bool {
        for guest in 0..GUESTS {
            if !self.is_alike(guest, first) {
                return false;
            }
        }
        !self.bench.failed
    }
}

// Ends the test where a tag is lost in the round from that number on, or some command ends otherwise than on the flat controller.
fn expect_round(rt: &impl Abort, many: &mut Many, first: u16) {
    many.begin(first);
    assert!(rt; many.are_all_led(), "{first}");
    many.turns(WHOLE, 1);
    assert!(rt; many.are_free(), "{first}");
    assert!(rt; many.are_alike(first), "{first}");
}

// Ends the test where it does in some round.
fn expect_rounds(rt: &impl Abort, many: &mut Many) {
    for round in 0..ROUNDS {
        expect_round(rt, many, AT_ONCE.wrapping_mul(round));
    }
    assert!(rt; many.busy >= 1000, "{}", many.busy);
}

#[test]
fn thousands_of_commands_lose_no_tag(rt: HostRuntime) {
    let mut many = Many::new(rt.alloc()).expect(&rt, "eight guests");
    expect_rounds(&rt, &mut many);
}
