//! Random commands: those of a guest that keeps to the rules, and any.

use crate::desk::Form;
use crate::pair::Pair;
use nv_bringup::{Fields, Random};

/// Pages of data.
const PAGES: [u32; 8] = [
    0x3000, 0x4000, 0x5000, 0x8000, 0x9000, 0xa000, 0x1_4000, 0x1_e000,
];

/// Where the lists of the commands lie: of pages, of descriptors, and of ranges.
const PAGE_LIST: u64 = 0x6000;

const DESCRIPTORS: u64 = 0x7000;

const RANGES: u64 = 0x7800;

/// Rows of descriptors: each of 512 bytes; two are of one place, and one goes on from the first region of the first guest to its second.
const PLACES: [u64; 4] = [0x3e00, 0x5002, 0x1_fff0, 0x5002];

/// A guest stores the lists that its commands name.
pub fn store_lists(pair: &mut Pair, guest: u8) {
    for number in 0..8 {
        let low = u64::from(PAGES[number]);
        let high = u64::from(PAGES[7 - number]);
        let addr = PAGE_LIST + 16 * number as u64;
        pair.store_row(guest, addr, low, high, Form::Plain);
    }
    for number in 0..4 {
        let row = 16 * number as u64;
        pair.store_row(guest, DESCRIPTORS + row, PLACES[number], 512, Form::Lent);
        let range = 11 * number as u64;
        pair.store_row(guest, RANGES + row, 3 << 32, 25 + range % 30, Form::Plain);
    }
}

/// A guest changes what is in one of its pages.
pub fn change_page(pair: &mut Pair, guest: u8, random: &mut Random) {
    let page = u64::from(random.among(&PAGES));
    let addr = page + 256 * u64::from(random.below(16));
    let byte = random.byte();
    let mut bytes = [byte; 256];
    bytes[0] = random.byte();
    bytes[255] = random.byte();
    pair.store(guest, addr, &bytes, form(random));
}

/// Either form.
pub fn form(random: &mut Random) -> Form {
    if random.once_in(2) {
        Form::Lent
    } else {
        Form::Plain
    }
}

/// A command of a guest that keeps to the rules.
pub fn sane(random: &mut Random) -> [u32; 16] {
    let identifier = u16::from(random.byte());
    let fields = match random.below(8) {
        0..=2 => by_pages(random),
        3 | 4 => by_block(random),
        5 => by_descriptors(random),
        6 => managing(random),
        _ => plain(random),
    };
    fields.entry(identifier)
}

// The opcode of a Write, Read or Compare.
fn transfers(random: &mut Random) -> u32 {
    random.among(&[1, 2, 1, 2, 5])
}

// The last dword of a transfer of so many blocks: NLB, and at times FUA.
fn length(random: &mut Random, nlb: u32) -> u32 {
    let fua = if random.once_in(4) { 1 << 30 } else { 0 };
    nlb | fua
}

// A transfer by pages: by one, by two, or by a list.
fn by_pages(random: &mut Random) -> Fields {
    let nlb = random.among(&[0, 1, 3, 7, 15]) & 15;
    let offset = random.among(&[0, 0, 0x200, 4, 0xe00]) & 0xfff;
    let second = if offset + 512 * nlb + 512 <= 4096 {
        0
    } else if offset + 512 * nlb + 512 <= 8192 {
        random.among(&PAGES)
    } else {
        0x6000 | 8 * random.below(8)
    };
    Fields {
        opcode: transfers(random),
        data: [random.among(&PAGES) | offset, 0, second, 0],
        dwords: [random.below(48), 0, length(random, nlb)],
    }
}

// A transfer by one descriptor, of any bytes in a row.
fn by_block(random: &mut Random) -> Fields {
    let nlb = random.below(8) & 7;
    let addr = random.among(&PAGES) | random.among(&[0, 0, 0x200, 2, 0xffe]);
    Fields {
        opcode: transfers(random) | 0x4000,
        data: [addr, 0, 512 * nlb + 512, 0],
        dwords: [random.below(56), 0, length(random, nlb)],
    }
}

// A transfer by a list of descriptors of a block each.
fn by_descriptors(random: &mut Random) -> Fields {
    let nlb = random.below(4) & 3;
    Fields {
        opcode: transfers(random) | 0x4000,
        data: [0x7000, 0, 16 * nlb + 16, 0x3000_0000],
        dwords: [random.below(60), 0, length(random, nlb)],
    }
}

// A Dataset Management of one to four ranges, which most often deallocates.
fn managing(random: &mut Random) -> Fields {
    Fields {
        opcode: 9,
        data: [0x7800, 0, 0, 0],
        dwords: [random.below(4), random.among(&[4, 4, 0]), 0],
    }
}

// A Flush or a Write Zeroes.
fn plain(random: &mut Random) -> Fields {
    let nlb = random.below(8);
    Fields {
        opcode: random.among(&[0, 8]),
        data: [0; 4],
        dwords: [random.below(48), 0, length(random, nlb)],
    }
}
