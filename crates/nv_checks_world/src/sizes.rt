//! Sizes at and beyond each limit of a set-up.

use nv_bringup::{Span, extents_of};
use nv_mem::{GuestMap, PAGE_SIZE, Region};
use nv_world::{GuestSetup, Refusal, Setup, World};
use nv_world_model::Logged;
use std::alloc::Global;
use std::process::Abort;
use std::test::Fail;

const IMAGES: u64 = 0x10_0000;

/// What the last guest has: its extents, its limit on descriptors, where its memory lies in the host, in how many
/// regions of a page, and the length of the host that its map was made for.
#[derive(Clone, Copy)]
struct Seat {
    extents: &'static [Span],
    limit: u32,
    image: u64,
    regions: u64,
    made_for: u64,
}

/// A set-up with so many guests, all but the last with a block and a page of their own, and what comes of it.
struct Case {
    name: &'static str,
    host: u64,
    mediator: u64,
    disk: u64,
    lanes: u64,
    guests: u8,
    last: Seat,
}

const HOST: u64 = 0x100_0000;

/// One extent of 64 blocks.
const BLOCKS: &[Span] = &[Span {
    base: 64,
    blocks: 64,
}];

/// Eight, each of a block.
const EIGHT: &[Span] = &[
    Span { base: 7, blocks: 1 },
    Span { base: 6, blocks: 1 },
    Span { base: 5, blocks: 1 },
    Span { base: 4, blocks: 1 },
    Span { base: 3, blocks: 1 },
    Span { base: 2, blocks: 1 },
    Span { base: 1, blocks: 1 },
    Span { base: 0, blocks: 1 },
];

/// Nine, each of a block.
const NINE: &[Span] = &[
    Span { base: 0, blocks: 1 },
    Span { base: 1, blocks: 1 },
    Span { base: 2, blocks: 1 },
    Span { base: 3, blocks: 1 },
    Span { base: 4, blocks: 1 },
    Span { base: 5, blocks: 1 },
    Span { base: 6, blocks: 1 },
    Span { base: 7, blocks: 1 },
    Span { base: 8, blocks: 1 },
];

const SEAT: Seat = Seat {
    extents: BLOCKS,
    limit: 1024,
    image: 0x20_0000,
    regions: 1,
    made_for: HOST,
};

/// A set-up with one guest.
const PLAIN: Case = Case {
    name: "one guest",
    host: HOST,
    mediator: 0x40_0000,
    disk: 128,
    lanes: 1,
    guests: 1,
    last: SEAT,
};

/// Sizes at each limit, but for those of a gigabyte.
const ACCEPTED: &[Case] = &[
    PLAIN,
    Case {
        name: "no guest",
        guests: 0,
        ..PLAIN
    },
    Case {
        name: "16 guests",
        guests: 16,
        ..PLAIN
    },
    Case {
        name: "an area that ends where the host does",
        host: 0xc4_3000,
        last: Seat {
            made_for: 0xc4_3000,
            ..SEAT
        },
        ..PLAIN
    },
    Case {
        name: "8 lanes",
        host: 0x461_8000,
        lanes: 8,
        last: Seat {
            made_for: 0x461_8000,
            ..SEAT
        },
        ..PLAIN
    },
    Case {
        name: "a disk of one block",
        disk: 1,
        last: Seat {
            extents: &[Span { base: 0, blocks: 1 }],
            ..SEAT
        },
        ..PLAIN
    },
    Case {
        name: "two extents",
        last: Seat {
            extents: &[
                Span {
                    base: 96,
                    blocks: 32,
                },
                Span {
                    base: 64,
                    blocks: 32,
                },
            ],
            ..SEAT
        },
        ..PLAIN
    },
    Case {
        name: "8 extents",
        last: Seat {
            extents: EIGHT,
            ..SEAT
        },
        ..PLAIN
    },
    Case {
        name: "one descriptor",
        last: Seat { limit: 1, ..SEAT },
        ..PLAIN
    },
    Case {
        name: "4,096 descriptors",
        last: Seat {
            limit: 4096,
            ..SEAT
        },
        ..PLAIN
    },
    Case {
        name: "no region",
        last: Seat { regions: 0, ..SEAT },
        ..PLAIN
    },
    Case {
        name: "64 regions",
        last: Seat {
            regions: 64,
            ..SEAT
        },
        ..PLAIN
    },
];

/// One more than each limit allows, or one less.
const BAD_SIZES: &[Case] = &[
    Case {
        name: "no lane",
        lanes: 0,
        ..PLAIN
    },
    Case {
        name: "9 lanes",
        host: 0x1000_0000,
        lanes: 9,
        last: Seat {
            made_for: 0x1000_0000,
            ..SEAT
        },
        ..PLAIN
    },
    Case {
        name: "no block",
        disk: 0,
        ..PLAIN
    },
    Case {
        name: "a disk of more than a gigabyte",
        disk: 2_097_153,
        ..PLAIN
    },
    Case {
        name: "a host of more than a gigabyte",
        host: 0x4000_1000,
        last: Seat {
            made_for: 0x4000_1000,
            ..SEAT
        },
        ..PLAIN
    },
    Case {
        name: "a host that ends within a page",
        host: 0x100_0800,
        last: Seat {
            made_for: 0x100_0800,
            ..SEAT
        },
        ..PLAIN
    },
    Case {
        name: "an area that begins within a page",
        mediator: 0x40_0800,
        ..PLAIN
    },
    Case {
        name: "an area that ends behind the host",
        host: 0xc4_2000,
        last: Seat {
            made_for: 0xc4_2000,
            ..SEAT
        },
        ..PLAIN
    },
    Case {
        name: "8 lanes whose area ends behind the host",
        host: 0x461_7000,
        lanes: 8,
        last: Seat {
            made_for: 0x461_7000,
            ..SEAT
        },
        ..PLAIN
    },
    Case {
        name: "no extent",
        last: Seat {
            extents: &[],
            ..SEAT
        },
        ..PLAIN
    },
    Case {
        name: "an extent of no block",
        last: Seat {
            extents: &[Span {
                base: 64,
                blocks: 0,
            }],
            ..SEAT
        },
        ..PLAIN
    },
    Case {
        name: "an extent that ends behind the disk",
        last: Seat {
            extents: &[Span {
                base: 65,
                blocks: 64,
            }],
            ..SEAT
        },
        ..PLAIN
    },
    Case {
        name: "an extent whose end wraps",
        last: Seat {
            extents: &[Span {
                base: u64::MAX,
                blocks: 64,
            }],
            ..SEAT
        },
        ..PLAIN
    },
    Case {
        name: "9 extents",
        last: Seat {
            extents: NINE,
            ..SEAT
        },
        ..PLAIN
    },
    Case {
        name: "no descriptor",
        last: Seat { limit: 0, ..SEAT },
        ..PLAIN
    },
    Case {
        name: "4,097 descriptors",
        last: Seat {
            limit: 4097,
            ..SEAT
        },
        ..PLAIN
    },
    Case {
        name: "65 regions",
        last: Seat {
            regions: 65,
            ..SEAT
        },
        ..PLAIN
    },
    Case {
        name: "a map for another host",
        last: Seat {
            made_for: HOST + PAGE_SIZE,
            ..SEAT
        },
        ..PLAIN
    },
];

/// A last guest an extent of which meets another's, and whose memory meets the mediator's area, with a limit that may not
/// be.
const MEETING: Seat = Seat {
    extents: &[Span {
        base: 0,
        blocks: 64,
    }],
    limit: 0,
    image: 0x40_0000,
    regions: 1,
    made_for: HOST,
};

/// Set-ups with more than one fault: the lowest is reported.
const LOWEST: &[(Refusal, Case)] = &[
    (
        Refusal::TooManyGuests,
        Case {
            name: "17 guests",
            guests: 17,
            ..PLAIN
        },
    ),
    (
        Refusal::TooManyGuests,
        Case {
            name: "17 guests and every other fault",
            guests: 17,
            lanes: 9,
            last: MEETING,
            ..PLAIN
        },
    ),
    (
        Refusal::ExtentsMeet,
        Case {
            name: "extents and memory that meet, and 9 lanes",
            guests: 2,
            lanes: 9,
            last: MEETING,
            ..PLAIN
        },
    ),
    (
        Refusal::ExtentsMeet,
        Case {
            name: "two extents of one guest that meet",
            last: Seat {
                extents: &[
                    Span {
                        base: 64,
                        blocks: 32,
                    },
                    Span {
                        base: 95,
                        blocks: 8,
                    },
                ],
                ..SEAT
            },
            ..PLAIN
        },
    ),
    (
        Refusal::ExtentsMeet,
        Case {
            name: "a second extent that meets another guest's",
            guests: 2,
            last: Seat {
                extents: &[
                    Span {
                        base: 64,
                        blocks: 32,
                    },
                    Span { base: 0, blocks: 2 },
                ],
                ..SEAT
            },
            ..PLAIN
        },
    ),
    (
        Refusal::ExtentsMeet,
        Case {
            name: "extents that meet where there is no disk",
            last: Seat {
                extents: &[Span {
                    base: u64::MAX,
                    blocks: 1,
                }; 2],
                ..SEAT
            },
            ..PLAIN
        },
    ),
    (
        Refusal::MapsMeet,
        Case {
            name: "memory in the area, and 9 lanes",
            lanes: 9,
            last: MEETING,
            ..PLAIN
        },
    ),
    (
        Refusal::MapsMeet,
        Case {
            name: "memory of two guests that meets, and no block",
            guests: 2,
            disk: 0,
            last: Seat {
                image: IMAGES + PAGE_SIZE,
                ..SEAT
            },
            ..PLAIN
        },
    ),
];

// What a guest has that is not the last, but for its block: a page.
fn plain_seat(number: u8, made_for: u64) -> Seat {
    Seat {
        image: IMAGES + PAGE_SIZE * u64::from(number),
        made_for,
        ..SEAT
    }
}

// A guest with that, and these blocks.
fn guest(alloc: Global, seat: &Seat, spans: &[Span]) -> Result<GuestSetup, Fail> {
    let mut regions = Vec::new(alloc);
    for number in 0..seat.regions {
        regions.push(Region {
            guest: 2 * PAGE_SIZE * (number % 128),
            host: seat.image.wrapping_add(PAGE_SIZE * (number % 128)),
            len: PAGE_SIZE,
        })?;
    }
    Ok(GuestSetup {
        map: GuestMap::new(seat.made_for, regions)?,
        extents: extents_of(alloc, spans)?,
        limit: seat.limit,
    })
}

// The guests of a case.
fn guests(alloc: Global, case: &Case) -> Result<Vec<GuestSetup>, Fail> {
    let mut guests = Vec::new(alloc);
    for number in 1..case.guests {
        let block = Span {
            base: u64::from(number),
            blocks: 1,
        };
        guests.push(guest(alloc, &plain_seat(number, case.host), &[block])?)?;
    }
    if case.guests > 0 {
        guests.push(guest(alloc, &case.last, case.last.extents)?)?;
    }
    Ok(guests)
}

// The world of a case, or why there is none.
fn opened(alloc: Global, case: &Case) -> Result<Result<World, Refusal>, Fail> {
    let setup = Setup {
        host_bytes: case.host,
        mediator: case.mediator,
        disk_blocks: case.disk,
        lanes: case.lanes,
        guests: guests(alloc, case)?,
    };
    Ok(World::new(alloc, setup))
}

// Whether a world is at its start, with so many guests and blocks.
fn is_opened(world: &World, case: &Case) -> bool {
    let guests = case.guests;
    world.log().is_empty()
        && world.host().len() == case.host
        && world.map(guests).is_none()
        && (guests == 0 || world.map(guests - 1).is_some())
        && world.kept(case.disk) == None
        && world.block(case.disk).is_none()
}

#[test]
fn opens_set_ups_at_each_limit(rt: HostRuntime) -> Result<(), Fail> {
    expect_opened(&rt, rt.alloc(), ACCEPTED)
}

fn expect_opened(rt: &impl Abort, alloc: Global, cases: &[Case]) -> Result<(), Fail> {
    for case in cases {
        let world = opened(alloc, case)?;
        let world = world.expect(rt, case.name);
        assert!(rt; is_opened(&world, case), "{}", case.name);
    }
    Ok(())
}

#[test]
fn refuses_sizes_beyond_each_limit(rt: HostRuntime) -> Result<(), Fail> {
    expect_bad_sizes(&rt, rt.alloc(), BAD_SIZES)
}

fn expect_bad_sizes(rt: &impl Abort, alloc: Global, cases: &[Case]) -> Result<(), Fail> {
    for case in cases {
        let refused = opened(alloc, case)?.err();
        assert_eq!(rt; refused, Some(Refusal::BadSize), "{}", case.name);
    }
    Ok(())
}

#[test]
fn tells_the_lowest_refusal(rt: HostRuntime) -> Result<(), Fail> {
    expect_lowest(&rt, rt.alloc(), LOWEST)
}

fn expect_lowest(rt: &impl Abort, alloc: Global, cases: &[(Refusal, Case)]) -> Result<(), Fail> {
    for (want, case) in cases {
        let refused = opened(alloc, case)?.err();
        assert_eq!(rt; refused, Some(*want), "{}", case.name);
    }
    Ok(())
}

/// How many bytes a member of the log has at most, besides the bytes that it holds through a pointer.
const LOGGED: usize = 64;

#[test]
fn a_member_of_the_log_is_small(rt: HostRuntime) {
    assert!(rt; size_of::<Logged>() <= LOGGED);
}
