//! What a device may be, and what it may take.

use crate::device::bench::{Bench, Entry, MEDIATOR};
use nv_device::{Device, Response};
use nv_model::limits::{LANE_SIZE, MOST_DISK_BLOCKS, MOST_LANES, PAGE_SIZE};
use std::test::Fail;

#[test]
fn sizes_of_a_device(rt: HostRuntime) {
    assert!(rt;
        Device::fits(MEDIATOR, 1, 1)
            && Device::fits(MEDIATOR, MOST_LANES, MOST_DISK_BLOCKS)
            && Device::fits(0, MOST_LANES, 1)
    );
    assert!(rt;
        !Device::fits(MEDIATOR + 1, 1, 1)
            && !Device::fits(MEDIATOR, 0, 1)
            && !Device::fits(MEDIATOR, MOST_LANES + 1, 1)
    );
    assert!(rt; !Device::fits(MEDIATOR, 1, 0) && !Device::fits(MEDIATOR, 1, MOST_DISK_BLOCKS + 1));
    // the area of a lane that ends at 2 to the 64, and one a page after it
    assert!(rt;
        Device::fits(0u64.wrapping_sub(LANE_SIZE), 1, 1)
            && !Device::fits(0u64.wrapping_sub(LANE_SIZE - PAGE_SIZE), 1, 1)
    );
}

#[test]
fn entries_that_may_not_be_taken(rt: HostRuntime) -> Result<(), Fail> {
    let mut bench = Bench::new(rt.alloc(), 0x100_0000, 1, 64)?.expect(
        &rt,
        "a device of these sizes",
    );
    let read = Entry {
        prp1: 0x10_3000,
        ..Entry::new(2)
    };
    let refused = [
        // an identifier above 63; a block past the end of the disk; two blocks, of which one is
        Entry {
            identifier: 64,
            ..read
        },
        Entry { cdw10: 64, ..read },
        Entry {
            cdw10: 63,
            cdw12: 1,
            ..read
        },
        // PRP1 that is no multiple of 4, or outside the host
        Entry {
            prp1: 0x10_3002,
            ..read
        },
        Entry {
            prp1: 0x100_0000,
            ..read
        },
        // a page entry with an offset, and a list outside the host
        Entry {
            prp2: 0x10_5004,
            cdw12: 15,
            ..read
        },
        Entry {
            prp2: 0x100_0000,
            cdw12: 23,
            ..read
        },
    ];
    for entry in refused {
        assert!(rt; bench.enter(0, 0, &entry) && bench.take(rt.alloc(), 0).is_none());
    }
    // an identifier that the device holds
    assert!(rt; bench.enter(0, 0, &read) && bench.take(rt.alloc(), 0) == Some(Response::Done));
    assert!(rt; bench.enter(0, 1, &read) && bench.take(rt.alloc(), 0).is_none());
    Ok(())
}

#[test]
fn a_list_is_read_once(rt: HostRuntime) -> Result<(), Fail> {
    let mut bench = Bench::new(rt.alloc(), 0x100_0000, 1, 64)?.expect(
        &rt,
        "a device of these sizes",
    );
    // 24 blocks: a page and a list of two, 105000h and 107000h
    let read = Entry {
        prp1: 0x10_3000,
        prp2: 0x10_9000,
        cdw12: 23,
        ..Entry::new(2)
    };
    assert!(rt;
        bench.store(0x10_9000, &0x10_5000u64.to_le_bytes())
            && bench.store(0x10_9008, &0x10_7000u64.to_le_bytes())
    );
    assert!(rt; bench.store(0x10_7000, &[0xee; 512]) && bench.store(0x10_b000, &[0xee; 512]));
    assert!(rt; bench.enter(0, 0, &read) && bench.take(rt.alloc(), 0) == Some(Response::Done));
    // what the list says later doesn't matter
    assert!(rt; bench.store(0x10_9008, &0x10_b000u64.to_le_bytes()));
    assert!(rt; bench.move_unit(0, 0, 16) == Some(Response::Done));
    assert!(rt; bench.is_filled(0x10_7000, 512, 0) && bench.is_filled(0x10_b000, 512, 0xee));
    Ok(())
}
