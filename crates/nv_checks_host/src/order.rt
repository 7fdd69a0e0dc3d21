//! The order of a call's accesses to the host's memory. Of a completion of the drive the dword with the phase tag is read first, and its other dwords only
//! where the tag is the wanted one: a drive that writes the completion meanwhile, with its phase tag last, is never read in half. What a Read has read is in
//! the guest's memory before its completion is: a guest that looks at its queue meanwhile never sees the one without the other.

use crate::desk::Form;
use crate::two_guests::FIRST_HOST;
use crate::working::{Shop, Way, by_descriptors, opened, stores};
use nv_bringup::COMPLETIONS;
use nv_model::limits::PAGE_SIZE;
use nv_world_model::Event;
use std::alloc::Global;
use std::process::Abort;

/// Two pages of the guest's memory, at whose beginnings the Read's two blocks go, and where its list lies.
const DATA: u64 = 0x4000;

const LIST: u32 = 0x7000;

/// By which calls the mediator does its part.
#[derive(Clone, Copy, PartialEq, Eq)]
enum By {
    /// by work of all
    Work,
    /// by one call an event
    Steps,
    /// by a close of the lane, and then by work
    Close,
}

// Whether the last call has read the last dword of the completion at an address before it read the others, and not once more.
fn reads_tag_first(shop: &Shop, slot: u64) -> bool {
    let Some(watched) = shop.desk.watched() else {
        return false;
    };
    let others = watched.first(false, slot, 12);
    let last = watched.last(false, slot.wrapping_add(12), 4);
    match (last, others) {
        (Some(last), Some(others)) => last < others && watched.has_all(),
        _ => false,
    }
}

// Whether it has read the last dword of that completion alone.
fn reads_tag_alone(shop: &Shop, slot: u64) -> bool {
    let Some(watched) = shop.desk.watched() else {
        return false;
    };
    watched.first(false, slot, 12).is_none()
        && watched.first(false, slot.wrapping_add(12), 4).is_some()
        && watched.has_all()
}

// Whether it has written the Read's bytes before it wrote the guest's completion.
fn delivers_first(shop: &Shop) -> bool {
    let Some(watched) = shop.desk.watched() else {
        return false;
    };
    let data = watched.last(true, FIRST_HOST + DATA, 2 * PAGE_SIZE);
    let completion = watched.first(true, FIRST_HOST + COMPLETIONS, 16);
    match (data, completion) {
        (Some(data), Some(completion)) => data < completion && watched.has_all(),
        _ => false,
    }
}

// An event is carried out by a call of its own; whether there was memory for it.
fn steps(shop: &mut Shop, event: &Event) -> bool {
    shop.desk.step(shop.alloc, event, Form::Plain).is_ok()
}

// The drive has completed the Read: its completion is read.
fn reads(rt: &impl Abort, shop: &mut Shop, by: By, slot: u64) {
    match by {
        By::Work => {}
        By::Steps => {
            assert!(rt; steps(shop, &Event::Reap(0)));
            assert!(rt; reads_tag_first(shop, slot));
        }
        By::Close => {
            shop.desk.close(0);
            assert!(rt; reads_tag_first(shop, slot));
        }
    }
}

// And the Read is completed for its guest.
fn completes(rt: &impl Abort, shop: &mut Shop, by: By, slot: u64) {
    match by {
        By::Work => {
            assert!(rt; shop.works() == (2, true));
            assert!(rt; reads_tag_first(shop, slot));
        }
        By::Steps => {
            assert!(rt; steps(shop, &Event::Post(0, 0)));
        }
        By::Close => {
            assert!(rt; shop.works() == (1, true));
        }
    }
    assert!(rt; delivers_first(shop));
    assert!(rt; shop.was_completed(0, 1, 1));
}

// A Read by way of the bounce pages, to the drive and back.
fn plays(rt: &impl Abort, alloc: Global, by: By) {
    let mut shop = opened(rt, alloc, Way::All);
    stores(rt, &mut shop, 0);
    let slot = shop.desk.next_completion(0);
    assert!(rt; shop.enters(0, by_descriptors(2, LIST)));
    assert!(rt; shop.works().1);
    assert!(rt; reads_tag_alone(&shop, slot));
    assert!(rt; !shop.desk.due(&Event::Reap(0)) && reads_tag_alone(&shop, slot));
    assert!(rt; steps(&mut shop, &Event::Reap(0)) && reads_tag_alone(&shop, slot));
    shop.drives_all();
    assert!(rt; shop.desk.due(&Event::Reap(0)) && reads_tag_alone(&shop, slot));
    reads(rt, &mut shop, by, slot);
    completes(rt, &mut shop, by, slot);
}

/// By work of all.
#[test]
fn work_reads_the_tag_and_delivers_first(rt: HostRuntime) {
    plays(&rt, rt.alloc(), By::Work);
}

/// By one call an event.
#[test]
fn so_does_one_call_an_event(rt: HostRuntime) {
    plays(&rt, rt.alloc(), By::Steps);
}

/// By a close of the lane, and work after it.
#[test]
fn so_does_a_close(rt: HostRuntime) {
    plays(&rt, rt.alloc(), By::Close);
}
