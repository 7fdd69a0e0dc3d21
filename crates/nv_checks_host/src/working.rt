//! What is due, carried out by `work` alone: of all, by scopes, and one event at a time.

use crate::bench::Bench;
use crate::desk::{Desk, Form};
use crate::rounds::{FLUSH, brought_up, queue};
use crate::two_guests::{GUESTS, desk};
use nv_bringup::{
    ADMIN_SUBMISSIONS, ADMIN_TAIL, BRING_UP, CC, COMPLETIONS, CREATE_COMPLETION_QUEUE,
    CREATE_SUBMISSION_QUEUE, Deed, Fields, HEAD, SLOTS, SUBMISSIONS, TAIL, act_of,
};
use nv_entry::{Cqe, StatusCode};
use nv_host::{Scope, Why, Worked};
use nv_mem::BoxedBytes;
use nv_model::limits::TAGS;
use nv_model::{Act, Reply};
use nv_world_model::Event;
use std::alloc::Global;
use std::process::Abort;

/// How many lanes there are.
const LANES: u8 = 2;

/// More events than any round has.
const MANY: u64 = 10_000;

/// Where the second queue pair of a guest lies, and the doorbells of its queues.
const SECOND_COMPLETIONS: u64 = 0x1_4000;

const SECOND_SUBMISSIONS: u64 = 0x1_5000;

const SECOND_TAIL: u32 = 0x1010;

const SECOND_HEAD: u32 = 0x1014;

/// In which way the host asks for work.
#[derive(Clone, Copy, PartialEq, Eq)]
pub enum Way {
    /// of all at once
    All,
    /// of each guest and each lane
    Scopes,
    /// of all, one event at a time
    Steps,
}

/// A desk, and how many commands each guest has entered.
#[derive(Drop)]
pub struct Shop {
    pub alloc: Global,
    pub desk: Desk,
    way: Way,
    entered: [u16; GUESTS as usize],
}

impl Shop {
    // Guests without queues.
    fn new(alloc: Global, way: Way) -> Option<Self> {
        Some(Shop {
            alloc,
            desk: desk(alloc, LANES)?,
            way,
            entered: [0; GUESTS as usize],
        })
    }

    // A guest acts; whether it was done.
    fn acts(&mut self, guest: u8, act: Act) -> bool {
        let event = Event::Guest(guest, act);
        let reply = self.desk.step(self.alloc, &event, Form::Plain);
        matches!(reply, Ok(Reply::Done | Reply::Bytes(_)))
    }

    // A guest does what a deed says; whether it was done.
    fn does(&mut self, guest: u8, deed: &Deed) -> bool {
        match act_of(self.alloc, deed) {
            Ok(act) => self.acts(guest, act),
            Err(_) => false,
        }
    }

    // A guest stores 16 bytes: two addresses, or a descriptor.
    fn stores_row(&mut self, guest: u8, addr: u64, low: u64, high: u64) -> bool {
        let row = u128::from(low) | u128::from(high) << 64;
        match BoxedBytes::from_slice(self.alloc, &row.to_le_bytes()) {
            Ok(bytes) => self.acts(guest, Act::Store { addr, bytes }),
            Err(_) => false,
        }
    }

    /// A guest puts a command into its queue and rings; the identifiers are 1, 2 and so on.
    pub fn enters(&mut self, guest: u8, fields: Fields) -> bool {
        let Some(entered) = self.entered.get_mut(usize::from(guest)) else {
            return false;
        };
        let number = *entered;
        *entered = number.wrapping_add(1);
        let addr = SUBMISSIONS + 64 * u64::from(number % SLOTS);
        let tail = u32::from(number.wrapping_add(1) % SLOTS);
        self.does(
            guest,
            &Deed::Entry(addr, fields.entry(number.wrapping_add(1))),
        ) && self.does(guest, &Deed::Doorbell(TAIL, tail))
    }

    // A guest with queue pair 1 makes a second one; whether it has.
    fn makes_second_pair(&mut self, guest: u8) -> bool {
        let mut completions = CREATE_COMPLETION_QUEUE;
        completions[6] = SECOND_COMPLETIONS as u32;
        completions[10] = 0x000f_0002;
        let mut submissions = CREATE_SUBMISSION_QUEUE;
        submissions[6] = SECOND_SUBMISSIONS as u32;
        submissions[10] = 0x000f_0002;
        submissions[11] = 0x0002_0001;
        self.does(guest, &Deed::Entry(ADMIN_SUBMISSIONS + 128, completions))
            && self.does(guest, &Deed::Entry(ADMIN_SUBMISSIONS + 192, submissions))
            && self.does(guest, &Deed::Doorbell(ADMIN_TAIL, 4))
            && self.works() == (2, true)
    }

    // A guest puts a Flush into its second queue, in that slot, and rings; the identifier is that of the slot.
    fn enters_second(&mut self, guest: u8, slot: u16) -> bool {
        let addr = SECOND_SUBMISSIONS + 64 * u64::from(slot % SLOTS);
        let tail = u32::from(slot.wrapping_add(1) % SLOTS);
        self.does(guest, &Deed::Entry(addr, flush().entry(slot)))
            && self.does(guest, &Deed::Doorbell(SECOND_TAIL, tail))
    }

    /// What is due is carried out in the host's way; how many events that were, and whether nothing stopped them.
    pub fn works(&mut self) -> (u64, bool) {
        match self.way {
            Way::All => told(self.desk.work(self.alloc, Scope::All, MANY)),
            Way::Scopes => self.works_by_scopes(),
            Way::Steps => self.works_by_steps(),
        }
    }

    // The same of each guest and each lane.
    fn works_by_scopes(&mut self) -> (u64, bool) {
        let mut done: u64 = 0;
        let mut well = true;
        for guest in 0..GUESTS {
            let part = told(self.desk.work(self.alloc, Scope::Guest(guest), MANY));
            done = done.saturating_add(part.0);
            well &= part.1;
        }
        for lane in 0..LANES {
            let part = told(self.desk.work(self.alloc, Scope::Lane(lane), MANY));
            done = done.saturating_add(part.0);
            well &= part.1;
        }
        (done, well)
    }

    // The same one event at a time, until none is left.
    fn works_by_steps(&mut self) -> (u64, bool) {
        let mut done: u64 = 0;
        for _ in 0..MANY {
            let part = told(self.desk.work(self.alloc, Scope::All, 1));
            if part.0 != 1 || !part.1 {
                return (done, part.0 == 0 && part.1);
            }
            done = done.saturating_add(1);
        }
        (done, false)
    }

    // The drive carries out an event where it is due.
    fn drives(&mut self, event: &Event) {
        if self.desk.due(event) {
            let _reply = self.desk.step(self.alloc, event, Form::Plain);
        }
    }

    /// The drive carries out all that it was handed.
    pub fn drives_all(&mut self) {
        for lane in 0..LANES {
            for _ in 0..TAGS {
                self.drives(&Event::DevTake(lane));
            }
            for slot in 0..TAGS {
                for unit in 0..32 {
                    self.drives(&Event::DevMove(lane, slot, unit));
                }
                self.drives(&Event::DevPost(lane, slot));
            }
        }
    }

    // What is due is carried out, and the drive does its part; how many events were the mediator's.
    fn goes_round(&mut self, rt: &impl Abort) -> u64 {
        let before = self.works();
        self.drives_all();
        let after = self.works();
        assert!(rt; before.1 && after.1);
        before.0.saturating_add(after.0)
    }

    // The bytes at an address of a guest, 512 of them.
    fn bytes_at(&mut self, guest: u8, addr: u64) -> [u8; 512] {
        let event = Event::Guest(guest, Act::Load { addr, len: 512 });
        if let Ok(Reply::Bytes(found)) = self.desk.step(self.alloc, &event, Form::Plain) {
            if let Some(bytes) = found.as_slice().first_chunk::<512>() {
                return *bytes;
            }
        }
        [0; 512]
    }

    /// Whether a guest's command was completed with success, in one of so many places of its first queue.
    pub fn was_completed(&mut self, guest: u8, identifier: u16, places: u16) -> bool {
        self.was_completed_in(COMPLETIONS, guest, identifier, places)
    }

    // The same of the queue at that address.
    fn was_completed_in(&mut self, queue: u64, guest: u8, identifier: u16, places: u16) -> bool {
        for place in 0..places {
            let bytes = self.bytes_at(guest, queue | 16 * u64::from(place % SLOTS));
            let mut first = [0; 16];
            first.copy_from_slice(&bytes[..16]);
            let entry = Cqe::of(&first);
            if entry.cid() == identifier {
                return entry.status() == StatusCode::Success.status();
            }
        }
        false
    }
}

// How many events a call made, and whether nothing stopped it.
fn told(worked: Worked) -> (u64, bool) {
    (worked.done, worked.why == Why::Enough)
}

// A transfer by a page and a list of two more, of 24 blocks from the namespace's first on.
fn by_pages(opcode: u32, page: u32, list: u32) -> Fields {
    Fields {
        opcode,
        data: [page, 0, list, 0],
        dwords: [0, 0, 23],
    }
}

/// A transfer by a list of two descriptors, of two blocks.
pub fn by_descriptors(opcode: u32, list: u32) -> Fields {
    Fields {
        opcode: opcode | 0x4000,
        data: [list, 0, 32, 0x3000_0000],
        dwords: [40, 0, 1],
    }
}

// A Flush.
fn flush() -> Fields {
    Fields {
        opcode: 0,
        data: [0; 4],
        dwords: [0; 3],
    }
}

/// Both guests, with queue pair 1.
pub fn opened(rt: &impl Abort, alloc: Global, way: Way) -> Shop {
    let mut shop = Shop::new(alloc, way).expect(rt, "a desk");
    for guest in 0..GUESTS {
        for deed in BRING_UP {
            assert!(rt; shop.does(guest, deed));
        }
    }
    assert_eq!(rt; shop.works(), (4, true));
    shop
}

/// A guest stores what it writes, and the lists of its commands.
pub fn stores(rt: &impl Abort, shop: &mut Shop, guest: u8) {
    let mark = u64::from(guest) + 1;
    for (addr, low, high) in [
        (0x3000, mark, 3),
        (0x8000, mark, 8),
        (0x9000, mark, 9),
        (0x4000, mark, 4),
        (0x5000, mark, 5),
        (0x6000, 0x8000, 0x9000),
        (0x6010, 0xb000, 0xc000),
        (0x7000, 0x4000, 512),
        (0x7010, 0x5000, 512),
        (0x7020, 0xe000, 512),
        (0x7030, 0xe200, 512),
    ] {
        assert!(rt; shop.stores_row(guest, addr, low, high));
    }
}

// Both guests write what they have, and read it to other pages.
fn plays(rt: &impl Abort, alloc: Global, way: Way) {
    let mut shop = opened(rt, alloc, way);
    for guest in 0..GUESTS {
        stores(rt, &mut shop, guest);
        assert!(rt; shop.enters(guest, by_pages(1, 0x3000, 0x6000)));
        assert!(rt; shop.enters(guest, by_descriptors(1, 0x7000)));
    }
    assert!(rt; shop.goes_round(rt) > 0);
    for guest in 0..GUESTS {
        assert!(rt; shop.enters(guest, by_pages(2, 0xa000, 0x6010)));
        assert!(rt; shop.enters(guest, by_descriptors(2, 0x7020)));
    }
    assert!(rt; shop.goes_round(rt) > 0);
    for guest in 0..GUESTS {
        for identifier in 1..5 {
            assert!(rt; shop.was_completed(guest, identifier, 4));
        }
        for (from, to) in [
            (0x3000, 0xa000),
            (0x8000, 0xb000),
            (0x9000, 0xc000),
            (0x4000, 0xe000),
            (0x5000, 0xe200),
        ] {
            let written = shop.bytes_at(guest, from);
            assert!(rt; written[0] == guest + 1);
            assert!(rt; shop.bytes_at(guest, to) == written);
        }
    }
    assert_eq!(rt; shop.works(), (0, true));
}

/// Reads and Writes of two guests, with lists of both kinds, by work of all.
#[test]
fn commands_of_two_guests_are_carried_out(rt: HostRuntime) {
    plays(&rt, rt.alloc(), Way::All);
}

/// The same by work of each guest and each lane.
#[test]
fn they_are_by_scopes(rt: HostRuntime) {
    plays(&rt, rt.alloc(), Way::Scopes);
}

/// The same by one event at a time.
#[test]
fn they_are_by_steps(rt: HostRuntime) {
    plays(&rt, rt.alloc(), Way::Steps);
}

/// The completion queue of the first guest is full: its command waits, and the other guest's doesn't.
#[test]
fn a_full_queue_holds_up_nobody_else(rt: HostRuntime) {
    let mut shop = opened(&rt, rt.alloc(), Way::All);
    for _ in 0..SLOTS - 1 {
        assert!(rt; shop.enters(0, flush()));
    }
    assert!(rt; shop.goes_round(&rt) > 0);
    assert!(rt; shop.was_completed(0, SLOTS - 1, SLOTS - 1));
    assert!(rt; shop.enters(0, flush()) && shop.enters(1, flush()));
    // Both are taken, submitted and reaped, and one is posted.
    assert_eq!(rt; shop.goes_round(&rt), 7);
    assert!(rt; shop.was_completed(1, 1, 1));
    assert!(rt; !shop.was_completed(0, SLOTS, SLOTS));
    assert!(rt; shop.does(0, &Deed::Doorbell(HEAD, 1)));
    assert_eq!(rt; shop.works(), (1, true));
    assert!(rt; shop.was_completed(0, SLOTS, SLOTS));
}

// The first completion queue of the first guest is full, and three of its commands wait for room there. Commands of its second queue, and of the other guest,
// are completed all the same, whether these were taken before or after; and so are the three, one by one, as there is room.
fn plays_beside_a_full_queue(rt: &impl Abort, alloc: Global, way: Way, after: bool) {
    let mut shop = opened(rt, alloc, way);
    assert!(rt; shop.makes_second_pair(0));
    for _ in 0..SLOTS - 1 {
        assert!(rt; shop.enters(0, flush()));
    }
    assert!(rt; shop.goes_round(rt) > 0);
    if after {
        enters_three(rt, &mut shop);
    }
    assert!(rt; shop.enters_second(0, 0) && shop.enters_second(0, 1));
    assert!(rt; shop.enters(1, flush()) && shop.enters(1, flush()));
    assert_eq!(rt; shop.works(), (8, true));
    if !after {
        enters_three(rt, &mut shop);
    }
    shop.drives_all();
    // All seven are reaped, and four are posted.
    assert_eq!(rt; shop.works(), (11, true));
    for identifier in 0..2 {
        assert!(rt; shop.was_completed_in(SECOND_COMPLETIONS, 0, identifier, 2));
        assert!(rt; shop.was_completed(1, identifier + 1, 2));
    }
    assert_eq!(rt; shop.works(), (0, true));
    assert!(rt; shop.does(0, &Deed::Doorbell(SECOND_HEAD, 2)));
    assert_eq!(rt; shop.works(), (0, true));
    assert!(rt; shop.does(0, &Deed::Doorbell(HEAD, 1)));
    assert_eq!(rt; shop.works(), (1, true));
    assert!(rt; shop.does(0, &Deed::Doorbell(HEAD, 3)));
    assert_eq!(rt; shop.works(), (2, true));
}

// The first guest enters three commands into its first queue, which are taken and handed on.
fn enters_three(rt: &impl Abort, shop: &mut Shop) {
    for _ in 0..3 {
        assert!(rt; shop.enters(0, flush()));
    }
    assert_eq!(rt; shop.works(), (6, true));
}

/// Beside commands that wait for room in one queue, those of other queues and guests, by work of all.
#[test]
fn a_full_queue_holds_up_no_other(rt: HostRuntime) {
    plays_beside_a_full_queue(&rt, rt.alloc(), Way::All, true);
    plays_beside_a_full_queue(&rt, rt.alloc(), Way::All, false);
}

/// The same by work of each guest and each lane, and by one event at a time.
#[test]
fn it_does_not_in_other_ways(rt: HostRuntime) {
    plays_beside_a_full_queue(&rt, rt.alloc(), Way::Scopes, true);
    plays_beside_a_full_queue(&rt, rt.alloc(), Way::Scopes, false);
    plays_beside_a_full_queue(&rt, rt.alloc(), Way::Steps, true);
    plays_beside_a_full_queue(&rt, rt.alloc(), Way::Steps, false);
}

/// A completion that names no command ends the call; nothing is taken for its lane once that is closed.
#[test]
fn a_stray_completion_ends_the_call(rt: HostRuntime) {
    let mut bench = brought_up(&rt, Bench::new(rt.alloc()));
    assert!(rt; bench.complete(0, 5));
    let worked = bench.work(Scope::All, MANY);
    assert_eq!(rt; (worked.done, worked.why), (0, Why::Stray(0)));
    assert_eq!(rt; told(bench.work(Scope::Lane(1), MANY)), (0, true));
    bench.close();
    queue(&rt, &mut bench, 0, &FLUSH, 1);
    assert_eq!(rt; told(bench.work(Scope::All, MANY)), (2, true));
    assert_eq!(rt;
        (bench.mediator().tail(0), bench.mediator().tail(1)),
        (Some(0), Some(1))
    );
}

/// Commands of the first guest wait for room when it resets its controller: they run out, and the other guest's are completed before and after.
#[test]
fn commands_that_wait_run_out_at_a_reset(rt: HostRuntime) {
    let mut shop = opened(&rt, rt.alloc(), Way::All);
    for _ in 0..SLOTS - 1 {
        assert!(rt; shop.enters(0, flush()));
    }
    assert!(rt; shop.goes_round(&rt) > 0);
    enters_three(&rt, &mut shop);
    shop.drives_all();
    // The three are reaped, and none is posted.
    assert_eq!(rt; shop.works(), (3, true));
    assert!(rt; shop.enters(1, flush()));
    assert_eq!(rt; shop.goes_round(&rt), 4);
    assert!(rt; shop.was_completed(1, 1, 1));
    assert!(rt; shop.does(0, &Deed::Register(CC, 0)));
    assert_eq!(rt; shop.works(), (3, true));
    assert!(rt; shop.enters(1, flush()));
    assert_eq!(rt; shop.goes_round(&rt), 4);
    assert!(rt; shop.was_completed(1, 2, 2));
    assert!(rt; !shop.was_completed(0, SLOTS, SLOTS));
}
