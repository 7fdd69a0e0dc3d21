//! That the comparison of the two worlds can fail: what happens in one of them alone is seen, and what a call reads twice is counted.

use crate::counts::Kind;
use crate::desk::Form;
use crate::guests::Guest;
use crate::pair::Pair;
use crate::two_guests::{GUEST_PAGES, opened};
use nv_bringup::Fields;
use nv_entry::Status;
use nv_model::Reply;
use nv_world_model::Event;
use std::process::Abort;

/// A Read of the first block to 3000h.
const READ: Fields = Fields {
    opcode: 2,
    data: [0x3000, 0, 0, 0],
    dwords: [0, 0, 0],
};

// Both, in which the first guest has entered a Read.
fn entered(rt: &(impl Abort + AllocGlobal)) -> Pair {
    let mut pair = opened(rt.alloc(), 1).expect(rt, "a mediator and a desk");
    let mut guest = Guest::new(0);
    guest.bring_up(&mut pair);
    guest.enter(&mut pair, &READ.entry(5), Form::Plain);
    assert!(rt; pair.differs.is_none() && !pair.lost);
    pair
}

// A command is taken in one of the two alone.
#[test]
fn an_event_of_one_alone_is_seen(rt: HostRuntime) {
    let mut pair = entered(&rt);
    let take = Event::Take(0, 1, 0);
    assert!(rt; pair.desk.step(pair.alloc, &take, Form::Plain).is_ok());
    pair.plays(&take);
    assert!(rt; pair.differs == Some(Kind::Take));
}

// The drive of one fails a command that the other's completes.
#[test]
fn a_false_completion_is_seen(rt: HostRuntime) {
    let mut pair = entered(&rt);
    assert!(rt; pair.plays(&Event::Take(0, 1, 0)) && pair.plays(&Event::Submit(0, 0)));
    assert!(rt; pair.plays(&Event::DevTake(0)) && pair.plays(&Event::DevMove(0, 0, 0)));
    let fails = Event::DevFail(0, 0, Status::new(2, 0x81, false));
    assert!(rt; pair.desk.step(pair.alloc, &fails, Form::Plain).is_ok());
    assert!(rt;
        pair.mediator
            .step(pair.alloc, &Event::DevPost(0, 0))
            .is_ok()
    );
    assert!(rt; pair.plays(&Event::Reap(0)) && pair.are_same_pages(0, GUEST_PAGES));
    assert!(rt; pair.plays(&Event::Post(0, 0)) && !pair.are_same_pages(0, GUEST_PAGES));
}

// A completion that is read once more by the call that reaps it.
#[test]
fn a_completion_read_twice_is_counted(rt: HostRuntime) {
    let mut pair = entered(&rt);
    assert!(rt; pair.plays(&Event::Take(0, 1, 0)) && pair.plays(&Event::Submit(0, 0)));
    assert!(rt; pair.plays(&Event::DevTake(0)) && pair.plays(&Event::DevMove(0, 0, 0)));
    assert!(rt; pair.plays(&Event::DevPost(0, 0)) && pair.own_again() == 0);
    assert!(rt; matches!(pair.desk.reap_again(0), Reply::Done) && pair.own_again() == 16);
}
