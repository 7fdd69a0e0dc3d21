//! Whether a job is still its tag's.

use crate::mediator::beside::opened_mediator;
use nv_bringup::{BRING_UP, Deed, Fields, SUBMISSIONS, TAIL, act_of};
use nv_mediator::Mediator;
use nv_mem::{BoxedBytes, NoMemory};
use nv_model::Act;
use nv_plan::Job;
use nv_world_model::Event;
use std::alloc::Global;
use std::test::Fail;

/// A Read of one block at 5 by a Last Segment of one descriptor at 6000h.
const READ: Fields = Fields {
    opcode: 0x4002,
    data: [0x6000, 0, 16, 0x3000_0000],
    dwords: [5, 0, 0],
};

/// A Data Block of 512 bytes at 5000h.
const DESCRIPTOR: [u8; 16] = [0, 0x50, 0, 0, 0, 0, 0, 0, 0, 2, 0, 0, 0, 0, 0, 0];

// What the guest does.
fn does(mediator: &mut Mediator, alloc: Global, act: Act) -> Result<(), NoMemory> {
    mediator.step(alloc, &Event::Guest(0, act))?;
    Ok(())
}

// A mediator whose guest has a Read in tag 0 of lane 0, which waits for its plan.
fn with_a_read(alloc: Global) -> Result<Option<Mediator>, NoMemory> {
    let Some(mut mediator) = opened_mediator(alloc) else {
        return Ok(None);
    };
    for deed in BRING_UP {
        does(&mut mediator, alloc, act_of(alloc, deed)?)?;
    }
    mediator.step(alloc, &Event::Admin(0))?;
    mediator.step(alloc, &Event::Admin(0))?;
    let bytes = BoxedBytes::from_slice(alloc, &DESCRIPTOR)?;
    let addr = 0x6000;
    does(&mut mediator, alloc, Act::Store { addr, bytes })?;
    let entry = Deed::Entry(SUBMISSIONS, READ.entry(9));
    does(&mut mediator, alloc, act_of(alloc, &entry)?)?;
    let rings = act_of(alloc, &Deed::Doorbell(TAIL, 1))?;
    does(&mut mediator, alloc, rings)?;
    mediator.step(alloc, &Event::Take(0, 1, 0))?;
    Ok(Some(mediator))
}

// A job of the Read, as one who plans it is given it.
fn job(mediator: &Mediator, alloc: Global) -> Result<Option<Job>, NoMemory> {
    mediator.job(alloc, 0, 0)
}

#[test]
fn a_job_is_its_tags_until_more_is_read(rt: HostRuntime) -> Result<(), Fail> {
    let alloc = rt.alloc();
    let mut mediator = with_a_read(alloc)?.expect(&rt, "a command that waits");
    assert!(rt;
        mediator.is_waiting(0, 0) && !mediator.is_waiting(0, 1) && !mediator.is_waiting(1, 0)
    );
    let first = job(&mediator, alloc)?.expect(&rt, "a job");
    assert!(rt; mediator.has_job(&first));
    // the list is read: the job has the read now
    mediator.step(alloc, &Event::List(0, 0, 0x6000, 16))?;
    let second = job(&mediator, alloc)?.expect(&rt, "a job");
    assert!(rt; !mediator.has_job(&first) && mediator.has_job(&second));
    // the command waits no more
    mediator.step(alloc, &Event::GiveUp(0, 0))?;
    assert!(rt; !mediator.is_waiting(0, 0) && !mediator.has_job(&second));
    Ok(())
}

#[test]
fn a_job_of_another_tag_is_none(rt: HostRuntime) -> Result<(), Fail> {
    let alloc = rt.alloc();
    let mediator = with_a_read(alloc)?.expect(&rt, "a command that waits");
    let mut other = job(&mediator, alloc)?.expect(&rt, "a job");
    other.tag = 1;
    assert!(rt; !mediator.has_job(&other));
    other.tag = 0;
    other.lane = 1;
    assert!(rt; !mediator.has_job(&other));
    other.lane = 0;
    assert!(rt; mediator.has_job(&other));
    other.guest = 1;
    assert!(rt; !mediator.has_job(&other));
    Ok(())
}
