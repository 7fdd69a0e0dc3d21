//! What is found where the log and what was kept differ.

use crate::bench::opened;
use nv_mem::NoMemory;
use nv_model::{Act, Reply};
use nv_threads::{Mismatch, Port, Shared, finish};
use nv_world::World;
use nv_world_model::Event;
use std::alloc::Global;
use std::process::Abort;
use std::sync::Wait;
use std::test::Fail;

/// The offsets of registers that each read: CAP and VS.
const CAP: u32 = 0;

const VS: u32 = 8;

// A world in which a guest read these registers by its port.
fn read_by<R: Wait>(
    rt: &R,
    alloc: Global,
    world: World,
    port: &mut Port,
    offsets: &[u32],
) -> Result<World, NoMemory> {
    let shared = Shared::new(world);
    for offset in offsets {
        let _reply = port.act(rt, alloc, &shared, Act::RegRead { offset: *offset })?;
    }
    Ok(shared.close())
}

// Whether the world has an event of its own, which no port knows of.
fn is_logged(world: &mut World, alloc: Global, event: Event) -> bool {
    !matches!(world.step(alloc, event), Reply::NoMemory)
}

// A guest's read of a register.
fn read_of(guest: u8, offset: u32) -> Event {
    Event::Guest(guest, Act::RegRead { offset })
}

#[test]
fn a_list_cut_by_one(rt: HostRuntime) -> Result<(), Fail> {
    let world = opened(rt.alloc()).expect(&rt, "a world");
    let mut first = Port::new(rt.alloc(), 0);
    let mut second = Port::new(rt.alloc(), 1);
    let world = read_by(&rt, rt.alloc(), world, &mut first, &[CAP, VS, CAP])?;
    let mut world = read_by(&rt, rt.alloc(), world, &mut second, &[VS, CAP])?;
    let ports = [first, second];
    assert_eq!(rt; finish(&world, &ports, &[]), Ok(()));
    assert!(rt; is_logged(&mut world, rt.alloc(), read_of(1, VS)));
    let found = finish(&world, &ports, &[]);
    assert_eq!(rt; found, Err(Mismatch { guest: 1, place: 3 }));
    Ok(())
}

#[test]
fn a_list_that_is_longer_or_other(rt: HostRuntime) -> Result<(), Fail> {
    let mut port = Port::new(rt.alloc(), 0);
    let world = opened(rt.alloc()).expect(&rt, "a world");
    let _first = read_by(&rt, rt.alloc(), world, &mut port, &[CAP, VS])?;
    let mut world = opened(rt.alloc()).expect(&rt, "a world");
    let ports = [port];
    let found = finish(&world, &ports, &[]);
    assert_eq!(rt; found, Err(Mismatch { guest: 0, place: 1 }));
    assert!(rt; is_logged(&mut world, rt.alloc(), read_of(0, CAP)));
    let found = finish(&world, &ports, &[]);
    assert_eq!(rt; found, Err(Mismatch { guest: 0, place: 2 }));
    assert!(rt; is_logged(&mut world, rt.alloc(), read_of(0, CAP)));
    let found = finish(&world, &ports, &[]);
    assert_eq!(rt; found, Err(Mismatch { guest: 0, place: 2 }));
    Ok(())
}

#[test]
fn two_ports_of_one_guest(rt: HostRuntime) -> Result<(), Fail> {
    let world = opened(rt.alloc()).expect(&rt, "a world");
    let ports = [
        Port::new(rt.alloc(), 1),
        Port::new(rt.alloc(), 0),
        Port::new(rt.alloc(), 1),
    ];
    let found = finish(&world, &ports, &[]);
    assert_eq!(rt; found, Err(Mismatch { guest: 1, place: 0 }));
    Ok(())
}

#[test]
fn a_wrong_sum(rt: HostRuntime) -> Result<(), Fail> {
    let mut world = opened(rt.alloc()).expect(&rt, "a world");
    assert!(rt; is_logged(&mut world, rt.alloc(), Event::Admin(0)));
    let found = finish(&world, &[], &[]);
    assert_eq!(rt;
        found,
        Err(Mismatch {
            guest: 255,
            place: 0
        })
    );
    Ok(())
}

#[test]
fn a_guest_without_a_port(rt: HostRuntime) -> Result<(), Fail> {
    let mut world = opened(rt.alloc()).expect(&rt, "a world");
    let ports = [Port::new(rt.alloc(), 0), Port::new(rt.alloc(), 1)];
    assert!(rt; is_logged(&mut world, rt.alloc(), read_of(200, CAP)));
    let found = finish(&world, &ports, &[]);
    assert_eq!(rt;
        found,
        Err(Mismatch {
            guest: 200,
            place: 1
        })
    );
    assert!(rt; is_logged(&mut world, rt.alloc(), read_of(5, CAP)));
    let found = finish(&world, &ports, &[]);
    assert_eq!(rt; found, Err(Mismatch { guest: 5, place: 1 }));
    Ok(())
}

#[test]
fn tells_guest_and_place(rt: HostRuntime) -> Result<(), Fail> {
    let mismatch = Mismatch {
        guest: 3,
        place: 17,
    };
    let text = format!(in rt.alloc(); "{mismatch}")?;
    assert_eq!(rt; text.as_str(), "mismatch guest 3 place 17");
    Ok(())
}
