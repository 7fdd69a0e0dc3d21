//! The world that comes out of the lock has the set-up of the one that was put in.

use crate::bench::{BASES, HOST, IMAGES, opened};
use crate::running::{Part, run};
use nv_bringup::{BLOCKS, LIMIT, MEMORY};
use nv_mem::Region;
use nv_ns::{Extent, VirtualNs};
use nv_threads::{Open, Shared};
use nv_world::World;
use std::process::Abort;
use std::sync::atomic::AtomicBool;
use std::test::Fail;

// Ends the test where a guest has not this.
fn expect_guest(rt: &impl Abort, world: &World, guest: u8, image: u64, base: u64) {
    let map = world.map(guest).expect(rt, "a map");
    let region = Region {
        guest: 0,
        host: image,
        len: MEMORY,
    };
    assert!(rt; map.regions() == [region].as_slice());
    assert!(rt; Extent::fits(base, BLOCKS));
    let ns = VirtualNs::of(Extent::new(base, BLOCKS));
    assert_eq!(rt; world.range(guest).copied(), Some(ns));
    assert_eq!(rt; world.limit(guest), Some(LIMIT));
}

// Ends the test where the world's sizes, or its guests, are others.
fn expect_set_up(rt: &impl Abort, world: &World) {
    assert_eq!(rt; world.host().len(), HOST);
    assert!(rt; world.kept(4095).is_some() && world.kept(4096).is_none());
    expect_guest(rt, world, 0, IMAGES[0], BASES[0]);
    expect_guest(rt, world, 1, IMAGES[1], BASES[1]);
    assert!(rt; world.map(2).is_none() && world.limit(2).is_none());
}

#[test]
fn closes_the_world_that_was_put_in(rt: HostRuntime) -> Result<(), Fail> {
    let shared = Shared::new(opened(rt.alloc()).expect(&rt, "a world"));
    let posted = AtomicBool::new(false);
    let parts = [Part::Rest, Part::Rest];
    let ran = run(&rt, rt.alloc(), &shared, &Open, 256, parts, &posted);
    assert!(rt; ran.met);
    expect_set_up(&rt, &shared.close());
    Ok(())
}
