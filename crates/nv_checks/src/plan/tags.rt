//! The tags of a lane.
use nv_entry::{Sqe, StatusCode};
use nv_tags::{Claim, Group, TagState, Tags};
use std::process::Abort;

// A command that is like no other but in its queue.
fn claim(queue: u16) -> Claim {
    Claim {
        guest: 3,
        queue,
        entry: Sqe::of(&[0; 64]),
    }
}

// Claims so many tags of a lane one by one, each the lowest that is free.
fn claim_each(rt: &impl Abort, tags: &mut Tags, count: u8) {
    for tag in 0..count {
        assert_eq!(rt; tags.claim(claim(u16::from(tag))), Some(tag));
    }
}

// Whether a group has these tags.
fn has_tags(group: Group, tags: &[u8]) -> bool {
    let mut left = group;
    tags.iter().all(|tag| left.pop() == Some(*tag)) && left.pop().is_none()
}

#[test]
fn the_lowest_free_tag(rt: HostRuntime) {
    let mut tags = Tags::new();
    claim_each(&rt, &mut tags, 64);
    assert_eq!(rt; tags.claim(claim(64)), None);
    assert!(rt; tags.state(9) == TagState::Taken);
    assert_eq!(rt; tags.claimed(9).queue, 9);
    tags.release(9);
    assert_eq!(rt; tags.claim(claim(64)), Some(9));
    assert_eq!(rt; tags.claim(claim(65)), None);
}

// The tags of a command that goes by this tag; none where it leads no group.
fn group(tags: &Tags, leader: u8) -> Option<Group> {
    if leader < 64 && tags.state(leader) != TagState::Free && tags.leader(leader) == leader {
        Some(tags.group(leader))
    } else {
        None
    }
}

// Whether a group of these tags goes by the first of them.
fn is_group(all: &Tags, tags: &[u8]) -> bool {
    match tags.first() {
        Some(leader) => match group(all, *leader) {
            Some(group) => has_tags(group, tags),
            None => false,
        },
        None => false,
    }
}

#[test]
fn tags_of_one_command(rt: HostRuntime) {
    let mut tags = Tags::new();
    assert_eq!(rt; tags.claim_group(claim(1), 3), Some(0));
    assert_eq!(rt; tags.claim_group(claim(2), 1), Some(3));
    assert!(rt; tags.state(2) == TagState::Taken);
    assert_eq!(rt; (tags.leader(2), tags.claimed(2).queue), (0, 1));
    assert!(rt; is_group(&tags, &[0, 1, 2]) && is_group(&tags, &[3]));
    assert!(rt; tags.state(0) == TagState::Taken);
    assert_eq!(rt; tags.leader(0), 0);
    tags.release_group(0);
    assert_eq!(rt; tags.claim_group(claim(3), 2), Some(0));
    assert_eq!(rt; tags.claim_group(claim(4), 2), Some(2));
    assert!(rt; is_group(&tags, &[0, 1]) && is_group(&tags, &[2, 4]) && is_group(&tags, &[3]));
}

#[test]
fn too_few_free_tags(rt: HostRuntime) {
    let mut tags = Tags::new();
    claim_each(&rt, &mut tags, 63);
    assert!(rt; tags.has_free_group(1) && !tags.has_free_group(2));
    assert_eq!(rt; tags.claim_group(claim(63), 2), None);
    assert!(rt; tags.state(63) == TagState::Free);
    assert_eq!(rt; tags.claim_group(claim(63), 1), Some(63));
    assert!(rt; !tags.has_free());
}

// A command of that guest, from that queue.
fn claim_of(guest: u8, queue: u16) -> Claim {
    Claim {
        guest,
        ..claim(queue)
    }
}

/// Tags of guest 3 and guest 5 from queues 1 and 2: those of a queue of a guest are told apart from those of the same queue of another guest, whether
/// they were taken one by one or together, as the commands go on and are released in either way.
#[test]
fn tags_of_one_queue(rt: HostRuntime) {
    let mut tags = Tags::new();
    assert_eq!(rt; tags.claim(claim_of(3, 1)), Some(0));
    assert_eq!(rt; tags.claim_group(claim_of(3, 2), 2), Some(1));
    assert_eq!(rt; tags.claim(claim_of(5, 1)), Some(3));
    assert_eq!(rt; tags.claim_group(claim_of(3, 1), 3), Some(4));
    assert!(rt; has_tags(tags.from_queue(3, 1), &[0, 4, 5, 6]));
    assert!(rt; has_tags(tags.from_queue(3, 2), &[1, 2]));
    assert!(rt; has_tags(tags.from_queue(5, 1), &[3]));
    assert!(rt; has_tags(tags.from_queue(5, 2), &[]) && has_tags(tags.from_queue(4, 1), &[]));
    assert!(rt; tags.state(0) == TagState::Taken);
    tags.fly(0);
    assert!(rt; tags.state(4) == TagState::Taken);
    tags.end(4, StatusCode::Success.status());
    assert!(rt; has_tags(tags.from_queue(3, 1), &[0, 4, 5, 6]));
    assert!(rt; tags.state(0) == TagState::Flying);
    tags.release(0);
    assert!(rt; has_tags(tags.from_queue(3, 1), &[4, 5, 6]));
    assert!(rt; tags.state(4) != TagState::Free && tags.leader(4) == 4);
    tags.release_group(4);
    assert!(rt; has_tags(tags.from_queue(3, 1), &[]));
    assert_eq!(rt; tags.claim_group(claim_of(5, 2), 2), Some(0));
    assert!(rt;
        has_tags(tags.from_queue(5, 2), &[0, 4]) && has_tags(tags.from_queue(3, 2), &[1, 2])
    );
    assert_eq!(rt; (tags.held(5), tags.held(3)), (3, 2));
}

/// Tags that another group has, too, are dropped, and no others.
#[test]
fn tags_are_dropped(rt: HostRuntime) {
    let mut group = Group::of(0b1011_0110);
    group.drop_all(Group::of(0b1000_1010));
    assert!(rt; has_tags(group, &[2, 4, 5]));
}
