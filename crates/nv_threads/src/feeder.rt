//! The plan that a planner feeds.

use crate::given::GrantCopy;
use nv_plan::{Job, Next, Planning, ReadDone};
use std::alloc::{Allocator, Global};

/// What comes of a plan that was begun, or fed.
#[derive(Debug, Drop)]
pub(crate) enum Fed {
    /// So many bytes are wanted from a guest address on, for the command of a tag: tag, address, number.
    Wanted(u8, u64, u64),
    /// All is read that the plan wants. The plan itself is gone, and its heap is free.
    Whole(Job),
    /// There was no memory for the plan of that tag's command.
    NoMemory(u8),
    /// The plan is gone: the job of that tag is to be examined again.
    Lost(u8),
}

/// Finds what is wanted for a command's plan, read by read, in a planner's heap and by what its guest was given. It has one command at a time.
#[derive(Drop)]
pub(crate) struct Feeder<'a, A: Allocator + Clone + Copy> {
    heap: A,
    alloc: Global,
    given: &'a GrantCopy,
    // the plan that waits for bytes
    plan: Option<Planning<'a, A>>,
}

impl<'a, A: Allocator + Clone + Copy> Feeder<'a, A> {
    /// One that has no command.
    pub(crate) fn new(heap: A, alloc: Global, given: &'a GrantCopy) -> Self {
        Feeder {
            heap,
            alloc,
            given,
            plan: None,
        }
    }

    /// What the guest was given.
    pub(crate) fn given(&self) -> &'a GrantCopy {
        self.given
    }

    /// The heap, of which nothing is taken then: a plan that waits for bytes is gone.
    pub(crate) fn cleared_heap(&mut self) -> A {
        self.plan = None;
        self.heap
    }

    /// Begins the plan of a job, in the place of another.
    pub(crate) fn begin(&mut self, job: Job) -> Fed {
        let heap = self.cleared_heap();
        let tag = job.tag;
        let (map, ns, limit) = (self.given.map(), self.given.ns(), self.given.limit());
        match Planning::new(heap, self.alloc, job, map, ns, limit) {
            Ok(plan) => self.go_on(tag, plan),
            Err(_) => Fed::NoMemory(tag),
        }
    }

    /// Feeds the plan of a tag's command with what was read for it.
    pub(crate) fn feed(&mut self, tag: u8, read: ReadDone) -> Fed {
        let Some(mut plan) = self.plan.take() else {
            return Fed::Lost(tag);
        };
        let wanted = Next::Read {
            addr: read.addr(),
            len: read.bytes().len() as u64,
        };
        match plan.wants() {
            Ok(next) if next == wanted => {}
            Ok(_) => return Fed::Lost(tag),
            Err(_) => return Fed::NoMemory(tag),
        }
        match plan.feed(read) {
            Ok(()) => self.go_on(tag, plan),
            Err(_) => Fed::NoMemory(tag),
        }
    }

    // Keeps a plan that wants more bytes, and ends one that doesn't.
    fn go_on(&mut self, tag: u8, mut plan: Planning<'a, A>) -> Fed {
        match plan.wants() {
            Ok(Next::Read { addr, len }) => {
                self.plan = Some(plan);
                Fed::Wanted(tag, addr, len)
            }
            Ok(Next::Done) => Fed::Whole(plan.into_job()),
            Err(_) => Fed::NoMemory(tag),
        }
    }
}
