//! A plan under way that is put aside: it borrows nothing, so it can be kept while the mediator goes on.

ghost use Rattle.std.specs.Prelude.{◌≡◌, IfSome};
ghost use Rattle.nv_plan.specs.Drawn.{given_of};
ghost use Rattle.nv_plan.specs.Resting.{IsOn, IsRest};

use crate::comparing::same_map;
use crate::draft::{Buffered, Stage};
use crate::given::GrantRef;
use crate::job::Job;
use crate::source::Source;
use nv_mem::GuestMap;
use nv_ns::VirtualNs;
use nv_prp::{PrpParse, PrpRest};
use nv_sgl::{SglParse, SglRest};
use std::alloc::{Allocator, Global};
use std::marker::Model;

/// How far the reading of a command's lists has come, without the guest's map.
#[derive(Drop)]
pub(crate) enum Rest<A: Allocator + Clone> {
    /// The list to which PRP2 points is read.
    Pages(Buffered, PrpRest),
    /// The descriptors of its SGL are read.
    Descriptors(Buffered, SglRest<A>),
    /// The bytes of its ranges are read.
    Ranges(Source),
}

/// A plan under way that is put aside, with copies of the map and the namespace that the guest was given.
#[derive(Drop)]
pub struct Aside<A: Allocator + Clone> {
    pub(crate) rest: Rest<A>,
    pub(crate) job: Job,
    pub(crate) map: GuestMap,
    pub(crate) ns: VirtualNs,
    pub(crate) limit: u32,
}

impl<A: Allocator + Clone> Model for Aside<A> {
    ghost use Rattle.nv_plan.specs.Fed.{UnderWay};
    ghost use Rattle.nv_plan.specs.Resting.{IsAside};

    ghost Value = { UnderWay };

    ghost view = { λ a. record { job = a.job; given = record { memory_map = a.map; namespace = a.ns; limit = a.limit } } };

    ghost invariant = { λ a. IsAside (record { memory_map = a.map; namespace = a.ns; limit = a.limit }) a.rest a.job };
}

impl<A: Allocator + Clone> Aside<A> {
    /// The job, with what was read so far.
    pub fn job(&self) -> &Job
        ensures { result.now ≡ self.now.job }
    {
        &self.job
    }
}

impl<'a> GrantRef<'a> {
    // A stage without the map; `None` where there is nothing to be put aside.
    pub(crate) fn rest_of<A: Allocator + Clone>(&self, stage: Stage<'a, A>) -> Option<Rest<A>>
        ensures { IfSome result (λ rest. IsRest (given_of self.now) rest stage.entry) }
    {
        match stage {
            Stage::Pages(buffered, parse) => {
                let (rest, map) = Box::into_inner(parse).put_aside();
                if !same_map(map, self.map) {
                    return None;
                }
                Some(Rest::Pages(buffered, rest))
            }
            Stage::Descriptors(buffered, parse) => {
                let (rest, map) = parse.put_aside();
                if !same_map(map, self.map) {
                    return None;
                }
                Some(Rest::Descriptors(buffered, rest))
            }
            Stage::Ranges(source) => Some(Rest::Ranges(source)),
            Stage::Refused(_) | Stage::Bare(_) | Stage::Named(_, _) => None,
        }
    }

    // The stage that was put aside, with this map; `None` where there was no memory for it.
    pub(crate) fn stage_on<A: Allocator + Clone>(
        &self,
        alloc: Global,
        rest: Rest<A>,
    ) -> Option<Stage<'a, A>>
        ensures { IfSome result (λ stage. IsOn (given_of self.now) rest stage) }
    {
        match rest {
            Rest::Pages(buffered, rest) => {
                let parse = PrpParse::resume(rest, self.map);
                Some(Stage::Pages(buffered, Box::new(alloc, parse).ok()?))
            }
            Rest::Descriptors(buffered, rest) => {
                let parse = SglParse::resume(rest, self.map);
                Some(Stage::Descriptors(buffered, parse))
            }
            Rest::Ranges(source) => Some(Stage::Ranges(source)),
        }
    }
}
