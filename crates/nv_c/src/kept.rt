//! Plans that were put aside, by the tags of their commands.

use nv_model::limits::TAG_COUNT;
use nv_plan::Aside;
use std::alloc::Global;

/// Plans that were put aside: a place for each tag of each lane, up to the last in which one was put. Nothing is claimed of them: who takes one
/// compares its job with the tag's.
#[derive(Drop)]
pub struct Kept {
    plans: Vec<Option<Box<Aside<Global>>>>,
}

// The place of a tag.
fn place_of(lane: u8, tag: u8) -> usize {
    TAG_COUNT * usize::from(lane) + usize::from(tag)
}

impl Kept {
    /// None. It takes no memory.
    pub(crate) fn none(alloc: Global) -> Self {
        Kept {
            plans: Vec::new(alloc),
        }
    }

    /// Puts a plan in its place, and drops what was there. Where there is no memory for that, the plan is dropped.
    pub(crate) fn put(&mut self, alloc: Global, plan: Aside<Global>) {
        let job = plan.job();
        let place = place_of(job.lane, job.tag);
        let Ok(plan) = Box::new(alloc, plan) else {
            return;
        };
        for _ in self.plans.len()..=place {
            if self.plans.push(None).is_err() {
                return;
            }
        }
        if let Some(kept) = self.plans.get_mut(place) {
            *kept = Some(plan);
        }
    }

    /// Whether there is a plan in a tag's place, which may be one of an earlier command.
    pub(crate) fn has(&self, lane: u8, tag: u8) -> bool {
        matches!(self.plans.get(place_of(lane, tag)), Some(Some(_)))
    }

    /// Takes the plan out of a tag's place.
    pub(crate) fn take(&mut self, lane: u8, tag: u8) -> Option<Aside<Global>> {
        let plan = self.plans.get_mut(place_of(lane, tag))?.take()?;
        Some(Box::into_inner(plan))
    }
}
