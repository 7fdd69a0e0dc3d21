//! How many plans of each kind there were.

use crate::naming;
use crate::watched::Watched;
use nv_plan::{Plan, PlanKind};

/// How many plans went by the bounce pages, named the guest's own memory, and had several parts.
#[derive(Clone, Copy)]
pub struct Plans {
    bounced: u32,
    direct: u32,
    parted: u32,
    // how many bytes were named again by those that were bounced
    named_again: u32,
}

impl Plans {
    /// None of any kind.
    pub fn new() -> Self {
        Plans {
            bounced: 0,
            direct: 0,
            parted: 0,
            named_again: 0,
        }
    }

    /// Counts a plan. The marks of the memory are used for it.
    pub fn count(&mut self, plan: &Plan, watched: &Watched) {
        match plan.kind() {
            PlanKind::Bounced => self.bounced = self.bounced.saturating_add(1),
            PlanKind::Direct => self.direct = self.direct.saturating_add(1),
            PlanKind::NoData | PlanKind::Answer(_) => {}
        }
        if plan.parts() > 1 {
            self.parted = self.parted.saturating_add(1);
        }
        let again = naming::named_again(plan, watched);
        self.named_again = self.named_again.saturating_add(again);
    }

    /// How many bytes were named again by the commands that were bounced: a Write or Compare whose list names a byte twice.
    pub fn named_again(&self) -> u32 {
        self.named_again
    }

    /// How many plans there were of the kind that was rarest: by the bounce pages, by the guest's own memory, or of several parts.
    pub fn fewest(&self) -> u32 {
        self.bounced.min(self.direct).min(self.parted)
    }
}
