//! What a plan says.

ghost use Rattle.std.specs.Prelude.{◌≡◌, []};
ghost use Rattle.nv_plan.specs.declared.kind.PlanKind.TheVariants as kind;

use crate::kind::PlanKind;
use crate::portions::Portions;
use nv_entry::Status;
use std::marker::Model;

/// What is done with a command, and what each of its physical commands has of it.
#[derive(Debug, Drop)]
pub(crate) struct Outline {
    kind: PlanKind,
    portions: Portions,
}

impl Model for Outline {
    ghost use Rattle.nv_plan.specs.Outline.{Outline};

    ghost Value = { Outline };

    ghost view = { λ o. record { kind = o.kind; portions = o.portions } };
}

impl Outline {
    /// The command ends with this status.
    pub(crate) fn answer(status: Status) -> Self
        ensures { result ≡ record { kind = kind.Answer status; portions = [] } }
    {
        Outline::new(PlanKind::Answer(status), Portions::bare(0))
    }

    /// A command of that kind with these portions.
    pub(crate) fn new(kind: PlanKind, portions: Portions) -> Self
        ensures { result ≡ record { kind = kind; portions = portions } }
    {
        Outline { kind, portions }
    }

    /// What is done, and the portions.
    pub(crate) fn into_parts(self) -> (PlanKind, Portions)
        ensures kind { result.0 ≡ self.kind }
        ensures portions { result.1 ≡ self.portions }
    {
        (self.kind, self.portions)
    }
}
