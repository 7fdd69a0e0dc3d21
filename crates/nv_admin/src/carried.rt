//! What an admin command came to, before anything of it is stored.

ghost use Rattle.std.specs.Prelude.{◌≡◌};
ghost use Rattle.nv_admin.specs.Effect.{quiet};

use crate::outcome::Outcome;
use crate::shown_page::ShownPage;
use nv_entry::StatusCode;

/// What an admin command came to.
#[derive(Clone, Copy)]
pub(crate) struct Carried {
    /// what becomes of it, or the status of its refusal
    pub(crate) outcome: Result<Outcome, StatusCode>,
    /// the page that it stores before its completion
    pub(crate) page: Option<ShownPage>,
}

impl Carried {
    /// A command that stores nothing but its completion.
    pub(crate) fn quiet(outcome: Result<Outcome, StatusCode>) -> Self
        ensures { result ≡ quiet outcome }
    {
        Carried {
            outcome,
            page: None,
        }
    }
}
