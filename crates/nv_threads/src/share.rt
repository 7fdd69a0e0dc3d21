//! How much a worker put into the log.

ghost use Rattle.std.specs.Prelude.{◌≡◌};

use std::marker::Model;

/// How many events a worker put into the log.
#[derive(Clone, Copy, Debug, PartialEq, Eq)]
pub struct Share {
    pub(crate) events: u64,
}

impl Model for Share {
    ghost use Rattle.std.specs.Prelude.{ℕ};

    ghost Value = { ℕ };

    ghost view = { λ s. s.events };

    ghost inverse = { λ n. record { events = n } };
}

impl Share {
    /// How many events the worker put into the log.
    pub fn events(&self) -> u64
        ensures { result ≡ self.now }
    {
        self.events
    }
}
