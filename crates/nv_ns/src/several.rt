//! Up to eight parts in place.

ghost use Rattle.std.specs.Prelude.{◌≡◌, ◌<◌, ◌≤◌, [], ◌∷◌, ◌++◌, length};
ghost use Rattle.nv_ns.specs.Extents.{most_extents};

use crate::part::Part;
use crate::virtual_ns::MOST_EXTENTS;
use std::marker::Model;

/// Parts in order, at most eight, in place.
#[derive(Clone, Copy, Debug, PartialEq, Eq)]
pub struct Several {
    parts: [Part; MOST_EXTENTS],
    len: usize,
}

impl Model for Several {
    ghost use Rattle.std.specs.Prelude.{List, length, take};
    ghost use Rattle.nv_ns.specs.Extents.{Cut};
    ghost use Rattle.nv_ns.specs.Filled.{IsFilled, filled, filled_back, filled_len, no_part};

    ghost Value = { List Cut };

    ghost view = { λ s. take s.len s.parts };

    ghost invariant = { λ s. IsFilled no_part s.parts s.len };

    ghost inverse = { λ cuts. record { parts = filled no_part cuts; len = length cuts } };

    ghost inverse_ok = { λ s h i. record {
      parts = filled_back no_part s.parts s.len h i;
      len = filled_len no_part s.parts s.len h i;
    } };
}

impl Several {
    /// Two parts.
    pub fn two(first: Part, second: Part) -> Self
        ensures { result ≡ first ∷ second ∷ [] }
    {
        let mut parts = [Part::new(0, 0, 1); MOST_EXTENTS];
        parts[0] = first;
        parts[1] = second;
        Several { parts, len: 2 }
    }

    /// Adds a part after the others.
    pub fn push(&mut self, part: Part)
        requires { length self.old < most_extents }
        ensures { self.new ≡ self.old ++ part ∷ [] }
    {
        self.parts[self.len] = part;
        self.len += 1;
    }

    /// The parts as a slice, in order.
    pub fn as_slice(&self) -> &[Part]
        ensures items { result.now ≡ self.now }
        ensures few { length self.now ≤ most_extents }
    {
        &self.parts[..self.len]
    }
}
