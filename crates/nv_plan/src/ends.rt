//! Where the parts of a list end.

ghost use Rattle.std.specs.Prelude.{◌≡◌, ◌<◌, ◌≤◌, [], ◌∷◌, ◌++◌, Some, length, slice_get, slice_range};
ghost use Rattle.nv_ns.specs.Extents.{most_extents};
ghost use Rattle.nv_plan.specs.Runs.{AreEnds, begin_of, runs};

use std::marker::Model;

/// Where each of the parts ends that a list is cut into, in order: at most eight, in place. Each begins where the one in front of it ends.
#[derive(Debug, Drop)]
pub(crate) struct Ends {
    ends: [u32; 8],
    len: u8,
}

impl Model for Ends {
    ghost use Rattle.std.specs.Prelude.{◌≤◌, ℕ, List, take};
    ghost use Rattle.nv_ns.specs.Extents.{most_extents};

    ghost Value = { List ℕ };

    ghost view = { λ e. take e.len e.ends };

    ghost invariant = { λ e. e.len ≤ most_extents };
}

impl Ends {
    /// No part.
    pub(crate) fn none() -> Self
        ensures { result ≡ [] }
    {
        Ends {
            ends: [0; 8],
            len: 0,
        }
    }

    /// Adds a part after the others, of which there are fewer than eight.
    pub(crate) fn push(&mut self, end: u32)
        requires { length self.old < most_extents }
        ensures { self.new ≡ self.old ++ end ∷ [] }
    {
        self.ends[usize::from(self.len)] = end;
        self.len += 1;
    }

    /// How many parts there are.
    pub(crate) fn len(&self) -> usize
        ensures { result ≡ length self.now }
    {
        usize::from(self.len)
    }

    /// What the part of this number, from 0, has of a list that is cut so.
    pub(crate) fn run<'a, T>(&self, items: &'a [T], part: usize) -> &'a [T]
        requires part { part < length self.now }
        requires ends { AreEnds 0 self.now (length items.now) }
        ensures { slice_get (runs items.now 0 self.now) part ≡ Some result.now }
    {
        let (begin, end) = self.span(part);
        between(items, begin, end)
    }

    // Where in the list the part of this number begins and ends.
    fn span(&self, part: usize) -> (usize, usize)
        requires { part < length self.now }
        ensures begin { result.0 ≡ begin_of 0 self.now part }
        ensures end { slice_get self.now part ≡ Some result.1 }
    {
        let ends = &self.ends[..usize::from(self.len)];
        let begin = if part == 0 { 0 } else { ends[part - 1] };
        (begin as usize, ends[part] as usize)
    }
}

// What lies in a list from one place up to another.
fn between<T>(items: &[T], begin: usize, end: usize) -> &[T]
    requires order { begin ≤ end }
    requires within { end ≤ length items.now }
    ensures { result.now ≡ slice_range items.now begin end }
{
    &items[begin..end]
}
