//! The parts of a run of blocks, one for each extent that it meets, without memory.

ghost use Rattle.std.specs.Prelude.{◌≡◌, ◌<◌, ◌≤◌, ◌↔◌, IsTrue, [], ◌∷◌, ◌++◌, length, slice_get};
ghost use Rattle.nv_ns.specs.Extents.{most_extents};

use crate::part::Part;
use crate::several::Several;
use std::marker::Model;
use std::slice;

/// How the parts lie: most runs have one.
#[derive(Clone, Copy, Debug, PartialEq, Eq)]
enum Kept {
    None,
    One(Part),
    More(Several),
}

/// The parts of a run of blocks, in order: at most eight, in place.
#[derive(Clone, Copy, Debug, PartialEq, Eq)]
pub struct Parts {
    kept: Kept,
}

impl Model for Parts {
    ghost use Rattle.std.specs.Prelude.{List};
    ghost use Rattle.nv_ns.specs.Extents.{Cut};
    ghost use Rattle.nv_ns.specs.Listed.{IsKept, kept_of, listed, listed_back};

    ghost Value = { List Cut };

    ghost view = { λ p. listed p.kept };

    ghost invariant = { λ p. IsKept p.kept };

    ghost inverse = { λ cuts. record { kept = kept_of cuts } };

    ghost inverse_ok = { λ p h i. record { kept = listed_back p.kept h i } };
}

impl Parts {
    /// No part: those of a run of no blocks.
    pub fn none() -> Self
        ensures { result ≡ [] }
    {
        Parts { kept: Kept::None }
    }

    /// One part.
    pub fn one(part: Part) -> Self
        ensures { result ≡ part ∷ [] }
    {
        Parts {
            kept: Kept::One(part),
        }
    }

    /// Adds a part after the others, of which there are fewer than eight.
    pub fn push(&mut self, part: Part)
        requires { length self.old < most_extents }
        ensures { self.new ≡ self.old ++ part ∷ [] }
    {
        match &mut self.kept {
            Kept::None => self.kept = Kept::One(part),
            Kept::One(first) => self.kept = Kept::More(Several::two(*first, part)),
            Kept::More(several) => several.push(part),
        }
    }

    /// The parts as a slice, in order.
    pub fn as_slice(&self) -> &[Part]
        ensures items { result.now ≡ self.now }
        ensures few { length self.now ≤ most_extents }
    {
        match &self.kept {
            Kept::None => &[],
            Kept::One(part) => slice::from_ref(part),
            Kept::More(several) => several.as_slice(),
        }
    }

    /// How many there are.
    pub fn len(&self) -> usize
        ensures value { result ≡ length self.now }
        ensures few { length self.now ≤ most_extents }
    {
        self.as_slice().len()
    }

    /// Whether there are none.
    pub fn is_empty(&self) -> bool
        ensures { IsTrue result ↔ (self.now ≡ []) }
    {
        self.as_slice().is_empty()
    }

    /// The part of this number, from 0.
    pub fn get(&self, i: usize) -> Option<Part>
        ensures { result ≡ slice_get self.now i }
    {
        self.as_slice().get(i).copied()
    }
}
