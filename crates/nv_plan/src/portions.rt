//! What the physical commands of a plan have of its places and ranges.

ghost use Rattle.std.specs.Prelude.{◌≡◌, ◌<◌, [], ◌∷◌, IfOk, Some, length, map, replicate, slice_get};
ghost use Rattle.nv_plan.specs.Outline.{Portion};
ghost use Rattle.nv_plan.specs.Runs.{AreEnds, runs};
ghost use Rattle.nv_plan.specs.Told.{of_places, of_ranges};

use crate::ends::Ends;
use nv_entry::Range;
use nv_mem::{NoMemory, Piece, Places};
use std::alloc::Global;
use std::marker::Model;

/// How the portions are stored: several have one list together, which is cut where each of them ends, in a block of its own.
#[derive(Debug, Drop)]
enum Kept {
    /// So many portions of no bytes and no ranges.
    Bare(u8),
    /// One, of all these places.
    Whole(Places),
    /// One, of all these ranges.
    Listed(Vec<Range>),
    /// Some of these places for each.
    Placed(Box<CutPlaces>),
    /// Some of these ranges for each.
    Ranged(Box<CutRanges>),
}

/// Places, and where each portion of them ends.
#[derive(Debug, Drop)]
struct CutPlaces {
    places: Places,
    ends: Ends,
}

/// Ranges, and where each portion of them ends.
#[derive(Debug, Drop)]
struct CutRanges {
    ranges: Vec<Range>,
    ends: Ends,
}

/// Of each physical command, in order: where the bytes of a transfer of blocks lie, and the ranges of a Dataset Management as the disk has
/// them. There is one list for all of them.
#[derive(Debug, Drop)]
pub(crate) struct Portions {
    kept: Kept,
}

impl Model for Portions {
    ghost use Rattle.std.specs.Prelude.{List};
    ghost use Rattle.nv_plan.specs.Outline.{Portion};
    ghost use Rattle.nv_plan.specs.Told.{IsKept, portions_of};

    ghost Value = { List Portion };

    ghost view = { λ p. portions_of p.kept };

    ghost invariant = { λ p. IsKept p.kept };
}

impl Portions {
    /// So many portions of no bytes and no ranges.
    pub(crate) fn bare(count: u8) -> Self
        ensures { result ≡ replicate count (of_places []) }
    {
        Portions {
            kept: Kept::Bare(count),
        }
    }

    /// One portion, whose bytes lie at these places.
    pub(crate) fn one(places: Places) -> Self
        ensures { result ≡ of_places places ∷ [] }
    {
        Portions {
            kept: Kept::Whole(places),
        }
    }

    /// A portion of these places for each of these ends.
    pub(crate) fn placed(alloc: Global, places: Places, ends: Ends) -> Result<Self, NoMemory>
        requires { AreEnds 0 ends (length places) }
        ensures { IfOk result (λ portions. portions ≡ map of_places (runs places 0 ends)) }
    {
        let cut = Box::new(alloc, CutPlaces { places, ends })?;
        Ok(Portions {
            kept: Kept::Placed(cut),
        })
    }

    /// A portion of these ranges of the disk for each of these ends.
    pub(crate) fn ranged(alloc: Global, ranges: Vec<Range>, ends: Ends) -> Result<Self, NoMemory>
        requires { AreEnds 0 ends (length ranges.items) }
        ensures { IfOk result (λ portions. portions ≡ map of_ranges (runs ranges.items 0 ends)) }
    {
        let kept = if ends.len() == 1 {
            Kept::Listed(ranges)
        } else {
            Kept::Ranged(Box::new(alloc, CutRanges { ranges, ends })?)
        };
        Ok(Portions { kept })
    }

    /// How many there are.
    pub(crate) fn len(&self) -> usize
        ensures { result ≡ length self.now }
    {
        match &self.kept {
            Kept::Bare(count) => usize::from(*count),
            Kept::Whole(_) => 1,
            Kept::Listed(_) => 1,
            Kept::Placed(cut) => cut.ends.len(),
            Kept::Ranged(cut) => cut.ends.len(),
        }
    }

    /// Where the bytes of the portion of this number lie, from 0.
    pub(crate) fn places(&self, part: usize) -> &[Piece]
        requires { part < length self.now }
        ensures { (portion : Portion) → slice_get self.now part ≡ Some portion → result.now ≡ portion.places }
    {
        match &self.kept {
            Kept::Bare(_) => &[],
            Kept::Whole(places) => places.pieces(),
            Kept::Listed(_) => &[],
            Kept::Placed(cut) => cut.ends.run(cut.places.pieces(), part),
            Kept::Ranged(_) => &[],
        }
    }

    /// The ranges of the portion of this number, from 0.
    pub(crate) fn ranges(&self, part: usize) -> &[Range]
        requires { part < length self.now }
        ensures { (portion : Portion) → slice_get self.now part ≡ Some portion → result.now ≡ portion.ranges }
    {
        match &self.kept {
            Kept::Bare(_) => &[],
            Kept::Whole(_) => &[],
            Kept::Listed(ranges) => ranges,
            Kept::Placed(_) => &[],
            Kept::Ranged(cut) => cut.ends.run(&cut.ranges, part),
        }
    }
}
