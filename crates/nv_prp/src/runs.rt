//! The runs that were read of region pages, in an array that is large enough for every transfer.

ghost use Rattle.std.specs.Prelude.{◌≡◌, ◌<◌, ◌≤◌, ◌++◌, [], ◌∷◌, length, OnOk};
ghost use Rattle.nv_model.specs.Limits.{most_pages};

use nv_mem::{NoMemory, Piece, Places};
use nv_model::limits::MOST_PAGES;
use std::marker::Model;

/// The runs of a transfer that were read, in order.
///
/// A contract sees it as their list.
#[derive(Drop)]
pub struct Runs {
    runs: [Piece; MOST_PAGES],
    count: usize,
}

impl Model for Runs {
    ghost use Rattle.std.specs.Prelude.{List, take, ◌≤◌};
    ghost use Rattle.nv_mem.specs.declared.piece.Piece.{Piece};
    ghost use Rattle.nv_model.specs.Limits.{most_pages};

    ghost Value = { List Piece };

    ghost view = { λ r. take r.count r.runs };

    ghost invariant = { λ r. r.count ≤ most_pages };
}

impl Runs {
    /// No runs.
    pub fn new() -> Self
        ensures { result ≡ [] }
    {
        Runs {
            runs: [Piece::Bucket { len: 0 }; MOST_PAGES],
            count: 0,
        }
    }

    /// Adds a run after the others.
    pub fn push(&mut self, run: Piece)
        requires { length self.old < most_pages }
        ensures { self.new ≡ self.old ++ run ∷ [] }
    {
        self.runs[self.count] = run;
        self.count += 1;
    }

    /// The runs, in order.
    pub fn as_slice(&self) -> &[Piece]
        ensures { result.now ≡ self.now }
    {
        &self.runs[..self.count]
    }
}

/// Adds the runs after the pieces that are there.
///
/// # Errors
///
/// [`NoMemory`] where memory for a run is refused. The places may then have some of the runs.
pub fn push_all(runs: &[Piece], places: &mut Places) -> Result<(), NoMemory>
    ensures { OnOk result (places.new ≡ places.old ++ runs.now) }
{
    for run in runs {
        places.push(*run)?;
    }
    Ok(())
}
