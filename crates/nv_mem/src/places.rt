//! Lists of places, made piece by piece.

ghost use Rattle.std.specs.Prelude.{◌≡◌, List, [], ◌∷◌, ◌++◌, IfOk, OnOk, OnErr};

use crate::no_memory::NoMemory;
use crate::piece::Piece;
use std::alloc::Global;
use std::marker::Model;

/// Where the bytes of a transfer lie in a guest's memory: pieces in order, as the guest's list
/// named them. Pieces that touch are never joined.
///
/// A contract sees it as the list of its pieces.
#[derive(Debug, Drop)]
pub struct Places {
    pieces: Vec<Piece>,
}

impl Model for Places {
    ghost use Rattle.std.specs.Prelude.{List};
    ghost use Rattle.nv_mem.specs.declared.piece.Piece.{Piece};

    ghost Value = { List Piece };

    ghost view = { λ p. p.pieces.items };
}

impl Places {
    /// No places. It takes no memory; a later `push` does.
    pub fn new(alloc: Global) -> Self
        ensures { result ≡ [] }
    {
        Places {
            pieces: Vec::new(alloc),
        }
    }

    /// Takes room for so many more pieces at once. The places are as they were.
    ///
    /// # Errors
    ///
    /// [`NoMemory`] where memory for the pieces is refused.
    pub fn reserve(&mut self, pieces: usize) -> Result<(), NoMemory>
        ensures { self.new ≡ self.old }
    {
        self.pieces.try_reserve(pieces)?;
        Ok(())
    }

    /// Adds a piece after the others.
    ///
    /// # Errors
    ///
    /// [`NoMemory`] where memory for the piece is refused: the places are as they were.
    pub fn push(&mut self, piece: Piece) -> Result<(), NoMemory>
        ensures ok { OnOk result (self.new ≡ self.old ++ piece ∷ []) }
        ensures err { OnErr result (self.new ≡ self.old) }
    {
        self.pieces.push(piece)?;
        Ok(())
    }

    /// The pieces, in order.
    pub fn pieces(&self) -> &[Piece]
        ensures { result.now ≡ self.now }
    {
        &self.pieces
    }

    /// The same pieces again, in memory of their own.
    ///
    /// # Errors
    ///
    /// [`NoMemory`] where memory for the pieces is refused.
    pub fn try_clone(&self, alloc: Global) -> Result<Self, NoMemory>
        ensures { IfOk result (λ places. places ≡ self.now) }
    {
        Ok(Places {
            pieces: Vec::from_slice(alloc, &self.pieces)?,
        })
    }
}
