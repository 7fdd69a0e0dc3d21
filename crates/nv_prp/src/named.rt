//! Transfers that PRP1 and PRP2 name without a list: those that lie in at most two pages.

ghost use Rattle.std.specs.Prelude.{◌≡◌, ◌<◌, ◌≤◌, [], ◌∷◌, IfOk};
ghost use Rattle.nv_mem.specs.GuestMap.{mapped};
ghost use Rattle.nv_model.specs.Prp.{pages_of, read_prp2};
ghost use Rattle.nv_prp.specs.Named.{IsNamed, IsNamedAfter};

use crate::cursor::fault_of;
use nv_entry::StatusCode;
use nv_mem::{GuestMap, NoMemory, PAGE_SIZE, Piece, Places};
use std::alloc::Global;
use std::marker::Model;

/// The one or two runs of a transfer that PRP1 and PRP2 name without a list.
///
/// A contract sees them as their list.
#[derive(Drop)]
pub struct NamedRuns {
    first: Piece,
    second: Option<Piece>,
}

impl Model for NamedRuns {
    ghost use Rattle.std.specs.Prelude.{List, ◌∷◌, option_to_list};
    ghost use Rattle.nv_mem.specs.declared.piece.Piece.{Piece};

    ghost Value = { List Piece };

    ghost view = { λ r. r.first ∷ option_to_list r.second };
}

impl NamedRuns {
    /// Where the bytes of the transfer lie.
    ///
    /// # Errors
    ///
    /// [`NoMemory`] where memory for the places is refused.
    pub fn places(&self, alloc: Global) -> Result<Places, NoMemory>
        ensures { IfOk result (λ places. places ≡ self.now) }
    {
        let mut places = Places::new(alloc);
        places.push(self.first)?;
        if let Some(second) = self.second {
            places.push(second)?;
        }
        Ok(places)
    }
}

/// What PRP1 and PRP2 of a transfer name by themselves.
#[derive(Drop)]
pub enum Named {
    /// The whole transfer: these runs.
    Runs(NamedRuns),
    /// The transfer is refused with this code.
    Fault(StatusCode),
    /// Only its first page: PRP2 points to a list. A [`PrpParse`](crate::PrpParse) reads it.
    FirstPage,
}

impl Named {
    /// What PRP1 and PRP2 of a transfer of `need` bytes name by themselves. It takes no memory.
    pub fn by(map: &GuestMap, prp1: u64, prp2: u64, need: u64) -> Self
        requires some { 0 < need }
        ensures { IsNamed (mapped map.now.regions) prp1 prp2 need result }
    {
        let len = need.min(PAGE_SIZE - prp1 % PAGE_SIZE);
        match fault_of(map, 4, prp1, len) {
            Some(code) => Named::Fault(code),
            None => Named::after(map, Piece::Run { addr: prp1, len }, prp2, need - len),
        }
    }

    // What PRP2 names after the run of PRP1's page, where `bytes` bytes are left.
    fn after(map: &GuestMap, first: Piece, prp2: u64, bytes: u64) -> Self
        ensures { IsNamedAfter (read_prp2 (mapped map.now.regions) (pages_of bytes) prp2 bytes (first ∷ [])) bytes result }
    {
        if bytes == 0 {
            Named::Runs(NamedRuns {
                first,
                second: None,
            })
        } else if bytes <= PAGE_SIZE {
            match fault_of(map, PAGE_SIZE, prp2, bytes) {
                Some(code) => Named::Fault(code),
                None => {
                    let second = Some(Piece::Run {
                        addr: prp2,
                        len: bytes,
                    });
                    Named::Runs(NamedRuns { first, second })
                }
            }
        } else {
            Named::FirstPage
        }
    }
}
