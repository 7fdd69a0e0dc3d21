//! What is gathered of a transfer's host addresses while its region pages are built.

ghost use Rattle.std.specs.Prelude.{◌≡◌, ◌+◌, ◌<◌, ◌≤◌, ◌^◌, ◌++◌, [], ◌∷◌, length};
ghost use Rattle.std.specs.List.{range_with_len};
ghost use Rattle.nv_model.specs.Limits.{most_bytes, most_entries};

use crate::prps::Prps;
use nv_mem::PAGE_SIZE;
use nv_model::limits::MOST_ENTRIES;
use std::marker::Model;

/// What was met of a transfer's addresses while it is built: the first, and the page starts after it.
#[derive(Drop)]
pub struct Met {
    first: Option<u64>,
    list: [u64; MOST_ENTRIES],
    used: usize,
}

impl Model for Met {
    ghost use Rattle.std.specs.Prelude.{take};
    ghost use Rattle.nv_prp.specs.Met.{IsFilled, Met as Addresses};

    ghost Value = { Addresses };

    ghost view = { λ m. record { first = m.first; entries = take m.used m.list } };

    ghost invariant = { λ m. IsFilled m.used m.list };
}

impl Met {
    ghost use Rattle.nv_prp.specs.Met.{met_later, met_more, nothing_met, prps_met};

    /// Before the first address.
    pub fn nothing() -> Self
        ensures { result ≡ nothing_met }
    {
        Met {
            first: None,
            list: [0; MOST_ENTRIES],
            used: 0,
        }
    }

    /// Adds `len` addresses in a row.
    pub fn add_row(&mut self, from: u64, len: u64)
        requires some { 0 < len }
        requires most { len ≤ most_bytes }
        requires inside { from + len < 2 ^ 64 }
        requires room { length (met_more self.old (range_with_len from len)).entries ≤ most_entries }
        ensures { self.new ≡ met_more self.old (range_with_len from len) }
    {
        match self.first {
            Some(_) => self.add_later(from, len),
            None => {
                self.first = Some(from);
                self.add_later(from + 1, len - 1);
            }
        }
    }

    // Adds the page starts of `len` addresses in a row.
    fn add_later(&mut self, from: u64, len: u64)
        requires most { len ≤ most_bytes }
        requires inside { from + len < 2 ^ 64 }
        requires room { length (met_later self.old (range_with_len from len)).entries ≤ most_entries }
        ensures { self.new ≡ met_later self.old (range_with_len from len) }
    {
        let mut skipped = (PAGE_SIZE - from % PAGE_SIZE) % PAGE_SIZE;
        while skipped < len {
            self.push(from + skipped);
            skipped += PAGE_SIZE;
        }
    }

    // Adds an entry.
    fn push(&mut self, entry: u64)
        requires { length self.old.entries < most_entries }
        ensures { self.new ≡ record self.old { entries = self.old.entries ++ entry ∷ [] } }
    {
        self.list[self.used] = entry;
        self.used += 1;
    }

    /// What names the transfer. Where it has a list, the list is at `list_page`.
    pub fn prps(&self, list_page: u64) -> Prps
        ensures { result ≡ prps_met list_page self.now }
    {
        let prp1 = self.first.unwrap_or(0);
        match self.used {
            0 => Prps {
                prp1,
                prp2: 0,
                list: [0; MOST_ENTRIES],
                used: 0,
            },
            1 => Prps {
                prp1,
                prp2: self.list[0],
                list: [0; MOST_ENTRIES],
                used: 0,
            },
            used => Prps {
                prp1,
                prp2: list_page,
                list: self.list,
                used,
            },
        }
    }
}
