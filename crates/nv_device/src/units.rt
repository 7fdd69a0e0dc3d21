//! The units of a command that have not moved.

ghost use Rattle.std.specs.Prelude.{◌≡◌, ◌==◌, ◌↔◌, [], false, true, replicate, slice_index_or, IfOk, IsTrue};
ghost use Rattle.std.specs.List.{list_any, range_with_len};
ghost use Rattle.nv_device.specs.Units.{IsLowest};
ghost use Rattle.nv_model.specs.Private.{others};

use nv_mem::NoMemory;
use std::alloc::Global;
use std::marker::Model;

/// The numbers of a command's units that have not moved. A contract sees them as a list, in order.
#[derive(Debug, Drop)]
pub(crate) struct Units {
    /// Whether the unit of each number is left.
    left: Vec<bool>,
    /// How many are.
    count: usize,
}

impl Model for Units {
    ghost use Rattle.std.specs.Prelude.{◌≡◌, List, ℕ, length};
    ghost use Rattle.nv_device.specs.Units.{numbers_marked};

    ghost Value = { List ℕ };

    ghost view = { λ u. numbers_marked 0 u.left.items };

    ghost invariant = { λ u. u.count ≡ length (numbers_marked 0 u.left.items) };
}

impl Units {
    /// Those of a command of `count` units, of which none has moved.
    pub(crate) fn new(alloc: Global, count: usize) -> Result<Self, NoMemory>
        ensures { IfOk result (λ units. units ≡ range_with_len 0 count) }
    {
        Ok(Units {
            left: all_left(alloc, count)?,
            count,
        })
    }

    /// Whether that one is left.
    pub(crate) fn contains(&self, number: u64) -> bool
        ensures { result ≡ list_any (λ k. k == number) self.now }
    {
        number < self.left.len() as u64 && self.left[number as usize]
    }

    /// Whether none is left.
    pub(crate) fn is_empty(&self) -> bool
        ensures { IsTrue result ↔ (self.now ≡ []) }
    {
        self.count == 0
    }

    /// The lowest that is left; `None` where none is.
    pub(crate) fn first(&self) -> Option<u64>
        ensures { IsLowest (λ number. list_any (λ k. k == number) self.now) result }
    {
        let number = first_mark(&self.left)?;
        Some(number as u64)
    }

    /// Takes that one out.
    pub(crate) fn remove(&mut self, number: u64)
        requires { list_any (λ k. k == number) self.old ≡ true }
        ensures { self.new ≡ others number self.old }
    {
        self.left[number as usize] = false;
        self.count -= 1;
    }
}

/// The number of the first mark that is set.
fn first_mark(left: &[bool]) -> Option<usize>
    ensures { IsLowest (λ number. slice_index_or left.now number false) result }
{
    left.iter().position(|mark| *mark)
}

/// A mark for each of so many units.
fn all_left(alloc: Global, count: usize) -> Result<Vec<bool>, NoMemory>
    ensures { IfOk result (λ left. left.items ≡ replicate count true) }
{
    Ok(vec![in alloc; true; count]?)
}
