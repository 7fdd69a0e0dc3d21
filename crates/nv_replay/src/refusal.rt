//! Why a script's world is not opened, with the texts.

ghost use Rattle.std.specs.Prelude.{◌≡◌, Some};
ghost use Rattle.nv_replay.specs.Refused.{map_error_text};

use nv_mem::MapError;
use std::error::Error;
use std::fmt;

/// Why the set-up of a script makes no world. Its text is a line of the fault writer.
#[derive(Clone, Copy, Debug, PartialEq, Eq)]
pub enum SetUpRefusal {
    /// the regions of this guest are no memory map
    Map { guest: usize, error: MapError },
    /// there are more than 16 guests
    TooManyGuests,
    /// two guests have a block in common
    ExtentsMeet,
    /// two guests, or one and the mediator's area, have a byte of the host in common
    MapsMeet,
    /// a size is none that may be
    BadSize,
}

impl fmt::Display for SetUpRefusal {
    ghost use Rattle.nv_replay.specs.Refused.{refusal_text};

    ghost output = { λ refusal. Some (refusal_text refusal) };

    fn fmt<W: fmt::Write>(&self, f: &mut fmt::Formatter<W>) -> fmt::Result {
        match self {
            SetUpRefusal::Map { guest, error } => {
                let error = map_error_text(*error);
                write!(f, "guest {guest} map refused: {error}")
            }
            SetUpRefusal::TooManyGuests => f.write_str("setup refused: 1 TooManyGuests"),
            SetUpRefusal::ExtentsMeet => f.write_str("setup refused: 2 RangesMeet"),
            SetUpRefusal::MapsMeet => f.write_str("setup refused: 3 MapsMeet"),
            SetUpRefusal::BadSize => f.write_str("setup refused: 4 BadSize"),
        }
    }
}

impl Error for SetUpRefusal {}

// A refusal of a guest's regions, by number and name.
fn map_error_text(error: MapError) -> &'static str
    ensures { result.now ≡ map_error_text error }
{
    match error {
        MapError::Unaligned => "1 Unaligned",
        MapError::Overlap => "2 Overlap",
        MapError::OutsideHost => "3 OutsideHost",
    }
}
