//! What each guest of a script is to do.

ghost use Rattle.std.specs.Prelude.{◌≡◌, ◌∷◌, ◌++◌, [], IfOk, OnErr, OnOk};
ghost use Rattle.nv_run.specs.Parts.{AreParted, part_of};

use nv_model::limits::MOST_GUESTS;
use nv_run_script::Line;
use std::alloc::{AllocError, Global};

/// What a guest is to do: its lines, in the order written.
#[derive(Drop)]
pub struct Part {
    /// the lines
    pub lines: Vec<Line>,
}

impl Part {
    // Adds a line after the others.
    fn add(&mut self, line: Line) -> Result<(), AllocError>
        ensures ok { OnOk result (self.new.lines.items ≡ self.old.lines.items ++ line ∷ []) }
    {
        self.lines.push(line)?;
        Ok(())
    }
}

/// Gives each guest its lines. The parts are indexed by the numbers of their guests. A guest that has no line has a part, too.
///
/// # Errors
///
/// Memory was refused.
pub(crate) fn cast(alloc: Global, lines: Vec<Line>) -> Result<Vec<Part>, AllocError>
    ensures { IfOk result (λ parts. AreParted lines.items parts.items) }
{
    let mut parts = empty_parts(alloc)?;
    for line in lines {
        if let Some(part) = parts.get_mut(line.guest) {
            part.add(line)?;
        }
    }
    Ok(parts)
}

// Parts of no lines, one for each guest that there can be.
fn empty_parts(alloc: Global) -> Result<Vec<Part>, AllocError>
    ensures { IfOk result (λ parts. AreParted [] parts.items) }
{
    let mut parts = Vec::new(alloc);
    for _ in 0..MOST_GUESTS {
        parts.push(Part {
            lines: Vec::new(alloc),
        })?;
    }
    Ok(parts)
}

/// The lines of a guest; none where it has no part.
pub(crate) fn lines_of(parts: &[Part], guest: u8) -> &[Line]
    ensures { result.now ≡ part_of guest parts.now }
{
    match parts.get(usize::from(guest)) {
        Some(part) => &part.lines,
        None => &[],
    }
}
