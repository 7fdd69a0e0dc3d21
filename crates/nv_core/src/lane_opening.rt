//! A lane at its start.

ghost use Rattle.std.specs.Prelude.{◌≡◌, IfOk, replicate};
ghost use Rattle.nv_core.specs.declared.progress.Progress.TheVariants as progress;
ghost use Rattle.nv_world_model.specs.Area.{tag_count};
ghost use Rattle.nv_world_model.specs.World.{opening_lane};

use crate::lane::Lane;
use crate::progress::Progress;
use nv_mem::NoMemory;
use nv_model::limits::TAG_COUNT;
use nv_ring::Phase;
use nv_tags::Tags;
use std::alloc::Global;

impl Lane {
    /// A lane whose completion ring is read from its first slot on, and whose tags are free.
    pub(crate) fn new(alloc: Global) -> Result<Self, NoMemory>
        ensures { IfOk result (λ lane. lane ≡ opening_lane) }
    {
        Ok(Lane {
            head: 0,
            phase: Phase::new(),
            tags: Tags::new(),
            progress: no_progress(alloc)?,
        })
    }
}

// Nothing is kept of any tag's command.
fn no_progress(alloc: Global) -> Result<Vec<Progress>, NoMemory>
    ensures { IfOk result (λ kept. kept.items ≡ replicate tag_count progress.Nothing) }
{
    let mut kept = Vec::with_capacity(alloc, TAG_COUNT)?;
    for _tag in 0..TAG_COUNT {
        kept.push(Progress::Nothing)?;
    }
    Ok(kept)
}
