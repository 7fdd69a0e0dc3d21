//! What is kept of a tag's command beside its entry.

ghost use Rattle.std.specs.Prelude.{◌≡◌, ◌<◌, slice_set, vec_len};

use nv_plan::{Plan, Transcript};

/// What is kept of a tag's command, by the point at which it is.
///
/// A command that is several physical ones keeps its plan in the tag that it goes by. Its other tags know which part of the plan is theirs.
#[derive(Debug, Drop)]
pub(crate) enum Progress {
    /// The tag is free, or its command has ended without a plan.
    Nothing,
    /// The command was taken, and these reads of its lists were made.
    Reading(Transcript),
    /// The command was handed on by this plan, and its first part has not ended.
    Going(Plan),
    /// The command's first part has ended, and this was the command's plan.
    Over(Plan),
    /// A further part, by its number, was handed on.
    Part(u8),
    /// A further part, by its number, has ended.
    PartOver(u8),
}

/// What is kept of a tag's command is this now.
pub(crate) fn keep(kept: &mut Vec<Progress>, tag: u8, now: Progress)
    requires { tag < vec_len kept.old }
    ensures items { kept.new.items ≡ slice_set kept.old.items tag now }
    ensures len { vec_len kept.new ≡ vec_len kept.old }
{
    kept[usize::from(tag)] = now;
}
