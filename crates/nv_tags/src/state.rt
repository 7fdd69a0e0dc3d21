//! Where a tag's command is.

ghost use Rattle.std.specs.Prelude.{◌≡◌};
ghost use Rattle.nv_tags.specs.Tags.{ended_with, is_free_state};

use nv_entry::Status;

/// A tag belongs to no command, or to one that is at this point.
#[derive(Clone, Copy, Debug, PartialEq, Eq)]
pub enum TagState {
    /// No command has the tag.
    Free,
    /// The command was taken from its guest's queue.
    Taken,
    /// The command was handed to the physical controller.
    Flying,
    /// The command has ended, with the status that its guest will get.
    Ended(Status),
}

impl TagState {
    /// Whether no command has the tag.
    pub fn is_free(self) -> bool
        ensures { result ≡ is_free_state self }
    {
        matches!(self, TagState::Free)
    }

    /// The status that the command has ended with; `None` where there is no command, or it has not ended.
    pub fn ended(self) -> Option<Status>
        ensures { result ≡ ended_with self }
    {
        match self {
            TagState::Ended(status) => Some(status),
            _ => None,
        }
    }
}
