//! The kinds of entries that can be decoded.

ghost use Rattle.std.specs.Prelude.{◌≡◌, ◌↔◌, codes};

/// Which entry `decode` reads.
#[derive(Clone, Copy, Debug, PartialEq, Eq)]
pub enum EntryKind {
    /// `sqe`, a submission queue entry
    Submission,
    /// `cqe`, a completion queue entry
    Completion,
}

impl EntryKind {
    /// The kind of this name, or `None` for every other word.
    pub fn named(word: &str) -> Option<Self>
        ensures submission { (result ≡ Some EntryKind.Submission) ↔ (word.now ≡ codes "sqe") }
        ensures completion { (result ≡ Some EntryKind.Completion) ↔ (word.now ≡ codes "cqe") }
    {
        match word {
            "sqe" => Some(EntryKind::Submission),
            "cqe" => Some(EntryKind::Completion),
            _ => None,
        }
    }
}
