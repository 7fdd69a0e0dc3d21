//! What holds of every world that events lead to, as laws about the definitions of the mediated world: each physical command that was handed on is
//! in one place, where its bytes are, and the tags of a guest's command belong together. There is no code here.
//!
//! [`laws`] says: a set-up that is not refused keeps guests' bytes and blocks, and the mediator's area, apart; its world is consistent at the
//! start, and each event keeps it so, including those of hostile guests and the failing of commands; no physical ring overflows, and a slot of a
//! ring is one tag's; a completion is there to be reaped exactly where the next slot has the phase tag that is wanted there; a command goes by the
//! lowest of its tags, has as many as its fields ask for, and its plan's shares in order; each guest's controller counts its commands; and an
//! event of a guest or of the mediator neither reads nor changes the disk and its marks.
//!
//! What is kept is one record, `IsConsistent` (`specs/Consistent`). In it, a tag that was handed on is queued, in the device or answered, and its
//! entry, list and ranges are in the host as its plan has them. `AreGroups` (`specs/Groups`) says that the shares of a command's tags are all
//! shares of its plan, in order. A lemma says what a change of one tag, of one lane or of the mediator's area keeps. An event is a chain of such
//! changes, and an event of several tags is a fold over them. That controllers count their commands is a record beside it (`IsCounted` of
//! `specs/Counted`).
//!
//! It is a crate of its own because `nv_core` needs this of its world and no other law. Other laws of the mediated world rest on it.
#![tactic(auto)]

pub mod laws;
