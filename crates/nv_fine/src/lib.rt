//! The host's memory byte by byte: guests, the mediator's calls and a drive, in any interleaving. There is no code here.
//!
//! The fine trace is `specs/Fine`: a guest loads or stores a byte of its memory; a call of the machine without memory fetches, stores or copies the next one;
//! or the drive makes an access of its own. Which these are is `specs/Drive`: what a reader has to grant of a drive.
//!
//! [`laws`] says what an access of a call may touch, in every fine trace and whatever others do; what an access of the drive reaches; and that what is in the
//! drive is the mediator's. [`rows`] has worked examples: an entry that is torn by its guest, a destination in pieces, a source that changes, a completion whose phase tag comes last.
#![tactic(auto)]

pub mod laws;
pub mod rows;
