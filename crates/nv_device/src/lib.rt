//! The physical controller: blocks with their marks, and lanes, each a pair of rings in the host's memory. It takes entries from a
//! lane's submission ring, moves their units one at a time and in any order, and posts completions (Base Specification 2.0,
//! "Memory-based Transport Queue Model", "Submission Queue Entry", "Common Completion Queue Entry"; NVM Command Set Specification 1.0,
//! "NVM Command Set Commands").
//!
//! A [`Device`] is made by [`Device::new`] and works by `ring`, `take`, `move_unit`, `post`, `fail` and `keep`. What a call may not be asked
//! has a test beside it: `fits`, `has_area`, `may_take`, `may_move`. The places of a command's bytes are read from its PRP list when it is
//! taken, over host addresses. `new` and `take` alone need memory; where there is none, nothing has changed.
//!
//! [`laws`] states what the calls come to. A call on one lane leaves the positions and the commands of the others as they were, and of the
//! bytes of their areas it writes none but those that the command of a unit names. A completion that is posted is the standard's entry, in
//! the lane's next slot. Of the host's bytes, what a call makes of the device depends on those of the front entry and its list alone, or on
//! those that the command of a unit names.
//!
//! A PRP list is not checked when it is read, since the mediator wrote it. That it is sound is a condition, which `may_take` and `may_move` test.
//! The device reads the host's memory directly and has no map. So it doesn't use the parse of `nv_prp`, which is a dialogue over a guest's map. It
//! is a crate of its own because it knows nothing of guests and their commands: it sees physical entries, host addresses and blocks of the disk.
#![tactic(auto)]

mod command;
mod device;
mod lane;
pub mod laws;
mod moving;
mod paged;
mod pages;
mod posting;
mod response;
mod spelling;
mod taking;
mod units;

pub use device::Device;
pub use lane::IDENTIFIERS;
pub use response::Response;
