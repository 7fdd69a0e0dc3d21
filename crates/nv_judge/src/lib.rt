//! The checks of an I/O command's fields, in their order, and of the ranges of Dataset Management.
//!
//! [`judge_fields`] answers with the refusal by the first check that fails, or with what the command needs ([`Need`]). [`judge_ranges`] says
//! whether each range is in the namespace. Neither reads memory or allocates any. [`transfer_len`] is how many bytes a command transfers.
//!
//! It is a crate of its own because `nv_flat` and `nv_plan` both judge commands by it.
#![tactic(auto)]

mod fields;
mod need;
mod ranges;

pub use fields::{judge_fields, transfer_len};
pub use need::Need;
pub use ranges::judge_ranges;
