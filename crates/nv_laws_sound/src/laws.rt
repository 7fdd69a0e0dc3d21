//! What holds of every world that events lead to, as functions that do nothing: each contract is a law.
pub mod counting;
pub mod disks;
pub mod grouping;
pub mod keeping;
pub mod phases;
pub mod places;
pub mod rings;
pub mod setting_up;
