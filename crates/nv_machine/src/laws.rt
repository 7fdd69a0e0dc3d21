//! Laws about the machine, as functions that do nothing: each contract is a law.
pub mod containment;
pub mod effects;
pub mod entries;
pub mod independence;
pub mod order;
pub mod places;
pub mod worlds;
