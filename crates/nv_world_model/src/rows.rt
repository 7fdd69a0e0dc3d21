//! Worked examples, computed from the definitions.

pub mod agreeing;
pub mod answers;
pub mod commands;
pub mod contained;
pub mod disciplined;
pub mod extents;
pub mod failing;
pub mod going;
pub mod lists;
pub mod moving;
pub mod private_steps;
pub mod queues;
pub mod rings;
pub mod set_ups;
pub mod shares;
pub mod two_guests;
pub mod views;
pub mod wrong_alone;
pub mod wrong_steps;
