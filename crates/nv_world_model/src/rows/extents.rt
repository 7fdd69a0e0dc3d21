//! Worked examples of guests with several extents.

pub mod completing;
pub mod going;
pub mod managing;
pub mod private;
pub mod taking;
