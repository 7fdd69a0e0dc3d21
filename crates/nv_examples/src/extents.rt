//! Worked examples where namespaces have several extents: a whole log of a guest of two extents beside one of three, whose premises hold and whose
//! private run is written out, and worlds that are wrong.

pub mod contained;
pub mod edges;
pub mod second_story;
pub mod story;
pub mod wrong_worlds;
