//! The physical controller and its rings.
mod bench;
mod conditions;
mod disk;
mod effects;
mod rings;
mod starved;
