//! The laws, as functions that do nothing: each contract is a law.
pub mod headline;
pub mod others;
pub mod related;
pub mod shares;
pub mod units;
