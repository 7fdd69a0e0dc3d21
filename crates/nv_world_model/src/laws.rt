//! Laws about the definitions, as functions that do nothing: each contract is a law.

pub mod device;
pub mod plans;
pub mod replies;
pub mod rings;
pub mod seats;
pub mod shares;
