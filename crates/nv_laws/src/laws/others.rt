//! Containment: what an event leaves to all but its owner, and what it reads.
//!
//! An event leaves every other guest's view as it was; what is shown to a guest is of its own tags; the world cut down to a guest is alike to it; an
//! event of its own has the same answer in two such worlds, and leaves them alike; and so each event is contained, where the status of a failure is
//! one that a completion holds.
pub mod alike;
pub mod containing;
pub mod cutting;
pub mod leaving;
pub mod reading;
pub mod showing;
pub mod unfitting;
