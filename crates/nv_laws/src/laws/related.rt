//! A guest's private controller beside the world: what keeps them alike, and that a log is followed where each event is.
//!
//! A private controller and the world correspond to each other at the start, and agree wherever they do; a guest's acts, takes, lists, commands that
//! are given up, reaps, and all events of others are followed by the private controller, where the guest is disciplined; and a log is followed where
//! each of its events is.
pub mod acts;
pub mod beginning;
pub mod following;
pub mod others;
pub mod tags;
pub mod takes;
