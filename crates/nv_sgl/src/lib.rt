//! Scatter gather lists (Base Specification 2.0, "Scatter Gather List (SGL)"), read under any allocator.
//!
//! - [`SglParse`] reads a list. It reads no memory itself: [`SglParse::wants`] says which bytes it wants next, and [`SglParse::feed`] gives them to
//!   it, each of them once. In the end it is [`Want::Done`] and gives the places of the transfer, or has a [`Want::Fault`], or is
//!   [`Want::TooLong`].
//! - [`PlacesParse`] reads a list in the same way, and keeps its places alone: it takes no memory for descriptors.
//! - [`Chain`] keeps the descriptors that were read, array by array, in the memory of an allocator of the caller's choice.
//! - [`laws`] states that feeding a parse what a memory holds where the parse asks does not change what the parse ends in for that memory.
//!
//! A parse is seen as what it still has to read: a dialogue that asks for descriptors, goes on with what it is given, and ends in the list's
//! reading. So `feed` promises that the dialogue is the old one with the bytes given to it, and `wants` says what that dialogue asks for or how it
//! ended. The first faulty descriptor decides, and the first check that it fails. No descriptor after it, nor after the limit of 1,024
//! ([`SglParse::with_limit`] takes another), is examined. That limit, the order of the checks, the alignment of arrays and the parts of 4,096 bytes
//! are this project's own choice (profile).
//!
//! `new`, `feed`, `places` and `try_clone` take memory, and nothing else does. Where it is refused, `feed` leaves the parse as it was, so it may be
//! fed again. The tests refuse each allocation in turn, by an allocator of their own and by a heap that others have filled. The arrays of a chain
//! are at most as many as descriptors may be read. `places` and `try_clone` call themselves once for each array: no more often than the limit says.
//! Time is linear in the descriptors of the parts that were fed.
//!
//! A parse that reads no memory works over a memory and over a transcript of earlier reads. It is a crate of its own because `nv_flat` reads its
//! own memory with it, and `nv_plan` reads a transcript.
#![tactic(auto)]

mod chain;
mod cursor;
pub mod laws;
mod parse;
mod place_parse;

pub use chain::Chain;
pub use nv_model::Want;
pub use parse::{SglParse, SglRest};
pub use place_parse::PlacesParse;
