//! Physical region pages (Base Specification 2.0, "Physical Region Page Entry and List"), read and built.
//!
//! - [`PrpParse`] reads PRP1, PRP2 and the list that PRP2 may point to. It reads no memory itself: [`PrpParse::wants`] says which bytes it wants
//!   next, and [`PrpParse::feed`] gives them to it, each of them once. In the end it is `Done` and gives the places of the transfer, or has a
//!   `Fault`.
//! - [`Named`] is what PRP1 and PRP2 name by themselves. A transfer that lies in at most two pages needs no list and no parse: [`NamedRuns`] are its
//!   runs.
//! - [`fits`] says whether a transfer can name places by PRP, by their host addresses.
//! - [`build`] names such places by PRP1, PRP2 and a list, and [`build_run`] a stretch of the host's memory: [`Prps`].
//! - [`laws`] states two things. Feeding a parse what a memory holds where the parse asks does not change what the parse ends in for that memory.
//!   What is built spells, by the definition by which PRP is read, exactly the host addresses that it was built for.
//!
//! A parse is seen as what it still has to read: a dialogue that asks for slots, goes on with what it is given, and ends in the reading. So `feed`
//! promises that the dialogue is the old one with the bytes given to it, and `wants` says what that dialogue asks for or how it ended. The needed
//! slots of a list page are wanted at once. These are the slots that are page entries and, where more pages remain than slots, the pointer to the
//! next list page. Each slot is checked for its offset and then for the bytes that it names, in the order in which the transfer meets them, and the
//! first fault decides. That order and the status of bytes outside the guest's memory are this project's own choice (profile).
//!
//! A transfer has at most 131,072 bytes, so there is a number of pages in which it lies at most. The runs that were read are stored in an array
//! of that size, and the entries of a list that is built in one with an entry less. So only [`PrpParse::places`] and [`NamedRuns::places`] take
//! memory. They are called with ample memory in tests that compare their answers.
//!
//! What [`build`] makes names its addresses in any memory that has the list at the place that it was built for. A parse works over a memory and
//! over a transcript of earlier reads, as in `nv_sgl`. Reading and building are one crate because what is built is judged by the definition by
//! which it is read.
#![tactic(auto)]

mod building;
mod cursor;
mod fitting;
pub mod laws;
mod met;
mod named;
mod parse;
mod prps;
mod runs;

pub use building::{build, build_run};
pub use fitting::fits;
pub use named::{Named, NamedRuns};
pub use parse::{PrpParse, PrpRest};
pub use prps::Prps;
