//! What everything means: the definitions that the other crates' contracts cite, and the data types that they speak of.
//!
//! - [`rows`] are worked examples that the checker computes: lists, and why they are refused; the fields of commands, and what commands do;
//!   registers, doorbells and admin commands; runs from the bring-up to a completion; transcripts, footprints, and acts beside them.
//! - [`laws`] are what holds in every case, as functions that do nothing: each contract is a law.
//!
//! Of lists: what is read and wanted of them is in mapped memory ([`laws::lists`], [`laws::endings`]), of descriptors and of entries the
//! first with a fault decides ([`laws::sequences`], [`laws::addresses`]), and each byte is where the entry of its page says. Of verdicts:
//! one depends on no byte but those that it asks for ([`laws::agreeing`]), and a transcript that shows a memory gives the verdict of that
//! memory ([`laws::transcripts`]). A command is carried out by its verdict and its units, each of them once, and in no other way
//! ([`laws::carrying`]).
//!
//! Along every run of the private controller its queues stay in order ([`laws::queues`]), and its counts, its queues and RDY go with the
//! commands that are taken ([`laws::running`]). What is at unmapped addresses or in blocks past the namespace has no bearing on what a
//! guest sees ([`laws::unseen`]).
//!
//! The definitions are in `specs/`, and `docs/DEFINITIONS.md` has the order in which to read them. The only code is the data types that they speak
//! of, and the copy of an act. It is a crate of its own so that what a reader has to believe is apart from the code that is proved against it.
#![tactic(auto)]

mod act;
pub mod laws;
pub mod limits;
mod reply;
pub mod rows;
mod want;

pub use act::Act;
pub use nv_mem::Bytes;
pub use reply::Reply;
pub use want::Want;
