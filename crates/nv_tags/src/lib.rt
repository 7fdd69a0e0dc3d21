//! The tags of a lane: the identifiers that the mediator gives to commands on a physical queue, and whose each of them is.
//!
//! A lane has 64 tags, numbered from 0. A tag is free, or it belongs to one command of a guest from the moment that the
//! command is taken until it is completed for its guest: [`Tags::claim`] gives the lowest free tag, and the command goes
//! on through [`Tags::fly`] and [`Tags::end`] to [`Tags::release`]. A call changes the tag that it names and no other.
//!
//! A command that takes several physical ones has as many tags: [`Tags::claim_group`] gives the lowest free ones, all at once or none.
//! It goes by the lowest of them, its leader; the tags that go by one leader are its [`Tags::group`], which [`Tags::release_group`] frees at
//! once. A command of one tag is its own leader, and costs nothing for it. Nothing here takes memory.
//!
//! States and commands of tags are in separate arrays. What is looked for is a mask of 64 bits each, so that no search goes over the states: the free
//! tags, of which a claim takes the lowest; the further tags of a command, with its leader; the tags whose commands were taken, and no more, and those
//! whose commands have ended ([`Tags::taken`], [`Tags::ended`]), at which alone whoever plans or completes commands looks; and the tags that each guest's
//! commands have, for guests from 0 to 15, which [`Tags::held`] counts at once for whoever shares the tags out fairly. With those of each submission
//! queue's number they are the tags of one queue of one guest ([`Tags::from_queue`]), which wait for room in the same completion queue. It is a crate of
//! its own because it knows nothing of plans: transcripts, plans and slots of rings are kept in `nv_core`.
#![tactic(auto)]

mod claim;
mod group;
pub mod laws;
mod owned;
mod several;
mod state;
mod tags;

pub use claim::Claim;
pub use group::Group;
pub use state::TagState;
pub use tags::Tags;
