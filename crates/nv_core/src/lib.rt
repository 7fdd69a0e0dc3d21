//! The mediated world on lists: one call for each event, which does to the state what `nv_world_model/specs/Step` does to the world.
//!
//! A [`Core`] holds the host's memory, the physical controller, the mediator's side of each lane and each guest's controller. What stays as it is
//! while the world runs, a [`Layout`], is lent to each call. Each call is its event of the definition, whole: the reply, and the world after it.
//! The caller knows that the state is of that layout and that its world is consistent, as `nv_laws_sound` keeps it.
//!
//! [`Core::new`] is the world at its start. The events of guests are [`Core::act`] and [`Core::admin`]. Those of the mediator are [`Core::take`],
//! [`Core::list`], [`Core::submit`], [`Core::give_up`], [`Core::reap`] and [`Core::post`]. Those of the physical controller are [`Core::dev_take`],
//! [`Core::dev_move`], [`Core::dev_post`], [`Core::dev_fail`] and [`Core::keep`]. [`Core::submit_plan`] is the Submit of a plan that was made
//! elsewhere, without the state at hand. The plan is of the [`Core::job`] that its maker was given. [`Core::due`] reports by which events a worker
//! finds something to do, and [`Core::holder`] whose command a tag has. [`Core::store`] and [`Core::load`] are a guest's own, of bytes that are
//! lent, and take no memory. [`Core::host`], [`Core::block`] and [`Core::kept`] show the host's memory and the disk.
//!
//! [`Front::complete`] is a Post that is given no memory. Its contract is the call of `nv_machine`: the side, the reply, and that the effects are copies and
//! then the stores of the completion that it returns. [`Front::post`] decides by the same code, and moves the bytes itself.
//!
//! `world_of` (`specs/State`) says which world a state means. A call ensures one equation: the new state's world and the reply are the definition's
//! step of the old state's world. Where memory is refused, nothing has changed.
//!
//! What is known of a tag's command is kept beside `nv_tags`, lane by lane: the reads of its lists while it is planned, then its plan. Where the
//! physical command is then, nobody keeps: it follows from the rings and the physical controller (`specs/Places`). A command that was handed on keeps its whole plan in its leader, since the definition's plan follows from job, map,
//! namespace and limit. Its further tags keep the number of their part. Commands of one tag go through functions without a loop. The number of
//! parts or of extents decides that.
//!
//! What there is to do is found without a search: [`Front::taken`] and [`Front::ended`] have the tags of a lane whose commands are at that point, and
//! [`Front::noted`] the guests of whose queues something may be due. A guest is noted by each call that may change its controller.
//!
//! It is a crate of its own because it has conditions on its caller, and needs `nv_laws_sound` alone of the laws. `nv_mediator` makes these
//! conditions an invariant of its type.
#![tactic(auto)]

mod acting;
mod administering;
mod area;
mod comparing;
mod completing;
mod delegating;
mod device_events;
mod due;
mod front;
mod front_due;
mod full;
mod handing;
mod holding;
mod interrupts;
mod jobs;
mod keeping;
mod lane;
mod lane_ending;
mod lane_flying;
mod lane_groups;
mod lane_handing;
mod lane_opening;
pub mod laws;
mod layout;
mod lending;
mod marking;
mod noting;
mod opening;
mod parts;
mod physical_entry;
mod positions;
mod posting;
mod progress;
mod reaping;
mod seat;
mod showing;
mod state;
mod submitting;
mod tagged;
mod taking;
mod writing;

pub use completing::Completion;
pub use front::Front;
pub use holding::Holder;
pub use layout::{Grant, Layout};
pub use nv_tags::Group;
pub use reaping::Stray;
pub use state::Core;
