//! What the mediator does with a guest's command: it is answered at once, moves no data, or transfers directly or by way of bounce pages.
//!
//! - [`Planning`] is a plan under way. It is made of a [`Job`]: a command, what was read of its lists so far (a [`Transcript`]), and
//!   whose tag it has. It says which bytes it wants next, and is fed them; in the end it gives the [`Plan`]. A want costs the same
//!   however much was read before it.
//! - [`make_plan`] does that with what the job's transcript has, and says what is wanted where more is. No guest memory is read here: a
//!   list is what was read of it, and a read that is not the next want is skipped.
//! - A [`Plan`] carries its job, the guest's map and namespace and the limit on descriptors, and its type keeps that it is what the
//!   definition says of these. So a plan may be made anywhere, without a lock. The caller that takes it compares these four with the world, and
//!   need not know who made it.
//! - A plan is one physical command for each share of it. [`Plan::parts`] says how many. Of each part the plan has its places, its
//!   ranges, how many bytes it transfers and its blocks on the disk. [`tags_wanted`] says how many a command is before it is planned.
//! - [`laws`] states what follows from the definition: a plan follows from its job and what the guest was given; the places of a part are
//!   mapped and as long as its transfer; what is direct can be named by PRP, and spells exactly those addresses; and the ranges of a
//!   plan are in the guest's namespace.
//!
//! What is read of an SGL is kept in an allocator of the caller's choice, and a plan in `Global`. Where memory is refused, the job comes
//! back as it was. A list is gone through once, and so is the transcript; once more for each part, where there are several. A transfer
//! in one part through one descriptor takes three blocks of memory: for the descriptor, the places and the copy of the map. Each array
//! of descriptors takes two more, and a Dataset Management two, for its bytes and its ranges. A namespace of several extents takes one
//! more, and one extent none. Several parts have one list together, which is cut where each ends: so a transfer takes two blocks more, for
//! the list and the ends, and a Dataset Management one, for the ends, where its ranges do not overlap.
//!
//! The invariant of a [`Planning`] speaks of the dialogue that is left: what the parse has still to read, and what is judged after it. Over the
//! reads of the transcript that are left, this dialogue ends as the command's whole verdict does over the whole transcript. When nothing is left to
//! be read, it is the verdict, and the plan follows from it.
//!
//! The pieces or ranges of all parts are one after another in one list. A piece or range that a join of extents cuts becomes two. This is a crate
//! of its own because plans are made with no lock held, so it must know nothing of the world's state.
#![tactic(auto)]

mod aside;
mod comparing;
mod copies;
mod cutting;
mod draft;
mod ends;
mod given;
mod job;
mod kept_ns;
mod kind;
pub mod laws;
mod next;
mod outline;
mod plan;
mod planned;
mod planning;
mod portions;
mod ranges;
mod source;
mod tags;
mod transcript;

pub use aside::Aside;
pub use comparing::{same_extents, same_map};
pub use job::Job;
pub use kind::PlanKind;
pub use next::Next;
pub use plan::Plan;
pub use planned::Planned;
pub use planning::{Planning, make_plan};
pub use tags::tags_wanted;
pub use transcript::{ReadDone, Transcript};
