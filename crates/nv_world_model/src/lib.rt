//! The world of the mediator, as definitions: the state of the host, the disk, the physical controller and each guest's controller, what each event
//! does, and the data types that its code will share. There is no code here.
//!
//! A guest's command is one physical command, or several where its namespace has several extents: one for each extent that its blocks meet, or for
//! each extent there is. Each of them has a tag of its own and does its share of the command's plan. All go by the lowest of these tags. They are
//! taken together or not at all. The command is completed once all have ended, with the status of the first that failed. To the guest it is one
//! command.
//!
//! The worked examples of [`rows`] compute, event by event, what the definitions say of two guests: commands of each form, direct and bounced, in
//! one part and in several; failures, resets and full queues; what is shown to a guest; set-ups that are refused; and steps that are wrong, of
//! which each is found not to be contained. [`laws`] says: each reply comes only where it may, and one that reports no change comes with none; a
//! take finds the lowest free tags; in a guest's seat acts, admin steps, takes and posts are its private controller's; which plan a verdict has;
//! the device's completions are the standard's; rings never fill; and what the shares of a plan are of the plan.
//!
//! A guest's seat in the world is a private controller of `nv_model`. What the mediator and the device do to it are steps of that definition, so
//! nothing of a guest's controller is defined twice.
//!
//! What the physical command of a tag does of its guest's command is its share (`specs/Share`): a plan, cut out of the command's plan, and the
//! numbers of its units in the whole. So what is said of one tag uses that tag's own plan. Only taking, handing on and completing a command concern
//! several tags. The device knows nothing of groups of tags.
//!
//! A lane has 64 tags, and each of its two rings has 65 slots. `nv_prp` has the definition of the lists that are built. It is a crate of its own,
//! apart from `nv_model`, because crates that serve one controller (`nv_flat`, `nv_vctl`, `nv_admin`) don't need the world.
#![tactic(auto)]

mod event;
pub mod laws;
mod logged;
pub mod rows;

pub use event::Event;
pub use logged::Logged;
