//! The laws about the definitions of the mediated world that lead to the promise, and one beside it. There is no code here.
//!
//! They are one crate since only `nv_mediator` rests on them, which cites containment and the promise as a whole: what one of them is about changes
//! with the others, and is proved with them. The laws on which code rests too are in `nv_laws_sound`.
//!
//! [`laws`] has a module for each part: [`others`](laws::others), what an event leaves to all but its owner, and what it reads;
//! [`related`](laws::related), what keeps a guest's private controller and the world alike; [`units`](laws::units), that a unit of the device's is the
//! private controller's; and [`headline`](laws::headline), the promise as a whole, which rests on these three. Nothing rests yet on
//! [`shares`](laws::shares), what is written for a command's shares.
#![tactic(auto)]

pub mod laws;
