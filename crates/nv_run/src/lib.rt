//! What `nvmed run` does: a script's world under a lock, each guest's lines in a thread of their own, and a line of output for each of them.
//!
//! [`read`] takes a script whole, and opens its world. [`play`] runs its guests beside the mediator's workers until all guests are through. It then
//! compares what the guests got with the world's log, and with their lines. [`print`] prints the results of the lines.
//!
//! A guest's thread goes through its lines by its port: what the port's list says of that is in `specs/Driving`. What is printed depends on the
//! lines and the log alone (`specs/Shown`): `specs/Played` says on which log. Of what concurrent threads do, nothing is claimed but what
//! `nv_threads` says.
//!
//! A line that waits polls a million times at most. It paces its polls by the clock, so that workers have at least a second to do what it waits
//! for; nothing is proved of time.
//!
//! That its world is the one that the text opens, and which line a wait that is never met names, is tested and not proved.
//!
//! A line that acts is one event of the port's list, with its reply. A line that waits is polls that don't find the value, and then one that does.
//! Of what threads send through a channel nothing is known but what its type keeps. So at the end the main thread compares each guest's lines with
//! its port's list (`check_parts`). This ties what is printed to the script, as `nv_threads::finish` ties it to the log. Threads are started and
//! joined on every path, with a guard that stops the workers. Nothing is printed before the run has ended.
//!
//! It is a crate of its own because it needs threads, and `replay` doesn't.
#![tactic(auto)]

mod driven;
mod fault;
mod opening;
mod pace;
mod part;
mod played;
mod printing;
mod stage;
mod walk;

pub use driven::{Driven, End, drive};
pub use fault::RunFault;
pub use opening::{Run, read};
pub use part::Part;
pub use played::{Played, play};
pub use printing::print;
