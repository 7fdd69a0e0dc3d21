//! What the program `nvmed` does: `decode` prints the fields of an entry, `once` runs a script of commands on a
//! controller over flat memory, `replay` puts a mediated world through the events of a script, and `run` lets the guests of a script act in threads
//! of their own.
//!
//! [`program`] is the whole of it over a process and a [`Grammar`]. [`serve`] does what is asked for over a reader and two writers, on any kind of
//! controller that runs one command at a time, and [`run`] does all of that which waits for nobody. It is proved what is printed. For an entry it
//! is the line, field by field. For a script, where it is known what there is to read, it is what its lines print one after another on a run of the
//! controller, or the replies to its events along the world. For the guests of `run` it is what each guest's lines gave in one log that keeps the
//! whole promise. A command ends with a fault only as its definition says, the output is left as it was except after out of memory and failed
//! output, `decode` reads nothing, and each outcome has its exit status. What a writer that failed holds is tested and not
//! proved, and so is which words are a command ([`CommandLine`]).
//!
//! What `once` prints is proved from the contract of the trait `One` of `nv_flat` alone. Of the subcommands only `run` waits. So it is a request of
//! its own, and only [`serve`], [`program`] and the function that performs it need a bound on threads. This is a crate apart from `nvmed` so that
//! tests, and a program without a command line (`nv_workloads`), can use it.
#![tactic(auto)]

mod command;
mod command_line;
mod decode;
mod entry_kind;
mod exit_status;
mod fault;
mod grammar;
mod input;
mod lines;
mod once;
mod print;
mod process;
mod refusal;
mod replay;
mod request;
mod running;

pub use command::{Command, Failure, perform, perform_run};
pub use command_line::CommandLine;
pub use entry_kind::EntryKind;
pub use exit_status::ExitStatus;
pub use fault::{Fault, report};
pub use grammar::{Grammar, request_of, words};
pub use process::{program, run, serve};
pub use refusal::Refusal;
pub use request::Request;
