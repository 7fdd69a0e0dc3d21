//! A guest's admin queue: one event of it, whole (Base Specification 2.0, "Admin Command Set").
//!
//! [`admin`] does what there is to do for a guest's admin queue: it finishes a deletion that waits, or takes the command at the front, carries it
//! out and posts its completion. It is the definition `admin` of `nv_model/specs/Admin`, word for word: the reply, the controller after it, and
//! every byte of the host. Which commands, features and data structures there are, the order of the checks and the status that each fault gets are
//! the project's own choice (profile):
//!
//! | Opcode | Command | What it does, and its checks in order |
//! |---|---|---|
//! | 00h | Delete I/O Submission Queue | the queue is not 0 and there; with taken commands it closes, and its completion waits for them |
//! | 01h | Create I/O Submission Queue | number, size, contiguity, completion queue, then place |
//! | 02h | Get Log Page | Invalid Log Page |
//! | 04h | Delete I/O Completion Queue | the queue is not 0 and there; no submission queue uses it |
//! | 05h | Create I/O Completion Queue | number, size, contiguity, then place |
//! | 06h | Identify | CNS, NSID, then PRP1 and PRP2; 4,096 bytes in one step |
//! | 08h | Abort | nothing is aborted: DW0 is 1 |
//! | 09h | Set Features | the number of queues alone, and only while no I/O queue is there |
//! | 0Ah | Get Features | the number of queues alone |
//! | 0Ch | Asynchronous Event Request | the first four are held and never answered |
//!
//! [`administer`] is the same event without a memory. It is given the command that was fetched, and returns what is to be stored: the page of
//! Identify, and the completion, in this order. [`command_at`] says where that command lies. [`admin`] fetches it, calls [`administer`], and stores.
//!
//! Before these checks, a fused command, an unknown opcode and a data pointer that is no PRP are refused, in this order. A refusal has DNR 1, and
//! where a command is refused nothing else changes. Nothing here takes memory.
//!
//! There is one function for each command, and one table from opcodes to them. The checks of a command are functions whose contract is the
//! definition's list of checks, and `?` refuses by the first that fails. A command returns its outcome: done with a DW0, pending, or the status of
//! its refusal. It changes the controller by calls of `nv_vctl` alone, and has no memory. Its completion is made in one place, after it. No command
//! changes the admin completion queue, so room that was there before the command is there after it.
//!
//! The data structures of Identify are tables of offset, length and value. A [`ShownPage`] is one of them, and where it goes: both page entries are
//! checked before there is one. It is written into one page on the stack when it is stored, which takes at most two stores.
#![tactic(auto)]

mod administered;
mod carried;
mod commands;
mod data_structure;
mod due;
mod event;
mod features;
mod fields;
mod identify;
mod outcome;
mod page_buffer;
mod queues;
mod reply;
mod shown_page;

pub use administered::Administered;
pub use due::is_due;
pub use event::{admin, administer, command_at};
pub use reply::Admin;
pub use shown_page::ShownPage;
