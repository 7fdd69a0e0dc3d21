//! A guest's virtual controller: its registers and its queues (Base Specification 2.0, "Controller Properties", "Memory-based Transport Queue
//! Model"; NVMe over PCIe Transport Specification 1.0, "Doorbell").
//!
//! A [`Vctl`] is what a guest sees of an NVMe controller of its own. The guest acts on it by [`Vctl::reg_read`], [`Vctl::reg_write`] and
//! [`Vctl::doorbell`]. The code that serves the guest reads the command that comes next ([`Vctl::peek_sqe`]), takes it ([`Vctl::took`]), and posts
//! its completion ([`Vctl::post_cqe`]) or, where the guest has reset the controller meanwhile, lets it run out ([`Vctl::ran_out`]). [`Vctl::post`] is
//! given no memory: it returns the completion as a [`Posting`], which its caller stores. What admin commands do to queues has separate calls. Which
//! interrupts the guest is to get, [`Vctl::pending`] reports by the vectors of its completion queues, and [`Vctl::completion_queue`] where each of
//! these stands.
//! Each call is the definition of `nv_model/specs/Controller` or `Admin`, word for word. Entries are in the guest's memory, which is a map's part of
//! the host. Nothing here allocates memory.
//!
//! Queues stay where they were mapped: [`Vctl::lies_in`] tests that all of them are in the guest's map, at the start there are none, and every call
//! preserves it. The caller that makes an I/O queue ([`Vctl::create_submission_queue`], [`Vctl::create_completion_queue`]) is responsible for its
//! slots.
//!
//! There are nine places for queues of each kind, the admin queue's first. For each queue the controller counts its taken commands. It also has the
//! event requests that it holds, and the deletion that waits, if one does. The type keeps what the laws of `nv_model` say along runs, and that
//! commands of the admin queue are completed to the admin completion queue. So a completion is held back only where its queue is full. That queues
//! are in the map is a condition of calls instead, because the map is no part of the controller. Entries are read and completions are written by
//! `load` and `store` of `nv_bounce`.
//!
//! It is a crate of its own because it knows one guest and no command: what an admin command checks, and in which order, is decided in `nv_admin`.
#![tactic(auto)]

mod changes;
mod commands;
mod deletion;
mod doorbells;
mod posted;
mod posting;
mod queues;
mod registers;
mod vctl;

pub use deletion::Deletion;
pub use posted::Posted;
pub use posting::Posting;
pub use queues::CompletionQueue;
pub use vctl::{MOST_TAKEN, Vctl};
