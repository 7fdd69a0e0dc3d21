//! The entries of NVM Express as bytes: submission and completion queue entries, SGL descriptors, the ranges of Dataset
//! Management, and the status of a completion.
//!
//! An entry is its bytes: a contract sees a `Sqe` as a list of 64 numbers below 256. A field is a run of these bytes read as a
//! little-endian number, or some bits of such a number (`specs/Layout`), and each reader gives exactly its field. Reading is
//! total, takes no memory and refuses nothing: what a field's value means to a controller is decided above this crate.
//!
//! [`Sqe::of`], [`Cqe::of`], [`Descriptor::of`] and [`Range::of`] keep every byte that they read, and `bytes` of each gives all back. A
//! completion that [`Cqe::new`] makes has each of its ten fields as it was asked for, with CRD and M 0, and zeros elsewhere.
//!
//! The code keeps a `Sqe` as sixteen dwords, which its contracts don't show. It is a crate of its own because all that reads a command or posts a
//! completion uses it, and it needs no other crate of the project.
#![tactic(auto)]

mod cqe;
mod data_pointer;
mod descriptor;
mod descriptor_type;
mod dwords;
mod opcode;
mod range;
mod sqe;
mod status;
mod status_code;

pub use cqe::Cqe;
pub use data_pointer::DataPointer;
pub use descriptor::Descriptor;
pub use descriptor_type::DescriptorType;
pub use opcode::{AdminOpcode, IoOpcode};
pub use range::Range;
pub use sqe::Sqe;
pub use status::Status;
pub use status_code::StatusCode;
