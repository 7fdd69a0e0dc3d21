//! A guest's namespace of one to eight extents, and where on the disk its blocks are.
//!
//! A guest names blocks of its namespace from 0. The disk holds them in ranges of its own blocks, the extents, which are joined in their order. An
//! [`Extent`] is one of them, and a [`VirtualNs`] is one to eight. [`VirtualNs::translate`] gives the [`Parts`] of a run of blocks, one [`Part`]
//! for each extent that it meets. It answers `None` exactly where the run leaves the namespace, which [`VirtualNs::holds`] reports by itself. All
//! sums are taken in whole numbers: none wraps, whatever the guest names. Nothing here takes memory.
//!
//! The type keeps that there are one to eight extents, and that no sum of a base and of all blocks reaches 2 to the 64. A run of blocks in the
//! first extent is answered by comparisons; only another run walks over the extents. It is a crate of its own because the definitions use its
//! types, and it needs nothing of commands or memory.
#![tactic(auto)]

pub use extent::Extent;
pub use part::Part;
pub use parts::Parts;
pub use virtual_ns::{MOST_EXTENTS, VirtualNs};

pub mod extent;
pub mod laws;
pub mod part;
pub mod parts;
mod several;
pub mod virtual_ns;
mod walk;
