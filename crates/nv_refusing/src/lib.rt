//! An allocator for tests that refuses one allocation.
//!
//! It is proved that [`Refusing`] is an allocator. Which allocation it refuses ([`Refusing::refuse_after`]), and that it reports this
//! ([`Refusing::has_refused`]), is tested by `nv_checks`, and not proved.
#![tactic(auto)]

mod refusing;

pub use refusing::Refusing;
