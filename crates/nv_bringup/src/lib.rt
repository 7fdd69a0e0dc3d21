//! What tests of worlds have in common: set-ups, the bring-up of a guest, entries as bytes, pseudorandom numbers, guests that keep to no rule, and
//! what is compared.
//!
//! A guest under test is given 128 KiB of memory, and the [`Span`]s of the disk that it is to have: by [`guest_at`] in one region, by [`guest_of`]
//! in any. [`setup_of`] makes the set-up of guests. [`BRING_UP`] is what a guest does to get queue pair 1, and [`act_of`] makes an act of each such
//! deed. [`Fields`] are what a command's entry says, [`io_entry`] has the dwords of one as a constant, [`bytes_of`] are an entry's bytes. [`Wild`] is
//! what a guest names at random that keeps to no rule. [`is_same_reply`] and [`is_same_page`] compare what two worlds answer and have.
//!
//! It is proved that the bytes of an entry are those of its dwords, the lowest byte first; that an entry has the data pointer and the dwords of its
//! fields, and namespace 1; that an act is its deed's; that extents are the spans', that a guest has the regions and the limit that it is to have,
//! and the set-up the guests; and that a number of [`Random`] is below its bound. It is tested by its use alone, in `nv_checks_program`,
//! `nv_checks_world` and `nv_checks_host`: that the bring-up makes the queues that it names, which numbers come, and that a difference is found.
//!
//! It uses `nv_mediator`, whose set-ups it makes, and no crate of tests.
#![tactic(auto)]

mod bring_up;
mod entry;
mod random;
mod same;
mod set_up;
mod wild;

pub use bring_up::{
    ADMIN_SUBMISSIONS, ADMIN_TAIL, BRING_UP, CC, COMPLETIONS, CREATE_COMPLETION_QUEUE,
    CREATE_SUBMISSION_QUEUE, CSTS, DISABLED, Deed, ENABLED, HEAD, SLOTS, SUBMISSIONS, TAIL, act_of,
};
pub use entry::{Fields, bytes_of};
pub use random::Random;
pub use same::{is_same_page, is_same_reply};
pub use set_up::{
    BLOCKS, DISK, LIMIT, MEDIATOR, MEMORY, Span, extents_of, guest_at, guest_of, region, setup_of,
};
pub use wild::Wild;
