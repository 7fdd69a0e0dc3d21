//! What names a transfer by region pages.

use nv_model::limits::MOST_ENTRIES;

/// A transfer by PRP: its PRP1 and PRP2, and the entries of the list to which PRP2 points where it has one.
#[derive(Clone, Copy, Debug, PartialEq, Eq)]
pub struct Prps {
    /// PRP1: the address of the first byte.
    pub prp1: u64,
    /// PRP2: 0 for one page, the second page for two, and the list page for more.
    pub prp2: u64,
    /// The entries of the list, and then zeros.
    pub list: [u64; MOST_ENTRIES],
    /// How many entries the list has.
    pub used: usize,
}
