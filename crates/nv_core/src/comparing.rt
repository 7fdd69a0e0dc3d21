//! Whether what a plan was made of is what is there now.

ghost use Rattle.std.specs.Prelude.{◌≡◌, ◌↔◌, IsTrue};

use crate::layout::Grant;
use nv_plan::{Plan, ReadDone, same_extents, same_map};

/// Whether a plan was made with what this guest was given: its map, its namespace and its limit on descriptors.
pub(crate) fn is_given(plan: &Plan, given: &Grant) -> bool
    ensures { IsTrue result ↔ (plan.now.given ≡ given.now) }
{
    same_map(plan.map(), given.map())
        && same_extents(plan.extents(), given.ns().as_slice())
        && plan.limit() == given.limit()
}

/// Whether the same was read of a list, in the same order.
pub(crate) fn same_reads(reads: &[ReadDone], others: &[ReadDone]) -> bool
    ensures { IsTrue result ↔ (reads.now ≡ others.now) }
{
    let mut left = reads;
    let mut right = others;
    while let Some((read, more)) = left.split_first() {
        let Some((other, behind)) = right.split_first() else {
            return false;
        };
        if !same_read(read, other) {
            return false;
        }
        left = more;
        right = behind;
    }
    right.is_empty()
}

// Whether two reads are the same.
fn same_read(read: &ReadDone, other: &ReadDone) -> bool
    ensures { IsTrue result ↔ (read.now ≡ other.now) }
{
    read.addr() == other.addr() && same_bytes(read.bytes(), other.bytes())
}

// Whether two runs of bytes are the same.
fn same_bytes(bytes: &[u8], others: &[u8]) -> bool
    ensures { IsTrue result ↔ (bytes.now ≡ others.now) }
{
    bytes == others
}
