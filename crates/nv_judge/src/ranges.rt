//! The check of the ranges that a Dataset Management names.

ghost use Rattle.std.specs.Prelude.{◌≡◌, ◌%◌, length};
ghost use Rattle.nv_judge.specs.Ranges.{ranges_verdict};
ghost use Rattle.nv_model.specs.Limits.{range_size};
ghost use Rattle.nv_ns.specs.Extents.{blocks_in};

use nv_entry::{Range, Status, StatusCode};
use nv_model::limits::RANGE_SIZE;
use nv_ns::VirtualNs;

/// The check of the ranges of Dataset Management, 16 bytes each, in their order: each must lie in the namespace.
///
/// # Errors
///
/// [`StatusCode::LbaOutOfRange`], with DNR set, where a range is not in the namespace.
pub fn judge_ranges(ranges: &[u8], ns: &VirtualNs) -> Result<(), Status>
    requires { length ranges.now % range_size ≡ 0 }
    ensures { result ≡ ranges_verdict (blocks_in ns.now) ranges.now }
{
    let mut rest = ranges;
    while let Some((range, more)) = rest.split_first_chunk::<RANGE_SIZE>() {
        let range = Range::of(range);
        if !ns.holds(range.start(), u64::from(range.blocks())) {
            return Err(StatusCode::LbaOutOfRange.refused());
        }
        rest = more;
    }
    Ok(())
}
