//! Sets of up to 64 numbers, a bit each.

ghost use Rattle.std.specs.Prelude.{◌<◌, IfSome};

/// The set of one number, which counts modulo 64.
pub(crate) fn bit(number: u8) -> u64 {
    1u64.rotate_left(u32::from(number))
}

/// The next member after a number, wrapping around; `None` for the empty set.
pub(crate) fn next_behind(set: u64, number: u8) -> Option<u8>
    ensures { IfSome result (λ next. next < 64) }
{
    let first = number.wrapping_add(1);
    let turned = set.rotate_right(u32::from(first));
    if turned == 0 {
        return None;
    }
    let step = turned.trailing_zeros() as u8;
    Some(first.wrapping_add(step) % 64)
}
