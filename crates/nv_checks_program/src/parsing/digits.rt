//! Words that spell no bytes, as lines `store` of `once` write them: what is no digit, at each place of many digits. A script ends by its first fault, so
//! the program would run once for each. The words that spell bytes are cases of `tests/generated.py`.

use nv_once_script::{FaultKind, Script, ScriptFault, parse};
use std::alloc::{AllocError, Global};
use std::process::Abort;
use std::test::Fail;

/// The beginning of a script whose last line stores what is written after it.
const FRONT: &[u8] = b"memory 4096\nblocks 1\nstore 0 ";

/// More digits than three blocks of those that are read at once, and no whole number of these.
const LONG: usize = 58;

// A script that stores what these digits spell.
fn script_of(alloc: Global, digits: &[u8]) -> Result<Vec<u8>, AllocError> {
    let mut text = Vec::from_slice(alloc, FRONT)?;
    text.extend_from_slice(digits)?;
    Ok(text)
}

// Whether its last line was refused for its digits.
fn is_refused(read: &Result<Script, ScriptFault>) -> bool {
    matches!(
        read,
        Err(ScriptFault::Line {
            line: 3,
            kind: FaultKind::BadBytes
        })
    )
}

// Ends the test where a byte that is no digit is taken for one at a place of many digits.
fn expect_at(rt: &(impl Abort + AllocGlobal), place: usize, byte: u8) -> Result<(), Fail> {
    let mut digits = [b'7'; LONG];
    if let Some(digit) = digits.get_mut(place) {
        *digit = byte;
    }
    let read = parse(rt.alloc(), &script_of(rt.alloc(), &digits)?);
    assert!(rt; is_refused(&read), "{digits:?} give {read:?}");
    Ok(())
}

// Whether a byte ends a line or a word, or is a digit.
fn is_left_out(byte: u8) -> bool {
    matches!(byte, b'\n' | b' ' | b'#') || char::from(byte).to_digit(16).is_some()
}

#[test]
fn refuses_what_is_no_digit_at_each_place(rt: HostRuntime) -> Result<(), Fail> {
    for place in 0..LONG {
        for byte in 0..=255 {
            if !is_left_out(byte) {
                expect_at(&rt, place, byte)?;
            }
        }
    }
    Ok(())
}
