//! What a program prints of bytes: hexadecimal digits in lower case, two a byte, in lines.
//!
//! Each call says by what the output has grown, where it is known what it holds. None takes memory.
//!
//! A [`Numeral`] that is counted up by [`Numeral::increase`] is the next number, and its digits are that number's, over every carry.
//!
//! A [`Numeral`] keeps its decimal digits, so they are there when it is printed. If digits were written just before they are copied, each copy
//! would have to wait for them. This is a crate of its own because `nv_commands`, `nv_replay` and `nv_run` all print by it.
#![tactic(auto)]

mod bytes;
mod cannot_write;
mod digits;
mod numeral;

pub use bytes::{end_line, print_bytes, print_dump, print_line, print_text};
pub use cannot_write::CannotWrite;
pub use numeral::{Numeral, print_numbered};
