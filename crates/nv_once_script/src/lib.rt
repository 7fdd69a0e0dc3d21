//! The `once` script: its parse, apart from what runs it; and the lines, words, numbers and faults of every script.
//!
//! [`parse`] gives exactly the script that a text is (`specs/OnceScript`), or its first fault ([`ScriptFault`]), or that memory was refused.
//! Of a script that it gives the sizes are such as a set-up may name, and all bytes and blocks that its lines name are there.
//!
//! The end of a word is searched byte by byte in a line of at most 32 bytes, and many bytes at a time in a longer one. A line's end is searched in
//! its first 32 bytes by one comparison of vectors. A word of one digit after one space is recognised by three bytes. Sixteen hexadecimal digits
//! become eight bytes at once. The number of a word of decimal digits alone is read during the search for its end. The word keeps it, and its type
//! keeps that it is the number that the word writes. Another spelling is read when its number is asked for.
//!
//! It is a crate of its own because all scripts are made of its words, and reading one needs no controller.
#![tactic(auto)]

pub mod once;

pub use once::{FaultKind, Line, Script, ScriptFault, parse};
