//! The script of `nvmed once`: a text is read whole, before anything of it runs.
//!
//! What a text says is `specs/OnceScript`, by `specs/OnceFold`, `specs/OnceWords`, `specs/OnceVocabulary`, `specs/OnceSizes`, `specs/OnceLine`
//! and `specs/OnceNumber`; [`parse`] gives exactly that, or that memory was refused. Only the space separates words, `#` begins a comment wherever it
//! is, and every other byte is part of its word.

pub mod fault;
pub mod hexadecimal;
mod line;
pub mod lines;
pub mod number;
mod reading;
pub mod script;
mod sizes;
pub mod vocabulary;
pub mod word;
pub mod words;

pub use fault::{FaultKind, ScriptFault};
pub use line::{FILL_MAX, Line};
pub use script::{Script, parse};
