//! The scripts of `replay` and `run`, and a parse for which there was no memory.

mod digits;
mod refusals;
mod replay;
mod run;
