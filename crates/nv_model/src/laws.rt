//! Laws about the definitions, as functions that do nothing: each contract is a law.
pub mod addresses;
pub mod agreeing;
pub mod carrying;
pub mod endings;
pub mod feeding;
pub mod images;
pub mod lists;
pub mod parts;
pub mod queues;
pub mod readers;
pub mod running;
pub mod sequences;
pub mod transcripts;
pub mod unseen;
pub mod verdicts;
