//! Worked examples, computed from the definitions.

pub mod admin_commands;
pub mod answers;
pub mod dataset_management;
pub mod deletions;
pub mod descriptor_limit;
pub mod effects;
pub mod field_checks;
pub mod footprints;
pub mod identify;
pub mod meetings;
pub mod one_command;
pub mod private_runs;
pub mod prp_lists;
pub mod prp_refusals;
pub mod registers;
pub mod sgl_lists;
pub mod sgl_refusals;
pub mod transcripts;
