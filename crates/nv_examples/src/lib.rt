//! Worked examples of the private-controller theorem: a whole log whose premises hold and whose private run is written out, and worlds that are
//! wrong, computed from the definitions. There is no code here. [`extents`] has the same where namespaces have several extents. They are one crate
//! since one question is asked of all, whether the definitions mean what they should, and each definition that is tried wrong is tried against all.
#![tactic(auto)]

pub mod breaches;
pub mod edges;
pub mod extents;
pub mod no_replays;
pub mod second_story;
pub mod story;
pub mod words;
pub mod words_of_commands;
pub mod words_of_entries;
pub mod words_of_maps;
pub mod words_of_parts;
pub mod words_of_worlds;
pub mod wrong_worlds;
