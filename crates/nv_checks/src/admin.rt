//! A guest's admin queue.
mod bench;
mod bring_up;
mod command;
mod deletions;
mod identify;
mod interrupts;
mod refusals;
