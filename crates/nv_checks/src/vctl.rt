//! A guest's virtual controller.
mod acts;
mod deletions;
mod desk;
mod doorbells;
mod enabling;
mod queues;
mod resets;
