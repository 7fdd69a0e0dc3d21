//! Plans, and a lane's tags.
mod answers;
mod aside;
mod chain;
mod fed;
mod guest;
mod parts;
mod plans;
mod ranges;
mod reads;
mod refused;
mod tags;
