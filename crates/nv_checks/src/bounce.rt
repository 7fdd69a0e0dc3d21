//! The copies between a guest's places and a slot of the host.
mod copies;
mod gathering;
mod guest_bytes;
mod places;
mod scattering;
