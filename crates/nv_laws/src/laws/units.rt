//! A unit that moves in the device is a unit of the guest's private controller, and late delivery.
//!
//! A unit that the device moves is the private controller's unit of its number in the whole command, on the same blocks, marks and bytes, and the
//! steps of its event are a run. Another guest's unit raises marks at most. A bounced Read's bytes are in the bounce pages until they are delivered,
//! and what is delivered is what the units moved. A plan is the verdict's in the guest's memory at its submission.
pub mod delivering;
pub mod imaging;
pub mod moving;
pub mod progressing;
pub mod sparing;
pub mod submitting;
