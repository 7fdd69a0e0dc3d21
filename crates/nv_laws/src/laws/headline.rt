//! The promise as a whole: from a set-up on, what a disciplined guest has seen, its memory and its namespace are those of a run of its own commands
//! on a private controller, and each event is contained. Before it are the laws by which the private controller follows each event on the guest's
//! own commands, each of which is one or several physical ones: of its admin queue, where a command is handed on share by share, in the device,
//! where a unit of a share moves, and where a command is completed.
pub mod admins;
pub mod headline;
pub mod moving;
pub mod posting;
pub mod rings;
pub mod submitting;
