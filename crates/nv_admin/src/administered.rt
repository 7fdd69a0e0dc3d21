//! What an event of an admin queue comes to, before anything of it is stored.

use crate::shown_page::ShownPage;
use nv_vctl::Posting;

/// What an event of an admin queue comes to, before anything of it is stored.
#[derive(Clone, Copy)]
pub enum Administered {
    /// There was nothing to do, and nothing has changed.
    Idle,
    /// The admin completion queue is full, and nothing has changed.
    Held,
    /// A command, or a deletion that waited, was done. This is to be stored, in this order.
    Done {
        /// what the command stores
        page: Option<ShownPage>,
        /// and its completion, where it is completed now
        completion: Option<Posting>,
    },
}
