//! Whether an admin queue has something to do.

ghost use Rattle.std.specs.Prelude.{◌≡◌, ℕ, Bool};
ghost use Rattle.nv_model.specs.Admin.{admin};
ghost use Rattle.nv_admin.specs.Event.{is_stepped};

use nv_vctl::Vctl;

/// The number of the admin queue.
const ADMIN_QUEUE: u16 = 0;

/// Whether the event of a guest's admin queue would do something now: the admin completion queue has room, and a deletion that waits can
/// be finished, or, where none waits, a command can be taken. The reply of [`crate::admin`] is [`crate::Admin::Done`] exactly then,
/// whatever the namespace, the map and the host are.
pub fn is_due(vctl: &Vctl) -> bool
    ensures { (test : ℕ → Bool) (blocks : ℕ) (memory : ℕ → ℕ) → result ≡ is_stepped (admin test blocks vctl.now memory) }
{
    if !vctl.is_ready() {
        return false;
    }
    if vctl.is_admin_full() {
        return false;
    }
    match vctl.deletion() {
        Some(deletion) => vctl.taken(deletion.queue()) == 0,
        None => vctl.waits(ADMIN_QUEUE),
    }
}
