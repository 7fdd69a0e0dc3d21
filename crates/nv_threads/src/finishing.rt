//! What the log, the ports and the workers' counts come to at the end.

ghost use Rattle.std.specs.Prelude.{◌≡◌, ◌≢◌, ℕ, ◌<◌, IfErr, IfSome, IsNone, MatchOption, OnOk};
ghost use Rattle.nv_threads.specs.Finished.{IsFinished, IsFirstMismatch, IsLowest, IsTold, guest_numbers};

use crate::calls::{acting, difference};
use crate::mismatch::Mismatch;
use crate::port::Port;
use crate::share::Share;
use crate::sums::adds_up;
use nv_world::World;
use nv_world_model::Logged;

/// Compares the log with what ports and workers kept: no guest has two ports; the log's acts of each guest with their replies are what its port
/// got, in order (none where it has no port); and the log is as long as all that ports got and workers put into it. This takes no memory and waits
/// for nobody. The log is gone through once, and once more for each guest that has a port.
///
/// # Errors
///
/// The lowest guest that differs, and the first place. A guest with two ports differs at place 0, before any other place of its own. The sum comes
/// last, as guest 255 and place 0.
pub fn finish(world: &World, ports: &[Port], shares: &[Share]) -> Result<(), Mismatch>
    ensures ok { OnOk result (IsFinished world.now.log ports.now shares.now) }
    ensures err { IfErr result (λ m. IsFirstMismatch world.now.log ports.now shares.now m.guest m.place) }
{
    let log = world.log();
    if let Some(mismatch) = lowest(log, ports) {
        return Err(mismatch);
    }
    if !adds_up(log.len(), ports, shares) {
        return Err(Mismatch {
            guest: u8::MAX,
            place: 0,
        });
    }
    Ok(())
}

// The lowest guest that differs, and where.
fn lowest(log: &[Logged], ports: &[Port]) -> Option<Mismatch>
    ensures { MatchOption result ((guest : ℕ) → guest < guest_numbers → IsTold log.now ports.now guest) (λ m. IsLowest log.now ports.now m.guest m.place) }
{
    let acting = acting(log);
    for (number, acts) in acting.iter().enumerate() {
        let guest = number as u8;
        if let Some(place) = difference(log, ports, guest, *acts) {
            return Some(Mismatch { guest, place });
        }
    }
    None
}
