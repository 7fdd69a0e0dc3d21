//! Whether the log is as long as all that was kept.

ghost use Rattle.std.specs.Prelude.{◌≡◌, ◌+◌, ◌<◌, ◌↔◌, IsTrue, MatchOption, length, sum, sum_by};
ghost use Rattle.nv_threads.specs.Finished.{counted};

use crate::port::Port;
use crate::share::Share;

/// Whether so many events are all that were reported to ports and all that workers put into the log.
pub(crate) fn adds_up(events: usize, ports: &[Port], shares: &[Share]) -> bool
    ensures { IsTrue result ↔ (events ≡ counted ports.now shares.now) }
{
    let Some(left) = without_ports(events as u64, ports) else {
        return false;
    };
    let Some(left) = without_shares(left, shares) else {
        return false;
    };
    left == 0
}

// What is left of so many events without those of the ports; `None` where there are too few.
fn without_ports(events: u64, ports: &[Port]) -> Option<u64>
    ensures { MatchOption result (events < sum_by (λ p. length p.calls) ports.now) (λ left. left + sum_by (λ p. length p.calls) ports.now ≡ events) }
{
    let mut left = events;
    for port in ports {
        left = left.checked_sub(port.calls().len() as u64)?;
    }
    Some(left)
}

// What is left of so many events without those of the workers; `None` where there are too few.
fn without_shares(events: u64, shares: &[Share]) -> Option<u64>
    ensures { MatchOption result (events < sum shares.now) (λ left. left + sum shares.now ≡ events) }
{
    let mut left = events;
    for share in shares {
        left = left.checked_sub(share.events())?;
    }
    Some(left)
}
