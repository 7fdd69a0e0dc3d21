//! What the log has of a guest, compared with what its port got.

ghost use Rattle.std.specs.Prelude.{◌≡◌, ℕ, ◌≤◌, ◌↔◌, ◌==◌, [], false, IsTrue, MatchOption, slice_get, Some};
ghost use Rattle.nv_threads.specs.Finished.{DifferAt, DiffersAt, IsTold, acts_of, is_act_of, ports_of, told_to};

use crate::alike::{same_act, same_reply};
use crate::port::Port;
use nv_model::Act;
use nv_world_model::{Event, Logged};

/// How many numbers guests have.
pub(crate) const GUEST_NUMBERS: usize = 256;

/// Which guests have acts in the log.
pub(crate) fn acting(log: &[Logged]) -> [bool; GUEST_NUMBERS]
    ensures { (guest : ℕ) → slice_get result guest ≡ Some false → acts_of guest log.now ≡ [] }
{
    let mut acting = [false; GUEST_NUMBERS];
    for logged in log {
        if let Some(guest) = actor(&logged.event) {
            acting[usize::from(guest)] = true;
        }
    }
    acting
}

// The guest whose act an event is; `None` where it is none's.
fn actor(event: &Event) -> Option<u8>
    ensures { MatchOption result ((guest : ℕ) → is_act_of guest event.now ≡ false) (λ by. (guest : ℕ) → is_act_of guest event.now ≡ (by == guest)) }
{
    match event {
        Event::Guest(by, _) => Some(*by),
        Event::Admin(_) => None,
        Event::Take(_, _, _) => None,
        Event::List(_, _, _, _) => None,
        Event::Submit(_, _) => None,
        Event::GiveUp(_, _) => None,
        Event::DevTake(_) => None,
        Event::DevMove(_, _, _) => None,
        Event::DevPost(_, _) => None,
        Event::DevFail(_, _, _) => None,
        Event::Keep(_) => None,
        Event::Reap(_) => None,
        Event::Post(_, _) => None,
    }
}

/// Where the log's acts of a guest differ from what its port got; `None` where they don't. The log is gone through only where one of the two has
/// some.
pub(crate) fn difference(log: &[Logged], ports: &[Port], guest: u8, acts: bool) -> Option<u64>
    requires { acts ≡ false → acts_of guest log.now ≡ [] }
    ensures { MatchOption result (IsTold log.now ports.now guest) (λ place. DiffersAt log.now ports.now guest place) }
{
    if !is_single(ports, guest) {
        return Some(0);
    }
    let told = told_to(ports, guest);
    if !acts && told.is_empty() {
        return None;
    }
    first_difference(log, guest, told)
}

// Whether a guest has no two ports.
fn is_single(ports: &[Port], guest: u8) -> bool
    ensures { IsTrue result ↔ (ports_of guest ports.now ≤ 1) }
{
    ports.iter().filter(|port| port.guest() == guest).count() <= 1
}

/// What a guest's port got; nothing where it has none. Of several ports of a guest it is the first.
pub fn told_to(ports: &[Port], guest: u8) -> &[Logged]
    ensures { result.now ≡ told_to guest ports.now }
{
    for port in ports {
        if port.guest() == guest {
            return port.calls();
        }
    }
    &[]
}

// The first place at which the log's acts of a guest differ from these; `None` where they don't.
fn first_difference(log: &[Logged], guest: u8, told: &[Logged]) -> Option<u64>
    ensures { MatchOption result (acts_of guest log.now ≡ told.now) (λ place. DifferAt place (acts_of guest log.now) told.now) }
{
    let mut met = 0;
    for logged in log {
        let Some(act) = act_of(&logged.event, guest) else {
            continue;
        };
        if met >= told.len() || !is_told(&told[met], guest, act, logged) {
            return Some(met as u64 + 1);
        }
        met += 1;
    }
    if met < told.len() {
        Some(met as u64 + 1)
    } else {
        None
    }
}

// The act of a guest that an event is; `None` where it is none of that guest.
fn act_of(event: &Event, guest: u8) -> Option<&Act>
    ensures { MatchOption result (is_act_of guest event.now ≡ false) (λ act. event.now ≡ Event.Guest guest act.now) }
{
    match event {
        Event::Guest(by, act) if *by == guest => Some(act),
        Event::Guest(_, _) => None,
        Event::Admin(_) => None,
        Event::Take(_, _, _) => None,
        Event::List(_, _, _, _) => None,
        Event::Submit(_, _) => None,
        Event::GiveUp(_, _) => None,
        Event::DevTake(_) => None,
        Event::DevMove(_, _, _) => None,
        Event::DevPost(_, _) => None,
        Event::DevFail(_, _, _) => None,
        Event::Keep(_) => None,
        Event::Reap(_) => None,
        Event::Post(_, _) => None,
    }
}

// Whether a port got what is logged, which is that act of its guest.
fn is_told(told: &Logged, guest: u8, act: &Act, logged: &Logged) -> bool
    requires { logged.now.event ≡ Event.Guest guest act.now }
    ensures { IsTrue result ↔ (told.now ≡ logged.now) }
{
    let Some(other) = act_of(&told.event, guest) else {
        return false;
    };
    same_act(other, act) && same_reply(&told.reply, &logged.reply)
}
