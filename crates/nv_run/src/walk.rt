//! A guest's lines compared with what its port got.

ghost use Rattle.std.specs.Prelude.{◌≡◌, ◌↔◌, IfSome, IsTrue, MatchOption, OnOk, ⊤};
ghost use Rattle.nv_run.specs.Driving.{AreGone, AllGone, Follows, IsGone, IsMet, look_of};
ghost use Rattle.nv_run.specs.Parts.{part_of};
ghost use Rattle.nv_run.specs.Shown.{behind, behind_shown};
ghost use Rattle.nv_threads.specs.Finished.{told_to};

use crate::driven::{Probe, shows};
use crate::part::{Part, lines_of};
use nv_model::Act;
use nv_model::limits::MOST_GUESTS;
use nv_run_script::{Line, Task};
use nv_threads::alike::same_act;
use nv_threads::{Mismatch, Port, told_to};
use nv_world_model::{Event, Logged};

/// That each guest's port got exactly what its lines say. This takes no memory and waits for nobody.
///
/// # Errors
///
/// The lowest guest whose port got something else, and the first place in its list, from 1.
pub(crate) fn check_parts(parts: &[Part], ports: &[Port]) -> Result<(), Mismatch>
    ensures { OnOk result (AllGone (λ guest. part_of guest parts.now) (λ guest. told_to guest ports.now)) }
{
    for guest in 0..MOST_GUESTS {
        if let Some(place) = astray(guest, lines_of(parts, guest), told_to(ports, guest)) {
            return Err(Mismatch { guest, place });
        }
    }
    Ok(())
}

// The first place, from 1, at which these calls are not what a guest's lines say; `None` where all are just that.
fn astray(guest: u8, lines: &[Line], calls: &[Logged]) -> Option<u64>
    ensures { MatchOption result (AreGone guest lines.now calls.now) (λ _. ⊤) }
{
    let mut left = calls;
    for line in lines {
        let Some(rest) = gone(guest, &line.task, left) else {
            return Some(place_of(calls, left));
        };
        left = rest;
    }
    if left.is_empty() {
        None
    } else {
        Some(place_of(calls, left))
    }
}

// The place, from 1, of the first call that is left of these.
fn place_of(calls: &[Logged], left: &[Logged]) -> u64 {
    let passed = calls.len().saturating_sub(left.len()) as u64;
    passed.saturating_add(1)
}

// The calls after those of a line that went well; `None` where the first calls are not those of such a line.
fn gone<'a>(guest: u8, task: &Task, calls: &'a [Logged]) -> Option<&'a [Logged]>
    ensures { IfSome result (λ rest. Follows (IsGone guest task.now) calls.now rest.now) }
{
    match task {
        Task::Act(act) => {
            let (call, rest) = calls.split_first()?;
            if is_act(&call.event, guest, act) {
                Some(rest)
            } else {
                None
            }
        }
        Task::Await { addr, value } => met(guest, Probe::Memory { addr: *addr }, *value, calls),
        Task::AwaitReg { offset, value } => {
            met(guest, Probe::Register { offset: *offset }, *value, calls)
        }
    }
}

// The calls after polls of which only the last found the value; `None` where the first calls are no such polls.
fn met<'a>(guest: u8, probe: Probe, value: u32, calls: &'a [Logged]) -> Option<&'a [Logged]>
    ensures { IfSome result (λ rest. Follows (IsMet guest (look_of probe) value) calls.now rest.now) }
{
    let look = probe.act();
    let mut left = calls;
    while let Some((call, rest)) = left.split_first() {
        if !is_act(&call.event, guest, &look) {
            return None;
        }
        if shows(&call.reply, value) {
            return Some(rest);
        }
        left = rest;
    }
    None
}

// Whether an event is that act of a guest.
fn is_act(event: &Event, guest: u8, act: &Act) -> bool
    ensures { IsTrue result ↔ (event.now ≡ Event.Guest guest act.now) }
{
    match event {
        Event::Guest(by, other) => *by == guest && same_act(other, act),
        Event::Admin(_) => false,
        Event::Take(_, _, _) => false,
        Event::List(_, _, _, _) => false,
        Event::Submit(_, _) => false,
        Event::GiveUp(_, _) => false,
        Event::DevTake(_) => false,
        Event::DevMove(_, _, _) => false,
        Event::DevPost(_, _) => false,
        Event::DevFail(_, _, _) => false,
        Event::Keep(_) => false,
        Event::Reap(_) => false,
        Event::Post(_, _) => false,
    }
}

/// The calls after those that a line's answer takes up: of an act one, of a wait all up to the one that found the value.
pub(crate) fn behind<'a>(task: &Task, calls: &'a [Logged]) -> &'a [Logged]
    ensures { result.now ≡ behind task.now calls.now }
{
    match task {
        Task::Act(_) => match calls.split_first() {
            Some((_, rest)) => rest,
            None => &[],
        },
        Task::Await { addr: _, value } => behind_shown(*value, calls),
        Task::AwaitReg { offset: _, value } => behind_shown(*value, calls),
    }
}

// The calls after the first whose reply shows a value; none where there is no such reply.
fn behind_shown(value: u32, calls: &[Logged]) -> &[Logged]
    ensures { result.now ≡ behind_shown value calls.now }
{
    let mut left = calls;
    while let Some((call, rest)) = left.split_first() {
        if shows(&call.reply, value) {
            return rest;
        }
        left = rest;
    }
    &[]
}
