//! The events after the set-up.
ghost use Rattle.std.specs.Prelude.{◌≡◌, ◌++◌, ◌∷◌, [], Ok, MatchResult};
ghost use Rattle.nv_once_script.specs.OnceFault.{Refuses};
ghost use Rattle.nv_once_script.specs.declared.once.fault.LineFault.TheVariants.{NoMemory};
ghost use Rattle.nv_replay_script.specs.ReplayEvents.{counted_event, event_added};
ghost use Rattle.nv_replay_script.specs.declared.vocabulary.ActKind.TheVariants as act_kind;
ghost use Rattle.nv_replay_script.specs.declared.vocabulary.EventKind.TheVariants as kind;

use crate::act;
use crate::numbers::{status, word};
use crate::vocabulary::{ActKind, EventKind};
use nv_once_script::once::fault::LineFault;
use nv_once_script::once::number::{byte, number};
use nv_once_script::once::words::Words;
use nv_world_model::Event;
use std::alloc::Global;

/// Appends the event of this kind and the words after it to the others, where the words are as many as the kind needs. Each kind pushes its own
/// event, so that an event is written once, where it stays.
///
/// # Errors
///
/// What is wrong with the words; or that memory was refused.
pub fn push_event(
    alloc: Global,
    kind: EventKind,
    words: Words<'_>,
    events: &mut Vec<Event>,
) -> Result<(), LineFault>
    ensures { let after = event_added (counted_event kind words.entry) events.old.items
        in MatchResult result (λ _. after ≡ Ok events.new.items) (Refuses after) }
{
    match kind {
        EventKind::Act(act) => add_act(alloc, act, words, events),
        EventKind::Admin => push(events, admin(words)?),
        EventKind::Take => push(events, take(words)?),
        EventKind::List => push(events, list(words)?),
        EventKind::Submit => push(events, submit(words)?),
        EventKind::GiveUp => push(events, give_up(words)?),
        EventKind::DevTake => push(events, dev_take(words)?),
        EventKind::DevMove => push(events, dev_move(words)?),
        EventKind::DevPost => push(events, dev_post(words)?),
        EventKind::DevFail => push(events, dev_fail(words)?),
        EventKind::Keep => push(events, keep(words)?),
        EventKind::Reap => push(events, reap(words)?),
        EventKind::Post => push(events, post(words)?),
    }
}

// The same of a line of a guest's act.
#[inline(always)]
fn add_act(
    alloc: Global,
    act: ActKind,
    words: Words<'_>,
    events: &mut Vec<Event>,
) -> Result<(), LineFault>
    ensures { let after = event_added (counted_event (kind.Act act) words.entry) events.old.items
        in MatchResult result (λ _. after ≡ Ok events.new.items) (Refuses after) }
{
    match act {
        ActKind::Store => push(events, store(alloc, words)?),
        ActKind::Fill => push(events, fill(alloc, words)?),
        ActKind::Load => push(events, load(words)?),
        ActKind::RegRead => push(events, reg_read(words)?),
        ActKind::RegWrite => push(events, reg_write(words)?),
        ActKind::Bell => push(events, bell(words)?),
    }
}

// Appends an event to the others.
#[inline(always)]
fn push(events: &mut Vec<Event>, event: Event) -> Result<(), LineFault>
    ensures { MatchResult result (λ _. events.new.items ≡ events.old.items ++ event ∷ []) (λ fault. fault ≡ NoMemory) }
{
    events.push(event)?;
    Ok(())
}

// The line `store`, made of its words.
fn store(alloc: Global, words: Words<'_>) -> Result<Event, LineFault>
    ensures { let event = counted_event (kind.Act act_kind.Store) words.entry
        in MatchResult result (λ made. event ≡ Ok made) (Refuses event) }
{
    let (guest, addr, digits) = words.three()?;
    let guest = byte(guest)?;
    let act = act::store(alloc, addr, digits)?;
    Ok(Event::Guest(guest, act))
}

// The line `fill`, made of its words.
fn fill(alloc: Global, words: Words<'_>) -> Result<Event, LineFault>
    ensures { let event = counted_event (kind.Act act_kind.Fill) words.entry
        in MatchResult result (λ made. event ≡ Ok made) (Refuses event) }
{
    let (guest, addr, len, value) = words.four()?;
    let guest = byte(guest)?;
    let act = act::fill(alloc, addr, len, value)?;
    Ok(Event::Guest(guest, act))
}

// The line `load`, made of its words.
#[inline(always)]
fn load(words: Words<'_>) -> Result<Event, LineFault>
    ensures { let event = counted_event (kind.Act act_kind.Load) words.entry
        in MatchResult result (λ made. event ≡ Ok made) (Refuses event) }
{
    let (guest, addr, len) = words.three()?;
    let guest = byte(guest)?;
    let act = act::load(addr, len)?;
    Ok(Event::Guest(guest, act))
}

// The line `regread`, made of its words.
#[inline(always)]
fn reg_read(words: Words<'_>) -> Result<Event, LineFault>
    ensures { let event = counted_event (kind.Act act_kind.RegRead) words.entry
        in MatchResult result (λ made. event ≡ Ok made) (Refuses event) }
{
    let (guest, offset) = words.two()?;
    let guest = byte(guest)?;
    let act = act::reg_read(offset)?;
    Ok(Event::Guest(guest, act))
}

// The line `regwrite`, made of its words.
#[inline(always)]
fn reg_write(words: Words<'_>) -> Result<Event, LineFault>
    ensures { let event = counted_event (kind.Act act_kind.RegWrite) words.entry
        in MatchResult result (λ made. event ≡ Ok made) (Refuses event) }
{
    let (guest, offset, value) = words.three()?;
    let guest = byte(guest)?;
    let act = act::reg_write(offset, value)?;
    Ok(Event::Guest(guest, act))
}

// The line `bell`, made of its words.
#[inline(always)]
fn bell(words: Words<'_>) -> Result<Event, LineFault>
    ensures { let event = counted_event (kind.Act act_kind.Bell) words.entry
        in MatchResult result (λ made. event ≡ Ok made) (Refuses event) }
{
    let (guest, offset, value) = words.three()?;
    let guest = byte(guest)?;
    let act = act::bell(offset, value)?;
    Ok(Event::Guest(guest, act))
}

// The line `admin`, made of its words.
#[inline(always)]
fn admin(words: Words<'_>) -> Result<Event, LineFault>
    ensures { let event = counted_event kind.Admin words.entry
        in MatchResult result (λ made. event ≡ Ok made) (Refuses event) }
{
    let guest = words.one()?;
    let guest = byte(guest)?;
    Ok(Event::Admin(guest))
}

// The line `take`, made of its words.
#[inline(always)]
fn take(words: Words<'_>) -> Result<Event, LineFault>
    ensures { let event = counted_event kind.Take words.entry
        in MatchResult result (λ made. event ≡ Ok made) (Refuses event) }
{
    let (guest, queue, lane) = words.three()?;
    let guest = byte(guest)?;
    let queue = word(queue)?;
    let lane = byte(lane)?;
    Ok(Event::Take(guest, queue, lane))
}

// The line `list`, made of its words.
#[inline(always)]
fn list(words: Words<'_>) -> Result<Event, LineFault>
    ensures { let event = counted_event kind.List words.entry
        in MatchResult result (λ made. event ≡ Ok made) (Refuses event) }
{
    let (lane, tag, addr, len) = words.four()?;
    let lane = byte(lane)?;
    let tag = byte(tag)?;
    let addr = number(addr)?;
    let len = number(len)?;
    Ok(Event::List(lane, tag, addr, len))
}

// The line `submit`, made of its words.
#[inline(always)]
fn submit(words: Words<'_>) -> Result<Event, LineFault>
    ensures { let event = counted_event kind.Submit words.entry
        in MatchResult result (λ made. event ≡ Ok made) (Refuses event) }
{
    let (lane, tag) = words.two()?;
    let lane = byte(lane)?;
    let tag = byte(tag)?;
    Ok(Event::Submit(lane, tag))
}

// The line `giveup`, made of its words.
#[inline(always)]
fn give_up(words: Words<'_>) -> Result<Event, LineFault>
    ensures { let event = counted_event kind.GiveUp words.entry
        in MatchResult result (λ made. event ≡ Ok made) (Refuses event) }
{
    let (lane, tag) = words.two()?;
    let lane = byte(lane)?;
    let tag = byte(tag)?;
    Ok(Event::GiveUp(lane, tag))
}

// The line `devtake`, made of its words.
#[inline(always)]
fn dev_take(words: Words<'_>) -> Result<Event, LineFault>
    ensures { let event = counted_event kind.DevTake words.entry
        in MatchResult result (λ made. event ≡ Ok made) (Refuses event) }
{
    let lane = words.one()?;
    let lane = byte(lane)?;
    Ok(Event::DevTake(lane))
}

// The line `devmove`, made of its words.
#[inline(always)]
fn dev_move(words: Words<'_>) -> Result<Event, LineFault>
    ensures { let event = counted_event kind.DevMove words.entry
        in MatchResult result (λ made. event ≡ Ok made) (Refuses event) }
{
    let (lane, slot, unit) = words.three()?;
    let lane = byte(lane)?;
    let slot = byte(slot)?;
    let unit = number(unit)?;
    Ok(Event::DevMove(lane, slot, unit))
}

// The line `devpost`, made of its words.
#[inline(always)]
fn dev_post(words: Words<'_>) -> Result<Event, LineFault>
    ensures { let event = counted_event kind.DevPost words.entry
        in MatchResult result (λ made. event ≡ Ok made) (Refuses event) }
{
    let (lane, slot) = words.two()?;
    let lane = byte(lane)?;
    let slot = byte(slot)?;
    Ok(Event::DevPost(lane, slot))
}

// The line `devfail`, made of its words.
fn dev_fail(words: Words<'_>) -> Result<Event, LineFault>
    ensures { let event = counted_event kind.DevFail words.entry
        in MatchResult result (λ made. event ≡ Ok made) (Refuses event) }
{
    let (lane, slot, sct, sc, dnr) = words.five()?;
    let lane = byte(lane)?;
    let slot = byte(slot)?;
    let status = status(sct, sc, dnr)?;
    Ok(Event::DevFail(lane, slot, status))
}

// The line `keep`, made of its words.
#[inline(always)]
fn keep(words: Words<'_>) -> Result<Event, LineFault>
    ensures { let event = counted_event kind.Keep words.entry
        in MatchResult result (λ made. event ≡ Ok made) (Refuses event) }
{
    let block = words.one()?;
    let block = number(block)?;
    Ok(Event::Keep(block))
}

// The line `reap`, made of its words.
#[inline(always)]
fn reap(words: Words<'_>) -> Result<Event, LineFault>
    ensures { let event = counted_event kind.Reap words.entry
        in MatchResult result (λ made. event ≡ Ok made) (Refuses event) }
{
    let lane = words.one()?;
    let lane = byte(lane)?;
    Ok(Event::Reap(lane))
}

// The line `post`, made of its words.
#[inline(always)]
fn post(words: Words<'_>) -> Result<Event, LineFault>
    ensures { let event = counted_event kind.Post words.entry
        in MatchResult result (λ made. event ≡ Ok made) (Refuses event) }
{
    let (lane, tag) = words.two()?;
    let lane = byte(lane)?;
    let tag = byte(tag)?;
    Ok(Event::Post(lane, tag))
}
