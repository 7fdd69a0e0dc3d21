//! Events, each as the call that carries it out.

ghost use Rattle.std.specs.Prelude.{◌≡◌, ◌<◌, IfOk, IsTrue, OnErr};
ghost use Rattle.nv_core.specs.State.{IsOf, IsStep, world_of};
ghost use Rattle.nv_laws.specs.Alike.{HasFittingStatus};
ghost use Rattle.nv_laws_sound.specs.Counted.{IsCounted};
ghost use Rattle.nv_mediator.specs.Hosted.{CanCount, IsUnchanged, may_want};

use crate::copies;
use nv_core::{Core, Layout};
use nv_entry::Status;
use nv_mem::NoMemory;
use nv_model::Reply;
use nv_world_model::Event;
use std::alloc::Global;

/// Carries out an event. Its reply comes twice. Where no memory is left, nothing has changed.
pub(crate) fn perform_twice(
    alloc: Global,
    layout: &Layout,
    core: &mut Core,
    event: &Event,
) -> Result<(Reply, Reply), NoMemory>
    requires of { IsOf layout.now core.old }
    requires counted { IsCounted layout.now (world_of core.old) }
    requires can_count { CanCount core.old }
    ensures step { IfOk result (λ told. IsStep layout.now event.now core.old told.0 core.new) }
    ensures logged { IfOk result (λ told. told.1 ≡ told.0) }
    ensures err { OnErr result (IsUnchanged core.old core.new) }
{
    if let Event::List(lane, tag, addr, len) = event {
        let (reply, again) = core.list(alloc, layout, *lane, *tag, *addr, *len)?;
        let told = copies::twice(alloc, reply, again)?;
        return Ok(told);
    }
    let reply = perform(alloc, layout, core, event)?;
    let told = copies::twice(alloc, reply, None)?;
    Ok(told)
}

/// What is known of an event by its type: a status with which the physical controller fails a command fits a completion.
pub(crate) fn known(event: &Event)
    ensures { HasFittingStatus event.now }
{
    if let Event::DevFail(_, _, status) = event {
        fits(*status);
    }
}

/// What is known of a status by its type: it fits a completion.
pub(crate) fn fits(status: Status)
    ensures kind { status.sct < 8 }
    ensures code { status.sc < 256 }
{
    let _known = status.sct();
    let _known = status.sc();
}

/// Carries out an event. Where no memory is left, nothing has changed.
///
/// Each arm is a call: were they inlined, each event would prepare what all thirteen may have to drop.
pub(crate) fn perform(
    alloc: Global,
    layout: &Layout,
    core: &mut Core,
    event: &Event,
) -> Result<Reply, NoMemory>
    requires of { IsOf layout.now core.old }
    requires counted { IsCounted layout.now (world_of core.old) }
    requires can_count { CanCount core.old }
    ensures step { IfOk result (λ reply. IsStep layout.now event.now core.old reply core.new) }
    ensures err { OnErr result ((core.new ≡ core.old) × IsTrue (may_want event.now)) }
{
    match event {
        Event::Guest(guest, act) => core.act(alloc, layout, *guest, act),
        Event::Admin(guest) => Ok(core.admin(layout, *guest)),
        Event::Take(guest, queue, lane) => Ok(core.take(alloc, layout, *guest, *queue, *lane)),
        Event::List(lane, tag, addr, len) => {
            let (reply, _again) = core.list(alloc, layout, *lane, *tag, *addr, *len)?;
            Ok(reply)
        }
        Event::Submit(lane, tag) => core.submit(alloc, layout, *lane, *tag),
        Event::GiveUp(lane, tag) => Ok(core.give_up(layout, *lane, *tag)),
        Event::DevTake(lane) => core.dev_take(alloc, layout, *lane),
        Event::DevMove(lane, slot, number) => Ok(core.dev_move(layout, *lane, *slot, *number)),
        Event::DevPost(lane, slot) => Ok(core.dev_post(layout, *lane, *slot)),
        Event::DevFail(lane, slot, status) => Ok(core.dev_fail(layout, *lane, *slot, *status)),
        Event::Keep(block) => Ok(core.keep(layout, *block)),
        Event::Reap(lane) => Ok(core.reap(layout, *lane)),
        Event::Post(lane, tag) => Ok(core.post(layout, *lane, *tag)),
    }
}
