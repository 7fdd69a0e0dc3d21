//! A mediator that is put through events.
ghost use Rattle.std.specs.Prelude.{◌≡◌, OnOk};
ghost use Rattle.nv_mediator.specs.Hosted.{IsAtStart, setup_of};
ghost use Rattle.nv_replay.specs.Shown.{PrintsReplay, PrintsStep};

use crate::reply_line::{print_count, print_reply};
use nv_mediator::Mediator;
use nv_mem::NoMemory;
use nv_model::Reply;
use nv_print::{CannotWrite, Numeral};
use nv_world_model::Event;
use std::alloc::Global;
use std::io::Write;
use std::marker::Model;
use std::mem;

/// A mediator at the start of its set-up, and the events that it is to be put through, in order.
///
/// A contract sees it as that set-up beside the events.
#[derive(Drop)]
pub struct Replay {
    mediator: Mediator,
    events: Vec<Event>,
}

impl Model for Replay {
    ghost use Rattle.nv_replay.specs.Opening.{ReplayValue};
    ghost use Rattle.nv_mediator.specs.Hosted.{IsAtStart, setup_of};

    ghost Value = { ReplayValue };

    ghost view = { λ r. record { set_up = setup_of r.mediator; events = r.events.items } };

    ghost invariant = { λ r. IsAtStart (setup_of r.mediator) r.mediator };
}

impl Replay {
    /// A mediator at the start of its set-up, for these events.
    pub(crate) fn new(mediator: Mediator, events: Vec<Event>) -> Self
        requires { IsAtStart (setup_of mediator) mediator }
        ensures { result ≡ record { set_up = setup_of mediator; events = events.items } }
    {
        Replay { mediator, events }
    }
}

/// Takes the mediator through its events. Prints the line of each reply at once, and the number of events at the end.
///
/// No log is kept, so an event takes no memory but its own. The memory of mediator and events is not freed where all went well: the program ends
/// after this call, and the system takes all of the memory at once.
///
/// # Errors
///
/// The output failed; what it holds is then a prefix of what was to be printed.
pub fn run<W: Write>(alloc: Global, replay: Replay, output: &mut W) -> Result<(), CannotWrite>
    ensures { OnOk result (PrintsReplay replay (W.contents output.old) (W.contents output.new)) }
{
    let Replay {
        mut mediator,
        events,
    } = replay;
    let mut count = Numeral::of(0);
    let all = events.as_slice();
    for event in all {
        count.increase();
        step(alloc, &mut mediator, &count, event, output)?;
    }
    print_count(&count, output)?;
    mem::forget(events);
    mem::forget(mediator);
    Ok(())
}

// Carries out an event, and prints the line of its reply.
fn step<W: Write>(
    alloc: Global,
    mediator: &mut Mediator,
    number: &Numeral,
    event: &Event,
    output: &mut W,
) -> Result<(), CannotWrite>
    ensures { OnOk result (PrintsStep number.now event.now mediator.old mediator.new (W.contents output.old) (W.contents output.new)) }
{
    match mediator.step(alloc, event) {
        Ok(reply) => print_reply(number, &reply, output),
        Err(NoMemory) => print_reply(number, &Reply::NoMemory, output),
    }
}
