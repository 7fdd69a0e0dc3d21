//! A guest's thread: its port, driven through its lines.

ghost use Rattle.std.specs.Prelude.{◌≡◌, ◌↔◌, IsTrue, IfErr, IfOk, OnOk, []};
ghost use Rattle.nv_run.specs.Driving.{Grows, HasWaited, IsEarly, IsGone, IsMet, IsThrough, look_of, shown};
ghost use Rattle.nv_run.specs.Shown.{shows};

use crate::pace::Pace;
use nv_mem::NoMemory;
use nv_model::{Act, Reply};
use nv_run_script::{Line, Task};
use nv_threads::{Port, Shared};
use std::alloc::Global;
use std::sync::Wait;
use std::time::Clock;

/// How often a line that waits polls.
const POLLS: u32 = 1_000_000;

/// How many bytes a line that waits loads.
const DWORD: u64 = 4;

/// How a guest's thread ended.
#[derive(Clone, Copy, Debug, PartialEq, Eq)]
pub enum End {
    /// it went through all lines
    Through,
    /// what this line waits for was not met
    NoCompletion { line: u64 },
    /// memory was refused
    NoMemory,
}

/// What became of a guest's thread.
#[derive(Drop)]
pub struct Driven {
    /// what the guest acted by
    pub port: Port,
    /// how it ended
    pub end: End,
}

/// Drives a guest's port through its lines, in order, to the first that doesn't end well. This waits for the world's lock.
///
/// A port that got nothing before has, where all lines were gone through, got exactly what they say.
pub fn drive<R: Wait + Clock>(
    rt: &R,
    alloc: Global,
    shared: &Shared,
    mut port: Port,
    lines: &[Line],
) -> Driven
    ensures guest { result.port.guest ≡ port.guest }
    ensures through { port.calls ≡ [] → IsThrough port.guest lines.now result.port.calls result.end }
{
    for line in lines {
        if let Err(end) = go_through(rt, alloc, shared, &mut port, line) {
            return Driven { port, end };
        }
    }
    Driven {
        port,
        end: End::Through,
    }
}

// Goes through a line.
fn go_through<R: Wait + Clock>(
    rt: &R,
    alloc: Global,
    shared: &Shared,
    port: &mut Port,
    line: &Line,
) -> Result<(), End>
    ensures guest { port.new.guest ≡ port.old.guest }
    ensures ok { OnOk result (Grows port.old.calls port.new.calls (IsGone port.old.guest line.now.task)) }
    ensures err { IfErr result IsEarly }
{
    match &line.task {
        Task::Act(act) => go(rt, alloc, shared, port, act),
        Task::Await { addr, value } => {
            let probe = Probe::Memory { addr: *addr };
            meet(rt, alloc, shared, port, probe, *value, line.number)
        }
        Task::AwaitReg { offset, value } => {
            let probe = Probe::Register { offset: *offset };
            meet(rt, alloc, shared, port, probe, *value, line.number)
        }
    }
}

// Acts once.
fn go<R: Wait>(
    rt: &R,
    alloc: Global,
    shared: &Shared,
    port: &mut Port,
    act: &Act,
) -> Result<(), End>
    ensures guest { port.new.guest ≡ port.old.guest }
    ensures ok { OnOk result (Grows port.old.calls port.new.calls (IsGone port.old.guest (Task.Act act.now))) }
    ensures err { IfErr result IsEarly }
{
    let Ok(act) = act.try_clone(alloc) else {
        return Err(End::NoMemory);
    };
    match port.act(rt, alloc, shared, act) {
        Ok(_) => Ok(()),
        Err(NoMemory) => Err(End::NoMemory),
    }
}

// Goes through a line of this number that waits for a value.
fn meet<R: Wait + Clock>(
    rt: &R,
    alloc: Global,
    shared: &Shared,
    port: &mut Port,
    probe: Probe,
    value: u32,
    number: u64,
) -> Result<(), End>
    ensures guest { port.new.guest ≡ port.old.guest }
    ensures ok { OnOk result (Grows port.old.calls port.new.calls (IsMet port.old.guest (look_of probe) value)) }
    ensures err { IfErr result IsEarly }
{
    match wait_for(rt, alloc, shared, port, probe, value) {
        Ok(true) => Ok(()),
        Ok(false) => Err(End::NoCompletion { line: number }),
        Err(NoMemory) => Err(End::NoMemory),
    }
}

/// What a line that waits polls.
#[derive(Clone, Copy, Debug)]
pub(crate) enum Probe {
    /// the four bytes at this address
    Memory { addr: u64 },
    /// the register at this offset
    Register { offset: u32 },
}

impl Probe {
    /// One poll.
    pub(crate) fn act(self) -> Act
        ensures { result ≡ look_of self }
    {
        match self {
            Probe::Memory { addr } => Act::Load { addr, len: DWORD },
            Probe::Register { offset } => Act::RegRead { offset },
        }
    }
}

// Polls until the value is met, and whether it was.
fn wait_for<R: Wait + Clock>(
    rt: &R,
    alloc: Global,
    shared: &Shared,
    port: &mut Port,
    probe: Probe,
    value: u32,
) -> Result<bool, NoMemory>
    ensures guest { port.new.guest ≡ port.old.guest }
    ensures ok { IfOk result (λ met. Grows port.old.calls port.new.calls (HasWaited port.old.guest (look_of probe) value met)) }
{
    let mut pace = Pace::new(rt);
    for _poll in 0..POLLS {
        let seen = shared.news(port.guest());
        let reply = port.act(rt, alloc, shared, probe.act())?;
        if shows(&reply, value) {
            return Ok(true);
        }
        pace.pause(rt, shared, port.guest(), seen);
    }
    Ok(false)
}

/// Whether a reply has the bytes of this value, lowest first.
pub(crate) fn shows(reply: &Reply, value: u32) -> bool
    ensures is { IsTrue result ↔ (reply.now ≡ shown value) }
    ensures value { result ≡ shows value reply.now }
{
    match reply {
        Reply::Bytes(bytes) => bytes.as_slice() == value.to_le_bytes().as_slice(),
        _ => false,
    }
}
