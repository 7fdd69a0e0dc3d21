//! The workloads.

use crate::digest::Digest;
use crate::guests;
use crate::hosted::{Counted, Hosted};
use crate::lists::Lists;
use crate::shape::Shape;
use crate::sink::{Mediated, Script};
use crate::text::Text;
use crate::traffic::Traffic;
use crate::traffic::extents::{give_extents, lines_of};
use nv_commands::{Command, Request, serve};
use nv_flat::FlatController;
use nv_mem::NoMemory;
use nv_world::{Setup, World};
use std::alloc::Global;
use std::sync::Wait;
use std::thread::Threads;
use std::time::Clock;

/// A workload.
#[derive(Clone, Copy, Debug, PartialEq, Eq)]
pub enum Workload {
    /// a script of `nvmed replay`
    Replay,
    /// a host that steps a world
    Host,
    /// the same host, of a mediator without a log
    HostWithoutLog,
    /// a script of `nvmed once`
    Lists,
    /// a script of `nvmed run`
    Guests,
    /// a script of `nvmed run` whose guests have lists that name themselves
    Loops,
    /// a host that steps a world which is as awkward as may be
    Awkward,
    /// a host that steps a world whose guests have several extents
    Extents,
}

/// It ended with a fault, or there was no memory.
#[derive(Clone, Copy, Debug)]
pub struct Failed;

impl From<NoMemory> for Failed {
    fn from(_error: NoMemory) -> Self {
        Failed
    }
}

/// 8 guests on 4 lanes, queues filled up to 32 deep, each guest's memory in 4 regions.
const REPLAYED: Shape = Shape {
    guests: 8,
    lanes: 4,
    regions: 4,
    host: 0x1000_0000,
    disk: 0x2_0000,
    depth: 32,
    flushes: 32,
    odd: 8,
    large: 16,
    is_awkward: false,
};

/// 16 guests on 8 lanes, each guest's memory in 16 regions.
const HOSTED: Shape = Shape {
    guests: 16,
    lanes: 8,
    regions: 16,
    host: 0x2000_0000,
    disk: 0x4_0000,
    depth: 32,
    flushes: 64,
    odd: 10,
    large: 16,
    is_awkward: false,
};

/// 16 guests on 8 lanes, each guest's memory in 64 regions, the largest host and disk, and one command in 8 a Flush.
const AWKWARD: Shape = Shape {
    guests: 16,
    lanes: 8,
    regions: 64,
    host: 0x4000_0000,
    disk: 0x20_0000,
    depth: 32,
    flushes: 8,
    odd: 4,
    large: 16,
    is_awkward: true,
};

/// 16 guests on 8 lanes, each guest's memory in 16 regions and its blocks in eight extents.
const EXTENDED: Shape = Shape {
    guests: 16,
    lanes: 8,
    regions: 16,
    host: 0x2000_0000,
    disk: 0x4_0000,
    depth: 16,
    flushes: 64,
    odd: 8,
    large: 16,
    is_awkward: false,
};

impl Workload {
    /// The workload of that name.
    pub fn of(word: &str) -> Option<Self> {
        match word {
            "replay" => Some(Workload::Replay),
            "host" => Some(Workload::Host),
            "host-without-log" => Some(Workload::HostWithoutLog),
            "lists" => Some(Workload::Lists),
            "guests" => Some(Workload::Guests),
            "loops" => Some(Workload::Loops),
            "awkward" => Some(Workload::Awkward),
            "extents" => Some(Workload::Extents),
            _ => None,
        }
    }

    /// Its script, of so many commands.
    pub fn script(self, alloc: Global, seed: u64, count: u64) -> Result<Text, NoMemory> {
        match self {
            Workload::Replay => replay_script(alloc, REPLAYED, seed, count),
            Workload::Host | Workload::HostWithoutLog => {
                replay_script(alloc, HOSTED, seed, count)
            }
            Workload::Awkward => replay_script(alloc, AWKWARD, seed, count),
            Workload::Lists => Lists::script(alloc, seed, count),
            Workload::Guests => guests::script(alloc, seed, count),
            Workload::Loops => guests::looped_script(alloc, count),
            Workload::Extents => extents_script(alloc, seed, count),
        }
    }

    /// Does it with so many commands, and gives the digest of its results.
    pub fn run<R: Threads + Wait + Clock + Sync>(
        self,
        rt: &R,
        alloc: Global,
        seed: u64,
        count: u64,
    ) -> Result<Digest, Failed> {
        let request = match self {
            Workload::Host => return hosted::<World>(alloc, HOSTED, seed, count),
            Workload::HostWithoutLog => return hosted::<Counted>(alloc, HOSTED, seed, count),
            Workload::Awkward => return hosted::<World>(alloc, AWKWARD, seed, count),
            Workload::Extents => return extended(alloc, seed, count),
            Workload::Replay => Request::Alone(Command::Replay),
            Workload::Lists => Request::Alone(Command::Once),
            Workload::Guests | Workload::Loops => Request::Run,
        };
        let text = self.script(alloc, seed, count)?;
        let mut input = text.as_slice();
        let mut faults = Digest::new();
        let ended = serve::<FlatController, R, &[u8], Digest, Digest>(
            rt,
            alloc,
            Ok(request),
            &mut input,
            Digest::new(),
            &mut faults,
        );
        ended.map_err(|_| Failed)
    }
}

// The script of `nvmed replay` with the traffic of a shape.
fn replay_script(alloc: Global, shape: Shape, seed: u64, count: u64) -> Result<Text, NoMemory> {
    let mut text = Text::new(alloc);
    shape.script(&mut text)?;
    let mut traffic = Traffic::new(alloc, shape, seed, Script { text })?;
    traffic.run(count)?;
    Ok(traffic.end().text)
}

// A host that steps the world of a shape.
fn hosted<W: Hosted + Drop>(
    alloc: Global,
    shape: Shape,
    seed: u64,
    count: u64,
) -> Result<Digest, Failed> {
    let mut traffic = traffic_of::<W>(alloc, shape, seed)?;
    traffic.run(count)?;
    Ok(digest_of(traffic.end(), shape.disk))
}

/// The traffic of a shape in a world of it, before the first event.
pub fn traffic_of<W: Hosted + Drop>(
    alloc: Global,
    shape: Shape,
    seed: u64,
) -> Result<Traffic<Mediated<W>>, Failed> {
    let Some(setup) = shape.setup(alloc)? else {
        return Err(Failed);
    };
    let Ok(world) = W::new(alloc, setup) else {
        return Err(Failed);
    };
    let traffic = Traffic::new(alloc, shape, seed, Mediated::new(alloc, world))?;
    Ok(traffic)
}

// The set-up of guests with several extents.
fn extended_setup(alloc: Global) -> Result<Option<Setup>, NoMemory> {
    let Some(mut setup) = EXTENDED.setup(alloc)? else {
        return Ok(None);
    };
    give_extents(alloc, &mut setup)?;
    Ok(Some(setup))
}

// The script of `nvmed replay` with the traffic of guests with several extents.
fn extents_script(alloc: Global, seed: u64, count: u64) -> Result<Text, NoMemory> {
    let mut text = Text::new(alloc);
    if let Some(setup) = extended_setup(alloc)? {
        lines_of(&mut text, &setup)?;
    }
    let mut traffic = Traffic::new(alloc, EXTENDED, seed, Script { text })?;
    traffic.run_parted(count)?;
    Ok(traffic.end().text)
}

// A host that steps the world of guests with several extents.
fn extended(alloc: Global, seed: u64, count: u64) -> Result<Digest, Failed> {
    let Some(setup) = extended_setup(alloc)? else {
        return Err(Failed);
    };
    let Ok(world) = World::new(alloc, setup) else {
        return Err(Failed);
    };
    let mut traffic = Traffic::new(alloc, EXTENDED, seed, Mediated::new(alloc, world))?;
    traffic.run_parted(count)?;
    Ok(digest_of(traffic.end(), EXTENDED.disk))
}

// The digest of all that a world answered, of how many events it carried out, and of 2,048 blocks of its disk of so many.
fn digest_of<W: Hosted + Drop>(sink: Mediated<W>, disk: u64) -> Digest {
    let (world, mut digest) = sink.end();
    digest.number(world.events());
    for number in 0..2048u64 {
        let block = number.wrapping_mul(disk / 2048);
        if let Some(bytes) = world.block(block) {
            digest.bytes(bytes);
        }
        if let Some(kept) = world.kept(block) {
            digest.number(u64::from(kept));
        }
    }
    digest
}
