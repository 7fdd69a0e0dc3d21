//! A guest of 20000h bytes of memory, which lie in the host from 100000h on, and of 64 blocks, which lie on the disk from block
//! 1,000 on or in extents of its own; and what comes of its commands.

ghost use Rattle.std.specs.Prelude.{◌≡◌, IfOk};

use crate::hand::changed;
use crate::memory::{descriptor_bytes, map_of, part, store, whole_map};
use nv_entry::{Sqe, StatusCode};
use nv_mem::{Bytes, GuestMap, NoMemory, Piece, Region};
use nv_model::limits::MOST_DESCRIPTORS;
use nv_ns::{Extent, VirtualNs};
use nv_plan::{Job, Plan, PlanKind, Planned, ReadDone, Transcript, make_plan};
use std::alloc::{Allocator, Global};
use std::process::Abort;

/// A descriptor in the guest's memory: where it is, its last byte, its address and its length.
pub type Row = (usize, u8, u64, u32);

/// Dwords of an entry that differ from those of the Read that [`changed`] changes.
pub type Changes = &'static [(usize, u32)];

/// What is to come of a job: more is wanted, so many bytes at that address; or a plan of that kind, in
/// one part with these places.
#[derive(Clone, Copy)]
pub enum Expected {
    Need(u64, u64),
    Direct(&'static [Piece]),
    Bounced(&'static [Piece]),
    NoData,
    Refused(StatusCode),
    TooLong,
}

/// A guest's memory, its map and its namespace.
#[derive(Drop)]
pub struct Guest {
    pub memory: Vec<u8>,
    pub map: GuestMap,
    pub ns: VirtualNs,
}

impl Guest {
    /// A guest whose memory is mapped by these regions and holds zeros.
    pub fn mapped(rt: &impl Abort, alloc: Global, regions: &[Region]) -> Self {
        Guest::with_map(rt, alloc, map_of(rt, alloc, regions))
    }

    // A guest whose memory has that map and holds zeros.
    fn with_map(rt: &impl Abort, alloc: Global, map: GuestMap) -> Self {
        let memory = vec![in alloc; 0u8; 0x20000].expect(rt, "memory");
        Guest {
            memory,
            map,
            ns: range(),
        }
    }

    /// The guest.
    pub fn new(rt: &impl Abort, alloc: Global) -> Self {
        Guest::with_map(rt, alloc, whole_map(rt, alloc, 0x2_0000))
    }

    /// The guest, with these descriptors in its memory.
    pub fn with(rt: &impl Abort, alloc: Global, rows: &[Row]) -> Self {
        let mut guest = Guest::new(rt, alloc);
        for (at, kind, addr, len) in rows {
            guest.put_descriptor(*at, *kind, *addr, *len);
        }
        guest
    }

    /// Stores a descriptor.
    pub fn put_descriptor(&mut self, at: usize, kind: u8, addr: u64, len: u32) {
        store(&mut self.memory, at, &descriptor_bytes(kind, addr, len));
    }

    /// Stores the slots of a list page.
    pub fn put_slots(&mut self, at: usize, slots: &[u64]) {
        let mut to = at;
        for slot in slots {
            store(&mut self.memory, to, &slot.to_le_bytes());
            to = to.wrapping_add(8);
        }
    }

    /// Stores a range of Dataset Management.
    pub fn put_range(&mut self, at: usize, start: u64, blocks: u32) {
        let mut bytes = [0; 16];
        bytes[..4].copy_from_slice(&7u32.to_le_bytes());
        bytes[4..8].copy_from_slice(&blocks.to_le_bytes());
        bytes[8..].copy_from_slice(&start.to_le_bytes());
        store(&mut self.memory, at, &bytes);
    }

    // The bytes at an address, where they are there.
    fn bytes(&self, addr: u64, len: u64) -> &[u8] {
        part(&self.memory, addr, len).unwrap_or(&[])
    }

    /// Reads bytes of the guest's memory into a transcript.
    pub fn read(&self, rt: &impl Abort, alloc: Global, addr: u64, len: u64, to: &mut Transcript) {
        let read = self.done(alloc, addr, len).expect(rt, "memory");
        to.push(read).expect(rt, "memory");
    }

    /// A read of bytes of the guest's memory.
    pub fn done(&self, alloc: Global, addr: u64, len: u64) -> Result<ReadDone, NoMemory>
        ensures { IfOk result (λ read. read.addr ≡ addr) }
    {
        let bytes = Bytes::from_slice(alloc, self.bytes(addr, len))?;
        Ok(ReadDone::new(addr, bytes))
    }

    /// A job of the command with these reads.
    pub fn job(&self, rt: &impl Abort, alloc: Global, sqe: Sqe, reads: &[(u64, u64)]) -> Job {
        let mut transcript = Transcript::new(alloc);
        for (addr, len) in reads {
            self.read(rt, alloc, *addr, *len, &mut transcript);
        }
        Job {
            lane: 1,
            tag: 9,
            guest: 3,
            sqe,
            reads: transcript,
        }
    }

    /// What comes of a command with these dwords changed, after these reads.
    pub fn planned(
        &self,
        rt: &impl Abort,
        alloc: Global,
        changes: &[(usize, u32)],
        reads: &[(u64, u64)],
    ) -> Planned {
        let job = self.job(rt, alloc, changed(rt, changes), reads);
        self.plan(alloc, alloc, job)
    }

    /// What comes of a job, under the usual limit on descriptors.
    pub fn plan<A: Allocator + Clone>(&self, heap: A, alloc: Global, job: Job) -> Planned {
        make_plan(heap, alloc, job, &self.map, &self.ns, MOST_DESCRIPTORS)
    }
}

/// The guest's blocks.
pub fn range() -> VirtualNs {
    VirtualNs::of(Extent::new(1000, 64))
}

// An extent: where it begins on the disk, and how many blocks it has.
fn extent(rt: &impl Abort, at: (u64, u64)) -> Extent {
    let (base, blocks) = at;
    assert!(rt; Extent::fits(base, blocks));
    Extent::new(base, blocks)
}

/// The namespace of these extents: where each begins on the disk, and how many blocks it has.
pub fn joined(rt: &impl Abort, first: (u64, u64), others: &[(u64, u64)]) -> VirtualNs {
    let mut ns = VirtualNs::of(extent(rt, first));
    for other in others {
        let next = extent(rt, *other);
        assert!(rt; ns.fits_behind(next));
        ns.push(next);
    }
    ns
}

impl Expected {
    // What is done, where a plan is expected.
    fn kind(&self) -> Option<PlanKind> {
        match *self {
            Expected::Need(_addr, _len) => None,
            Expected::Direct(_pieces) => Some(PlanKind::Direct),
            Expected::Bounced(_pieces) => Some(PlanKind::Bounced),
            Expected::NoData => Some(PlanKind::NoData),
            Expected::Refused(code) => Some(PlanKind::Answer(code.refused())),
            Expected::TooLong => Some(PlanKind::Answer(StatusCode::InternalError.status())),
        }
    }

    // Where the bytes lie.
    fn places(&self) -> &'static [Piece] {
        match *self {
            Expected::Direct(pieces) | Expected::Bounced(pieces) => pieces,
            _ => &[],
        }
    }
}

// Whether a plan is one physical command with these places, or none where it answers.
fn is_whole(plan: &Plan, places: &[Piece]) -> bool {
    match plan.kind() {
        PlanKind::Answer(_status) => plan.parts() == 0,
        _ => plan.parts() == 1 && plan.part_places(0) == places,
    }
}

/// Whether that came of a job.
pub fn is_expected(planned: &Planned, expected: &Expected) -> bool {
    match planned {
        Planned::Need(_job, addr, len) => match expected {
            Expected::Need(wanted, size) => *addr == *wanted && *len == *size,
            _ => false,
        },
        Planned::Plan(plan) => {
            expected.kind() == Some(plan.kind()) && is_whole(plan, expected.places())
        }
        Planned::NoMemory(_job) => false,
    }
}

/// A command in a guest's memory with what was read, and what comes of it.
pub struct Case {
    pub name: &'static str,
    pub changes: Changes,
    pub rows: &'static [Row],
    pub reads: &'static [(u64, u64)],
    pub expected: Expected,
}

/// Each of these comes to what is expected.
pub fn check_all(rt: &impl Abort, alloc: Global, cases: &[Case]) {
    for case in cases {
        let guest = Guest::with(rt, alloc, case.rows);
        let planned = guest.planned(rt, alloc, case.changes, case.reads);
        assert!(rt; is_expected(&planned, &case.expected), "{}", case.name);
    }
}
