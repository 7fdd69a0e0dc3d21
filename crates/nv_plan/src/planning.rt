//! How a job becomes a plan.

ghost use Rattle.std.specs.Prelude.{◌≡◌, ◌<◌, ◌≤◌, ◌*◌, ◌/◌, ◌%◌, [], ◌∷◌, ◌++◌, ℕ, All, List, true, IfErr, IfOk, IfSome, OnErr, OnOk, length, map};
ghost use Rattle.nv_entry.specs.Submission.{slba_of};
ghost use Rattle.nv_entry.specs.declared.opcode.IoOpcode.TheVariants as opcode;
ghost use Rattle.nv_mem.specs.GuestMap.{mapped};
ghost use Rattle.nv_mem.specs.Places.{total_len};
ghost use Rattle.nv_mem.specs.declared.piece.Piece.{Piece};
ghost use Rattle.nv_model.specs.Judge.{count_of, judge_ranges, ranges_in};
ghost use Rattle.nv_model.specs.Laws.{IsMappedPiece};
ghost use Rattle.nv_model.specs.Limits.{block, part_size, range_size};
ghost use Rattle.nv_model.specs.Transcript.{Wanted};
ghost use Rattle.nv_ns.specs.BlockRange.{in_namespace};
ghost use Rattle.nv_ns.specs.Extents.{blocks_in, cuts};
ghost use Rattle.nv_world_model.specs.Plan.{plan_of};
ghost use Rattle.nv_world_model.specs.SetUp.{most_limit};
ghost use Rattle.nv_plan.specs.Drafted.{IsFed, IsGoingOn, IsSound, IsUnderWay, ahead_of, next_at};
ghost use Rattle.nv_plan.specs.Drawn.{given_of};
ghost use Rattle.nv_plan.specs.Fed.{IsNext, with_read};
ghost use Rattle.nv_plan.specs.Made.{outcome_of};
ghost use Rattle.nv_plan.specs.Outline.{outline_of};
ghost use Rattle.nv_plan.specs.Parts.{HasBytes};
ghost use Rattle.nv_plan.specs.Planned.{IsPlanned};
ghost use Rattle.nv_plan.specs.Told.{portion_cut};

use crate::aside::Aside;
use crate::comparing::{same_extents, same_map};
use crate::cutting::cut_up;
use crate::draft::{Ahead, Draft, Stage};
use crate::given::GrantRef;
use crate::job::Job;
use crate::kept_ns::KeptNs;
use crate::kind::PlanKind;
use crate::next::Next;
use crate::outline::Outline;
use crate::plan::Plan;
use crate::planned::Planned;
use crate::portions::Portions;
use crate::ranges::portions_met;
use crate::tags::parts_of;
use crate::transcript::{ReadDone, Transcript};
use nv_entry::{IoOpcode, Sqe};
use nv_judge::judge_ranges;
use nv_mem::{GuestMap, NoMemory, Places};
use nv_ns::VirtualNs;
use std::alloc::{Allocator, Global};
use std::marker::Model;

/// A plan under way, which is fed: it says which bytes of the guest's memory it wants next, and takes each read as it comes. What is
/// wanted next costs the same however much was read.
///
/// What is read of an SGL is kept in an allocator of the caller's choice.
#[derive(Drop)]
pub struct Planning<'a, A: Allocator + Clone> {
    draft: Draft<'a, A>,
    job: Job,
    alloc: Global,
}

impl<'a, A: Allocator + Clone> Model for Planning<'a, A> {
    ghost use Rattle.nv_plan.specs.Drafted.{IsUnderWay};
    ghost use Rattle.nv_plan.specs.Drawn.{given_of};
    ghost use Rattle.nv_plan.specs.Fed.{UnderWay};

    ghost Value = { UnderWay };

    ghost view = { λ p. record { job = p.job; given = given_of p.draft.given } };

    ghost invariant = { λ p. IsUnderWay p.draft p.job };
}

impl<'a, A: Allocator + Clone> Planning<'a, A> {
    /// The plan of a job of a guest that was given this map, this namespace and this limit on descriptors, 1 to 4,096. What the job's
    /// transcript has is taken first.
    ///
    /// # Errors
    ///
    /// There was no memory: the job comes back as it was.
    pub fn new(
        heap: A,
        alloc: Global,
        job: Job,
        map: &'a GuestMap,
        ns: &'a VirtualNs,
        limit: u32,
    ) -> Result<Self, Job>
        requires some { 0 < limit }
        requires most { limit ≤ most_limit }
        ensures ok { IfOk result (λ planning. planning ≡ record { job = job; given = record { memory_map = map.now; namespace = ns.now; limit = limit } }) }
        ensures err { IfErr result (λ back. back ≡ job) }
    {
        let given = GrantRef { map, ns, limit };
        let mut draft = Draft {
            given,
            sqe: job.sqe,
            stage: Stage::Bare(IoOpcode::Flush),
        };
        let Ok(()) = draft.begin(heap, alloc) else {
            return Err(job);
        };
        match draft.catch_up(alloc, &job) {
            Ok(_next) => Ok(Planning { draft, job, alloc }),
            Err(NoMemory) => Err(job),
        }
    }

    /// The job, with what was read so far.
    pub fn job(&self) -> &Job
        ensures { result.now ≡ self.now.job }
    {
        &self.job
    }

    /// The job, with what was read so far. The heap has what was kept there back.
    pub fn into_job(self) -> Job
        ensures { result ≡ self.entry.job }
    {
        self.job
    }

    /// What is wanted next: the bytes that `make_plan` would want of the job with what was read so far.
    ///
    /// # Errors
    ///
    /// There was no memory. The plan is as it was, and may be asked again.
    pub fn wants(&mut self) -> Result<Next, NoMemory>
        ensures next { IfOk result (λ next. IsNext next self.old) }
        ensures same { self.new ≡ self.old }
    {
        self.draft.wants(self.alloc)
    }

    /// Takes the read that is wanted next.
    ///
    /// # Errors
    ///
    /// There was no memory. The plan is as it was, and may be fed again.
    pub fn feed(&mut self, read: ReadDone) -> Result<(), NoMemory>
        requires { outcome_of self.old.given self.old.job ≡ Wanted read.addr (length read.bytes) }
        ensures ok { OnOk result (self.new ≡ with_read self.old read) }
        ensures err { OnErr result (self.new ≡ self.old) }
    {
        // A Dataset Management whose list was read goes on to its ranges first.
        let _next = self.draft.wants(self.alloc)?;
        read_on(&mut self.draft, &mut self.job.reads, read)
    }

    /// The plan, or what is still wanted, or that there was no memory: what `make_plan` answers of the job with what was read so far.
    pub fn finish(self) -> Planned
        ensures { IsPlanned result self.entry.job self.entry.given }
    {
        let Planning {
            mut draft,
            job,
            alloc,
        } = self;
        match draft.wants(alloc) {
            Ok(next) => settled(alloc, &draft, next, job),
            Err(NoMemory) => Planned::NoMemory(job),
        }
    }

    /// Puts the plan aside, to go on with it later. `None` where there was no memory for that, or where no list is read: then nothing is kept.
    pub fn put_aside(self) -> Option<Aside<A>>
        ensures { IfSome result (λ aside. aside ≡ self.entry) }
    {
        let Planning { draft, job, alloc } = self;
        let Draft {
            given,
            sqe: _,
            stage,
        } = draft;
        let rest = given.rest_of(stage)?;
        let map = given.map.try_clone(alloc).ok()?;
        Some(Aside {
            rest,
            job,
            map,
            ns: *given.ns,
            limit: given.limit,
        })
    }

    /// Goes on with a plan that was put aside, where the guest was given the same map, namespace and limit.
    ///
    /// # Errors
    ///
    /// The job, where what the guest was given is not the same, or there was no memory.
    pub fn resume(
        aside: Aside<A>,
        alloc: Global,
        map: &'a GuestMap,
        ns: &'a VirtualNs,
        limit: u32,
    ) -> Result<Self, Job>
        ensures ok { IfOk result (λ planning. planning ≡ aside) }
        ensures given { IfOk result (λ planning. planning.given ≡ record { memory_map = map.now; namespace = ns.now; limit = limit }) }
        ensures err { IfErr result (λ job. job ≡ aside.job) }
    {
        let Aside {
            rest,
            job,
            map: its_map,
            ns: its_ns,
            limit: its_limit,
        } = aside;
        if its_limit != limit
            || !same_map(&its_map, map)
            || !same_extents(its_ns.as_slice(), ns.as_slice())
        {
            return Err(job);
        }
        let given = GrantRef { map, ns, limit };
        let Some(stage) = given.stage_on(alloc, rest) else {
            return Err(job);
        };
        let draft = Draft {
            given,
            sqe: job.sqe,
            stage,
        };
        Ok(Planning { draft, job, alloc })
    }
}

// Feeds a draft the read that comes next, and adds that to the reads of its job. Room for it is taken first, so that nothing can fail after
// the draft was fed.
fn read_on<'a, A: Allocator + Clone>(
    draft: &mut Draft<'a, A>,
    reads: &mut Transcript,
    read: ReadDone,
) -> Result<(), NoMemory>
    requires sound { IsSound draft.old }
    requires wanted { next_at draft.old.stage ≡ Ahead.Read read.addr (length read.bytes) }
    ensures ok_reads { OnOk result (reads.new ≡ reads.old ++ read ∷ []) }
    ensures ok_draft { OnOk result (IsFed draft.old read.bytes draft.new) }
    ensures err_reads { OnErr result (reads.new ≡ reads.old) }
    ensures err_draft { OnErr result (IsGoingOn draft.old draft.new) }
{
    reads.reads.reserve(1)?;
    draft.feed(read.bytes())?;
    reads.reads.push_reserved(read);
    Ok(())
}

// What comes of a job that wants this next.
#[inline(always)]
fn settled<'a, A: Allocator + Clone>(
    alloc: Global,
    draft: &Draft<'a, A>,
    next: Next,
    job: Job,
) -> Planned
    requires under_way { IsUnderWay draft.now job }
    requires next { next_at draft.now.stage ≡ ahead_of next }
    ensures { IsPlanned result job (given_of draft.now.given) }
{
    if let Next::Read { addr, len } = next {
        return Planned::Need(job, addr, len);
    }
    let Ok(outline) = draft.outline(alloc) else {
        return Planned::NoMemory(job);
    };
    match draft.given.kept(alloc) {
        Ok((map, ns)) => Planned::Plan(Plan::new(job, map, ns, draft.given.limit, outline)),
        Err(NoMemory) => Planned::NoMemory(job),
    }
}

/// The plan of a job, or the bytes that are wanted next.
///
/// It follows from the command, what was read of its lists, the guest's map and namespace, and the limit on descriptors (1 to 4,096)
/// alone. What is read of an SGL lives in `heap`, and the plan in `alloc`.
pub fn make_plan<A: Allocator + Clone>(
    heap: A,
    alloc: Global,
    job: Job,
    map: &GuestMap,
    ns: &VirtualNs,
    limit: u32,
) -> Planned
    requires some { 0 < limit }
    requires most { limit ≤ most_limit }
    ensures { IsPlanned result job (record { memory_map = map.now; namespace = ns.now; limit = limit }) }
{
    let given = GrantRef { map, ns, limit };
    let mut draft = Draft {
        given,
        sqe: job.sqe,
        stage: Stage::Bare(IoOpcode::Flush),
    };
    let Ok(()) = draft.begin(heap, alloc) else {
        return Planned::NoMemory(job);
    };
    match draft.catch_up(alloc, &job) {
        Ok(next) => settled(alloc, &draft, next, job),
        Err(NoMemory) => Planned::NoMemory(job),
    }
}

impl<'a> GrantRef<'a> {
    // The map and the namespace, for a plan to keep.
    fn kept(&self, alloc: Global) -> Result<(GuestMap, KeptNs), NoMemory>
        ensures { IfOk result (λ kept. (kept.0 ≡ self.now.map.now) × (kept.1 ≡ self.now.ns.now)) }
    {
        let map = self.map.try_clone(alloc)?;
        let ns = KeptNs::of(alloc, self.ns)?;
        Ok((map, ns))
    }

    // What the parts of a transfer of blocks have of these places, as many bytes as the blocks have.
    pub(crate) fn parted(
        &self,
        alloc: Global,
        sqe: &Sqe,
        places: Places,
    ) -> Result<Portions, NoMemory>
        requires inside { in_namespace (slba_of sqe.now) (count_of sqe.now) (blocks_in self.now.ns.now) ≡ true }
        requires len { total_len places ≡ block * count_of sqe.now }
        requires some { All HasBytes places }
        requires mapped { All (IsMappedPiece (mapped self.now.map.now.regions)) places }
        ensures { IfOk result (λ portions.
            portions ≡ map (portion_cut places) (cuts self.now.ns.now (slba_of sqe.now) (count_of sqe.now))) }
    {
        if self.ns.len() > 1 {
            let parts = parts_of(sqe, self.ns);
            if parts.len() > 1 {
                // With the length of the host comes that all addresses of a map fit in 64 bits.
                let _known = self.map.host_len();
                return cut_up(alloc, places.pieces(), parts.as_slice());
            }
        }
        Ok(Portions::one(places))
    }

    // What the plan of a Dataset Management says, where these bytes were at its list's places.
    pub(crate) fn ranged(&self, alloc: Global, bytes: &[u8]) -> Result<Outline, NoMemory>
        requires whole { length bytes.now % range_size ≡ 0 }
        requires short { length bytes.now ≤ part_size }
        ensures { IfOk result (λ outline. (entry : List ℕ) (pieces : List Piece) →
            outline ≡ outline_of self.now.ns.now entry (plan_of self.now.map.now.regions
            (judge_ranges (blocks_in self.now.ns.now) opcode.DatasetManagement entry pieces (ranges_in (length bytes.now / range_size) bytes.now)))) }
    {
        if let Err(status) = judge_ranges(bytes, self.ns) {
            return Ok(Outline::answer(status));
        }
        let portions = portions_met(alloc, bytes, self.ns)?;
        Ok(Outline::new(PlanKind::Bounced, portions))
    }
}
