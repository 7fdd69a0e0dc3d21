//! What is read before a command can be planned: how far that has come, what is wanted next, and what the plan says in the end.

ghost use Rattle.std.specs.Prelude.{◌≡◌, ◌<◌, ℕ, IfOk, OnErr, OnOk, length, true};
ghost use Rattle.nv_entry.specs.Opcode.{data_pointer};
ghost use Rattle.nv_entry.specs.Submission.{psdt_of};
ghost use Rattle.nv_entry.specs.declared.data_pointer.DataPointer.TheVariants as pointer;
ghost use Rattle.nv_mem.specs.GuestMap.{mapped};
ghost use Rattle.nv_model.specs.Judge.{has_buffer, judge};
ghost use Rattle.nv_ns.specs.Extents.{blocks_in};
ghost use Rattle.nv_plan.specs.Drafted.{IsBegun, IsCaughtUp, IsDraft, IsFed, IsGoingOn, IsKnown, IsReadingList, IsSound, IsSoundStage, IsSpelledBy, IsTurned, Says, ahead_at, ahead_of, left_to_read, next_at, next_of, want_at};
ghost use Rattle.nv_plan.specs.Drawn.{given_of};

use crate::given::GrantRef;
use crate::job::Job;
use crate::kind::PlanKind;
use crate::next::Next;
use crate::outline::Outline;
use crate::portions::Portions;
use crate::source::Source;
use crate::tags::tags_wanted;
use crate::transcript::ReadsLeft;
use nv_entry::{DataPointer, IoOpcode, Sqe, Status, StatusCode};
use nv_judge::{Need, judge_fields};
use nv_mem::{NoMemory, Places};
use nv_model::Want;
use nv_model::limits::RANGE_SIZE;
use nv_prp::{Named, NamedRuns, PrpParse, fits};
use nv_sgl::SglParse;
use std::alloc::{Allocator, Global};

/// A command with a buffer whose fields are in order, and what it needs.
#[derive(Clone, Copy)]
pub(crate) struct Buffered {
    pub(crate) opcode: IoOpcode,
    pub(crate) need: Need,
}

/// How far the reading of a command's lists has come.
#[derive(Drop)]
pub(crate) enum Stage<'a, A: Allocator + Clone> {
    /// The command is refused with this status, with nothing read.
    Refused(Status),
    /// It moves no data, and nothing is read.
    Bare(IoOpcode),
    /// PRP1 and PRP2 name all of its pages, and no list is read.
    Named(Buffered, NamedRuns),
    /// The list to which PRP2 points is read. The parse has room for all runs of a transfer, so it is not moved about.
    Pages(Buffered, Box<PrpParse<'a>>),
    /// The descriptors of its SGL are read.
    Descriptors(Buffered, SglParse<'a, A>),
    /// The bytes of its ranges are read, where its list named them.
    Ranges(Source),
}

/// What comes next.
#[derive(Clone, Copy)]
pub(crate) enum Ahead {
    /// These bytes are read.
    Read { addr: u64, len: u64 },
    /// The list has named where the ranges are: their bytes are read.
    Turn,
    /// Nothing: all was read.
    End,
}

/// A command whose lists are read.
#[derive(Drop)]
pub(crate) struct Draft<'a, A: Allocator + Clone> {
    pub(crate) given: GrantRef<'a>,
    pub(crate) sqe: Sqe,
    pub(crate) stage: Stage<'a, A>,
}

impl<'a> GrantRef<'a> {
    // Writes how the reading of a command's lists begins.
    #[inline(always)]
    fn begin<A: Allocator + Clone>(
        &self,
        heap: A,
        alloc: Global,
        sqe: &Sqe,
        stage: &mut Stage<'a, A>,
    ) -> Result<(), NoMemory>
        requires { 0 < self.now.limit }
        ensures sound { OnOk result (IsSoundStage (given_of self.now) sqe.now stage.new) }
        ensures ahead { OnOk result (ahead_at (blocks_in self.now.ns.now) sqe.now stage.new
            ≡ judge (mapped self.now.map.now.regions) self.now.limit (blocks_in self.now.ns.now) sqe.now) }
    {
        let need = match judge_fields(sqe, self.ns) {
            Ok(need) => need,
            Err(status) => {
                *stage = Stage::Refused(status);
                return Ok(());
            }
        };
        let Some(opcode) = sqe.io_opcode() else {
            unreachable!()
        };
        match opcode {
            IoOpcode::Flush | IoOpcode::WriteZeroes => {
                *stage = Stage::Bare(opcode);
                Ok(())
            }
            IoOpcode::Read | IoOpcode::Write | IoOpcode::Compare | IoOpcode::DatasetManagement =>
                self.list(heap, alloc, sqe, Buffered { opcode, need }, stage),
        }
    }

    // Writes how the reading of its list begins, where it has a buffer.
    #[inline(always)]
    fn list<A: Allocator + Clone>(
        &self,
        heap: A,
        alloc: Global,
        sqe: &Sqe,
        buffered: Buffered,
        stage: &mut Stage<'a, A>,
    ) -> Result<(), NoMemory>
        requires limit { 0 < self.now.limit }
        requires known { IsKnown (given_of self.now) sqe.now buffered.opcode buffered.need }
        requires buffer { has_buffer buffered.opcode ≡ true }
        ensures sound { OnOk result (IsSoundStage (given_of self.now) sqe.now stage.new) }
        ensures ahead { OnOk result (ahead_at (blocks_in self.now.ns.now) sqe.now stage.new
            ≡ judge (mapped self.now.map.now.regions) self.now.limit (blocks_in self.now.ns.now) sqe.now) }
    {
        match sqe.data_pointer() {
            DataPointer::Prp => self.pages(alloc, sqe, buffered, stage)?,
            DataPointer::Sgl => {
                let Need { dest, bytes, .. } = buffered.need;
                let bytes = u64::from(bytes);
                let first = sqe.sgl();
                let parse = SglParse::with_limit(heap, self.map, first, dest, bytes, self.limit)?;
                *stage = Stage::Descriptors(buffered, parse);
            }
            DataPointer::Reserved => *stage = Stage::Refused(StatusCode::InvalidField.refused()),
        }
        Ok(())
    }

    // Writes how the reading of its list begins, where PRP1 and PRP2 name its buffer. A parse is made only where they have a list.
    #[inline(always)]
    fn pages<A: Allocator + Clone>(
        &self,
        alloc: Global,
        sqe: &Sqe,
        buffered: Buffered,
        stage: &mut Stage<'a, A>,
    ) -> Result<(), NoMemory>
        requires known { IsKnown (given_of self.now) sqe.now buffered.opcode buffered.need }
        requires buffer { has_buffer buffered.opcode ≡ true }
        requires prp { data_pointer (psdt_of sqe.now) ≡ pointer.Prp }
        ensures sound { OnOk result (IsSoundStage (given_of self.now) sqe.now stage.new) }
        ensures ahead { OnOk result (ahead_at (blocks_in self.now.ns.now) sqe.now stage.new
            ≡ judge (mapped self.now.map.now.regions) self.now.limit (blocks_in self.now.ns.now) sqe.now) }
    {
        let (prp1, prp2) = (sqe.prp1(), sqe.prp2());
        let bytes = u64::from(buffered.need.bytes);
        match Named::by(self.map, prp1, prp2, bytes) {
            Named::Runs(runs) => {
                *stage = Stage::Named(buffered, runs);
                Ok(())
            }
            Named::Fault(code) => {
                *stage = Stage::Refused(code.refused());
                Ok(())
            }
            Named::FirstPage => {
                let parse = PrpParse::new(self.map, prp1, prp2, bytes);
                *stage = Stage::Pages(buffered, Box::new(alloc, parse)?);
                Ok(())
            }
        }
    }
}

// What comes next of a list of a command with that opcode.
#[inline(always)]
fn ahead_of_list(opcode: IoOpcode, want: Want) -> Ahead
    ensures { result ≡ next_of opcode want }
{
    match want {
        Want::Read { addr, len } => Ahead::Read {
            addr,
            len: u64::from(len),
        },
        Want::Done if opcode == IoOpcode::DatasetManagement => Ahead::Turn,
        Want::Done | Want::Fault(_) | Want::TooLong => Ahead::End,
    }
}

impl<'a, A: Allocator + Clone> Draft<'a, A> {
    /// Begins with its command, of which nothing was read. The stage that it had before does not matter: the new one is written in its
    /// place, since a draft costs time where it moves.
    #[inline(always)]
    pub(crate) fn begin(&mut self, heap: A, alloc: Global) -> Result<(), NoMemory>
        requires { 0 < self.old.given.limit }
        ensures { OnOk result (IsDraft self.old.given self.old.sqe self.new) }
    {
        self.given.begin(heap, alloc, &self.sqe, &mut self.stage)
    }

    /// Goes on with all that the job's transcript has, from the beginning on, and says what is wanted next.
    #[inline(always)]
    pub(crate) fn catch_up(&mut self, alloc: Global, job: &Job) -> Result<Next, NoMemory>
        requires { IsBegun self.old job.now }
        ensures { IfOk result (λ next. IsCaughtUp self.old job.now self.new next) }
    {
        let mut reads = ReadsLeft::all(&job.reads);
        'reads: loop {
            let next = self.wants(alloc)?;
            let Next::Read { addr, len } = next else {
                return Ok(next);
            };
            let Some(part) = reads.take(addr, len) else {
                return Ok(next);
            };
            self.feed(part)?;
        }
    }

    /// What is wanted next. Where memory is refused, nothing has changed.
    #[inline(always)]
    pub(crate) fn wants(&mut self, alloc: Global) -> Result<Next, NoMemory>
        requires { IsSound self.old }
        ensures goes_on { IsGoingOn self.old self.new }
        ensures next { IfOk result (λ next. next_at self.new.stage ≡ ahead_of next) }
    {
        match self.ahead() {
            Ahead::Read { addr, len } => Ok(Next::Read { addr, len }),
            Ahead::End => Ok(Next::Done),
            Ahead::Turn => {
                let source = self.source(alloc)?;
                let next = source.next();
                self.stage = Stage::Ranges(source);
                Ok(next)
            }
        }
    }

    // What comes next.
    #[inline(always)]
    fn ahead(&self) -> Ahead
        ensures { result ≡ next_at self.now.stage }
    {
        match &self.stage {
            Stage::Refused(_) | Stage::Bare(_) => Ahead::End,
            Stage::Named(buffered, _) => ahead_of_list(buffered.opcode, Want::Done),
            Stage::Pages(buffered, parse) => ahead_of_list(buffered.opcode, parse.wants()),
            Stage::Descriptors(buffered, parse) => ahead_of_list(buffered.opcode, parse.wants()),
            Stage::Ranges(source) => source.ahead(),
        }
    }

    // The bytes of the ranges, of which none were read, where the list has named where they are.
    fn source(&self, alloc: Global) -> Result<Source, NoMemory>
        requires sound { IsSound self.now }
        requires turn { next_at self.now.stage ≡ Ahead.Turn }
        ensures { IfOk result (λ source. IsTurned self.now source) }
    {
        let places = self.places(alloc)?;
        let len = RANGE_SIZE * (usize::from(self.sqe.nr()) + 1);
        Source::new(alloc, places, len)
    }

    // Where the bytes of the transfer are, where the list has named them.
    #[inline(always)]
    fn places(&self, alloc: Global) -> Result<Places, NoMemory>
        requires { want_at self.now.stage ≡ Want.Done }
        ensures { IfOk result (λ places. IsSpelledBy self.now.stage places) }
    {
        match &self.stage {
            Stage::Named(_, runs) => runs.places(alloc),
            Stage::Pages(_, parse) => parse.places(alloc),
            Stage::Descriptors(_, parse) => parse.places(alloc),
            Stage::Refused(_) | Stage::Bare(_) | Stage::Ranges(_) => unreachable!(),
        }
    }

    /// Goes on with the bytes that were wanted. Where memory is refused, nothing has changed.
    #[inline(always)]
    pub(crate) fn feed(&mut self, bytes: &[u8]) -> Result<(), NoMemory>
        requires sound { IsSound self.old }
        requires wanted { (addr : ℕ) × (next_at self.old.stage ≡ Ahead.Read addr (length bytes.now)) }
        ensures ok { OnOk result (IsFed self.old bytes.now self.new) }
        ensures err { OnErr result (IsGoingOn self.old self.new) }
    {
        match &mut self.stage {
            Stage::Pages(_, parse) => {
                parse.feed(bytes);
                Ok(())
            }
            Stage::Descriptors(_, parse) => parse.feed(bytes),
            Stage::Ranges(source) => source.feed(bytes),
            Stage::Refused(_) | Stage::Bare(_) | Stage::Named(_, _) => unreachable!(),
        }
    }

    /// What the plan says, once all was read.
    #[inline(always)]
    pub(crate) fn outline(&self, alloc: Global) -> Result<Outline, NoMemory>
        requires sound { IsSound self.now }
        requires end { next_at self.now.stage ≡ Ahead.End }
        ensures { IfOk result (λ outline. Says self.now outline) }
    {
        match &self.stage {
            Stage::Refused(status) => Ok(Outline::answer(*status)),
            Stage::Bare(_) => {
                let portions = Portions::bare(tags_wanted(&self.sqe, self.given.ns));
                Ok(Outline::new(PlanKind::NoData, portions))
            }
            Stage::Named(_, _) => self.listed(alloc, Want::Done),
            Stage::Pages(_, parse) => self.listed(alloc, parse.wants()),
            Stage::Descriptors(_, parse) => self.listed(alloc, parse.wants()),
            Stage::Ranges(source) => self.given.ranged(alloc, &source.bytes),
        }
    }

    // What the plan of a command says whose list was read, and ended so.
    #[inline(always)]
    fn listed(&self, alloc: Global, want: Want) -> Result<Outline, NoMemory>
        requires sound { IsSound self.now }
        requires end { next_at self.now.stage ≡ Ahead.End }
        requires reading { IsReadingList self.now.stage }
        requires want { want_at self.now.stage ≡ want }
        ensures { IfOk result (λ outline. Says self.now outline) }
    {
        match want {
            Want::Done => self.transfer(alloc),
            Want::Fault(status) => Ok(Outline::answer(status)),
            Want::TooLong => Ok(Outline::answer(StatusCode::InternalError.status())),
            Want::Read { addr: _, len: _ } => unreachable!(),
        }
    }

    // What the plan of a Read, Write or Compare says whose list names as many bytes as its blocks have.
    fn transfer(&self, alloc: Global) -> Result<Outline, NoMemory>
        requires sound { IsSound self.now }
        requires end { next_at self.now.stage ≡ Ahead.End }
        requires done { want_at self.now.stage ≡ Want.Done }
        ensures { IfOk result (λ outline. Says self.now outline) }
    {
        let places = self.places(alloc)?;
        let kind = if fits(self.given.map, &places) {
            PlanKind::Direct
        } else {
            PlanKind::Bounced
        };
        let portions = self.given.parted(alloc, &self.sqe, places)?;
        Ok(Outline::new(kind, portions))
    }
}
