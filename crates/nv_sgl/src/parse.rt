//! The parse of a scatter gather list: what it wants, what it is fed, and the places in the end.

ghost use Rattle.std.specs.Prelude.{◌≡◌, [], ◌∷◌, ℕ, ◌<◌, length, IfOk, OnErr, OnOk};
ghost use Rattle.nv_mem.specs.GuestMap.{mapped};
ghost use Rattle.nv_model.specs.Dialogue.{End, and_then};
ghost use Rattle.nv_model.specs.Judge.{sized};
ghost use Rattle.nv_model.specs.Limits.{most_descriptors};
ghost use Rattle.nv_model.specs.Reading.{Spells};
ghost use Rattle.nv_model.specs.Sgl.{read_sgl};

use crate::chain::Chain;
use crate::cursor::Cursor;
use nv_entry::Descriptor;
use nv_mem::{GuestMap, NoMemory, Places};
use nv_model::Want;
use nv_model::limits::MOST_DESCRIPTORS;
use std::alloc::{Allocator, Global};
use std::marker::Model;

/// What is kept of a list: all of a parse but the guest's map.
#[derive(Drop)]
struct Kept<A: Allocator + Clone> {
    dest: bool,
    need: u64,
    limit: u32,
    cursor: Cursor,
    chain: Chain<A>,
}

/// The reading of a list, part by part. It never reads the guest's memory itself: it says which bytes it wants, and is fed them.
#[derive(Drop)]
pub struct SglParse<'a, A: Allocator + Clone> {
    map: &'a GuestMap,
    kept: Kept<A>,
}

impl<'a, A: Allocator + Clone> Model for SglParse<'a, A> {
    ghost use Rattle.nv_sgl.specs.Parse.{Parse};

    ghost Value = { Parse };

    ghost use Rattle.nv_sgl.specs.Cursor.{IsParse, parse_at};

    ghost view = { λ p. parse_at p.map.now.regions p.kept.dest p.kept.need p.kept.cursor p.kept.chain };

    ghost invariant = { λ p. IsParse p.kept.dest p.kept.cursor p.kept.chain };
}

impl<'a, A: Allocator + Clone> SglParse<'a, A> {
    ghost use Rattle.nv_sgl.specs.Parse.{dialogue_of};
    ghost use Rattle.nv_sgl.specs.Chain.{grown};
    ghost use Rattle.nv_model.specs.Transcript.{fed, units_fed};
    ghost use Rattle.nv_model.specs.Want.{want_of};

    /// A parse of the list of a command's own descriptor `first`, for a transfer of `need` bytes. `dest` says whether the buffer
    /// is a destination, as that of a Read. What is read of the list is kept in `heap`.
    ///
    /// # Errors
    ///
    /// [`NoMemory`] where the heap refuses memory for the descriptor.
    pub fn new(
        heap: A,
        map: &'a GuestMap,
        first: Descriptor,
        dest: bool,
        need: u64,
    ) -> Result<Self, NoMemory>
        ensures dialogue { IfOk result (λ parse. dialogue_of parse ≡
            and_then (read_sgl (mapped map.now.regions) dest most_descriptors first) (λ reading. End (sized need reading))) }
        ensures chain { IfOk result (λ parse. parse.chain ≡ (first ∷ []) ∷ []) }
    {
        Self::with_limit(heap, map, first, dest, need, MOST_DESCRIPTORS)
    }

    /// The same with another limit on descriptors, the command's own among them: 1 to 4,096.
    ///
    /// # Errors
    ///
    /// [`NoMemory`] where the heap refuses memory for the descriptor.
    pub fn with_limit(
        heap: A,
        map: &'a GuestMap,
        first: Descriptor,
        dest: bool,
        need: u64,
        limit: u32,
    ) -> Result<Self, NoMemory>
        requires { 0 < limit }
        ensures dialogue { IfOk result (λ parse. dialogue_of parse ≡
            and_then (read_sgl (mapped map.now.regions) dest limit first) (λ reading. End (sized need reading))) }
        ensures chain { IfOk result (λ parse. parse.chain ≡ (first ∷ []) ∷ []) }
    {
        let mut cursor = Cursor::at_own(limit);
        cursor.look_at(map, dest, &first);
        let kept = Kept {
            dest,
            need,
            limit,
            cursor,
            chain: Chain::own(heap, first)?,
        };
        Ok(SglParse { map, kept })
    }

    /// A copy, that keeps what it reads in the same heap. Each of the two is fed by itself.
    ///
    /// # Errors
    ///
    /// [`NoMemory`] where the heap refuses memory for the copy.
    pub fn try_clone(&self) -> Result<Self, NoMemory>
        ensures { IfOk result (λ copy. copy ≡ self.now) }
    {
        let kept = Kept {
            dest: self.kept.dest,
            need: self.kept.need,
            limit: self.kept.limit,
            cursor: self.kept.cursor,
            chain: self.kept.chain.try_clone()?,
        };
        Ok(SglParse {
            map: self.map,
            kept,
        })
    }

    /// What the parse wants to be fed, or how it ended. The bytes of an array are wanted from its start on, 4,096 at a time, the
    /// last what is left.
    #[inline(always)]
    pub fn wants(&self) -> Want
        ensures { result ≡ want_of (dialogue_of self.now) }
    {
        self.kept.cursor.wants(self.kept.need)
    }

    /// Reads on with the bytes that were wanted.
    ///
    /// # Errors
    ///
    /// [`NoMemory`] where memory is refused: the parse is as it was.
    #[inline(always)]
    pub fn feed(&mut self, bytes: &[u8]) -> Result<(), NoMemory>
        requires { (addr : ℕ) × (want_of (dialogue_of self.old) ≡ Want.Read addr (length bytes.now)) }
        ensures dialogue { OnOk result (dialogue_of self.new ≡ fed (dialogue_of self.old) bytes.now) }
        ensures chain { OnOk result (self.new.chain ≡ grown self.old.chain (units_fed (dialogue_of self.old) bytes.now)) }
        ensures err { OnErr result (self.new ≡ self.old) }
    {
        let Kept {
            dest,
            cursor,
            chain,
            ..
        } = &mut self.kept;
        *cursor = chain.read(self.map, *dest, *cursor, bytes)?;
        Ok(())
    }

    /// The descriptors that were read.
    pub fn chain(&self) -> &Chain<A>
        ensures { result.now ≡ self.now.chain }
    {
        &self.kept.chain
    }

    /// Where the bytes of the transfer lie, once the parse is done.
    ///
    /// # Errors
    ///
    /// [`NoMemory`] where memory for the places is refused.
    pub fn places(&self, alloc: Global) -> Result<Places, NoMemory>
        requires { want_of (dialogue_of self.now) ≡ Want.Done }
        ensures { IfOk result (λ places. dialogue_of self.now ≡ End (Spells places)) }
    {
        let mut places = Places::new(alloc);
        let Kept {
            dest,
            limit,
            cursor,
            chain,
            ..
        } = &self.kept;
        places.reserve(limit.saturating_sub(cursor.budget) as usize)?;
        chain.push_pieces(*dest, &mut places)?;
        Ok(places)
    }
}

/// A parse that is put aside: all of it but the guest's map, so that it outlives a borrow of the map.
///
/// A contract sees it as a parse in a map with no regions.
#[derive(Drop)]
pub struct SglRest<A: Allocator + Clone> {
    kept: Kept<A>,
}

impl<A: Allocator + Clone> Model for SglRest<A> {
    ghost use Rattle.std.specs.Prelude.{[]};
    ghost use Rattle.nv_sgl.specs.Parse.{Parse};

    ghost Value = { Parse };

    ghost use Rattle.nv_sgl.specs.Cursor.{IsParse, parse_at};

    ghost view = { λ r. parse_at [] r.kept.dest r.kept.need r.kept.cursor r.kept.chain };

    ghost invariant = { λ r. IsParse r.kept.dest r.kept.cursor r.kept.chain };
}

impl<'a, A: Allocator + Clone> SglParse<'a, A> {
    /// Puts the parse aside, and returns the map with which it was made.
    pub fn put_aside(self) -> (SglRest<A>, &'a GuestMap)
        ensures rest { result.0 ≡ record self.entry { regions = [] } }
        ensures map { result.1.now.regions ≡ self.entry.regions }
    {
        let SglParse { map, kept } = self;
        (SglRest { kept }, map)
    }

    /// The parse that was put aside, to go on with this map.
    pub fn resume(rest: SglRest<A>, map: &'a GuestMap) -> Self
        ensures { result ≡ record rest { regions = map.now.regions } }
    {
        let SglRest { kept } = rest;
        SglParse { map, kept }
    }
}
