//! The descriptors that were read of a list, kept array by array, and the places that they name.

ghost use Rattle.std.specs.Prelude.{◌≡◌, ◌%◌, [], ◌∷◌, ◌++◌, true, false, length, IfOk, OnErr, OnOk, MatchOption};
ghost use Rattle.nv_mem.specs.GuestMap.{mapped};
ghost use Rattle.nv_sgl.specs.Chain.{pieces_of};

use crate::cursor::{self, Cursor};
use nv_entry::{Descriptor, DescriptorType};
use nv_mem::{GuestMap, NoMemory, Places};
use std::alloc::Allocator;
use std::marker::Model;
use std::mem;

/// The descriptors that were read of a list: one `Chain` for each array, the newest first. The last of them holds the command's
/// own descriptor alone.
///
/// A contract sees it as a list of the arrays, the newest first, and a descriptor as its 16 bytes. Each array has a descriptor, so
/// a chain is no longer than the 1,024 descriptors that may be read of a list. It is dropped by a loop.
pub struct Chain<A: Allocator> {
    blocks: Vec<Descriptor, A>,
    next: Option<Box<Chain<A>, A>>,
}

impl<A: Allocator> Model for Chain<A> {
    ghost use Rattle.std.specs.Prelude.{List, ℕ, ◌∷◌, [], length};
    ghost use Rattle.std.specs.Option.{option_map_or};

    ghost Value = { List (List (List ℕ)) };

    ghost view = { λ c. c.blocks.items ∷ option_map_or (λ older. older.value) c.next [] };

    ghost size = { length };
}

impl<A: Allocator> Drop for Chain<A> {
    fn drop(mut self) {
        loop {
            let Chain { blocks: _, next } = self;
            match next {
                None => return,
                Some(older) => self = Box::into_inner(older),
            }
        }
    }
}

impl<A: Allocator> Chain<A> {
    ghost use Rattle.nv_sgl.specs.Chain.{begins_array, newest, older_of, pieces_in};
    ghost use Rattle.nv_sgl.specs.Cursor.{ExtendsChain, IsInRange};

    /// The descriptors of the newest array, in order.
    pub fn blocks(&self) -> &[Descriptor]
        ensures { self.now ≡ result.now ∷ older_of self.now }
    {
        &self.blocks
    }

    /// The arrays before it.
    pub fn next(&self) -> Option<&Chain<A>>
        ensures { MatchOption result (self.now ≡ newest self.now ∷ []) (λ older. self.now ≡ newest self.now ∷ older.now) }
    {
        match &self.next {
            None => None,
            Some(older) => Some(older),
        }
    }

    /// The chain of a command's own descriptor.
    pub(crate) fn own(heap: A, first: Descriptor) -> Result<Self, NoMemory>
        ensures { IfOk result (λ chain. chain ≡ (first ∷ []) ∷ []) }
    {
        let mut blocks = Vec::new(heap);
        blocks.push(first)?;
        Ok(Chain { blocks, next: None })
    }

    /// A copy, in the same heap. It calls itself once for each array.
    ///
    /// # Errors
    ///
    /// [`NoMemory`] where memory for the copy is refused.
    pub fn try_clone(&self) -> Result<Self, NoMemory>
    where
        A: Clone,
        ensures { IfOk result (λ copy. copy ≡ self.now) }
    {
        let next = match &self.next {
            None => None,
            Some(older) => {
                let copy = older.try_clone()?;
                Some(Box::new(self.blocks.allocator().clone()?, copy)?)
            }
        };
        let blocks = Vec::from_slice(self.blocks.allocator().clone()?, &self.blocks)?;
        Ok(Chain { blocks, next })
    }

    // Whether what is read next begins an array.
    #[inline(always)]
    fn begins_array(&self) -> bool
        ensures { result ≡ begins_array self.now }
    {
        match self.blocks.last() {
            None => false,
            Some(d) => match d.kind() {
                Some(DescriptorType::Segment | DescriptorType::LastSegment) => true,
                _ => false,
            },
        }
    }

    /// Reads the descriptors in these bytes, from the cursor on, and returns the cursor after them. Where no memory is left, the chain is as it
    /// was.
    #[inline(always)]
    pub(crate) fn read(
        &mut self,
        map: &GuestMap,
        dest: bool,
        cursor: Cursor,
        bytes: &[u8],
    ) -> Result<Cursor, NoMemory>
    where
        A: Clone,
        requires whole { length bytes.now % 16 ≡ 0 }
        requires in_range { IsInRange cursor }
        ensures ok { IfOk result (λ c. ExtendsChain (mapped map.now.regions) dest cursor bytes.now self.old c self.new) }
        ensures err { OnErr result (self.new ≡ self.old) }
    {
        if self.begins_array() {
            self.read_first(map, dest, cursor, bytes)
        } else {
            self.read_more(map, dest, cursor, bytes)
        }
    }

    // The same where the bytes go on with the newest array.
    #[inline(always)]
    fn read_more(
        &mut self,
        map: &GuestMap,
        dest: bool,
        cursor: Cursor,
        bytes: &[u8],
    ) -> Result<Cursor, NoMemory>
        requires whole { length bytes.now % 16 ≡ 0 }
        requires in_range { IsInRange cursor }
        requires more { begins_array self.old ≡ false }
        ensures ok { IfOk result (λ c. ExtendsChain (mapped map.now.regions) dest cursor bytes.now self.old c self.new) }
        ensures err { OnErr result (self.new ≡ self.old) }
    {
        cursor::read_part(map, dest, cursor, bytes, &mut self.blocks)
    }

    // The same where an array begins with the bytes.
    #[inline(always)]
    fn read_first(
        &mut self,
        map: &GuestMap,
        dest: bool,
        cursor: Cursor,
        bytes: &[u8],
    ) -> Result<Cursor, NoMemory>
    where
        A: Clone,
        requires whole { length bytes.now % 16 ≡ 0 }
        requires in_range { IsInRange cursor }
        requires first { begins_array self.old ≡ true }
        ensures ok { IfOk result (λ c. ExtendsChain (mapped map.now.regions) dest cursor bytes.now self.old c self.new) }
        ensures err { OnErr result (self.new ≡ self.old) }
    {
        let mut blocks = Vec::new(self.blocks.allocator().clone()?);
        let cursor = cursor::read_part(map, dest, cursor, bytes, &mut blocks)?;
        self.put_in_front(blocks)?;
        Ok(cursor)
    }

    // Puts an array in front of the others.
    #[inline(always)]
    fn put_in_front(&mut self, blocks: Vec<Descriptor, A>) -> Result<(), NoMemory>
    where
        A: Clone,
        ensures ok { OnOk result (self.new ≡ blocks.items ∷ self.old) }
        ensures err { OnErr result (self.new ≡ self.old) }
    {
        let heap = blocks.allocator().clone()?;
        let older = mem::replace(self, Chain { blocks, next: None });
        match Box::new(heap, older) {
            Ok(older) => {
                self.next = Some(older);
                Ok(())
            }
            Err(failed) => {
                *self = failed.value;
                Err(NoMemory)
            }
        }
    }

    /// Adds the pieces that the descriptors name, in the order in which these were read. It calls itself once for each array.
    pub(crate) fn push_pieces(&self, dest: bool, places: &mut Places) -> Result<(), NoMemory>
        ensures { OnOk result (places.new ≡ places.old ++ pieces_in dest self.now) }
    {
        if let Some(older) = &self.next {
            older.push_pieces(dest, places)?;
        }
        push_array(&self.blocks, dest, places)
    }
}

// Adds the pieces that the descriptors of an array name.
#[inline(always)]
fn push_array(blocks: &[Descriptor], dest: bool, places: &mut Places) -> Result<(), NoMemory>
    ensures { OnOk result (places.new ≡ places.old ++ pieces_of dest blocks.now) }
{
    for d in blocks {
        if let Some(piece) = cursor::piece_of(d, dest) {
            places.push(piece)?;
        }
    }
    Ok(())
}
