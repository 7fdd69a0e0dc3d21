//! The parse of region pages: what it wants, what it is fed, and the places in the end.

ghost use Rattle.std.specs.Prelude.{◌≡◌, ◌≢◌, ◌<◌, ◌≤◌, [], ℕ, length, IfOk};
ghost use Rattle.nv_mem.specs.GuestMap.{mapped};
ghost use Rattle.nv_model.specs.Dialogue.{End, and_then};
ghost use Rattle.nv_model.specs.Judge.{sized};
ghost use Rattle.nv_model.specs.Limits.{most_bytes};
ghost use Rattle.nv_model.specs.Prp.{read_prp};
ghost use Rattle.nv_model.specs.Reading.{Spells};

use crate::cursor::{self, Cursor};
use crate::runs::{self, Runs};
use nv_mem::{GuestMap, NoMemory, Places};
use nv_model::Want;
use std::alloc::Global;
use std::marker::Model;

/// The reading of PRP1, PRP2 and a list, part by part. It never reads the guest's memory itself: it says which bytes it wants, and is fed them.
#[derive(Drop)]
pub struct PrpParse<'a> {
    map: &'a GuestMap,
    cursor: Cursor,
    runs: Runs,
}

impl<'a> Model for PrpParse<'a> {
    ghost use Rattle.nv_prp.specs.Parse.{Parse};

    ghost Value = { Parse };

    ghost use Rattle.nv_prp.specs.Cursor.{IsInRange, parse_at};

    ghost view = { λ p. parse_at p.map.now.regions p.cursor p.runs };

    ghost invariant = { λ p. IsInRange p.cursor p.runs };
}

impl<'a> PrpParse<'a> {
    ghost use Rattle.nv_model.specs.Transcript.{fed};
    ghost use Rattle.nv_model.specs.Want.{want_of};
    ghost use Rattle.nv_prp.specs.Parse.{dialogue_of, slots_ahead};

    /// A parse of a command's PRP1 and PRP2, for a transfer of `need` bytes. What they name has that length, so a check of it changes
    /// nothing.
    pub fn new(map: &'a GuestMap, prp1: u64, prp2: u64, need: u64) -> Self
        requires some { 0 < need }
        requires most { need ≤ most_bytes }
        ensures dialogue { dialogue_of result ≡ read_prp (mapped map.now.regions) prp1 prp2 need }
        ensures sized { dialogue_of result ≡
            and_then (read_prp (mapped map.now.regions) prp1 prp2 need) (λ reading. End (sized need reading)) }
    {
        let mut runs = Runs::new();
        let cursor = Cursor::start(map, prp1, prp2, need, &mut runs);
        PrpParse { map, cursor, runs }
    }

    /// What the parse wants to be fed, or how it ended. It is never too long.
    pub fn wants(&self) -> Want
        ensures value { result ≡ want_of (dialogue_of self.now) }
        ensures never_too_long { result ≢ Want.TooLong }
    {
        let Cursor {
            from,
            slots,
            pages,
            fault,
            ..
        } = self.cursor;
        match fault {
            Some(code) => Want::Fault(code.refused()),
            None if pages == 0 => Want::Done,
            None => Want::Read {
                addr: from as u64,
                len: 8 * slots.min(pages),
            },
        }
    }

    /// Reads on with the bytes that were wanted. Less is left to read each time, so a loop that feeds ends.
    pub fn feed(&mut self, bytes: &[u8])
        requires { (addr : ℕ) × (want_of (dialogue_of self.old) ≡ Want.Read addr (length bytes.now)) }
        ensures dialogue { dialogue_of self.new ≡ fed (dialogue_of self.old) bytes.now }
        ensures progress { slots_ahead self.new < slots_ahead self.old }
    {
        self.cursor = cursor::read_part(self.map, self.cursor, bytes, &mut self.runs);
    }

    /// Where the bytes of the transfer lie, once the parse is done.
    ///
    /// # Errors
    ///
    /// [`NoMemory`] where memory for the places is refused.
    pub fn places(&self, alloc: Global) -> Result<Places, NoMemory>
        requires { want_of (dialogue_of self.now) ≡ Want.Done }
        ensures { IfOk result (λ places. dialogue_of self.now ≡ End (Spells places)) }
    {
        let mut places = Places::new(alloc);
        runs::push_all(self.runs.as_slice(), &mut places)?;
        Ok(places)
    }
}

/// A parse that is put aside: all of it but the guest's map, so that it outlives a borrow of the map.
///
/// A contract sees it as a parse in a map with no regions.
#[derive(Drop)]
pub struct PrpRest {
    cursor: Cursor,
    runs: Runs,
}

impl Model for PrpRest {
    ghost use Rattle.std.specs.Prelude.{[]};
    ghost use Rattle.nv_prp.specs.Parse.{Parse};

    ghost Value = { Parse };

    ghost use Rattle.nv_prp.specs.Cursor.{IsInRange, parse_at};

    ghost view = { λ r. parse_at [] r.cursor r.runs };

    ghost invariant = { λ r. IsInRange r.cursor r.runs };
}

impl<'a> PrpParse<'a> {
    /// Puts the parse aside, and returns the map with which it was made.
    pub fn put_aside(self) -> (PrpRest, &'a GuestMap)
        ensures rest { result.0 ≡ record self.entry { regions = [] } }
        ensures map { result.1.now.regions ≡ self.entry.regions }
    {
        let PrpParse { map, cursor, runs } = self;
        (PrpRest { cursor, runs }, map)
    }

    /// The parse that was put aside, to go on with this map.
    pub fn resume(rest: PrpRest, map: &'a GuestMap) -> Self
        ensures { result ≡ record rest { regions = map.now.regions } }
    {
        let PrpRest { cursor, runs } = rest;
        PrpParse { map, cursor, runs }
    }
}
