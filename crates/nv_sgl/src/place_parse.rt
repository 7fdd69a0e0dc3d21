//! The parse of a scatter gather list whose places alone are kept.

ghost use Rattle.std.specs.Prelude.{◌≡◌, ℕ, length, IfOk};
ghost use Rattle.nv_mem.specs.GuestMap.{mapped};
ghost use Rattle.nv_model.specs.Dialogue.{End, and_then};
ghost use Rattle.nv_model.specs.Judge.{sized};
ghost use Rattle.nv_model.specs.Limits.{most_descriptors};
ghost use Rattle.nv_model.specs.Reading.{Spells};
ghost use Rattle.nv_model.specs.Sgl.{read_sgl};

use crate::cursor::{self, Cursor};
use nv_entry::Descriptor;
use nv_mem::{GuestMap, NoMemory, Places};
use nv_model::Want;
use nv_model::limits::MOST_DESCRIPTORS;
use std::alloc::Global;
use std::marker::Model;

/// The reading of a list, part by part, that keeps the places and no descriptors: for whoever wants nothing else of it. It says which
/// bytes it wants as [`SglParse`](crate::SglParse) does.
#[derive(Drop)]
pub struct PlacesParse<'a> {
    map: &'a GuestMap,
    dest: bool,
    need: u64,
    cursor: Cursor,
    places: Places,
}

impl<'a> Model for PlacesParse<'a> {
    ghost use Rattle.nv_sgl.specs.Parse.{Naming};
    ghost use Rattle.nv_sgl.specs.Cursor.{IsNaming, naming_at};

    ghost Value = { Naming };

    ghost view = { λ p. naming_at p.map.now.regions p.dest p.need p.cursor p.places };

    ghost invariant = { λ p. IsNaming p.cursor p.places };
}

impl<'a> PlacesParse<'a> {
    ghost use Rattle.nv_sgl.specs.Parse.{reading_of};
    ghost use Rattle.nv_model.specs.Transcript.{fed};
    ghost use Rattle.nv_model.specs.Want.{want_of};

    /// A parse of the list of a command's own descriptor `first`, for a transfer of `need` bytes. `dest` says whether the buffer
    /// is a destination, as that of a Read.
    ///
    /// # Errors
    ///
    /// [`NoMemory`] where memory for the piece of the descriptor is refused.
    pub fn new(
        alloc: Global,
        map: &'a GuestMap,
        first: Descriptor,
        dest: bool,
        need: u64,
    ) -> Result<Self, NoMemory>
        ensures { IfOk result (λ parse. reading_of parse ≡
            and_then (read_sgl (mapped map.now.regions) dest most_descriptors first) (λ reading. End (sized need reading))) }
    {
        let mut cursor = Cursor::at_own(MOST_DESCRIPTORS);
        cursor.look_at(map, dest, &first);
        let mut places = Places::new(alloc);
        cursor::push_piece(&first, dest, &mut places)?;
        Ok(PlacesParse {
            map,
            dest,
            need,
            cursor,
            places,
        })
    }

    /// What the parse wants to be fed, or how it ended. The bytes of an array are wanted from its start on, 4,096 at a time, the
    /// last what is left.
    #[inline(always)]
    pub fn wants(&self) -> Want
        ensures { result ≡ want_of (reading_of self.now) }
    {
        self.cursor.wants(self.need)
    }

    /// Reads on with the bytes that were wanted.
    ///
    /// # Errors
    ///
    /// [`NoMemory`] where memory for the pieces is refused. The parse is consumed.
    #[inline(always)]
    pub fn fed(self, bytes: &[u8]) -> Result<Self, NoMemory>
        requires { (addr : ℕ) × (want_of (reading_of self) ≡ Want.Read addr (length bytes.now)) }
        ensures { IfOk result (λ parse. reading_of parse ≡ fed (reading_of self.entry) bytes.now) }
    {
        let PlacesParse {
            map,
            dest,
            need,
            cursor,
            mut places,
        } = self;
        let cursor = cursor::read_places(map, dest, cursor, bytes, &mut places)?;
        Ok(PlacesParse {
            map,
            dest,
            need,
            cursor,
            places,
        })
    }

    /// Where the bytes of the transfer lie, once the parse is done. It takes no memory.
    pub fn into_places(self) -> Places
        requires { want_of (reading_of self) ≡ Want.Done }
        ensures { reading_of self.entry ≡ End (Spells result) }
    {
        self.places
    }
}
