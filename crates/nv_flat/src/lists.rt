//! Lists of commands, read in the controller's own memory.

ghost use Rattle.std.specs.Prelude.{◌≡◌, ◌<◌, ◌≤◌, IfOk, length};
ghost use Rattle.nv_model.specs.Limits.{most_bytes};
ghost use Rattle.nv_model.specs.Memory.{byte_in, bytes_from};
ghost use Rattle.nv_model.specs.Transcript.{fed};
ghost use Rattle.nv_sgl.specs.Parse.{reading_of};
ghost use Rattle.nv_model.specs.Want.{want_of};
ghost use Rattle.nv_entry.specs.declared.data_pointer.DataPointer.TheVariants as pointer;
ghost use Rattle.nv_prp.specs.Parse.{dialogue_of as prp_dialogue_of};
ghost use Rattle.nv_flat.specs.Listed.{IsListed, IsPartThere, list_reading, reading_by};

use crate::controller::FlatController;
use nv_entry::{DataPointer, Sqe, Status, StatusCode};
use nv_judge::Need;
use nv_mem::{Host, NoMemory, Places};
use nv_model::Want;
use nv_model::limits::{MOST_DESCRIPTORS, PART_SIZE};
use nv_prp::PrpParse;
use nv_sgl::PlacesParse;
use std::alloc::Global;

/// What a command's list says: it is refused, or where the bytes of the transfer lie.
#[derive(Debug, Drop)]
pub(crate) enum Listed {
    Refused(Status),
    Named(Places),
}

/// The most parts in which a list is read: as many as an SGL has descriptors, since those of PRPs have fewer slots.
const MOST_PARTS: u32 = MOST_DESCRIPTORS;

/// The most bytes of a part.
const PART: usize = PART_SIZE as usize;

impl FlatController {
    /// Reads the list of a command, for the transfer that it needs.
    pub(crate) fn read_list(&self, alloc: Global, sqe: &Sqe, need: Need) -> Result<Listed, NoMemory>
        requires some { 0 < need.bytes }
        requires most { need.bytes ≤ most_bytes }
        ensures { IfOk result (λ listed. IsListed listed (list_reading self.now sqe.now need)) }
    {
        match sqe.data_pointer() {
            DataPointer::Prp => self.read_prp(alloc, sqe, need),
            DataPointer::Sgl => self.read_sgl(alloc, sqe, need),
            DataPointer::Reserved => Ok(Listed::Refused(StatusCode::InvalidField.refused())),
        }
    }

    // Reads the pages that PRP1 and PRP2 name.
    fn read_prp(&self, alloc: Global, sqe: &Sqe, need: Need) -> Result<Listed, NoMemory>
        requires some { 0 < need.bytes }
        requires most { need.bytes ≤ most_bytes }
        ensures { IfOk result (λ listed. IsListed listed (reading_by pointer.Prp self.now sqe.now need)) }
    {
        let mut room = [0; PART];
        let mut parse = PrpParse::new(&self.map, sqe.prp1(), sqe.prp2(), u64::from(need.bytes));
        for _part in 0..MOST_PARTS {
            match parse.wants() {
                Want::Read { addr, len } => {
                    feed_prp(&self.memory, &mut room, &mut parse, addr, len);
                }
                Want::Done => return Ok(Listed::Named(parse.places(alloc)?)),
                Want::Fault(status) => return Ok(Listed::Refused(status)),
                // a list of region pages is never too long
                Want::TooLong => unreachable!(),
            }
        }
        unreachable!()
    }

    // Reads the descriptors of an SGL.
    fn read_sgl(&self, alloc: Global, sqe: &Sqe, need: Need) -> Result<Listed, NoMemory>
        ensures { IfOk result (λ listed. IsListed listed (reading_by pointer.Sgl self.now sqe.now need)) }
    {
        let mut room = [0; PART];
        let mut parse = PlacesParse::new(
            alloc,
            &self.map,
            sqe.sgl(),
            need.dest,
            u64::from(need.bytes),
        )?;
        for _part in 0..MOST_PARTS {
            match parse.wants() {
                Want::Read { addr, len } => {
                    parse = feed_sgl(&self.memory, &mut room, parse, addr, len)?;
                }
                Want::Done => return Ok(Listed::Named(parse.into_places())),
                Want::Fault(status) => return Ok(Listed::Refused(status)),
                Want::TooLong => return Ok(Listed::Refused(StatusCode::InternalError.status())),
            }
        }
        unreachable!()
    }
}

// Feeds a parse of an SGL the bytes that it wants, which are loaded into the room where they don't lie in one place.
#[inline(always)]
fn feed_sgl<'a>(
    memory: &Host,
    room: &mut [u8; PART],
    parse: PlacesParse<'a>,
    addr: u64,
    len: u32,
) -> Result<PlacesParse<'a>, NoMemory>
    requires wanted { want_of (reading_of parse) ≡ Want.Read addr len }
    requires there { IsPartThere memory.now addr len }
    ensures { IfOk result (λ more. reading_of more ≡ fed (reading_of parse.entry) (bytes_from (byte_in memory.now) addr len)) }
{
    parse.fed(memory.bytes(addr, u64::from(len), room))
}

// Feeds a parse of PRPs the bytes that it wants, likewise.
fn feed_prp(memory: &Host, room: &mut [u8; PART], parse: &mut PrpParse, addr: u64, len: u32)
    requires wanted { want_of (prp_dialogue_of parse.old) ≡ Want.Read addr len }
    requires there { IsPartThere memory.now addr len }
    ensures { prp_dialogue_of parse.new ≡ fed (prp_dialogue_of parse.old) (bytes_from (byte_in memory.now) addr len) }
{
    let part = memory.bytes(addr, u64::from(len), room);
    parse.feed(part);
}
