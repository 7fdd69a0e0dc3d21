//! Commands that move blocks between the disk and a buffer: Read, Write and Compare.

ghost use Rattle.std.specs.Prelude.{◌≡◌, ◌+◌, ◌*◌, ◌<◌, ◌≤◌, ℕ, List, true, false, length, drop};
ghost use Rattle.nv_mem.specs.Places.{places_of};
ghost use Rattle.nv_mem.specs.declared.piece.Piece.{Piece};
ghost use Rattle.nv_model.specs.Judge.{MoveBlock};
ghost use Rattle.nv_model.specs.Carried.{block_work, moved_on, units_moved};
ghost use Rattle.nv_model.specs.Carrying.{units_from};
ghost use Rattle.nv_model.specs.Limits.{block as block_size};
ghost use Rattle.nv_disk.specs.Buffer.{AreBelow};
ghost use Rattle.nv_disk.specs.Flat.{moved_of};
ghost use Rattle.nv_flat.specs.Transfer.{is_transfer};

use crate::controller::FlatController;
use nv_disk::Buffer;
use nv_entry::IoOpcode;
use nv_mem::Places;

impl FlatController {
    /// Moves the `count` blocks from `slba` on to or from a buffer, in order, or compares them. It says whether a Compare differs.
    pub(crate) fn move_blocks(
        &mut self,
        opcode: IoOpcode,
        places: &Places,
        slba: u64,
        count: u64,
        fua: bool,
    ) -> bool
        requires transfer { is_transfer opcode ≡ true }
        requires in_memory { AreBelow (length self.old.memory) (places_of places.now) }
        requires enough { block_size * count ≤ length (places_of places.now) }
        requires blocks { slba + count ≤ length self.old.disk }
        ensures moved { moved_of self.new result ≡ units_moved (units_from 0 slba count) (block_work opcode places.now fua) (moved_of self.old false) }
        ensures memory_size { length self.new.memory ≡ length self.old.memory }
        ensures disk_size { length self.new.disk ≡ length self.old.disk }
    {
        let mut buffer = Buffer::new(places);
        match opcode {
            IoOpcode::Read => {
                nv_disk::read_blocks(
                    &mut self.memory,
                    &self.disk,
                    &mut self.kept,
                    &mut buffer,
                    slba,
                    count,
                    fua,
                );
                false
            }
            IoOpcode::Compare => nv_disk::compare_blocks(
                &self.memory,
                &self.disk,
                &mut self.kept,
                &mut buffer,
                slba,
                count,
                fua,
            ),
            IoOpcode::Write => {
                self.write_blocks(places, slba, count, fua);
                false
            }
            _ => unreachable!(),
        }
    }

    // Moves the `count` blocks from `slba` on from a buffer, in order.
    fn write_blocks(&mut self, places: &Places, slba: u64, count: u64, fua: bool)
        requires in_memory { AreBelow (length self.old.memory) (places_of places.now) }
        requires enough { block_size * count ≤ length (places_of places.now) }
        requires blocks { slba + count ≤ length self.old.disk }
        ensures moved { moved_of self.new false ≡ units_moved (units_from 0 slba count) (block_work IoOpcode.Write places.now fua) (moved_of self.old false) }
        ensures memory_size { length self.new.memory ≡ length self.old.memory }
        ensures disk_size { length self.new.disk ≡ length self.old.disk }
    {
        // The end of the range fits in 64 bits, as the number of blocks does.
        let _known = self.blocks();
        let mut buffer = Buffer::new(places);
        for index in 0..count {
            self.write_block(&mut buffer, slba + index, fua);
        }
    }

    // Moves one block from the next places of the buffer.
    #[inline(always)]
    fn write_block(&mut self, buffer: &mut Buffer, lba: u64, fua: bool)
        requires in_memory { AreBelow (length self.old.memory) buffer.old }
        requires enough { block_size ≤ length buffer.old }
        requires block { lba < length self.old.disk }
        ensures moved { (index : ℕ) (pieces : List Piece) → buffer.old ≡ drop (block_size * index) (places_of pieces) →
            moved_of self.new false ≡ moved_on (MoveBlock index lba) (block_work IoOpcode.Write pieces fua) (moved_of self.old false) }
        ensures memory_size { length self.new.memory ≡ length self.old.memory }
        ensures disk_size { length self.new.disk ≡ length self.old.disk }
        ensures rest { buffer.new ≡ drop block_size buffer.old }
    {
        nv_disk::write_block(
            &self.memory,
            &mut self.disk,
            &mut self.kept,
            buffer,
            lba,
            fua,
        );
    }
}
