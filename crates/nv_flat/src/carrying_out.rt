//! How the flat controller carries a command out, from its entry to its completion.

ghost use Rattle.std.specs.Prelude.{◌≡◌, [], ◌∷◌, ◌+◌, ◌≤◌, ◌%◌, ℕ, IfOk, OnErr, length, true, false};
ghost use Rattle.std.specs.List.{range_with_len};
ghost use Rattle.nv_entry.specs.Completion.{completion};
ghost use Rattle.nv_entry.specs.Submission.{cid_of};
ghost use Rattle.nv_entry.specs.Status.{StatusField};
ghost use Rattle.nv_model.specs.Judge.{KeepAll, Work};
ghost use Rattle.nv_model.specs.Carried.{moved_on};
ghost use Rattle.nv_model.specs.Carrying.{cleared};
ghost use Rattle.nv_judge.specs.Need.{HasFieldsInOrder};
ghost use Rattle.nv_disk.specs.Flat.{moved_of};
ghost use Rattle.nv_flat.specs.One.{IsRun};
ghost use Rattle.nv_flat.specs.Transfer.{is_transfer};

use crate::controller::FlatController;
use crate::lists::Listed;
use nv_entry::{Cqe, IoOpcode, Sqe, Status, StatusCode};
use nv_judge::{Need, judge_fields};
use nv_mem::NoMemory;
use std::alloc::Global;

impl FlatController {
    /// Runs one command to its end, as the first command of a fresh queue 1: its completion has head 1 and phase 1.
    ///
    /// The completion, and the memory, the blocks and the marks after the command, are those of some run of the private controller that
    /// judges the command and moves it to its end.
    ///
    /// # Errors
    ///
    /// [`NoMemory`] where memory is refused: nothing has changed.
    pub fn one(&mut self, alloc: Global, sqe: &Sqe) -> Result<Cqe, NoMemory>
        ensures ok { IfOk result (λ cqe. (st : StatusField) × (IsRun self.old sqe.now st self.new × (cqe ≡ completion 0 1 1 (cid_of sqe.now) true st))) }
        ensures memory_size { length self.new.memory ≡ length self.old.memory }
        ensures disk_size { length self.new.disk ≡ length self.old.disk }
        ensures err { OnErr result (self.new ≡ self.old) }
    {
        let status = self.carry_out(alloc, sqe)?;
        Ok(Cqe::new(0, 1, 1, sqe.cid(), true, status))
    }

    // Judges a command and moves its units, and gives its status.
    fn carry_out(&mut self, alloc: Global, sqe: &Sqe) -> Result<Status, NoMemory>
        ensures ok { IfOk result (λ status. IsRun self.old sqe.now status self.new) }
        ensures memory_size { length self.new.memory ≡ length self.old.memory }
        ensures disk_size { length self.new.disk ≡ length self.old.disk }
        ensures err { OnErr result (self.new ≡ self.old) }
    {
        let need = match judge_fields(sqe, &self.namespace()) {
            Ok(need) => need,
            Err(status) => return Ok(status),
        };
        let Some(opcode) = sqe.io_opcode() else {
            unreachable!()
        };
        self.run(alloc, opcode, sqe, need)
    }

    // Runs a command whose fields are in order.
    fn run(
        &mut self,
        alloc: Global,
        opcode: IoOpcode,
        sqe: &Sqe,
        need: Need,
    ) -> Result<Status, NoMemory>
        requires in_order { HasFieldsInOrder (length self.old.disk) sqe.now opcode need }
        ensures ok { IfOk result (λ status. IsRun self.old sqe.now status self.new) }
        ensures memory_size { length self.new.memory ≡ length self.old.memory }
        ensures disk_size { length self.new.disk ≡ length self.old.disk }
        ensures err { OnErr result (self.new ≡ self.old) }
    {
        match opcode {
            IoOpcode::Flush => {
                self.keep_all();
                Ok(StatusCode::Success.status())
            }
            IoOpcode::WriteZeroes => {
                self.clear(sqe.slba(), u64::from(need.blocks), need.fua);
                Ok(StatusCode::Success.status())
            }
            IoOpcode::DatasetManagement => self.manage_dataset(alloc, sqe, need),
            IoOpcode::Read | IoOpcode::Write | IoOpcode::Compare => self.transfer(
                alloc, opcode, sqe, need,
            ),
        }
    }

    // Runs a Read, Write or Compare.
    fn transfer(
        &mut self,
        alloc: Global,
        opcode: IoOpcode,
        sqe: &Sqe,
        need: Need,
    ) -> Result<Status, NoMemory>
        requires in_order { HasFieldsInOrder (length self.old.disk) sqe.now opcode need }
        requires transfer { is_transfer opcode ≡ true }
        ensures ok { IfOk result (λ status. IsRun self.old sqe.now status self.new) }
        ensures memory_size { length self.new.memory ≡ length self.old.memory }
        ensures disk_size { length self.new.disk ≡ length self.old.disk }
        ensures err { OnErr result (self.new ≡ self.old) }
    {
        match self.read_list(alloc, sqe, need)? {
            Listed::Refused(status) => Ok(status),
            Listed::Named(places) => {
                let count = u64::from(need.blocks);
                if self.move_blocks(opcode, &places, sqe.slba(), count, need.fua) {
                    Ok(StatusCode::CompareFailure.status())
                } else {
                    Ok(StatusCode::Success.status())
                }
            }
        }
    }

    /// Makes the `count` blocks from `start` on zeros, and gives their marks this value.
    pub(crate) fn clear(&mut self, start: u64, count: u64, mark: bool)
        requires blocks { start + count ≤ length self.old.disk }
        ensures moved { moved_of self.new false ≡ cleared (range_with_len start count) mark (moved_of self.old false) }
        ensures memory_size { length self.new.memory ≡ length self.old.memory }
        ensures disk_size { length self.new.disk ≡ length self.old.disk }
    {
        nv_disk::clear_blocks(&mut self.disk, &mut self.kept, start, count, mark);
    }

    // Makes every block kept.
    fn keep_all(&mut self)
        ensures moved { (work : Work) → moved_of self.new false ≡ moved_on (KeepAll (length self.old.disk)) work (moved_of self.old false) }
        ensures memory_size { length self.new.memory ≡ length self.old.memory }
        ensures disk_size { length self.new.disk ≡ length self.old.disk }
    {
        nv_disk::keep_all(&mut self.kept);
    }
}
