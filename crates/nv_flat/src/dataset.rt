//! Dataset Management.

ghost use Rattle.std.specs.Prelude.{◌≡◌, ◌/◌, ◌*◌, IfOk, OnErr, List, ℕ, true, false, length};
ghost use Rattle.std.specs.List.{list_all};
ghost use Rattle.nv_entry.specs.declared.opcode.IoOpcode.TheVariants as opcode;
ghost use Rattle.nv_model.specs.Judge.{Work, range_count_of, range_fits, range_units, ranges_in};
ghost use Rattle.nv_model.specs.Carried.{units_moved};
ghost use Rattle.nv_model.specs.Limits.{range_size};
ghost use Rattle.nv_judge.specs.Need.{HasFieldsInOrder, need_of};
ghost use Rattle.nv_model.specs.Reading.{Spells};
ghost use Rattle.nv_disk.specs.Flat.{moved_of};
ghost use Rattle.nv_flat.specs.Listed.{list_reading};
ghost use Rattle.nv_flat.specs.One.{IsRun};

use crate::controller::FlatController;
use crate::lists::Listed;
use nv_disk::Buffer;
use nv_entry::{Range, Sqe, Status, StatusCode};
use nv_judge::{Need, judge_ranges};
use nv_mem::{NoMemory, Places};
use nv_model::limits::{MOST_RANGES, RANGE_SIZE};
use std::alloc::Global;

/// The most bytes of the ranges: there are at most 256.
const MOST_BYTES: usize = MOST_RANGES * RANGE_SIZE;

impl FlatController {
    /// Runs a Dataset Management: where each of its ranges lies in the namespace, their blocks are deallocated if it asks for that.
    pub(crate) fn manage_dataset(
        &mut self,
        alloc: Global,
        sqe: &Sqe,
        need: Need,
    ) -> Result<Status, NoMemory>
        requires in_order { HasFieldsInOrder (length self.old.disk) sqe.now opcode.DatasetManagement need }
        ensures ok { IfOk result (λ status. IsRun self.old sqe.now status self.new) }
        ensures memory_size { length self.new.memory ≡ length self.old.memory }
        ensures disk_size { length self.new.disk ≡ length self.old.disk }
        ensures err { OnErr result (self.new ≡ self.old) }
    {
        let len = RANGE_SIZE * (usize::from(sqe.nr()) + 1);
        match self.read_list(alloc, sqe, need)? {
            Listed::Refused(status) => Ok(status),
            Listed::Named(places) => {
                let mut ranges = [0; MOST_BYTES];
                Ok(self.manage_ranges(sqe, &places, &mut ranges[..len]))
            }
        }
    }

    // The same once its list is read, through a buffer of the length of the ranges.
    fn manage_ranges(&mut self, sqe: &Sqe, places: &Places, ranges: &mut [u8]) -> Status
        requires in_order { HasFieldsInOrder (length self.old.disk) sqe.now opcode.DatasetManagement (need_of sqe.now opcode.DatasetManagement) }
        requires spelled { list_reading self.old sqe.now (need_of sqe.now opcode.DatasetManagement) ≡ Spells places.now }
        requires whole { length ranges.old ≡ range_size * range_count_of sqe.now }
        ensures run { IsRun self.old sqe.now result self.new }
        ensures memory_size { length self.new.memory ≡ length self.old.memory }
        ensures disk_size { length self.new.disk ≡ length self.old.disk }
    {
        Buffer::new(places).fetch(&self.memory, ranges);
        if let Err(status) = judge_ranges(ranges, &self.namespace()) {
            return status;
        }
        if sqe.deallocate() {
            self.deallocate(ranges);
        }
        StatusCode::Success.status()
    }

    // Makes the blocks of the ranges zeros that are not kept.
    fn deallocate(&mut self, ranges: &[u8])
        requires fit { list_all (range_fits (length self.old.disk)) (ranges_in (length ranges.now / range_size) ranges.now) ≡ true }
        ensures moved { (work : Work) →
            moved_of self.new false ≡ units_moved (range_units true (ranges_in (length ranges.now / range_size) ranges.now)) work (moved_of self.old false) }
        ensures memory_size { length self.new.memory ≡ length self.old.memory }
        ensures disk_size { length self.new.disk ≡ length self.old.disk }
    {
        let mut rest = ranges;
        while let Some((range, more)) = rest.split_first_chunk::<RANGE_SIZE>() {
            let range = Range::of(range);
            self.clear(range.start(), u64::from(range.blocks()), false);
            rest = more;
        }
    }
}
