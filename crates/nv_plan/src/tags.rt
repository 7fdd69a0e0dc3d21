//! How many tags a command takes.

ghost use Rattle.std.specs.Prelude.{◌≡◌, ◌<◌, ◌≤◌, ◌^◌, length, true};
ghost use Rattle.nv_entry.specs.Submission.{slba_of};
ghost use Rattle.nv_model.specs.Judge.{count_of};
ghost use Rattle.nv_ns.specs.BlockRange.{in_namespace};
ghost use Rattle.nv_ns.specs.Extents.{blocks_in, cuts, most_extents};
ghost use Rattle.nv_world_model.specs.Share.{tags_of_entry};

use nv_entry::{IoOpcode, Sqe};
use nv_judge::judge_fields;
use nv_ns::{Parts, VirtualNs};

/// How many tags a command takes, before any list of it is read: one for each physical command that it is.
pub fn tags_wanted(sqe: &Sqe, ns: &VirtualNs) -> u8
    ensures value { result ≡ tags_of_entry ns.now sqe.now }
    ensures some { 0 < result }
    ensures most { result ≤ most_extents }
{
    if ns.len() == 1 {
        return 1;
    }
    if let Err(_) = judge_fields(sqe, ns) {
        return 1;
    }
    let Some(opcode) = sqe.io_opcode() else {
        return 1;
    };
    match opcode {
        IoOpcode::Flush => 1,
        IoOpcode::DatasetManagement => ns.len() as u8,
        IoOpcode::Read | IoOpcode::Write | IoOpcode::Compare | IoOpcode::WriteZeroes => {
            parts_of(sqe, ns).len() as u8
        }
    }
}

/// The parts of the run of blocks that a command names, which lies in the namespace.
pub(crate) fn parts_of(sqe: &Sqe, ns: &VirtualNs) -> Parts
    requires { in_namespace (slba_of sqe.now) (count_of sqe.now) (blocks_in ns.now) ≡ true }
    ensures value { result ≡ cuts ns.now (slba_of sqe.now) (count_of sqe.now) }
    ensures few { length result ≤ most_extents }
    ensures short { count_of sqe.now ≤ 2 ^ 16 }
{
    match ns.translate(sqe.slba(), u64::from(sqe.nlb()) + 1) {
        Some(parts) => parts,
        None => unreachable!(),
    }
}
