//! The checks of a command that read its fields alone.

ghost use Rattle.std.specs.Prelude.{◌≡◌, ◌^◌, ◌≤◌};
ghost use Rattle.nv_judge.specs.Need.{field_verdict, need_of};
ghost use Rattle.nv_model.specs.Judge.{command_checks, count_of, has_blocks, has_buffer, is_read, transfer_len};
ghost use Rattle.nv_model.specs.Reading.{first_failing};
ghost use Rattle.nv_ns.specs.Extents.{blocks_in};

use crate::need::Need;
use nv_entry::{IoOpcode, Sqe, Status, StatusCode};
use nv_model::limits::{BLOCK_SIZE, MOST_COMMAND_BLOCKS, RANGE_SIZE};
use nv_ns::VirtualNs;

/// The checks of a command's fields in their order: fused operation, opcode, namespace, data pointer, size of the transfer and block range.
///
/// # Errors
///
/// The refusal by the first check that fails, with DNR set: [`StatusCode::InvalidField`] for fused operation, data pointer and size of the
/// transfer, [`StatusCode::InvalidOpcode`], [`StatusCode::InvalidNamespace`] or [`StatusCode::LbaOutOfRange`] for the block range. `Ok`
/// says what the command needs.
pub fn judge_fields(sqe: &Sqe, ns: &VirtualNs) -> Result<Need, Status>
    ensures { result ≡ field_verdict (blocks_in ns.now) sqe.now }
{
    if sqe.fuse() != 0 {
        return Err(StatusCode::InvalidField.refused());
    }
    let Some(opcode) = sqe.io_opcode() else {
        return Err(StatusCode::InvalidOpcode.refused());
    };
    match refusal(opcode, sqe, ns) {
        Some(code) => Err(code.refused()),
        None => Ok(need(opcode, sqe)),
    }
}

// The first check that a command fails once its opcode is known.
fn refusal(opcode: IoOpcode, sqe: &Sqe, ns: &VirtualNs) -> Option<StatusCode>
    ensures { result ≡ first_failing (command_checks (blocks_in ns.now) sqe.now opcode) }
{
    let count = block_count(sqe);
    if sqe.nsid() != 1 {
        Some(StatusCode::InvalidNamespace)
    } else if has_buffer(opcode) && sqe.psdt() == 3 {
        Some(StatusCode::InvalidField)
    } else if has_buffer(opcode) && has_blocks(opcode) && count > MOST_COMMAND_BLOCKS {
        Some(StatusCode::InvalidField)
    } else if has_blocks(opcode) && !ns.holds(sqe.slba(), u64::from(count)) {
        Some(StatusCode::LbaOutOfRange)
    } else {
        None
    }
}

// What a command needs that its fields do not refuse.
fn need(opcode: IoOpcode, sqe: &Sqe) -> Need
    ensures { result ≡ need_of sqe.now opcode }
{
    let ranged = has_blocks(opcode);
    Need {
        dest: matches!(opcode, IoOpcode::Read),
        bytes: transfer_len(opcode, sqe),
        blocks: if ranged { block_count(sqe) } else { 0 },
        fua: ranged && sqe.fua(),
    }
}

// The blocks of a command's LBA range.
fn block_count(sqe: &Sqe) -> u32
    ensures value { result ≡ count_of sqe.now }
    ensures fits { result ≤ 2 ^ 16 }
{
    u32::from(sqe.nlb()) + 1
}

// Whether a command reads or writes a buffer.
fn has_buffer(opcode: IoOpcode) -> bool
    ensures { result ≡ has_buffer opcode }
{
    !matches!(opcode, IoOpcode::Flush | IoOpcode::WriteZeroes)
}

// Whether a command names a range of blocks by SLBA and NLB.
fn has_blocks(opcode: IoOpcode) -> bool
    ensures { result ≡ has_blocks opcode }
{
    !matches!(opcode, IoOpcode::Flush | IoOpcode::DatasetManagement)
}

/// The length of a command's buffer in bytes.
pub fn transfer_len(opcode: IoOpcode, sqe: &Sqe) -> u32
    ensures { result ≡ transfer_len opcode sqe.now }
{
    match opcode {
        IoOpcode::Read | IoOpcode::Write | IoOpcode::Compare => BLOCK_SIZE as u32
            * block_count(sqe),
        IoOpcode::DatasetManagement => RANGE_SIZE as u32 * (u32::from(sqe.nr()) + 1),
        IoOpcode::Flush | IoOpcode::WriteZeroes => 0,
    }
}
