//! The 64 bytes of a physical command.

ghost use Rattle.std.specs.Prelude.{◌≡◌, ◌+◌, ◌-◌, ◌*◌, ◌/◌, ◌%◌, ◌^◌, ◌<◌, ◌∷◌, ◌++◌, [], Some, false, length, true};
ghost use Rattle.nv_entry.specs.Layout.{bytes_of_dwords};
ghost use Rattle.nv_entry.specs.Opcode.{io_opcode};
ghost use Rattle.nv_entry.specs.Status.{bit};
ghost use Rattle.nv_entry.specs.Submission.{deallocate_of, opcode_of};
ghost use Rattle.nv_model.specs.Judge.{has_blocks, is_fua};
ghost use Rattle.nv_plan.specs.Made.{IsJobsPlan, share_made, shares_made};
ghost use Rattle.nv_world_model.specs.Area.{physical_entry, two_dwords};
ghost use Rattle.nv_world_model.specs.Share.{Share};
ghost use Rattle.nv_world_model.specs.ShareArea.{is_no_command, own_dwords};

use byteorder::{ByteOrder, LittleEndian};
use nv_entry::{IoOpcode, Sqe};
use nv_plan::Plan;
use nv_prp::Prps;

/// The physical namespace that holds every guest's blocks.
const NAMESPACE: u32 = 1;

/// The bits of a dword.
const DWORD: u64 = 1 << 32;

/// FUA, bit 30 of CDW12.
const FUA: u32 = 1 << 30;

/// AD, bit 2 of CDW11.
const DEALLOCATE: u32 = 1 << 2;

/// The 64 bytes of a physical command: the guest's opcode, FUSE and PSDT 0, the tag as command identifier, namespace 1, the PRPs, and
/// CDW10 to CDW12. All else is zero.
pub(crate) fn physical_entry(opcode: u8, tag: u8, prps: &Prps, dwords: [u32; 3]) -> [u8; 64]
    requires { length dwords ≡ 3 }
    ensures { result ≡ physical_entry opcode tag prps.now dwords }
{
    let entry = [
        u32::from(opcode) + (u32::from(tag) << 16),
        NAMESPACE,
        0,
        0,
        0,
        0,
        low(prps.prp1),
        high(prps.prp1),
        low(prps.prp2),
        high(prps.prp2),
        dwords[0],
        dwords[1],
        dwords[2],
        0,
        0,
        0,
    ];
    let mut bytes = [0; 64];
    write(&entry, &mut bytes);
    bytes
}

/// CDW10 to CDW12 of a part of a plan for a guest's command of that opcode: the block on the disk with NLB and FUA; or NR and deallocate; or
/// nothing.
pub(crate) fn dwords(opcode: IoOpcode, plan: &Plan, part: u8) -> [u32; 3]
    requires is_plan { IsJobsPlan plan.now }
    requires opcode { io_opcode (opcode_of plan.now.job.sqe) ≡ Some opcode }
    requires part { part < length (shares_made plan.now) }
    requires some { (share : Share) → share_made part plan.now ≡ Some share → is_no_command share ≡ false }
    ensures { (share : Share) → share_made part plan.now ≡ Some share →
        result ≡ own_dwords share.plan plan.now.given.namespace plan.now.job.sqe }
{
    match opcode {
        IoOpcode::Read | IoOpcode::Write | IoOpcode::Compare | IoOpcode::WriteZeroes => {
            block_dwords(plan, part)
        }
        IoOpcode::DatasetManagement => range_dwords(plan, part),
        IoOpcode::Flush => [0; 3],
    }
}

// The block on the disk at which a part's blocks begin, with its NLB and the command's FUA.
fn block_dwords(plan: &Plan, part: u8) -> [u32; 3]
    requires opcode { (opcode : IoOpcode) → io_opcode (opcode_of plan.now.job.sqe) ≡ Some opcode → has_blocks opcode ≡ true }
    requires part { part < length (shares_made plan.now) }
    ensures { (share : Share) → share_made part plan.now ≡ Some share →
        result ≡ own_dwords share.plan plan.now.given.namespace plan.now.job.sqe }
{
    let blocks = plan.part_blocks(part);
    let start = blocks.start();
    let nlb = (blocks.count() - 1) as u32;
    let sqe = &plan.job().sqe;
    [low(start), high(start), count_dword(nlb, sqe)]
}

// The number of a part's ranges, with the command's deallocate.
fn range_dwords(plan: &Plan, part: u8) -> [u32; 3]
    requires opcode { io_opcode (opcode_of plan.now.job.sqe) ≡ Some IoOpcode.DatasetManagement }
    requires part { part < length (shares_made plan.now) }
    requires some { (share : Share) → share_made part plan.now ≡ Some share → is_no_command share ≡ false }
    ensures { (share : Share) → share_made part plan.now ≡ Some share →
        result ≡ own_dwords share.plan plan.now.given.namespace plan.now.job.sqe }
{
    let ranges = plan.part_ranges(part);
    let nr = (ranges.len() - 1) as u32;
    [nr, deallocate_dword(&plan.job().sqe), 0]
}

// NLB and FUA.
fn count_dword(nlb: u32, sqe: &Sqe) -> u32
    requires { nlb < 2 ^ 16 }
    ensures { result ≡ nlb + 2 ^ 30 * bit (is_fua sqe.now) }
{
    if sqe.fua() { nlb + FUA } else { nlb }
}

// AD.
fn deallocate_dword(sqe: &Sqe) -> u32
    ensures { result ≡ 4 * deallocate_of sqe.now }
{
    if sqe.deallocate() { DEALLOCATE } else { 0 }
}

// The low dword of a number.
fn low(number: u64) -> u32
    ensures { result ≡ number % 2 ^ 32 }
{
    (number % DWORD) as u32
}

// The high dword of a number.
fn high(number: u64) -> u32
    ensures { result ≡ number / 2 ^ 32 }
{
    (number / DWORD) as u32
}

// The bytes of dwords.
fn write(dwords: &[u32], bytes: &mut [u8])
    requires { length bytes.old ≡ 4 * length dwords.now }
    ensures { bytes.new ≡ bytes_of_dwords dwords.now }
{
    LittleEndian::write_u32_into(dwords, bytes);
}
