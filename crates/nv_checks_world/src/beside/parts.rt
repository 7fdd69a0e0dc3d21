//! How many tags a command takes, by the rules alone: one for each extent that its blocks meet, and of a Dataset Management one for each extent
//! that there is; a Flush takes one, and so does what its fields refuse.

use nv_bringup::{BLOCKS, Span};
use nv_entry::{IoOpcode, Sqe};
use nv_model::limits::MOST_COMMAND_BLOCKS;

/// How many tags a command takes of a guest with these extents.
pub fn tags_of(sqe: &Sqe, spans: &[Span]) -> u8 {
    let Some(opcode) = sqe.io_opcode() else {
        return 1;
    };
    if sqe.fuse() != 0 || sqe.nsid() != 1 {
        return 1;
    }
    let has_list = sqe.psdt() != 3;
    match opcode {
        IoOpcode::Flush => 1,
        IoOpcode::WriteZeroes => met(sqe, spans),
        IoOpcode::DatasetManagement if has_list => spans.len().min(8) as u8,
        IoOpcode::Read | IoOpcode::Write | IoOpcode::Compare
            if has_list && u32::from(sqe.nlb()) < MOST_COMMAND_BLOCKS => { met(sqe, spans) }
        _ => 1,
    }
}

// How many extents its blocks meet; one where it leaves the namespace.
fn met(sqe: &Sqe, spans: &[Span]) -> u8 {
    let first = sqe.slba();
    let count = u64::from(sqe.nlb()) + 1;
    if count > BLOCKS || first > BLOCKS - count {
        return 1;
    }
    let mut before = 0u64;
    let mut met = 0u8;
    for span in spans {
        let behind = before.wrapping_add(span.blocks);
        if first.max(before) < (first + count).min(behind) {
            met = met.wrapping_add(1);
        }
        before = behind;
    }
    met
}
