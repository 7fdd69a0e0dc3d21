//! Which bytes of a guest a plan names more than once.

use crate::watched::Watched;
use nv_entry::IoOpcode;
use nv_mem::{GuestMap, Piece};
use nv_plan::{Plan, PlanKind};

/// How often a bounced Write or Compare names a byte that it has named before: whoever carries it out copies that byte once more. Other plans read
/// no data of the guest. The marks of the memory are used for it, so a call begins after it.
pub fn named_again(plan: &Plan, watched: &Watched) -> u32 {
    if plan.kind() != PlanKind::Bounced || !reads_data(plan) {
        return 0;
    }
    watched.begin();
    let mut again: u32 = 0;
    for part in 0..plan.parts() {
        for piece in plan.part_places(part) {
            again = again.saturating_add(piece_named(piece, plan.map(), watched));
        }
    }
    again
}

// Whether a plan's command reads its bytes from the guest.
fn reads_data(plan: &Plan) -> bool {
    matches!(
        plan.job().sqe.io_opcode(),
        Some(IoOpcode::Write | IoOpcode::Compare)
    )
}

// How many bytes of a piece were named before.
fn piece_named(piece: &Piece, map: &GuestMap, watched: &Watched) -> u32 {
    let Piece::Run { addr, len } = *piece else {
        return 0;
    };
    let mut again: u32 = 0;
    for offset in 0..len {
        if let Some((host, _one)) = map.run(addr.wrapping_add(offset), 1) {
            again = again.saturating_add(watched.mark_read(host, 1));
        }
    }
    again
}
