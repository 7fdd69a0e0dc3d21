//! A list that takes two reads.

use crate::memory::{DATA, LAST, run};
use crate::plan::guest::{Changes, Row};
use nv_mem::Piece;
use nv_plan::Plan;

/// A Read of two blocks by a Segment of two descriptors at 6000h that leads to a Last Segment of one.
pub const CHAIN: Changes = &[(6, 0x6000), (8, 32), (9, 0x2000_0000), (12, 1)];

pub const ROWS: &[Row] = &[(0x6010, LAST, 0x7000, 16), (0x7000, DATA, 0x3000, 1024)];

const FIRST_HALF: &[Piece] = &[run!(0x3000, 512)];

const SECOND_HALF: &[Piece] = &[run!(0x3200, 512)];

/// Whether a plan has the two halves as its parts, as it has over a join after the first block.
pub fn is_in_halves(plan: &Plan) -> bool {
    plan.parts() == 2 && plan.part_places(0) == FIRST_HALF && plan.part_places(1) == SECOND_HALF
}
