//! Transfers over a flat memory of 40000h bytes, and what is built. 8,192 bytes are two pages, 12,288 three.
mod building;
mod named;
mod reading;

use crate::memory::whole_map;
use nv_mem::GuestMap;
use std::alloc::Global;
use std::process::Abort;

// The guest's memory is mapped to its end, and no further.
fn map(rt: &impl Abort, alloc: Global) -> GuestMap {
    whole_map(rt, alloc, 0x4_0000)
}
