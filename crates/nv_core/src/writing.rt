//! What is written for a physical command: the list that names its transfer, what is in the bounce pages, and its entry.

ghost use Rattle.std.specs.Prelude.{◌≡◌, ◌+◌, ◌*◌, ◌<◌, ◌≤◌, List, [], ℕ, Some, false, length};
ghost use Rattle.std.specs.List.{flat_map};
ghost use Rattle.nv_core.specs.Submit.{HasRoom, IsPlaced};
ghost use Rattle.nv_entry.specs.Layout.{number_bytes};
ghost use Rattle.nv_entry.specs.Submission.{opcode_of};
ghost use Rattle.nv_mem.specs.GuestMap.{span_met};
ghost use Rattle.nv_model.specs.Limits.{most_bytes, range_size};
ghost use Rattle.nv_model.specs.Memory.{byte_in, stored};
ghost use Rattle.nv_plan.specs.Made.{IsJobsPlan, share_made, shares_made};
ghost use Rattle.nv_prp.specs.Built.{built};
ghost use Rattle.nv_world_model.specs.Area.{bounce_page, list_page, physical_entry, prps_of, ring_size};
ghost use Rattle.nv_world_model.specs.Geometry.{regions_of};
ghost use Rattle.nv_world_model.specs.Share.{Share};
ghost use Rattle.nv_world_model.specs.ShareArea.{is_no_command, own_bytes, own_dwords, share_written};

use crate::area::TagPlace;
use crate::physical_entry::{dwords, physical_entry};
use nv_entry::{IoOpcode, Range};
use nv_mem::MemoryCell;
use nv_model::limits::{MOST_ENTRIES, RANGE_SIZE};
use nv_plan::{Plan, PlanKind};
use nv_prp::Prps;

/// Writes the list, the source or the ranges, and the physical entry of a part of a plan, which goes to slot `at` of its lane's submission
/// ring.
///
/// The part is a physical command. Its tag's pages and the ring lie in the host, and outside of the memory of the guest that the plan was made
/// for.
pub(crate) fn write<C: MemoryCell>(plan: &Plan, part: u8, place: TagPlace, at: u16, host: &mut [C])
    requires part { part < length (shares_made plan.now) }
    requires some { (share : Share) → share_made part plan.now ≡ Some share → is_no_command share ≡ false }
    requires room { HasRoom place.mediator place.lane place.tag plan.now.given (C.bytes host.old) }
    requires at { at < ring_size }
    ensures bytes { (share : Share) → share_made part plan.now ≡ Some share →
        byte_in (C.bytes host.new) ≡
        share_written share plan.now.given plan.now.job.sqe place.mediator place.lane place.tag at (byte_in (C.bytes host.old)) }
    ensures len { length (C.bytes host.new) ≡ length (C.bytes host.old) }
{
    // The end of the host fits in 64 bits.
    let _known = C::len(host);
    let prps = prps_of(plan, part, place);
    store_numbers(&prps.list[..prps.used], place.list_page(), host);
    write_bounced(plan, part, place.bounce_page(), host);
    let entry = entry_of(plan, part, place.tag, &prps);
    C::store(host, place.submission_slot(at), &entry);
}

// What names the transfer of a part.
fn prps_of(plan: &Plan, part: u8, place: TagPlace) -> Prps
    requires part { part < length (shares_made plan.now) }
    requires some { (share : Share) → share_made part plan.now ≡ Some share → is_no_command share ≡ false }
    requires placed { IsPlaced place.mediator place.lane place.tag }
    ensures value { (share : Share) → share_made part plan.now ≡ Some share → result ≡ prps_of share.plan plan.now.given
        (list_page place.mediator place.lane place.tag) (bounce_page place.mediator place.lane place.tag) }
    ensures is_plan { IsJobsPlan plan.now }
{
    match plan.kind() {
        PlanKind::Answer(_) | PlanKind::NoData => nothing(),
        PlanKind::Direct => nv_prp::build(plan.map(), plan.part_places(part), place.list_page()),
        PlanKind::Bounced => nv_prp::build_run(
            place.bounce_page(),
            plan.part_len(part),
            place.list_page(),
        ),
    }
}

// What names a transfer of no bytes.
fn nothing() -> Prps
    ensures { (list : ℕ) → result ≡ built list [] }
{
    Prps {
        prp1: 0,
        prp2: 0,
        list: [0; MOST_ENTRIES],
        used: 0,
    }
}

// Writes what is in the bounce pages of a part: the bytes of a source, or the ranges of a Dataset Management as the disk has them.
fn write_bounced<C: MemoryCell>(plan: &Plan, part: u8, bounce: u64, host: &mut [C])
    requires part { part < length (shares_made plan.now) }
    requires host { plan.now.given.memory_map.host_len ≡ length (C.bytes host.old) }
    requires inside { bounce + most_bytes ≤ length (C.bytes host.old) }
    requires apart { span_met (regions_of plan.now.given) bounce most_bytes ≡ false }
    ensures bytes { (share : Share) → share_made part plan.now ≡ Some share → let before = byte_in (C.bytes host.old) in
        byte_in (C.bytes host.new) ≡ stored before bounce (own_bytes share.plan plan.now.given.namespace plan.now.given before) }
    ensures len { length (C.bytes host.new) ≡ length (C.bytes host.old) }
{
    let PlanKind::Bounced = plan.kind() else {
        return;
    };
    let Some(opcode) = plan.job().sqe.io_opcode() else {
        return;
    };
    match opcode {
        IoOpcode::Write | IoOpcode::Compare => {
            nv_bounce::gather(plan.part_places(part), plan.map(), host, bounce);
        }
        IoOpcode::DatasetManagement => store_ranges(plan.part_ranges(part), bounce, host),
        IoOpcode::Read | IoOpcode::Flush | IoOpcode::WriteZeroes => {}
    }
}

// The physical entry of a part.
fn entry_of(plan: &Plan, part: u8, tag: u8, prps: &Prps) -> [u8; 64]
    requires part { part < length (shares_made plan.now) }
    requires some { (share : Share) → share_made part plan.now ≡ Some share → is_no_command share ≡ false }
    ensures { (share : Share) → share_made part plan.now ≡ Some share →
        result ≡ physical_entry (opcode_of plan.now.job.sqe) tag prps.now
        (own_dwords share.plan plan.now.given.namespace plan.now.job.sqe) }
{
    let sqe = &plan.job().sqe;
    let Some(opcode) = sqe.io_opcode() else {
        unreachable!()
    };
    physical_entry(sqe.opcode(), tag, prps, dwords(opcode, plan, part))
}

// Stores numbers of 64 bits from host address `at` on.
fn store_numbers<C: MemoryCell>(numbers: &[u64], at: u64, host: &mut [C])
    requires { at + 8 * length numbers.now ≤ length (C.bytes host.old) }
    ensures bytes { byte_in (C.bytes host.new) ≡ stored (byte_in (C.bytes host.old)) at (flat_map (number_bytes 8) numbers.now) }
    ensures len { length (C.bytes host.new) ≡ length (C.bytes host.old) }
{
    // The end of the host fits in 64 bits.
    let _known = C::len(host);
    let mut at = at;
    for number in numbers {
        C::store(host, at, &number.to_le_bytes());
        at += 8;
    }
}

// Stores ranges from host address `at` on.
fn store_ranges<C: MemoryCell>(ranges: &[Range], at: u64, host: &mut [C])
    requires { at + range_size * length ranges.now ≤ length (C.bytes host.old) }
    ensures bytes { byte_in (C.bytes host.new) ≡ stored (byte_in (C.bytes host.old)) at (flat_map (λ (r : List ℕ). r) ranges.now) }
    ensures len { length (C.bytes host.new) ≡ length (C.bytes host.old) }
{
    // The end of the host fits in 64 bits.
    let _known = C::len(host);
    let mut at = at;
    for range in ranges {
        C::store(host, at, &range.bytes());
        at += RANGE_SIZE as u64;
    }
}
