//! Where the bytes of a data structure go.

ghost use Rattle.std.specs.Prelude.{◌≡◌, ◌<◌, IfOk, length, true};
ghost use Rattle.std.specs.Result.{result_err};
ghost use Rattle.nv_entry.specs.Submission.{prp1_of, prp2_of};
ghost use Rattle.nv_mem.specs.GuestMap.{everywhere, mapped};
ghost use Rattle.nv_mem.specs.Places.{places_of};
ghost use Rattle.nv_model.specs.Admin.{identify_reading};
ghost use Rattle.nv_model.specs.Limits.{page};
ghost use Rattle.nv_model.specs.Memory.{byte_in, image, put_image, scattered};
ghost use Rattle.nv_model.specs.Prp.{entry_fault};
ghost use Rattle.nv_admin.specs.PageBuffer.{IsInMap, pieces, reading_of};

use nv_entry::{Sqe, StatusCode};
use nv_mem::{GuestMap, MemoryCell, PAGE_SIZE};

/// What PRP1 must be a multiple of.
const DWORD: u64 = 4;

/// A buffer of one page, as PRP1 and PRP2 name it: its first bytes lie at PRP1, to the end of that page, and the others, if PRP1 has
/// an offset, at the page entry PRP2 (Base Specification 2.0, "Physical Region Page Entry and List").
#[derive(Clone, Copy)]
pub(crate) struct PageBuffer {
    prp1: u64,
    prp2: u64,
    first: usize,
}

impl PageBuffer {
    /// The buffer that a command names, or the first check that fails: each entry is checked for its offset, then for its bytes.
    pub(crate) fn of(sqe: &Sqe, map: &GuestMap) -> Result<Self, StatusCode>
        ensures reading { identify_reading (mapped map.now.regions) sqe.now ≡ reading_of result }
        ensures in_map { IfOk result (IsInMap (mapped map.now.regions)) }
    {
        let (prp1, prp2) = (sqe.prp1(), sqe.prp2());
        let offset = prp1 % PAGE_SIZE;
        let first = PAGE_SIZE - offset;
        check_entry(map, DWORD, prp1, first)?;
        if offset > 0 {
            check_entry(map, PAGE_SIZE, prp2, offset)?;
        }
        Ok(PageBuffer {
            prp1,
            prp2,
            first: first as usize,
        })
    }

    /// Stores a page of bytes there. No other byte of the guest's memory or of the host changes.
    pub(crate) fn store<C: MemoryCell>(self, bytes: &[u8], map: &GuestMap, host: &mut [C])
        requires host { map.now.host_len ≡ length (C.bytes host.old) }
        requires in_map { IsInMap (mapped map.now.regions) self }
        requires page { length bytes.now ≡ page }
        ensures bytes { let before = byte_in (C.bytes host.old) in
            byte_in (C.bytes host.new) ≡ put_image map.now.regions (scattered (image map.now.regions before) (places_of (pieces self)) bytes.now) before }
        ensures len { length (C.bytes host.new) ≡ length (C.bytes host.old) }
    {
        // With the length of the host comes what is known of every map.
        let _known = map.host_len();
        let (first, second) = bytes.split_at(self.first);
        nv_bounce::store(first, self.prp1, map, host);
        nv_bounce::store(second, self.prp2, map, host);
    }
}

// The checks of an entry whose address must be a multiple of `alignment`, and which represents `len` bytes there.
fn check_entry(map: &GuestMap, alignment: u64, addr: u64, len: u64) -> Result<(), StatusCode>
    requires { 0 < alignment }
    ensures fault { result_err result ≡ entry_fault (mapped map.now.regions) alignment addr len }
    ensures in_map { IfOk result (λ _. everywhere (mapped map.now.regions) addr len ≡ true) }
{
    if addr % alignment != 0 {
        return Err(StatusCode::PrpOffsetInvalid);
    }
    if !map.holds(addr, len) {
        return Err(StatusCode::DataTransferError);
    }
    Ok(())
}
