//! Where a byte of a command lies among its pieces, of which all between the first and the last are pages.

ghost use Rattle.std.specs.Prelude.{◌≡◌, ◌≤◌, ◌^◌, drop, length};
ghost use Rattle.nv_mem.specs.Places.{places_of};
ghost use Rattle.nv_disk.specs.Buffer.{AreBelow};
ghost use Rattle.nv_device.specs.Pages.{ArePaged};

use nv_disk::Buffer;
use nv_mem::{PAGE_SIZE, Piece, len_of};

/// What is left of the pieces after the first `count` of their bytes. It takes the same time however many pages these are on.
pub(crate) fn buffer_behind(pieces: &[Piece], count: u64) -> Buffer<'_>
    requires paged { ArePaged pieces.now }
    requires in_range { AreBelow (2 ^ 64) (places_of pieces.now) }
    ensures { result ≡ drop count (places_of pieces.now) }
{
    let (passed, left) = pieces_passed(pieces, count);
    let (_, behind) = pieces.split_at(passed);
    let mut buffer = Buffer::of(behind);
    buffer.skip(left);
    buffer
}

/// How many pieces are before the end of the first `count` bytes, where these end on a page, and how many of the bytes are in the pieces after
/// that.
fn pieces_passed(pieces: &[Piece], count: u64) -> (usize, u64)
    requires { ArePaged pieces.now }
    ensures there { result.0 ≤ length pieces.now }
    ensures behind { drop result.1 (places_of (drop result.0 pieces.now)) ≡ drop count (places_of pieces.now) }
{
    let Some((first, pages)) = pieces.split_first() else {
        return (0, count);
    };
    let first_len = len_of(first);
    if count < first_len {
        return (0, count);
    }
    let behind = count - first_len;
    let passed = behind / PAGE_SIZE;
    if passed >= pages.len() as u64 {
        return (0, count);
    }
    (1 + passed as usize, behind % PAGE_SIZE)
}
