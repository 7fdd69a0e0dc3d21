//! Entries of a submission queue: what they say, their dwords and their bytes.

ghost use Rattle.std.specs.Prelude.{◌≡◌, slice_index, slice_range};
ghost use Rattle.nv_entry.specs.Layout.{bytes_of_dwords};

use byteorder::{ByteOrder, LittleEndian};

/// The dwords of the entry of an I/O command: its dword 0, the data pointer, and CDW10 to CDW12; the namespace is 1.
#[macro_export]
macro_rules! io_entry {
    ($head:expr, [$first:expr, $second:expr, $third:expr, $fourth:expr], [$cdw10:expr, $cdw11:expr, $cdw12:expr]) => {
        [
            $head, 1, 0, 0, 0, 0, $first, $second, $third, $fourth, $cdw10, $cdw11, $cdw12, 0, 0, 0,
        ]
    };
}

/// What the entry of an I/O command says, but for its identifier; the namespace is 1.
#[derive(Clone, Copy)]
pub struct Fields {
    /// dword 0 without the identifier: the opcode, FUSE and PSDT
    pub opcode: u32,
    /// the data pointer, dwords 6 to 9
    pub data: [u32; 4],
    /// CDW10 to CDW12
    pub dwords: [u32; 3],
}

impl Fields {
    /// The dwords of the entry with that identifier.
    pub fn entry(&self, identifier: u16) -> [u32; 16]
        ensures namespace { slice_index result 1 ≡ 1 }
        ensures data { slice_range result 6 10 ≡ self.now.data }
        ensures dwords { slice_range result 10 13 ≡ self.now.dwords }
    {
        let [first, second, third, fourth] = self.data;
        let [cdw10, cdw11, cdw12] = self.dwords;
        let head = self.opcode | u32::from(identifier) << 16;
        io_entry!(head, [first, second, third, fourth], [cdw10, cdw11, cdw12])
    }
}

/// The bytes of an entry with these dwords, in their order, of each the lowest first.
#[tactic(auto, unfolding(nv_entry::specs::Layout::bytes_of_dwords))]
pub fn bytes_of(dwords: &[u32; 16]) -> [u8; 64]
    ensures { result ≡ bytes_of_dwords dwords.now }
{
    let mut bytes = [0; 64];
    LittleEndian::write_u32_into(dwords, &mut bytes);
    bytes
}
