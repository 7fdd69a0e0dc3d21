//! Dwords to bytes and back, and the bits of a dword.

ghost use Rattle.std.specs.Prelude.{◌≡◌, ◌<◌, ◌≤◌, ◌+◌, ◌-◌, ◌*◌, ◌^◌, length};
ghost use Rattle.nv_entry.specs.Layout.{AreDwords, bits as field, bytes_of_dwords};

use byteorder::{ByteOrder, LittleEndian};

/// The dwords that these bytes spell.
pub(crate) fn read(bytes: &[u8], dwords: &mut [u32])
    requires { length bytes.now ≡ 4 * length dwords.old }
    ensures spelled { bytes_of_dwords dwords.new ≡ bytes.now }
    ensures dwords { AreDwords (length dwords.old) dwords.new }
{
    LittleEndian::read_u32_into(bytes, dwords);
}

/// The bytes of these dwords.
#[tactic(auto, unfolding(crate::specs::Layout::bytes_of_dwords))]
pub(crate) fn write(dwords: &[u32], bytes: &mut [u8])
    requires { length bytes.old ≡ 4 * length dwords.now }
    ensures { bytes.new ≡ bytes_of_dwords dwords.now }
{
    LittleEndian::write_u32_into(dwords, bytes);
}

/// Bits `high` to `low` of a dword, as a number.
pub(crate) fn bits(dword: u32, high: u32, low: u32) -> u32
    requires ordered { low ≤ high }
    requires in_dword { high < 32 }
    ensures value { result ≡ field dword high low }
    ensures fits { result < 2 ^ (high + 1 - low) }
{
    (dword >> low) & (u32::MAX >> (31 - (high - low)))
}

/// Two dwords as one number.
pub(crate) fn join(low: u32, high: u32) -> u64
    ensures { result ≡ low + 2 ^ 32 * high }
{
    u64::from(low) | (u64::from(high) << 32)
}

/// Two halves of a dword as one number.
pub(crate) fn pair(low: u16, high: u16) -> u32
    ensures { result ≡ low + 2 ^ 16 * high }
{
    u32::from(low) | (u32::from(high) << 16)
}
