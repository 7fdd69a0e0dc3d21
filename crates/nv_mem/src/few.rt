//! A few bytes in place.

ghost use Rattle.std.specs.Prelude.{◌≡◌, ◌≤◌, length, take};

/// How many bytes are stored in a value of [`crate::Bytes`] itself, at most.
pub const FEW: usize = 7;

/// So many bytes, the first of these: one word together, which a copy loads and stores at once.
#[derive(Debug, Drop)]
pub(crate) struct Few {
    len: u8,
    bytes: [u8; FEW],
    // Of no length: it gives the value the alignment of a word.
    place: [u64; 0],
    ghost in_range: { len ≤ 7 },
}

impl Few {
    /// As many bytes as there are.
    pub(crate) fn of(bytes: &[u8]) -> Self
        requires { length bytes.now ≤ 7 }
        ensures { take result.len result.bytes ≡ bytes.now }
    {
        let mut few = [0; FEW];
        few[..bytes.len()].copy_from_slice(bytes);
        Few {
            len: bytes.len() as u8,
            bytes: few,
            place: [],
        }
    }

    /// The bytes.
    pub(crate) fn as_slice(&self) -> &[u8]
        ensures { result.now ≡ take self.now.len self.now.bytes }
    {
        &self.bytes[..usize::from(self.len)]
    }
}
