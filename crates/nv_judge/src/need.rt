//! What the checks of a command's fields say that it needs.

/// What a command that its fields do not refuse needs: 0 or false where it has no such thing.
#[derive(Clone, Copy, Debug, PartialEq, Eq)]
pub struct Need {
    /// Whether its buffer is a destination: whether it is a Read.
    pub dest: bool,
    /// The length of its buffer in bytes.
    pub bytes: u32,
    /// The blocks of its LBA range.
    pub blocks: u32,
    /// Its FUA bit.
    pub fua: bool,
}
