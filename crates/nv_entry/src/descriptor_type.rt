//! The types of SGL descriptors that the mediator knows.

ghost use Rattle.std.specs.Prelude.{◌≡◌};

/// What an SGL descriptor names (Base Specification 2.0, "Scatter Gather List (SGL)").
#[derive(Clone, Copy, Debug, PartialEq, Eq)]
pub enum DescriptorType {
    /// 0h: bytes of the buffer
    DataBlock,
    /// 1h: bytes that are discarded
    BitBucket,
    /// 2h: an array of descriptors, after which more may follow
    Segment,
    /// 3h: the last array of descriptors
    LastSegment,
}

impl DescriptorType {
    ghost use Rattle.nv_entry.specs.Descriptor.{descriptor_type, type_code};

    /// The type of this code (0h to Fh), or `None` for every other code.
    pub fn of(code: u8) -> Option<Self>
        ensures { result ≡ descriptor_type code }
    {
        match code {
            0x0 => Some(DescriptorType::DataBlock),
            0x1 => Some(DescriptorType::BitBucket),
            0x2 => Some(DescriptorType::Segment),
            0x3 => Some(DescriptorType::LastSegment),
            _ => None,
        }
    }

    /// Its code.
    pub fn code(self) -> u8
        ensures value { result ≡ type_code self }
        ensures read_back { descriptor_type result ≡ Some self }
    {
        match self {
            DescriptorType::DataBlock => 0x0,
            DescriptorType::BitBucket => 0x1,
            DescriptorType::Segment => 0x2,
            DescriptorType::LastSegment => 0x3,
        }
    }
}
