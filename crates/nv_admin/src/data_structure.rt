//! The data structures that Identify shows. Each value is the project's own choice of what it reports (profile), and every byte that is
//! not named is 0.

ghost use Rattle.std.specs.Prelude.{◌≡◌, [], length, map, true};
ghost use Rattle.std.specs.List.{list_all};
ghost use Rattle.nv_entry.specs.Layout.{number_bytes};
ghost use Rattle.nv_mem.specs.Bytes.{after_store};
ghost use Rattle.nv_model.specs.Admin.{namespace_structure, structure};
ghost use Rattle.nv_model.specs.Limits.{page};
ghost use Rattle.nv_admin.specs.DataStructure.{content, field_bytes, is_field};

use nv_mem::PAGE_SIZE;

/// The bytes of a data structure.
pub(crate) const LEN: usize = PAGE_SIZE as usize;

/// A data structure of Identify.
#[derive(Clone, Copy)]
pub(crate) enum DataStructure {
    /// CNS 00h: the namespace, of so many blocks (NVM Command Set Specification 1.0, "Identify Namespace Data Structure")
    Namespace { blocks: u64 },
    /// CNS 01h: the controller (Base Specification 2.0, "Identify Controller Data Structure")
    Controller,
    /// CNS 02h: the active namespaces above this one (Base Specification 2.0, "Active Namespace ID list")
    ActiveNamespaces { above: u32 },
}

/// A field of a data structure: the byte where it begins, how many bytes it has (8 at most), and the number in it.
#[derive(Clone, Copy)]
pub(crate) struct Field {
    offset: usize,
    len: usize,
    value: u64,
}

/// The fields of the controller.
const CONTROLLER: [Field; 10] = [
    // MDTS: 32 pages of 4 KiB
    Field {
        offset: 77,
        len: 1,
        value: 0x05,
    },
    // VER: 2.0
    Field {
        offset: 80,
        len: 4,
        value: 0x0002_0000,
    },
    // CNTRLTYPE: an I/O controller
    Field {
        offset: 111,
        len: 1,
        value: 0x01,
    },
    // AERL: four event requests, counted from 0
    Field {
        offset: 259,
        len: 1,
        value: 0x03,
    },
    // SQES: submission queue entries of 64 bytes
    Field {
        offset: 512,
        len: 1,
        value: 0x66,
    },
    // CQES: completion queue entries of 16 bytes
    Field {
        offset: 513,
        len: 1,
        value: 0x44,
    },
    // NN: one namespace
    Field {
        offset: 516,
        len: 4,
        value: 1,
    },
    // ONCS: Compare, Dataset Management and Write Zeroes
    Field {
        offset: 520,
        len: 2,
        value: 0x000d,
    },
    // VWC: a volatile write cache is there, and Flush is not for all namespaces at once
    Field {
        offset: 525,
        len: 1,
        value: 0x05,
    },
    // SGLS: SGLs without alignment, and Bit Buckets
    Field {
        offset: 536,
        len: 4,
        value: 0x0001_0001,
    },
];

/// The fields of the first namespace in a list of active ones.
const NAMESPACE_1: [Field; 1] = [Field {
    offset: 0,
    len: 4,
    value: 1,
}];

impl DataStructure {
    /// Writes its bytes over zeros.
    pub(crate) fn write(self, bytes: &mut [u8])
        requires { bytes.old ≡ structure [] }
        ensures { bytes.new ≡ content self }
    {
        match self {
            DataStructure::Namespace { blocks } => write_fields(&namespace(blocks), bytes),
            DataStructure::Controller => write_fields(&CONTROLLER, bytes),
            DataStructure::ActiveNamespaces { above: 0 } => write_fields(&NAMESPACE_1, bytes),
            DataStructure::ActiveNamespaces { .. } => {}
        }
    }
}

// The fields of a namespace of so many blocks.
fn namespace(blocks: u64) -> [Field; 5]
    ensures content { structure (map field_bytes result) ≡ namespace_structure blocks }
    ensures fields { list_all is_field result ≡ true }
{
    [
        // NSZE, NCAP and NUSE
        Field {
            offset: 0,
            len: 8,
            value: blocks,
        },
        Field {
            offset: 8,
            len: 8,
            value: blocks,
        },
        Field {
            offset: 16,
            len: 8,
            value: blocks,
        },
        // DLFEAT: deallocated blocks read as zeros
        Field {
            offset: 33,
            len: 1,
            value: 0x01,
        },
        // LBAF0: blocks of 512 bytes, without metadata
        Field {
            offset: 128,
            len: 4,
            value: 0x0009_0000,
        },
    ]
}

// Writes fields over zeros. Where two meet, the one in front counts.
fn write_fields(fields: &[Field], bytes: &mut [u8])
    requires zeros { bytes.old ≡ structure [] }
    requires fields { list_all is_field fields.now ≡ true }
    ensures { bytes.new ≡ structure (map field_bytes fields.now) }
{
    let mut left = fields;
    while let Some((field, before)) = left.split_last() {
        field.write(bytes);
        left = before;
    }
}

impl Field {
    // Writes the field's number, the lowest byte first.
    fn write(&self, bytes: &mut [u8])
        requires field { is_field self.now ≡ true }
        requires page { length bytes.old ≡ page }
        ensures { bytes.new ≡ after_store bytes.old self.now.offset (number_bytes self.now.len self.now.value) }
    {
        let end = self.offset + self.len;
        bytes[self.offset..end].copy_from_slice(&self.value.to_le_bytes()[..self.len]);
    }
}
