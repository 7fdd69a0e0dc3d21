//! Entries, descriptors and lists of commands, as the bytes that a guest stores.

use nv_mem::NoMemory;
use std::alloc::Global;

/// Opcodes of I/O commands.
pub const FLUSH: u32 = 0x00;

pub const WRITE: u32 = 0x01;

pub const READ: u32 = 0x02;

pub const COMPARE: u32 = 0x05;

pub const WRITE_ZEROES: u32 = 0x08;

pub const DATASET_MANAGEMENT: u32 = 0x09;

/// Opcodes of admin commands.
pub const CREATE_SUBMISSION_QUEUE: u32 = 0x01;

pub const CREATE_COMPLETION_QUEUE: u32 = 0x05;

/// The bits of dword 0 by which the data pointer is a descriptor.
pub const SGL: u32 = 0x4000;

/// The bit of dword 12 by which blocks are kept: FUA.
pub const FUA: u32 = 0x4000_0000;

/// The bit of dword 11 by which a Dataset Management deallocates.
pub const DEALLOCATE: u32 = 4;

/// Kinds of descriptors.
pub const DATA: u32 = 0x0000_0000;

pub const BUCKET: u32 = 0x1000_0000;

pub const SEGMENT: u32 = 0x2000_0000;

pub const LAST_SEGMENT: u32 = 0x3000_0000;

/// A kind of descriptor that there is none of.
pub const NO_KIND: u32 = 0x4000_0000;

/// The low and the high half of a number.
pub fn halves(number: u64) -> (u32, u32) {
    ((number % 0x1_0000_0000) as u32, (number >> 32) as u32)
}

/// What an I/O command says.
#[derive(Clone, Copy, Debug)]
pub struct Command {
    /// its opcode, with the kind of its data pointer
    pub operation: u32,
    /// both halves of its data pointer
    pub pointer: (u64, u64),
    /// its first block
    pub start: u64,
    /// dword 12: how many blocks less one, and FUA; of a Dataset Management it is in dword 10, how many ranges less one
    pub count: u32,
}

/// The entry of an I/O command, under an identifier.
pub fn entry(alloc: Global, command: &Command, identifier: u64) -> Result<Vec<u8>, NoMemory> {
    let (low, high) = halves(command.start);
    let (first, second, third) = if command.operation % 0x100 == DATASET_MANAGEMENT {
        (command.count, DEALLOCATE, 0)
    } else {
        (low, high, command.count)
    };
    dwords(
        alloc,
        command.operation | halves(identifier % 0x1_0000).0.wrapping_shl(16),
        1,
        command.pointer,
        [first, second, third],
    )
}

/// The entry of an admin command that makes a queue 1, under an identifier.
pub fn admin_entry(
    alloc: Global,
    opcode: u32,
    identifier: u32,
    addr: u64,
    slots: u32,
    flags: u32,
) -> Result<Vec<u8>, NoMemory> {
    dwords(
        alloc,
        opcode | identifier.wrapping_shl(16),
        0,
        (addr, 0),
        [slots.wrapping_sub(1).wrapping_shl(16) | 1, flags, 0],
    )
}

// The 64 bytes of an entry.
fn dwords(
    alloc: Global,
    first: u32,
    namespace: u32,
    pointer: (u64, u64),
    last: [u32; 3],
) -> Result<Vec<u8>, NoMemory> {
    let mut bytes = Vec::with_capacity(alloc, 64)?;
    bytes.extend_from_slice(&first.to_le_bytes())?;
    bytes.extend_from_slice(&namespace.to_le_bytes())?;
    bytes.extend_from_slice(&[0; 16])?;
    bytes.extend_from_slice(&pointer.0.to_le_bytes())?;
    bytes.extend_from_slice(&pointer.1.to_le_bytes())?;
    for dword in last {
        bytes.extend_from_slice(&dword.to_le_bytes())?;
    }
    bytes.extend_from_slice(&[0; 12])?;
    Ok(bytes)
}

/// The second half of a descriptor: its length and its kind.
pub fn length_and_kind(len: u64, kind: u32) -> u64 {
    len % 0x1_0000_0000 | u64::from(kind).wrapping_shl(32)
}

/// Appends a descriptor to a list.
pub fn push_descriptor(list: &mut Vec<u8>, addr: u64, len: u64, kind: u32) -> Result<(), NoMemory> {
    list.extend_from_slice(&addr.to_le_bytes())?;
    list.extend_from_slice(&length_and_kind(len, kind).to_le_bytes())?;
    Ok(())
}

/// Appends the address of a page to a list.
pub fn push_page(list: &mut Vec<u8>, addr: u64) -> Result<(), NoMemory> {
    list.extend_from_slice(&addr.to_le_bytes())?;
    Ok(())
}

/// Appends a range of blocks to a list.
pub fn push_range(list: &mut Vec<u8>, start: u64, blocks: u64) -> Result<(), NoMemory> {
    list.extend_from_slice(&[0; 4])?;
    list.extend_from_slice(&halves(blocks).0.to_le_bytes())?;
    list.extend_from_slice(&start.to_le_bytes())?;
    Ok(())
}
