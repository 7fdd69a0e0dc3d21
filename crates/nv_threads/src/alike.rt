//! Whether two acts, or two replies, are the same.

ghost use Rattle.std.specs.Prelude.{◌≡◌, ◌↔◌, IsTrue};

use nv_mem::{BoxedBytes, Bytes};
use nv_model::{Act, Reply};

/// Whether two acts are the same.
pub fn same_act(a: &Act, b: &Act) -> bool
    ensures { IsTrue result ↔ (a.now ≡ b.now) }
{
    match a {
        Act::Store { addr, bytes } => is_store(b, *addr, bytes),
        Act::Load { addr, len } => is_load(b, *addr, *len),
        Act::RegRead { offset } => is_reg_read(b, *offset),
        Act::RegWrite { offset, value } => is_reg_write(b, *offset, *value),
        Act::Doorbell { offset, value } => is_doorbell(b, *offset, *value),
    }
}

// Whether an act stores these bytes there.
fn is_store(b: &Act, addr: u64, bytes: &BoxedBytes) -> bool
    ensures { IsTrue result ↔ (Act.Store addr bytes.now ≡ b.now) }
{
    match b {
        Act::Store {
            addr: at,
            bytes: stored,
        } => addr == *at && bytes.as_slice() == stored.as_slice(),
        Act::Load { addr: _, len: _ } => false,
        Act::RegRead { offset: _ } => false,
        Act::RegWrite {
            offset: _,
            value: _,
        } => false,
        Act::Doorbell {
            offset: _,
            value: _,
        } => false,
    }
}

// Whether an act loads so many bytes from there.
fn is_load(b: &Act, addr: u64, len: u64) -> bool
    ensures { IsTrue result ↔ (Act.Load addr len ≡ b.now) }
{
    match b {
        Act::Store { addr: _, bytes: _ } => false,
        Act::Load {
            addr: at,
            len: count,
        } => addr == *at && len == *count,
        Act::RegRead { offset: _ } => false,
        Act::RegWrite {
            offset: _,
            value: _,
        } => false,
        Act::Doorbell {
            offset: _,
            value: _,
        } => false,
    }
}

// Whether an act reads that register.
fn is_reg_read(b: &Act, offset: u32) -> bool
    ensures { IsTrue result ↔ (Act.RegRead offset ≡ b.now) }
{
    match b {
        Act::Store { addr: _, bytes: _ } => false,
        Act::Load { addr: _, len: _ } => false,
        Act::RegRead { offset: at } => offset == *at,
        Act::RegWrite {
            offset: _,
            value: _,
        } => false,
        Act::Doorbell {
            offset: _,
            value: _,
        } => false,
    }
}

// Whether an act writes that into that register.
fn is_reg_write(b: &Act, offset: u32, value: u32) -> bool
    ensures { IsTrue result ↔ (Act.RegWrite offset value ≡ b.now) }
{
    match b {
        Act::Store { addr: _, bytes: _ } => false,
        Act::Load { addr: _, len: _ } => false,
        Act::RegRead { offset: _ } => false,
        Act::RegWrite {
            offset: at,
            value: written,
        } => offset == *at && value == *written,
        Act::Doorbell {
            offset: _,
            value: _,
        } => false,
    }
}

// Whether an act writes that into that doorbell.
fn is_doorbell(b: &Act, offset: u32, value: u32) -> bool
    ensures { IsTrue result ↔ (Act.Doorbell offset value ≡ b.now) }
{
    match b {
        Act::Store { addr: _, bytes: _ } => false,
        Act::Load { addr: _, len: _ } => false,
        Act::RegRead { offset: _ } => false,
        Act::RegWrite {
            offset: _,
            value: _,
        } => false,
        Act::Doorbell {
            offset: at,
            value: written,
        } => offset == *at && value == *written,
    }
}

// Whether these are the same bytes.
fn same_bytes(a: &Bytes, b: &Bytes) -> bool
    ensures { IsTrue result ↔ (a.now ≡ b.now) }
{
    a.as_slice() == b.as_slice()
}

/// Whether two replies are the same.
pub(crate) fn same_reply(a: &Reply, b: &Reply) -> bool
    ensures { IsTrue result ↔ (a.now ≡ b.now) }
{
    match a {
        Reply::Bytes(bytes) => are_bytes(b, bytes),
        Reply::Done => matches!(b, Reply::Done),
        Reply::Idle => matches!(b, Reply::Idle),
        Reply::Busy => matches!(b, Reply::Busy),
        Reply::Held => matches!(b, Reply::Held),
        Reply::Stale => matches!(b, Reply::Stale),
        Reply::Unmapped => matches!(b, Reply::Unmapped),
        Reply::Ignored => matches!(b, Reply::Ignored),
        Reply::NoMemory => matches!(b, Reply::NoMemory),
    }
}

// Whether a reply is these bytes.
fn are_bytes(b: &Reply, bytes: &Bytes) -> bool
    ensures { IsTrue result ↔ (Reply.Bytes bytes.now ≡ b.now) }
{
    match b {
        Reply::Done => false,
        Reply::Bytes(told) => same_bytes(bytes, told),
        Reply::Idle => false,
        Reply::Busy => false,
        Reply::Held => false,
        Reply::Stale => false,
        Reply::Unmapped => false,
        Reply::Ignored => false,
        Reply::NoMemory => false,
    }
}
