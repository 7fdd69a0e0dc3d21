//! Acts in a guest's seat: on its part of the host and on its controller.

ghost use Rattle.std.specs.Prelude.{◌≡◌, ◌<◌, ◌≤◌, ℕ, IfOk, OnErr, length, true};
ghost use Rattle.nv_core.specs.Seat.{IsActed, IsLoaded};
ghost use Rattle.nv_mem.specs.GuestMap.{everywhere, mapped};
ghost use Rattle.nv_model.specs.Controller.{Controller};
ghost use Rattle.nv_model.specs.Memory.{byte_in, bytes_from, image};

use crate::layout::Grant;
use nv_mem::{Bytes, FEW, MemoryCell, NoMemory};
use nv_model::{Act, Reply};
use nv_vctl::Vctl;
use std::alloc::Global;

/// Stores bytes from guest address `addr` on.
pub(crate) fn store<C: MemoryCell>(given: &Grant, addr: u64, bytes: &[u8], host: &mut [C]) -> Reply
    requires { given.now.memory_map.host_len ≡ length (C.bytes host.old) }
    ensures acted { (c : Controller) → IsActed given.now (Act.Store addr bytes.now) (byte_in (C.bytes host.old)) c result (byte_in (C.bytes host.new)) c }
    ensures len { length (C.bytes host.new) ≡ length (C.bytes host.old) }
{
    // With the length of the host comes what is known of every map.
    let map = given.map();
    let _known = map.host_len();
    if !map.holds(addr, bytes.len() as u64) {
        return Reply::Unmapped;
    }
    nv_bounce::store(bytes, addr, map, host);
    Reply::Done
}

/// Loads `len` bytes from guest address `addr` on.
pub(crate) fn load<C: MemoryCell>(
    alloc: Global,
    given: &Grant,
    addr: u64,
    len: u64,
    host: &[C],
) -> Result<Reply, NoMemory>
    requires { given.now.memory_map.host_len ≡ length (C.bytes host.now) }
    ensures ok { IfOk result (λ reply. (c : Controller) → IsActed given.now (Act.Load addr len) (byte_in (C.bytes host.now)) c reply (byte_in (C.bytes host.now)) c) }
    ensures err { OnErr result (7 < len) }
{
    // With the length of the host comes what is known of every map.
    let map = given.map();
    let _known = map.host_len();
    if !map.holds(addr, len) {
        return Ok(Reply::Unmapped);
    }
    let bytes = read_bytes(alloc, given, addr, len, host)?;
    Ok(Reply::Bytes(bytes))
}

/// Loads as many bytes from guest address `addr` on as there is room for. They take no memory.
pub(crate) fn load_into<C: MemoryCell>(
    given: &Grant,
    addr: u64,
    room: &mut [u8],
    host: &[C],
) -> Reply
    requires { given.now.memory_map.host_len ≡ length (C.bytes host.now) }
    ensures { (c : Controller) → let load = Act.Load addr (length room.old) in
        IsLoaded (λ reply. IsActed given.now load (byte_in (C.bytes host.now)) c reply (byte_in (C.bytes host.now)) c) result room.old room.new }
{
    // With the length of the host comes what is known of every map.
    let map = given.map();
    let _known = map.host_len();
    if !map.holds(addr, room.len() as u64) {
        return Reply::Unmapped;
    }
    nv_bounce::load(addr, map, host, room);
    Reply::Done
}

/// The `len` bytes from guest address `addr` on, which are mapped.
pub(crate) fn read_bytes<C: MemoryCell>(
    alloc: Global,
    given: &Grant,
    addr: u64,
    len: u64,
    host: &[C],
) -> Result<Bytes, NoMemory>
    requires host { given.now.memory_map.host_len ≡ length (C.bytes host.now) }
    requires mapped { everywhere (mapped given.now.memory_map.regions) addr len ≡ true }
    ensures ok { IfOk result (λ bytes. bytes ≡ bytes_from (image given.now.memory_map.regions (byte_in (C.bytes host.now))) addr len) }
    ensures err { OnErr result (7 < len) }
{
    if len <= FEW as u64 {
        let mut room = [0; FEW];
        return Ok(read_few(given, addr, host, &mut room[..len as usize]));
    }
    let mut bytes = vec![in alloc; 0; len as usize]?;
    nv_bounce::load(addr, given.map(), host, &mut bytes);
    Bytes::new(alloc, bytes)
}

// As many bytes from guest address `addr` on as there is room, which are mapped, and few. They take no memory.
fn read_few<C: MemoryCell>(given: &Grant, addr: u64, host: &[C], room: &mut [u8]) -> Bytes
    requires host { given.now.memory_map.host_len ≡ length (C.bytes host.now) }
    requires mapped { everywhere (mapped given.now.memory_map.regions) addr (length room.old) ≡ true }
    requires few { length room.old ≤ 7 }
    ensures { result ≡ bytes_from (image given.now.memory_map.regions (byte_in (C.bytes host.now))) addr (length room.old) }
{
    nv_bounce::load(addr, given.map(), host, room);
    Bytes::few(room)
}

/// Reads the dword of the register at an offset.
pub(crate) fn read_register(given: &Grant, vctl: &Vctl, offset: u32) -> Reply
    ensures { (host : ℕ → ℕ) → IsActed given.now (Act.RegRead offset) host vctl.now result host vctl.now }
{
    // With the length of the host comes what is known of every map.
    let map = given.map();
    let _known = map.host_len();
    let Some(value) = vctl.reg_read(offset) else {
        return Reply::Ignored;
    };
    Reply::Bytes(Bytes::few(&value.to_le_bytes()))
}

/// Writes the dword of the register at an offset.
pub(crate) fn write_register(given: &Grant, vctl: &mut Vctl, offset: u32, value: u32) -> Reply
    ensures { (host : ℕ → ℕ) → IsActed given.now (Act.RegWrite offset value) host vctl.old result host vctl.new }
{
    // With the length of the host comes what is known of every map.
    let map = given.map();
    let _known = map.host_len();
    if vctl.reg_write(offset, value, map) {
        Reply::Done
    } else {
        Reply::Ignored
    }
}

/// Writes the doorbell at an offset.
pub(crate) fn ring_doorbell(given: &Grant, vctl: &mut Vctl, offset: u32, value: u32) -> Reply
    ensures { (host : ℕ → ℕ) → IsActed given.now (Act.Doorbell offset value) host vctl.old result host vctl.new }
{
    // With the length of the host comes what is known of every map.
    let map = given.map();
    let _known = map.host_len();
    if vctl.doorbell(offset, value) {
        Reply::Done
    } else {
        Reply::Ignored
    }
}
