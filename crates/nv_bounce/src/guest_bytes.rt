//! Bytes of a guest's memory, read and written by their guest addresses.
ghost use Rattle.std.specs.Prelude.{◌≡◌, length, true};
ghost use Rattle.nv_mem.specs.GuestMap.{everywhere, mapped};
ghost use Rattle.nv_model.specs.Memory.{byte_in, bytes_from, image, put_image, stored};

use nv_mem::{GuestMap, MemoryCell};

/// Reads the bytes from guest address `addr` on, as many as `out` has, into `out`.
///
/// The caller knows that the map was made for a host of this length ([`GuestMap::host_len`] returns it), and that each of the bytes is mapped
/// ([`GuestMap::holds`] tests it).
pub fn load<C: MemoryCell>(addr: u64, map: &GuestMap, host: &[C], out: &mut [u8])
    requires host { map.now.host_len ≡ length (C.bytes host.now) }
    requires mapped { everywhere (mapped map.now.regions) addr (length out.old) ≡ true }
    ensures { out.new ≡ bytes_from (image map.now.regions (byte_in (C.bytes host.now))) addr (length out.old) }
{
    // With the length of the host comes what is known of every map.
    let _known = map.host_len();
    let mut done = 0;
    while done < out.len() {
        let left = (out.len() - done) as u64;
        let Some((from, n)) = map.run(addr + done as u64, left) else {
            return;
        };
        let end = done + n as usize;
        C::load(host, from, &mut out[done..end]);
        done = end;
    }
}

/// Writes the bytes to guest address `addr` on. No other byte of the guest's memory or of the host changes.
///
/// The caller knows that the map was made for a host of this length ([`GuestMap::host_len`] returns it), and that each of the bytes is mapped
/// ([`GuestMap::holds`] tests it).
pub fn store<C: MemoryCell>(bytes: &[u8], addr: u64, map: &GuestMap, host: &mut [C])
    requires host { map.now.host_len ≡ length (C.bytes host.old) }
    requires mapped { everywhere (mapped map.now.regions) addr (length bytes.now) ≡ true }
    ensures bytes { let before = byte_in (C.bytes host.old) in
        byte_in (C.bytes host.new) ≡ put_image map.now.regions (stored (image map.now.regions before) addr bytes.now) before }
    ensures len { length (C.bytes host.new) ≡ length (C.bytes host.old) }
{
    // With the length of the host comes what is known of every map.
    let _known = map.host_len();
    let mut done = 0;
    while done < bytes.len() {
        let left = (bytes.len() - done) as u64;
        let Some((to, n)) = map.run(addr + done as u64, left) else {
            return;
        };
        let end = done + n as usize;
        C::store(host, to, &bytes[done..end]);
        done = end;
    }
}
