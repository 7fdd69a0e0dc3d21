//! The page that Identify stores.

ghost use Rattle.std.specs.Prelude.{◌≡◌, length};
ghost use Rattle.nv_mem.specs.GuestMap.{mapped};
ghost use Rattle.nv_model.specs.Memory.{byte_in, image, put_image};
ghost use Rattle.nv_admin.specs.Effect.{IsPageMapped, stored_by};
ghost use Rattle.nv_admin.specs.Identify.{memory_behind};

use crate::data_structure::{DataStructure, LEN};
use crate::page_buffer::PageBuffer;
use nv_mem::{GuestMap, MemoryCell};

/// The page that Identify stores: a data structure of 4,096 bytes, and where in the guest's memory it goes.
#[derive(Clone, Copy)]
pub struct ShownPage {
    pub(crate) structure: DataStructure,
    pub(crate) buffer: PageBuffer,
}

/// Stores a page, if there is one. No other byte of the guest's memory or of the host changes.
pub(crate) fn store_page<C: MemoryCell>(page: Option<ShownPage>, map: &GuestMap, host: &mut [C])
    requires host { map.now.host_len ≡ length (C.bytes host.old) }
    requires in_map { IsPageMapped (mapped map.now.regions) page }
    ensures bytes { let before = byte_in (C.bytes host.old) in byte_in (C.bytes host.new)
        ≡ put_image map.now.regions (memory_behind (stored_by page) (image map.now.regions before)) before }
    ensures len { length (C.bytes host.new) ≡ length (C.bytes host.old) }
{
    // With the length of the host comes what is known of every map.
    let _known = map.host_len();
    let Some(ShownPage { structure, buffer }) = page else {
        return;
    };
    let mut bytes = [0; LEN];
    structure.write(&mut bytes);
    buffer.store(&bytes, map, host);
}
