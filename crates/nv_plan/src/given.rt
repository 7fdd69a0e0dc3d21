//! What a guest was given.

use nv_mem::GuestMap;
use nv_ns::VirtualNs;

/// A guest's memory and namespace, and the most descriptors of a list of its.
#[derive(Clone, Copy)]
pub(crate) struct GrantRef<'a> {
    pub(crate) map: &'a GuestMap,
    pub(crate) ns: &'a VirtualNs,
    pub(crate) limit: u32,
}
