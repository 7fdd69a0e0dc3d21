//! Identify: a data structure of 4,096 bytes, shown in one step (Base Specification 2.0, "Identify command").

ghost use Rattle.std.specs.Prelude.{◌≡◌, ℕ};
ghost use Rattle.nv_mem.specs.GuestMap.{mapped};
ghost use Rattle.nv_model.specs.Admin.{identify, shown};
ghost use Rattle.nv_model.specs.Controller.{Controller};
ghost use Rattle.nv_admin.specs.Effect.{IsPageMapped, carried_effect, identified_by, shown_by, stored_by};
ghost use Rattle.nv_admin.specs.Identify.{shown_stored};

use crate::carried::Carried;
use crate::data_structure::DataStructure;
use crate::fields;
use crate::outcome::Outcome;
use crate::page_buffer::PageBuffer;
use crate::shown_page::ShownPage;
use nv_entry::{Sqe, StatusCode};
use nv_mem::GuestMap;

/// CNS: the namespace of NSID.
const NAMESPACE: u8 = 0x00;

/// CNS: the controller.
const CONTROLLER: u8 = 0x01;

/// CNS: the active namespaces above NSID.
const ACTIVE_NAMESPACES: u8 = 0x02;

/// The one namespace.
const NAMESPACE_ID: u32 = 1;

/// The first NSID above which no list of namespaces may be asked for.
const LIST_END: u32 = 0xffff_fffe;

/// Identify, on a namespace of `blocks` blocks: the page to store, or the status of the refusal, with nothing to store.
pub(crate) fn identify(sqe: &Sqe, blocks: u64, map: &GuestMap) -> Carried
    ensures effect { (c : Controller) (memory : ℕ → ℕ) → identify (mapped map.now.regions) blocks sqe.now c memory ≡ carried_effect result c memory }
    ensures stored { shown_stored (shown blocks sqe.now) (mapped map.now.regions) sqe.now ≡ stored_by result.page }
    ensures in_map { IsPageMapped (mapped map.now.regions) result.page }
{
    match shown_page(sqe, blocks, map) {
        Ok(page) => Carried {
            outcome: Ok(Outcome::Done { dw0: 0 }),
            page: Some(page),
        },
        Err(code) => Carried::quiet(Err(code)),
    }
}

// The page that a command asks for. Refusals by CNS and NSID come before those by PRP1 and PRP2.
fn shown_page(sqe: &Sqe, blocks: u64, map: &GuestMap) -> Result<ShownPage, StatusCode>
    ensures effect { (c : Controller) (memory : ℕ → ℕ) → identify (mapped map.now.regions) blocks sqe.now c memory
        ≡ carried_effect (identified_by result) c memory }
    ensures stored { shown_stored (shown blocks sqe.now) (mapped map.now.regions) sqe.now ≡ stored_by (identified_by result).page }
    ensures in_map { IsPageMapped (mapped map.now.regions) (identified_by result).page }
{
    let structure = shown(sqe, blocks)?;
    let buffer = PageBuffer::of(sqe, map)?;
    Ok(ShownPage { structure, buffer })
}

// The data structure that a command asks for, or why it is refused.
fn shown(sqe: &Sqe, blocks: u64) -> Result<DataStructure, StatusCode>
    ensures { shown blocks sqe.now ≡ shown_by result }
{
    let nsid = sqe.nsid();
    match fields::selector(sqe) {
        NAMESPACE if nsid == NAMESPACE_ID => Ok(DataStructure::Namespace { blocks }),
        NAMESPACE => Err(StatusCode::InvalidNamespace),
        CONTROLLER => Ok(DataStructure::Controller),
        ACTIVE_NAMESPACES if nsid < LIST_END => Ok(DataStructure::ActiveNamespaces { above: nsid }),
        ACTIVE_NAMESPACES => Err(StatusCode::InvalidNamespace),
        _ => Err(StatusCode::InvalidField),
    }
}
