//! The admin commands.

ghost use Rattle.std.specs.Prelude.{◌≡◌, ℕ, None, true};
ghost use Rattle.nv_entry.specs.declared.opcode.AdminOpcode.{AdminOpcode};
ghost use Rattle.nv_mem.specs.GuestMap.{mapped};
ghost use Rattle.nv_model.specs.Admin.{admin_command, done_by};
ghost use Rattle.nv_model.specs.Controller.{is_ready};
ghost use Rattle.nv_model.specs.Laws.{QueuesInPlace};
ghost use Rattle.nv_admin.specs.Effect.{IsPageMapped, Keeps, carried_effect, stored_by};
ghost use Rattle.nv_admin.specs.Identify.{command_stored, done_stored};

use crate::carried::Carried;
use crate::outcome::Outcome;
use crate::{features, identify, queues};
use nv_entry::{AdminOpcode, DataPointer, Sqe, StatusCode};
use nv_mem::GuestMap;
use nv_vctl::Vctl;

/// DW0 of Abort: the command was not aborted.
const NOT_ABORTED: u32 = 1;

/// Carries out an admin command that is taken, on a namespace of `blocks` blocks, or refuses it by the first check that fails: fused
/// operation, opcode, data pointer, and then what the command itself checks. What it stores is the caller's to store.
pub(crate) fn carry_out(vctl: &mut Vctl, sqe: &Sqe, blocks: u64, map: &GuestMap) -> Carried
    requires ready { is_ready vctl.old ≡ true }
    requires no_deletion { vctl.old.deletion ≡ None }
    ensures effect { (memory : ℕ → ℕ) → admin_command (mapped map.now.regions) blocks sqe.now vctl.old memory ≡ carried_effect result vctl.new memory }
    ensures stored { command_stored (mapped map.now.regions) blocks sqe.now ≡ stored_by result.page }
    ensures in_map { IsPageMapped (mapped map.now.regions) result.page }
    ensures keeps { Keeps vctl.old vctl.new }
    ensures in_place { let test = mapped map.now.regions in QueuesInPlace test vctl.old → QueuesInPlace test vctl.new }
{
    if sqe.fuse() != 0 {
        return Carried::quiet(Err(StatusCode::InvalidField));
    }
    let Some(opcode) = sqe.admin_opcode() else {
        return Carried::quiet(Err(StatusCode::InvalidOpcode));
    };
    let DataPointer::Prp = sqe.data_pointer() else {
        return Carried::quiet(Err(StatusCode::InvalidField));
    };
    carry_out_by(opcode, vctl, sqe, blocks, map)
}

// Carries out a command of this opcode.
fn carry_out_by(
    opcode: AdminOpcode,
    vctl: &mut Vctl,
    sqe: &Sqe,
    blocks: u64,
    map: &GuestMap,
) -> Carried
    requires ready { is_ready vctl.old ≡ true }
    requires no_deletion { vctl.old.deletion ≡ None }
    ensures effect { (memory : ℕ → ℕ) → done_by opcode (mapped map.now.regions) blocks sqe.now vctl.old memory ≡ carried_effect result vctl.new memory }
    ensures stored { done_stored opcode (mapped map.now.regions) blocks sqe.now ≡ stored_by result.page }
    ensures in_map { IsPageMapped (mapped map.now.regions) result.page }
    ensures keeps { Keeps vctl.old vctl.new }
    ensures in_place { let test = mapped map.now.regions in QueuesInPlace test vctl.old → QueuesInPlace test vctl.new }
{
    match opcode {
        AdminOpcode::DeleteIoSubmissionQueue => {
            Carried::quiet(queues::delete_submission_queue(vctl, sqe))
        }
        AdminOpcode::CreateIoSubmissionQueue => {
            Carried::quiet(queues::create_submission_queue(vctl, sqe, map))
        }
        AdminOpcode::GetLogPage => Carried::quiet(Err(StatusCode::InvalidLogPage)),
        AdminOpcode::DeleteIoCompletionQueue => {
            Carried::quiet(queues::delete_completion_queue(vctl, sqe))
        }
        AdminOpcode::CreateIoCompletionQueue => {
            Carried::quiet(queues::create_completion_queue(vctl, sqe, map))
        }
        AdminOpcode::Identify => identify::identify(sqe, blocks, map),
        AdminOpcode::Abort => Carried::quiet(Ok(Outcome::Done { dw0: NOT_ABORTED })),
        AdminOpcode::SetFeatures => Carried::quiet(features::set_features(vctl, sqe)),
        AdminOpcode::GetFeatures => Carried::quiet(features::get_features(vctl, sqe)),
        AdminOpcode::AsynchronousEventRequest => Carried::quiet(features::request_event(vctl)),
    }
}
