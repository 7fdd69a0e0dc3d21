//! Which parts of a plan are physical commands.

ghost use Rattle.std.specs.Prelude.{◌≡◌, ◌<◌, Some, length};
ghost use Rattle.nv_plan.specs.Made.{share_made, shares_made};
ghost use Rattle.nv_world_model.specs.Share.{Share};
ghost use Rattle.nv_world_model.specs.ShareArea.{is_no_command};

use nv_entry::IoOpcode;
use nv_plan::Plan;

/// Whether a part is no physical command: one of a Dataset Management without a range.
pub(crate) fn is_nothing(plan: &Plan, part: u8) -> bool
    requires { part < length (shares_made plan.now) }
    ensures { (share : Share) → share_made part plan.now ≡ Some share → result ≡ is_no_command share }
{
    let Some(opcode) = plan.job().sqe.io_opcode() else {
        return false;
    };
    match opcode {
        IoOpcode::DatasetManagement => plan.part_ranges(part).is_empty(),
        IoOpcode::Read
        | IoOpcode::Write
        | IoOpcode::Compare
        | IoOpcode::WriteZeroes
        | IoOpcode::Flush => false,
    }
}
