//! Events of each kind, each of which is contained: whatever address, block, lane and tag is examined.

ghost use Rattle.std.specs.Prelude.{false, [], ◌∷◌};
ghost use Rattle.nv_model.specs.declared.act.Act.TheVariants as act;
ghost use Rattle.nv_world_model.specs.Contained.{Contained};
ghost use Rattle.nv_world_model.specs.RowsSmall.{given_up_second, held_second, moved_second, posted_second, small, small_behind, small_handed_on, taken_second};
ghost use Rattle.nv_world_model.specs.declared.event.Event.TheVariants as event;

/// A guest's command is taken, while another's is in the submission ring.
#[tactic(none)]
pub fn a_take()
    ensures { Contained small (event.Take 0 1 0) (small_behind []) }
{}

/// Bytes of a guest's memory join the transcript of its command.
#[tactic(none)]
pub fn a_list()
    ensures { Contained small (event.List 0 1 0x10 8) (small_behind taken_second) }
{}

/// A guest's command ends without a physical one.
#[tactic(none)]
pub fn a_command_given_up()
    ensures { Contained small (event.GiveUp 0 1) (small_behind taken_second) }
{}

/// A guest stores bytes in its memory.
#[tactic(none)]
pub fn a_store()
    ensures { Contained small (event.Guest 0 (act.Store 0x10 (1 ∷ 2 ∷ []))) (small_behind []) }
{}

/// A guest's command, which was given up, is completed.
#[tactic(none)]
pub fn a_post()
    ensures { Contained small (event.Post 0 1) (small_behind given_up_second) }
{}

/// A block becomes kept, which is a guest's.
#[tactic(none)]
pub fn a_keep()
    ensures { Contained small (event.Keep 4) (small_behind []) }
{}

/// A guest's admin command is carried out, and completed.
#[tactic(none)]
pub fn an_admin_command()
    ensures { Contained small (event.Admin 0) (small_behind []) }
{}

/// A guest's command is handed on: its physical entry is written after another's.
#[tactic(none)]
pub fn a_submit()
    ensures { Contained small (event.Submit 0 1) (small_behind taken_second) }
{}

/// The device takes a guest's entry.
#[tactic(none)]
pub fn an_entry_taken_by_the_device()
    ensures { Contained small (event.DevTake 0) (small_handed_on []) }
{}

/// A unit of a guest's command moves: a block of its namespace becomes zeros.
#[tactic(none)]
pub fn a_unit()
    ensures { Contained small (event.DevMove 0 1 0) (small_handed_on held_second) }
{}

/// The device completes a guest's command.
#[tactic(none)]
pub fn a_physical_completion()
    ensures { Contained small (event.DevPost 0 1) (small_handed_on moved_second) }
{}

/// The device fails a guest's command.
#[tactic(none)]
pub fn a_failure()
    ensures { Contained small (event.DevFail 0 1 (record { sct = 2; sc = 0x81; dnr = false })) (small_handed_on held_second) }
{}

/// A physical completion ends a guest's tag.
#[tactic(none)]
pub fn a_reap()
    ensures { Contained small (event.Reap 0) (small_handed_on posted_second) }
{}
