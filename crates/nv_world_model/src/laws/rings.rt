//! The rings of a lane of the physical controller never fill.

ghost use Rattle.std.specs.Prelude.{◌≡◌, ◌<◌, List};
ghost use Rattle.nv_model.specs.Queue.{next_slot};
ghost use Rattle.nv_world_model.specs.Area.{ring_size};
ghost use Rattle.nv_world_model.specs.Device.{DeviceLane, rung};
ghost use Rattle.nv_world_model.specs.LaneRuns.{AreWithinTags, IsNotOverrun, LaneEvent, newly_rung, opening_run, run_behind};

/// As long as tails are rung within the tags in flight, neither ring passes its size minus 1, whatever happens on the lane and in whatever order;
/// so head and tail give how many entries are there.
pub fn rings_never_fill()
    ensures { (events : List LaneEvent) → AreWithinTags events opening_run → IsNotOverrun (run_behind events opening_run) }
{}

/// The mediator rings a tail for one entry more.
pub fn a_submission_rings_one_entry()
    ensures tail { (d : DeviceLane) → rung d ≡ record d { tail = next_slot ring_size d.tail } }
    ensures one { (d : DeviceLane) → d.tail < ring_size → newly_rung (rung d).tail d ≡ 1 }
{}
