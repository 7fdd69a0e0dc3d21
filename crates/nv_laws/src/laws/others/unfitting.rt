//! Why the status of a failure has to fit a completion.

ghost use Rattle.nv_world_model.specs.Contained.{Contained};
ghost use Rattle.nv_world_model.specs.RowsExtents.{set_up};
ghost use Rattle.nv_world_model.specs.declared.event.Event.TheVariants as event;
ghost use Rattle.nv_laws.specs.Unfitting.{left_over, type_eight};

/// A failure with a status of type 8 isn't contained: the completion reports success, and the bytes that another's command left in the bounce pages
/// are shown to the guest as those of its Read. No `Status` of the code has such a type.
#[tactic(none)]
pub fn a_status_has_to_fit()
    ensures { Contained set_up (event.DevFail 0 0 type_eight) left_over → ⊥ }
{}
