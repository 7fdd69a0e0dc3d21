//! What is no replay: a log with another reply, and one that leads elsewhere.

ghost use Rattle.std.specs.Prelude.{[], ◌∷◌};
ghost use Rattle.nv_model.specs.declared.act.Act.TheVariants as act;
ghost use Rattle.nv_model.specs.declared.reply.Reply.TheVariants as reply;
ghost use Rattle.nv_world_model.specs.Log.{IsReplay};
ghost use Rattle.nv_world_model.specs.World.{with_host};
ghost use Rattle.nv_examples.specs.Guests.{opened, own, set_up};
ghost use Rattle.nv_examples.specs.Logs.{told};

/// A clause each.
#[tactic(none)]
pub fn examples()
    // A read of CSTS whose four bytes are not in the log.
    ensures another_reply { IsReplay set_up.geometry opened (told (own (act.RegRead 0x1c)) reply.Done ∷ []) opened → ⊥ }
    // Another byte of it.
    ensures another_byte { IsReplay set_up.geometry opened (told (own (act.RegRead 0x1c)) (reply.Bytes (0 ∷ 0 ∷ 0 ∷ 1 ∷ [])) ∷ []) opened → ⊥ }
    // No event, and another byte of the host.
    ensures another_end { IsReplay set_up.geometry opened [] (with_host (λ at. 1) opened) → ⊥ }
{}
