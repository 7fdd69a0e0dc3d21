//! Two guests on one lane.

ghost use Rattle.std.specs.Prelude.{◌≡◌, [], ◌∷◌, ◌++◌, replicate};
ghost use Rattle.nv_model.specs.declared.act.Act.TheVariants as act;
ghost use Rattle.nv_model.specs.declared.reply.Reply.TheVariants as reply;
ghost use Rattle.nv_model.specs.Memory.{stored};
ghost use Rattle.nv_model.specs.Rows.{first_example};
ghost use Rattle.nv_world_model.specs.Rows.{behind, first_answers, holding, host_number, told, two_at_once, two_commands, whole};
ghost use Rattle.nv_world_model.specs.declared.event.Event.TheVariants as event;

/// The examples of this module, a clause each.
#[tactic(none)]
pub fn examples()
    // Both have a command with one identifier under way, and the device completes the second first: each finds its own completion and block.
    ensures two_guests_with_one_identifier { behind two_at_once two_commands
        (λ w. host_number 0x11200c 4 w ∷ host_number 0x21200c 4 w ∷ host_number 0x103000 1 w ∷ host_number 0x203000 1 w ∷ [])
        ≡ 0x00010007 ∷ 0x00010007 ∷ 0xed ∷ 0xd5 ∷ [] }
    // Each of these events is done.
    ensures each_event_of_both_is_done { told two_at_once two_commands ≡ replicate 14 reply.Done }
    // A guest loads its own memory alone, and no address after it.
    ensures a_guest_loads_its_own_memory { told (event.Guest 0 (act.Store 0x3000 (7 ∷ [])) ∷ event.Guest 1 (act.Load 0x3000 1) ∷ event.Guest 0 (act.Load 0x3000 1) ∷ event.Guest 0 (act.Load 0x1ffff 2) ∷ event.Guest 2 (act.Load 0 1) ∷ []) two_commands
        ≡ reply.Done ∷ reply.Bytes (0 ∷ []) ∷ reply.Bytes (7 ∷ []) ∷ reply.Unmapped ∷ reply.Ignored ∷ [] }
    // A completion goes to its own guest's queue alone.
    ensures a_completion_goes_to_its_own_guest { behind (whole 1) two_commands (λ w. host_number 0x11200c 4 w ∷ host_number 0x21200c 4 w ∷ []) ≡ 0x00010007 ∷ 0 ∷ [] }
    // A store reaches its own guest's memory alone, and not the host's bytes of those addresses.
    ensures a_store_reaches_its_own_memory { behind (event.Guest 1 (act.Store 0x3000 (7 ∷ [])) ∷ []) two_commands
        (λ w. host_number 0x103000 1 w ∷ host_number 0x203000 1 w ∷ host_number 0x3000 1 w ∷ []) ≡ 0 ∷ 7 ∷ 0 ∷ [] }
{}
