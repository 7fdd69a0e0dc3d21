//! What is handed on for the parts of a command.

ghost use Rattle.std.specs.Prelude.{◌≡◌, [], ◌∷◌, ◌++◌, Some, replicate, true};
ghost use Rattle.nv_model.specs.Rows.{by_sgl, data_block};
ghost use Rattle.nv_model.specs.declared.reply.Reply.TheVariants as reply;
ghost use Rattle.nv_world_model.specs.declared.event.Event.TheVariants as event;
ghost use Rattle.nv_world_model.specs.RowsExtents.{among_others, answer, behind, both_entries, ended_as, frees, in_device, internal, one_command, others, read_over, success, told, too_short};
ghost use Rattle.nv_world_model.specs.World.{Free};

/// The examples of this module, a clause each. For a physical entry they give opcode, identifier, PRP1, PRP2, and CDW10 to CDW12.
#[tactic(none)]
pub fn examples()
    // A direct Read: each part from its extent, and to where its block's bytes go.
    ensures a_direct_read { behind (event.Take 0 1 0 ∷ event.Submit 0 0 ∷ []) (one_command (read_over 0x3e00)) both_entries
        ≡ (0x02 ∷ 0 ∷ 0x103e00 ∷ 0 ∷ 1031 ∷ 0 ∷ 0 ∷ []) ∷ (0x02 ∷ 1 ∷ 0x104000 ∷ 0 ∷ 3000 ∷ 0 ∷ 0 ∷ []) ∷ [] }
    // To an odd place: each to the bounce pages of its own tag.
    ensures a_bounced_read { behind (event.Take 0 1 0 ∷ event.Submit 0 0 ∷ []) (one_command (read_over 0x3002)) both_entries
        ≡ (0x02 ∷ 0 ∷ 0x404000 ∷ 0 ∷ 1031 ∷ 0 ∷ 0 ∷ []) ∷ (0x02 ∷ 1 ∷ 0x425000 ∷ 0 ∷ 3000 ∷ 0 ∷ 0 ∷ []) ∷ [] }
    // In tags that do not lie side by side.
    ensures in_tags_apart { behind (event.Take 0 1 0 ∷ event.Submit 0 0 ∷ []) (among_others (Free ∷ others 1 ∷ Free ∷ []) (read_over 0x3002)) both_entries
        ≡ (0x02 ∷ 0 ∷ 0x404000 ∷ 0 ∷ 1031 ∷ 0 ∷ 0 ∷ []) ∷ (0x02 ∷ 2 ∷ 0x446000 ∷ 0 ∷ 3000 ∷ 0 ∷ 0 ∷ []) ∷ [] }
    // A refused command is answered, with nothing handed on.
    ensures a_refused_command { told (event.Take 0 1 0 ∷ event.Submit 0 0 ∷ event.DevTake 0 ∷ event.Post 0 0 ∷ [])
        (one_command (by_sgl 0x02 63 1 (data_block 0x3000 1024))) ≡ reply.Done ∷ reply.Done ∷ reply.Idle ∷ reply.Done ∷ [] }
    ensures its_completion { behind (event.Take 0 1 0 ∷ event.Submit 0 0 ∷ event.Post 0 0 ∷ [])
        (one_command (by_sgl 0x02 63 1 (data_block 0x3000 1024))) answer ≡ 0x81010007 }
    // A command of two parts that is refused once its list was read: it crosses the end of its buffer.
    ensures refused_by_its_list { behind (event.Take 0 1 0 ∷ event.Submit 0 0 ∷ event.Post 0 0 ∷ [])
        (one_command (by_sgl 0x02 31 1 (data_block 0x3000 512))) answer ≡ 0x801f0007 }
    ensures its_tags_are_free { behind (event.Take 0 1 0 ∷ event.Submit 0 0 ∷ event.Post 0 0 ∷ [])
        (one_command (by_sgl 0x02 31 1 (data_block 0x3000 512))) frees ≡ replicate 4 true }
    // Answered at once, its first tag has the status, and its others have success.
    ensures its_tags_have_ended { behind (event.Take 0 1 0 ∷ event.Submit 0 0 ∷ [])
        (one_command (by_sgl 0x02 31 1 (data_block 0x3000 512))) ended_as ≡ Some (too_short ∷ success ∷ []) }
    ensures given_up_they_have_too { behind (event.Take 0 1 0 ∷ event.GiveUp 0 0 ∷ []) (one_command (read_over 0x3e00)) ended_as
        ≡ Some (internal ∷ success ∷ []) }
    // A command that is given up: all its tags are free again.
    ensures given_up { behind (event.Take 0 1 0 ∷ event.GiveUp 0 0 ∷ event.Post 0 0 ∷ []) (one_command (read_over 0x3e00)) answer ≡ 0x000d0007 }
    ensures given_up_and_free { behind (event.Take 0 1 0 ∷ event.GiveUp 0 0 ∷ event.Post 0 0 ∷ []) (one_command (read_over 0x3e00)) frees
        ≡ replicate 4 true }
    // Both parts are in the device at once, which takes no third.
    ensures both_are_taken { told (in_device ++ event.DevTake 0 ∷ event.DevMove 0 1 1 ∷ event.DevMove 0 1 0 ∷ event.DevMove 0 0 1 ∷ [])
        (one_command (read_over 0x3e00))
        ≡ reply.Done ∷ reply.Done ∷ reply.Done ∷ reply.Done ∷ reply.Idle ∷ reply.Idle ∷ reply.Done ∷ reply.Idle ∷ [] }
{}
