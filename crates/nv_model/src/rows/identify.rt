//! Identify, as the third admin command after the bring-up, with command identifier 3.

ghost use Rattle.std.specs.Prelude.{◌≡◌, [], ◌∷◌, ◌++◌, ◌==◌, Some, is_some, map, replicate, true};
ghost use Rattle.nv_entry.specs.Layout.{bits};
ghost use Rattle.nv_entry.specs.Opcode.{io_opcode};
ghost use Rattle.nv_model.specs.Private.{start};
ghost use Rattle.nv_model.specs.Rows.{oncs, optional_commands};
ghost use Rattle.nv_model.specs.RowsRuns.{admin_entry, after, bytes_in, done_third, dword_in, third_answer};

/// The controller's structure at 15000h: MDTS and VER.
#[tactic(none)]
pub fn the_controllers_transfer_size_and_version()
    ensures { after (done_third (admin_entry 0x06 3 0 0x15000 0 0x01 0)) start (bytes_in 0x1504c 8)
        ≡ Some (0x00 ∷ 0x05 ∷ 0x00 ∷ 0x00 ∷ 0x00 ∷ 0x00 ∷ 0x02 ∷ 0x00 ∷ []) }
{}

/// CNTRLTYPE and AERL.
#[tactic(none)]
pub fn the_controllers_type_and_event_limit()
    ensures { after (done_third (admin_entry 0x06 3 0 0x15000 0 0x01 0)) start (λ p. bytes_in 0x1506e 3 p ++ bytes_in 0x15102 3 p)
        ≡ Some (0x00 ∷ 0x01 ∷ 0x00 ∷ 0x00 ∷ 0x03 ∷ 0x00 ∷ []) }
{}

/// SQES, CQES, NN, ONCS, and VWC.
#[tactic(none)]
pub fn the_controllers_entry_sizes_namespaces_and_commands()
    ensures { after (done_third (admin_entry 0x06 3 0 0x15000 0 0x01 0)) start (bytes_in 0x15200 14)
        ≡ Some (
        0x66 ∷ 0x44 ∷ 0x00 ∷ 0x00 ∷ 0x01 ∷ 0x00 ∷ 0x00 ∷ 0x00 ∷ 0x0d ∷ 0x00 ∷ 0x00 ∷ 0x00 ∷ 0x00 ∷ 0x05 ∷ []) }
{}

/// SGLS.
#[tactic(none)]
pub fn the_controllers_sgl_support()
    ensures { after (done_third (admin_entry 0x06 3 0 0x15000 0 0x01 0)) start (bytes_in 0x15218 4) ≡ Some (0x01 ∷ 0x00 ∷ 0x01 ∷ 0x00 ∷ []) }
{}

/// Its completion is posted after the structure.
#[tactic(none)]
pub fn identify_is_completed()
    ensures { third_answer (admin_entry 0x06 3 0 0x15000 0 0x01 0) ≡ Some 0x00010003 }
{}

/// The namespace's structure: 64 blocks three times, and zeros to byte 25.
#[tactic(none)]
pub fn the_namespaces_size()
    ensures { after (done_third (admin_entry 0x06 3 1 0x15000 0 0x00 0)) start (bytes_in 0x15000 27)
        ≡ Some (64 ∷ replicate 7 0 ++ 64 ∷ replicate 7 0 ++ 64 ∷ replicate 10 0) }
{}

/// DLFEAT and the first format.
#[tactic(none)]
pub fn the_namespaces_format()
    ensures { after (done_third (admin_entry 0x06 3 1 0x15000 0 0x00 0)) start (λ p. bytes_in 0x15020 3 p ++ bytes_in 0x15080 5 p)
        ≡ Some (0x00 ∷ 0x01 ∷ 0x00 ∷ 0x00 ∷ 0x00 ∷ 0x09 ∷ 0x00 ∷ 0x00 ∷ []) }
{}

/// The active namespaces above 0 are namespace 1, and above 1 there is none.
#[tactic(none)]
pub fn the_active_namespaces()
    ensures { map (λ above. after (done_third (admin_entry 0x06 3 above 0x15000 0 0x02 0)) start (bytes_in 0x15000 5)) (0 ∷ 1 ∷ [])
        ≡ Some (1 ∷ 0 ∷ 0 ∷ 0 ∷ 0 ∷ []) ∷ Some (replicate 5 0) ∷ [] }
{}

/// Namespaces that are none, as NSID of CNS 00h and of CNS 02h: Invalid Namespace or Format.
#[tactic(none)]
pub fn namespaces_that_are_none()
    ensures { map third_answer (
        admin_entry 0x06 3 0 0x15000 0 0x00 0 ∷ admin_entry 0x06 3 2 0x15000 0 0x00 0 ∷ admin_entry 0x06 3 0xffffffff 0x15000 0 0x00 0
        ∷ admin_entry 0x06 3 0xfffffffe 0x15000 0 0x02 0 ∷ admin_entry 0x06 3 0xffffffff 0x15000 0 0x02 0 ∷ [])
        ≡ replicate 5 (Some 0x80170003) }
{}

/// Another CNS: Invalid Field in Command, though PRP1 has a fault too.
#[tactic(none)]
pub fn another_structure()
    ensures { third_answer (admin_entry 0x06 3 1 0x15001 0 0x03 0) ≡ Some 0x80050003 }
{}

/// A namespace that is none decides before PRP1's fault, which else does.
#[tactic(none)]
pub fn the_namespace_is_looked_at_before_prp1()
    ensures { map third_answer (admin_entry 0x06 3 2 0x15001 0 0x00 0 ∷ admin_entry 0x06 3 1 0x15001 0 0x00 0 ∷ [])
        ≡ Some 0x80170003 ∷ Some 0x80270003 ∷ [] }
{}

/// From an offset the structure goes on in PRP2's page.
#[tactic(none)]
pub fn a_structure_in_two_pages()
    ensures { after (done_third (admin_entry 0x06 3 0 0x15e00 0x17000 0x01 0)) start (λ p. bytes_in 0x15e4c 2 p ++ bytes_in 0x17000 2 p)
        ≡ Some (0x00 ∷ 0x05 ∷ 0x66 ∷ 0x44 ∷ []) }
{}

/// Where the second page is not mapped, nothing of the first is written.
#[tactic(none)]
pub fn a_structure_whose_second_page_is_not_mapped()
    ensures { after (done_third (admin_entry 0x06 3 0 0x15e00 0x20000 0x01 0)) start (λ p. dword_in 0x1102c p ∷ dword_in 0x15e4c p ∷ [])
        ≡ Some (0x80090003 ∷ 0 ∷ []) }
{}

/// ONCS names the optional commands, a bit for each, and just those of them are commands: Compare, Write Uncorrectable, Dataset
/// Management, Write Zeroes, reservations, Verify and Copy.
#[tactic(none)]
pub fn the_optional_commands_are_those_that_are_known()
    ensures { map (λ c. bits oncs c.1 c.1 == 1) optional_commands ≡ map (λ c. is_some (io_opcode c.0)) optional_commands }
{}

/// VWC says that a volatile write cache is there, so that a Flush has an effect; and it is a command, as Read and Write are.
#[tactic(none)]
pub fn the_commands_that_each_controller_has()
    ensures { map (λ code. is_some (io_opcode code)) (0x00 ∷ 0x01 ∷ 0x02 ∷ []) ≡ replicate 3 true }
{}
