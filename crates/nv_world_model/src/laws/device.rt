//! What the physical controller reads and writes of the host's memory.

ghost use Rattle.std.specs.Prelude.{◌≡◌, ℕ, ◌+◌, ◌*◌, ◌^◌, ◌<◌, ◌≤◌, ◌⊎◌, Bool, List};
ghost use Rattle.nv_entry.specs.Completion.{IsCompletion, status_of};
ghost use Rattle.nv_entry.specs.Opcode.{io_opcode};
ghost use Rattle.nv_entry.specs.Status.{StatusField};
ghost use Rattle.nv_entry.specs.Submission.{opcode_of};
ghost use Rattle.nv_model.specs.Laws.{AgreeAt, AgreeOn};
ghost use Rattle.nv_model.specs.Memory.{bytes_from, gathered};
ghost use Rattle.nv_world_model.specs.Area.{bounce_page, completion_slot, lane_start, list_page, submission_slot};
ghost use Rattle.nv_world_model.specs.Device.{DeviceLane, Held, completion_written, device_unit, entry_taken, front_entry};
ghost use Rattle.nv_world_model.specs.LaneRuns.{IsInLane, IsNotAmong, IsSameEffect, list_named, unit_places};

/// Each slot of a lane's rings is in the lane's own area, at a location of its own: the submission ring in its first two pages, the completion ring
/// in its third. After them each tag has a list page and 32 bounce pages, and the areas of lanes follow each other.
pub fn each_slot_has_a_place_in_its_lane()
    ensures submissions { (mediator lane at : ℕ) →
        submission_slot mediator lane at ≡ mediator + 2115 * 4096 * lane + 64 * at }
    ensures submissions_end { (mediator lane at : ℕ) → at < 65 →
        submission_slot mediator lane at + 64 ≤ lane_start mediator lane + 2 * 4096 }
    ensures completions { (mediator lane at : ℕ) →
        completion_slot mediator lane at ≡ mediator + 2115 * 4096 * lane + 2 * 4096 + 16 * at }
    ensures completions_end { (mediator lane at : ℕ) → at < 65 →
        completion_slot mediator lane at + 16 ≤ lane_start mediator lane + 3 * 4096 }
    ensures list_pages { (mediator lane tag : ℕ) → list_page mediator lane tag ≡ lane_start mediator lane + 4096 * (3 + 33 * tag) }
    ensures bounce_pages { (mediator lane tag : ℕ) → bounce_page mediator lane tag ≡ list_page mediator lane tag + 4096 }
    ensures tags_end { (mediator lane tag : ℕ) → tag < 64 → bounce_page mediator lane tag + 32 * 4096 ≤ lane_start mediator (lane + 1) }
    ensures lanes { (mediator lane at other : ℕ) → IsInLane mediator lane at → IsInLane mediator other at → lane ≡ other }
{}

/// What the device writes into the slot of its completion ring is a completion queue entry: DW0 is 0, the head is that of the
/// submission ring as it is then, the queue is the lane's physical queue, numbered from 1, and the phase tag is that of the pass.
pub fn a_completion_is_the_standards()
    ensures fields { (mediator lane identifier : ℕ) (st : StatusField) (d : DeviceLane) (host : ℕ → ℕ) →
        d.head < 2 ^ 16 → lane + 1 < 2 ^ 16 → identifier < 2 ^ 16 → st.sct < 8 → st.sc < 256 →
        IsCompletion 0 d.head (lane + 1) identifier d.phase st
        (bytes_from (completion_written mediator lane identifier st d host) (completion_slot mediator lane d.posted) 16) }
    ensures status { (mediator lane identifier : ℕ) (st : StatusField) (d : DeviceLane) (host : ℕ → ℕ) →
        d.head < 2 ^ 16 → lane + 1 < 2 ^ 16 → identifier < 2 ^ 16 → st.sct < 8 → st.sc < 256 →
        status_of (bytes_from (completion_written mediator lane identifier st d host) (completion_slot mediator lane d.posted) 16) ≡ st }
{}

/// A completion is written into its slot alone, whatever was there.
pub fn a_completion_reaches_its_slot_alone()
    ensures writes { (mediator lane identifier at : ℕ) (st : StatusField) (d : DeviceLane) (host : ℕ → ℕ) →
        (at < completion_slot mediator lane d.posted) ⊎ (completion_slot mediator lane d.posted + 16 ≤ at) →
        completion_written mediator lane identifier st d host at ≡ host at }
    ensures reads { (mediator lane identifier : ℕ) (st : StatusField) (d : DeviceLane) (host other : ℕ → ℕ) →
        bytes_from (completion_written mediator lane identifier st d host) (completion_slot mediator lane d.posted) 16
        ≡ bytes_from (completion_written mediator lane identifier st d other) (completion_slot mediator lane d.posted) 16 }
{}

/// A take reads the slot of its entry and the list that the entry names, and writes nothing.
pub fn a_take_reads_its_entry_and_its_list()
    ensures entry { (mediator lane : ℕ) (d : DeviceLane) (host other : ℕ → ℕ) →
        AgreeAt host other (submission_slot mediator lane d.head, 64) →
        front_entry mediator lane d other ≡ front_entry mediator lane d host }
    ensures taken { (entry : List ℕ) (d : DeviceLane) (host other : ℕ → ℕ) →
        AgreeOn host other (list_named (io_opcode (opcode_of entry)) entry host) →
        entry_taken entry other d ≡ entry_taken entry host d }
{}

/// A unit reads and writes the places that its command names for it: what it does to disk, marks and the command depends on the
/// bytes there alone, and every other byte stays.
pub fn a_unit_reaches_its_places_alone()
    ensures writes { (number disk_blocks at : ℕ) (h : Held) (host : ℕ → ℕ) (disk : ℕ → ℕ → ℕ) (kept : ℕ → Bool) →
        IsNotAmong at (unit_places (io_opcode (opcode_of h.entry)) number h.pieces) →
        (device_unit number disk_blocks h host disk kept).memory at ≡ host at }
    ensures reads { (number disk_blocks : ℕ) (h : Held) (host other : ℕ → ℕ) (disk : ℕ → ℕ → ℕ) (kept : ℕ → Bool) →
        gathered host (unit_places (io_opcode (opcode_of h.entry)) number h.pieces)
        ≡ gathered other (unit_places (io_opcode (opcode_of h.entry)) number h.pieces) →
        IsSameEffect (device_unit number disk_blocks h host disk kept) (device_unit number disk_blocks h other disk kept) }
    ensures memory { (number disk_blocks at : ℕ) (h : Held) (host other : ℕ → ℕ) (disk : ℕ → ℕ → ℕ) (kept : ℕ → Bool) →
        host at ≡ other at →
        (device_unit number disk_blocks h host disk kept).memory at ≡ (device_unit number disk_blocks h other disk kept).memory at }
{}
