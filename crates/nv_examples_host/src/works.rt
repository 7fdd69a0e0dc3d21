//! Which events are work of a host's mediator, and how a call that makes them ends.

ghost use Rattle.std.specs.Prelude.{◌≡◌, ℕ, [], ⊤, IsSome, slice_get};
ghost use Rattle.nv_core.specs.Front.{IsBeside, IsReaped};
ghost use Rattle.nv_core.specs.Jobs.{job_in};
ghost use Rattle.nv_examples_host.specs.Scenes.{at_slot, in_two_passes, one_more, serving, side, two_back, world_of};
ghost use Rattle.nv_host.specs.InRow.{LeadsBy, LeadsUpBy};
ghost use Rattle.nv_host.specs.Served.{IsDone, IsNext, IsUnreached};
ghost use Rattle.nv_host.specs.Work.{GivesUp, HasEnded, IsDue, IsDueIn, IsIn, IsMade, IsOneMade, IsStray, IsWork, IsWorked, Leads, LeadsUp, Rests, Scene, scene};
ghost use Rattle.nv_host.specs.declared.worked.Scope.{Scope};
ghost use Rattle.nv_host.specs.declared.worked.Scope.TheVariants as scope;
ghost use Rattle.nv_host.specs.declared.worked.Why.TheVariants as why;
ghost use Rattle.nv_model.specs.declared.act.Act.TheVariants as act;
ghost use Rattle.nv_model.specs.declared.reply.Reply.{Reply};
ghost use Rattle.nv_world_model.specs.World.{World, tag_in};
ghost use Rattle.nv_world_model.specs.declared.event.Event.{Event};
ghost use Rattle.nv_world_model.specs.declared.event.Event.TheVariants as event;

/// Scopes.
#[tactic(none)]
pub fn scopes()
    ensures a_guests { IsIn (scope.Guest 1) (scene (serving 9 9) []) (event.Submit 0 4) }
    ensures anothers { IsIn (scope.Guest 0) (scene (serving 9 9) []) (event.Submit 0 4) → ⊥ }
    ensures a_lanes { IsIn (scope.Lane 1) (scene (serving 9 9) []) (event.Reap 1) }
    ensures another_lanes { IsIn (scope.Lane 0) (scene (serving 9 9) []) (event.Reap 1) → ⊥ }
    ensures no_guests { IsIn (scope.Guest 1) (scene (serving 9 9) []) (event.Post 0 8) → ⊥ }
    ensures no_lanes { IsIn (scope.Lane 0) (scene (serving 9 9) []) (event.Take 0 1 0) → ⊥ }
    ensures of_all { IsIn scope.All (scene (serving 9 9) []) (event.DevTake 0) }
{}

/// What is due.
#[tactic(none)]
pub fn dues()
    ensures a_new_completion { IsDueIn (at_slot 1) (world_of (side []) []) (event.Reap 0) }
    ensures an_old_one { IsDueIn (at_slot 0) (world_of (side []) []) (event.Reap 0) → ⊥ }
    ensures of_another_lane { IsDueIn (at_slot 1) (world_of (side []) []) (event.Reap 1) → ⊥ }
    // The first lane is in a second pass, and the second in its first: no slot of its ring was written.
    ensures by_its_own_phase { IsDueIn in_two_passes (world_of (side []) []) (event.Reap 1) → ⊥ }
    ensures a_closed_lane { IsDueIn (scene (serving 9 9) []) (world_of (serving 9 9).side []) (event.Take 0 1 1) → ⊥ }
    ensures a_share_without_room { IsDueIn (scene (serving 2 9) []) (world_of (serving 2 9).side []) (event.Take 0 1 0) → ⊥ }
    ensures no_command { IsDueIn (scene (serving 9 9) []) (world_of (serving 9 9).side []) (event.Take 1 1 0) → ⊥ }
    ensures a_free_tag { IsDueIn (scene (serving 9 9) []) (world_of (serving 9 9).side []) (event.Submit 0 3) → ⊥ }
    ensures one_in_flight { IsDueIn (scene (serving 9 9) []) (world_of (serving 9 9).side []) (event.Submit 0 1) → ⊥ }
    // The command of tags 4 and 5 goes by tag 4.
    ensures another_tag { IsDueIn (scene (serving 9 9) []) (world_of (serving 9 9).side []) (event.Submit 0 5) → ⊥ }
    ensures a_list_of_another_tag { IsDueIn (scene (serving 9 9) []) (world_of (serving 9 9).side []) (event.List 0 5 0x6000 32) → ⊥ }
    ensures one_given_up { IsDueIn (scene (serving 9 9) []) (world_of (serving 9 9).side []) (event.GiveUp 0 4) → ⊥ }
    ensures an_act { IsDueIn (scene (serving 9 9) []) (world_of (serving 9 9).side []) (event.Guest 0 (act.Doorbell 0x1008 1)) → ⊥ }
    ensures the_drives { IsDueIn (scene (serving 9 9) []) (world_of (serving 9 9).side []) (event.DevTake 0) → ⊥ }
    ensures work { (sc : Scope) (s : Scene) (e : Event) → IsWork sc s e → IsIn sc s e × IsDue s e }
    ensures rest { (sc : Scope) (s : Scene) (e : Event) → Rests sc s → IsWork sc s e → ((w : World) × IsBeside s.served.side s.memory w) → ⊥ }
{}

/// What is made.
#[tactic(none)]
pub fn made()
    ensures one { (sc : Scope) (e : Event) (old new : Scene) → IsOneMade sc e old new → IsWork sc old e × ((r : Reply) × IsMade e old r new) }
    ensures a_read { (lane : ℕ) (old new : Scene) (r : Reply) → IsMade (event.Reap lane) old r new →
        IsNext (event.Reap lane) old.served old.memory r new.served new.memory × (new.memory ≡ old.memory) }
    ensures a_read_ends_its_tag { (lane : ℕ) (old new : Scene) (r : Reply) → IsMade (event.Reap lane) old r new →
        IsReaped old.served.setup.geometry lane old.served.side new.served.side old.memory }
    ensures a_post { (lane tag : ℕ) (old new : Scene) (r : Reply) → IsMade (event.Post lane tag) old r new →
        IsDone (event.Post lane tag) old.served old.memory r new.served new.memory }
    ensures one_given_up { (sc : Scope) (old new : Scene) → GivesUp sc old new → (lane : ℕ) × (tag : ℕ) × IsIn sc old (event.GiveUp lane tag)
        × IsSome (job_in lane tag (tag_in (slice_get old.served.side.lanes lane) tag)) × ((r : Reply) × IsMade (event.GiveUp lane tag) old r new) }
{}

/// Events in a row. One more is the next number.
#[tactic(none)]
pub fn rows()
    ensures none { LeadsBy ℕ one_more 0 3 3 }
    ensures none_and_another { LeadsBy ℕ one_more 0 3 4 → ⊥ }
    ensures two { LeadsBy ℕ one_more 2 3 5 }
    ensures one { LeadsBy ℕ one_more 1 3 5 → ⊥ }
    ensures three { LeadsBy ℕ one_more 3 3 5 → ⊥ }
    // The last of three counts two back.
    ensures given_up { LeadsUpBy ℕ one_more two_back 3 3 3 }
    ensures given_up_of_none { LeadsUpBy ℕ one_more two_back 0 3 3 → ⊥ }
    ensures given_up_twice { LeadsUpBy ℕ one_more two_back 2 3 3 → ⊥ }
{}

/// How a call ends.
#[tactic(none)]
pub fn ends()
    ensures more_than_asked { (s : Scene) → HasEnded scope.All 1 2 ⊤ why.Enough s s → ⊥ }
    ensures not_enough { (s : Scene) → HasEnded scope.All 1 0 ⊥ why.Enough s s → ⊥ }
    ensures starved_with_all_done { (s : Scene) → HasEnded scope.All 1 1 ⊤ why.Starved s s → ⊥ }
    ensures starved_with_nothing_left { (s : Scene) → Rests scope.All s → HasEnded scope.All 1 0 ⊤ why.Starved s s → ⊥ }
    // Of a lane nothing may want memory.
    ensures starved_of_a_lane { (s : Scene) (lane : ℕ) → HasEnded (scope.Lane lane) 1 0 ⊤ why.Starved s s → ⊥ }
    ensures given_up_and_more { (s : Scene) → HasEnded scope.All 1 2 ⊤ why.GaveUp s s → ⊥ }
    ensures nothing_given_up { (s : Scene) → HasEnded scope.All 1 0 ⊤ why.GaveUp s s → ⊥ }
    ensures stray_with_all_done { (s : Scene) → HasEnded scope.All 1 1 ⊤ (why.Stray 0) s s → ⊥ }
    ensures stray_of_another_scope { (s : Scene) → HasEnded (scope.Lane 1) 1 0 ⊤ (why.Stray 0) s s → ⊥ }
    ensures stray_of_a_guest { (s : Scene) → HasEnded (scope.Guest 0) 1 0 ⊤ (why.Stray 0) s s → ⊥ }
    // An old completion is not stray, and a new one that names a command isn't.
    ensures an_old_one { IsStray scope.All (at_slot 0) 0 → ⊥ }
    ensures a_new_one { IsStray scope.All (at_slot 1) 0 → ⊥ }
    ensures of_no_log { (sc : Scope) (s : Scene) (lane : ℕ) → IsStray sc s lane → IsUnreached s.served s.memory }
    ensures as_many { (s : Scene) → IsWorked scope.All 0 (record { done = 1; why = why.Enough }) s s → ⊥ }
    ensures fewer { (s : Scene) → IsWorked scope.All 1 (record { done = 0; why = why.Enough }) s s → Rests scope.All s }
    ensures the_count { (sc : Scope) (most : ℕ) (done : ℕ) (old new : Scene) → IsWorked sc most (record { done = done; why = why.Enough }) old new → Leads sc done old new }
    ensures the_count_given_up { (sc : Scope) (most : ℕ) (done : ℕ) (old new : Scene) → IsWorked sc most (record { done = done; why = why.GaveUp }) old new → LeadsUp sc done old new }
    ensures the_count_starved { (sc : Scope) (most : ℕ) (done : ℕ) (old new : Scene) → IsWorked sc most (record { done = done; why = why.Starved }) old new → Leads sc done old new }
    ensures the_count_at_a_stray { (sc : Scope) (most : ℕ) (done lane : ℕ) (old new : Scene) → IsWorked sc most (record { done = done; why = why.Stray lane }) old new → Leads sc done old new }
{}
