//! What is done for a guest is in its seat exactly what its private controller does, and nothing is done elsewhere.

ghost use Rattle.std.specs.Prelude.{◌≡◌, ℕ, ◌<◌, true, false, List, ◌∷◌, length, slice_get, Option, Some, None};
ghost use Rattle.nv_entry.specs.Status.{StatusField};
ghost use Rattle.nv_entry.specs.Submission.{cid_of};
ghost use Rattle.nv_mem.specs.GuestMap.{IsSound};
ghost use Rattle.nv_model.specs.Controller.{front, is_enabled, post};
ghost use Rattle.nv_model.specs.Private.{AdminQueueStep, PostStep, RunOutStep, TakeStep, acted, ending, step as private_step};
ghost use Rattle.nv_model.specs.declared.act.Act.{Act};
ghost use Rattle.nv_model.specs.declared.reply.Reply.TheVariants as reply;
ghost use Rattle.nv_world_model.specs.declared.event.Event.TheVariants as event;
ghost use Rattle.nv_world_model.specs.Area.{tag_count};
ghost use Rattle.nv_world_model.specs.Geometry.{Geometry, regions_of, shape_of};
ghost use Rattle.nv_world_model.specs.Laws.{IsSeatOf, LeadsTo, OnlyInSeat};
ghost use Rattle.nv_world_model.specs.Seat.{Owner, ended_progress, name_of, owner_of, rests_of, seat};
ghost use Rattle.nv_world_model.specs.Share.{Share, tags_of_entry};
ghost use Rattle.nv_world_model.specs.Step.{deciding, delivered, entry_at, is_done, statuses_of, step, taken_to};
ghost use Rattle.nv_world_model.specs.World.{Command, Ended, Lane, World, claimed, group, is_free, tag_of, tags_where};

/// An act has the private controller's reply, and leads to its state.
pub fn an_act_is_the_private_controllers()
    ensures reply { (geometry : Geometry) (number : ℕ) (o : Owner) (a : Act) (w : World) → owner_of geometry w number ≡ Some o →
        (step geometry (event.Guest number a) w).reply ≡ (acted (shape_of o.given) a (seat geometry o w)).reply }
    ensures state { (geometry : Geometry) (number : ℕ) (o : Owner) (a : Act) (w : World) → owner_of geometry w number ≡ Some o →
        IsSound o.given.memory_map →
        IsSeatOf o.number o.given (step geometry (event.Guest number a) w).world (acted (shape_of o.given) a (seat geometry o w)).state }
    ensures only { (geometry : Geometry) (number : ℕ) (o : Owner) (a : Act) (w : World) → owner_of geometry w number ≡ Some o →
        OnlyInSeat o w (step geometry (event.Guest number a) w).world }
{}

/// So is an admin step: it is done exactly where the private controller can make it.
pub fn an_admin_step_is_the_private_controllers()
    ensures done { (geometry : Geometry) (number : ℕ) (o : Owner) (w : World) → owner_of geometry w number ≡ Some o →
        IsSound o.given.memory_map → (step geometry (event.Admin number) w).reply ≡ reply.Done →
        LeadsTo geometry o AdminQueueStep w (step geometry (event.Admin number) w).world }
    ensures cannot { (geometry : Geometry) (number : ℕ) (o : Owner) (w : World) → owner_of geometry w number ≡ Some o →
        is_done (step geometry (event.Admin number) w).reply ≡ false →
        private_step (shape_of o.given) AdminQueueStep (seat geometry o w) ≡ None }
    ensures only { (geometry : Geometry) (number : ℕ) (o : Owner) (w : World) → owner_of geometry w number ≡ Some o →
        OnlyInSeat o w (step geometry (event.Admin number) w).world }
{}

/// A take is the private controller's, under the name of the lowest free tag.
pub fn a_take_is_the_private_controllers()
    ensures done { (geometry : Geometry) (number queue lane tag : ℕ) (more : List ℕ) (o : Owner) (l : Lane) (w : World) →
        owner_of geometry w number ≡ Some o → slice_get w.lanes lane ≡ Some l → length l.tags ≡ tag_count →
        tags_where is_free l.tags ≡ tag ∷ more → (step geometry (event.Take number queue lane) w).reply ≡ reply.Done →
        LeadsTo geometry o (TakeStep queue (name_of lane tag)) w (step geometry (event.Take number queue lane) w).world }
    ensures only { (geometry : Geometry) (number queue lane : ℕ) (o : Owner) (l : Lane) (w : World) →
        owner_of geometry w number ≡ Some o → slice_get w.lanes lane ≡ Some l →
        (step geometry (event.Take number queue lane) w).reply ≡ reply.Done →
        (addr : ℕ) × (tags : List ℕ) × (front o.controller queue ≡ Some addr)
        × (claimed (tags_of_entry o.given.namespace (entry_at addr o w)) l.tags ≡ Some tags)
        × ((step geometry (event.Take number queue lane) w).world ≡ taken_to addr queue lane tags o w) }
{}

/// A post is the private controller's, after the delivery of all parts of a bounced Read; so is a run-out, after EN was cleared.
pub fn a_post_is_the_private_controllers()
    ensures posted { (geometry : Geometry) (lane tag : ℕ) (command : Command) (st : StatusField) (share : Option Share) (sts : List StatusField)
        (o : Owner) (w : World) → tag_of w lane tag ≡ Some (Ended command st share) → tag < tag_count →
        owner_of geometry w command.guest ≡ Some o → IsSound o.given.memory_map → statuses_of lane (group w lane tag) w ≡ Some sts →
        ending (ended_progress share st (rests_of geometry w lane tag)) ≡ Some (deciding sts) → is_enabled o.controller ≡ true →
        (step geometry (event.Post lane tag) w).reply ≡ reply.Done →
        LeadsTo geometry o (PostStep (name_of lane tag)) (delivered (deciding sts) geometry.mediator lane (group w lane tag) o w)
        (step geometry (event.Post lane tag) w).world }
    ensures ran_out { (geometry : Geometry) (lane tag : ℕ) (command : Command) (st : StatusField) (share : Option Share) (sts : List StatusField)
        (o : Owner) (w : World) → tag_of w lane tag ≡ Some (Ended command st share) → command.leader ≡ tag → tag < tag_count →
        owner_of geometry w command.guest ≡ Some o → IsSound o.given.memory_map → statuses_of lane (group w lane tag) w ≡ Some sts →
        ending (ended_progress share st (rests_of geometry w lane tag)) ≡ Some (deciding sts) → is_enabled o.controller ≡ false →
        LeadsTo geometry o (RunOutStep (name_of lane tag)) (delivered (deciding sts) geometry.mediator lane (group w lane tag) o w)
        (step geometry (event.Post lane tag) w).world }
    ensures held { (geometry : Geometry) (lane tag : ℕ) (command : Command) (st : StatusField) (share : Option Share) (o : Owner) (w : World) →
        tag_of w lane tag ≡ Some (Ended command st share) → owner_of geometry w command.guest ≡ Some o →
        (step geometry (event.Post lane tag) w).reply ≡ reply.Held →
        (sts : List StatusField) × (statuses_of lane (group w lane tag) w ≡ Some sts) × (is_enabled o.controller ≡ true)
        × (post o.controller command.queue 0 (cid_of command.entry) (deciding sts) ≡ None) }
{}
