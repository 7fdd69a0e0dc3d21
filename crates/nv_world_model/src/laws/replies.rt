//! Each reply comes only where it may, and one that reports no change comes with none.

ghost use Rattle.std.specs.Prelude.{◌≡◌, ℕ, ◌<◌, Bool, true, false, List, Some, filter, length, slice_get};
ghost use Rattle.nv_model.specs.Controller.{front};
ghost use Rattle.nv_model.specs.declared.reply.Reply.TheVariants as reply;
ghost use Rattle.nv_world_model.specs.declared.event.Event.{Event};
ghost use Rattle.nv_world_model.specs.declared.event.Event.TheVariants as event;
ghost use Rattle.nv_world_model.specs.Geometry.{Geometry};
ghost use Rattle.nv_world_model.specs.Laws.{MayAnswer};
ghost use Rattle.nv_world_model.specs.Seat.{Owner, owner_of};
ghost use Rattle.nv_world_model.specs.Share.{tags_of_entry};
ghost use Rattle.nv_world_model.specs.Step.{entry_at, is_telling, step};
ghost use Rattle.nv_world_model.specs.World.{Lane, Tag, World, claimed, is_free};

/// Each event has the replies of its kind alone.
pub fn replies_come_where_they_may()
    ensures may { (geometry : Geometry) (e : Event) (w : World) → MayAnswer e (step geometry e w).reply }
    ensures dull { (geometry : Geometry) (e : Event) (w : World) →
        is_telling (step geometry e w).reply ≡ false → (step geometry e w).world ≡ w }
{}

/// A take finds too few tags only where fewer are free than the command wants; what it finds are as many as it wants, each of them free, and
/// the lowest of the free ones in order.
pub fn a_take_finds_the_lowest_free_tags()
    ensures busy { (geometry : Geometry) (guest queue lane : ℕ) (w : World) (l : Lane) →
        slice_get w.lanes lane ≡ Some l → (step geometry (event.Take guest queue lane) w).reply ≡ reply.Busy →
        (o : Owner) × (addr : ℕ) × (owner_of geometry w guest ≡ Some o) × (front o.controller queue ≡ Some addr)
        × (length (filter is_free l.tags) < tags_of_entry o.given.namespace (entry_at addr o w)) }
    ensures count { (tags : List Tag) (count : ℕ) (found : List ℕ) → claimed count tags ≡ Some found → length found ≡ count }
    ensures free { (tags : List Tag) (count i tag : ℕ) (found : List ℕ) → claimed count tags ≡ Some found → slice_get found i ≡ Some tag →
        (t : Tag) × (slice_get tags tag ≡ Some t) × (is_free t ≡ true) }
    ensures lowest { (tags : List Tag) (count i tag other : ℕ) (found : List ℕ) (t : Tag) → claimed count tags ≡ Some found →
        slice_get found i ≡ Some tag → other < tag → slice_get tags other ≡ Some t → is_free t ≡ true →
        (k : ℕ) × (k < i) × (slice_get found k ≡ Some other) }
    ensures order { (tags : List Tag) (count i j tag other : ℕ) (found : List ℕ) → claimed count tags ≡ Some found →
        slice_get found i ≡ Some tag → slice_get found j ≡ Some other → i < j → tag < other }
{}
