//! The machine does not ask where parts are that were handed on.

ghost use Rattle.std.specs.Prelude.{◌≡◌, ℕ, All, List, length, take};
ghost use Rattle.nv_laws_sound.specs.LaidOut.{IsLaidOut};
ghost use Rattle.nv_laws_sound.specs.Side.{IsKept, Side};
ghost use Rattle.nv_laws_sound.specs.Unplaced.{HasSameSide};
ghost use Rattle.nv_machine.specs.Contained.{AreFetched, IsContained, IsFetched, LeavesOthers, MayDo, MayFetch, after_calls, guest_for};
ghost use Rattle.nv_machine.specs.InWorld.{AreOnPages, side_of};
ghost use Rattle.nv_machine.specs.Machine.{call, fetch, fetch_then};
ghost use Rattle.nv_machine.specs.Unplaced.{AreSameButPlaces, ComeToSameButPlaces, unplaced_side};
ghost use Rattle.nv_world_model.specs.Geometry.{Geometry};
ghost use Rattle.nv_world_model.specs.World.{World};
ghost use Rattle.nv_world_model.specs.declared.event.Event.{Event};

/// A side without places is the same side but for places; and two worlds have the same side of the mediator, as the laws of the world say it, where their
/// sides are the same but for places.
pub fn a_side_is_the_same_without_places()
    ensures unplaced { (s : Side) → AreSameButPlaces (unplaced_side s) s }
    ensures back { (s z : Side) → AreSameButPlaces s z → AreSameButPlaces z s }
    ensures sides { (w v : World) → HasSameSide w v → AreSameButPlaces (side_of w) (side_of v) }
    ensures worlds { (w v : World) → AreSameButPlaces (side_of w) (side_of v) → HasSameSide w v }
{}

/// Of two sides that are the same but for places, whatever else they hold, a call fetches from the same addresses, is for the same guest, has with the same
/// fetched bytes the same reply and the same effects, and comes to sides that are the same but for places.
pub fn a_call_does_not_ask_where_parts_are()
    ensures fetches { (geometry : Geometry) (e : Event) (s z : Side) → AreSameButPlaces s z → fetch geometry e s ≡ fetch geometry e z }
    ensures fetches_then { (geometry : Geometry) (e : Event) (first : List ℕ) (s z : Side) → AreSameButPlaces s z →
        fetch_then geometry e s first ≡ fetch_then geometry e z first }
    ensures guests { (e : Event) (fetched : List ℕ) (s z : Side) → AreSameButPlaces s z → guest_for e fetched s ≡ guest_for e fetched z }
    ensures calls { (geometry : Geometry) (e : Event) (fetched : List ℕ) (s z : Side) → AreSameButPlaces s z →
        ComeToSameButPlaces (call geometry e fetched s) (call geometry e fetched z) }
    ensures several { (geometry : Geometry) (calls : List (Event × List ℕ)) (s z : Side) → AreSameButPlaces s z →
        AreSameButPlaces (after_calls geometry calls s) (after_calls geometry calls z) }
{}

/// A side keeps what the mediator's side keeps where one does that is the same but for places, and for the same calls as many bytes are asked for.
pub fn what_is_kept_does_not_ask_where_parts_are()
    ensures kept { (geometry : Geometry) (s z : Side) → AreSameButPlaces s z → IsKept geometry z → IsKept geometry s }
    ensures pages { (s z : Side) → AreSameButPlaces s z → AreOnPages z.controllers → AreOnPages s.controllers }
    ensures fetched { (geometry : Geometry) (e : Event) (fetched : List ℕ) (s z : Side) → AreSameButPlaces s z → IsFetched geometry e z fetched →
        IsFetched geometry e s fetched }
    ensures all_fetched { (geometry : Geometry) (calls : List (Event × List ℕ)) (s z : Side) → AreSameButPlaces s z → AreFetched geometry calls z →
        AreFetched geometry calls s }
{}

/// In a side that is the same but for places a call may fetch and do the same, and it leaves others' alone where it does so in the one, whatever the sides are.
/// What `IsContained` says more is told with places (what was handed on is as it was before, place and all): so a call that is contained is contained in the
/// other where its side keeps what the mediator's side keeps.
pub fn containment_does_not_ask_where_parts_are()
    ensures first { (geometry : Geometry) (e : Event) (fetched : List ℕ) (s z : Side) → AreSameButPlaces s z →
        All (MayFetch geometry e s (guest_for e fetched s)) (fetch geometry e s) → All (MayFetch geometry e z (guest_for e fetched z)) (fetch geometry e z) }
    ensures then { (geometry : Geometry) (e : Event) (fetched : List ℕ) (s z : Side) → AreSameButPlaces s z →
        All (MayFetch geometry e s (guest_for e fetched s)) (fetch_then geometry e s (take (length (fetch geometry e s)) fetched)) →
        All (MayFetch geometry e z (guest_for e fetched z)) (fetch_then geometry e z (take (length (fetch geometry e z)) fetched)) }
    ensures effects { (geometry : Geometry) (e : Event) (fetched : List ℕ) (s z : Side) → AreSameButPlaces s z →
        All (MayDo geometry s (call geometry e fetched s).now.side (guest_for e fetched s)) (call geometry e fetched s).now.effects →
        All (MayDo geometry z (call geometry e fetched z).now.side (guest_for e fetched z)) (call geometry e fetched z).now.effects }
    ensures others { (geometry : Geometry) (e : Event) (fetched : List ℕ) (s z : Side) → AreSameButPlaces s z →
        LeavesOthers (guest_for e fetched s) s (call geometry e fetched s).now.side →
        LeavesOthers (guest_for e fetched z) z (call geometry e fetched z).now.side }
    ensures contained { (host_bytes lanes : ℕ) (geometry : Geometry) (e : Event) (fetched : List ℕ) (s z : Side) →
        IsLaidOut host_bytes lanes geometry → IsKept geometry s → AreSameButPlaces s z → IsContained geometry e fetched s → IsContained geometry e fetched z }
{}
