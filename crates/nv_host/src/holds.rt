//! Commands that wait for room in their guests' completion queues, as they are noted.
//!
//! Such a command is noted where its Post was not due for that reason. All notes are dropped once the controller of a guest that has some may have changed,
//! and a Take drops those of its lane whose parts have not ended. Whoever looks for what is due passes by what is noted, so a guest that never looks at its
//! completions costs others nothing.

ghost use Rattle.std.specs.Prelude.{◌≡◌, ◌<◌, ◌==◌, ◌||◌, ◌&&◌, ℕ, not};
ghost use Rattle.std.specs.List.{list_any};
ghost use Rattle.nv_core.specs.News.{tags_at};
ghost use Rattle.nv_host.specs.Holds.{forgotten, no_holds, noted};
ghost use Rattle.nv_tags.specs.Kept.{tags_in};
ghost use Rattle.nv_world_model.specs.SetUp.{most_guests, most_lanes};
ghost use Rattle.nv_world_model.specs.Step.{is_telling};

use nv_model::Reply;
use nv_model::limits::MOST_LANES;
use nv_tags::Group;

const LANE_COUNT: usize = MOST_LANES as usize;

/// Of each lane the tags of such commands, and whose they are, each as a mask.
#[derive(Clone, Copy)]
pub(crate) struct Holds {
    pub(crate) guests: u64,
    pub(crate) tags: [u64; LANE_COUNT],
}

impl Holds {
    /// None.
    pub(crate) fn none() -> Self
        ensures { result ≡ no_holds }
    {
        Holds {
            guests: 0,
            tags: [0; LANE_COUNT],
        }
    }

    /// Those of a lane.
    pub(crate) fn of_lane(&self, lane: u8) -> Group
        ensures { result ≡ tags_at self.now.tags lane }
    {
        let at = usize::from(lane);
        if at >= LANE_COUNT {
            return Group::of(0);
        }
        Group::of(self.tags[at])
    }

    /// Notes commands of a guest's, by tags of a lane.
    pub(crate) fn add(&mut self, lane: u8, tags: &Group, guest: u8)
        requires lane { lane < most_lanes }
        requires guest { guest < most_guests }
        ensures guests { (g : ℕ) → list_any (λ t. t == g) (tags_in self.new.guests) ≡ (list_any (λ t. t == g) (tags_in self.old.guests) || g == guest) }
        ensures tags { (l t : ℕ) → list_any (λ x. x == t) (tags_at self.new.tags l)
            ≡ (list_any (λ x. x == t) (tags_at self.old.tags l) || (l == lane && list_any (λ x. x == t) tags.now)) }
    {
        let mut guests = Group::of(self.guests);
        guests.add_all(Group::one(guest));
        self.guests = guests.mask();
        let at = usize::from(lane);
        let mut all = Group::of(self.tags[at]);
        all.add_all(Group::of(tags.mask()));
        self.tags[at] = all.mask();
    }

    /// Drops what is noted of a lane, but for these tags.
    pub(crate) fn keep(&mut self, lane: u8, tags: Group)
        ensures guests { self.new.guests ≡ self.old.guests }
        ensures tags { (l t : ℕ) → list_any (λ x. x == t) (tags_at self.new.tags l)
            ≡ (list_any (λ x. x == t) (tags_at self.old.tags l) && (not (l == lane) || list_any (λ x. x == t) tags)) }
    {
        let at = usize::from(lane);
        if at >= LANE_COUNT {
            return;
        }
        let mut some = Group::of(self.tags[at]);
        some.keep(tags);
        self.tags[at] = some.mask();
    }

    /// An event that may have changed a guest's controller was answered so: all are dropped where the guest's commands are among them.
    pub(crate) fn note(&mut self, reply: &Reply, guest: u8)
        ensures { self.new ≡ noted self.old reply.now guest }
    {
        if is_telling(reply) {
            self.forget(guest);
        }
    }

    /// Drops all where a guest's commands are among them.
    pub(crate) fn forget(&mut self, guest: u8)
        ensures { self.new ≡ forgotten self.old guest }
    {
        let guests = Group::of(self.guests);
        if guests.has(guest) {
            *self = Holds::none();
        }
    }
}

// Whether that is the reply to an event which may have changed something.
fn is_telling(reply: &Reply) -> bool
    ensures { result ≡ is_telling reply.now }
{
    matches!(reply, Reply::Done | Reply::Bytes(_))
}
