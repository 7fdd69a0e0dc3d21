//! The tags of a lane: those whose commands are at one point, and how many a guest has.

ghost use Rattle.std.specs.Prelude.{◌≡◌, ◌<◌, length, nat_lt, slice_get};
ghost use Rattle.nv_core.specs.Held.{held_in};
ghost use Rattle.nv_core.specs.Kept.{IsLent};
ghost use Rattle.nv_core.specs.News.{has_news, is_busy, others, tags_at};
ghost use Rattle.nv_core.specs.Tags.{ended_in, flying_in, taken_in};
ghost use Rattle.nv_vctl.specs.Next.{IsNext};
ghost use Rattle.nv_world_model.specs.SetUp.{most_guests};

use crate::front::Front;
use crate::layout::Layout;
use nv_mem::MemoryCell;
use nv_tags::Group;

impl Front {
    /// The tags of a lane whose commands wait for their plans, in order; none where there is no such lane.
    #[inline(always)]
    pub fn taken(&self, lane: u8) -> Group
        ensures { result ≡ taken_in (slice_get self.now.lanes lane) }
    {
        let at = usize::from(lane);
        if at >= self.lanes.len() {
            return Group::none();
        }
        self.lanes[at].taken()
    }

    /// Whether something may be due of a lane: some part has ended, or a completion of the physical controller waits.
    #[inline(always)]
    pub fn has_news<C: MemoryCell>(&self, layout: &Layout, lane: u8, host: &[C]) -> bool
        requires { IsLent layout.now self.now (C.bytes host.now) }
        ensures { result ≡ has_news layout.now lane (slice_get self.now.lanes lane) (C.bytes host.now) }
    {
        let mut ended = self.ended(lane);
        if ended.pop().is_some() {
            return true;
        }
        self.reap_due(layout, lane, host)
    }

    // Whether some command of a lane waits for its plan, some part has ended that is none of these, or a completion of the physical controller waits.
    #[inline(always)]
    fn is_busy<C: MemoryCell>(&self, layout: &Layout, lane: u8, held: &[u64], host: &[C]) -> bool
        requires { IsLent layout.now self.now (C.bytes host.now) }
        ensures { result ≡ is_busy layout.now lane (slice_get self.now.lanes lane) (tags_at held.now lane) (C.bytes host.now) }
    {
        let mut taken = self.taken(lane);
        if taken.pop().is_some() {
            return true;
        }
        self.has_ended(lane, held) || self.reap_due(layout, lane, host)
    }

    // Whether some part of a lane has ended that is none of these. They are looked at only where some part has.
    #[inline(always)]
    fn has_ended(&self, lane: u8, held: &[u64]) -> bool
        ensures { result ≡ nat_lt 0 (length (others (tags_at held.now lane) (ended_in (slice_get self.now.lanes lane)))) }
    {
        let mut ended = self.ended(lane);
        if ended.pop().is_none() {
            return false;
        }
        let mut others = self.ended(lane);
        others.drop_all(tags_at(held, lane));
        others.pop().is_some()
    }

    /// The first lane, from number `from` on and below number `to`, of which something may be due: a command waits for its plan, some part has ended that
    /// is none of those `held` of its lane, or a completion of the physical controller waits. It is `to` where that is none of them.
    #[inline(never)]
    pub fn next_busy<C: MemoryCell>(
        &self,
        layout: &Layout,
        from: u8,
        to: u8,
        held: &[u64],
        host: &[C],
    ) -> u8
        requires { IsLent layout.now self.now (C.bytes host.now) }
        ensures { IsNext (λ lane. is_busy layout.now lane (slice_get self.now.lanes lane) (tags_at held.now lane) (C.bytes host.now)) from to result }
    {
        for lane in from..to {
            if self.is_busy(layout, lane, held, host) {
                return lane;
            }
        }
        to
    }

    /// The tags of a lane whose parts are with the physical controller, in order; none where there is no such lane.
    #[inline(always)]
    pub fn flying(&self, lane: u8) -> Group
        ensures { result ≡ flying_in (slice_get self.now.lanes lane) }
    {
        let at = usize::from(lane);
        if at >= self.lanes.len() {
            return Group::none();
        }
        self.lanes[at].flying()
    }

    /// The tags of a lane whose parts have ended, in order; none where there is no such lane.
    #[inline(always)]
    pub fn ended(&self, lane: u8) -> Group
        ensures { result ≡ ended_in (slice_get self.now.lanes lane) }
    {
        let at = usize::from(lane);
        if at >= self.lanes.len() {
            return Group::none();
        }
        self.lanes[at].ended_parts()
    }

    /// How many tags of a lane the commands of a guest, 0 to 15, have; none where there is no such lane.
    #[inline(always)]
    pub fn held_by(&self, lane: u8, guest: u8) -> u8
        requires { guest < most_guests }
        ensures { result ≡ held_in guest (slice_get self.now.lanes lane) }
    {
        let at = usize::from(lane);
        if at >= self.lanes.len() {
            return 0;
        }
        self.lanes[at].held_by(guest)
    }
}

// The tags of a lane, where there is a mask of each lane's; none where there is none of that one.
#[inline(always)]
fn tags_at(masks: &[u64], lane: u8) -> Group
    ensures { result ≡ tags_at masks.now lane }
{
    let at = usize::from(lane);
    if at >= masks.len() {
        return Group::of(0);
    }
    Group::of(masks[at])
}
