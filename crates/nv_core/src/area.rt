//! Where a tag's pages and the slots of its lane's submission ring lie in the mediator's area of the host's memory.

ghost use Rattle.std.specs.Prelude.{◌≡◌, ◌+◌, ◌<◌, ◌^◌};
ghost use Rattle.nv_core.specs.Submit.{IsPlaced};
ghost use Rattle.nv_world_model.specs.Area.{bounce_page, completion_slot, lane_start, list_page, ring_size, submission_slot};

use nv_model::limits::{
    CQE_SIZE, LANE_PAGES, PAGE_SIZE, RING_PAGES, SQE_SIZE, SUBMISSION_RING_PAGES, TAG_PAGES,
};

/// A tag of a lane, and the host address at which the area of all lanes begins.
#[derive(Clone, Copy, Debug, PartialEq, Eq)]
pub(crate) struct TagPlace {
    /// Where the area begins.
    pub(crate) mediator: u64,
    /// The lane.
    pub(crate) lane: u8,
    /// Its tag.
    pub(crate) tag: u8,
}

impl TagPlace {
    /// The host address of the tag's list page.
    pub(crate) fn list_page(self) -> u64
        requires { IsPlaced self.mediator self.lane self.tag }
        ensures { result ≡ list_page self.mediator self.lane self.tag }
    {
        self.mediator
            + PAGE_SIZE
                * (LANE_PAGES * u64::from(self.lane) + RING_PAGES + TAG_PAGES * u64::from(self.tag))
    }

    /// The host address of the first of the tag's 32 bounce pages.
    pub(crate) fn bounce_page(self) -> u64
        requires { IsPlaced self.mediator self.lane self.tag }
        ensures { result ≡ bounce_page self.mediator self.lane self.tag }
    {
        self.list_page() + PAGE_SIZE
    }

    /// The host address of a slot of the lane's submission ring.
    pub(crate) fn submission_slot(self, at: u16) -> u64
        requires placed { IsPlaced self.mediator self.lane self.tag }
        requires at { at < ring_size }
        ensures { result ≡ submission_slot self.mediator self.lane at }
    {
        self.mediator + PAGE_SIZE * LANE_PAGES * u64::from(self.lane) + SQE_SIZE * u64::from(at)
    }
}

/// The host address of a slot of a lane's completion ring, where the area of all lanes begins at `mediator`.
pub(crate) fn completion_slot(mediator: u64, lane: u8, at: u16) -> u64
    requires area { lane_start mediator (lane + 1) < 2 ^ 64 }
    requires at { at < ring_size }
    ensures { result ≡ completion_slot mediator lane at }
{
    mediator
        + PAGE_SIZE * (LANE_PAGES * u64::from(lane) + SUBMISSION_RING_PAGES)
        + CQE_SIZE * u64::from(at)
}
