//! Where the rings of a lane are, for whoever rings the physical controller's doorbells.

ghost use Rattle.std.specs.Prelude.{◌≡◌, option_map, slice_get};

use crate::front::Front;

impl Front {
    /// The slot of a lane's submission ring that the next entry goes to, 0 to 64: what the ring's tail doorbell is to have. `None` where there is no
    /// such lane.
    pub fn tail(&self, lane: u8) -> Option<u16>
        ensures { result ≡ slice_get self.now.tails lane }
    {
        let at = usize::from(lane);
        if at >= self.tails.len() {
            return None;
        }
        Some(self.tails[at])
    }

    /// The slot of a lane's completion ring that is read next, 0 to 64: what the ring's head doorbell is to have. `None` where there is no such lane.
    pub fn head(&self, lane: u8) -> Option<u16>
        ensures { result ≡ option_map (λ l. l.head) (slice_get self.now.lanes lane) }
    {
        let at = usize::from(lane);
        if at >= self.lanes.len() {
            return None;
        }
        Some(self.lanes[at].head())
    }
}
