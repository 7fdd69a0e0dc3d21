//! How guests share the tags of a lane.

ghost use Rattle.std.specs.Prelude.{◌≡◌, ◌+◌, ◌<◌, IfErr, IfOk, MatchOption};
ghost use Rattle.std.specs.List.{sum};
ghost use Rattle.nv_host.specs.Served.{has_share};
ghost use Rattle.nv_host.specs.Shares.{needed_in_all};
ghost use Rattle.nv_host.specs.Sharing.{IsShare, IsShareRefused};
ghost use Rattle.nv_world_model.specs.Area.{tag_count};

use crate::host_mediator::HostMediator;
use nv_mediator::GuestSetup;
use nv_model::limits::TAG_COUNT;

/// Why a guest is not given a share.
#[derive(Clone, Copy, Debug, PartialEq, Eq)]
pub enum ShareRefusal {
    /// There is no such guest.
    NoGuest,
    /// One command of the guest may need more tags: as many as it has extents.
    TooSmall,
    /// The shares of all guests together would be more than the 64 tags of a lane.
    TooLarge,
}

impl HostMediator {
    /// Gives a guest a share: of each lane it has so many tags at most, as far as [`HostMediator::work`] takes its commands. At the start the tags of a lane
    /// are divided: each guest's share is one tag for each of its extents, and of the tags that are left the same number for each guest.
    ///
    /// What the guest has already stays its own.
    ///
    /// # Errors
    ///
    /// [`ShareRefusal`], and no share has changed: there is no such guest, its command may need more, or all shares together would be above 64.
    pub fn set_share(&mut self, guest: u8, tags: u32) -> Result<(), ShareRefusal>
        ensures ok { IfOk result (λ _. IsShare guest tags self.old self.new) }
        ensures err { IfErr result (λ refusal. (self.new ≡ self.old) × IsShareRefused guest tags self.old refusal) }
    {
        let Some(given) = self.layout.guest(guest) else {
            return Err(ShareRefusal::NoGuest);
        };
        let needed = given.ns().len();
        let Some(more) = (tags as usize).checked_sub(needed) else {
            return Err(ShareRefusal::TooSmall);
        };
        let at = usize::from(guest);
        if more > usize::from(self.spare[at]) + self.unshared() {
            return Err(ShareRefusal::TooLarge);
        }
        self.spare[at] = more as u8;
        Ok(())
    }

    // How many tags of a lane are in no guest's share.
    fn unshared(&self) -> usize
        ensures { needed_in_all self.now.setup.geometry.guests + (sum self.now.spare + result) ≡ tag_count }
    {
        self.sizes();
        let mut left = TAG_COUNT;
        for guest in 0..self.spare.len() {
            if let Some(given) = self.layout.guest(guest as u8) {
                left -= given.ns().len();
            }
            left -= usize::from(self.spare[guest]);
        }
        left
    }

    /// Whether a guest has so few tags of a lane that its share has room for one more command.
    #[inline(always)]
    pub(crate) fn has_share(&self, guest: u8, lane: u8) -> bool
        ensures { result ≡ has_share self.now guest lane }
    {
        self.sizes();
        let Some(spare) = self.spare.get(usize::from(guest)) else {
            return false;
        };
        self.front.held_by(lane, guest) <= *spare
    }
}

/// How many of so many tags are left where each guest has what one command of it may need, one for each extent; `None` where there are fewer.
pub(crate) fn tags_left(tags: usize, guests: &[GuestSetup]) -> Option<usize>
    ensures { MatchOption result (tags < needed_in_all guests.now) (λ left. left + needed_in_all guests.now ≡ tags) }
{
    let mut left = tags;
    for guest in guests {
        left = left.checked_sub(guest.extents.len())?;
    }
    Some(left)
}
