//! The guests' shares of a lane's tags.

ghost use Rattle.std.specs.Prelude.{◌≡◌};
ghost use Rattle.nv_c.specs.Calls.{Either, On};
ghost use Rattle.nv_c.specs.Serving.{HasNoShares, IsShareGiven, status_of_share};

use crate::handle::Nvmed;
use crate::held::Held;
use crate::status;
use nv_host::{HostMediator, ShareRefusal};
use std::alloc::Global;

/// Gives a guest a share of each lane's tags: what it is answered.
pub(crate) fn give(alloc: Global, handle: &mut Nvmed, guest: u8, tags: u32) -> u32
    ensures { On (Either HasNoShares (IsShareGiven guest tags)) handle.old.hosted result handle.new.hosted }
{
    let Some(mut held) = handle.take(alloc) else {
        return status::NO_MEDIATOR;
    };
    let answer = given(&mut held, guest, tags);
    handle.put(alloc, held);
    answer
}

// The same of a mediator of either kind.
fn given(held: &mut Held, guest: u8, tags: u32) -> u32
    ensures { Either HasNoShares (IsShareGiven guest tags) held.old result held.new }
{
    match held {
        Held::Simulated(_simulated) => status::NO_SUCH,
        Held::Serving(mediator) => served_share(mediator, guest, tags),
    }
}

// The same of one that is lent the host's memory.
fn served_share(mediator: &mut HostMediator, guest: u8, tags: u32) -> u32
    ensures { IsShareGiven guest tags mediator.old result mediator.new }
{
    match mediator.set_share(guest, tags) {
        Ok(()) => status::OK,
        Err(refusal) => of_refusal(refusal),
    }
}

// Why a guest is not given a share, as it is answered.
fn of_refusal(refusal: ShareRefusal) -> u32
    ensures { result ≡ status_of_share refusal }
{
    match refusal {
        ShareRefusal::NoGuest => status::IGNORED,
        ShareRefusal::TooSmall | ShareRefusal::TooLarge => status::BAD_SIZE,
    }
}
