//! What is asked of [`HostMediator::work`](crate::HostMediator::work), and what it answers.

ghost use Rattle.std.specs.Prelude.{◌≡◌, ◌+◌, ◌^◌, ◌<◌, ◌≤◌, ◌⊎◌, IsTrue, false, true};

use nv_model::Reply;

/// Of whom what is due is carried out.
#[derive(Clone, Copy, Debug, PartialEq, Eq)]
pub enum Scope {
    /// A guest: its admin commands, and its commands that wait, which are taken and planned.
    Guest(u8),
    /// A lane: the drive's completions, and those of the lane's commands for their guests.
    Lane(u8),
    /// All lanes and all guests.
    All,
}

/// Why a call ended.
#[derive(Clone, Copy, Debug, PartialEq, Eq)]
pub enum Why {
    /// As many events were made as were asked for, or nothing is left.
    Enough,
    /// There was no memory for what is left.
    Starved,
    /// There was no memory for the plan of a command, which was given up.
    GaveUp,
    /// The next completion of this lane names no command that the drive has. The host stops the drive and closes the lane.
    Stray(u8),
}

/// How a call went.
#[derive(Clone, Copy, Debug, PartialEq, Eq)]
pub struct Worked {
    /// How many events were made.
    pub done: u64,
    /// Why there were no more.
    pub why: Why,
}

impl Worked {
    /// So many events, and nothing that stopped them.
    pub(crate) fn so_far(done: u64) -> Self
        ensures { result ≡ record { done = done; why = Why.Enough } }
    {
        Worked {
            done,
            why: Why::Enough,
        }
    }

    /// The whole, where so many events came before these.
    pub(crate) fn after(done: u64, rest: Worked) -> Self
        requires { done + rest.done < 2 ^ 64 }
        ensures { result ≡ record { done = done + rest.done; why = rest.why } }
    {
        Worked {
            done: done + rest.done,
            why: rest.why,
        }
    }

    /// Whether something ended the call.
    pub(crate) fn has_stopped(&self) -> bool
        ensures yes { IsTrue result → self.now.why ≡ Why.Enough → ⊥ }
        ensures no { result ≡ false → self.now.why ≡ Why.Enough }
    {
        match self.why {
            Why::Enough => false,
            Why::Starved | Why::GaveUp | Why::Stray(_) => true,
        }
    }

    /// Whether nothing may come after these: something ended the call, or they are as many as that.
    pub(crate) fn ends(&self, most: u64) -> bool
        ensures yes { IsTrue result → self.now.why ≡ Why.Enough → most ≤ self.now.done }
        ensures no { result ≡ false → (self.now.why ≡ Why.Enough) × (self.now.done < most) }
    {
        if self.has_stopped() {
            return true;
        }
        self.done >= most
    }

    /// Whether no more comes after these: something ended the call, or they are none.
    pub(crate) fn is_last(&self) -> bool
        ensures yes { IsTrue result → self.now.why ≡ Why.Enough → self.now.done ≡ 0 }
        ensures no { result ≡ false → (self.now.why ≡ Why.Enough) × (0 < self.now.done) }
    {
        if self.has_stopped() {
            return true;
        }
        self.done == 0
    }
}

/// How a round of a scope went.
#[derive(Clone, Copy)]
pub(crate) struct Round {
    /// the events of the round
    pub(crate) worked: Worked,
    /// whether it is known that nothing is left
    pub(crate) rests: bool,
}

impl Round {
    /// A round of which it isn't known whether anything is left.
    pub(crate) fn of(worked: Worked) -> Self
        ensures { result ≡ record { worked = worked; rests = false } }
    {
        Round {
            worked,
            rests: false,
        }
    }

    /// Whether no other round follows: something ended the call, or nothing is left.
    pub(crate) fn is_last(&self) -> bool
        ensures yes { IsTrue result → (self.now.rests ≡ true) ⊎ (self.now.worked.why ≡ Why.Enough → self.now.worked.done ≡ 0) }
        ensures no { result ≡ false → (self.now.worked.why ≡ Why.Enough) × (0 < self.now.worked.done) }
    {
        if self.rests {
            return true;
        }
        self.worked.is_last()
    }
}

/// Whether that is the reply to what was done.
pub(crate) fn is_done(reply: &Reply) -> bool
    ensures yes { IsTrue result → reply.now ≡ Reply.Done }
    ensures no { result ≡ false → reply.now ≡ Reply.Done → ⊥ }
{
    matches!(reply, Reply::Done)
}
