//! How many events of each kind there were.

use crate::desk::Form;
use nv_model::Act;
use nv_world_model::Event;

/// The call of a host's mediator that an event is, or that it is the drive's.
#[derive(Clone, Copy, Debug, PartialEq, Eq)]
pub enum Kind {
    RegRead,
    RegWrite,
    Doorbell,
    Store,
    Load,
    LentStore,
    LentLoad,
    Admin,
    Take,
    List,
    Submit,
    SubmitPlan,
    GiveUp,
    Reap,
    Post,
    Drive,
}

/// How many kinds there are.
pub const KINDS: usize = 16;

impl Kind {
    /// The kind of an event in one of its forms.
    pub fn of(event: &Event, form: Form) -> Self {
        let lent = form == Form::Lent;
        match event {
            Event::Guest(_, act) => Kind::of_act(act, lent),
            Event::Admin(_) => Kind::Admin,
            Event::Take(_, _, _) => Kind::Take,
            Event::List(_, _, _, _) => Kind::List,
            Event::Submit(_, _) if lent => Kind::SubmitPlan,
            Event::Submit(_, _) => Kind::Submit,
            Event::GiveUp(_, _) => Kind::GiveUp,
            Event::Reap(_) => Kind::Reap,
            Event::Post(_, _) => Kind::Post,
            _ => Kind::Drive,
        }
    }

    // The kind of an act.
    fn of_act(act: &Act, lent: bool) -> Self {
        match act {
            Act::RegRead { .. } => Kind::RegRead,
            Act::RegWrite { .. } => Kind::RegWrite,
            Act::Doorbell { .. } => Kind::Doorbell,
            Act::Store { .. } if lent => Kind::LentStore,
            Act::Store { .. } => Kind::Store,
            Act::Load { .. } if lent => Kind::LentLoad,
            Act::Load { .. } => Kind::Load,
        }
    }

    // Its number.
    fn number(self) -> usize {
        match self {
            Kind::RegRead => 0,
            Kind::RegWrite => 1,
            Kind::Doorbell => 2,
            Kind::Store => 3,
            Kind::Load => 4,
            Kind::LentStore => 5,
            Kind::LentLoad => 6,
            Kind::Admin => 7,
            Kind::Take => 8,
            Kind::List => 9,
            Kind::Submit => 10,
            Kind::SubmitPlan => 11,
            Kind::GiveUp => 12,
            Kind::Reap => 13,
            Kind::Post => 14,
            Kind::Drive => 15,
        }
    }
}

/// Of each kind: how many events there were, and how many of them were done.
#[derive(Clone, Copy)]
pub struct Counts {
    pub events: [u32; KINDS],
    pub done: [u32; KINDS],
}

impl Counts {
    /// None of any kind.
    pub fn new() -> Self {
        Counts {
            events: [0; KINDS],
            done: [0; KINDS],
        }
    }

    /// Counts an event.
    pub fn count(&mut self, kind: Kind, done: bool) {
        add_to(&mut self.events, kind);
        if done {
            add_to(&mut self.done, kind);
        }
    }

    /// The fewest events of any kind, and the fewest that were done.
    pub fn fewest(&self) -> (u32, u32) {
        (least(&self.events), least(&self.done))
    }

    /// How many events of a kind were done.
    pub fn done_of(&self, kind: Kind) -> u32 {
        self.done.get(kind.number()).copied().unwrap_or(0)
    }
}

// Adds one to the number of a kind.
fn add_to(numbers: &mut [u32], kind: Kind) {
    if let Some(number) = numbers.get_mut(kind.number()) {
        *number = number.saturating_add(1);
    }
}

// The least of some numbers.
fn least(numbers: &[u32]) -> u32 {
    numbers
        .iter()
        .fold(u32::MAX, |least, number| least.min(*number))
}
