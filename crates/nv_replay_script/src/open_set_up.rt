//! The set-up of a script while its lines are read.
ghost use Rattle.std.specs.Prelude.{◌≡◌, length, MatchResult};
ghost use Rattle.nv_once_script.specs.OnceFault.{Refuses};
ghost use Rattle.nv_replay_script.specs.ReplaySetUp.{in_place};

use crate::set_up::{GuestSetUp, known, make_guest, make_region};
use crate::sizes::OpenSizes;
use crate::vocabulary::{SetUpKind, Size};
use nv_once_script::FaultKind;
use nv_once_script::once::fault::LineFault;
use nv_once_script::once::word::Word;
use nv_once_script::once::words::Words;
use std::alloc::Global;

/// How many words follow `guest`.
const GUEST_ARGUMENTS: usize = 6;

/// What the set-up lines so far have said.
#[derive(Drop)]
pub struct OpenSetUp {
    /// the sizes that they named
    pub sizes: OpenSizes,
    /// the guests, in order
    pub guests: Vec<GuestSetUp>,
}

impl OpenSetUp {
    ghost use Rattle.nv_replay_script.specs.ReplaySetUp.{add_descriptors, add_extent, add_guest, add_map, add_size};
    ghost use Rattle.nv_replay_script.specs.ReplaySetUp.{counted_set_up, no_set_up, set_up_so_far};

    /// Before the first line.
    pub fn new(alloc: Global) -> Self
        ensures { set_up_so_far result ≡ no_set_up }
    {
        OpenSetUp {
            sizes: OpenSizes::new(),
            guests: Vec::new(alloc),
        }
    }

    /// Adds what a set-up line of this kind says, where its words are as many as it needs and it is early: it comes before all lines that are not
    /// of the set-up.
    ///
    /// # Errors
    ///
    /// [`LineFault::Faulty`]: `MissingWord` or `TooManyWords`; `OutOfPlace` for a late line, a second size or limit, or a wrong guest
    /// number; `UnknownWord` for a wrong word in `guest`; `BadNumber`. [`LineFault::NoMemory`] where memory is refused. The contract does
    /// not say what the set-up is then.
    pub fn add(
        &mut self,
        alloc: Global,
        is_early: bool,
        kind: SetUpKind,
        words: Words<'_>,
    ) -> Result<(), LineFault>
        ensures { let after = counted_set_up (set_up_so_far self.old) is_early kind words.entry
            in MatchResult result (λ _. after ≡ Ok (set_up_so_far self.new)) (Refuses after) }
    {
        match kind {
            SetUpKind::Size(size) => {
                let word = words.one()?;
                check_early(is_early)?;
                self.add_size(size, word)
            }
            SetUpKind::Guest => {
                words.check_count(GUEST_ARGUMENTS)?;
                check_early(is_early)?;
                self.add_guest(alloc, words)
            }
            SetUpKind::Extent => {
                let (number, base, blocks) = words.three()?;
                check_early(is_early)?;
                self.add_extent(number, base, blocks)
            }
            SetUpKind::Map => {
                let (number, guest, host, len) = words.four()?;
                check_early(is_early)?;
                self.add_map(number, guest, host, len)
            }
            SetUpKind::Descriptors => {
                let (number, limit) = words.two()?;
                check_early(is_early)?;
                self.add_descriptors(number, limit)
            }
        }
    }

    // Adds what a line that names a size says.
    fn add_size(&mut self, size: Size, word: Word<'_>) -> Result<(), LineFault>
        ensures { let after = add_size (set_up_so_far self.old) size word.entry
            in MatchResult result (λ _. after ≡ Ok (set_up_so_far self.new)) (Refuses after) }
    {
        self.sizes = self.sizes.name(size, word)?;
        Ok(())
    }

    // Adds the guest of a line `guest`.
    fn add_guest(&mut self, alloc: Global, words: Words<'_>) -> Result<(), LineFault>
        requires { length words ≡ 6 }
        ensures { let after = add_guest (set_up_so_far self.old) words.entry
            in MatchResult result (λ _. after ≡ Ok (set_up_so_far self.new)) (Refuses after) }
    {
        let guest = make_guest(alloc, self.guests.len(), words)?;
        self.guests.push(guest)?;
        Ok(())
    }

    // Adds the extent of a line `extent`.
    fn add_extent(
        &mut self,
        number: Word<'_>,
        base: Word<'_>,
        blocks: Word<'_>,
    ) -> Result<(), LineFault>
        ensures { let after = add_extent (set_up_so_far self.old) number.entry base.entry blocks.entry
            in MatchResult result (λ _. after ≡ Ok (set_up_so_far self.new)) (Refuses after) }
    {
        let number = known(self.guests.len(), number)?;
        self.guests[number].add_extent(base, blocks)
    }

    // Adds the region of a line `map`.
    fn add_map(
        &mut self,
        number: Word<'_>,
        guest: Word<'_>,
        host: Word<'_>,
        len: Word<'_>,
    ) -> Result<(), LineFault>
        ensures { let after = add_map (set_up_so_far self.old) number.entry guest.entry host.entry len.entry
            in MatchResult result (λ _. after ≡ Ok (set_up_so_far self.new)) (Refuses after) }
    {
        let number = known(self.guests.len(), number)?;
        let region = make_region(guest, host, len)?;
        self.guests[number].regions.push(region)?;
        Ok(())
    }

    // Adds the limit of a line `descriptors`.
    fn add_descriptors(&mut self, number: Word<'_>, limit: Word<'_>) -> Result<(), LineFault>
        ensures { let after = add_descriptors (set_up_so_far self.old) number.entry limit.entry
            in MatchResult result (λ _. after ≡ Ok (set_up_so_far self.new)) (Refuses after) }
    {
        let number = known(self.guests.len(), number)?;
        let guest = &mut self.guests[number];
        let limit = guest.first_limit(limit)?;
        guest.limit = Some(limit);
        Ok(())
    }
}

// That a set-up line is early.
fn check_early(is_early: bool) -> Result<(), FaultKind>
    ensures { result ≡ in_place is_early }
{
    if is_early {
        Ok(())
    } else {
        Err(FaultKind::OutOfPlace)
    }
}
