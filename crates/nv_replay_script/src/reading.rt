//! A script while its lines are read.
ghost use Rattle.std.specs.Prelude.{◌≡◌, MatchResult};
ghost use Rattle.nv_once_script.specs.OnceFault.{Refuses};
ghost use Rattle.nv_once_script.specs.OnceWords.{words_of};

use crate::event::push_event;
use crate::open_set_up::OpenSetUp;
use crate::script::Script;
use crate::vocabulary::{AWAIT_ARGUMENTS, EventKind, Keyword, leading, look_up};
use nv_once_script::once::fault::LineFault;
use nv_once_script::once::words::Words;
use nv_once_script::{FaultKind, ScriptFault};
use nv_world_model::Event;
use std::alloc::Global;

/// What the lines so far have said.
#[derive(Drop)]
pub struct Reading {
    pub set_up: OpenSetUp,
    pub events: Vec<Event>,
}

impl Reading {
    ghost use Rattle.nv_replay_script.specs.ReplayScript.{add_event, after_keyword, after_line, finished, nothing, progress, script_value};

    /// Before the first line.
    pub fn new(alloc: Global) -> Self
        ensures { progress result ≡ nothing }
    {
        Reading {
            set_up: OpenSetUp::new(alloc),
            events: Vec::new(alloc),
        }
    }

    /// Reads the next line.
    ///
    /// # Errors
    ///
    /// [`LineFault::Faulty`]: `UnknownWord`; `MissingWord` or `TooManyWords`; `OutOfPlace` for a line of another language, or an event
    /// before all sizes; or as [`OpenSetUp::add`] and [`push_event`] return it. [`LineFault::NoMemory`] where memory is refused. The
    /// contract does not say what the reading is then.
    pub fn read(&mut self, alloc: Global, line: &[u8]) -> Result<(), LineFault>
        ensures { let after = after_line 1 (progress self.old) (words_of line.now)
            in MatchResult result (λ _. after ≡ Ok (progress self.new)) (Refuses after) }
    {
        match leading(line) {
            Some((keyword, behind)) => self.add(alloc, keyword, Words::of(behind)),
            None => self.read_any(alloc, line),
        }
    }

    // Reads the next line, whatever it begins with.
    #[inline(never)]
    fn read_any(&mut self, alloc: Global, line: &[u8]) -> Result<(), LineFault>
        ensures { let after = after_line 1 (progress self.old) (words_of line.now)
            in MatchResult result (λ _. after ≡ Ok (progress self.new)) (Refuses after) }
    {
        let mut words = Words::of(line);
        let Some(first) = words.next_name() else {
            return Ok(());
        };
        let keyword = look_up(first).ok_or(FaultKind::UnknownWord)?;
        self.add(alloc, keyword, words)
    }

    // Adds what a line with this keyword says, where its words are as many as it wants.
    #[inline(always)]
    fn add(&mut self, alloc: Global, keyword: Keyword, words: Words<'_>) -> Result<(), LineFault>
        ensures { let after = after_keyword (progress self.old) keyword words.entry
            in MatchResult result (λ _. after ≡ Ok (progress self.new)) (Refuses after) }
    {
        match keyword {
            Keyword::Event(kind) => self.add_event(alloc, kind, words),
            Keyword::SetUp(kind) => {
                let is_early = self.events.is_empty();
                self.set_up.add(alloc, is_early, kind, words)
            }
            Keyword::Await | Keyword::AwaitReg => {
                words.check_count(AWAIT_ARGUMENTS)?;
                Err(LineFault::Faulty(FaultKind::OutOfPlace))
            }
            Keyword::Foreign(arguments) => {
                words.check_count(arguments)?;
                Err(LineFault::Faulty(FaultKind::OutOfPlace))
            }
        }
    }

    // Adds the event of a line, once all sizes are there.
    #[inline(always)]
    fn add_event(
        &mut self,
        alloc: Global,
        kind: EventKind,
        words: Words<'_>,
    ) -> Result<(), LineFault>
        ensures { let after = add_event (progress self.old) kind words.entry
            in MatchResult result (λ _. after ≡ Ok (progress self.new)) (Refuses after) }
    {
        let Some(_) = self.set_up.sizes.whole() else {
            words.check_count(kind.arguments())?;
            return Err(LineFault::Faulty(FaultKind::OutOfPlace));
        };
        push_event(alloc, kind, words, &mut self.events)
    }

    /// The script whose last line is this one.
    ///
    /// # Errors
    ///
    /// [`ScriptFault::Line`] with line `last` and [`FaultKind::OutOfPlace`] where one of the four sizes was not named.
    pub fn finish(self, last: u64) -> Result<Script, ScriptFault>
        ensures { MatchResult result (λ script. finished last (progress self) ≡ Ok (script_value script))
            (λ fault. finished last (progress self) ≡ Err fault) }
    {
        match self.set_up.sizes.whole() {
            Some(sizes) => Ok(Script {
                sizes,
                guests: self.set_up.guests,
                events: self.events,
            }),
            None => Err(LineFault::Faulty(FaultKind::OutOfPlace).on(last)),
        }
    }
}
