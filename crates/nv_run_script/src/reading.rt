//! A script while its lines are read.
ghost use Rattle.std.specs.Prelude.{◌≡◌, MatchResult};
ghost use Rattle.nv_once_script.specs.OnceFault.{Refuses};
ghost use Rattle.nv_once_script.specs.OnceWords.{words_of};

use crate::line::{Line, make_act_line, make_await_line, make_await_register_line};
use crate::script::Script;
use nv_once_script::once::fault::LineFault;
use nv_once_script::once::words::Words;
use nv_once_script::{FaultKind, ScriptFault};
use nv_replay_script::open_set_up::OpenSetUp;
use nv_replay_script::vocabulary::{ActKind, EventKind, Keyword, look_up};
use std::alloc::Global;

/// What the lines so far have said.
#[derive(Drop)]
pub struct Reading {
    pub set_up: OpenSetUp,
    pub lines: Vec<Line>,
}

impl Reading {
    ghost use Rattle.nv_run_script.specs.RunScript.{add_act, add_await, add_await_register, after_keyword, after_line, finished, nothing, progress, script_value, whole_sizes};

    /// Before the first line.
    pub fn new(alloc: Global) -> Self
        ensures { progress result ≡ nothing }
    {
        Reading {
            set_up: OpenSetUp::new(alloc),
            lines: Vec::new(alloc),
        }
    }

    /// Reads the next line, which is line `number` of the text.
    ///
    /// # Errors
    ///
    /// [`LineFault::Faulty`]: `UnknownWord`; `MissingWord` or `TooManyWords`; `OutOfPlace` for another language's line, or a guest's line
    /// before all sizes; or as [`OpenSetUp::add`] or the line's maker returns it. [`LineFault::NoMemory`] where memory is refused. The
    /// contract does not say what the reading is then.
    pub fn read(&mut self, alloc: Global, number: u64, line: &[u8]) -> Result<(), LineFault>
        ensures { let after = after_line number (progress self.old) (words_of line.now)
            in MatchResult result (λ _. after ≡ Ok (progress self.new)) (Refuses after) }
    {
        let mut words = Words::of(line);
        let Some(first) = words.next_name() else {
            return Ok(());
        };
        let keyword = look_up(first).ok_or(FaultKind::UnknownWord)?;
        self.add(alloc, number, keyword, words)
    }

    // Adds what line `number` with this keyword says, where its words are as many as it wants.
    fn add(
        &mut self,
        alloc: Global,
        number: u64,
        keyword: Keyword,
        words: Words<'_>,
    ) -> Result<(), LineFault>
        ensures { let after = after_keyword number (progress self.old) keyword words.entry
            in MatchResult result (λ _. after ≡ Ok (progress self.new)) (Refuses after) }
    {
        match keyword {
            Keyword::Event(EventKind::Act(kind)) => self.add_act(alloc, number, kind, words),
            Keyword::Await => self.add_await(number, words),
            Keyword::AwaitReg => self.add_await_register(number, words),
            Keyword::SetUp(kind) => {
                let is_early = self.lines.is_empty();
                self.set_up.add(alloc, is_early, kind, words)
            }
            Keyword::Event(kind) => {
                words.check_count(kind.arguments())?;
                Err(LineFault::Faulty(FaultKind::OutOfPlace))
            }
            Keyword::Foreign(arguments) => {
                words.check_count(arguments)?;
                Err(LineFault::Faulty(FaultKind::OutOfPlace))
            }
        }
    }

    // Adds a guest's act, once all sizes are there.
    fn add_act(
        &mut self,
        alloc: Global,
        number: u64,
        kind: ActKind,
        words: Words<'_>,
    ) -> Result<(), LineFault>
        ensures { let after = add_act number (progress self.old) kind words.entry
            in MatchResult result (λ _. after ≡ Ok (progress self.new)) (Refuses after) }
    {
        words.check_count(1 + kind.arguments())?;
        self.check_sizes()?;
        let count = self.set_up.guests.len();
        let line = make_act_line(alloc, count, number, kind, words)?;
        self.lines.push(line)?;
        Ok(())
    }

    // Adds an `await`, once all sizes are there.
    fn add_await(&mut self, number: u64, words: Words<'_>) -> Result<(), LineFault>
        ensures { let after = add_await number (progress self.old) words.entry
            in MatchResult result (λ _. after ≡ Ok (progress self.new)) (Refuses after) }
    {
        let (guest, addr, value) = words.three()?;
        self.check_sizes()?;
        let count = self.set_up.guests.len();
        let line = make_await_line(count, number, guest, addr, value)?;
        self.lines.push(line)?;
        Ok(())
    }

    // Adds an `awaitreg`, once all sizes are there.
    fn add_await_register(&mut self, number: u64, words: Words<'_>) -> Result<(), LineFault>
        ensures { let after = add_await_register number (progress self.old) words.entry
            in MatchResult result (λ _. after ≡ Ok (progress self.new)) (Refuses after) }
    {
        let (guest, offset, value) = words.three()?;
        self.check_sizes()?;
        let count = self.set_up.guests.len();
        let line = make_await_register_line(count, number, guest, offset, value)?;
        self.lines.push(line)?;
        Ok(())
    }

    // That all four sizes are there.
    fn check_sizes(&self) -> Result<(), FaultKind>
        ensures { result ≡ whole_sizes self.now.set_up.sizes }
    {
        match self.set_up.sizes.whole() {
            Some(_) => Ok(()),
            None => Err(FaultKind::OutOfPlace),
        }
    }

    /// The script whose last line is this one.
    ///
    /// # Errors
    ///
    /// [`ScriptFault::Line`] with line `last` and [`FaultKind::OutOfPlace`] where one of the four sizes was not named.
    pub fn finish(self, last: u64) -> Result<Script, ScriptFault>
        ensures { MatchResult result (λ script. finished last (progress self) ≡ Ok (script_value script)) (λ fault. finished last (progress self) ≡ Err fault) }
    {
        match self.set_up.sizes.whole() {
            Some(sizes) => Ok(Script {
                sizes,
                guests: self.set_up.guests,
                lines: self.lines,
            }),
            None => Err(LineFault::Faulty(FaultKind::OutOfPlace).on(last)),
        }
    }
}
