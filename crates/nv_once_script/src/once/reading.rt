//! A script while its lines are read.
ghost use Rattle.std.specs.Prelude.{◌≡◌, length, MatchResult};
ghost use Rattle.nv_once_script.specs.OnceFault.{Refuses};
ghost use Rattle.nv_once_script.specs.OnceVocabulary.{arguments_of};
ghost use Rattle.nv_once_script.specs.OnceWords.{words_of};

use crate::once::fault::{FaultKind, LineFault, ScriptFault};
use crate::once::line::{Line, make_line};
use crate::once::script::Script;
use crate::once::sizes::{self, Sizes};
use crate::once::vocabulary::{Keyword, look_up};
use crate::once::words::Words;
use std::alloc::Global;

/// What the lines so far have said.
#[derive(Drop)]
pub struct Reading {
    pub memory: Option<u64>,
    pub blocks: Option<u64>,
    pub lines: Vec<Line>,
}

impl Reading {
    ghost use Rattle.nv_once_script.specs.OnceScript.{after_keyword, after_line, finished, nothing, progress, script_value, sizes_in};

    /// Before the first line.
    pub fn new(alloc: Global) -> Self
        ensures { progress result ≡ nothing }
    {
        Reading {
            memory: None,
            blocks: None,
            lines: Vec::new(alloc),
        }
    }

    /// Reads the next line.
    ///
    /// # Errors
    ///
    /// [`LineFault::Faulty`]: `UnknownWord`; `MissingWord` or `TooManyWords`; `OutOfPlace` for a second `memory` or `blocks`, or another
    /// line before both; `BadNumber` for a size; or as [`make_line`] returns it. [`LineFault::NoMemory`] where memory is refused. The
    /// contract does not say what the reading is then.
    pub fn read(&mut self, alloc: Global, line: &[u8]) -> Result<(), LineFault>
        ensures { let after = after_line 1 (progress self.old) (words_of line.now)
            in MatchResult result (λ _. after ≡ Ok (progress self.new)) (Refuses after) }
    {
        let mut words = Words::of(line);
        let Some(first) = words.next_name() else {
            return Ok(());
        };
        let keyword = look_up(first).ok_or(FaultKind::UnknownWord)?;
        words.check_count(keyword.arguments())?;
        self.add(alloc, keyword, words)
    }

    // Adds what a line with this keyword says.
    fn add(
        &mut self,
        alloc: Global,
        keyword: Keyword,
        mut words: Words<'_>,
    ) -> Result<(), LineFault>
        requires { length words ≡ arguments_of keyword }
        ensures { let after = after_keyword (progress self.old) keyword words.entry
            in MatchResult result (λ _. after ≡ Ok (progress self.new)) (Refuses after) }
    {
        match keyword {
            Keyword::Memory => {
                if self.memory.is_some() {
                    return Err(LineFault::Faulty(FaultKind::OutOfPlace));
                }
                self.memory = Some(sizes::memory(words.next_word())?);
            }
            Keyword::Blocks => {
                if self.blocks.is_some() {
                    return Err(LineFault::Faulty(FaultKind::OutOfPlace));
                }
                self.blocks = Some(sizes::blocks(words.next_word())?);
            }
            _ => {
                let sizes = self.sizes().ok_or(FaultKind::OutOfPlace)?;
                self.lines.push(make_line(alloc, sizes, keyword, words)?)?;
            }
        }
        Ok(())
    }

    // The sizes, once both are there.
    fn sizes(&self) -> Option<Sizes>
        ensures { result ≡ sizes_in (progress self.now) }
    {
        Some(Sizes {
            memory: self.memory?,
            blocks: self.blocks?,
        })
    }

    /// The script whose last line is this one.
    ///
    /// # Errors
    ///
    /// [`ScriptFault::Line`] with line `last` and [`FaultKind::OutOfPlace`] where no line named the memory, or none the blocks.
    pub fn finish(self, last: u64) -> Result<Script, ScriptFault>
        ensures { MatchResult result (λ script. finished last (progress self) ≡ Ok (script_value script)) (λ fault. finished last (progress self) ≡ Err fault) }
    {
        match self.sizes() {
            Some(Sizes { memory, blocks }) => Ok(Script {
                memory,
                blocks,
                lines: self.lines,
            }),
            None => Err(LineFault::Faulty(FaultKind::OutOfPlace).on(last)),
        }
    }
}
