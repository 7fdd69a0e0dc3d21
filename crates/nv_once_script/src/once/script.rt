//! The parse of a whole script.
ghost use Rattle.std.specs.Prelude.{◌≡◌, ◌⊎◌, IfOk, MatchResult};
ghost use Rattle.nv_once_script.specs.OnceScript.{IsInRange, script_of, script_value};

use crate::once::fault::ScriptFault;
use crate::once::line::Line;
use crate::once::lines::Lines;
use crate::once::reading::Reading;
use std::alloc::Global;

/// A whole script.
#[derive(Debug, PartialEq, Eq, Drop)]
pub struct Script {
    /// how many bytes the memory has
    pub memory: u64,
    /// how many blocks the namespace has
    pub blocks: u64,
    /// the lines after the set-up, except empty ones
    pub lines: Vec<Line>,
}

/// The script that a text is, or its first fault. Of a script that it gives, the sizes and all lines are in range.
///
/// # Errors
///
/// [`ScriptFault::Line`] names the first faulty line, and what is wrong with it. [`ScriptFault::NoMemory`] where memory is refused.
pub fn parse(alloc: Global, text: &[u8]) -> Result<Script, ScriptFault>
    ensures value { MatchResult result (λ script. script_of text.now ≡ Ok (script_value script))
        (λ fault. (fault ≡ ScriptFault.NoMemory) ⊎ (script_of text.now ≡ Err fault)) }
    ensures in_range { IfOk result (λ script. IsInRange (script_value script)) }
{
    let mut reading = Reading::new(alloc);
    let mut number = 0;
    let mut lines = Lines::of(text);
    while let Some(line) = lines.next() {
        number += 1;
        if let Err(fault) = reading.read(alloc, line) {
            return Err(fault.on(number));
        }
    }
    reading.finish(number)
}
