//! The parse of a whole script.
ghost use Rattle.std.specs.Prelude.{◌≡◌, ◌⊎◌, MatchResult};
ghost use Rattle.nv_replay_script.specs.ReplayScript.{script_of, script_value};

use crate::reading::Reading;
use crate::set_up::GuestSetUp;
use crate::sizes::Sizes;
use nv_once_script::ScriptFault;
use nv_once_script::once::lines::Lines;
use nv_world_model::Event;
use std::alloc::Global;

/// A whole script of `replay`.
#[derive(Debug, Drop)]
pub struct Script {
    /// the sizes that the set-up names
    pub sizes: Sizes,
    /// the guests, in order
    pub guests: Vec<GuestSetUp>,
    /// the events, in the order written
    pub events: Vec<Event>,
}

/// The script that a text is, or its first fault.
///
/// # Errors
///
/// The first faulty line, and what is wrong with it; or that memory was refused.
pub fn parse(alloc: Global, text: &[u8]) -> Result<Script, ScriptFault>
    ensures { MatchResult result (λ script. script_of text.now ≡ Ok (script_value script))
        (λ fault. (fault ≡ ScriptFault.NoMemory) ⊎ (script_of text.now ≡ Err fault)) }
{
    let mut reading = Reading::new(alloc);
    let mut number = 0;
    let mut lines = Lines::of(text);
    while let Some(line) = lines.next() {
        number += 1;
        if let Err(fault) = reading.read(alloc, line) {
            return Err(fault.on(number));
        }
    }
    reading.finish(number)
}
