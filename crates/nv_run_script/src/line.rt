//! The lines of guests.
ghost use Rattle.std.specs.Prelude.{◌≡◌, ◌+◌, length, MatchResult};
ghost use Rattle.nv_replay_script.specs.ReplayVocabulary.{act_arguments};
ghost use Rattle.nv_run_script.specs.RunTasks.{act_line, await_line, await_register_line};
ghost use Rattle.nv_once_script.specs.OnceFault.{Refuses};

use nv_model::Act;
use nv_once_script::FaultKind;
use nv_once_script::once::fault::LineFault;
use nv_once_script::once::number::number;
use nv_once_script::once::word::Word;
use nv_once_script::once::words::Words;
use nv_replay_script::act::make_act;
use nv_replay_script::numbers::dword;
use nv_replay_script::set_up::known;
use nv_replay_script::vocabulary::ActKind;
use std::alloc::Global;

/// What a guest's thread does for one line.
#[derive(Debug, Drop)]
pub enum Task {
    /// one act of the guest
    Act(Act),
    /// loads of the 4 bytes at guest address `addr` until they are `value`, lowest byte first
    Await { addr: u64, value: u32 },
    /// reads of the register at `offset` until it is `value`
    AwaitReg { offset: u32, value: u32 },
}

/// A line of a guest.
#[derive(Debug, Drop)]
pub struct Line {
    /// its number in the text, from 1
    pub number: u64,
    /// the number of its guest, which is one of the set-up
    pub guest: usize,
    /// what its guest's thread does for it
    pub task: Task,
}

/// Makes line `number` of an act, where there are `count` guests, of its words, which are as many as it wants.
///
/// # Errors
///
/// [`LineFault::Faulty`]: `BadNumber` or `OutOfPlace` where the first word is the number of no guest, as [`known`] returns it; or as
/// [`make_act`] returns it. [`LineFault::NoMemory`] where memory for the act is refused.
pub fn make_act_line(
    alloc: Global,
    count: usize,
    number: u64,
    kind: ActKind,
    mut words: Words<'_>,
) -> Result<Line, LineFault>
    requires { length words ≡ 1 + act_arguments kind }
    ensures { let line = act_line count number kind words.entry
        in MatchResult result (λ made. line ≡ Ok made) (Refuses line) }
{
    let guest = known(count, words.next_word())?;
    let act = make_act(alloc, kind, words)?;
    let task = Task::Act(act);
    Ok(Line {
        number,
        guest,
        task,
    })
}

/// Makes line `line` of an `await`, where there are `count` guests.
///
/// # Errors
///
/// [`FaultKind::OutOfPlace`] where there is no such guest. [`FaultKind::BadNumber`] where a word is no number, or `value` is one of more
/// than 32 bits.
pub fn make_await_line(
    count: usize,
    line: u64,
    guest: Word<'_>,
    addr: Word<'_>,
    value: Word<'_>,
) -> Result<Line, FaultKind>
    ensures { result ≡ await_line count line guest.entry addr.entry value.entry }
{
    let guest = known(count, guest)?;
    let addr = number(addr)?;
    let value = dword(value)?;
    let task = Task::Await { addr, value };
    Ok(Line {
        number: line,
        guest,
        task,
    })
}

/// Makes line `line` of an `awaitreg`, where there are `count` guests.
///
/// # Errors
///
/// [`FaultKind::OutOfPlace`] where there is no such guest. [`FaultKind::BadNumber`] where a word is no number, or `offset` or `value` is
/// one of more than 32 bits.
pub fn make_await_register_line(
    count: usize,
    line: u64,
    guest: Word<'_>,
    offset: Word<'_>,
    value: Word<'_>,
) -> Result<Line, FaultKind>
    ensures { result ≡ await_register_line count line guest.entry offset.entry value.entry }
{
    let guest = known(count, guest)?;
    let offset = dword(offset)?;
    let value = dword(value)?;
    let task = Task::AwaitReg { offset, value };
    Ok(Line {
        number: line,
        guest,
        task,
    })
}
