//! The lines that a run prints.

ghost use Rattle.std.specs.Prelude.{OnOk};
ghost use Rattle.std.specs.Io.KnownBytes.{Appends};
ghost use Rattle.nv_run.specs.Parts.{part_of};
ghost use Rattle.nv_run.specs.Shown.{first_line, guest_lines, line_of, lines_below, met_line};
ghost use Rattle.nv_run.specs.Played.{PrintsPlayed};
ghost use Rattle.nv_threads.specs.Finished.{told_to};

use crate::part::{Part, lines_of};
use crate::played::Played;
use crate::walk::behind;
use nv_model::limits::MOST_GUESTS;
use nv_print::{CannotWrite, Numeral, print_text};
use nv_replay::print_reply;
use nv_run_script::{Line, Task};
use nv_threads::{Port, told_to};
use nv_world_model::Logged;
use std::io::Write;

/// Prints the results of each guest's lines, guest by guest, and then `ok`. The result of an act is its reply, and that of a wait is that it was
/// met.
///
/// # Errors
///
/// The output failed; what it holds is then a prefix of what was to be printed.
pub fn print<W: Write>(played: &Played, output: &mut W) -> Result<(), CannotWrite>
    ensures { OnOk result (PrintsPlayed played.now (W.contents output.old) (W.contents output.new)) }
{
    print_guests(&played.parts, &played.ports, output)?;
    print_text(b"ok\n", output)
}

// Prints what all guests' lines came to.
fn print_guests<W: Write>(parts: &[Part], ports: &[Port], output: &mut W) -> Result<(), CannotWrite>
    ensures { OnOk result (Appends (W.contents output.old) (W.contents output.new)
        (lines_below 16 (λ guest. part_of guest parts.now) (λ guest. told_to guest ports.now))) }
{
    for guest in 0..MOST_GUESTS {
        print_guest(guest, lines_of(parts, guest), told_to(ports, guest), output)?;
    }
    Ok(())
}

// Prints the results of a guest's lines for which the guest's port got these calls.
fn print_guest<W: Write>(
    guest: u8,
    lines: &[Line],
    calls: &[Logged],
    output: &mut W,
) -> Result<(), CannotWrite>
    ensures { OnOk result (Appends (W.contents output.old) (W.contents output.new) (guest_lines guest lines.now calls.now)) }
{
    let mut left = calls;
    for line in lines {
        print_line(guest, &line.task, left, output)?;
        left = behind(&line.task, left);
    }
    Ok(())
}

// Prints the result of a line for which its guest's port got the first of these calls.
fn print_line<W: Write>(
    guest: u8,
    task: &Task,
    calls: &[Logged],
    output: &mut W,
) -> Result<(), CannotWrite>
    ensures { OnOk result (Appends (W.contents output.old) (W.contents output.new) (line_of guest task.now calls.now)) }
{
    match task {
        Task::Act(_) => print_first(guest, calls, output),
        Task::Await { addr: _, value: _ } => print_met(guest, output),
        Task::AwaitReg {
            offset: _,
            value: _,
        } => print_met(guest, output),
    }
}

// Prints the reply of the first of these calls, if there is one.
fn print_first<W: Write>(guest: u8, calls: &[Logged], output: &mut W) -> Result<(), CannotWrite>
    ensures { OnOk result (Appends (W.contents output.old) (W.contents output.new) (first_line guest calls.now)) }
{
    match calls.first() {
        Some(call) => print_reply(&Numeral::of(u64::from(guest)), &call.reply, output),
        None => Ok(()),
    }
}

// Prints that what a guest waited for was met.
fn print_met<W: Write>(guest: u8, output: &mut W) -> Result<(), CannotWrite>
    ensures { OnOk result (Appends (W.contents output.old) (W.contents output.new) (met_line guest)) }
{
    writeln!(output, "{guest} met")?;
    Ok(())
}
