//! The lines that a run prints.
ghost use Rattle.std.specs.Prelude.{OnOk};
ghost use Rattle.std.specs.Io.KnownBytes.{Appends};
ghost use Rattle.nv_model.specs.declared.reply.Reply.TheVariants as reply;
ghost use Rattle.nv_replay.specs.Shown.{count_line, reply_line};

use nv_mem::Bytes;
use nv_model::Reply;
use nv_print::{CannotWrite, Numeral, print_dump, print_numbered, print_text};
use std::io::Write;

/// Prints the line of the reply to event number `number`.
///
/// # Errors
///
/// [`CannotWrite`] where the output fails. The output may then have a part of the line.
pub fn print_reply<W: Write>(
    number: &Numeral,
    reply: &Reply,
    output: &mut W,
) -> Result<(), CannotWrite>
    ensures { OnOk result (Appends (W.contents output.old) (W.contents output.new) (reply_line number.now reply.now)) }
{
    match reply {
        Reply::Done => print_numbered(number, b" done\n", output),
        Reply::Bytes(bytes) => print_bytes(number, bytes, output),
        Reply::Idle => print_numbered(number, b" idle\n", output),
        Reply::Busy => print_numbered(number, b" busy\n", output),
        Reply::Held => print_numbered(number, b" held\n", output),
        Reply::Stale => print_numbered(number, b" stale\n", output),
        Reply::Unmapped => print_numbered(number, b" unmapped\n", output),
        Reply::Ignored => print_numbered(number, b" ignored\n", output),
        Reply::NoMemory => print_numbered(number, b" nomemory\n", output),
    }
}

// Prints the line of a reply with these bytes.
fn print_bytes<W: Write>(number: &Numeral, bytes: &Bytes, output: &mut W) -> Result<(), CannotWrite>
    ensures { OnOk result (Appends (W.contents output.old) (W.contents output.new) (reply_line number.now (reply.Bytes bytes.now))) }
{
    print_numbered(number, b" bytes ", output)?;
    print_dump(bytes.as_slice(), output)
}

/// Prints the last line: how many events there were.
///
/// # Errors
///
/// [`CannotWrite`] where the output fails. The output may then have a part of the line.
pub fn print_count<W: Write>(count: &Numeral, output: &mut W) -> Result<(), CannotWrite>
    ensures { OnOk result (Appends (W.contents output.old) (W.contents output.new) (count_line count.now)) }
{
    print_text(b"events ", output)?;
    print_numbered(count, b"\n", output)
}
