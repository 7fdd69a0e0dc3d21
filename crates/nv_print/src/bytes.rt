//! Bytes as text.
ghost use Rattle.std.specs.Prelude.{◌≡◌, ◌≤◌, ◌+◌, ◌*◌, length, OnOk};
ghost use Rattle.std.specs.Io.KnownBytes.{Appends};
ghost use Rattle.hex.specs.Hex.{encode_lower};
ghost use Rattle.nv_print.specs.Printed.{dump_line, hex_line, line_feed};

use crate::cannot_write::CannotWrite;
use crate::digits::write_hex;
use std::io::Write;

/// How many bytes are printed at once.
const CHUNK: usize = 512;

/// The most bytes whose line is printed in one piece.
const SHORT: usize = 32;

/// Prints a text as it is.
///
/// # Errors
///
/// [`CannotWrite`] where the output fails. The output may then have a part of the text.
#[inline(always)]
pub fn print_text<W: Write>(text: &[u8], output: &mut W) -> Result<(), CannotWrite>
    ensures { OnOk result (Appends (W.contents output.old) (W.contents output.new) text.now) }
{
    match output.write_all(text) {
        Ok(()) => Ok(()),
        Err(_) => Err(CannotWrite),
    }
}

/// Ends a line of the output.
///
/// # Errors
///
/// [`CannotWrite`] where the output fails.
pub fn end_line<W: Write>(output: &mut W) -> Result<(), CannotWrite>
    ensures { OnOk result (Appends (W.contents output.old) (W.contents output.new) line_feed) }
{
    print_text(b"\n", output)
}

/// Prints bytes as hexadecimal digits.
///
/// # Errors
///
/// [`CannotWrite`] where the output fails. The output may then have a part of the digits.
pub fn print_bytes<W: Write>(bytes: &[u8], output: &mut W) -> Result<(), CannotWrite>
    ensures { OnOk result (Appends (W.contents output.old) (W.contents output.new) (encode_lower bytes.now)) }
{
    let mut room = [0; 2 * CHUNK];
    let mut left = bytes;
    while !left.is_empty() {
        let (chunk, rest) = left.split_at(left.len().min(CHUNK));
        print_chunk(chunk, &mut room, output)?;
        left = rest;
    }
    Ok(())
}

// Prints a few bytes as hexadecimal digits, for which there is room.
fn print_chunk<W: Write>(bytes: &[u8], room: &mut [u8], output: &mut W) -> Result<(), CannotWrite>
    requires { 2 * length bytes.now ≤ length room.old }
    ensures { OnOk result (Appends (W.contents output.old) (W.contents output.new) (encode_lower bytes.now)) }
{
    let digits = &mut room[..2 * bytes.len()];
    write_hex(bytes, digits);
    print_text(digits, output)
}

/// Prints bytes as a line of hexadecimal digits.
///
/// # Errors
///
/// [`CannotWrite`] where the output fails. The output may then have a part of the line.
pub fn print_line<W: Write>(bytes: &[u8], output: &mut W) -> Result<(), CannotWrite>
    ensures { OnOk result (Appends (W.contents output.old) (W.contents output.new) (hex_line bytes.now)) }
{
    if bytes.len() <= SHORT {
        return print_short_line(bytes, output);
    }
    print_bytes(bytes, output)?;
    end_line(output)
}

// Prints a few bytes as a line of hexadecimal digits, in one piece.
fn print_short_line<W: Write>(bytes: &[u8], output: &mut W) -> Result<(), CannotWrite>
    requires { length bytes.now ≤ SHORT }
    ensures { OnOk result (Appends (W.contents output.old) (W.contents output.new) (hex_line bytes.now)) }
{
    let mut line = [0; 2 * SHORT + 1];
    let line = &mut line[..=2 * bytes.len()];
    write_line(bytes, line);
    print_text(line, output)
}

// Writes bytes as a line of hexadecimal digits into a place of its length.
fn write_line(bytes: &[u8], line: &mut [u8])
    requires { length line.old ≡ 2 * length bytes.now + 1 }
    ensures { line.new ≡ hex_line bytes.now }
{
    let (digits, end) = line.split_at_mut(2 * bytes.len());
    end[0] = b'\n';
    write_hex(bytes, digits);
}

/// Prints bytes as a line of hexadecimal digits, or of a dash where they are none.
///
/// # Errors
///
/// [`CannotWrite`] where the output fails. The output may then have a part of the line.
pub fn print_dump<W: Write>(bytes: &[u8], output: &mut W) -> Result<(), CannotWrite>
    ensures { OnOk result (Appends (W.contents output.old) (W.contents output.new) (dump_line bytes.now)) }
{
    if bytes.is_empty() {
        return print_text(b"-\n", output);
    }
    print_line(bytes, output)
}
