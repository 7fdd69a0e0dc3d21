//! The fields of a line: a label, and what comes after it.
ghost use Rattle.std.specs.Prelude.{◌++◌, OnOk};
ghost use Rattle.std.specs.Fmt.{decimal};
ghost use Rattle.std.specs.Io.KnownBytes.{Appends};
ghost use Rattle.hex.specs.Hex.{encode_lower};
ghost use Rattle.nv_commands.specs.Printed.{flag};

use nv_print::{CannotWrite, print_bytes, print_text};
use std::io::Write;

/// Prints a label, and then bytes as hexadecimal digits.
///
/// # Errors
///
/// [`CannotWrite`] where the output fails. The output may then have a part of the text.
pub fn print_hex<W: Write>(label: &[u8], bytes: &[u8], output: &mut W) -> Result<(), CannotWrite>
    ensures { OnOk result (Appends (W.contents output.old) (W.contents output.new) (label.now ++ encode_lower bytes.now)) }
{
    print_text(label, output)?;
    print_bytes(bytes, output)
}

/// Prints a label, and then a number in base 10.
///
/// # Errors
///
/// [`CannotWrite`] where the output fails. The output may then have a part of the text.
pub fn print_number<W: Write>(label: &[u8], number: u8, output: &mut W) -> Result<(), CannotWrite>
    ensures { OnOk result (Appends (W.contents output.old) (W.contents output.new) (label.now ++ decimal number)) }
{
    print_text(label, output)?;
    write!(output, "{number}")?;
    Ok(())
}

/// Prints a label, and then a bit as a digit.
///
/// # Errors
///
/// [`CannotWrite`] where the output fails. The output may then have a part of the text.
pub fn print_flag<W: Write>(label: &[u8], is_set: bool, output: &mut W) -> Result<(), CannotWrite>
    ensures { OnOk result (Appends (W.contents output.old) (W.contents output.new) (label.now ++ flag is_set)) }
{
    print_text(label, output)?;
    let digit = if is_set { b"1" } else { b"0" };
    print_text(digit, output)
}
