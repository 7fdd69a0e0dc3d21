//! The lines that `decode` prints.
ghost use Rattle.std.specs.Prelude.{OnOk};
ghost use Rattle.std.specs.Io.KnownBytes.{Appends};
ghost use Rattle.nv_commands.specs.Printed.{completion_line, submission_line};

use crate::print::{print_flag, print_hex, print_number};
use nv_entry::{Cqe, Sqe};
use nv_print::{CannotWrite, end_line};
use std::io::Write;

/// Writes the fields of a submission queue entry on one line.
///
/// # Errors
///
/// [`CannotWrite`] where the output fails. The output may then have a part of the line.
pub fn write_submission<W: Write>(entry: &Sqe, output: &mut W) -> Result<(), CannotWrite>
    ensures { OnOk result (Appends (W.contents output.old) (W.contents output.new) (submission_line entry.now)) }
{
    print_hex(b"opc=", &entry.opcode().to_be_bytes(), output)?;
    print_number(b" fuse=", entry.fuse(), output)?;
    print_number(b" psdt=", entry.psdt(), output)?;
    print_hex(b" cid=", &entry.cid().to_be_bytes(), output)?;
    print_hex(b" nsid=", &entry.nsid().to_be_bytes(), output)?;
    print_hex(b" dptr=", &entry.sgl().bytes(), output)?;
    print_hex(b" cdw10=", &entry.cdw10().to_be_bytes(), output)?;
    print_hex(b" cdw11=", &entry.cdw11().to_be_bytes(), output)?;
    print_hex(b" cdw12=", &entry.cdw12().to_be_bytes(), output)?;
    print_hex(b" cdw13=", &entry.cdw13().to_be_bytes(), output)?;
    print_hex(b" cdw14=", &entry.cdw14().to_be_bytes(), output)?;
    print_hex(b" cdw15=", &entry.cdw15().to_be_bytes(), output)?;
    end_line(output)
}

/// Writes the fields of a completion queue entry on one line.
///
/// # Errors
///
/// [`CannotWrite`] where the output fails. The output may then have a part of the line.
pub fn write_completion<W: Write>(entry: &Cqe, output: &mut W) -> Result<(), CannotWrite>
    ensures { OnOk result (Appends (W.contents output.old) (W.contents output.new) (completion_line entry.now)) }
{
    print_hex(b"dw0=", &entry.dw0().to_be_bytes(), output)?;
    print_hex(b" sqhd=", &entry.sqhd().to_be_bytes(), output)?;
    print_hex(b" sqid=", &entry.sqid().to_be_bytes(), output)?;
    print_hex(b" cid=", &entry.cid().to_be_bytes(), output)?;
    print_flag(b" p=", entry.phase(), output)?;
    print_number(b" sct=", entry.sct(), output)?;
    print_hex(b" sc=", &entry.sc().to_be_bytes(), output)?;
    print_number(b" crd=", entry.crd(), output)?;
    print_flag(b" m=", entry.more(), output)?;
    print_flag(b" dnr=", entry.dnr(), output)?;
    end_line(output)
}
