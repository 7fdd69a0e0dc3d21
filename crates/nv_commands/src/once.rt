//! The subcommand `once`: a script of commands on a private controller over flat memory.
ghost use Rattle.std.specs.Prelude.{◌≡◌, ◌≤◌, length, replicate, IfErr, IfOk, OnOk};
ghost use Rattle.std.specs.Io.KnownBytes.{Appends};
ghost use Rattle.hex.specs.Hex.{encode_lower};
ghost use Rattle.nv_disk.specs.Flat.{flat};
ghost use Rattle.nv_mem.specs.Bytes.{InMemory, after_store, bytes_at};
ghost use Rattle.nv_once_script.specs.OnceLine.{value_of};
ghost use Rattle.nv_once_script.specs.OnceScript.{IsInRange, script_value};
ghost use Rattle.nv_commands.specs.Once.{HasSizes, IsOnceFault, IsScriptOf, IsStop, IsThere};
ghost use Rattle.nv_print.specs.Printed.{dump_line};
ghost use Rattle.nv_commands.specs.Shown.{PrintsScript, Shows};

use crate::fault::Fault;
use crate::input::read_all;
use nv_flat::One;
use nv_once_script::{Line, Script, parse};
use nv_print::{CannotWrite, end_line, print_bytes, print_line, print_text};
use std::alloc::Global;
use std::io::{Read, Write};

/// How many bytes are stored or loaded at once.
const CHUNK: usize = 512;

/// Reads a script whole. Where it is known what there is to read, that is the script, and a fault of the script is the one that its
/// definition gives.
///
/// # Errors
///
/// [`Fault::Script`] names the first faulty line and what is wrong with it. [`Fault::CannotRead`] where the input fails.
/// [`Fault::NoMemory`] where memory is refused.
pub fn read<R: Read>(alloc: Global, input: &mut R) -> Result<Script, Fault>
    ensures script { IfOk result (λ script. IsScriptOf (R.remaining input.old) (script_value script)) }
    ensures in_range { IfOk result (λ script. IsInRange (script_value script)) }
    ensures err { IfErr result (IsOnceFault (R.remaining input.old)) }
{
    let text = read_all(alloc, input)?;
    let script = parse(alloc, &text)?;
    Ok(script)
}

/// Runs the lines of a script one after another on a controller of its sizes. What a `cmd`, `dump` or `block` line prints goes to
/// `output`.
///
/// # Errors
///
/// [`Fault::NoMemory`] where memory for the controller or for a command is refused. [`Fault::CannotWrite`] where the output fails. The
/// output may then have what some of the lines print.
pub fn run<C: One, W: Write>(alloc: Global, script: &Script, output: &mut W) -> Result<(), Fault>
    requires { IsInRange (script_value script.now) }
    ensures ok { OnOk result (PrintsScript C.built (script_value script.now) (W.contents output.old) (W.contents output.new)) }
    ensures err { IfErr result IsStop }
{
    let mut controller = C::new(alloc, script.memory, script.blocks)?;
    for line in &script.lines {
        run_line(alloc, &mut controller, line, output)?;
    }
    Ok(())
}

// Runs one line.
fn run_line<C: One, W: Write>(
    alloc: Global,
    controller: &mut C,
    line: &Line,
    output: &mut W,
) -> Result<(), Fault>
    requires { IsThere (C.seen controller.old) (value_of line.now) }
    ensures ok { OnOk result (Shows C.built (C.seen controller.old) (value_of line.now) (W.contents output.old) (W.contents output.new) (C.seen controller.new)) }
    ensures sizes { HasSizes (C.seen controller.new) (length (C.seen controller.old).memory) (length (C.seen controller.old).disk) }
    ensures err { IfErr result IsStop }
{
    match line {
        Line::Store { addr, bytes } => controller.store(*addr, bytes),
        Line::Fill { addr, len, byte } => fill(controller, *addr, *len, *byte),
        Line::Paint { block, byte } => controller.paint(*block, *byte),
        Line::Command(sqe) => {
            let cqe = controller.one(alloc, sqe)?;
            print_line(&cqe.bytes(), output)?;
        }
        Line::Dump { addr, len } => dump(controller, *addr, *len, output)?,
        Line::Block { block } => print_line(controller.block(*block), output)?,
    }
    Ok(())
}

// Stores so many equal bytes from an address on.
fn fill<C: One>(controller: &mut C, addr: u64, len: u64, byte: u8)
    requires { InMemory (length (C.seen controller.old).memory) addr len }
    ensures bytes { let old = C.seen controller.old in C.seen controller.new ≡ flat (after_store old.memory addr (replicate len byte)) old.disk old.kept }
    ensures sizes { HasSizes (C.seen controller.new) (length (C.seen controller.old).memory) (length (C.seen controller.old).disk) }
{
    fill_by(controller, addr, len, byte, &[byte; CHUNK]);
}

// Stores so many equal bytes from an address on, a chunk of them at a time.
fn fill_by<C: One>(controller: &mut C, addr: u64, len: u64, byte: u8, chunk: &[u8])
    requires inside { InMemory (length (C.seen controller.old).memory) addr len }
    requires equal { chunk.now ≡ replicate CHUNK byte }
    ensures bytes { let old = C.seen controller.old in C.seen controller.new ≡ flat (after_store old.memory addr (replicate len byte)) old.disk old.kept }
    ensures sizes { HasSizes (C.seen controller.new) (length (C.seen controller.old).memory) (length (C.seen controller.old).disk) }
{
    // the proof learns from it that no address is beyond 64 bits
    let _known = controller.memory_len();
    let mut done = 0;
    while done < len {
        let count = (len - done).min(CHUNK as u64);
        controller.store(addr + done, &chunk[..count as usize]);
        done += count;
    }
}

// Prints so many bytes from an address on as a line, or `-` where they are none.
fn dump<C: One, W: Write>(
    controller: &C,
    addr: u64,
    len: u64,
    output: &mut W,
) -> Result<(), CannotWrite>
    requires { InMemory (length (C.seen controller.now).memory) addr len }
    ensures { OnOk result (Appends (W.contents output.old) (W.contents output.new) (dump_line (bytes_at (C.seen controller.now).memory addr len))) }
{
    if len == 0 {
        return print_text(b"-\n", output);
    }
    dump_bytes(controller, addr, len, output)?;
    end_line(output)
}

// Prints so many bytes from an address on as hexadecimal digits.
fn dump_bytes<C: One, W: Write>(
    controller: &C,
    addr: u64,
    len: u64,
    output: &mut W,
) -> Result<(), CannotWrite>
    requires { InMemory (length (C.seen controller.now).memory) addr len }
    ensures { OnOk result (Appends (W.contents output.old) (W.contents output.new) (encode_lower (bytes_at (C.seen controller.now).memory addr len))) }
{
    // the proof learns from it that no address is beyond 64 bits
    let _known = controller.memory_len();
    let mut bytes = [0; CHUNK];
    let mut done = 0;
    while done < len {
        let count = (len - done).min(CHUNK as u64);
        let chunk = &mut bytes[..count as usize];
        controller.load(addr + done, chunk);
        print_bytes(chunk, output)?;
        done += count;
    }
    Ok(())
}
