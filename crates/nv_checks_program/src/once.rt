//! Commands over readers and writers. Expected lines are read off the layouts by hand.

use nv_commands::{Command, EntryKind, ExitStatus, Failure, Fault, Refusal, perform, report, run};
use nv_flat::FlatController;
use nv_once_script::FaultKind;
use std::alloc::Global;
use std::fmt::Debug;
use std::io::{self, ErrorKind, Read, Write};
use std::process::{Abort, ExitCode};
use std::test::Fail;

const DONE: &str = "00000000000000000100010007000100";

const DONE_LINE: &str =
    "dw0=00000000 sqhd=0001 sqid=0001 cid=0007 p=1 sct=0 sc=00 crd=0 m=0 dnr=0\n";

/// What a command printed, and how it ended.
#[derive(Drop)]
struct Outcome {
    status: ExitStatus,
    output: Vec<u8>,
    faults: Vec<u8>,
}

// Does a command on the flat controller.
fn perform_on_flat<R: Read, W: Write>(
    alloc: Global,
    command: Command<'_>,
    input: &mut R,
    output: &mut W,
) -> Result<(), Fault> {
    match perform::<FlatController, R, &mut W>(alloc, command, input, output) {
        Ok(_) => Ok(()),
        Err(failure) => Err(failure.fault),
    }
}

// What the program does that was given this command.
fn run_on_flat<R: Read>(
    alloc: Global,
    command: Result<Command<'_>, Refusal>,
    input: &mut R,
) -> Outcome {
    let mut output = Vec::new(alloc);
    let mut faults = Vec::new(alloc);
    let ended = run::<FlatController, R, &mut Vec<u8>, Vec<u8>>(
        alloc,
        command,
        input,
        &mut output,
        &mut faults,
    );
    let status = ExitStatus::of(&ended);
    Outcome {
        status,
        output,
        faults,
    }
}

fn decode<'a>(name: &str, digits: &'a str) -> Option<Command<'a>> {
    let kind = EntryKind::named(name)?;
    Some(Command::Decode { kind, digits })
}

// Ends the test where a case gives something else than is wanted.
fn same<T: PartialEq + Debug>(rt: &impl Abort, case: &impl Debug, found: &T, want: &T) {
    assert_eq!(rt; found, want, "{case:?}");
}

const FIRST_RUN: &str =
    "memory 0x10000\nblocks 64\npaint 5 0xab\ncmd 02400700010000000000000000000000000000000000000000300000000000000002000000000000050000000000000000000000000000000000000000000000\ndump 0x3000 4\n";

/// A reader that gives these bytes, and then fails.
#[derive(Drop)]
struct FailingReader<'a> {
    text: &'a [u8],
    kind: ErrorKind,
}

impl Read for FailingReader<'_> {
    fn read(&mut self, buf: &mut [u8]) -> io::Result<usize> {
        if self.text.is_empty() {
            return Err(io::Error::from(self.kind));
        }
        let count = buf.len().min(self.text.len());
        let (front, rest) = self.text.split_at(count);
        buf[..count].copy_from_slice(front);
        self.text = rest;
        Ok(count)
    }
}

/// How many bytes of the first run are read before the reader fails, how it fails, and what is reported.
type FailedRead = (usize, ErrorKind, ExitStatus, &'static str);

const FAILED_READS: [FailedRead; 5] = [
    (
        0,
        ErrorKind::PermissionDenied,
        ExitStatus::InputOutput,
        "cannot read\n",
    ),
    (
        1,
        ErrorKind::IsADirectory,
        ExitStatus::InputOutput,
        "cannot read\n",
    ),
    (
        60,
        ErrorKind::UnexpectedEof,
        ExitStatus::InputOutput,
        "cannot read\n",
    ),
    (
        1000,
        ErrorKind::BrokenPipe,
        ExitStatus::InputOutput,
        "cannot read\n",
    ),
    (
        60,
        ErrorKind::OutOfMemory,
        ExitStatus::NoMemory,
        "no memory\n",
    ),
];

fn expect_failed_reads(rt: &(impl Abort + AllocGlobal), rows: &[FailedRead]) {
    for (read, kind, status, told) in rows {
        let (text, _) = FIRST_RUN.as_bytes().split_at(FIRST_RUN.len().min(*read));
        let mut reader = FailingReader { text, kind: *kind };
        let run = run_on_flat(rt.alloc(), Ok(Command::Once), &mut reader);
        same(rt, read, &run.status, status);
        same(rt, read, &run.faults.as_slice(), &told.as_bytes());
        same(rt, read, &run.output.is_empty(), &true);
    }
}

#[test]
fn tells_of_a_reader_that_fails(rt: HostRuntime) {
    expect_failed_reads(&rt, &FAILED_READS);
}

/// A writer that keeps what it takes, and how much of it was flushed. Once it is full it fails; or it takes all and fails to flush.
#[derive(Drop)]
struct FailingWriter {
    room: usize,
    flushes: bool,
    taken: Vec<u8>,
    flushed: usize,
}

impl Write for FailingWriter {
    fn write(&mut self, buf: &[u8]) -> io::Result<usize> {
        if self.room == 0 {
            return Err(io::Error::from(ErrorKind::StorageFull));
        }
        let count = buf.len().min(self.room);
        self.taken.extend_from_slice(&buf[..count])?;
        self.room -= count;
        Ok(count)
    }

    fn flush(&mut self) -> io::Result<()> {
        if self.flushes {
            self.flushed = self.taken.len();
            Ok(())
        } else {
            Err(io::Error::from(ErrorKind::StorageFull))
        }
    }
}

fn writer(alloc: Global, room: usize, flushes: bool) -> FailingWriter {
    FailingWriter {
        room,
        flushes,
        taken: Vec::new(alloc),
        flushed: 0,
    }
}

/// How many bytes a writer has room for, whether it flushes, and how a command ends then.
type Written = (usize, bool, Result<(), Fault>);

// Ends the test where a command ends otherwise, where what was taken is not the front of the whole that there is room for, or where a
// command ends well and has not flushed it.
fn expect_written(
    rt: &(impl Abort + AllocGlobal),
    command: Command<'_>,
    script: &str,
    whole: &str,
    rows: &[Written],
) {
    for (room, flushes, want) in rows {
        let mut output = writer(rt.alloc(), *room, *flushes);
        let mut input = script.as_bytes();
        let ended = perform_on_flat(rt.alloc(), command, &mut input, &mut output);
        same(rt, room, &ended, want);
        let (front, _) = whole.as_bytes().split_at(whole.len().min(*room));
        same(rt, room, &(output.taken.as_slice() == front), &true);
        let is_flushed = output.flushed == output.taken.len();
        same(rt, room, &(is_flushed || want.is_err()), &true);
    }
}

/// 74 bytes are printed.
const DECODED_INTO: [Written; 5] = [
    (0, true, Err(Fault::CannotWrite)),
    (1, true, Err(Fault::CannotWrite)),
    (73, true, Err(Fault::CannotWrite)),
    (1000, false, Err(Fault::CannotWrite)),
    (74, true, Ok(())),
];

#[test]
fn tells_of_a_writer_that_fails(rt: HostRuntime) {
    let Some(command) = decode("cqe", DONE) else {
        return;
    };
    expect_written(&rt, command, "", DONE_LINE, &DECODED_INTO);
}

/// 65,536 digits and a line feed are printed.
const DUMPED_INTO: [Written; 8] = [
    (0, true, Err(Fault::CannotWrite)),
    (1, true, Err(Fault::CannotWrite)),
    (8191, true, Err(Fault::CannotWrite)),
    (8192, true, Err(Fault::CannotWrite)),
    (8193, true, Err(Fault::CannotWrite)),
    (40_001, true, Err(Fault::CannotWrite)),
    (65_536, true, Err(Fault::CannotWrite)),
    (65_537, true, Ok(())),
];

#[test]
fn a_script_whose_writer_fails(rt: HostRuntime) -> Result<(), Fail> {
    let script = "memory 0x10000\nblocks 1\nfill 0 0x8000 0xab\ndump 0 0x8000";
    let digits = "ab".repeat(rt.alloc(), 32_768)?;
    let whole = format!(in rt.alloc(); "{digits}\n")?;
    expect_written(&rt, Command::Once, script, &whole, &DUMPED_INTO);
    Ok(())
}

/// A world of one guest, and 8,192 zeros that it loads.
const REPLAYED: &str = "\
host 0x1000000
mediator 0x400000
disk 4096
lanes 1
guest 0 range 1000 64 heap 65536
map 0 0x0 0x100000 0x20000
load 0 0x0 8192
regread 0 0x8
";

/// The digits of the zeros, and 35 bytes besides, are printed.
const REPLAYED_INTO: [Written; 8] = [
    (0, true, Err(Fault::CannotWrite)),
    (1, true, Err(Fault::CannotWrite)),
    (8191, true, Err(Fault::CannotWrite)),
    (8193, true, Err(Fault::CannotWrite)),
    (16_393, true, Err(Fault::CannotWrite)),
    (16_418, true, Err(Fault::CannotWrite)),
    (20_000, false, Err(Fault::CannotWrite)),
    (16_419, true, Ok(())),
];

#[test]
fn a_replay_whose_writer_fails(rt: HostRuntime) -> Result<(), Fail> {
    let digits = "00".repeat(rt.alloc(), 8192)?;
    let whole = format!(in rt.alloc(); "1 bytes {digits}\n2 bytes 00000200\nevents 2\n")?;
    expect_written(&rt, Command::Replay, REPLAYED, &whole, &REPLAYED_INTO);
    Ok(())
}

/// Refusals of words, what is reported, and how the program ends.
const REFUSALS: [(Refusal, &str, ExitStatus); 2] = [
    (
        Refusal::Usage,
        "usage: nvmed once | replay | run | decode KIND HEX\n",
        ExitStatus::Usage,
    ),
    (Refusal::NoMemory, "no memory\n", ExitStatus::NoMemory),
];

fn expect_refusals(rt: &(impl Abort + AllocGlobal), rows: &[(Refusal, &str, ExitStatus)]) {
    for (refusal, told, status) in rows {
        let mut reader = Counted { reads: 0 };
        let run = run_on_flat(rt.alloc(), Err(*refusal), &mut reader);
        same(rt, refusal, &run.status, status);
        same(rt, refusal, &run.faults.as_slice(), &told.as_bytes());
        same(rt, refusal, &run.output.is_empty(), &true);
        same(rt, refusal, &reader.reads, &0);
    }
}

#[test]
fn does_nothing_for_words_that_are_no_command(rt: HostRuntime) {
    expect_refusals(&rt, &REFUSALS);
}

/// A reader that counts its reads, and has nothing to read.
#[derive(Drop)]
struct Counted {
    reads: u64,
}

impl Read for Counted {
    fn read(&mut self, _buf: &mut [u8]) -> io::Result<usize> {
        self.reads = self.reads.saturating_add(1);
        Ok(0)
    }
}

// `decode` reads nothing; a script is read to its end.
#[test]
fn reads_for_a_script_alone(rt: HostRuntime) {
    let Some(command) = decode("cqe", DONE) else {
        return;
    };
    let mut reader = Counted { reads: 0 };
    let decoded = run_on_flat(rt.alloc(), Ok(command), &mut reader);
    same(&rt, &"decode", &decoded.status, &ExitStatus::Success);
    same(&rt, &"decode", &reader.reads, &0);
    let once = run_on_flat(rt.alloc(), Ok(Command::Once), &mut reader);
    same(&rt, &"once", &once.status, &ExitStatus::ScriptFault);
    same(&rt, &"once", &(reader.reads > 0), &true);
}

// How the first run ends with a writer for which there is this much room.
fn status_of_first_run(alloc: Global, room: usize, faults: &mut FailingWriter) -> ExitStatus {
    let mut output = writer(alloc, room, true);
    let ended = run::<FlatController, &[u8], &mut FailingWriter, FailingWriter>(
        alloc,
        Ok(Command::Once),
        &mut FIRST_RUN.as_bytes(),
        &mut output,
        faults,
    );
    ExitStatus::of(&ended)
}

// A fault is reported and flushed; where it cannot be reported, the program ends as it would otherwise.
#[test]
fn tells_of_an_output_that_fails(rt: HostRuntime) {
    let mut faults = writer(rt.alloc(), 1000, true);
    let status = status_of_first_run(rt.alloc(), 0, &mut faults);
    let told = faults.taken.as_slice();
    same(&rt, &"told", &told, &b"cannot write\n".as_slice());
    same(&rt, &"flushed", &faults.flushed, &13);
    same(&rt, &"status", &status, &ExitStatus::InputOutput);
    let mut full = writer(rt.alloc(), 3, false);
    let status = status_of_first_run(rt.alloc(), 0, &mut full);
    same(&rt, &"full", &status, &ExitStatus::InputOutput);
    let mut quiet = writer(rt.alloc(), 1000, false);
    let status = status_of_first_run(rt.alloc(), 1000, &mut quiet);
    same(&rt, &"quiet", &quiet.taken.is_empty(), &true);
    same(&rt, &"quiet", &status, &ExitStatus::Success);
}

/// How a command can end, and the number that the process ends with.
const STATUSES: [(Fault, u8); 9] = [
    (Fault::BadBytes, 1),
    (
        Fault::Script {
            line: 1,
            kind: FaultKind::UnknownWord,
        },
        1,
    ),
    (Fault::Usage, 2),
    (Fault::NoMemory, 3),
    (Fault::CannotRead, 5),
    (Fault::CannotWrite, 5),
    (Fault::NoCompletion { line: 9 }, 1),
    (Fault::Mismatch { guest: 1, place: 2 }, 4),
    (
        Fault::Script {
            line: 5,
            kind: FaultKind::OutOfRange,
        },
        1,
    ),
];

fn expect_statuses(rt: &impl Abort, rows: &[(Fault, u8)]) {
    for (fault, number) in rows {
        let ended: Result<(), Failure<()>> = Err(Failure {
            fault: *fault,
            output: None,
        });
        let code = ExitCode::from(ExitStatus::of(&ended));
        same(rt, fault, &code, &ExitCode::from(*number));
    }
}

#[test]
fn ends_with_the_status_of_the_fault(rt: HostRuntime) {
    expect_statuses(&rt, &STATUSES);
    let ended: Result<(), Failure<()>> = Ok(());
    let code = ExitCode::from(ExitStatus::of(&ended));
    same(&rt, &"success", &code, &ExitCode::SUCCESS);
}

/// A writer that needs no memory.
#[derive(Drop)]
struct Page {
    taken: [u8; 64],
    len: usize,
}

impl Page {
    fn new() -> Self {
        Page {
            taken: [0; 64],
            len: 0,
        }
    }

    fn text(&self) -> &[u8] {
        &self.taken[..self.len.min(64)]
    }
}

impl Write for Page {
    fn write(&mut self, buf: &[u8]) -> io::Result<usize> {
        let from = self.len.min(64);
        let count = buf.len().min(64 - from);
        self.taken[from..from + count].copy_from_slice(&buf[..count]);
        self.len = from + count;
        Ok(count)
    }

    fn flush(&mut self) -> io::Result<()> {
        Ok(())
    }
}

// It passes whichever allocation of the process is refused: the run succeeds, or ends because it is out of memory, and what it printed is a prefix
// of its output.
#[test]
fn a_script_where_memory_is_refused(rt: HostRuntime) {
    let mut output = Page::new();
    let mut faults = Page::new();
    let whole = b"00000000000000000100010007000100\nabababab\n".as_slice();
    let mut input = FIRST_RUN.as_bytes();
    match perform_on_flat(rt.alloc(), Command::Once, &mut input, &mut output) {
        Ok(()) => same(&rt, &"all", &output.text(), &whole),
        Err(fault) => {
            same(&rt, &"fault", &fault, &Fault::NoMemory);
            same(&rt, &"front", &whole.starts_with(output.text()), &true);
            let told = report(fault, &mut faults);
            same(&rt, &"told", &told.is_ok(), &true);
            same(&rt, &"text", &faults.text(), &b"no memory\n".as_slice());
        }
    }
}
