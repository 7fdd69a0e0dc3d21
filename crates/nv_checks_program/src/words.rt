//! A process, its words and what it ends with.

use nv_commands::{Command, EntryKind, Grammar, Refusal, Request, program, words};
use nv_flat::FlatController;
use std::alloc::{Alloc, Global};
use std::convert::AsStr;
use std::env::FillError;
use std::io::{self, ErrorKind, Read};
use std::process::{Abort, ExitCode};
use std::rt::Env;
use std::sync::Wait;
use std::thread::Threads;
use std::time::Clock;

/// A process that was given these words, its name first.
#[derive(Drop)]
struct Process<'a> {
    words: &'a [&'a [u8]],
    alloc: Global,
}

impl Alloc for Process<'_> {
    type A = Global;

    fn alloc(&self) -> Global {
        self.alloc
    }
}

impl Env for Process<'_> {
    fn arg(&self, i: usize, buf: &mut [u8]) -> Result<usize, FillError> {
        let Some(word) = self.words.get(i) else {
            return Err(FillError::NotPresent);
        };
        if word.len() > buf.len() {
            return Err(FillError::TooLong);
        }
        buf[..word.len()].copy_from_slice(word);
        Ok(word.len())
    }

    fn var(&self, _name: &str, _buf: &mut [u8]) -> Result<usize, FillError> {
        Err(FillError::NotPresent)
    }

    fn var_at(&self, _i: usize, _buf: &mut [u8]) -> Result<usize, FillError> {
        Err(FillError::NotPresent)
    }
}

// Ends the test where a process with these words has others after its name.
fn expect_words(rt: &(impl Abort + AllocGlobal), given: &[&[u8]], want: &[&str]) {
    let process = Process {
        words: given,
        alloc: rt.alloc(),
    };
    let found = words(&process).expect(rt, "words");
    assert_eq!(rt; found.len(), want.len(), "{want:?}");
    for (word, want) in found.iter().zip(want) {
        assert_eq!(rt; word.as_str(), *want);
    }
}

#[test]
fn the_words_behind_the_name(rt: HostRuntime) {
    expect_words(&rt, &[], &[]);
    expect_words(&rt, &[b"nvmed"], &[]);
    expect_words(&rt, &[b"nvmed", b"once"], &["once"]);
    expect_words(&rt, &[b"nvmed", b"decode", b"", b"-"], &["decode", "", "-"]);
}

#[test]
fn words_that_are_no_text(rt: HostRuntime) {
    for given in [
        [b"nvmed".as_slice(), b"\xff"].as_slice(),
        &[b"nvmed", b"once", b"\xc3"],
        &[b"nvmed", b"decode", b"sqe", b"00\x80"],
    ] {
        let process = Process {
            words: given,
            alloc: rt.alloc(),
        };
        assert_eq!(rt; words(&process).err(), Some(Refusal::Usage));
    }
}

/// A grammar of one word.
struct FirstWord;

impl Grammar for FirstWord {
    fn request<'a, S: AsStr>(_alloc: Global, words: &'a [S]) -> Result<Request<'a>, Refusal> {
        match words.first().map(|word| word.as_str()) {
            Some("once") => Ok(Request::Alone(Command::Once)),
            Some("run") => Ok(Request::Run),
            Some("refused") => Err(Refusal::NoMemory),
            Some(digits) => Ok(Request::Alone(Command::Decode {
                kind: EntryKind::Completion,
                digits,
            })),
            None => Err(Refusal::Usage),
        }
    }
}

/// A reader that gives a text, or fails where there is none.
#[derive(Drop)]
struct Given<'a> {
    text: Option<&'a [u8]>,
}

impl Read for Given<'_> {
    fn read(&mut self, buf: &mut [u8]) -> io::Result<usize> {
        match &mut self.text {
            Some(text) => text.read(buf),
            None => Err(io::Error::from(ErrorKind::IsADirectory)),
        }
    }
}

/// The words of a process, its input, the number that it exits with, what it prints, and what it reports.
type Ended = (
    &'static [&'static [u8]],
    Option<&'static [u8]>,
    u8,
    &'static str,
    &'static str,
);

const USAGE: &str = "usage: nvmed once | replay | run | decode KIND HEX\n";

/// A guest that reads its memory.
const ONE_GUEST: &[u8] = b"host 0x1000000
mediator 0x400000
disk 4096
lanes 1
guest 0 range 1000 64 heap 65536
map 0 0x0 0x100000 0x20000
load 0 0x0 2
";

const ENDED: [Ended; 12] = [
    (
        &[b"nvmed", b"once"],
        Some(b"memory 4096\nblocks 1\ndump 0 2"),
        0,
        "0000\n",
        "",
    ),
    (
        &[b"nvmed", b"00000000000000000100010007000100"],
        None,
        0,
        "dw0=00000000 sqhd=0001 sqid=0001 cid=0007 p=1 sct=0 sc=00 crd=0 m=0 dnr=0\n",
        "",
    ),
    (&[b"nvmed", b"00"], None, 1, "", "line 1: bad bytes\n"),
    (
        &[b"nvmed", b"once"],
        Some(b"memory 4096\nblocks 1\ndump 0 2\ndump"),
        1,
        "",
        "line 4: missing word\n",
    ),
    (
        &[b"nvmed", b"run"],
        Some(ONE_GUEST),
        0,
        "0 bytes 0000\nok\n",
        "",
    ),
    (
        &[b"nvmed", b"run"],
        Some(b"host 0x200000\nload 0 0x0 2"),
        1,
        "",
        "line 2: out of place\n",
    ),
    (&[b"nvmed", b"run"], None, 5, "", "cannot read\n"),
    (&[b"nvmed"], None, 2, "", USAGE),
    (&[b"nvmed", b"once", b"-x"], None, 2, "", USAGE),
    (&[b"nvmed", b"once", b"\xff"], None, 2, "", USAGE),
    (&[b"nvmed", b"refused"], None, 3, "", "no memory\n"),
    (&[b"nvmed", b"once"], None, 5, "", "cannot read\n"),
];

fn expect_ended<T: Abort + AllocGlobal + Threads + Wait + Clock + Sync>(rt: &T, rows: &[Ended]) {
    for (words, text, number, printed, told) in rows {
        let process = Process {
            words: *words,
            alloc: rt.alloc(),
        };
        let mut input = Given { text: *text };
        let mut output = Vec::new(rt.alloc());
        let mut faults = Vec::new(rt.alloc());
        let code = program::<
            FirstWord,
            FlatController,
            Process<'_>,
            T,
            Given<'_>,
            &mut Vec<u8>,
            Vec<u8>,
        >(&process, rt, &mut input, &mut output, &mut faults);
        assert_eq!(rt; code, ExitCode::from(*number), "{told}");
        assert_eq!(rt; output.as_slice(), printed.as_bytes());
        assert_eq!(rt; faults.as_slice(), told.as_bytes());
    }
}

#[test]
fn a_process_ends_with_the_number_of_its_outcome(rt: HostRuntime) {
    expect_ended(&rt, &ENDED);
}
