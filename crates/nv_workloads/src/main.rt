//! The workloads of the benchmark: jobs that users of the mediator wait for, made from a seed and run through the crates' public calls.
//!
//! `nv_workloads NAME SEED COUNT` runs one with so many commands, and prints a digest of all its results:
//!
//! - `replay`: a script of `nvmed replay`, 8 guests on 4 lanes;
//! - `host`: a host that steps a world of 16 guests on 8 lanes, with plans made outside of it;
//! - `host-without-log`: the same host of a mediator that keeps no log, and so the same digest;
//! - `lists`: a script of `nvmed once` with long lists;
//! - `guests`: a script of `nvmed run`, 4 guests in threads on 2 lanes;
//! - `loops`: the same with Reads whose list names itself, and is read until the limit of 1,024 descriptors ends it;
//! - `awkward`: a host whose guests' memory is scattered, on the largest disk, and some of whose guests are hostile or slow;
//! - `extents`: a host of 16 guests on 8 lanes, each of which has eight extents, with one command in four over a join.
//!
//! With the word `script` after these it prints the script instead, for other programs of the same language. For `host` and `awkward` it is the
//! script of `nvmed replay` with the same events, except for plans that are stale.
//!
//! `nv_workloads forever SEED EVENTS` goes on for so many events, in rounds of a million: 16 guests of a mediator that keeps no log, some of them
//! hostile, slow or reset. Each round has the same commands, and prints how many events there were so far and a digest of their answers.
//!
//! `nv_workloads plans KIND COUNT` makes the same plan so often, and prints how many there were. The kind `descriptors` is a Read of one block
//! through a Last Segment of 1,023 Data Blocks, `ranges` a Dataset Management of 256 ranges, `pages` a Read of 24 blocks whose list of region pages
//! chains. `nv_workloads jobs KIND COUNT` makes no plan: so the job alone, which is made anew each time, is measured.
//!
//! `nv_workloads once` runs a script from standard input as `nvmed once` does, with no command line.
//!
//! Several of these, with the word `then` between them, are done one after another. So one run in the gate shows what each kind prints, by both
//! compilers. The run of `nvmed` there ends with a fault, so that its exit status is seen.
//!
//! It is proved to be safe, and to terminate except for the threads that `guests` and `loops` wait for. What it prints is not proved.
#![tactic(auto)]

mod digest;
mod entry;
mod guests;
mod hosted;
mod lists;
mod plans;
mod random;
mod shape;
mod sink;
mod text;
mod traffic;
mod transfer;
mod workload;

use crate::plans::{Kind, planned};
use crate::traffic::forever::{Forever, ROUND};
use crate::workload::{Failed, Workload};
use nv_commands::{Command, ExitStatus, run, words};
use nv_flat::FlatController;
use nv_mem::NoMemory;
use std::alloc::Global;
use std::io;
use std::io::{Stderr, Stdin, Stdout, Write};
use std::process::ExitCode;
use std::sync::Wait;
use std::thread::Threads;
use std::time::Clock;

const USAGE: &str =
    "usage: nv_workloads replay|host|host-without-log|lists|guests|loops|awkward|extents SEED COUNT [script] | forever SEED EVENTS | plans|jobs descriptors|ranges|pages COUNT | once";

/// What is done.
#[derive(Clone, Copy, Debug)]
enum Task {
    /// a workload
    Work(Workload),
    /// the script of a workload
    Script(Workload),
    /// traffic that goes on for ever
    Forever,
    /// jobs of a kind, and their plans where that is `true`
    Plans(Kind, bool),
}

/// What the words ask for: what is done, from which seed, and how much of it.
#[derive(Clone, Copy, Debug)]
struct Asked {
    task: Task,
    seed: u64,
    count: u64,
}

// The task of a name, and of the word after it.
fn task_of(name: &str, next: &str, is_script: bool) -> Option<Task> {
    match name {
        "forever" => Some(Task::Forever),
        "plans" => Some(Task::Plans(Kind::of(next)?, true)),
        "jobs" => Some(Task::Plans(Kind::of(next)?, false)),
        _ => {
            let workload = Workload::of(name)?;
            Some(if is_script {
                Task::Script(workload)
            } else {
                Task::Work(workload)
            })
        }
    }
}

// What the words ask for. A plan has no seed.
fn reading_of(words: &[String]) -> Option<Asked> {
    let next = words.get(1)?.as_str();
    let task = task_of(words.first()?.as_str(), next, words.get(3).is_some())?;
    let seed = match task {
        Task::Plans(_, _) => 0,
        _ => next.parse::<u64>().ok()?,
    };
    let count = words.get(2)?.as_str().parse::<u64>().ok()?;
    Some(Asked { task, seed, count })
}

// Does what is asked for, and prints what came of it.
fn answer<R: Threads + Wait + Clock + Sync + Print>(
    rt: &R,
    alloc: Global,
    asked: Asked,
) -> io::Result<()> {
    let Asked { task, seed, count } = asked;
    match task {
        Task::Work(workload) => match workload.run(rt, alloc, seed, count) {
            Ok(digest) => {
                let (value, count) = (digest.value(), digest.count());
                println!(rt; "{value:016x} {count}")
            }
            Err(Failed) => rt.println("failed"),
        },
        Task::Script(workload) => match workload.script(alloc, seed, count) {
            Ok(text) => io::writer(rt).write_all(text.as_slice()),
            Err(_) => rt.println("no memory"),
        },
        Task::Forever => go_on(rt, alloc, seed, count),
        Task::Plans(kind, plans) => match planned(alloc, kind, count, plans) {
            Ok(made) => println!(rt; "{made}"),
            Err(NoMemory) => rt.println("no memory"),
        },
    }
}

// Goes on for so many events, in rounds, and prints a line after each: how many events there were so far, and the digest of their answers.
fn go_on<R: Print>(rt: &R, alloc: Global, seed: u64, events: u64) -> io::Result<()> {
    let Ok(mut forever) = Forever::new(alloc, seed) else {
        return rt.println("failed");
    };
    for _round in 0..events.div_ceil(ROUND) {
        if forever.round().is_err() {
            return rt.println("failed");
        }
        let (events, digest) = forever.so_far();
        println!(rt; "{events} {digest:016x}")?;
    }
    Ok(())
}

// Runs a script from standard input, and returns how that ended.
fn once(rt: &HostRuntime) -> ExitStatus {
    let ended = run::<FlatController, Stdin, Stdout, Stderr>(
        rt.alloc(),
        Ok(Command::Once),
        &mut rt.stdin(),
        rt.stdout(),
        &mut rt.stderr(),
    );
    ExitStatus::of(&ended)
}

// Does what these words ask for, or says what they may be.
fn perform<R: Threads + Wait + Clock + Sync + Print>(
    rt: &R,
    alloc: Global,
    words: &[String],
) -> io::Result<()> {
    match reading_of(words) {
        Some(asked) => answer(rt, alloc, asked),
        None => rt.println(USAGE),
    }
}

fn main(rt: HostRuntime) -> io::Result<ExitCode> {
    let Ok(words) = words(&rt) else {
        return Ok(ExitCode::SUCCESS);
    };
    let mut ended = ExitStatus::Success;
    for request in words.split(|word| word.as_str() == "then") {
        if request.first().is_some_and(|word| word.as_str() == "once") {
            ended = once(&rt);
        } else {
            perform(&rt, rt.alloc(), request)?;
        }
    }
    Ok(ExitCode::from(ended))
}
