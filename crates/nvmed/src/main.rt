//! The program `nvmed`: entries of NVM Express in plain words, and scripts of commands on a controller.
//!
//! `nvmed decode sqe HEX` and `nvmed decode cqe HEX` print the fields of one entry on one line. `nvmed once` runs a script of commands on a private
//! controller over flat memory. `nvmed replay` puts a mediated world, of several guests before one physical controller, through the events of a
//! script. `nvmed run` lets the guests of a script act in threads of their own before such a controller. Any other list of words is a usage fault.
//! A fault is one line on standard error, and the exit status gives its kind.
//!
//! This is `main` alone, which hands the process to the crate `nv_commands`: what a command prints, how it ends and with which exit status is
//! proved there.
#![tactic(auto)]

use nv_commands::{CommandLine, program};
use nv_flat::FlatController;
use std::io::{Stderr, Stdin, Stdout};
use std::process::ExitCode;

fn main(rt: HostRuntime) -> ExitCode {
    program::<CommandLine, FlatController, HostRuntime, HostRuntime, Stdin, Stdout, Stderr>(
        &rt,
        &rt,
        &mut rt.stdin(),
        rt.stdout(),
        &mut rt.stderr(),
    )
}
