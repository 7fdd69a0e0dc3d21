//! The grammar of the command line of `nvmed`, which is tested and not proved.

use crate::command::Command;
use crate::entry_kind::EntryKind;
use crate::grammar::Grammar;
use crate::refusal::Refusal;
use crate::request::Request;
use clap::error::ErrorKind;
use clap::{Arg, ArgMatches};
use std::alloc::{AllocError, Global};
use std::convert::AsStr;

/// `once`, `replay`, `run`, or `decode KIND HEX`. No help is built in.
pub struct CommandLine;

impl Grammar for CommandLine {
    fn request<'a, S: AsStr>(alloc: Global, words: &'a [S]) -> Result<Request<'a>, Refusal> {
        let found = match grammar(alloc)?.try_get_matches_from(words) {
            Ok(found) => found,
            Err(error) if error.kind() == ErrorKind::OutOfMemory => return Err(Refusal::NoMemory),
            Err(_) => return Err(Refusal::Usage),
        };
        match found.subcommand() {
            Some((DECODE, found)) => {
                let command = decode_command(found).ok_or(Refusal::Usage)?;
                Ok(Request::Alone(command))
            }
            Some((ONCE, _)) => Ok(Request::Alone(Command::Once)),
            Some((REPLAY, _)) => Ok(Request::Alone(Command::Replay)),
            Some((RUN, _)) => Ok(Request::Run),
            _ => Err(Refusal::Usage),
        }
    }
}

const DECODE: &str = "decode";

const ONCE: &str = "once";

const REPLAY: &str = "replay";

const RUN: &str = "run";

const KIND: &str = "KIND";

const HEX: &str = "HEX";

// The subcommands and their arguments.
fn grammar<'a>(alloc: Global) -> Result<clap::Command<'a>, AllocError> {
    plain(alloc, "nvmed")
        .no_binary_name(true)
        .disable_help_subcommand(true)
        .subcommand_required(true)
        .subcommand(decode_grammar(alloc)?)?
        .subcommand(plain(alloc, ONCE))?
        .subcommand(plain(alloc, REPLAY))?
        .subcommand(plain(alloc, RUN))
}

// What follows `decode`.
fn decode_grammar<'a>(alloc: Global) -> Result<clap::Command<'a>, AllocError> {
    plain(alloc, DECODE)
        .arg(Arg::new(alloc, KIND).required(true))?
        .arg(Arg::new(alloc, HEX).required(true))
}

// A command of this name with no flags of its own.
fn plain<'a>(alloc: Global, name: &'a str) -> clap::Command<'a> {
    clap::Command::new(alloc, name)
        .disable_help_flag(true)
        .disable_version_flag(true)
}

// The command of what follows `decode`, or `None` where its KIND is no valid kind.
fn decode_command<'a>(found: &ArgMatches<'a>) -> Option<Command<'a>> {
    let kind = EntryKind::named(found.get_str(KIND)?)?;
    let digits = found.get_str(HEX)?;
    Some(Command::Decode { kind, digits })
}
