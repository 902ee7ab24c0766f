// Reads a candidate's records and writes the key.

#![tactic(auto)]

use anyhow::{anyhow, bail};
use std::io::{Read, Write};
use std::process::ExitCode;
use std::{env, fs};
use whole_key::whole::key_of;

const USAGE: &str = "usage: whole_day [FILE]

Reads records from FILE, or from standard input, and writes the key to standard output.
It reads all before it writes. The status is 0; where something cannot be read or written
there is a message on standard error, and the status is 1.

A record has 40 bytes: letter, mark, a number of 5 digits, four numbers of 8 digits, newline.
Digits that are not used are 0, a mark that is not used is -.

read
  O  open       L leveraged, I investment   reply time, reference, ranking 1 by time, 2 by size
  E  enter      B S, or b s for execute-and-cancel   sender, price, pieces
  C  cancel     -   sender, ticket
  Q  quote      F flagged, P plain   0, bid, its pieces, ask, its pieces
  V  validate   as Q, with the summons of the open RFE
  T  clock      -   seconds
  W  withdraw, D  decline, R  renew, X  close   -   nothing more

written
  T  trade      -   0, price, pieces, buying ticket, selling ticket (0 is the quote)
  G  order out  -   cause, ticket, pieces
  A  answer     D dark, L lit, R in RFE, H halted   slips, number, dynamic price, opening ticket
  N  refusal    layer F, B, S or P   number, field
  Z  report     1: orders left, accepted, done; 2: 0, out, left (16 digits each)
";

// Where the records come from, unless it is help that is asked for.
#[derive(Drop)]
enum Source {
    Help,
    StandardInput,
    File(String),
}

fn read_arguments(rt: &HostRuntime) -> anyhow::Result<Source> {
    let mut arguments = env::args(rt)?;
    let _program = arguments.next();
    let Some(argument) = arguments.next() else {
        return Ok(Source::StandardInput);
    };
    if arguments.next().is_some() {
        bail!("more than one argument: see whole_day --help");
    }
    if argument.as_str() == "--help" {
        return Ok(Source::Help);
    }
    if argument.as_str().starts_with('-') {
        bail!("there is no such option: see whole_day --help");
    }
    Ok(Source::File(argument))
}

fn read_standard_input(rt: &HostRuntime) -> anyhow::Result<Vec<u8>> {
    let mut input = Vec::new(rt.alloc());
    rt.stdin()
        .read_to_end(&mut input)
        .map_err(|e| anyhow!("standard input cannot be read: {e}"))?;
    Ok(input)
}

fn read_file(rt: &HostRuntime, path: &str) -> anyhow::Result<Vec<u8>> {
    fs::read(rt, path).map_err(|e| anyhow!("{path} cannot be read: {e}"))
}

fn write(rt: &HostRuntime, text: &[u8]) -> anyhow::Result<()> {
    rt.stdout()
        .write_all(text)
        .map_err(|e| anyhow!("standard output cannot be written: {e}"))
}

fn answer(rt: &HostRuntime, input: &[u8]) -> anyhow::Result<()> {
    let key = key_of(rt.alloc(), input)?;
    write(rt, &key)
}

fn run(rt: &HostRuntime) -> anyhow::Result<()> {
    match read_arguments(rt)? {
        Source::Help => write(rt, USAGE.as_bytes()),
        Source::StandardInput => answer(rt, &read_standard_input(rt)?),
        Source::File(path) => answer(rt, &read_file(rt, path.as_str())?),
    }
}

fn main(rt: HostRuntime) -> ExitCode {
    match run(&rt) {
        Ok(()) => ExitCode::SUCCESS,
        Err(e) => {
            let _ = eprintln!(rt; "whole_day: {e}");
            ExitCode::FAILURE
        }
    }
}
