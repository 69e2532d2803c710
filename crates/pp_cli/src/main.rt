//! The program `pinpool`: makes and checks the certificates of plans for a page buffer pool, plays scripts over a pool,
//! formats devices, runs plans over them, and audits and draws journals.
#![tactic(auto)]

mod bar;
mod clashing;
mod explaining;
mod fault;
mod files;
mod holding;
mod journal;
mod keeping;
mod looking;
mod noting;
mod program;
mod running;
mod segments;
mod telling;
mod tracing;
mod writing;

use program::serve;
use std::io::IsTerminal;
use std::process::ExitCode;
use std::{env, io};

/// Runs the program on the words of the command line. Where standard error is a terminal, that shows how far a long job is.
fn main(rt: HostRuntime) -> ExitCode {
    let mut out = rt.stdout();
    let mut err = rt.stderr();
    let terminal = rt.stderr();
    let terminal = terminal.is_terminal().then_some(terminal);
    let words = words(&rt);
    let words = words.as_deref();
    ExitCode::from(serve(&rt, words, &mut out, &mut err, terminal))
}

/// The words of the command line, the program's name first.
fn words(rt: &HostRuntime) -> io::Result<Vec<String>> {
    let mut words = Vec::new(rt.alloc());
    for word in env::args(rt)? {
        words.push(word)?;
    }
    Ok(words)
}
