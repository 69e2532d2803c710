//! The call that reads the program's words.

use crate::printing::twice;
use crate::tried::{Told, Tried};
use pp_words::{Job, JobError, job};
use std::alloc::Global;
use std::fmt;

/// Does the case of this row.
pub fn case<R: AllocGlobal + Print>(rt: &R, row: &str) -> anyhow::Result<()> {
    twice(
        rt,
        &mut Asking {
            alloc: rt.alloc(),
            words: words_of(row)?,
        },
    )
}

/// The words of this row.
fn words_of(row: &str) -> anyhow::Result<&'static [&'static str]> {
    match row {
        "check" => Ok(&["pinpool", "check", "a", "b", "c"]),
        "run" => Ok(&["pinpool", "run", "--journal", "a", "b", "c", "0", "d"]),
        "help" => Ok(&["pinpool", "--help"]),
        "none" => Ok(&["pinpool", "check"]),
        "segments" => Ok(&[
            "pinpool",
            "audit",
            "a",
            "--ended",
            "--segments",
            "b",
            "c",
            "--",
            "-d",
            "--",
            "--segments",
        ]),
        "no_file" => Ok(&["pinpool", "audit", "--segments", "a", "b", "--"]),
        _ => anyhow::bail!("there is no such row"),
    }
}

/// Words that are read.
#[derive(Drop)]
struct Asking {
    alloc: Global,
    words: &'static [&'static str],
}

impl Tried for Asking {
    type Told = Read;

    fn call(&mut self) -> Read {
        match job(self.alloc, self.words) {
            Ok(job) => Read::Job(job),
            Err(error) => Read::Refused(error),
        }
    }
}

/// What words are read as.
#[derive(Drop)]
enum Read {
    Job(Job<'static>),
    Refused(JobError),
}

impl Told for Read {
    fn is_last(&self) -> bool {
        matches!(self, Read::Job(_))
    }
}

impl fmt::Display for Read {
    fn fmt<W: fmt::Write>(&self, f: &mut fmt::Formatter<W>) -> fmt::Result {
        match self {
            Read::Job(job) => write!(f, "{job:?}"),
            Read::Refused(error) => write!(f, "{error}"),
        }
    }
}
