//! The command `audit --segments [--ended] SETTINGS PLAN... -- FILE...`.

ghost use Rattle.std.specs.Prelude.{◌≡◌, IfOk, false, map};
ghost use Rattle.clap.specs.Words.{app_of, found_of, rows_of};
ghost use Rattle.clap.specs.declared.builder.command.Command.TheViews.{out-Command};
ghost use Rattle.pp_words.specs.CommandLine.{asked_segments, segments_among, segments_command, texts};

use crate::parts::{flag, is_given, paths, settings, value_of, values_of};
use clap::{ArgMatches, Command};
use std::alloc::{AllocError, Global};
use std::convert::AsStr;

/// How the command is used, with its files, of which `clap` knows nothing.
pub const USAGE: &str = "pinpool audit --segments [--ended] <SETTINGS> <PLAN>... -- <FILE>...";

/// The files of an audit of segments, by their paths, in the order of the words, and whether all has to be done at the
/// end.
#[derive(Debug, Drop)]
pub struct SegmentsPaths<'a> {
    /// Whether nothing may be left to do behind the last segment: no plan waits or runs, and no flush is in flight.
    pub ended: bool,
    /// The settings of the pool, a TOML text.
    pub settings: &'a str,
    /// The plans that were prepared, which the segments name by their numbers in this order, from 0: JSON texts. There
    /// is one at least.
    pub plans: Vec<&'a str>,
    /// The segments, in the order in which they were taken out, one or more in each file: texts. There is one file at
    /// least, and its path may begin with a hyphen.
    pub files: Vec<&'a str>,
}

impl<'a> SegmentsPaths<'a> {
    /// The command with its arguments, but for the files.
    pub fn command(alloc: Global) -> Result<Command<'a>, AllocError>
        ensures { IfOk result (λ command. ((out-Command command).has_globals ≡ false)
            × (app_of command ≡ segments_command)) }
    {
        let command = Command::new(alloc, "audit")
            .override_usage(USAGE)
            .after_help(
                "FILE... are the segments, in their order, one or more in each file: texts.\n\
                \n\
                Example: pinpool audit --segments examples/endless.toml examples/touch.json examples/two.json \
                -- examples/endless-0.segment\n\
                \n\
                Status: 0 true segments, 1 refused, 2 a bad command line, 3 a file that can't be read, \
                4 out of memory.\n\
                A refusal is one line on standard output; standard error says where and why.\n\
                Limits: 4,096 plans, and 2^61 moves. Settings of a bounded life are refused.\n\
                Read on: docs/formats.md, Segments.",
            )
            .about(
                "Says whether the segments of an endless pool's journal are true ones, and where they are not.",
            )
            .arg(flag(
                alloc,
                "segments",
                "The files are segments of the journal of an endless pool",
            ))?
            .arg(flag(
                alloc,
                "ended",
                "Nothing may be left to do at the end: no plan waits or runs, and no flush is in flight",
            ))?
            .arg(settings(alloc))?
            .arg(paths(
                alloc,
                "plans",
                "PLAN",
                "The plans that were prepared, in the order of their numbers: JSON texts",
            ))?;
        Ok(command)
    }

    /// The paths among the matches of the command, with these files.
    pub fn among<S: AsStr>(
        alloc: Global,
        matches: &ArgMatches<'a>,
        files: &'a [S],
    ) -> Result<SegmentsPaths<'a>, AllocError>
        ensures { IfOk result (λ paths.
            asked_segments paths ≡ segments_among (rows_of (found_of matches.now)) (map S.text files.entry.now)) }
    {
        Ok(SegmentsPaths {
            ended: is_given(matches, "ended"),
            settings: value_of(matches, "settings"),
            plans: values_of(alloc, matches, "plans")?,
            files: texts_of(alloc, files)?,
        })
    }
}

/// The words, in their order, each as it is.
fn texts_of<'a, S: AsStr>(alloc: Global, words: &'a [S]) -> Result<Vec<&'a str>, AllocError>
    ensures { IfOk result (λ all. texts all.items ≡ map S.text words.entry.now) }
{
    let mut all = Vec::new(alloc);
    for word in words {
        all.push(word.as_str())?;
    }
    Ok(all)
}
