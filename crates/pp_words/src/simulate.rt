//! The command `simulate SETTINGS SCRIPT PLAN...`.

ghost use Rattle.std.specs.Prelude.{◌≡◌, IfOk, false};
ghost use Rattle.clap.specs.Words.{app_of, found_of, rows_of};
ghost use Rattle.clap.specs.declared.builder.command.Command.TheViews.{out-Command};
ghost use Rattle.pp_words.specs.CommandLine.{asked_simulate, simulate_among, simulate_command};

use crate::parts::{path, plans_to_run, settings, value_of, values_of};
use clap::{ArgMatches, Command};
use std::alloc::{AllocError, Global};

/// The files of `simulate`, by their paths, in the order of the words.
#[derive(Debug, Drop)]
pub struct SimulatePaths<'a> {
    /// The settings of the pool, a TOML text.
    pub settings: &'a str,
    /// The script, a text with a cue on each line.
    pub script: &'a str,
    /// The plans that the workers take, in this order: JSON texts. There is one at least.
    pub plans: Vec<&'a str>,
}

impl<'a> SimulatePaths<'a> {
    /// The command with its arguments.
    pub fn command(alloc: Global) -> Result<Command<'a>, AllocError>
        ensures { IfOk result (λ command. ((out-Command command).has_globals ≡ false)
            × (app_of command ≡ simulate_command)) }
    {
        Command::new(alloc, "simulate")
            .after_help(
                "Example: pinpool simulate examples/set1.toml examples/no-room.script examples/two.json examples/two.json\n\
                \n\
                Status: 0 played, also where cues are refused, 1 refused, 2 a bad command line, 3 a file that can't be read, 4 out of memory.\n\
                A refusal is one line on standard output; standard error says where and why.\n\
                Limits: 256 plans, and 4,000,000 moves by their costs; in an endless life 4,096 plans, and\n\
                2^61 moves.\n\
                Read on: docs/formats.md, Scripts.",
            )
            .about(
                "Plays a script over a pool with these plans, and prints what each cue comes to.",
            )
            .arg(settings(alloc))?
            .arg(path(
                alloc,
                "script",
                "SCRIPT",
                "The script, a cue on each line: a text",
            ))?
            .arg(plans_to_run(alloc))
    }

    /// The paths among the matches of the command.
    pub fn among(alloc: Global, matches: &ArgMatches<'a>) -> Result<SimulatePaths<'a>, AllocError>
        ensures { IfOk result (λ paths. asked_simulate paths ≡ simulate_among (rows_of (found_of matches.now))) }
    {
        Ok(SimulatePaths {
            settings: value_of(matches, "settings"),
            script: value_of(matches, "script"),
            plans: values_of(alloc, matches, "plans")?,
        })
    }
}
