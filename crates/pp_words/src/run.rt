//! The command `run [--journal FILE] [--trace FILE] SETTINGS DEVICE SEED PLAN...`.

ghost use Rattle.std.specs.Prelude.{◌≡◌, IfOk, false};
ghost use Rattle.clap.specs.Words.{app_of, found_of, rows_of};
ghost use Rattle.clap.specs.declared.builder.command.Command.TheViews.{out-Command};
ghost use Rattle.pp_words.specs.CommandLine.{asked_run, run_among, run_command};

use crate::parts::{
    number, number_of, option, option_of, path, plans_to_run, settings, value_of, values_of,
};
use clap::{ArgMatches, Command};
use std::alloc::{AllocError, Global};

/// The files of `run`, by their paths, and its seed.
#[derive(Debug, Drop)]
pub struct RunPaths<'a> {
    /// The file that the journal is written to, where one is wanted.
    pub journal: Option<&'a str>,
    /// The choices that the workers are to make, a text with one on each line, where they are given.
    pub trace: Option<&'a str>,
    /// The settings of the pool, a TOML text.
    pub settings: &'a str,
    /// The device, a file of page images.
    pub device: &'a str,
    /// Where the choices begin that plans leave open.
    pub seed: u32,
    /// The plans that the workers take, in this order: JSON texts. There is one at least.
    pub plans: Vec<&'a str>,
}

impl<'a> RunPaths<'a> {
    /// The command with its arguments.
    pub fn command(alloc: Global) -> Result<Command<'a>, AllocError>
        ensures { IfOk result (λ command. ((out-Command command).has_globals ≡ false)
            × (app_of command ≡ run_command)) }
    {
        let command = Command::new(alloc, "run")
            .after_help(
                "Example: pinpool run --journal set1.journal examples/set1.toml set1.device 0 examples/pin.json\n\
                \n\
                Status: 0 done, 1 refused, 2 a bad command line, 3 a file that can't be read or written,\n\
                or a plan that is gone or a flush that failed, 4 out of memory.\n\
                A refusal is one line on standard output; standard error says where and why.\n\
                Limits: 32 workers, or 1,024 by settings of version 2; 256 plans, and 4,000,000 moves by their\n\
                costs. Settings of an endless life are refused.\n\
                Read on: docs/formats.md, Runs and Reports.",
            )
            .about("Runs plans on threads over a device, and prints a report.")
            .arg(option(
                alloc,
                "journal",
                "FILE",
                "Writes the journal, all that was done, to this file",
            ))?
            .arg(settings(alloc))?
            .arg(path(
                alloc,
                "device",
                "DEVICE",
                "The device, a file of page images, as `pinpool format` writes one",
            ))?
            .arg(number(
                alloc,
                "seed",
                "SEED",
                "Where the choices begin that plans leave open: 0 to 4294967295",
            ))?
            .arg(plans_to_run(alloc))?
            .arg(option(
                alloc,
                "trace",
                "FILE",
                "The pages and branches that workers choose, a line `WORKER NUMBER` for each: a text",
            ))?;
        Ok(command)
    }

    /// The paths and the seed among the matches of the command.
    pub fn among(alloc: Global, matches: &ArgMatches<'a>) -> Result<RunPaths<'a>, AllocError>
        ensures { IfOk result (λ paths. asked_run paths ≡ run_among (rows_of (found_of matches.now))) }
    {
        Ok(RunPaths {
            journal: option_of(matches, "journal"),
            trace: option_of(matches, "trace"),
            settings: value_of(matches, "settings"),
            device: value_of(matches, "device"),
            seed: number_of(matches, "seed"),
            plans: values_of(alloc, matches, "plans")?,
        })
    }
}
