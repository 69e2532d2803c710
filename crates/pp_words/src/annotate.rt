//! The command `annotate [-o FILE] SETTINGS PLAN`.

ghost use Rattle.std.specs.Prelude.{◌≡◌, IfOk, false};
ghost use Rattle.clap.specs.Words.{app_of, found_of, rows_of};
ghost use Rattle.clap.specs.declared.builder.command.Command.TheViews.{out-Command};
ghost use Rattle.pp_words.specs.CommandLine.{annotate_among, annotate_command, asked_annotate};

use crate::parts::{option_of, output, plan, settings, value_of};
use clap::{ArgMatches, Command};
use std::alloc::{AllocError, Global};

/// The files of `annotate`, by their paths.
#[derive(Clone, Copy, Debug, PartialEq, Eq)]
pub struct AnnotatePaths<'a> {
    /// The file that the certificate is written to, where one is wanted; else it is printed.
    pub output: Option<&'a str>,
    /// The settings of the pool, a TOML text.
    pub settings: &'a str,
    /// The plan, a JSON text.
    pub plan: &'a str,
}

impl<'a> AnnotatePaths<'a> {
    /// The command with its arguments.
    pub fn command(alloc: Global) -> Result<Command<'a>, AllocError>
        ensures { IfOk result (λ command. ((out-Command command).has_globals ≡ false)
            × (app_of command ≡ annotate_command)) }
    {
        let command = Command::new(alloc, "annotate")
            .after_help(
                "Example: pinpool annotate -o pin.cert.json examples/set1.toml examples/pin.json\n\
                \n\
                Status: 0 made, 1 refused, 2 a bad command line, 3 a file that can't be read or written, 4 out of memory.\n\
                A refusal is one line on standard output; standard error says where and why.\n\
                Limits: 4,096 statements, 16 deep, of 32 slots; 1,000,000 steps.\n\
                Read on: docs/formats.md, Plans and Certificates.",
            )
            .about(
                "Makes the least certificate of a plan under the settings of a pool, and prints it.",
            )
            .arg(settings(alloc))?
            .arg(plan(alloc))?
            .arg(output(
                alloc,
                "Writes the certificate to this file, and only where the plan isn't refused",
            ))?;
        Ok(command)
    }

    /// The paths among the matches of the command.
    pub fn among(matches: &ArgMatches<'a>) -> AnnotatePaths<'a>
        ensures { asked_annotate result ≡ annotate_among (rows_of (found_of matches.now)) }
    {
        AnnotatePaths {
            output: option_of(matches, "output"),
            settings: value_of(matches, "settings"),
            plan: value_of(matches, "plan"),
        }
    }
}
