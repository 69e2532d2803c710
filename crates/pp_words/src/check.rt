//! The command `check SETTINGS PLAN CERT`.

ghost use Rattle.std.specs.Prelude.{◌≡◌, IfOk, false};
ghost use Rattle.clap.specs.Words.{app_of, found_of, rows_of};
ghost use Rattle.clap.specs.declared.builder.command.Command.TheViews.{out-Command};
ghost use Rattle.pp_words.specs.CommandLine.{asked_check, check_among, check_command};

use crate::parts::{path, plan, settings, value_of};
use clap::{ArgMatches, Command};
use std::alloc::{AllocError, Global};

/// The three files of `check`, by their paths, in the order of the words.
#[derive(Clone, Copy, Debug, PartialEq, Eq)]
pub struct CheckPaths<'a> {
    /// The settings of the pool, a TOML text.
    pub settings: &'a str,
    /// The plan, a JSON text.
    pub plan: &'a str,
    /// The plan's certificate, a JSON text.
    pub certificate: &'a str,
}

impl<'a> CheckPaths<'a> {
    /// The command with its arguments.
    pub fn command(alloc: Global) -> Result<Command<'a>, AllocError>
        ensures { IfOk result (λ command. ((out-Command command).has_globals ≡ false)
            × (app_of command ≡ check_command)) }
    {
        Command::new(alloc, "check")
            .after_help(
                "Example: pinpool check examples/set1.toml examples/pin.json examples/pin.cert.json\n\
                \n\
                Status: 0 accepted, 1 refused, 2 a bad command line, 3 a file that can't be read, 4 out of memory.\n\
                A refusal is one line on standard output; standard error says where and why.\n\
                Limits: 70,000 notes of 32 entries, 1,000,000 steps, a peak of the frames of the settings.\n\
                Read on: docs/formats.md, Certificates and Refusals explained.",
            )
            .about("Checks the certificate of a plan under the settings of a pool.")
            .arg(settings(alloc))?
            .arg(plan(alloc))?
            .arg(path(
                alloc,
                "certificate",
                "CERT",
                "The certificate of the plan, what is held at each of its places: a JSON text",
            ))
    }

    /// The paths among the matches of the command.
    pub fn among(matches: &ArgMatches<'a>) -> CheckPaths<'a>
        ensures { asked_check result ≡ check_among (rows_of (found_of matches.now)) }
    {
        CheckPaths {
            settings: value_of(matches, "settings"),
            plan: value_of(matches, "plan"),
            certificate: value_of(matches, "certificate"),
        }
    }
}
