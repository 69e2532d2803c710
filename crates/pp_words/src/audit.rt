//! The command `audit [--lives] SETTINGS JOURNAL PLAN...`.

ghost use Rattle.std.specs.Prelude.{◌≡◌, IfOk, false};
ghost use Rattle.clap.specs.Words.{app_of, found_of, rows_of};
ghost use Rattle.clap.specs.declared.builder.command.Command.TheViews.{out-Command};
ghost use Rattle.pp_words.specs.CommandLine.{asked_audit, audit_among, audit_command};

use crate::parts::{flag, is_given, journal, plans_of_journal, settings, value_of, values_of};
use clap::{ArgMatches, Command};
use std::alloc::{AllocError, Global};

/// The files of `audit`, by their paths, in the order of the words, and whether they are of several lives.
#[derive(Debug, Drop)]
pub struct AuditPaths<'a> {
    /// Whether the journals of a pool's lives are to be audited, which stand one behind the other in the journal's file.
    pub lives: bool,
    /// The settings of the pool, a TOML text.
    pub settings: &'a str,
    /// The journal, a text with an event on each line; of several lives with `renew = renewed` between two of them.
    pub journal: &'a str,
    /// The plans that the journal is of, in the order in which they were submitted: JSON texts. There is one at least.
    pub plans: Vec<&'a str>,
}

impl<'a> AuditPaths<'a> {
    /// The command with its arguments.
    pub fn command(alloc: Global) -> Result<Command<'a>, AllocError>
        ensures { IfOk result (λ command. ((out-Command command).has_globals ≡ false)
            × (app_of command ≡ audit_command)) }
    {
        let command = Command::new(alloc, "audit")
            .after_help(
                "Example: pinpool audit examples/set1.toml set1.journal examples/pin.json\n\
                \n\
                Status: 0 a true journal, 1 refused, 2 a bad command line, 3 a file that can't be read, 4 out of memory.\n\
                A refusal is one line on standard output; standard error says where and why.\n\
                Limits: 256 plans, and 4,000,000 moves by their costs, in each life. Settings of an endless life\n\
                are refused.\n\
                With --segments: pinpool audit --segments [--ended] SETTINGS PLAN... -- FILE... audits the\n\
                segments of an endless pool; see pinpool audit --segments --help.\n\
                Read on: docs/formats.md, Journals.",
            )
            .about(
                "Says whether a journal is a true one of these plans, to their end, and where it is not.",
            )
            .arg(settings(alloc))?
            .arg(journal(alloc))?
            .arg(plans_of_journal(alloc))?
            .arg(flag(
                alloc,
                "lives",
                "The journal is those of several lives, with the line `renew = renewed` between two",
            ))?;
        Ok(command)
    }

    /// The paths among the matches of the command.
    pub fn among(alloc: Global, matches: &ArgMatches<'a>) -> Result<AuditPaths<'a>, AllocError>
        ensures { IfOk result (λ paths. asked_audit paths ≡ audit_among (rows_of (found_of matches.now))) }
    {
        Ok(AuditPaths {
            lives: is_given(matches, "lives"),
            settings: value_of(matches, "settings"),
            journal: value_of(matches, "journal"),
            plans: values_of(alloc, matches, "plans")?,
        })
    }
}
