//! The command `draw [-o FILE] SETTINGS JOURNAL PLAN...`.

ghost use Rattle.std.specs.Prelude.{◌≡◌, IfOk, false};
ghost use Rattle.clap.specs.Words.{app_of, found_of, rows_of};
ghost use Rattle.clap.specs.declared.builder.command.Command.TheViews.{out-Command};
ghost use Rattle.pp_words.specs.CommandLine.{asked_draw, draw_among, draw_command};

use crate::parts::{journal, option_of, output, plans_of_journal, settings, value_of, values_of};
use clap::{ArgMatches, Command};
use std::alloc::{AllocError, Global};

/// The files of `draw`, by their paths.
#[derive(Debug, Drop)]
pub struct DrawPaths<'a> {
    /// The file that the picture is written to, where one is wanted; else it is printed.
    pub output: Option<&'a str>,
    /// The settings of the pool, a TOML text.
    pub settings: &'a str,
    /// The journal, a text with an event on each line.
    pub journal: &'a str,
    /// The plans that the journal is of, in the order in which they were submitted: JSON texts. There is one at least.
    pub plans: Vec<&'a str>,
}

impl<'a> DrawPaths<'a> {
    /// The command with its arguments.
    pub fn command(alloc: Global) -> Result<Command<'a>, AllocError>
        ensures { IfOk result (λ command. ((out-Command command).has_globals ≡ false)
            × (app_of command ≡ draw_command)) }
    {
        let command = Command::new(alloc, "draw")
            .after_help(
                "Example: pinpool draw -o touch.svg examples/set1.toml examples/touch.journal examples/touch.json\n\
                \n\
                Status: 0 drawn, 1 refused, 2 a bad command line, 3 a file that can't be read or written, 4 out of memory.\n\
                A refusal is one line on standard output; standard error says where and why.\n\
                Limits: 256 plans, and 4,000,000 moves by their costs; 4,000 columns, rows for 64 frames.\n\
                Settings of an endless life are refused.\n\
                Read on: docs/formats.md, Pictures.",
            )
            .about("Draws a true journal of these plans as a picture, an SVG text.")
            .arg(settings(alloc))?
            .arg(journal(alloc))?
            .arg(plans_of_journal(alloc))?
            .arg(output(
                alloc,
                "Writes the picture to this file, and only where the journal isn't refused",
            ))?;
        Ok(command)
    }

    /// The paths among the matches of the command.
    pub fn among(alloc: Global, matches: &ArgMatches<'a>) -> Result<DrawPaths<'a>, AllocError>
        ensures { IfOk result (λ paths. asked_draw paths ≡ draw_among (rows_of (found_of matches.now))) }
    {
        Ok(DrawPaths {
            output: option_of(matches, "output"),
            settings: value_of(matches, "settings"),
            journal: value_of(matches, "journal"),
            plans: values_of(alloc, matches, "plans")?,
        })
    }
}
