//! The command `format SETTINGS DEVICE`.

ghost use Rattle.std.specs.Prelude.{◌≡◌, IfOk, false};
ghost use Rattle.clap.specs.Words.{app_of, found_of, rows_of};
ghost use Rattle.clap.specs.declared.builder.command.Command.TheViews.{out-Command};
ghost use Rattle.pp_words.specs.CommandLine.{asked_format, format_among, format_command};

use crate::parts::{path, settings, value_of};
use clap::{ArgMatches, Command};
use std::alloc::{AllocError, Global};

/// The two files of `format`, by their paths, in the order of the words.
#[derive(Clone, Copy, Debug, PartialEq, Eq)]
pub struct FormatPaths<'a> {
    /// The settings of the pool, a TOML text.
    pub settings: &'a str,
    /// The device, which is written anew.
    pub device: &'a str,
}

impl<'a> FormatPaths<'a> {
    /// The command with its arguments.
    pub fn command(alloc: Global) -> Result<Command<'a>, AllocError>
        ensures { IfOk result (λ command. ((out-Command command).has_globals ≡ false)
            × (app_of command ≡ format_command)) }
    {
        Command::new(alloc, "format")
            .after_help(
                "Example: pinpool format examples/set1.toml set1.device\n\
                \n\
                Status: 0 written, 1 refused, 2 a bad command line, 3 a file that can't be read or written, 4 out of memory.\n\
                A refusal is one line on standard output; standard error says where and why.\n\
                Limits: pages below 65,536, of 64 to 65,536 bytes each; by settings of version 2\n\
                below 4,294,967,292, of 512 to 1,048,576 bytes each.\n\
                Read on: docs/formats.md, Devices.",
            )
            .about("Writes a device anew, with every page of the settings blank.")
            .arg(settings(alloc))?
            .arg(path(
                alloc,
                "device",
                "DEVICE",
                "The device, a file of page images: what stands in it is lost",
            ))
    }

    /// The paths among the matches of the command.
    pub fn among(matches: &ArgMatches<'a>) -> FormatPaths<'a>
        ensures { asked_format result ≡ format_among (rows_of (found_of matches.now)) }
    {
        FormatPaths {
            settings: value_of(matches, "settings"),
            device: value_of(matches, "device"),
        }
    }
}
