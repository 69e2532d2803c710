//! What the commands share: arguments that are paths or numbers, and their values.

ghost use Rattle.std.specs.Prelude.{◌≡◌, IfOk, true, false, codes, option_map};
ghost use Rattle.clap.specs.Words.{first_of, found_of, rows_of, rule_of};
ghost use Rattle.pp_words.specs.CommandLine.{flag_among, flag_rule, number_among, number_rule, option_rule, output_rule};
ghost use Rattle.pp_words.specs.CommandLine.{path_rule, paths_rule, texts, value_among, values_among};

use clap::{Arg, ArgAction, ArgMatches};
use std::alloc::{AllocError, Global};

/// The argument `SETTINGS`.
pub fn settings<'a>(alloc: Global) -> Arg<'a>
    ensures rule { rule_of result ≡ path_rule (codes "settings") }
    ensures local { result.global ≡ false }
{
    path(
        alloc,
        "settings",
        "SETTINGS",
        "The settings of the pool: a TOML text",
    )
}

/// The argument `PLAN`.
pub fn plan<'a>(alloc: Global) -> Arg<'a>
    ensures rule { rule_of result ≡ path_rule (codes "plan") }
    ensures local { result.global ≡ false }
{
    path(
        alloc,
        "plan",
        "PLAN",
        "The plan, what a worker does with pages: a JSON text",
    )
}

/// The argument `JOURNAL`.
pub fn journal<'a>(alloc: Global) -> Arg<'a>
    ensures rule { rule_of result ≡ path_rule (codes "journal") }
    ensures local { result.global ≡ false }
{
    path(
        alloc,
        "journal",
        "JOURNAL",
        "The journal of a run, an event on each line: a text",
    )
}

/// The arguments `PLAN`, of plans that workers take.
pub fn plans_to_run<'a>(alloc: Global) -> Arg<'a>
    ensures rule { rule_of result ≡ paths_rule (codes "plans") }
    ensures local { result.global ≡ false }
{
    paths(
        alloc,
        "plans",
        "PLAN",
        "The plans that workers take, in this order: JSON texts",
    )
}

/// The arguments `PLAN`, of plans that a journal is of.
pub fn plans_of_journal<'a>(alloc: Global) -> Arg<'a>
    ensures rule { rule_of result ≡ paths_rule (codes "plans") }
    ensures local { result.global ≡ false }
{
    paths(
        alloc,
        "plans",
        "PLAN",
        "The plans of the run, in the order in which it took them: JSON texts",
    )
}

/// An argument that is the path of a file and has to be given.
pub fn path<'a>(alloc: Global, id: &'a str, name: &'a str, help: &'a str) -> Arg<'a>
    ensures rule { rule_of result ≡ path_rule id.entry.now }
    ensures local { result.global ≡ false }
{
    Arg::new(alloc, id)
        .required(true)
        .value_name(name)
        .help(help)
}

/// An argument that is the paths of one file or more.
pub fn paths<'a>(alloc: Global, id: &'a str, name: &'a str, help: &'a str) -> Arg<'a>
    ensures rule { rule_of result ≡ paths_rule id.entry.now }
    ensures local { result.global ≡ false }
{
    path(alloc, id, name, help).action(ArgAction::Append)
}

/// An option that is the path of a file, under a name that begins with two hyphens.
pub fn option<'a>(alloc: Global, id: &'a str, name: &'a str, help: &'a str) -> Arg<'a>
    ensures rule { rule_of result ≡ option_rule id.entry.now }
    ensures local { result.global ≡ false }
{
    Arg::new(alloc, id).long(id).value_name(name).help(help)
}

/// The option `-o FILE`, or `--output FILE`.
pub fn output<'a>(alloc: Global, help: &'a str) -> Arg<'a>
    ensures rule { rule_of result ≡ output_rule }
    ensures local { result.global ≡ false }
{
    option(alloc, "output", "FILE", help).short('o')
}

/// An option without a value, under a name that begins with two hyphens.
pub fn flag<'a>(alloc: Global, id: &'a str, help: &'a str) -> Arg<'a>
    ensures rule { rule_of result ≡ flag_rule id.entry.now }
    ensures local { result.global ≡ false }
{
    Arg::new(alloc, id)
        .long(id)
        .action(ArgAction::SetTrue)
        .help(help)
}

/// An argument that is a number of 32 bits and has to be given.
pub fn number<'a>(alloc: Global, id: &'a str, name: &'a str, help: &'a str) -> Arg<'a>
    ensures rule { rule_of result ≡ number_rule id.entry.now }
    ensures local { result.global ≡ false }
{
    path(alloc, id, name, help).value_parser(clap::value_parser!(u32))
}

/// The value of an argument in the matches of a command; no text where it has none, which no required argument has.
pub fn value_of<'a>(matches: &ArgMatches<'a>, id: &str) -> &'a str
    ensures { result.now ≡ value_among (rows_of (found_of matches.now)) id.now }
{
    matches.get_str(id).unwrap_or("")
}

/// The values of an argument in the matches of a command, in the order of the words; none where it has none, which no
/// required argument has.
pub fn values_of<'a>(
    alloc: Global,
    matches: &ArgMatches<'a>,
    id: &str,
) -> Result<Vec<&'a str>, AllocError>
    ensures { IfOk result (λ values. texts values.items ≡ values_among (rows_of (found_of matches.now)) id.now) }
{
    match matches.get_raw(id) {
        Some(values) => {
            let copies = values.to_vec(alloc)?;
            Ok(copies)
        }
        None => Ok(Vec::new(alloc)),
    }
}

/// The value of an option in the matches of a command, where it has one.
pub fn option_of<'a>(matches: &ArgMatches<'a>, id: &str) -> Option<&'a str>
    ensures { option_map (λ text. text.now) result ≡ first_of id.now (rows_of (found_of matches.now)) }
{
    matches.get_str(id)
}

/// Whether a flag is given in the matches of a command.
pub fn is_given(matches: &ArgMatches<'_>, id: &str) -> bool
    ensures { result ≡ flag_among (rows_of (found_of matches.now)) id.now }
{
    match option_of(matches, id) {
        Some(text) => text == "true",
        None => false,
    }
}

/// The number that is the value of an argument in the matches of a command; 0 where it has none, which no required
/// argument has.
pub fn number_of(matches: &ArgMatches<'_>, id: &str) -> u32
    ensures { result ≡ number_among (rows_of (found_of matches.now)) id.now }
{
    matches.get_one::<u32>(id).unwrap_or(0)
}
