//! Tries each row of `rows.txt` by the public calls, and prints the row with what it comes to.
//!
//! A row is a line. A line `[answers]` and the like begins a section: what is asked in it, and the folder of the files that
//! its rows name. Empty lines and lines that begin with `#` are passed over, but in the section of lines.
#![tactic(auto)]

mod answer;
mod cuts;
mod explained;
mod row;
mod section;
mod segments;

use crate::answer::{answer_to, is_a_line, verdict_on};
use crate::cuts::answers_to_cuts;
use crate::explained::explained;
use crate::row::Row;
use crate::section::Section;
use pp_judge::Exit;
use std::alloc::Global;
use std::rt::Files;
use std::{fs, io};

/// Tries the rows in their order.
fn main(rt: HostRuntime) -> io::Result<()> {
    let rows = fs::read_to_string(&rt, "rows.txt")?;
    let mut section = Section::Answers;
    for line in rows.as_str().lines() {
        if let Some(next) = Section::beginning_at(line) {
            section = next;
        } else if section.has(line) {
            try_row(&rt, section, line)?;
        }
    }
    Ok(())
}

/// Tries the row, and prints it.
fn try_row<R: Files + AllocGlobal + Print>(rt: &R, section: Section, line: &str) -> io::Result<()> {
    if section == Section::Lines {
        return print_row(rt, section, line, is_a_line(rt.alloc(), line));
    }
    match Row::read(rt, section, line) {
        Ok(row) => print_row(rt, section, line, told(rt.alloc(), section, row)),
        Err(error) => Err(error),
    }
}

/// Prints the row with what it comes to.
fn print_row<R: Print>(
    rt: &R,
    section: Section,
    line: &str,
    exit: Exit<'static>,
) -> io::Result<()> {
    let (lead, end) = section.frame();
    print!(rt; "{line}{lead}{exit}{end}")
}

/// What the row of this section comes to.
fn told(alloc: Global, section: Section, row: Row<'_>) -> Exit<'static> {
    match section {
        Section::Explanations => explained(alloc, &row),
        Section::Verdicts => verdict_on(alloc, &row),
        Section::Cuts => answers_to_cuts(alloc, row),
        _ => answer_to(alloc, &row),
    }
}
