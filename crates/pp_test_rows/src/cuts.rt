//! The answers to texts that are cut.

use crate::answer::{answer_to, made};
use crate::row::Row;
use pp_judge::Exit;
use std::alloc::{AllocError, Global};

/// Runs of equal answers to cuts.
#[derive(Drop)]
struct Runs {
    /// The lines of the runs that have ended.
    lines: String,
    /// Where the last run begins.
    begun: usize,
    /// Its answer.
    answer: String,
}

impl Runs {
    /// Adds the answer to the text that is cut after so many bytes.
    fn add(&mut self, cut: usize, answer: String) -> Result<(), AllocError> {
        if answer != self.answer {
            self.end(cut.saturating_sub(1))?;
            self.begun = cut;
            self.answer = answer;
        }
        Ok(())
    }

    /// Adds the line of the last run, which ends here.
    fn end(&mut self, last: usize) -> Result<(), AllocError> {
        write!(self.lines, "\n  {} to {last}: {}", self.begun, self.answer)
    }
}

/// The answers where the last text is cut after 0, 1, 2 .. bytes, a line for each run of equal answers.
pub fn answers_to_cuts(alloc: Global, row: Row<'_>) -> Exit<'static> {
    made(lines_of_cuts(alloc, row))
}

/// The lines, each behind a line feed.
fn lines_of_cuts(alloc: Global, row: Row<'_>) -> Result<String, AllocError> {
    let mut row = row;
    let last = row.texts.pop().unwrap_or(Vec::new(alloc));
    row.texts.push(Vec::new(alloc))?;
    let mut runs = Runs {
        lines: String::new(alloc),
        begun: 0,
        answer: answer(alloc, &row)?,
    };
    for cut in 1..=last.len() {
        put_last(alloc, &mut row.texts, &last[..cut])?;
        runs.add(cut, answer(alloc, &row)?)?;
    }
    runs.end(last.len())?;
    Ok(runs.lines)
}

/// Puts the bytes in the place of the last text.
fn put_last(alloc: Global, texts: &mut Vec<Vec<u8>>, bytes: &[u8]) -> Result<(), AllocError> {
    let _ = texts.pop();
    texts.push(bytes.to_vec(alloc)?)?;
    Ok(())
}

/// The answer to the row, without its last line feed.
fn answer(alloc: Global, row: &Row<'_>) -> Result<String, AllocError> {
    let exit = answer_to(alloc, row);
    let text = format!(in alloc; "{exit}")?;
    String::from_str(alloc, text.strip_suffix("\n").unwrap_or(""))
}
