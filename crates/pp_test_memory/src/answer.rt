//! What calls come to.

use crate::tried::Told;
use pp_text::Refusal;
use std::alloc::AllocError;
use std::fmt;

/// What a call comes to: figures of what it made, a text, or why it made nothing.
#[derive(Drop)]
pub enum Answer {
    /// A figure with its name.
    One(&'static str, u64),
    /// Two figures, each with its name.
    Two(&'static str, u64, &'static str, u64),
    /// Three figures, each with its name.
    Three(&'static str, u64, &'static str, u64, &'static str, u64),
    /// A text.
    Text(String),
    /// Nothing: the call answers none, or its values are spent.
    Nothing,
    /// A refusal with its number.
    Refused(Refusal),
    /// Want of memory, in the words of the standard library.
    Lacking(AllocError),
    /// An error of another kind, in its own words.
    Failed(anyhow::Error),
}

impl Answer {
    /// What a call comes to that writes a text and fails only for want of memory.
    pub fn of_text(written: Result<String, AllocError>) -> Answer {
        match written {
            Ok(text) => Answer::Text(text),
            Err(error) => Answer::Lacking(error),
        }
    }
}

impl Told for Answer {
    /// A refused call is made again, and so is one that answers nothing.
    fn is_last(&self) -> bool {
        matches!(
            self,
            Answer::One(_, _)
                | Answer::Two(_, _, _, _)
                | Answer::Three(_, _, _, _, _, _)
                | Answer::Text(_)
        )
    }
}

impl fmt::Display for Answer {
    fn fmt<W: fmt::Write>(&self, f: &mut fmt::Formatter<W>) -> fmt::Result {
        match self {
            Answer::One(name, figure) => write!(f, "{name} {figure}"),
            Answer::Two(name, figure, second, other) => {
                write!(f, "{name} {figure}, {second} {other}")
            }
            Answer::Three(name, figure, second, other, third, last) => {
                write!(f, "{name} {figure}, {second} {other}, {third} {last}")
            }
            Answer::Text(text) => f.write_str(text.as_str()),
            Answer::Nothing => f.write_str("Nothing"),
            Answer::Refused(refusal) => write!(f, "{refusal}"),
            Answer::Lacking(error) => write!(f, "{error}"),
            Answer::Failed(error) => write!(f, "{error}"),
        }
    }
}
