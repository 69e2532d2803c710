//! Accepted plans as plain statements.

use crate::words::{Plan, Word};
use pp_cert::{Accepted, Held};
use pp_plan::{Mode, Stmt};
use std::alloc::{AllocError, Global};

/// How deep statements stand in each other at most: a plan in which they stand deeper is refused.
const LEVELS: u8 = 16;

/// A plan's statements, those of a loop once for each of its turns, and the greatest number of pins that they come to.
#[derive(Drop)]
pub struct Shape {
    words: Vec<Word>,
    peak: u32,
}

impl Shape {
    /// The shape of a plan. No choice may stand in it.
    pub fn of(alloc: Global, accepted: &Accepted) -> anyhow::Result<Shape> {
        let mut words = Vec::new(alloc);
        push_words(LEVELS, accepted.plan().body(), &mut words)?;
        let peak = peak_of(alloc, &words)?;
        Ok(Shape { words, peak })
    }

    pub fn plan(&self) -> Plan<'_> {
        Plan {
            peak: self.peak,
            words: &self.words,
        }
    }
}

fn held_in(mode: Mode) -> Held {
    match mode {
        Mode::S => Held::S,
        Mode::X => Held::X,
    }
}

/// The word of a statement that is no loop and no choice.
fn word_of(stmt: &Stmt) -> Option<Word> {
    match stmt {
        Stmt::Fix { slot, region } => Some(Word::Fix(u32::from(*slot), *region)),
        Stmt::Unfix { slot } => Some(Word::Unfix(u32::from(*slot))),
        Stmt::Latch { slot, mode } => Some(Word::Latch(u32::from(*slot), held_in(*mode))),
        Stmt::Unlatch { slot } => Some(Word::Unlatch(u32::from(*slot))),
        Stmt::Gather { slot, region } => Some(Word::Gather(u32::from(*slot), *region)),
        Stmt::Scatter { slot } => Some(Word::Scatter(u32::from(*slot))),
        Stmt::Loop { .. } | Stmt::Choice { .. } => None,
    }
}

/// Puts the words of the statements behind the others. The statements stand in each other this many levels deep at most.
fn push_words(levels: u8, stmts: &[Stmt], words: &mut Vec<Word>) -> anyhow::Result<()> {
    for stmt in stmts {
        match (word_of(stmt), stmt) {
            (Some(word), _) => words.push(word)?,
            (None, Stmt::Loop { count, body }) if levels > 0 => {
                for _ in 0..*count {
                    push_words(levels - 1, body.stmts(), words)?;
                }
            }
            _ => anyhow::bail!("a plan has a choice, or is too deep"),
        }
    }
    Ok(())
}

/// The greatest number of pins that the words come to: a bundle has one for each page that was gathered.
fn peak_of(alloc: Global, words: &[Word]) -> Result<u32, AllocError> {
    let mut pinned = Vec::new(alloc);
    let mut peak: usize = 0;
    for word in words {
        match word {
            Word::Fix(slot, _) | Word::Gather(slot, _) => pinned.push(*slot)?,
            Word::Unfix(slot) | Word::Scatter(slot) => pinned.retain(|other| *other != *slot),
            _ => {}
        }
        peak = peak.max(pinned.len());
    }
    Ok(peak.min(4096) as u32)
}
