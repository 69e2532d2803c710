//! Why a run gave no figures.

use crate::error::PlanError;
use std::alloc::AllocError;
use std::fmt::Display;
use std::io::{self, Write};

/// Why a run gave no figures. What is measured may fail by an error of its own, `E`.
#[derive(Debug, Drop)]
pub enum Trouble<E> {
    /// The words of the command line are others than the usage says.
    Words,
    /// More is asked than the program's limits allow.
    TooMany,
    /// Memory could not be had.
    Memory,
    /// The pool refused its settings, a plan, or what a plan asks.
    Refused,
    /// What is measured failed.
    Failed(E),
    /// The input or the clock could not be read, or the figures could not be written.
    Io(io::Error),
}

impl<E: Display> Trouble<E> {
    /// Says it in a line, for a program with this usage and these limits. What the writer doesn't take is lost.
    pub fn tell<W: Write>(&self, usage: &str, limits: &str, err: &mut W) {
        let _ = match self {
            Trouble::Words => writeln!(err, "{usage}"),
            Trouble::TooMany => writeln!(err, "{limits}"),
            Trouble::Memory => writeln!(err, "out of memory"),
            Trouble::Refused => writeln!(err, "the pool refused what was asked"),
            Trouble::Failed(error) => writeln!(err, "{error}"),
            Trouble::Io(error) => writeln!(err, "{error}"),
        };
    }

    /// The exit status that tells it.
    pub fn status(&self) -> u8 {
        match self {
            Trouble::Words | Trouble::TooMany => 2,
            Trouble::Memory | Trouble::Refused | Trouble::Failed(_) | Trouble::Io(_) => 1,
        }
    }
}

impl<E> From<AllocError> for Trouble<E> {
    fn from(_error: AllocError) -> Self {
        Trouble::Memory
    }
}

impl<E> From<PlanError> for Trouble<E> {
    fn from(error: PlanError) -> Self {
        match error {
            PlanError::Refused => Trouble::Refused,
            PlanError::OutOfMemory => Trouble::Memory,
        }
    }
}

impl<E> From<io::Error> for Trouble<E> {
    fn from(error: io::Error) -> Self {
        Trouble::Io(error)
    }
}
