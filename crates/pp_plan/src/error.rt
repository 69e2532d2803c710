//! Why a plan's text was refused.

ghost use Rattle.std.specs.Prelude.{◌≡◌};
ghost use Rattle.pp_text.specs.Refusals.{row, at as statement_at};
ghost use Rattle.pp_text.specs.Views.{row_of_refusal};
ghost use Rattle.pp_plan.specs.declared.error.PlanError.TheVariants.{OutOfMemory};
ghost use Rattle.pp_plan.specs.Refusals.{plan_error_row, plan_error_number, plan_error_name, plan_error_statement};

use pp_text::{About, Refusal};
use std::alloc::{AllocError, AllocFailed};
use thiserror::Error;

/// Why a plan's text was refused: the first refusal in a fixed order, or want of memory.
///
/// First comes the whole text: `NotJson`, `WrongField(0)`, `Range(0)`. Then come the statements, one after another.
/// Of one statement the order is: `TooMany` for the 4,097th, `TooDeep`, `NoSuchStatement`, `WrongField`, `BadName`,
/// `NoSuchRegion`, `Range`, `TooMany` for the 33rd slot name, `MixedSlot`. Statements are numbered from 0 in the order in
/// which they begin in the text.
#[derive(Clone, Copy, Debug, PartialEq, Eq, Error)]
pub enum PlanError {
    /// The text is no JSON.
    #[error("the text is not JSON")]
    NotJson,
    /// The statement isn't an object with exactly one of the first keys of its version: in version 1 the six of fix,
    /// unfix, latch, unlatch, loop and choice, in version 2 also those of gather and scatter.
    #[error("statement {0} is none of fix, unfix, latch, unlatch, loop and choice, nor gather or scatter in version 2")]
    NoSuchStatement(u32),
    /// The statement has other keys or other kinds of values than its kind wants.
    #[error("statement {0} has a wrong key or value")]
    WrongField(u32),
    /// The slot's name isn't 1 to 16 of a-z, 0-9 and `_`, a letter first.
    #[error("statement {0} has a slot name out of form")]
    BadName(u32),
    /// The settings have no region of this name.
    #[error("statement {0} names a region that the settings don't have")]
    NoSuchRegion(u32),
    /// A loop doesn't run 1 to 65,535 times, its body is empty, a choice doesn't have 1 to 16 branches, or the version
    /// is neither 1 nor 2.
    #[error("statement {0} is out of range")]
    Range(u32),
    /// The statement stands more than 16 deep.
    #[error("statement {0} is nested too deep")]
    TooDeep(u32),
    /// The statement is one more than 4,096, or names one slot more than 32.
    #[error("statement {0} is one too many, or its slot is")]
    TooMany(u32),
    /// Memory ran out. It says nothing of the text.
    #[error("out of memory")]
    OutOfMemory,
    /// The statement uses a bundle as a plain slot, or a plain slot as a bundle. An earlier one uses it as what it is.
    #[error("statement {0} uses one slot as a bundle and as a plain slot")]
    MixedSlot(u32),
}

impl PlanError {
    /// The refusal as a program prints it, as in `11 NotJson` and `16 Range at 0`.
    pub fn refusal(self) -> Refusal
        ensures { row_of_refusal result ≡ plan_error_row self }
    {
        match self {
            PlanError::NotJson => Refusal::new(11, "NotJson", About::Nothing),
            PlanError::NoSuchStatement(n) => at(12, "NoSuchStatement", n),
            PlanError::WrongField(n) => at(13, "WrongField", n),
            PlanError::BadName(n) => at(14, "BadName", n),
            PlanError::NoSuchRegion(n) => at(15, "NoSuchRegion", n),
            PlanError::Range(n) => at(16, "Range", n),
            PlanError::TooDeep(n) => at(17, "TooDeep", n),
            PlanError::TooMany(n) => at(18, "TooMany", n),
            PlanError::OutOfMemory => Refusal::new(19, "OutOfMemory", About::Nothing),
            PlanError::MixedSlot(n) => at(20, "MixedSlot", n),
        }
    }

    /// The number of the refusal, 11 to 20.
    pub fn number(self) -> u8
        ensures { result ≡ plan_error_number self }
    {
        self.refusal().number
    }

    /// The name of the refusal, as the program prints it.
    pub fn name(self) -> &'static str
        ensures { result.now ≡ plan_error_name self }
    {
        self.refusal().name
    }

    /// The number of the statement at fault, where one is.
    pub fn statement(self) -> Option<u32>
        ensures { result ≡ plan_error_statement self }
    {
        match self {
            PlanError::NoSuchStatement(n)
            | PlanError::WrongField(n)
            | PlanError::BadName(n)
            | PlanError::NoSuchRegion(n)
            | PlanError::Range(n)
            | PlanError::TooDeep(n)
            | PlanError::MixedSlot(n)
            | PlanError::TooMany(n) => Some(n),
            PlanError::NotJson | PlanError::OutOfMemory => None,
        }
    }
}

/// The refusal of the statement with this number.
fn at(number: u8, name: &'static str, statement: u32) -> Refusal
    ensures { row_of_refusal result ≡ row number name.now (statement_at statement) }
{
    Refusal::new(number, name, About::At(u64::from(statement)))
}

impl From<AllocError> for PlanError {
    ghost from_gives = { λ _ e. e ≡ OutOfMemory };

    fn from(_refused: AllocError) -> PlanError {
        PlanError::OutOfMemory
    }
}

impl<T: Drop> From<AllocFailed<T>> for PlanError {
    ghost from_gives = { λ _ e. e ≡ OutOfMemory };

    fn from(_refused: AllocFailed<T>) -> PlanError {
        PlanError::OutOfMemory
    }
}
