//! Why a call of a vault does nothing.

ghost use Rattle.std.specs.Prelude.{◌≡◌, Some};
ghost use Rattle.pp_core.specs.StandsFor.{StandsFor};
ghost use Rattle.pp_model.specs.Moves.{reply_of};
ghost use Rattle.pp_model.specs.Pool.{State};
ghost use Rattle.pp_vault.specs.Calls.{refusal_in};

use pp_core::Core;
use pp_model::{Cause, Delay, Move, Reply};
use std::fmt;

/// Why a call does nothing. The tokens that it was handed come back.
#[derive(Clone, Copy, Debug, PartialEq, Eq)]
pub enum Refusal {
    /// The move isn't possible now. It may become possible without the worker's doing.
    NotNow(Delay),
    /// The move isn't one that may be asked here.
    OffPlan(Cause),
    /// A token isn't one of this state, as a token of another vault may not be: its worker isn't at that stage, its slot
    /// doesn't hold that page with that latch, or its errand isn't out. Or two tokens are of different workers. Or an
    /// image isn't as long as a page, or one that was to be written back isn't the victim's with its known mark.
    Stranger,
}

impl Refusal {
    ghost use Rattle.pp_vault.specs.Refusals.{refusal_number, refusal_name};

    /// The number of the refusal: 61 where the move isn't possible now, else 62.
    pub fn number(self) -> u8
        ensures { result ≡ refusal_number self }
    {
        match self {
            Refusal::NotNow(delay) => delay.number(),
            Refusal::OffPlan(cause) => cause.number(),
            Refusal::Stranger => 62,
        }
    }

    /// The name of the refusal: `NotNow` or `OffPlan`. A stranger's is `OffPlan`.
    pub fn name(self) -> &'static str
        ensures { result.now ≡ refusal_name self }
    {
        match self {
            Refusal::NotNow(delay) => delay.name(),
            Refusal::OffPlan(cause) => cause.name(),
            Refusal::Stranger => "OffPlan",
        }
    }
}

impl fmt::Display for Refusal {
    ghost use Rattle.pp_vault.specs.Words.{refusal_words};

    ghost output = { λ refusal. Some (refusal_words refusal) };

    fn fmt<W: fmt::Write>(&self, f: &mut fmt::Formatter<W>) -> fmt::Result {
        match self {
            Refusal::NotNow(delay) => write!(f, "notnow {delay}"),
            Refusal::OffPlan(cause) => write!(f, "offplan {cause}"),
            Refusal::Stranger => f.write_str("offplan stranger"),
        }
    }
}

/// The refusal that a reply of the core is, if it is one.
pub(crate) fn refusal_in(reply: Reply) -> Option<Refusal>
    ensures { result ≡ refusal_in reply }
{
    match reply {
        Reply::NotNow(delay) => Some(Refusal::NotNow(delay)),
        Reply::OffPlan(cause) => Some(Refusal::OffPlan(cause)),
        _ => None,
    }
}

/// The refusal that the core would give to the move; none where the move is possible.
pub(crate) fn refusal_by(core: &Core, asked: &Move) -> Option<Refusal>
    ensures { (s : State) → StandsFor core.now s → result ≡ refusal_in (reply_of s asked.now) }
{
    match core.refusal(asked) {
        Some(reply) => refusal_in(reply),
        None => None,
    }
}
