//! Why a cue isn't done, as the core tells it.

ghost use Rattle.std.specs.Prelude.{◌≡◌};
ghost use Rattle.pp_model.specs.Pool.{State};
ghost use Rattle.pp_vault.specs.StandsFor.{StandsFor};
ghost use Rattle.pp_play.specs.AnyHands.{move_of, told_why, IsTold};

use crate::line::Line;
use pp_script::Cue;
use pp_vault::{Move, Refusal, Vault};

/// The move that the cue asks. None where it is of a device, whose answer isn't in the cue, or of a byte.
fn move_of(cue: Cue) -> Option<Move>
    ensures { result ≡ move_of cue }
{
    match cue {
        Cue::Take { worker } => Some(Move::Take { worker }),
        Cue::Fix { worker, page } => Some(Move::Fix { worker, page }),
        Cue::Unfix { worker } => Some(Move::Unfix { worker }),
        Cue::Latch { worker } => Some(Move::Latch { worker }),
        Cue::Unlatch { worker } => Some(Move::Unlatch { worker }),
        Cue::Choose { worker, branch } => Some(Move::Choose { worker, branch }),
        Cue::Unwind { worker, slot } => Some(Move::Unwind { worker, slot }),
        Cue::Finish { worker } => Some(Move::Finish { worker }),
        Cue::Flush { page } => Some(Move::FlushBegin { page }),
        Cue::Device { .. } | Cue::FlushDevice | Cue::Write { .. } | Cue::Look { .. } => None,
    }
}

/// Why the cue isn't done: as the core refuses its move, or as a stranger's where that is possible. A cue that asks no
/// move isn't done for the reason at hand.
fn why_not(vault: &Vault, cue: Cue, why: Refusal) -> Refusal
    ensures { (s : State) → StandsFor vault.now s → result ≡ told_why s (move_of cue) why }
{
    match move_of(cue) {
        Some(asked) => vault.refusal(&asked).unwrap_or(Refusal::Stranger),
        None => why,
    }
}

/// The line as it is told: where the tokens at hand don't do for the cue, with the core's refusal of its move.
pub(crate) fn told(vault: &Vault, cue: Cue, line: Line) -> Line
    ensures { IsTold vault.now cue line result }
{
    match line {
        Line::Refused(asked, why) => Line::Refused(asked, why_not(vault, cue, why)),
        line => line,
    }
}
