//! Take, choose and finish: cues of a worker that need no page.

ghost use Rattle.std.specs.Prelude.{◌≡◌, ℕ, false, Some, IfOk, IfErr, OnErr};
ghost use Rattle.pp_vault.specs.Stages.{stage_worker};
ghost use Rattle.pp_vault.specs.StandsFor.{IsKept};
ghost use Rattle.pp_vault.specs.HandLaws.{FitsIn};
ghost use Rattle.pp_play.specs.Plays.{ComesTo};
ghost use Rattle.pp_play.specs.Calling.{is_back};
ghost use Rattle.pp_play.specs.Doing.{HandPlays};
ghost use Rattle.pp_play.specs.Moving.{MovesHand, acts_by, ActsWith, RefusesStage};

use crate::line::{Line, did};
use pp_script::Cue;
use pp_vault::{Cause, Done, Hand, Refusal, Stage, Vault, laws};

/// A worker takes the first plan that waits, goes on with a branch of a choice, or is done with its plan or has left it.
pub(crate) fn act(vault: &mut Vault, hand: Hand, cue: Cue, worker: u32) -> (Hand, Line)
    requires of { stage_worker hand.stage ≡ Some worker }
    requires acts { acts_by cue ≡ Some worker }
    ensures of { stage_worker result.0.stage ≡ Some worker }
    ensures comes { ComesTo vault.old cue result.1 vault.new }
    ensures plays { FitsIn vault.old worker hand → HandPlays vault.old worker hand cue result.1 vault.new result.0 }
    ensures moves { MovesHand vault.old hand result.1 vault.new result.0 }
    ensures forth { is_back hand.stage ≡ false → is_back result.0.stage ≡ false }
{
    vault.known();
    let Hand { stage, guards } = hand;
    match acted(vault, stage, cue) {
        Ok((stage, done)) => (Hand { stage, guards }, did(done)),
        Err((stage, refusal)) => (Hand { stage, guards }, Line::Refused(cue, refusal)),
    }
}

/// The call of the vault that the cue asks, with this token. Another token than it needs is off the plan.
fn acted(vault: &mut Vault, stage: Stage, cue: Cue) -> Result<(Stage, Done), (Stage, Refusal)>
    requires { IsKept vault.old }
    ensures ok { IfOk result (λ now. (w : ℕ) → acts_by cue ≡ Some w → stage_worker stage ≡ Some w
        → ActsWith vault.old w stage cue now.1 vault.new now.0) }
    ensures err { IfErr result (λ e. (w : ℕ) → acts_by cue ≡ Some w → stage_worker stage ≡ Some w
        → RefusesStage vault.old w stage cue e.1) }
    ensures back { IfErr result (λ e. e.0 ≡ stage) }
    ensures unchanged { OnErr result (vault.new ≡ vault.old) }
{
    laws::hands_still_fit();
    match cue {
        Cue::Take { .. } => match stage {
            Stage::Idle(chair) => match vault.take(chair) {
                Ok((session, done)) => Ok((Stage::In(session), done)),
                Err((chair, refusal)) => Err((Stage::Idle(chair), refusal)),
            },
            stage => Err((stage, Refusal::OffPlan(Cause::NotIdle))),
        },
        Cue::Choose { branch, .. } => match stage {
            Stage::In(session) => match vault.choose(session, branch) {
                Ok((session, done)) => Ok((Stage::In(session), done)),
                Err((session, refusal)) => Err((Stage::In(session), refusal)),
            },
            stage => Err((stage, Refusal::OffPlan(Cause::NotActing))),
        },
        _ => match stage {
            Stage::In(session) => match vault.finish(session) {
                Ok((chair, done)) => Ok((Stage::Idle(chair), done)),
                Err((session, refusal)) => Err((Stage::In(session), refusal)),
            },
            Stage::Leaving(leaver) => match vault.end(leaver) {
                Ok((chair, done)) => Ok((Stage::Idle(chair), done)),
                Err((leaver, refusal)) => Err((Stage::Leaving(leaver), refusal)),
            },
            stage => Err((stage, Refusal::OffPlan(Cause::NotActing))),
        },
    }
}
