//! All tokens of one worker.

ghost use Rattle.std.specs.Prelude.{◌≡◌, true, false, IfOk, IfErr, OnErr};
ghost use Rattle.pp_vault.specs.declared.tokens.Chair.{Chair};
ghost use Rattle.pp_vault.specs.declared.stage.Stage.TheVariants.{Idle};
ghost use Rattle.pp_vault.specs.Stages.{stage_worker, idle_hand, is_idle_hand};

use crate::places::Guards;
use crate::tokens::{Chair, Errand, Leaver, Returned, Session};

/// A worker's token, by its stage.
pub enum Stage {
    /// It is idle.
    Idle(Chair),
    /// It is in its plan, and no device works for it.
    In(Session),
    /// A device has to work for it.
    Out(Errand),
    /// A device has worked for it, and the vault doesn't know yet what came of it.
    Back(Returned),
    /// It leaves its plan after a fix that failed.
    Leaving(Leaver),
}

/// All tokens of one worker: its stage's, and the guard of each slot that it holds.
///
/// The compiler refuses code that lets it fall.
pub struct Hand {
    pub stage: Stage,
    pub guards: Guards,
}

impl Stage {
    /// The worker's number. None for an errand of the flusher.
    pub fn worker(&self) -> Option<u32>
        ensures { result ≡ stage_worker self.now }
    {
        match self {
            Stage::Idle(chair) => Some(chair.worker),
            Stage::In(session) => Some(session.worker),
            Stage::Out(errand) => errand.duty.worker(),
            Stage::Back(returned) => returned.duty.worker(),
            Stage::Leaving(leaver) => Some(leaver.worker),
        }
    }
}

impl Hand {
    /// The hand of a worker with this chair and these guards.
    pub(crate) fn of(chair: Chair, guards: Guards) -> Hand
        ensures { result ≡ record { stage = Idle chair; guards = guards } }
    {
        Hand {
            stage: Stage::Idle(chair),
            guards,
        }
    }

    /// Whether the worker is idle and holds nothing.
    pub fn is_idle(&self) -> bool
        ensures idle { result ≡ true → (chair : Chair) × (self.now ≡ idle_hand chair) }
        ensures busy { result ≡ false → is_idle_hand self.now ≡ false }
    {
        match &self.stage {
            Stage::Idle(_) => self.guards.is_empty(),
            _ => false,
        }
    }

    /// The chair of an idle worker that holds nothing. The places of its guards go.
    ///
    /// # Errors
    ///
    /// The hand, where the worker isn't idle or a guard is there.
    pub fn chair(self) -> Result<Chair, Hand>
        ensures ok { IfOk result (λ chair. self ≡ idle_hand chair) }
        ensures err { OnErr result (is_idle_hand self ≡ false) }
        ensures back { IfErr result (λ e. e ≡ self) }
    {
        if !self.guards.is_empty() {
            return Err(self);
        }
        let Hand { stage, guards } = self;
        match stage {
            Stage::Idle(chair) => {
                let Guards { places: _places } = guards;
                Ok(chair)
            }
            stage => Err(Hand { stage, guards }),
        }
    }

    /// The worker's number. None where the stage is an errand of the flusher.
    pub fn worker(&self) -> Option<u32>
        ensures { result ≡ stage_worker self.now.stage }
    {
        self.stage.worker()
    }
}
