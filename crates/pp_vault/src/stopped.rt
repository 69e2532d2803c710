//! A worker that stops in the midst of a run, with tokens out of the vault's hands.

ghost use Rattle.std.specs.Prelude.{◌≡◌, None, Some};

use crate::guards::Guard;
use crate::places::Guards;
use crate::stage::{Hand, Stage};
use crate::stored::{StoredGuard, StoredStage};

/// What a worker has out of a vault's hands where it stops in the midst of a run.
///
/// It is spent by [`crate::Vault::scrap_with`], with the vault; the compiler refuses code that lets it fall.
pub struct Stopped {
    /// The token of its stage.
    pub stage: Option<Stage>,
    /// A guard that isn't in its place.
    pub guard: Option<Guard>,
}

impl Stopped {
    /// It has nothing.
    pub fn with_nothing() -> Stopped
        ensures { result ≡ record { stage = None; guard = None } }
    {
        Stopped {
            stage: None,
            guard: None,
        }
    }

    /// It has the token of its stage.
    pub fn at(stage: Stage) -> Stopped
        ensures { result ≡ record { stage = Some stage; guard = None } }
    {
        Stopped {
            stage: Some(stage),
            guard: None,
        }
    }

    /// It has the token of its stage, and a guard.
    pub fn holding(stage: Stage, guard: Guard) -> Stopped
        ensures { result ≡ record { stage = Some stage; guard = Some guard } }
    {
        Stopped {
            stage: Some(stage),
            guard: Some(guard),
        }
    }

    /// Gives the tokens up.
    pub(crate) fn scrap(self) {
        let Stopped { stage, guard } = self;
        match stage {
            Some(stage) => {
                let _stage = StoredStage::of(stage);
            }
            None => {}
        }
        match guard {
            Some(guard) => {
                let _guard = StoredGuard::of(guard);
            }
            None => {}
        }
    }
}
