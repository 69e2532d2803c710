//! Why texts aren't taken.

ghost use Rattle.std.specs.Prelude.{◌≡◌};
ghost use Rattle.pp_pool_c.specs.Texts.{fault_of, is_memory, answer_to, fault_after};
ghost use Rattle.pp_pool_c.specs.declared.refusal.Refusal.TheVariants.{Settings, Plan, Certificate, Annotate};

use crate::answer::Answer;
use crate::fault::Fault;
use pp_annotate::AnnotateError;
use pp_cert::{CertError, CheckError};
use pp_plan::PlanError;
use pp_settings::SettingsError;

/// Why texts aren't taken: the first refusal, in the order in which they are read.
#[derive(Clone, Copy, Debug)]
pub(crate) enum Refusal {
    /// A text isn't UTF-8.
    NotText,
    /// It gives no settings.
    Settings(SettingsError),
    /// It gives no plan under these settings.
    Plan(PlanError),
    /// It gives no certificate for this plan.
    Certificate(CertError),
    /// The certificate isn't one of this plan.
    Check(CheckError),
    /// The plan has no certificate under these settings.
    Annotate(AnnotateError),
}

impl Refusal {
    /// Whether memory ran out.
    fn is_memory(self) -> bool
        ensures { result ≡ is_memory self }
    {
        matches!(
            self,
            Refusal::Settings(SettingsError::OutOfMemory)
                | Refusal::Plan(PlanError::OutOfMemory)
                | Refusal::Certificate(CertError::OutOfMemory)
                | Refusal::Annotate(AnnotateError::OutOfMemory)
        )
    }

    /// The fault of a text.
    fn fault(self) -> Option<Fault>
        ensures { result ≡ fault_of self }
    {
        match self {
            Refusal::NotText => None,
            Refusal::Settings(error) => Some(Fault::at(error.number(), None)),
            Refusal::Plan(error) => Some(Fault::at(error.number(), error.statement())),
            Refusal::Certificate(error) => Some(Fault::at(error.number(), None)),
            Refusal::Check(error) => Some(Fault::at(error.number(), error.place())),
            Refusal::Annotate(error) => Some(Fault::at(error.number(), error.place())),
        }
    }

    /// Tells C: a fault is written down, where a text has one.
    pub(crate) fn tell(self, fault: &mut Fault) -> Answer
        ensures answer { result ≡ answer_to self }
        ensures fault { fault.new ≡ fault_after self fault.old }
    {
        if self.is_memory() {
            return Answer::OutOfMemory;
        }
        match self.fault() {
            None => Answer::WrongArgument,
            Some(told) => {
                *fault = told;
                Answer::Refused
            }
        }
    }
}

impl From<SettingsError> for Refusal {
    ghost from_gives = { λ error refusal. refusal ≡ Settings error };

    fn from(error: SettingsError) -> Refusal {
        Refusal::Settings(error)
    }
}

impl From<PlanError> for Refusal {
    ghost from_gives = { λ error refusal. refusal ≡ Plan error };

    fn from(error: PlanError) -> Refusal {
        Refusal::Plan(error)
    }
}

impl From<CertError> for Refusal {
    ghost from_gives = { λ error refusal. refusal ≡ Certificate error };

    fn from(error: CertError) -> Refusal {
        Refusal::Certificate(error)
    }
}

impl From<AnnotateError> for Refusal {
    ghost from_gives = { λ error refusal. refusal ≡ Annotate error };

    fn from(error: AnnotateError) -> Refusal {
        Refusal::Annotate(error)
    }
}
