//! A certificate.

ghost use Rattle.std.specs.Prelude.{◌≡◌, ◌<◌, Ok, Err, IfOk, IsOkUnless, length, string_bytes};
ghost use Rattle.pp_cert.specs.declared.error.CertError.TheVariants.{OutOfMemory};
ghost use Rattle.pp_text.specs.Steps.{Gives};

use crate::error::CertError;
use crate::note::Note;
use crate::reading::read;
use crate::writing::certificate_value;
use pp_plan::Plan;
use pp_settings::Settings;
use std::alloc::Global;

/// What a certificate claims of a plan: what is held at each place, and bounds on the pins at once and on the
/// actions of a trace. Nothing of it is believed before `check` accepted it.
#[derive(Debug)]
pub struct Certificate {
    /// A bound on the pins at once.
    pub peak: u64,
    /// A bound on the actions of a trace.
    pub steps: u64,
    /// The note at each place, by number.
    pub notes: Vec<Note>,
}

// By hand, so that code that lets one go calls this, and doesn't let each field go anew.
impl Drop for Certificate {
    fn drop(self) {
        let Certificate {
            peak: _,
            steps: _,
            notes: _,
        } = self;
    }
}

impl Certificate {
    ghost use Rattle.std.specs.Prelude.{◌≢◌, IfErr};
    ghost use Rattle.serde_json.specs.Read.{read};
    ghost use Rattle.pp_cert.specs.CertErrors.{is_certificate_memory};
    ghost use Rattle.pp_cert.specs.Faults.{Fault, HasFault, TellsFirst};
    ghost use Rattle.pp_cert.specs.Claims.{Claims, claims_of, AreClaims};
    ghost use Rattle.pp_cert.specs.Reading.{reading};
    ghost use Rattle.pp_cert.specs.Spelling.{IsText};
    ghost use Rattle.pp_cert.specs.Writing.{certificate_text};

    /// The certificate that the text spells under the settings and the plan.
    ///
    /// A key that stands twice counts where it stands last, as the JSON reader has it.
    ///
    /// # Errors
    ///
    /// The first error in the order that `CertError` gives. `OutOfMemory` if memory runs out before.
    pub fn from_text(
        alloc: Global,
        settings: &Settings,
        plan: &Plan,
        text: &str,
    ) -> Result<Certificate, CertError>
        // What is accepted is spelled so: each entry and number, and nothing else stands in the text.
        ensures found { IfOk result (λ c. IsText settings.now plan.now text.now (claims_of c)) }
        // What is spelled so is accepted, unless memory runs out.
        ensures only { (t : Claims) → IsText settings.now plan.now text.now t
            → Gives is_certificate_memory claims_of result (Ok t) }
        // A text that is accepted has no fault.
        ensures faultless { IfOk result (λ _. (f : Fault) → ¬ HasFault settings.now plan.now (read text.now) f) }
        // A refusal tells a fault of the text, and the text has none before it in the order, unless memory runs out.
        ensures first { IfErr result (λ e. e ≢ OutOfMemory
            → TellsFirst settings.now plan.now (read text.now) e) }
        // The same as a function of the text.
        ensures exact { Gives is_certificate_memory claims_of result (reading settings.now plan.now text.now) }
        // What is accepted can be written again.
        ensures writable { IfOk result (λ c. AreClaims settings.now plan.now (claims_of c)) }
        // Memory is never wanted for an empty text.
        ensures memory { result ≡ Err OutOfMemory → 0 < length text.now }
    {
        // The plan's slot names stand in byte order: its statements tell so to the proof. A build may drop this.
        prove!(plan.body().len() <= usize::MAX);
        read(alloc, settings, plan, text)
    }

    /// The text of the certificate, which has no white space and its keys in byte order, as in
    /// `{"notes":[{"a":["root","-"]},{}],"peak":2,"steps":8}`. A bundle's entry is its bound, as in `"g":3`.
    ///
    /// # Errors
    ///
    /// `OutOfMemory` alone.
    pub fn to_text(
        &self,
        alloc: Global,
        settings: &Settings,
        plan: &Plan,
    ) -> Result<String, CertError>
        // Slots rise in each note and are the plan's, those of bundles are its bundles, with bounds from 1 to 4,096, or to the
        // frames where these are more, regions are the settings', and notes and entries are few enough.
        requires { AreClaims settings.now plan.now (claims_of self.now) }
        ensures text { IfOk result (λ s. string_bytes s
            ≡ certificate_text settings.now plan.now (claims_of self.now)) }
        // Under the same settings and plan the text reads as the same certificate.
        ensures reads_back { IfOk result (λ s. reading settings.now plan.now (string_bytes s)
            ≡ Ok (claims_of self.now)) }
        ensures only_memory { IsOkUnless result OutOfMemory }
    {
        // Names have no byte that a JSON text escapes: the statements and the layout tell so to the proof. A build may
        // drop this.
        prove!(plan.body().len() <= usize::MAX);
        prove!(settings.layout().frames() <= u32::MAX);
        let value = certificate_value(alloc, settings, plan, self)?;
        Ok(value.to_string(alloc)?)
    }
}
