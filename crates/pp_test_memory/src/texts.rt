//! The calls that read or write settings, plans, certificates and scripts.

ghost use Rattle.std.specs.Prelude.{◌≡◌};
ghost use Rattle.pp_settings.specs.Settings.{geometry_of};

use crate::answer::Answer;
use crate::printing::{begin, end, twice};
use crate::samples::{
    BRANCHES, BUNDLE, BUNDLE_NOTES, CUT_OFF, EVERY, MIXED, NO_CUE, NO_FRAMES, OTHER_NOTES,
    PAGE_NOTES, PIN, PIN_NOTES, SCRIPT,
};
use crate::tried::Tried;
use pp_annotate::{AnnotateError, annotate};
use pp_cert::{CertError, Certificate};
use pp_plan::{Plan, PlanError};
use pp_script::Script;
use pp_settings::Settings;
use pp_test_plain::samples::{NOTHING, SETTINGS};
use std::alloc::Global;

/// Does the case of this call and this row.
pub fn case<R: AllocGlobal + Print>(rt: &R, call: &str, row: &str) -> anyhow::Result<()> {
    let (alloc, text) = (rt.alloc(), text_of(row)?);
    let settings = Settings::from_text(alloc, SETTINGS)?;
    match call {
        "Settings::from_text" | "Script::from_text" | "Plan::from_text" => {
            twice(
                rt,
                &mut Reading {
                    alloc,
                    call,
                    settings,
                    text,
                },
            )
        }
        "Certificate::to_text" => {
            let plan = Plan::from_text(alloc, &settings, text)?;
            certificate_to(rt, &settings, &plan)
        }
        _ => {
            let plan = Plan::from_text(alloc, &settings, text)?;
            twice(
                rt,
                &mut Planned {
                    alloc,
                    call,
                    settings,
                    plan,
                    notes: notes_of(row),
                },
            )
        }
    }
}

/// The text of this row: of settings, of a script, or of a plan.
fn text_of(row: &str) -> anyhow::Result<&'static str> {
    match row {
        "set1" => Ok(SETTINGS),
        "no_frames" => Ok(NO_FRAMES),
        "script" => Ok(SCRIPT),
        "no_cue" => Ok(NO_CUE),
        "pin" | "other" => Ok(PIN),
        "every" => Ok(EVERY),
        "empty" => Ok(NOTHING),
        "branches" => Ok(BRANCHES),
        "cut_off" => Ok(CUT_OFF),
        "bundle" | "page" => Ok(BUNDLE),
        "mixed" => Ok(MIXED),
        _ => anyhow::bail!("there is no such row"),
    }
}

/// The text of a certificate of this row's plan. A row that reads none has that of the first.
fn notes_of(row: &str) -> &'static str {
    match row {
        "other" => OTHER_NOTES,
        "bundle" => BUNDLE_NOTES,
        "page" => PAGE_NOTES,
        _ => PIN_NOTES,
    }
}

/// A text that is read.
#[derive(Drop)]
struct Reading<'a> {
    alloc: Global,
    call: &'a str,
    settings: Settings,
    text: &'static str,
}

impl Tried for Reading<'_> {
    type Told = Answer;

    fn call(&mut self) -> Answer {
        match self.call {
            "Settings::from_text" => settings_from(self.alloc, self.text),
            "Script::from_text" => script_from(self.alloc, self.text),
            _ => plan_from(self.alloc, &self.settings, self.text),
        }
    }
}

fn settings_from(alloc: Global, text: &str) -> Answer {
    match Settings::from_text(alloc, text) {
        Ok(settings) => Answer::Two(
            "frames",
            u64::from(settings.frames()),
            "pages",
            u64::from(settings.pages()),
        ),
        Err(error) => Answer::Refused(error.refusal()),
    }
}

fn script_from(alloc: Global, text: &str) -> Answer {
    match Script::from_text(alloc, text) {
        Ok(script) => {
            let (cues, troubles) = script.into_parts();
            Answer::Two("cues", cues.len() as u64, "troubles", troubles.len() as u64)
        }
        Err(error) => Answer::Refused(error.refusal()),
    }
}

fn plan_from(alloc: Global, settings: &Settings, text: &str) -> Answer {
    match Plan::from_text(alloc, settings, text) {
        Ok(plan) => Answer::Three(
            "version",
            u64::from(plan.version()),
            "statements",
            plan.body().len() as u64,
            "slots",
            u64::from(plan.slots()),
        ),
        Err(error) => Answer::Refused(error.refusal()),
    }
}

/// A plan, and the text of a certificate of it.
#[derive(Drop)]
struct Planned<'a> {
    alloc: Global,
    call: &'a str,
    settings: Settings,
    plan: Plan,
    notes: &'static str,
    ghost fits: { plan.layout ≡ geometry_of settings },
}

impl Tried for Planned<'_> {
    type Told = Answer;

    fn call(&mut self) -> Answer {
        match self.call {
            "Plan::to_text" => plan_text(self.plan.to_text(self.alloc, &self.settings)),
            "annotate" => annotated(annotate(self.alloc, &self.settings, &self.plan)),
            _ => certificate_read(Certificate::from_text(
                self.alloc,
                &self.settings,
                &self.plan,
                self.notes,
            )),
        }
    }
}

fn plan_text(written: Result<String, PlanError>) -> Answer {
    match written {
        Ok(text) => Answer::Text(text),
        Err(error) => Answer::Refused(error.refusal()),
    }
}

fn annotated(made: Result<Certificate, AnnotateError>) -> Answer {
    match made {
        Ok(certificate) => figures_of(&certificate),
        Err(error) => Answer::Refused(error.refusal()),
    }
}

fn certificate_read(read: Result<Certificate, CertError>) -> Answer {
    match read {
        Ok(certificate) => figures_of(&certificate),
        Err(error) => Answer::Refused(error.refusal()),
    }
}

/// The figures of a certificate.
fn figures_of(certificate: &Certificate) -> Answer {
    let Certificate { peak, steps, notes } = certificate;
    Answer::Three("notes", notes.len() as u64, "peak", *peak, "steps", *steps)
}

/// A certificate is written. The proof knows that it fits its plan, and so no value that is handed on has both.
fn certificate_to<R: AllocGlobal + Print>(
    rt: &R,
    settings: &Settings,
    plan: &Plan,
) -> anyhow::Result<()> {
    let certificate = annotate(rt.alloc(), settings, plan)?;
    for _round in 0..2 {
        begin(rt)?;
        let told = certificate_text(certificate.to_text(rt.alloc(), settings, plan));
        if end(rt, &told)? {
            break;
        }
    }
    Ok(())
}

fn certificate_text(written: Result<String, CertError>) -> Answer {
    match written {
        Ok(text) => Answer::Text(text),
        Err(error) => Answer::Refused(error.refusal()),
    }
}
