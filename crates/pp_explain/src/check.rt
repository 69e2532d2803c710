//! Refusals of a certificate by the check.

use crate::entries::note_text;
use crate::fault::{held_text, place_text, turn_text};
use crate::places::{other_note, place_of, places_of};
use crate::plans::fault_of;
use crate::reading::{certificate_in, plan_in};
use pp_cert::{Certificate, CheckError, MOST_STEPS, longest_trace};
use pp_locate::{Said, Step, said_at, text_of};
use pp_plan::Plan;
use pp_settings::Settings;
use std::alloc::{AllocError, Global};

/// Whether the refusal is of the plan itself, so that no certificate would be accepted.
pub(crate) fn is_of_plan(
    alloc: Global,
    settings: &Settings,
    bytes: &[u8],
    error: CheckError,
) -> Result<bool, AllocError> {
    match error {
        // A loop's notes may have other bounds than its turns want, or its turns may end otherwise than they begin.
        CheckError::LoopChanges { .. } => Ok(fault_of(alloc, settings, bytes)? == Some(error)),
        _ => Ok(is_never_of_notes(error)),
    }
}

/// Whether no certificate is refused so for how it was written.
fn is_never_of_notes(error: CheckError) -> bool {
    match error {
        CheckError::SlotInUse { .. }
        | CheckError::NotFixed { .. }
        | CheckError::StillLatched { .. }
        | CheckError::NotLatched { .. }
        | CheckError::AgainstOrder { .. }
        | CheckError::BranchDiffers { .. }
        | CheckError::EndsHolding { .. }
        | CheckError::OtherSettings => true,
        CheckError::NotesShort { .. }
        | CheckError::NotesLong { .. }
        | CheckError::NoteDiffers { .. }
        | CheckError::OverPeak { .. }
        | CheckError::LoopChanges { .. }
        | CheckError::StepsTooFew
        | CheckError::StepsTooMany
        | CheckError::PeakTooBig => false,
    }
}

/// A certificate, with what it is for.
#[derive(Clone, Copy)]
struct Matter<'a> {
    settings: &'a Settings,
    plan: &'a Plan,
    /// The bytes of the plan.
    bytes: &'a [u8],
    /// The text of the certificate.
    text: &'a str,
    certificate: &'a Certificate,
}

/// What is said of the bytes of a certificate that is refused so for the plan of these bytes under these settings.
pub(crate) fn check_said(
    alloc: Global,
    settings: &Settings,
    bytes: &[u8],
    certificate: &[u8],
    error: CheckError,
) -> Result<Said, AllocError> {
    if let Some(plan) = plan_in(alloc, settings, bytes)? {
        if let Ok(text) = text_of(certificate) {
            if let Some(certificate) = certificate_in(alloc, settings, &plan, text)? {
                let matter = Matter {
                    settings,
                    plan: &plan,
                    bytes,
                    text,
                    certificate: &certificate,
                };
                return matter.said(alloc, error);
            }
        }
    }
    Ok(Said::of(format!(in alloc; "{error}")?))
}

impl Matter<'_> {
    /// What is said of the certificate.
    fn said(&self, alloc: Global, error: CheckError) -> Result<Said, AllocError> {
        match error {
            CheckError::NotesShort { place } => self.short(alloc, place),
            CheckError::NotesLong { place } => self.long(alloc, place),
            CheckError::NoteDiffers { place } => self.differs(alloc, place),
            CheckError::OverPeak { place } => self.over_peak(alloc, place),
            CheckError::LoopChanges { place } => self.turns(alloc, place),
            CheckError::StepsTooFew => self.too_few(alloc),
            CheckError::StepsTooMany => self.too_many(alloc),
            CheckError::PeakTooBig => self.too_big(alloc),
            _ => Ok(Said::of(format!(in alloc; "{error}")?)),
        }
    }

    /// What is held at the place.
    fn held(&self, alloc: Global, place: u32) -> Result<String, AllocError> {
        match place_of(alloc, self.plan, place)? {
            Some(found) => held_text(alloc, self.settings, self.plan, &found),
            None => Ok(String::new(alloc)),
        }
    }

    /// Where the place lies.
    fn lies(&self, alloc: Global, place: u32) -> Result<String, AllocError> {
        match place_of(alloc, self.plan, place)? {
            Some(found) => place_text(alloc, self.bytes, &found),
            None => Ok(String::new(alloc)),
        }
    }

    /// Whether the place stands in a loop in which a bundle grows.
    fn grows(&self, alloc: Global, place: u32) -> Result<bool, AllocError> {
        match place_of(alloc, self.plan, place)? {
            Some(found) => Ok(found.grows),
            None => Ok(false),
        }
    }

    /// The note at the place, as the certificate has it.
    fn note(&self, alloc: Global, place: u32) -> Result<String, AllocError> {
        match self.certificate.notes.get(place as usize) {
            Some(note) => note_text(alloc, self.settings, self.plan, note.entries()),
            None => Ok(String::new(alloc)),
        }
    }

    /// This, said of the note at the place.
    fn said_of_note(&self, alloc: Global, place: u32, what: String) -> Result<Said, AllocError> {
        let steps = [Step::Key("notes"), Step::Item(place as usize)];
        said_at(alloc, self.text, &steps, what)
    }

    /// A note is missing.
    fn short(&self, alloc: Global, place: u32) -> Result<Said, AllocError> {
        let lies = self.lies(alloc, place)?;
        let rest = self.short_of(alloc, place)?;
        let what = format!(in alloc; "note {place} is missing, {lies}: {rest}")?;
        said_at(alloc, self.text, &[Step::Key("notes")], what)
    }

    /// How many notes there are of how many, and what is held at the place without one.
    fn short_of(&self, alloc: Global, place: u32) -> Result<String, AllocError> {
        let held = self.held(alloc, place)?;
        let places = places_of(alloc, self.plan)?;
        let notes = self.certificate.notes.len();
        format!(in alloc;
            "the certificate has notes for {notes} of the plan's {places} places; {held}"
        )
    }

    /// A note is left over.
    fn long(&self, alloc: Global, place: u32) -> Result<Said, AllocError> {
        let note = self.note(alloc, place)?;
        let places = places_of(alloc, self.plan)?;
        let what = format!(in alloc;
            "note {place}, {note}: it is left over, since the plan has {places} places, numbered from 0"
        )?;
        self.said_of_note(alloc, place, what)
    }

    /// A note isn't the expected one.
    fn differs(&self, alloc: Global, place: u32) -> Result<Said, AllocError> {
        if let Some(other) = other_note(alloc, self.plan, &self.certificate.notes, place)? {
            let why = "which doesn't follow from the notes before it";
            return self.differs_behind(alloc, place, why, other);
        }
        let noted = self.noted(alloc, place)?;
        let held = self.held(alloc, place)?;
        let what = format!(in alloc; "{noted}, and {held}")?;
        self.said_of_note(alloc, place, what)
    }

    /// Where the place lies, and the note there.
    fn noted(&self, alloc: Global, place: u32) -> Result<String, AllocError> {
        let lies = self.lies(alloc, place)?;
        let note = self.note(alloc, place)?;
        format!(in alloc; "note {place}, {lies}: it is {note}")
    }

    /// The bounds of bundles at the end of a loop's body aren't those that its turns come to.
    fn turns(&self, alloc: Global, place: u32) -> Result<Said, AllocError> {
        match other_note(alloc, self.plan, &self.certificate.notes, place)? {
            Some(other) => {
                let why = "which the turns don't come to from the notes before it";
                self.differs_behind(alloc, place, why, other)
            }
            None => self.differs(alloc, place),
        }
    }

    /// A note is refused for this reason behind another one that isn't what is held there. That one says too much or too
    /// little of a bundle at the beginning of a loop's body, which is found at the body's end alone.
    fn differs_behind(
        &self,
        alloc: Global,
        place: u32,
        why: &str,
        other: u32,
    ) -> Result<Said, AllocError> {
        let noted = self.noted(alloc, place)?;
        let first = self.first_wrong(alloc, other)?;
        let what = format!(in alloc;
            "{noted}, {why}; of these {first}: a loop's body has the notes of its last turn"
        )?;
        self.said_of_note(alloc, place, what)
    }

    /// The note at the place, and what is held there.
    fn first_wrong(&self, alloc: Global, place: u32) -> Result<String, AllocError> {
        let note = self.note(alloc, place)?;
        let held = self.held(alloc, place)?;
        format!(in alloc; "note {place} is {note}, and {held}")
    }

    /// A note holds more pages than the peak.
    fn over_peak(&self, alloc: Global, place: u32) -> Result<Said, AllocError> {
        let lies = self.lies(alloc, place)?;
        let pins = self.pins_text(alloc, place)?;
        let peak = self.certificate.peak;
        let what = format!(in alloc;
            "note {place}, {lies}: {pins}, and the peak is {peak}: no note holds more pages than the peak"
        )?;
        self.said_of_note(alloc, place, what)
    }

    /// How many pages the note at the place holds.
    fn pins_text(&self, alloc: Global, place: u32) -> Result<String, AllocError> {
        let turn = turn_text(self.grows(alloc, place)?);
        let note = self.note(alloc, place)?;
        let pins = match self.certificate.notes.get(place as usize) {
            Some(note) => note.pins(),
            None => 0,
        };
        format!(in alloc; "{note} holds {pins} at once{turn}")
    }

    /// The longest trace has more actions than the steps.
    fn too_few(&self, alloc: Global) -> Result<Said, AllocError> {
        let steps = self.certificate.steps;
        let longest = longest_trace(self.plan);
        let what = format!(in alloc;
            "steps is {steps}: the longest trace of the plan has {longest} actions, and the steps are as many or more"
        )?;
        said_at(alloc, self.text, &[Step::Key("steps")], what)
    }

    /// More steps than there may be.
    fn too_many(&self, alloc: Global) -> Result<Said, AllocError> {
        let steps = self.certificate.steps;
        let what = format!(in alloc; "steps is {steps}: a plan has at most {MOST_STEPS}")?;
        said_at(alloc, self.text, &[Step::Key("steps")], what)
    }

    /// A greater peak than there are frames.
    fn too_big(&self, alloc: Global) -> Result<Said, AllocError> {
        let peak = self.certificate.peak;
        let frames = self.settings.frames();
        let what = format!(in alloc;
            "peak is {peak}, and frames is {frames}: a peak is at most the frames of the settings"
        )?;
        said_at(alloc, self.text, &[Step::Key("peak")], what)
    }
}
