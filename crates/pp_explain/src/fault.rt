//! Faults of a plan, for which no certificate is accepted.

use crate::entries::{entry_of, note_text};
use crate::longest::{Multiplied, multiplied_in};
use crate::places::{Excess, Place, Role, excess_of, place_of};
use crate::reading::plan_in;
use pp_cert::{CheckError, Entry, Held, MOST_STEPS, most_counted};
use pp_explain_text::{region_name, slot_name};
use pp_locate::{Said, Statement, slot_in, steps_text, steps_to, text_of, value_of};
use pp_plan::Plan;
use pp_settings::Settings;
use serde_json::Value;
use std::alloc::{AllocError, Global};

/// A plan, with its text and the value of that.
#[derive(Clone, Copy)]
struct Matter<'a> {
    settings: &'a Settings,
    plan: &'a Plan,
    text: &'a str,
    value: &'a Value,
}

/// What is said of the bytes of a plan that has this fault first, so that no certificate of it is accepted under these
/// settings.
pub(crate) fn fault_said(
    alloc: Global,
    settings: &Settings,
    bytes: &[u8],
    error: CheckError,
) -> Result<Said, AllocError> {
    if let Some(plan) = plan_in(alloc, settings, bytes)? {
        if let Ok(text) = text_of(bytes) {
            if let Ok(value) = value_of(alloc, text)? {
                let matter = Matter {
                    settings,
                    plan: &plan,
                    text,
                    value: &value,
                };
                return matter.said(alloc, error);
            }
        }
    }
    Ok(Said::of(format!(in alloc; "{error}")?))
}

/// Whether one of these is a bundle.
fn has_bundle(entries: &[Entry]) -> bool {
    entries.iter().any(Entry::is_bundle)
}

/// Whether the bound of a bundle of the plan may be more than it says.
fn is_counted_out(plan: &Plan, entries: &[Entry]) -> bool {
    let stop = most_counted(&plan.layout());
    entries.iter().any(|entry| entry.pins() >= stop)
}

/// Where a place of the plan of these bytes lies, as in `before statement 1 at body[1]`.
pub(crate) fn place_text(alloc: Global, bytes: &[u8], place: &Place) -> Result<String, AllocError> {
    let (number, steps) = (place.number, steps_text(alloc, &place.steps)?);
    match place.role {
        Role::Before => {
            let shown = statement_text(alloc, bytes, place)?;
            format!(in alloc; "before {shown}")
        }
        Role::LoopEnd => {
            format!(in alloc; "at the end of the body of statement {number} at {steps}")
        }
        Role::BranchEnd(branch) => {
            format!(in alloc; "at the end of branch {branch} of statement {number} at {steps}")
        }
        Role::End => String::from_str(alloc, "at the end of the plan"),
    }
}

/// What is held at the place, as in `held there is {"a":["root","-"]}`.
pub(crate) fn held_text(
    alloc: Global,
    settings: &Settings,
    plan: &Plan,
    place: &Place,
) -> Result<String, AllocError> {
    let held = note_text(alloc, settings, plan, &place.held)?;
    let turn = turn_text(place.grows);
    format!(in alloc; "held there{turn} is {held}")
}

/// That something is so in the last turn, where that is said of a place in a loop in which a bundle grows.
pub(crate) fn turn_text(grows: bool) -> &'static str {
    if grows { " in the last turn" } else { "" }
}

/// The statement of the place, with its text where that can be read.
fn statement_text(alloc: Global, bytes: &[u8], place: &Place) -> Result<String, AllocError> {
    if let Ok(text) = text_of(bytes) {
        if let Ok(value) = value_of(alloc, text)? {
            if let Some(found) = Statement::at(text, &value, place.number, &place.steps) {
                return found.named(alloc);
            }
        }
    }
    format!(in alloc; "statement {}", place.number)
}

impl Matter<'_> {
    /// What is said of the plan.
    fn said(&self, alloc: Global, error: CheckError) -> Result<Said, AllocError> {
        match error {
            CheckError::StepsTooMany => self.too_many(alloc),
            CheckError::PeakTooBig => self.too_big(alloc),
            _ => self.said_at_place(alloc, error),
        }
    }

    /// The longest trace is too long.
    fn too_many(&self, alloc: Global) -> Result<Said, AllocError> {
        let (longest, found) = multiplied_in(self.plan);
        let rule = format!(in alloc;
            "the longest trace of the plan has {longest} actions, and a plan has at most {MOST_STEPS}"
        )?;
        if let Some(found) = found {
            if let Some(said) = self.multiplied(alloc, found, &rule)? {
                return Ok(said);
            }
        }
        Ok(Said::of(rule))
    }

    /// The loop that makes the longest trace too long, and the rule.
    fn multiplied(
        &self,
        alloc: Global,
        found: Multiplied,
        rule: &str,
    ) -> Result<Option<Said>, AllocError> {
        let Multiplied {
            number,
            turns,
            each,
            all,
        } = found;
        let Some(steps) = steps_to(alloc, self.value, number)? else {
            return Ok(None);
        };
        let Some(statement) = Statement::at(self.text, self.value, number, &steps) else {
            return Ok(None);
        };
        let what = format!(in alloc; "its {turns} turns of {each} are {all} actions; {rule}")?;
        Ok(Some(statement.said(alloc, None, &what)?))
    }

    /// More pages are held at once than there are frames.
    fn too_big(&self, alloc: Global) -> Result<Said, AllocError> {
        let frames = self.settings.frames();
        let rule = format!(in alloc;
            "and frames is {frames}: a plan holds at most the frames of the settings"
        )?;
        match excess_of(alloc, self.plan, frames)? {
            Some(excess) => self.excess(alloc, &excess, &rule),
            None => Ok(Said::of(format!(in alloc; "more pages are held at once, {rule}")?)),
        }
    }

    /// What is said of the statement with which too many pages are held, and the rule.
    fn excess(&self, alloc: Global, excess: &Excess, rule: &str) -> Result<Said, AllocError> {
        let (pins, place) = (excess.pins, &excess.place);
        let held = self.note(alloc, &place.held)?;
        let least = if is_counted_out(self.plan, &place.held) {
            "at least "
        } else {
            ""
        };
        let turn = turn_text(place.grows);
        let what = format!(in alloc; "with it {least}{pins} pages are held{turn}, {held}, {rule}")?;
        self.said_there(alloc, excess.behind, place, &what)
    }

    /// What is said of the place that the error names.
    fn said_at_place(&self, alloc: Global, error: CheckError) -> Result<Said, AllocError> {
        if let Some(number) = error.place() {
            if let Some(place) = place_of(alloc, self.plan, number)? {
                let what = self.rule(alloc, &place, error)?;
                return self.said_there(alloc, number, &place, &what);
            }
        }
        Ok(Said::of(format!(in alloc; "{error}")?))
    }

    /// This, said of the statement of the place, or of the plan's end.
    fn said_there(
        &self,
        alloc: Global,
        number: u32,
        place: &Place,
        what: &str,
    ) -> Result<Said, AllocError> {
        if !matches!(place.role, Role::End) {
            if let Some(found) = Statement::at(self.text, self.value, place.number, &place.steps) {
                let what = format!(in alloc; "{what} (place {number})")?;
                return found.said(alloc, None, &what);
            }
        }
        Ok(Said::of(format!(in alloc; "the end of the plan: {what} (place {number})")?))
    }

    /// The entries as a note.
    fn note(&self, alloc: Global, entries: &[Entry]) -> Result<String, AllocError> {
        note_text(alloc, self.settings, self.plan, entries)
    }

    /// What is wrong at the place, and the rule.
    fn rule(&self, alloc: Global, place: &Place, error: CheckError) -> Result<String, AllocError> {
        match error {
            CheckError::AgainstOrder { .. } => self.order(alloc, place),
            CheckError::LoopChanges { .. } => self.turns(alloc, place),
            CheckError::BranchDiffers { .. } => self.branch(alloc, place),
            CheckError::EndsHolding { .. } => {
                let held = self.note(alloc, &place.held)?;
                format!(in alloc; "{held} is held still, and a plan ends holding nothing")
            }
            _ => {
                let slot = self.slot_rule(alloc, place, error)?;
                let held = held_text(alloc, self.settings, self.plan, place)?;
                format!(in alloc; "{slot}; {held}")
            }
        }
    }

    /// What is wrong with the slot of the place's statement.
    fn slot_rule(
        &self,
        alloc: Global,
        place: &Place,
        error: CheckError,
    ) -> Result<String, AllocError> {
        let number = self.slot(place);
        let slot = slot_name(self.plan, number);
        let kind = if self.plan.is_bundle(number) {
            "bundle"
        } else {
            "slot"
        };
        match error {
            CheckError::SlotInUse { .. } => {
                format!(in alloc; "{kind} {slot} holds a page already")
            }
            CheckError::NotFixed { .. } => { format!(in alloc; "{kind} {slot} holds no page") }
            CheckError::StillLatched { .. } => {
                format!(in alloc;
                    "the page of {kind} {slot} is latched already, and is to be unlatched first"
                )
            }
            CheckError::NotLatched { .. } => {
                format!(in alloc; "the page of {kind} {slot} isn't latched")
            }
            _ => format!(in alloc; "{error}"),
        }
    }

    /// The slot of the place's statement; 0 where it has none.
    fn slot(&self, place: &Place) -> u8 {
        match Statement::at(self.text, self.value, place.number, &place.steps) {
            Some(found) => self.plan.slot(slot_in(found.value)).unwrap_or(0),
            None => 0,
        }
    }

    /// The class of the region's pages.
    fn class(&self, region: u8) -> u8 {
        self.settings
            .layout()
            .extent(region)
            .map_or(0, |extent| extent.class)
    }

    /// The class of the entry's page; 0 for a bundle, of which none is latched.
    fn class_of(&self, entry: Entry) -> u8 {
        match entry {
            Entry::Slot { region, .. } => self.class(region),
            Entry::Bundle { .. } => 0,
        }
    }

    /// The entry as an explanation speaks of its page.
    fn page(&self, alloc: Global, entry: Entry) -> Result<String, AllocError> {
        let slot = slot_name(self.plan, entry.slot());
        match entry {
            Entry::Slot { region, .. } => {
                let class = self.class(region);
                let region = region_name(self.settings, region);
                format!(in alloc; "slot {slot} (region {region}, class {class})")
            }
            Entry::Bundle { bound, .. } => format!(in alloc; "slot {slot} (a bundle of {bound})"),
        }
    }

    /// A latch that is asked for against the order of classes.
    fn order(&self, alloc: Global, place: &Place) -> Result<String, AllocError> {
        let Some(asked) = entry_of(&place.held, self.slot(place)) else {
            return String::from_str(alloc, "the slot holds no page");
        };
        match self.blocking(&place.held, self.class_of(asked)) {
            Some(other) => {
                let asked = self.page(alloc, asked)?;
                let other = self.page(alloc, other)?;
                format!(in alloc;
                    "the class of {asked} isn't above that of {other}, which is latched; latches are taken in rising classes"
                )
            }
            None => String::from_str(alloc, "latches are taken in rising classes"),
        }
    }

    /// The first page that is latched and whose class isn't below this one.
    fn blocking(&self, held: &[Entry], class: u8) -> Option<Entry> {
        for entry in held {
            if entry.held() != Held::Free && self.class_of(*entry) >= class {
                return Some(*entry);
            }
        }
        None
    }

    /// A loop's body that ends otherwise than it begins.
    fn turns(&self, alloc: Global, place: &Place) -> Result<String, AllocError> {
        let held = self.note(alloc, &place.held)?;
        let due = self.note(alloc, &place.due)?;
        let turn = if place.grows {
            "its last turn"
        } else {
            "its body"
        };
        let apart = if has_bundle(&place.due) || has_bundle(&place.held) {
            ", but for bundles that it doesn't scatter"
        } else {
            ""
        };
        format!(in alloc;
            "{turn} begins with {due} and ends with {held}: each turn of a loop ends as it begins{apart}"
        )
    }

    /// A branch that ends otherwise than the first.
    fn branch(&self, alloc: Global, place: &Place) -> Result<String, AllocError> {
        let held = self.note(alloc, &place.held)?;
        let due = self.note(alloc, &place.due)?;
        let branch = match place.role {
            Role::BranchEnd(branch) => branch,
            _ => 0,
        };
        let turn = turn_text(place.grows);
        format!(in alloc;
            "branch {branch} ends{turn} with {held} and branch 0 with {due}: all branches of a choice end alike"
        )
    }
}
