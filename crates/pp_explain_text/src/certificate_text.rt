//! Refusals of a certificate's text.

use crate::names::{region_names, slot_names};
use crate::plan_text::stranger;
use pp_cert::{CertError, MOST_ENTRIES, MOST_NOTES, most_bound};
use pp_locate::{
    Said, Step, hint, listed, no_text, quoted, said_at, shown_at, steps_text, text_of, value_of,
};
use pp_plan::Plan;
use pp_settings::Settings;
use serde_json::Value;
use std::alloc::{AllocError, Global};

/// The keys of a certificate.
const TOP_KEYS: &[&str] = &["notes", "peak", "steps"];

/// The form of a certificate.
const FORM: &str = "a certificate is {\"notes\":[..],\"peak\":N,\"steps\":N}";

/// The form of a plain slot's entry.
const PAGE: &str = "[REGION,\"-\"], [REGION,\"S\"] or [REGION,\"X\"]";

/// What is said of the bytes of a certificate whose text is refused so for the plan under these settings.
pub fn certificate_said(
    alloc: Global,
    settings: &Settings,
    plan: &Plan,
    bytes: &[u8],
    error: CertError,
) -> Result<Said, AllocError> {
    match said_of(alloc, settings, plan, bytes)? {
        Some(said) => Ok(said),
        None => Ok(Said::of(format!(in alloc; "{error}")?)),
    }
}

/// What is said of the first fault of the bytes; nothing where they have none.
fn said_of(
    alloc: Global,
    settings: &Settings,
    plan: &Plan,
    bytes: &[u8],
) -> Result<Option<Said>, AllocError> {
    let text = match text_of(bytes) {
        Ok(text) => text,
        Err(spot) => return Ok(Some(no_text(alloc, spot, "JSON")?)),
    };
    let value = match value_of(alloc, text)? {
        Ok(value) => value,
        Err(said) => return Ok(Some(said)),
    };
    if let Some(said) = top_said(alloc, text, &value)? {
        return Ok(Some(said));
    }
    let Some(notes) = value.get("notes").and_then(Value::as_array) else {
        return Ok(None);
    };
    if notes.len() > MOST_NOTES {
        let count = notes.len();
        let what = format!(in alloc;
            "there are {count} notes: a certificate has at most {MOST_NOTES}"
        )?;
        return Ok(Some(said_at(alloc, text, &[Step::Key("notes")], what)?));
    }
    let matter = Matter {
        settings,
        plan,
        text,
    };
    notes_said(alloc, matter, notes)
}

/// This, said of the value that the steps lead to, and the form of a certificate.
fn said_of_form(
    alloc: Global,
    text: &str,
    steps: &[Step<'_>],
    what: &str,
) -> Result<Option<Said>, AllocError> {
    let what = format!(in alloc; "{what}: {FORM}")?;
    Ok(Some(said_at(alloc, text, steps, what)?))
}

/// What is said of a text that isn't an object with the keys and values of a certificate.
fn top_said(alloc: Global, text: &str, value: &Value) -> Result<Option<Said>, AllocError> {
    if !value.is_object() {
        return said_of_form(alloc, text, &[], "the text is no object");
    }
    if let Some(key) = stranger(value, TOP_KEYS) {
        let what = stranger_text(alloc, key)?;
        return Ok(Some(said_at(alloc, text, &[Step::Name(key)], what)?));
    }
    for key in TOP_KEYS {
        if let Some(said) = member_said(alloc, text, value, key)? {
            return Ok(Some(said));
        }
    }
    Ok(None)
}

/// A key that a certificate may not have.
fn stranger_text(alloc: Global, key: &str) -> Result<String, AllocError> {
    let hint = hint(alloc, key, TOP_KEYS)?;
    let shown = quoted(alloc, key)?;
    format!(in alloc; "the key {shown} isn't known: {FORM}{hint}")
}

/// What is said of the key where it is missing, or its value is of another kind.
fn member_said(
    alloc: Global,
    text: &str,
    value: &Value,
    key: &str,
) -> Result<Option<Said>, AllocError> {
    let Some(found) = value.get(key) else {
        let what = format!(in alloc; "the key {key} is missing")?;
        return said_of_form(alloc, text, &[], &what);
    };
    let is_right = if key == "notes" {
        found.is_array()
    } else {
        found.as_u64().is_some()
    };
    if is_right {
        return Ok(None);
    }
    let found = shown_at(alloc, text, &[Step::Key(key)])?;
    let what = format!(in alloc; "{key} is {found}")?;
    said_of_form(alloc, text, &[Step::Key(key)], &what)
}

/// A certificate's text, with what it is for.
#[derive(Clone, Copy)]
struct Matter<'a> {
    settings: &'a Settings,
    plan: &'a Plan,
    text: &'a str,
}

/// Where the fault of an entry lies.
#[derive(Clone, Copy)]
enum Part {
    /// In its slot's name.
    Name,
    /// In the whole of its value.
    Value,
    /// In its region.
    Region,
}

/// What is said of the first note that is refused.
fn notes_said(
    alloc: Global,
    matter: Matter<'_>,
    notes: &[Value],
) -> Result<Option<Said>, AllocError> {
    for (place, note) in notes.iter().enumerate() {
        if let Some(said) = note_said(alloc, matter, place, note)? {
            return Ok(Some(said));
        }
    }
    Ok(None)
}

/// What is said of the note at the place, where it is refused.
fn note_said(
    alloc: Global,
    matter: Matter<'_>,
    place: usize,
    note: &Value,
) -> Result<Option<Said>, AllocError> {
    let way = [Step::Key("notes"), Step::Item(place)];
    let Some(members) = note.as_object() else {
        let note = shown_at(alloc, matter.text, &way)?;
        let what = format!(in alloc;
            "{note}: a note is {{SLOT:[REGION,\"-\"],..}}, with \"S\" or \"X\" where the page is latched, and with a number \
            for the list where the slot is a bundle"
        )?;
        return Ok(Some(said_of_note(alloc, matter.text, place, &way, &what)?));
    };
    if members.len() > MOST_ENTRIES {
        let count = members.len();
        let what = format!(in alloc; "it has {count} entries: a note has at most {MOST_ENTRIES}")?;
        return Ok(Some(said_of_note(alloc, matter.text, place, &way, &what)?));
    }
    for (key, value) in members {
        let Some(part) = entry_fault(matter, key.as_str(), value) else {
            continue;
        };
        let way = way_to(alloc, place, key.as_str(), part)?;
        let what = entry_text(alloc, matter, key.as_str(), value, &way, part)?;
        return Ok(Some(said_of_note(alloc, matter.text, place, &way, &what)?));
    }
    Ok(None)
}

/// This, said of what the way leads to in the note at the place.
fn said_of_note(
    alloc: Global,
    text: &str,
    place: usize,
    way: &[Step<'_>],
    what: &str,
) -> Result<Said, AllocError> {
    let lies = steps_text(alloc, way)?;
    let what = format!(in alloc; "note {place} at {lies}, {what}")?;
    said_at(alloc, text, way, what)
}

/// The way to the part of the entry with this key in the note at the place.
fn way_to(alloc: Global, place: usize, key: &str, part: Part) -> Result<Vec<Step<'_>>, AllocError> {
    let member = match part {
        Part::Name => Step::Name(key),
        Part::Value | Part::Region => Step::Key(key),
    };
    let way = [Step::Key("notes"), Step::Item(place), member, Step::Item(0)];
    match part {
        Part::Name | Part::Value => Vec::from_slice(alloc, &way[..3]),
        Part::Region => Vec::from_slice(alloc, &way),
    }
}

/// The fault of an entry: its form first, then the slot's name, then the region's, then that the slot is of another kind.
fn entry_fault(matter: Matter<'_>, key: &str, value: &Value) -> Option<Part> {
    let region = region_in(value);
    if region.is_none() && !is_bound(most_bound(matter.settings), value) {
        return Some(Part::Value);
    }
    let Some(slot) = matter.plan.slot(key) else {
        return Some(Part::Name);
    };
    if let Some(region) = region {
        if matter.settings.region(region).is_none() {
            return Some(Part::Region);
        }
    }
    if region.is_some() == matter.plan.is_bundle(slot) {
        return Some(Part::Value);
    }
    None
}

/// What is wrong with the part of an entry to which the way leads.
fn entry_text(
    alloc: Global,
    matter: Matter<'_>,
    key: &str,
    value: &Value,
    way: &[Step<'_>],
    part: Part,
) -> Result<String, AllocError> {
    let region = region_in(value);
    match part {
        Part::Name => no_slot_text(alloc, matter.plan, key),
        Part::Region => no_region_text(alloc, matter.settings, region.unwrap_or("")),
        Part::Value => {
            let shown = shown_at(alloc, matter.text, way)?;
            let most = most_bound(matter.settings);
            if region.is_none() && !is_bound(most, value) {
                return format!(in alloc;
                    "{shown}: an entry is {PAGE}, or of a bundle a whole number from 1 to {most}"
                );
            }
            other_kind_text(alloc, matter.plan, most, key, &shown)
        }
    }
}

/// A slot that the plan doesn't have.
fn no_slot_text(alloc: Global, plan: &Plan, key: &str) -> Result<String, AllocError> {
    let names = slot_names(alloc, plan)?;
    let hint = hint(alloc, key, &names)?;
    let names = listed(alloc, &names)?;
    let key = quoted(alloc, key)?;
    format!(in alloc; "{key}: the plan has no such slot; its slots are {names}{hint}")
}

/// A region that the settings don't have.
fn no_region_text(alloc: Global, settings: &Settings, region: &str) -> Result<String, AllocError> {
    let names = region_names(alloc, settings)?;
    let hint = hint(alloc, region, &names)?;
    let names = listed(alloc, &names)?;
    let region = quoted(alloc, region)?;
    format!(in alloc; "{region}: there is no such region; the regions are {names}{hint}")
}

/// An entry in the form of the other kind of slots than the slot of this name is.
fn other_kind_text(
    alloc: Global,
    plan: &Plan,
    most: u32,
    name: &str,
    shown: &str,
) -> Result<String, AllocError> {
    let is_bundle = match plan.slot(name) {
        Some(slot) => plan.is_bundle(slot),
        None => false,
    };
    if is_bundle {
        return format!(in alloc;
            "{shown}: {name} is a bundle of the plan, so its entry is a whole number from 1 to {most}, the most pages \
            that it pins there"
        );
    }
    format!(in alloc; "{shown}: {name} is a plain slot of the plan, so its entry is {PAGE}")
}

/// Whether the value is a number of pages that a bundle's entry may say.
fn is_bound(most: u32, value: &Value) -> bool {
    match value.as_u64() {
        Some(number) => 1 <= number && number <= u64::from(most),
        None => false,
    }
}

/// The region of a plain slot's entry that is in form.
fn region_in(value: &Value) -> Option<&str> {
    let [region, held] = value.as_array()?.as_slice() else {
        return None;
    };
    match held.as_str()? {
        "-" | "S" | "X" => region.as_str(),
        _ => None,
    }
}
