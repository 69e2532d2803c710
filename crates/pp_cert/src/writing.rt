//! Writes a certificate as JSON.

ghost use Rattle.std.specs.Prelude.{◌≡◌, All, IfOk, map, string_bytes};
ghost use Rattle.serde_json.specs.Data.{array, object};
ghost use Rattle.serde_json.specs.View.{view, items_of};
ghost use Rattle.serde_json.specs.Read.{read};
ghost use Rattle.serde_json.specs.Written.{compact_text};
ghost use Rattle.pp_plan.specs.Terms.{IsPlan};
ghost use Rattle.pp_cert.specs.Claims.{claims_of, HasRegion, IsNote, AreClaims};
ghost use Rattle.pp_cert.specs.Tree.{entry_tree, note_tree, certificate_members};

use crate::certificate::Certificate;
use crate::note::{Entry, Note};
use pp_plan::Plan;
use pp_settings::Settings;
use serde_json::{Map, Value, json};
use std::alloc::{AllocError, Global};

/// The value at a slot's name.
fn entry_value(alloc: Global, settings: &Settings, entry: Entry) -> Result<Value, AllocError>
    requires { HasRegion settings.now entry }
    ensures { IfOk result (λ v. view v ≡ entry_tree settings.now entry) }
{
    match entry {
        Entry::Slot { region, held, .. } => json!(in alloc; [settings.name(region), held.text()]),
        Entry::Bundle { bound, .. } => json!(in alloc; bound),
    }
}

/// The object of a note.
fn note_value(
    alloc: Global,
    settings: &Settings,
    plan: &Plan,
    entries: &[Entry],
) -> Result<Value, AllocError>
    requires names { IsPlan plan.now }
    requires note { IsNote settings.now plan.now entries.now }
    ensures { IfOk result (λ v. view v ≡ note_tree settings.now plan.now entries.now) }
{
    let mut members = Map::new(alloc);
    for entry in entries {
        let value = entry_value(alloc, settings, *entry)?;
        serde_json::put(&mut members, alloc, plan.slot_name(entry.slot()), value)?;
    }
    Ok(Value::from(members))
}

/// The list of the notes.
fn notes_value(
    alloc: Global,
    settings: &Settings,
    plan: &Plan,
    notes: &[Note],
) -> Result<Value, AllocError>
    requires names { IsPlan plan.now }
    requires notes { All (IsNote settings.now plan.now) notes.now }
    ensures { IfOk result (λ v. view v ≡ array (items_of (map (note_tree settings.now plan.now) notes.now))) }
{
    let mut values = Vec::new(alloc);
    for note in notes {
        values.push(note_value(alloc, settings, plan, note.entries())?)?;
    }
    Ok(Value::from(values))
}

/// The JSON value that is written for the certificate.
pub(crate) fn certificate_value(
    alloc: Global,
    settings: &Settings,
    plan: &Plan,
    certificate: &Certificate,
) -> Result<Value, AllocError>
    requires names { IsPlan plan.now }
    requires claims { AreClaims settings.now plan.now (claims_of certificate.now) }
    ensures { IfOk result (λ v. view v
        ≡ object (certificate_members settings.now plan.now (claims_of certificate.now))) }
{
    let notes = notes_value(alloc, settings, plan, &certificate.notes)?;
    json!(in alloc; {"notes": notes, "peak": certificate.peak, "steps": certificate.steps})
}
