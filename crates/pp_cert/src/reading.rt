//! Reads a certificate from JSON, in the order of the refusals.

ghost use Rattle.std.specs.Prelude.{◌≡◌, ◌≤◌, ◌<◌, Err, IfOk, [], length, option_map, string_bytes};
ghost use Rattle.std.specs.Option.{ok_or};
ghost use Rattle.serde_json.specs.Read.{read};
ghost use Rattle.serde_json.specs.View.{view, items_view, members_view};
ghost use Rattle.pp_text.specs.Steps.{Gives, Reads};
ghost use Rattle.pp_settings.specs.Settings.{geometry_of};
ghost use Rattle.pp_cert.specs.CertErrors.{is_certificate_memory};
ghost use Rattle.pp_cert.specs.declared.error.CertError.TheVariants.{NotJson, OutOfMemory};
ghost use Rattle.pp_cert.specs.Claims.{claims_of};
ghost use Rattle.pp_cert.specs.Words.{held_of};
ghost use Rattle.pp_cert.specs.Reading.{as_two, bound_in, read_page, read_bundle, read_entry, entries_from, read_note};
ghost use Rattle.pp_cert.specs.Reading.{notes_from, list_at, number_at, claims_at, reading};

use crate::certificate::Certificate;
use crate::error::CertError;
use crate::limits::{MOST_ENTRIES, MOST_NOTES, most_bound};
use crate::note::{Entry, Held, Note};
use pp_plan::Plan;
use pp_settings::Settings;
use pp_text::has_only_keys;
use serde_json::{Category, Map, Value};
use std::alloc::Global;

/// What the text says of how a page is held, if it is one of the three.
fn held_of(text: &str) -> Option<Held>
    ensures { result ≡ held_of text.now }
{
    if text == "-" {
        Some(Held::Free)
    } else if text == "S" {
        Some(Held::S)
    } else if text == "X" {
        Some(Held::X)
    } else {
        None
    }
}

/// The two items of a list of two.
#[tactic(auto, using(crate::proofs::Trees::as_two_other))]
fn as_two(items: &[Value]) -> Option<(&Value, &Value)>
    ensures { option_map (λ two. (view two.0.now, view two.1.now)) result ≡ as_two (items_view items.now) }
{
    match items {
        [first, second] => Some((first, second)),
        _ => None,
    }
}

/// The bound that the number is, if it is from 1 to the greatest under the settings.
fn bound_in(settings: &Settings, number: u64) -> Option<u32>
    ensures { result ≡ bound_in (geometry_of settings.now) number }
{
    if 1 <= number && number <= u64::from(most_bound(settings)) {
        Some(number as u32)
    } else {
        None
    }
}

/// A page: its form first, then the slot's name, then the region's, then that the slot is no bundle.
#[tactic(auto, unfolding(crate::specs::Reading::read_page))]
fn read_page(settings: &Settings, plan: &Plan, key: &str, value: &Value) -> Result<Entry, CertError>
    ensures { Reads (λ e. e) result (read_page settings.now plan.now key.now (view value.now)) }
{
    let items = value.as_array().ok_or(CertError::WrongField)?;
    let (region, held) = as_two(items).ok_or(CertError::WrongField)?;
    let region = region.as_str().ok_or(CertError::WrongField)?;
    let held = held
        .as_str()
        .and_then(held_of)
        .ok_or(CertError::WrongField)?;
    let slot = plan.slot(key).ok_or(CertError::UnknownName)?;
    let region = settings.region(region).ok_or(CertError::UnknownName)?;
    if plan.is_bundle(slot) {
        return Err(CertError::WrongKind);
    }
    Ok(Entry::Slot { slot, region, held })
}

/// A bundle: its bound first, then the slot's name, then that the slot is a bundle.
#[tactic(auto, unfolding(crate::specs::Reading::read_bundle))]
fn read_bundle(
    settings: &Settings,
    plan: &Plan,
    key: &str,
    value: &Value,
) -> Result<Entry, CertError>
    ensures { Reads (λ e. e) result (read_bundle settings.now plan.now key.now (view value.now)) }
{
    let bound = value
        .as_u64()
        .and_then(|number| bound_in(settings, number))
        .ok_or(CertError::WrongField)?;
    let slot = plan.slot(key).ok_or(CertError::UnknownName)?;
    if !plan.is_bundle(slot) {
        return Err(CertError::WrongKind);
    }
    Ok(Entry::Bundle { slot, bound })
}

/// The entry of one slot: a bundle's where the value is a number, and else a page's.
#[tactic(auto, unfolding(crate::specs::Reading::read_entry))]
fn read_entry(
    settings: &Settings,
    plan: &Plan,
    key: &str,
    value: &Value,
) -> Result<Entry, CertError>
    ensures { Reads (λ e. e) result (read_entry settings.now plan.now key.now (view value.now)) }
{
    if value.is_number() {
        read_bundle(settings, plan, key, value)
    } else {
        read_page(settings, plan, key, value)
    }
}

/// The entries of a note, in the byte order of slot names.
fn entries_of(
    alloc: Global,
    settings: &Settings,
    plan: &Plan,
    members: &Map<String, Value>,
) -> Result<Vec<Entry>, CertError>
    ensures { Gives is_certificate_memory (λ v. v.items) result
        (entries_from settings.now plan.now [] (members_view members.now.entries)) }
{
    let mut entries = Vec::new(alloc);
    for (key, value) in members {
        entries.push(read_entry(settings, plan, key.as_str(), value)?)?;
    }
    Ok(entries)
}

/// The note that the value spells: an object of few enough entries.
#[tactic(auto, unfolding(crate::specs::Reading::read_note), using(crate::proofs::Trees::members_length))]
fn read_note(
    alloc: Global,
    settings: &Settings,
    plan: &Plan,
    value: &Value,
) -> Result<Note, CertError>
    ensures { Gives is_certificate_memory (λ n. n) result (read_note settings.now plan.now (view value.now)) }
{
    let members = value.as_object().ok_or(CertError::WrongField)?;
    if members.len() > MOST_ENTRIES {
        return Err(CertError::TooMany);
    }
    let entries = entries_of(alloc, settings, plan, members)?;
    Ok(Note::new(entries))
}

/// The notes, one after the other.
fn notes_of(
    alloc: Global,
    settings: &Settings,
    plan: &Plan,
    items: &[Value],
) -> Result<Vec<Note>, CertError>
    ensures { Gives is_certificate_memory (λ v. v.items) result
        (notes_from settings.now plan.now [] (items_view items.now)) }
{
    let mut notes = Vec::new(alloc);
    for value in items {
        notes.push(read_note(alloc, settings, plan, value)?)?;
    }
    Ok(notes)
}

/// The list at the key.
fn list_at<'a>(value: &'a Value, key: &str) -> Result<&'a Vec<Value>, CertError>
    ensures { Reads (λ v. items_view v.now.items) result (list_at key.now (view value.now)) }
{
    value
        .get(key)
        .and_then(Value::as_array)
        .ok_or(CertError::WrongField)
}

/// The number at the key: whole, without a sign, of 64 bits.
fn number_at(value: &Value, key: &str) -> Result<u64, CertError>
    ensures { Reads (λ n. n) result (number_at key.now (view value.now)) }
{
    value
        .get(key)
        .and_then(Value::as_u64)
        .ok_or(CertError::WrongField)
}

/// The certificate that the value spells: its own object first, then how many notes there are, then note by note.
#[tactic(auto, unfolding(crate::specs::Reading::claims_at), using(crate::proofs::Trees::items_length))]
fn certificate_at(
    alloc: Global,
    settings: &Settings,
    plan: &Plan,
    value: &Value,
) -> Result<Certificate, CertError>
    ensures { Gives is_certificate_memory claims_of result (claims_at settings.now plan.now (view value.now)) }
{
    if !has_only_keys(&["notes", "peak", "steps"], value) {
        return Err(CertError::WrongField);
    }
    let items = list_at(value, "notes")?;
    let peak = number_at(value, "peak")?;
    let steps = number_at(value, "steps")?;
    if items.len() > MOST_NOTES {
        return Err(CertError::TooMany);
    }
    let notes = notes_of(alloc, settings, plan, items)?;
    Ok(Certificate { peak, steps, notes })
}

/// The JSON value that the text is.
#[tactic(auto, using(crate::proofs::Trees::some_text))]
fn value_of(alloc: Global, text: &str) -> Result<Value, CertError>
    ensures gives { Gives is_certificate_memory view result (ok_or (read text.now) NotJson) }
    ensures some { IfOk result (λ _. 0 < length text.now) }
    ensures memory { result ≡ Err OutOfMemory → 0 < length text.now }
{
    match Value::from_str(alloc, text) {
        Ok(value) => Ok(value),
        Err(e) if e.classify() == Category::Memory => Err(CertError::OutOfMemory),
        Err(_) => Err(CertError::NotJson),
    }
}

/// Reads the certificate that the text spells.
pub(crate) fn read(
    alloc: Global,
    settings: &Settings,
    plan: &Plan,
    text: &str,
) -> Result<Certificate, CertError>
    ensures gives { Gives is_certificate_memory claims_of result (reading settings.now plan.now text.now) }
    ensures memory { result ≡ Err OutOfMemory → 0 < length text.now }
{
    let value = value_of(alloc, text)?;
    certificate_at(alloc, settings, plan, &value)
}
