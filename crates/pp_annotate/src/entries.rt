//! What is held after a step, from what is held before it.

ghost use Rattle.std.specs.Prelude.{◌≡◌, IfOk, is_some, nat_lt, position};
ghost use Rattle.pp_cert.specs.Notes.{entry_slot, is_slot, noted_at, noted_as, without_page, bound_at, one_more, without_bundle};
ghost use Rattle.pp_cert.specs.Notes.{with_bound};
ghost use Rattle.pp_cert.specs.Slots.{slot_insert};
ghost use Rattle.pp_annotate.specs.Made.{with_page};

use pp_cert::{Entry, Held};
use std::alloc::{AllocError, Global};

/// The place of the slot's entry, if it has one.
fn position_of(note: &[Entry], slot: u8) -> Option<usize>
    ensures { result ≡ position (is_slot slot) note.now }
{
    note.iter().position(|entry| entry.is_slot(slot))
}

/// How the slot holds its page, if it has one of its own.
fn noted_at(note: &[Entry], slot: u8) -> Option<Held>
    ensures { result ≡ noted_at note.now slot }
{
    let entry = note.iter().find(|entry| entry.is_slot(slot))?;
    Some(entry.held())
}

/// Whether the slot has a page of its own.
fn has_page(note: &[Entry], slot: u8) -> bool
    ensures { result ≡ is_some (noted_at note.now slot) }
{
    noted_at(note, slot).is_some()
}

/// The place of the first entry of a greater slot, if there is one.
fn position_after(note: &[Entry], entry: Entry) -> Option<usize>
    ensures { result ≡ position (λ other. nat_lt (entry_slot entry) (entry_slot other)) note.now }
{
    note.iter().position(|other| entry.slot() < other.slot())
}

/// What is held with one more entry, at its place by rising slot. `AllocError` where memory runs out.
#[tactic(auto, using(crate::proofs::Splices::inserts))]
fn put_in(alloc: Global, before: &[Entry], entry: Entry) -> Result<Vec<Entry>, AllocError>
    ensures { IfOk result (λ after. after.items ≡ slot_insert entry_slot entry before.now) }
{
    let mut after = Vec::from_slice(alloc, before)?;
    match position_after(before, entry) {
        Some(place) => after.insert(place, entry)?,
        None => after.push(entry)?,
    }
    Ok(after)
}

/// What is held with one more page, at its place by rising slot, and the same where its slot has a page already. `AllocError`
/// where memory runs out.
pub fn inserted(alloc: Global, before: &[Entry], entry: Entry) -> Result<Vec<Entry>, AllocError>
    ensures { IfOk result (λ after. after.items ≡ with_page entry before.now) }
{
    if has_page(before, entry.slot()) {
        return Vec::from_slice(alloc, before);
    }
    put_in(alloc, before, entry)
}

/// What is held without the slot's entry. `AllocError` where memory runs out.
pub fn removed(alloc: Global, before: &[Entry], slot: u8) -> Result<Vec<Entry>, AllocError>
    ensures { IfOk result (λ after. after.items ≡ without_page slot before.now) }
{
    let mut after = Vec::from_slice(alloc, before)?;
    after.retain(|entry| !entry.is_slot(slot));
    Ok(after)
}

/// What is held with the slot's page held so, and the same where the slot has none. `AllocError` where memory runs out.
#[tactic(auto, using(crate::proofs::Splices::updates))]
pub fn held_as(
    alloc: Global,
    before: &[Entry],
    held: Held,
    slot: u8,
) -> Result<Vec<Entry>, AllocError>
    ensures { IfOk result (λ after. after.items ≡ noted_as held slot before.now) }
{
    let mut after = Vec::from_slice(alloc, before)?;
    if let Some(place) = position_of(before, slot) {
        after[place] = before[place].held_as(held);
    }
    Ok(after)
}

/// The most pages that the bundle pins, as the note says; 0 without an entry.
pub fn bound_at(note: &[Entry], slot: u8) -> u32
    ensures { result ≡ bound_at note.now slot }
{
    match note.iter().find(|entry| entry.is_bundle_of(slot)) {
        Some(entry) => entry.pins(),
        None => 0,
    }
}

/// What is held without the bundle. `AllocError` where memory runs out.
pub fn scattered(alloc: Global, before: &[Entry], slot: u8) -> Result<Vec<Entry>, AllocError>
    ensures { IfOk result (λ after. after.items ≡ without_bundle slot before.now) }
{
    let mut after = Vec::from_slice(alloc, before)?;
    after.retain(|entry| !entry.is_bundle_of(slot));
    Ok(after)
}

/// What is held with this bound for the bundle, at its place by rising slot. `AllocError` where memory runs out.
pub(crate) fn bounded(
    alloc: Global,
    before: &[Entry],
    slot: u8,
    bound: u32,
) -> Result<Vec<Entry>, AllocError>
    ensures { IfOk result (λ after. after.items ≡ with_bound slot bound before.now) }
{
    let others = scattered(alloc, before, slot)?;
    put_in(alloc, &others, Entry::Bundle { slot, bound })
}

/// What is held with one more page in the bundle, whose bound is counted up to the stop. `AllocError` where memory runs out.
pub fn gathered(
    alloc: Global,
    before: &[Entry],
    slot: u8,
    stop: u32,
) -> Result<Vec<Entry>, AllocError>
    ensures { IfOk result (λ after. after.items
        ≡ with_bound slot (one_more (Some stop) (bound_at before.now slot)) before.now) }
{
    let bound = bound_at(before, slot).saturating_add(1).min(stop);
    bounded(alloc, before, slot, bound)
}
