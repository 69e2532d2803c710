//! Reading the entries of one note, and comparing those of two.

ghost use Rattle.std.specs.Prelude.{◌≡◌, ◌++◌, nat_lt, position};
ghost use Rattle.pp_cert.specs.Notes.{same_note, region_class, entry_class, noted_at, slot_class, is_above_latched};
ghost use Rattle.pp_cert.specs.Notes.{entry_slot, is_slot, noted_as, without_page, bound_at, without_bundle, with_bound};
ghost use Rattle.pp_cert.specs.Notes.{plain_part, skipped, is_in_form, same_entry};
ghost use Rattle.pp_cert.specs.Slots.{slot_insert};

use crate::note::{Entry, Held};
use pp_plan::Mode;
use pp_settings::Layout;

/// Whether two notes are the same.
pub(crate) fn is_same(left: &[Entry], right: &[Entry]) -> bool
    ensures { result ≡ same_note left.now right.now }
{
    left == right
}

/// Whether two entries are the same.
fn is_same_entry(left: &Entry, right: &Entry) -> bool
    ensures { result ≡ same_entry left.now right.now }
{
    left == right
}

/// How the slot holds its page, if the note says that it holds one.
pub(crate) fn noted_at(note: &[Entry], slot: u8) -> Option<Held>
    ensures { result ≡ noted_at note.now slot }
{
    let entry = note.iter().find(|entry| entry.is_slot(slot))?;
    Some(entry.held())
}

/// The most pages that the bundle pins, as the note says; 0 without an entry.
pub(crate) fn bound_at(note: &[Entry], slot: u8) -> u32
    ensures { result ≡ bound_at note.now slot }
{
    match note.iter().find(|entry| entry.is_bundle_of(slot)) {
        Some(entry) => entry.pins(),
        None => 0,
    }
}

/// The class of a region's pages.
fn region_class(layout: &Layout, region: u8) -> u8
    ensures { result ≡ region_class layout.now region }
{
    layout.extent(region).map_or(0, |extent| extent.class)
}

/// The class of an entry's page.
fn entry_class(layout: &Layout, entry: &Entry) -> u8
    ensures { result ≡ entry_class layout.now entry.now }
{
    match *entry {
        Entry::Slot { region, .. } => region_class(layout, region),
        Entry::Bundle { .. } => 0,
    }
}

/// The class of the slot's page.
fn slot_class(layout: &Layout, note: &[Entry], slot: u8) -> u8
    ensures { result ≡ slot_class layout.now note.now slot }
{
    match note.iter().find(|entry| entry.is_slot(slot)) {
        Some(entry) => entry_class(layout, entry),
        None => 0,
    }
}

/// Whether the slot's page has a class greater than every class that is latched.
pub(crate) fn is_above_latched(layout: &Layout, note: &[Entry], slot: u8) -> bool
    ensures { result ≡ is_above_latched layout.now note.now slot }
{
    let class = slot_class(layout, note, slot);
    note.iter().all(|entry| entry.held() == Held::Free || entry_class(layout, entry) < class)
}

/// Whether `whole` is `front`, then `middle`, then `back`.
#[tactic(auto, using(crate::proofs::Splices::joins))]
fn is_joined(whole: &[Entry], front: &[Entry], middle: &[Entry], back: &[Entry]) -> bool
    ensures { result ≡ same_note whole.now (front.now ++ (middle.now ++ back.now)) }
{
    let Some((first, rest)) = whole.split_at_checked(front.len()) else {
        return false;
    };
    let Some((second, last)) = rest.split_at_checked(middle.len()) else {
        return false;
    };
    is_same(first, front) && is_same(second, middle) && is_same(last, back)
}

/// The place of the slot's entry, if it has one.
fn position_of(note: &[Entry], slot: u8) -> Option<usize>
    ensures { result ≡ position (is_slot slot) note.now }
{
    note.iter().position(|entry| entry.is_slot(slot))
}

/// The place of the first entry of a greater slot, if there is one.
fn position_after(note: &[Entry], slot: u8) -> Option<usize>
    ensures { result ≡ position (λ entry. nat_lt slot (entry_slot entry)) note.now }
{
    note.iter().position(|entry| slot < entry.slot())
}

/// Whether `after` is `before` with one more entry, at its place by rising slot.
pub(crate) fn is_inserted(before: &[Entry], entry: Entry, after: &[Entry]) -> bool
    ensures { result ≡ same_note after.now (slot_insert entry_slot entry before.now) }
{
    match position_after(before, entry.slot()) {
        Some(place) => {
            let (front, back) = before.split_at(place);
            is_joined(after, front, &[entry], back)
        }
        None => is_joined(after, before, &[entry], &[]),
    }
}

/// Whether `after` is `before` without the slot's entry.
#[tactic(auto, using(crate::proofs::Pins::removes))]
pub(crate) fn is_removed(before: &[Entry], slot: u8, after: &[Entry]) -> bool
    ensures { result ≡ same_note after.now (without_page slot before.now) }
{
    let mut left = after;
    for entry in before {
        if !entry.is_slot(slot) {
            match left.split_first() {
                Some((first, rest)) if first == entry => left = rest,
                _ => return false,
            }
        }
    }
    left.is_empty()
}

/// Whether `after` is `before` with the slot's page held so.
#[tactic(auto, using(crate::proofs::Splices::updates))]
pub(crate) fn is_held_as(before: &[Entry], held: Held, slot: u8, after: &[Entry]) -> bool
    ensures { result ≡ same_note after.now (noted_as held slot before.now) }
{
    match position_of(before, slot) {
        Some(place) => {
            let (front, _) = before.split_at(place);
            let (_, back) = before.split_at(place + 1);
            is_joined(after, front, &[before[place].held_as(held)], back)
        }
        None => is_same(after, before),
    }
}

/// Whether `after` is `before` without the bundle.
#[tactic(auto, using(crate::proofs::Pins::scatters))]
pub(crate) fn is_scattered(before: &[Entry], slot: u8, after: &[Entry]) -> bool
    ensures { result ≡ same_note after.now (without_bundle slot before.now) }
{
    let mut left = after;
    for entry in before {
        if !entry.is_bundle_of(slot) {
            match left.split_first() {
                Some((first, rest)) if first == entry => left = rest,
                _ => return false,
            }
        }
    }
    left.is_empty()
}

/// Whether `after` is `before` with this bound for the bundle, at its place by rising slot.
#[tactic(auto, using(crate::proofs::Pins::gathers))]
pub(crate) fn is_gathered(before: &[Entry], slot: u8, bound: u64, after: &[Entry]) -> bool
    ensures { result ≡ same_note after.now (with_bound slot bound before.now) }
{
    let mut left = after;
    let mut is_past = false;
    for entry in before {
        if !is_past && slot < entry.slot() {
            match left.split_first() {
                Some((first, rest)) if first.is_bounded(slot, bound) => left = rest,
                _ => return false,
            }
            is_past = true;
        }
        if !entry.is_bundle_of(slot) {
            match left.split_first() {
                Some((first, rest)) if first == entry => left = rest,
                _ => return false,
            }
        }
    }
    match left.split_first() {
        Some((first, rest)) if !is_past => first.is_bounded(slot, bound) && rest.is_empty(),
        Some(_) => false,
        None => is_past,
    }
}

/// Without the bundles at its front.
fn skip_bundles(note: &[Entry]) -> &[Entry]
    ensures { result.now ≡ skipped note.now }
{
    let mut left = note;
    while let Some((first, rest)) = left.split_first() {
        if !first.is_bundle() {
            break;
        }
        left = rest;
    }
    left
}

/// Whether two notes have the same entries of slots' pages.
pub(crate) fn has_same_pages(left: &[Entry], right: &[Entry]) -> bool
    ensures { result ≡ same_note (plain_part left.now) (plain_part right.now) }
{
    let mut rest = right;
    for entry in left {
        if !entry.is_bundle() {
            let Some((first, after)) = skip_bundles(rest).split_first() else {
                return false;
            };
            if !is_same_entry(entry, first) {
                return false;
            }
            rest = after;
        }
    }
    skip_bundles(rest).is_empty()
}

/// Whether the entries rise by slot and no bound is 0.
#[tactic(auto, using(crate::proofs::Pins::forms))]
pub(crate) fn is_in_form(note: &[Entry]) -> bool
    ensures { result ≡ is_in_form note.now }
{
    let mut least = 0;
    for entry in note {
        let slot = u16::from(entry.slot());
        if slot < least || entry.pins() == 0 {
            return false;
        }
        least = slot + 1;
    }
    true
}
