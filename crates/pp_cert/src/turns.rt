//! The notes of a loop's body beside the note before the loop.

ghost use Rattle.std.specs.Prelude.{◌≡◌, ◌&&◌, ◌||◌, not, false};
ghost use Rattle.pp_plan.specs.Tree.{scatters};
ghost use Rattle.pp_cert.specs.Notes.{entry_slot, is_bundle, bound_at, is_begun, is_back, has_grown, all_bundles};
ghost use Rattle.pp_cert.specs.Notes.{begins_turns, ends_as_begun, grows_by_turns};

use crate::entries::{bound_at, has_same_pages, is_in_form};
use crate::note::Entry;
use crate::scattered::scatters;
use pp_plan::Body;

/// Whether the bound `first` may stand at the body's first place, where `before` stands just before the loop.
#[tactic(auto, using(crate::proofs::Bounds::turns))]
fn is_begun(body: &Body, slot: u8, before: u32, first: u32) -> bool
    ensures { result ≡ is_begun (scatters body.now slot) before first }
{
    first == before || (before < first && !scatters(body, slot))
}

/// Whether the bound `last` may stand at the body's end, if the body scatters the bundle.
#[tactic(auto, using(crate::proofs::Bounds::turns))]
fn is_back(body: &Body, slot: u8, before: u32, last: u32) -> bool
    ensures { result ≡ is_back (scatters body.now slot) before last }
{
    last == before || !scatters(body, slot)
}

/// Whether so many turns make the bound `last` of `before`, where the last of them begins with `first`.
fn is_sum(turns: u16, before: u32, first: u32, last: u32) -> bool
    ensures { result ≡ has_grown turns false before first last }
{
    if last < first {
        return false;
    }
    let earlier = u64::from(turns.saturating_sub(1));
    u64::from(first) == u64::from(before) + earlier * u64::from(last - first)
}

/// Whether the bound has grown so, if the body doesn't scatter the bundle.
#[tactic(auto, using(crate::proofs::Bounds::turns))]
fn has_grown(turns: u16, body: &Body, slot: u8, before: u32, first: u32, last: u32) -> bool
    ensures { result ≡ has_grown turns (scatters body.now slot) before first last }
{
    is_sum(turns, before, first, last) || scatters(body, slot)
}

/// Whether the entry, if it is a bundle's, has a bound that may begin the body.
fn entry_begun(body: &Body, before: &[Entry], first: &[Entry], entry: &Entry) -> bool
    ensures { result
        ≡ (not (is_bundle entry.now) || is_begun (scatters body.now (entry_slot entry.now))
        (bound_at before.now (entry_slot entry.now)) (bound_at first.now (entry_slot entry.now))) }
{
    if !entry.is_bundle() {
        return true;
    }
    let slot = entry.slot();
    is_begun(body, slot, bound_at(before, slot), bound_at(first, slot))
}

/// Whether the entry, if it is a bundle's, has a bound that may end the body, if that scatters the bundle.
fn entry_back(body: &Body, before: &[Entry], last: &[Entry], entry: &Entry) -> bool
    ensures { result
        ≡ (not (is_bundle entry.now) || is_back (scatters body.now (entry_slot entry.now))
        (bound_at before.now (entry_slot entry.now)) (bound_at last.now (entry_slot entry.now))) }
{
    if !entry.is_bundle() {
        return true;
    }
    let slot = entry.slot();
    is_back(body, slot, bound_at(before, slot), bound_at(last, slot))
}

/// Whether the entry, if it is a bundle's, has a bound that has grown as so many turns want it.
fn entry_grown(
    turns: u16,
    body: &Body,
    before: &[Entry],
    first: &[Entry],
    last: &[Entry],
    entry: &Entry,
) -> bool
    ensures { result
        ≡ (not (is_bundle entry.now) || has_grown turns (scatters body.now (entry_slot entry.now))
        (bound_at before.now (entry_slot entry.now)) (bound_at first.now (entry_slot entry.now))
        (bound_at last.now (entry_slot entry.now))) }
{
    if !entry.is_bundle() {
        return true;
    }
    let slot = entry.slot();
    has_grown(
        turns,
        body,
        slot,
        bound_at(before, slot),
        bound_at(first, slot),
        bound_at(last, slot),
    )
}

/// Whether the bounds of all these bundles may begin the body.
fn all_begun(body: &Body, before: &[Entry], first: &[Entry], entries: &[Entry]) -> bool
    ensures { result
        ≡ all_bundles (λ s. is_begun (scatters body.now s) (bound_at before.now s) (bound_at first.now s)) entries.now }
{
    entries
        .iter()
        .all(|entry| entry_begun(body, before, first, entry))
}

/// Whether the bounds of all these bundles may end the body, if that scatters them.
fn all_back(body: &Body, before: &[Entry], last: &[Entry], entries: &[Entry]) -> bool
    ensures { result
        ≡ all_bundles (λ s. is_back (scatters body.now s) (bound_at before.now s) (bound_at last.now s)) entries.now }
{
    entries
        .iter()
        .all(|entry| entry_back(body, before, last, entry))
}

/// Whether the bounds of all these bundles have grown so.
fn all_grown(
    turns: u16,
    body: &Body,
    before: &[Entry],
    first: &[Entry],
    last: &[Entry],
    entries: &[Entry],
) -> bool
    ensures { result
        ≡ all_bundles (λ s. has_grown turns (scatters body.now s) (bound_at before.now s) (bound_at first.now s)
        (bound_at last.now s)) entries.now }
{
    entries.iter().all(|entry| entry_grown(turns, body, before, first, last, entry))
}

/// Whether the note `first` may stand at the first place of a loop's body, where `before` stands just before the loop.
pub(crate) fn begins_turns(body: &Body, before: &[Entry], first: &[Entry]) -> bool
    ensures { result ≡ begins_turns (scatters body.now) before.now first.now }
{
    is_in_form(first)
        && has_same_pages(first, before)
        && all_begun(body, before, first, before)
        && all_begun(body, before, first, first)
}

/// Whether the note `last` at the body's end has the slots' pages of the note before the loop, and the bounds of the bundles
/// that the body scatters.
pub(crate) fn ends_as_begun(body: &Body, before: &[Entry], last: &[Entry]) -> bool
    ensures { result ≡ ends_as_begun (scatters body.now) before.now last.now }
{
    has_same_pages(last, before)
        && all_back(body, before, last, before)
        && all_back(body, before, last, last)
}

/// Whether the bounds of the bundles that the body doesn't scatter have grown as so many turns want it.
pub(crate) fn grows_by_turns(
    turns: u16,
    body: &Body,
    before: &[Entry],
    first: &[Entry],
    last: &[Entry],
) -> bool
    ensures { result ≡ grows_by_turns turns (scatters body.now) before.now first.now last.now }
{
    all_grown(turns, body, before, first, last, before)
        && all_grown(turns, body, before, first, last, first)
        && all_grown(turns, body, before, first, last, last)
}
