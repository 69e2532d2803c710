//! What is held at a place of a plan.

use pp_annotate::{gathered, held_as, inserted, removed, scattered};
use pp_cert::{Entry, Held, most_counted};
use pp_explain_text::{region_name, slot_name};
use pp_locate::front;
use pp_plan::{Plan, Stmt};
use pp_settings::Settings;
use std::alloc::{AllocError, Global};

/// The entry of the slot, if it has one.
pub(crate) fn entry_of(entries: &[Entry], slot: u8) -> Option<Entry> {
    entries.iter().find(|entry| entry.slot() == slot).copied()
}

/// The most pages that all entries together pin.
pub(crate) fn pins_of(entries: &[Entry]) -> u32 {
    let mut pins = 0u32;
    for entry in entries {
        pins = pins.saturating_add(entry.pins());
    }
    pins
}

/// What is held after a statement of the plan that is neither a loop nor a choice, where this is held before it. Bounds are
/// counted as a maker of certificates counts them.
pub(crate) fn after(
    alloc: Global,
    plan: &Plan,
    before: &[Entry],
    stmt: &Stmt,
) -> Result<Vec<Entry>, AllocError> {
    match stmt {
        Stmt::Fix { slot, region } => {
            let entry = Entry::Slot {
                slot: *slot,
                region: *region,
                held: Held::Free,
            };
            inserted(alloc, before, entry)
        }
        Stmt::Unfix { slot } => removed(alloc, before, *slot),
        Stmt::Latch { slot, mode } => held_as(alloc, before, Held::from(*mode), *slot),
        Stmt::Unlatch { slot } => held_as(alloc, before, Held::Free, *slot),
        Stmt::Gather { slot, .. } => {
            gathered(alloc, before, *slot, most_counted(&plan.layout()))
        }
        Stmt::Scatter { slot } => scattered(alloc, before, *slot),
        Stmt::Loop { .. } | Stmt::Choice { .. } => Vec::from_slice(alloc, before),
    }
}

/// The entries as a certificate writes them, as in `{"a":["root","-"],"g":3}`; of a bound that isn't counted further it is said
/// that it may be more. Of a long text it is the front.
pub(crate) fn note_text(
    alloc: Global,
    settings: &Settings,
    plan: &Plan,
    entries: &[Entry],
) -> Result<String, AllocError> {
    let stop = most_counted(&plan.layout());
    let mut text = String::from_str(alloc, "{")?;
    for (place, entry) in entries.iter().enumerate() {
        if place > 0 {
            text.push_str(",")?;
        }
        let slot = slot_name(plan, entry.slot());
        match *entry {
            Entry::Slot { region, held, .. } => {
                let region = region_name(settings, region);
                let held = held.text();
                write!(text, "{slot:?}:[{region:?},{held:?}]")?;
            }
            Entry::Bundle { bound, .. } if bound < stop => write!(text, "{slot:?}:{bound}")?,
            Entry::Bundle { bound, .. } => write!(text, "{slot:?}:{bound} or more")?,
        }
    }
    text.push_str("}")?;
    front(alloc, text.as_str())
}
