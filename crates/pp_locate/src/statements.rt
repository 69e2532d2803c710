//! Finding a statement in the JSON value of a plan.

use crate::statement::slot_in;
use crate::steps::Step;
use pp_settings::limits::MOST_DEPTH;
use serde_json::Value;
use std::alloc::{AllocError, Global};

/// How deep statements are looked for: one deeper than they may stand, since the first one that stands too deep is sought
/// too.
const DEEPEST: u8 = MOST_DEPTH + 1;

/// What a statement is looked for by.
#[derive(Clone, Copy)]
enum Wanted<'a> {
    /// Its number.
    Number(u32),
    /// The name of the slot that it has.
    Slot(&'a str),
}

/// A search for a statement. Statements are numbered from 0 in the order in which they begin.
#[derive(Drop)]
struct Search<'a> {
    wanted: Wanted<'a>,
    /// The number of the next statement.
    next: u32,
    /// The way to where the search stands.
    steps: Vec<Step<'static>>,
}

/// The way to the statement with this number in the value of a plan, if there is such a statement.
pub fn steps_to(
    alloc: Global,
    plan: &Value,
    number: u32,
) -> Result<Option<Vec<Step<'static>>>, AllocError> {
    match found_in(alloc, plan, Wanted::Number(number))? {
        Some((_, steps)) => Ok(Some(steps)),
        None => Ok(None),
    }
}

/// The number of the first statement that uses the slot, in the value of a plan, and the way to it.
pub fn first_use(
    alloc: Global,
    plan: &Value,
    slot: &str,
) -> Result<Option<(u32, Vec<Step<'static>>)>, AllocError> {
    found_in(alloc, plan, Wanted::Slot(slot))
}

/// The number of the first statement that is wanted, and the way to it.
fn found_in(
    alloc: Global,
    plan: &Value,
    wanted: Wanted<'_>,
) -> Result<Option<(u32, Vec<Step<'static>>)>, AllocError> {
    let mut search = Search {
        wanted,
        next: 0,
        steps: Vec::new(alloc),
    };
    if search.below(Step::Key("body"), items_at(plan, "body"), DEEPEST)? {
        return Ok(Some((search.next, search.steps)));
    }
    Ok(None)
}

/// The items of the list at the key; none where there is no list.
fn items_at<'v>(value: &'v Value, key: &str) -> &'v [Value] {
    match value.get(key) {
        Some(list) => items_of(list),
        None => &[],
    }
}

/// The items of a list; none where it is no list.
fn items_of(list: &Value) -> &[Value] {
    match list.as_array() {
        Some(items) => items,
        None => &[],
    }
}

impl Search<'_> {
    /// Whether the statement to which the search has come is the one.
    fn is_wanted(&self, value: &Value) -> bool {
        match self.wanted {
            Wanted::Number(number) => number == self.next,
            Wanted::Slot(slot) => slot == slot_in(value),
        }
    }

    /// Searches the statements of a list that this step leads to. Whether it was found.
    #[cycle(seek)]
    fn below(
        &mut self,
        step: Step<'static>,
        items: &[Value],
        levels: u8,
    ) -> Result<bool, AllocError> {
        self.steps.push(step)?;
        for (place, value) in items.iter().enumerate() {
            if self.statement(place, value, levels)? {
                return Ok(true);
            }
        }
        self.steps.pop();
        Ok(false)
    }

    /// Searches a statement, the one with this place in its list.
    #[cycle(seek)]
    fn statement(&mut self, place: usize, value: &Value, levels: u8) -> Result<bool, AllocError> {
        self.steps.push(Step::Item(place))?;
        if self.is_wanted(value) {
            return Ok(true);
        }
        self.next = self.next.saturating_add(1);
        if levels > 0
            && (self.below(Step::Key("body"), items_at(value, "body"), levels - 1)?
                || self.branches(items_at(value, "choice"), levels - 1)?)
        {
            return Ok(true);
        }
        self.steps.pop();
        Ok(false)
    }

    /// Searches the branches of a choice.
    #[cycle(seek)]
    fn branches(&mut self, lists: &[Value], levels: u8) -> Result<bool, AllocError> {
        self.steps.push(Step::Key("choice"))?;
        for (branch, list) in lists.iter().enumerate() {
            if self.below(Step::Item(branch), items_of(list), levels)? {
                return Ok(true);
            }
        }
        self.steps.pop();
        Ok(false)
    }
}
