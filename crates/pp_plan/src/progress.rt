//! How far the reading of a plan is.

ghost use Rattle.std.specs.Prelude.{◌≡◌, ◌≤◌, IfOk, false, length, map, string_bytes, slice_index_or, ℕ};
ghost use Rattle.pp_plan.specs.Refusals.{is_plan_memory};
ghost use Rattle.pp_text.specs.Steps.{Gives, Reads};
ghost use Rattle.pp_plan.specs.Numbering.{position_of};
ghost use Rattle.pp_plan.specs.Reading.{start, begun, used, slot_of};
ghost use Rattle.pp_plan.specs.Names.{is_slot_name};

use crate::error::PlanError;
use crate::limits::MOST_SLOTS;
use crate::names::is_slot_name;
use pp_settings::limits::MOST_STATEMENTS;
use std::alloc::Global;
use std::marker::Model;

/// The slot names in the order of their first use, which of them are bundles, and how many statements have begun.
#[derive(Drop)]
pub(crate) struct Progress {
    names: Vec<String>,
    bundles: [bool; MOST_SLOTS],
    count: u32,
}

impl Model for Progress {
    ghost use Rattle.std.specs.Prelude.{map, string_bytes};
    ghost use Rattle.pp_plan.specs.Progress.{Progress, IsProgress};

    ghost Value = { Progress };

    ghost view = { λ p. record { names = map string_bytes p.names.items; bundles = p.bundles; count = p.count } };

    ghost invariant = { λ p. IsProgress
        (record { names = map string_bytes p.names.items; bundles = p.bundles; count = p.count }) };
}

/// The table marks the slot with this number.
pub(crate) fn is_marked(table: &[bool; MOST_SLOTS], slot: u8) -> bool
    ensures { result ≡ slice_index_or table.now slot false }
{
    match table.get(usize::from(slot)) {
        Some(mark) => *mark,
        None => false,
    }
}

/// The place of the name among the names.
pub(crate) fn position_of(names: &[String], name: &str) -> Option<u8>
    requires { length names.now ≤ 256 }
    ensures { result ≡ position_of (map string_bytes names.now) name.now }
{
    match names.iter().position(|n| n.as_str() == name) {
        Some(place) => Some(place as u8),
        None => None,
    }
}

impl Progress {
    /// Before the first statement.
    pub(crate) fn new(alloc: Global) -> Progress
        ensures { result ≡ start }
    {
        Progress {
            names: Vec::new(alloc),
            bundles: [false; MOST_SLOTS],
            count: 0,
        }
    }

    /// The number of the next statement, which begins.
    #[tactic(auto, unfolding(crate::specs::Reading::begun))]
    pub(crate) fn begin(&mut self) -> Result<u32, PlanError>
        ensures gives { Reads (λ _. self.new) result (begun self.old) }
        ensures number { IfOk result (λ n. n ≡ self.old.count) }
    {
        if self.count >= MOST_STATEMENTS {
            return Err(PlanError::TooMany(self.count));
        }
        let number = self.count;
        self.count += 1;
        Ok(number)
    }

    /// The number of a slot that the statement uses, as a bundle or as a plain slot, by the first use of its name.
    #[tactic(auto, unfolding(crate::specs::Reading::used))]
    pub(crate) fn use_slot(
        &mut self,
        alloc: Global,
        number: u32,
        bundle: bool,
        name: &str,
    ) -> Result<u8, PlanError>
        ensures { Gives is_plan_memory (λ k. (self.new, k)) result (used number bundle self.old name.now) }
    {
        if let Some(place) = position_of(&self.names, name) {
            if is_marked(&self.bundles, place) != bundle {
                return Err(PlanError::MixedSlot(number));
            }
            return Ok(place);
        }
        let place = self.names.len();
        if place >= MOST_SLOTS {
            return Err(PlanError::TooMany(number));
        }
        let name = String::from_str(alloc, name)?;
        self.names.push(name)?;
        self.bundles[place] = bundle;
        Ok(place as u8)
    }

    /// The same of a name that has to be in form.
    #[tactic(auto, unfolding(crate::specs::Reading::slot_of))]
    pub(crate) fn slot(
        &mut self,
        alloc: Global,
        number: u32,
        bundle: bool,
        name: &str,
    ) -> Result<u8, PlanError>
        ensures { Gives is_plan_memory (λ k. (self.new, k)) result (slot_of number bundle self.old name.now) }
    {
        if !is_slot_name(name) {
            return Err(PlanError::BadName(number));
        }
        self.use_slot(alloc, number, bundle, name)
    }

    /// The table of bundles: for each slot by its first use, whether it is one.
    pub(crate) fn bundles(&self) -> [bool; MOST_SLOTS]
        ensures { result ≡ self.now.bundles }
    {
        self.bundles
    }

    /// The names so far, in the order of their first use.
    pub(crate) fn into_names(self) -> Vec<String>
        ensures names { map string_bytes result.items ≡ self.names }
        ensures few { length result.items ≤ 32 }
    {
        self.names
    }
}
