//! A plan.

ghost use Rattle.std.specs.Prelude.{◌≡◌, ◌≢◌, ◌<◌, IfOk, IfErr, IsOkUnless, Ok, List, [], ◌++◌, length, slice_get};
ghost use Rattle.std.specs.Prelude.{Some, string_bytes};
ghost use Rattle.std.specs.Option.{ok_or};
ghost use Rattle.serde_json.specs.Read.{read};
ghost use Rattle.serde_json.specs.View.{view};
ghost use Rattle.pp_settings.specs.Settings.{IsConfiguration, geometry_of};
ghost use Rattle.pp_plan.specs.declared.error.PlanError.TheVariants.{NotJson, OutOfMemory};
ghost use Rattle.pp_plan.specs.Terms.{Terms, IsPlan};
ghost use Rattle.pp_plan.specs.Rules.{uses_bundle};
ghost use Rattle.pp_plan.specs.Slots.{slot_named};
ghost use Rattle.pp_plan.specs.Spelling.{IsText};
ghost use Rattle.pp_plan.specs.Faults.{Fault, HasFault, TellsFirst};
ghost use Rattle.pp_plan.specs.View.{sequence_of};
ghost use Rattle.pp_plan.specs.PlanTraces.{IsTraceOf};
ghost use Rattle.pp_plan.specs.declared.action.Action.{Action};
ghost use Rattle.pp_plan.specs.Refusals.{is_plan_memory};
ghost use Rattle.pp_text.specs.Steps.{Gives};
ghost use Rattle.pp_plan.specs.Reading.{reading};
ghost use Rattle.pp_plan.specs.Writing.{plan_text};
ghost use Rattle.pp_plan.specs.FlatList.{flat_body};

use crate::error::PlanError;
use crate::flat::{FlatStep, flat_body};
use crate::limits::MOST_SLOTS;
use crate::numbering::{in_byte_order, new_bundles, new_numbers, renumber};
use crate::progress::{Progress, is_marked, position_of};
use crate::reading::read_body;
use crate::shape::statements_at;
use crate::stmt::{Body, Stmt};
use crate::writing::plan_value;
use pp_settings::limits::MOST_DEPTH;
use pp_settings::{Layout, Settings};
use serde_json::{Category, Value};
use std::alloc::Global;
use std::marker::Model;

/// What a worker does with pages: statements over slots, read for the layout of some settings.
///
/// A plan has at most 4,096 statements, at most 16 inside each other, and at most 32 slots. Bundles count among the
/// slots, and no slot is a bundle and a plain one.
#[derive(Debug)]
pub struct Plan {
    pub(crate) version: u8,
    pub(crate) layout: Layout,
    pub(crate) slots: Vec<String>,
    pub(crate) body: Body,
    /// Which slots are bundles.
    bundles: [bool; MOST_SLOTS],
    /// The body as one list.
    steps: Vec<FlatStep>,
}

// By hand, so that code that lets one go calls this, and doesn't let each field go anew.
impl Drop for Plan {
    fn drop(self) {
        let Plan {
            version: _,
            layout: _,
            slots: _,
            body: _,
            bundles: _,
            steps: _,
        } = self;
    }
}

impl Model for Plan {
    ghost use Rattle.pp_plan.specs.Terms.{Terms, coded_terms};

    ghost Value = { Terms };

    ghost coded = { coded_terms };

    ghost use Rattle.pp_plan.specs.Fields.{terms_of, AreFields};

    ghost view = { terms_of };

    ghost invariant = { AreFields };
}

/// The JSON value that the text is.
fn value_of(alloc: Global, text: &str) -> Result<Value, PlanError>
    ensures { Gives is_plan_memory view result (ok_or (read text.now) NotJson) }
{
    match Value::from_str(alloc, text) {
        Ok(value) => Ok(value),
        Err(e) if e.classify() == Category::Memory => Err(PlanError::OutOfMemory),
        Err(_) => Err(PlanError::NotJson),
    }
}

/// The plan that the text spells, or the first refusal.
#[tactic(auto, unfolding(crate::specs::Reading::reading))]
fn read_plan(alloc: Global, settings: &Settings, text: &str) -> Result<Plan, PlanError>
    ensures gives { Gives is_plan_memory (λ (t : Terms). t) result (reading settings.now text.now) }
    // What holds of all settings.
    ensures settings { IfOk result (λ _. IsConfiguration settings.now) }
{
    let value = value_of(alloc, text)?;
    let (version, items) = statements_at(&value)?;
    let mut progress = Progress::new(alloc);
    let mut body = read_body(alloc, settings, version, MOST_DEPTH, &mut progress, items)?;
    let bundles = progress.bundles();
    let names = progress.into_names();
    let slots = in_byte_order(&names)?;
    renumber(&mut body, &new_numbers(&slots, &names));
    let bundles = new_bundles(&bundles, &new_numbers(&names, &slots), slots.len());
    let steps = flat_body(alloc, &body)?;
    Ok(Plan {
        version,
        layout: settings.layout(),
        slots,
        body,
        bundles,
        steps,
    })
}

impl Plan {
    /// The plan that the text spells under the settings, or the first refusal in a fixed order.
    ///
    /// A text is of version 1 or 2. Version 2 also has gathers and scatters; in version 1 their keys are like any others.
    ///
    /// A text is accepted if and only if it spells a plan that keeps the limits, unless memory runs out. A key that
    /// stands twice counts where it stands last.
    pub fn from_text(alloc: Global, settings: &Settings, text: &str) -> Result<Plan, PlanError>
        // What is read is spelled so, each statement and nothing else, and keeps the rules.
        ensures found { IfOk result (IsText settings.now text.now) }
        // What is spelled so and keeps the rules is read, unless memory runs out.
        ensures only { (t : Terms) → IsText settings.now text.now t
            → Gives is_plan_memory (λ (u : Terms). u) result (Ok t) }
        // A text that is accepted has no fault.
        ensures faultless { IfOk result (λ _. (f : Fault) → ¬ HasFault settings.now (read text.now) f) }
        // A refusal tells a fault of the text, the first one in the order, unless memory runs out.
        ensures first { IfErr result (λ e. e ≢ OutOfMemory → TellsFirst settings.now (read text.now) e) }
        // The same as a function of the text.
        ensures exact { Gives is_plan_memory (λ (u : Terms). u) result (reading settings.now text.now) }
        // The plan is one of the settings' layout.
        ensures layout { IfOk result (λ t. t.layout ≡ geometry_of settings.now) }
    {
        read_plan(alloc, settings, text)
    }

    /// The text of the plan, as in `{"body":[{"fix":"a","region":"root"},{"unfix":"a"}],"version":1}`.
    ///
    /// It has the version that was read, no white space, and its keys are in byte order. The settings must have the
    /// plan's layout. Their names of regions are written.
    pub fn to_text(&self, alloc: Global, settings: &Settings) -> Result<String, PlanError>
        requires { self.now.layout ≡ geometry_of settings.now }
        ensures text { IfOk result (λ s. string_bytes s ≡ plan_text settings.now self.now) }
        // Under the same settings the text reads as the same plan.
        ensures reads_back { IfOk result (λ s. reading settings.now (string_bytes s) ≡ Ok self.now) }
        ensures only_memory { IsOkUnless result OutOfMemory }
    {
        // The settings keep their limits: names of regions have no byte that a JSON text escapes.
        prove!(settings.layout().frames() == self.layout.frames());
        let value = plan_value(alloc, settings, self)?;
        Ok(value.to_string(alloc)?)
    }

    /// The version of the plan's form: 1, or 2, which has bundles.
    pub fn version(&self) -> u8
        ensures { result ≡ self.now.version }
    {
        self.version
    }

    /// The layout of the settings that the plan was read for.
    pub fn layout(&self) -> Layout
        ensures { result ≡ self.now.layout }
    {
        self.layout
    }

    /// The statements.
    #[tactic(auto, using(crate::proofs::PrefixFree::prefix_free))]
    pub fn body(&self) -> &[Stmt]
        ensures is { sequence_of result.now ≡ self.now.body }
        // What holds of every plan.
        ensures facts { IsPlan self.now }
        // No trace of a plan is a proper prefix of another.
        ensures prefix_free { (t rest : List Action) → IsTraceOf self.now t → IsTraceOf self.now (t ++ rest)
            → rest ≡ [] }
    {
        self.body.stmts()
    }

    /// The step of this number of the body as one list.
    #[inline(always)]
    pub fn step(&self, at: usize) -> FlatStep
        requires { at < length (flat_body self.now.body) }
        ensures is { slice_get (flat_body self.now.body) at ≡ Some result }
        ensures facts { IsPlan self.now }
    {
        self.steps[at]
    }

    /// How many slot names.
    pub fn slots(&self) -> u8
        ensures { result ≡ length self.now.slots }
    {
        self.slots.len() as u8
    }

    /// The name of the slot with this number.
    pub fn slot_name(&self, slot: u8) -> &str
        requires { slot < length self.now.slots }
        ensures { slice_get self.now.slots slot ≡ Some result.now }
    {
        self.slots[usize::from(slot)].as_str()
    }

    /// Whether the slot with this number is a bundle: the plan gathers into it or scatters it.
    pub fn is_bundle(&self, slot: u8) -> bool
        ensures { result ≡ uses_bundle self.now.body slot }
    {
        is_marked(&self.bundles, slot)
    }

    /// The number of the slot with this name, if the plan has one.
    pub fn slot(&self, name: &str) -> Option<u8>
        ensures { result ≡ slot_named self.now name.now }
    {
        position_of(&self.slots, name)
    }
}
