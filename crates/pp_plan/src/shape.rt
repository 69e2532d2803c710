//! The form of a statement in a text.

ghost use Rattle.std.specs.Prelude.{◌≡◌, ◌<◌, length};
ghost use Rattle.serde_json.specs.View.{view, items_view};
ghost use Rattle.pp_text.specs.Steps.{Reads};
ghost use Rattle.pp_text.specs.Views.{texts};
ghost use Rattle.pp_plan.specs.Keys.{keys_of, first_key, is_kind_of};
ghost use Rattle.pp_plan.specs.Shapes.{has_kind, kind_of, value_at, text_at, number_at, list_at, mode_named, mode_at};
ghost use Rattle.pp_plan.specs.Shapes.{are_lists, shape_at, shape_of};
ghost use Rattle.pp_plan.specs.ShapeView.{shape_view};
ghost use Rattle.pp_plan.specs.Reading.{known_version, as_version, statements_at};

use crate::error::PlanError;
use crate::kind::Kind;
use crate::mode::Mode;
use pp_text::has_only_keys;
use serde_json::Value;

/// The kind of a statement, and the values of its keys.
#[derive(Clone, Copy)]
pub(crate) enum Shape<'v> {
    Fix { slot: &'v str, region: &'v str },
    Unfix { slot: &'v str },
    Latch { slot: &'v str, mode: Mode },
    Unlatch { slot: &'v str },
    Gather { slot: &'v str, region: &'v str },
    Scatter { slot: &'v str },
    Loop { count: u64, body: &'v [Value] },
    Choice { branches: &'v [Value] },
}

/// The keys of the whole text.
const TOP_KEYS: [&str; 2] = ["body", "version"];

/// The kinds of all versions.
const KINDS: [Kind; 8] = [
    Kind::Fix,
    Kind::Unfix,
    Kind::Latch,
    Kind::Unlatch,
    Kind::Gather,
    Kind::Scatter,
    Kind::Loop,
    Kind::Choice,
];

/// The keys that a statement of this kind has, all of them and no other. The first one tells the kind.
fn keys_of(kind: Kind) -> &'static [&'static str]
    ensures are { texts result.now ≡ keys_of kind }
    ensures some { 0 < length result.now }
{
    match kind {
        Kind::Fix => &["fix", "region"],
        Kind::Unfix => &["unfix"],
        Kind::Latch => &["latch", "mode"],
        Kind::Unlatch => &["unlatch"],
        Kind::Gather => &["gather", "region"],
        Kind::Scatter => &["scatter"],
        Kind::Loop => &["loop", "body"],
        Kind::Choice => &["choice"],
    }
}

/// Plans of this version have statements of this kind. Those of bundles are version 2's.
fn is_kind_of(version: u8, kind: Kind) -> bool
    ensures { result ≡ is_kind_of version kind }
{
    match kind {
        Kind::Gather | Kind::Scatter => version == 2,
        Kind::Fix | Kind::Unfix | Kind::Latch | Kind::Unlatch | Kind::Loop | Kind::Choice => true,
    }
}

/// The version has this kind, and the value has its first key.
fn has_kind(version: u8, value: &Value, kind: Kind) -> bool
    ensures { result ≡ has_kind version (view value.now) kind }
{
    let keys = keys_of(kind);
    is_kind_of(version, kind) && value.get(keys[0]).is_some()
}

/// The one kind of the version whose first key the value has.
fn kind_of(version: u8, value: &Value) -> Option<Kind>
    ensures { result ≡ kind_of version (view value.now) }
{
    let mut found = None;
    for kind in &KINDS {
        if has_kind(version, value, *kind) {
            if found.is_some() {
                return None;
            }
            found = Some(*kind);
        }
    }
    found
}

/// The value at the key, in the statement with this number.
#[tactic(auto, unfolding(crate::specs::Shapes::value_at))]
fn value_at<'v>(key: &str, number: u32, value: &'v Value) -> Result<&'v Value, PlanError>
    ensures { Reads (λ v. view v.now) result (value_at key.now number (view value.now)) }
{
    value.get(key).ok_or(PlanError::WrongField(number))
}

/// The same where it is a text.
#[tactic(auto, unfolding(crate::specs::Shapes::text_at))]
fn text_at<'v>(key: &str, number: u32, value: &'v Value) -> Result<&'v str, PlanError>
    ensures { Reads (λ s. s.now) result (text_at key.now number (view value.now)) }
{
    value_at(key, number, value)?
        .as_str()
        .ok_or(PlanError::WrongField(number))
}

/// The same where it is a whole number of 64 bits without a sign.
#[tactic(auto, unfolding(crate::specs::Shapes::number_at))]
fn number_at(key: &str, number: u32, value: &Value) -> Result<u64, PlanError>
    ensures { Reads (λ n. n) result (number_at key.now number (view value.now)) }
{
    value_at(key, number, value)?
        .as_u64()
        .ok_or(PlanError::WrongField(number))
}

/// The same where it is a list.
#[tactic(auto, unfolding(crate::specs::Shapes::list_at))]
fn list_at<'v>(key: &str, number: u32, value: &'v Value) -> Result<&'v [Value], PlanError>
    ensures { Reads (λ s. items_view s.now) result (list_at key.now number (view value.now)) }
{
    match value_at(key, number, value)?.as_array() {
        Some(items) => Ok(items),
        None => Err(PlanError::WrongField(number)),
    }
}

/// The mode that the letter stands for.
fn mode_named(text: &str) -> Option<Mode>
    ensures { result ≡ mode_named text.now }
{
    if text == "S" {
        Some(Mode::S)
    } else if text == "X" {
        Some(Mode::X)
    } else {
        None
    }
}

/// The same where it is the letter of a mode.
#[tactic(auto, unfolding(crate::specs::Shapes::mode_at))]
fn mode_at(key: &str, number: u32, value: &Value) -> Result<Mode, PlanError>
    ensures { Reads (λ m. m) result (mode_at key.now number (view value.now)) }
{
    mode_named(text_at(key, number, value)?).ok_or(PlanError::WrongField(number))
}

/// Each of the values is a list.
fn are_lists(items: &[Value]) -> bool
    ensures { result ≡ are_lists (items_view items.now) }
{
    items.iter().all(|value| value.is_array())
}

/// The values of the keys of this kind.
#[tactic(auto, unfolding(crate::specs::Shapes::shape_at))]
fn shape_at<'v>(kind: Kind, number: u32, value: &'v Value) -> Result<Shape<'v>, PlanError>
    ensures { Reads shape_view result (shape_at kind number (view value.now)) }
{
    match kind {
        Kind::Fix => {
            let slot = text_at("fix", number, value)?;
            let region = text_at("region", number, value)?;
            Ok(Shape::Fix { slot, region })
        }
        Kind::Unfix => {
            let slot = text_at("unfix", number, value)?;
            Ok(Shape::Unfix { slot })
        }
        Kind::Latch => {
            let slot = text_at("latch", number, value)?;
            let mode = mode_at("mode", number, value)?;
            Ok(Shape::Latch { slot, mode })
        }
        Kind::Unlatch => {
            let slot = text_at("unlatch", number, value)?;
            Ok(Shape::Unlatch { slot })
        }
        Kind::Gather => {
            let slot = text_at("gather", number, value)?;
            let region = text_at("region", number, value)?;
            Ok(Shape::Gather { slot, region })
        }
        Kind::Scatter => {
            let slot = text_at("scatter", number, value)?;
            Ok(Shape::Scatter { slot })
        }
        Kind::Loop => {
            let count = number_at("loop", number, value)?;
            let body = list_at("body", number, value)?;
            Ok(Shape::Loop { count, body })
        }
        Kind::Choice => {
            let branches = list_at("choice", number, value)?;
            if !are_lists(branches) {
                return Err(PlanError::WrongField(number));
            }
            Ok(Shape::Choice { branches })
        }
    }
}

/// The form of the statement with this number, in a plan of this version.
#[tactic(auto, unfolding(crate::specs::Shapes::shape_of))]
pub(crate) fn shape_of(version: u8, number: u32, value: &Value) -> Result<Shape<'_>, PlanError>
    ensures { Reads shape_view result (shape_of version number (view value.now)) }
{
    let kind = kind_of(version, value).ok_or(PlanError::NoSuchStatement(number))?;
    if !has_only_keys(keys_of(kind), value) {
        return Err(PlanError::WrongField(number));
    }
    shape_at(kind, number, value)
}

/// The version of this number, 1 or 2.
fn known_version(number: u64) -> Option<u8>
    ensures { result ≡ known_version number }
{
    if number == 1 || number == 2 {
        Some(number as u8)
    } else {
        None
    }
}

/// The version that the value is.
fn as_version(value: &Value) -> Option<u8>
    ensures { result ≡ as_version (view value.now) }
{
    match value.as_u64() {
        Some(number) => known_version(number),
        None => None,
    }
}

/// The version of a plan's object, and its statements.
#[tactic(auto, unfolding(crate::specs::Reading::statements_at))]
pub(crate) fn statements_at(value: &Value) -> Result<(u8, &[Value]), PlanError>
    ensures { Reads (λ s. (s.0, items_view s.1.now)) result (statements_at (view value.now)) }
{
    if !has_only_keys(&TOP_KEYS, value) {
        return Err(PlanError::WrongField(0));
    }
    let items = list_at("body", 0, value)?;
    let version = as_version(value_at("version", 0, value)?).ok_or(PlanError::Range(0))?;
    Ok((version, items))
}
