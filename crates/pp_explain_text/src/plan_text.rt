//! Refusals of a plan's text.

use crate::names::region_names;
use pp_locate::{
    Said, Statement, Step, first_use, hint, listed, no_text, quoted, said_at, shown_at, slot_in,
    slot_key, steps_to, text_of, value_of,
};
use pp_plan::PlanError;
use pp_settings::Settings;
use pp_settings::limits::{MOST_SLOTS, MOST_STATEMENTS};
use serde_json::Value;
use std::alloc::{AllocError, Global};

/// The keys of a plan's text.
const TOP_KEYS: [&str; 2] = ["body", "version"];

/// The first keys of the kinds of statements of version 1.
const KINDS: [&str; 6] = ["fix", "unfix", "latch", "unlatch", "loop", "choice"];

/// Those of version 2.
const KINDS_WITH_BUNDLES: [&str; 8] = [
    "fix", "unfix", "latch", "unlatch", "loop", "choice", "gather", "scatter",
];

/// The other keys of statements.
const FIELDS: [&str; 3] = ["region", "mode", "body"];

/// What is said of the bytes of a plan whose text is refused so under these settings.
pub fn plan_said(
    alloc: Global,
    settings: &Settings,
    bytes: &[u8],
    error: PlanError,
) -> Result<Said, AllocError> {
    let text = match text_of(bytes) {
        Ok(text) => text,
        Err(spot) => return no_text(alloc, spot, "JSON"),
    };
    let value = match value_of(alloc, text)? {
        Ok(value) => value,
        Err(said) => return Ok(said),
    };
    if let Some(said) = top_said(alloc, text, &value)? {
        return Ok(said);
    }
    statement_said(alloc, settings, text, &value, error)
}

// ---- the whole text

/// What is said of a text that isn't an object with the keys and values of a plan; nothing of one that is.
fn top_said(alloc: Global, text: &str, value: &Value) -> Result<Option<Said>, AllocError> {
    if !value.is_object() {
        return top_said_of(alloc, text, &[], "the text is no object");
    }
    if let Some(key) = stranger(value, &TOP_KEYS) {
        let what = stranger_text(alloc, key)?;
        return Ok(Some(said_at(alloc, text, &[Step::Name(key)], what)?));
    }
    body_said(alloc, text, value)
}

/// Whether a plan's value is of version 2, which has bundles.
fn has_bundles(plan: &Value) -> bool {
    plan.get("version").and_then(Value::as_u64) == Some(2)
}

/// The rule of the whole text behind this.
fn top_said_of(
    alloc: Global,
    text: &str,
    steps: &[Step<'static>],
    what: &str,
) -> Result<Option<Said>, AllocError> {
    let what = format!(in alloc; "{what}: a plan is {{\"body\":[..],\"version\":1 or 2}}")?;
    Ok(Some(said_at(alloc, text, steps, what)?))
}

/// A key that a plan's text may not have.
fn stranger_text(alloc: Global, key: &str) -> Result<String, AllocError> {
    let hint = hint(alloc, key, &TOP_KEYS)?;
    let shown = quoted(alloc, key)?;
    format!(in alloc;
        "the key {shown} isn't known: a plan is {{\"body\":[..],\"version\":1 or 2}}{hint}"
    )
}

/// The same of the body and the version.
fn body_said(alloc: Global, text: &str, value: &Value) -> Result<Option<Said>, AllocError> {
    match value.get("body") {
        None => return top_said_of(alloc, text, &[], "the key body is missing"),
        Some(body) if !body.is_array() => {
            return top_said_of(alloc, text, &[Step::Key("body")], "body is no list");
        }
        Some(_) => {}
    }
    let Some(version) = value.get("version") else {
        return top_said_of(alloc, text, &[], "the key version is missing");
    };
    if let Some(1 | 2) = version.as_u64() {
        return Ok(None);
    }
    let version = shown_at(alloc, text, &[Step::Key("version")])?;
    let what = format!(in alloc; "version is {version}, and not the number 1 or 2")?;
    top_said_of(alloc, text, &[Step::Key("version")], &what)
}

// ---- a statement

/// What is said of the statement that is refused.
fn statement_said(
    alloc: Global,
    settings: &Settings,
    text: &str,
    plan: &Value,
    error: PlanError,
) -> Result<Said, AllocError> {
    let number = error.statement().unwrap_or(0);
    if let Some(steps) = steps_to(alloc, plan, number)? {
        if let Some(statement) = Statement::at(text, plan, number, &steps) {
            let what = rule_of(alloc, settings, plan, statement, error)?;
            let field = field_of(plan, statement.value, error);
            return statement.said(alloc, field, &what);
        }
    }
    Ok(Said::of(format!(in alloc; "{error}")?))
}

/// What is at fault in the statement, where that isn't the whole of it.
fn field_of<'v>(plan: &Value, value: &'v Value, error: PlanError) -> Option<Step<'v>> {
    match error {
        PlanError::NoSuchStatement(_) => strange_key(plan, value),
        PlanError::WrongField(_) => wrong_field(value),
        PlanError::NoSuchRegion(_) => Some(Step::Key("region")),
        PlanError::Range(_) => Some(Step::Key(wrong_size(value))),
        PlanError::TooMany(number) if number >= MOST_STATEMENTS => None,
        PlanError::BadName(_) | PlanError::TooMany(_) | PlanError::MixedSlot(_) => {
            Some(Step::Key(slot_key(value)?))
        }
        PlanError::TooDeep(_) | PlanError::NotJson | PlanError::OutOfMemory => None,
    }
}

/// The second first key of a value that has two; else a key that no statement of the plan's version has.
fn strange_key<'v>(plan: &Value, value: &'v Value) -> Option<Step<'v>> {
    let mut has_one = false;
    for kind in kinds_of(plan) {
        let is_there = value.get(*kind).is_some();
        if is_there && has_one {
            return Some(Step::Name(*kind));
        }
        has_one = has_one || is_there;
    }
    for key in value.as_object()?.keys() {
        if !FIELDS.iter().any(|other| key.as_str() == *other) {
            return Some(Step::Name(key.as_str()));
        }
    }
    None
}

/// The key of a statement that doesn't belong there, or whose value is of another kind.
fn wrong_field(value: &Value) -> Option<Step<'_>> {
    let keys = form_of(value).keys;
    if let Some(key) = stranger(value, keys) {
        return Some(Step::Name(key));
    }
    for key in keys {
        if !is_of_kind(key, value.get(*key)?) {
            return Some(Step::Key(key));
        }
    }
    None
}

/// The key of a statement whose value is out of range.
fn wrong_size(value: &Value) -> &'static str {
    match value.get("loop").and_then(Value::as_u64) {
        Some(1..=65_535) => "body",
        Some(_) => "loop",
        None => "choice",
    }
}

/// What is wrong with the statement, and the rule.
fn rule_of(
    alloc: Global,
    settings: &Settings,
    plan: &Value,
    statement: Statement<'_>,
    error: PlanError,
) -> Result<String, AllocError> {
    let value = statement.value;
    match error {
        PlanError::NoSuchStatement(_) => no_such_text(alloc, plan, value),
        PlanError::WrongField(_) => wrong_field_text(alloc, statement),
        PlanError::BadName(_) => bad_name_text(alloc, value),
        PlanError::NoSuchRegion(_) => no_region_text(alloc, settings, value),
        PlanError::Range(_) => range_text(alloc, value),
        PlanError::TooDeep(_) => {
            String::from_str(
                alloc,
                "it stands 17 deep, and statements stand at most 16 deep",
            )
        }
        PlanError::TooMany(number) => too_many_text(alloc, number, value),
        PlanError::MixedSlot(_) => mixed_text(alloc, plan, statement),
        PlanError::NotJson | PlanError::OutOfMemory => format!(in alloc; "{error}"),
    }
}

/// The first keys of the kinds of statements that the plan may have.
fn kinds_of(plan: &Value) -> &'static [&'static str] {
    if has_bundles(plan) {
        &KINDS_WITH_BUNDLES
    } else {
        &KINDS
    }
}

/// Whether the value is a statement of a bundle.
fn is_of_bundle(value: &Value) -> bool {
    value.get("gather").is_some() || value.get("scatter").is_some()
}

/// A value that is none of the statements of the plan's version.
fn no_such_text(alloc: Global, plan: &Value, value: &Value) -> Result<String, AllocError> {
    let known = kinds_of(plan);
    let kinds = listed(alloc, known)?;
    if !value.is_object() {
        return format!(in alloc;
            "it is no object: a statement has exactly one of the keys {kinds}"
        );
    }
    let found = found_kinds(alloc, known, value)?;
    if found.is_empty() {
        return no_kind_text(alloc, known, value, &kinds);
    }
    let found = listed(alloc, &found)?;
    format!(in alloc; "it has the keys {found}: a statement has exactly one of {kinds}")
}

/// An object that has none of the first keys of the known kinds, which are listed so.
fn no_kind_text(
    alloc: Global,
    known: &[&str],
    value: &Value,
    kinds: &str,
) -> Result<String, AllocError> {
    let hint = kind_hint(alloc, known, value)?;
    let later = if is_of_bundle(value) {
        "; gather and scatter are statements of version 2, and version is 1"
    } else {
        ""
    };
    format!(in alloc;
        "it has none of the keys {kinds}, and a statement has exactly one{later}{hint}"
    )
}

/// A question for the known kind that is nearest to a key of the value, the first key that is near to one; or nothing.
fn kind_hint(alloc: Global, known: &[&str], value: &Value) -> Result<String, AllocError> {
    if let Some(members) = value.as_object() {
        for key in members.keys() {
            let hint = hint(alloc, key.as_str(), known)?;
            if !hint.is_empty() {
                return Ok(hint);
            }
        }
    }
    Ok(String::new(alloc))
}

/// The known kinds whose first keys the value has.
fn found_kinds(
    alloc: Global,
    known: &[&'static str],
    value: &Value,
) -> Result<Vec<&'static str>, AllocError> {
    let mut found = Vec::new(alloc);
    for kind in known {
        if value.get(*kind).is_some() {
            found.push(*kind)?;
        }
    }
    Ok(found)
}

/// How a kind of statement is spelled, and its keys, of which the first tells the kind.
#[derive(Clone, Copy)]
struct Form {
    what: &'static str,
    spelled: &'static str,
    keys: &'static [&'static str],
}

/// The kinds of statements, but for a scatter.
const FORMS: &[Form] = &[
    Form {
        what: "a fix",
        spelled: "{\"fix\":SLOT,\"region\":REGION}",
        keys: &["fix", "region"],
    },
    Form {
        what: "an unfix",
        spelled: "{\"unfix\":SLOT}",
        keys: &["unfix"],
    },
    Form {
        what: "a latch",
        spelled: "{\"latch\":SLOT,\"mode\":\"S\" or \"X\"}",
        keys: &["latch", "mode"],
    },
    Form {
        what: "an unlatch",
        spelled: "{\"unlatch\":SLOT}",
        keys: &["unlatch"],
    },
    Form {
        what: "a loop",
        spelled: "{\"body\":[..],\"loop\":N}",
        keys: &["loop", "body"],
    },
    Form {
        what: "a choice",
        spelled: "{\"choice\":[[..],..]}",
        keys: &["choice"],
    },
    Form {
        what: "a gather",
        spelled: "{\"gather\":SLOT,\"region\":REGION}",
        keys: &["gather", "region"],
    },
];

/// A scatter.
const SCATTER: Form = Form {
    what: "a scatter",
    spelled: "{\"scatter\":SLOT}",
    keys: &["scatter"],
};

/// The form of the statement that the value is meant to be.
fn form_of(value: &Value) -> Form {
    for form in FORMS {
        if let Some(key) = form.keys.first() {
            if value.get(*key).is_some() {
                return *form;
            }
        }
    }
    SCATTER
}

/// Other keys than the kind wants, or other kinds of values.
fn wrong_field_text(alloc: Global, statement: Statement<'_>) -> Result<String, AllocError> {
    let form = form_of(statement.value);
    if let Some(key) = stranger(statement.value, form.keys) {
        return strange_field_text(alloc, form, key);
    }
    let Form { what, spelled, .. } = form;
    let fault = field_fault(alloc, statement, form.keys)?;
    format!(in alloc; "{fault}: {what} is {spelled}")
}

/// A key that a statement of this form may not have.
fn strange_field_text(alloc: Global, form: Form, key: &str) -> Result<String, AllocError> {
    let Form {
        what,
        spelled,
        keys,
    } = form;
    let hint = hint(alloc, key, keys)?;
    let key = quoted(alloc, key)?;
    format!(in alloc; "the key {key} doesn't belong here: {what} is {spelled}{hint}")
}

/// The first key of the value that isn't one of these, in the order of bytes.
pub(crate) fn stranger<'v>(value: &'v Value, known: &[&str]) -> Option<&'v str> {
    for key in value.as_object()?.keys() {
        if !known.iter().any(|other| key.as_str() == *other) {
            return Some(key.as_str());
        }
    }
    None
}

/// The first of the keys that isn't there, or whose value is of another kind.
fn field_fault(
    alloc: Global,
    statement: Statement<'_>,
    keys: &[&str],
) -> Result<String, AllocError> {
    for key in keys {
        let Some(found) = statement.value.get(*key) else {
            return format!(in alloc; "the key {key} is missing");
        };
        if !is_of_kind(key, found) {
            let found = statement.shown(alloc, key)?;
            return format!(in alloc; "{key} is {found}");
        }
    }
    String::from_str(alloc, "a key or a value is another one")
}

/// Whether the value is of the kind that the key wants.
fn is_of_kind(key: &str, value: &Value) -> bool {
    match key {
        "body" => value.is_array(),
        "loop" => value.as_u64().is_some(),
        "choice" => match value.as_array() {
            Some(lists) => lists.iter().all(|list| list.is_array()),
            None => false,
        },
        "mode" => matches!(value.as_str(), Some("S" | "X")),
        _ => value.as_str().is_some(),
    }
}

/// A slot's name that isn't in form.
fn bad_name_text(alloc: Global, value: &Value) -> Result<String, AllocError> {
    let slot = quoted(alloc, slot_in(value))?;
    format!(in alloc;
        "{slot} is no name of a slot: that is 1 to 16 of a-z, 0-9 and _, the first a letter"
    )
}

/// A region that the settings don't have.
fn no_region_text(alloc: Global, settings: &Settings, value: &Value) -> Result<String, AllocError> {
    let names = region_names(alloc, settings)?;
    let region = value.get("region").and_then(Value::as_str).unwrap_or("");
    let hint = hint(alloc, region, &names)?;
    let names = listed(alloc, &names)?;
    let region = quoted(alloc, region)?;
    format!(in alloc; "there is no region {region}; the regions are {names}{hint}")
}

/// A loop's count, its empty body, or the number of branches.
fn range_text(alloc: Global, value: &Value) -> Result<String, AllocError> {
    if let Some(branches) = value.get("choice").and_then(Value::as_array) {
        let count = branches.len();
        return format!(in alloc;
            "it has {count} branches: a choice has 1 to 16, of which some may be empty"
        );
    }
    match value.get("loop").and_then(Value::as_u64) {
        Some(count) if count == 0 || count > 65_535 => {
            format!(in alloc; "it has {count} turns: a loop has 1 to 65535")
        }
        _ => String::from_str(
            alloc,
            "its body is empty: a loop's body has a statement or more",
        ),
    }
}

/// One statement too many, or one slot.
fn too_many_text(alloc: Global, number: u32, value: &Value) -> Result<String, AllocError> {
    if number >= MOST_STATEMENTS {
        return format!(in alloc;
            "it is the 4097th: a plan has at most {MOST_STATEMENTS} statements"
        );
    }
    let slot = quoted(alloc, slot_in(value))?;
    format!(in alloc; "{slot} is the 33rd name of a slot: a plan has at most {MOST_SLOTS}")
}

/// A slot that an earlier statement uses as another kind.
fn mixed_text(alloc: Global, plan: &Value, statement: Statement<'_>) -> Result<String, AllocError> {
    let slot = slot_in(statement.value);
    let (kind, other) = if is_of_bundle(statement.value) {
        ("a bundle", "a plain slot")
    } else {
        ("a plain slot", "a bundle")
    };
    let first = first_text(alloc, statement.text, plan, slot)?;
    let slot = quoted(alloc, slot)?;
    format!(in alloc;
        "{slot} is {kind} here, and {other} in {first}: in the whole plan a slot is the one or the other"
    )
}

/// The first statement that uses the slot.
fn first_text(alloc: Global, text: &str, plan: &Value, slot: &str) -> Result<String, AllocError> {
    if let Some((number, steps)) = first_use(alloc, plan, slot)? {
        if let Some(first) = Statement::at(text, plan, number, &steps) {
            return first.named(alloc);
        }
    }
    String::from_str(alloc, "an earlier statement")
}
