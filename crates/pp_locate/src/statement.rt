//! A statement as an explanation shows it.

use crate::said::{Said, said_at, shown_at};
use crate::steps::{Step, steps_text, value_at};
use serde_json::Value;
use std::alloc::{AllocError, Global};

/// A statement of a plan's text.
#[derive(Clone, Copy)]
pub struct Statement<'a> {
    /// The plan's text.
    pub text: &'a str,
    /// Its number, from 0 in the order in which statements begin.
    pub number: u32,
    /// The way to it in the plan's value.
    pub steps: &'a [Step<'static>],
    /// The value.
    pub value: &'a Value,
}

impl<'a> Statement<'a> {
    /// The statement that the steps lead to in the plan of this text and value, if they lead to one.
    pub fn at(
        text: &'a str,
        plan: &'a Value,
        number: u32,
        steps: &'a [Step<'static>],
    ) -> Option<Statement<'a>> {
        let value = value_at(plan, steps)?;
        Some(Statement {
            text,
            number,
            steps,
            value,
        })
    }

    /// Its number, where it stands, and its text, as in `statement 1 at body[1], {"unfix":"a"}`.
    pub fn named(&self, alloc: Global) -> Result<String, AllocError> {
        let number = self.number;
        let place = steps_text(alloc, self.steps)?;
        let text = shown_at(alloc, self.text, self.steps)?;
        format!(in alloc; "statement {number} at {place}, {text}")
    }

    /// The way to what this step leads to in it, or to itself.
    fn way<'s>(&self, alloc: Global, field: Option<Step<'s>>) -> Result<Vec<Step<'s>>, AllocError> {
        let mut way = Vec::from_slice(alloc, self.steps)?;
        if let Some(field) = field {
            way.push(field)?;
        }
        Ok(way)
    }

    /// The value at the key, as it stands in the text.
    pub fn shown(&self, alloc: Global, key: &str) -> Result<String, AllocError> {
        let way = self.way(alloc, Some(Step::Key(key)))?;
        shown_at(alloc, self.text, &way)
    }

    /// This, said of it, at what the step leads to in it where there is one.
    pub fn said(
        &self,
        alloc: Global,
        field: Option<Step<'_>>,
        what: &str,
    ) -> Result<Said, AllocError> {
        let named = self.named(alloc)?;
        let what = format!(in alloc; "{named}: {what}")?;
        let way = self.way(alloc, field)?;
        said_at(alloc, self.text, &way, what)
    }
}

/// The first key of the statement whose value is the name of a slot, be it a page's or a bundle's.
pub fn slot_key(value: &Value) -> Option<&'static str> {
    for key in ["fix", "unfix", "latch", "unlatch", "gather", "scatter"] {
        if value.get(key).and_then(Value::as_str).is_some() {
            return Some(key);
        }
    }
    None
}

/// The name of the slot that the statement has.
pub fn slot_in(value: &Value) -> &str {
    match slot_key(value) {
        Some(key) => value.get(key).and_then(Value::as_str).unwrap_or(""),
        None => "",
    }
}
