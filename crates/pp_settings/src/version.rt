//! The two versions of a settings text.

ghost use Rattle.std.specs.Prelude.{◌≡◌, ◌≤◌, Some};
ghost use Rattle.toml.specs.View.{view, table_view};
ghost use Rattle.pp_settings.specs.Versions.{is_two, is_second, version_of, page_limit};

use crate::key::TopKey;
use crate::limits::{FIRST_PAGE_NUMBERS, PAGE_NUMBERS};
use toml::{Table, Value};

/// A version of the settings text.
#[derive(Clone, Copy, Debug, PartialEq, Eq)]
pub enum TextVersion {
    /// Any other text than one of version 2. Where it gives settings it has no key `version`, its pools are small, and their
    /// lives bounded.
    One,
    /// A text whose key `version` holds the whole number 2. Its pools may be large, and their lives endless.
    Two,
}

impl TextVersion {
    /// The version of a document: two exactly where its key `version` holds the whole number 2.
    pub fn of(document: &Table) -> TextVersion
        ensures { result ≡ version_of (table_view document.now) }
    {
        if is_second(document) {
            TextVersion::Two
        } else {
            TextVersion::One
        }
    }

    /// How many page numbers there are in a text of the version: pages are numbered below it.
    pub fn page_numbers(self) -> u32
        ensures is { result ≡ page_limit self }
        ensures within { (65536 ≤ result) × (result ≤ 4294967292) }
    {
        match self {
            TextVersion::One => FIRST_PAGE_NUMBERS,
            TextVersion::Two => PAGE_NUMBERS,
        }
    }
}

fn is_second(document: &Table) -> bool
    ensures { result ≡ is_second (table_view document.now) }
{
    match document.get(TopKey::Version.name()) {
        Some(value) => is_two(value),
        None => false,
    }
}

fn is_two(value: &Value) -> bool
    ensures { result ≡ is_two (Some (view value.now)) }
{
    match value.as_integer() {
        Some(number) => number == 2,
        None => false,
    }
}
