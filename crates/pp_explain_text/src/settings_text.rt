//! Refusals of settings.

use crate::settings_places::{Wanted, place_in};
use pp_locate::{Said, hint, listed, no_text, quoted, spot_at, text_of};
use pp_settings::limits::{
    FEWEST_PAGE_BYTES, FIRST_FRAMES, FIRST_PAGE_BYTES, FIRST_WORKERS, GREATEST_CLASS, LONGEST_NAME,
    MOST_ENDLESS_FLUSHES, MOST_FLUSHES, MOST_FRAMES, MOST_PAGE_BYTES, MOST_REGIONS, MOST_WAITING,
    MOST_WORKERS, SECOND_PAGE_BYTES,
};
use pp_settings::{RegionKey, Settings, SettingsError, Spot, TextVersion, TopKey};
use std::alloc::{AllocError, Global};
use toml::{Table, Value};

/// The keys of a document of version 1.
const FIRST_KEYS: [&str; 5] = ["frames", "page_bytes", "workers", "flushes", "region"];

/// The keys of a document of version 2.
const SECOND_KEYS: [&str; 7] = [
    "version",
    "frames",
    "page_bytes",
    "workers",
    "waiting",
    "flushes",
    "region",
];

/// The keys of a region.
const REGION_KEYS: [&str; 4] = ["name", "first", "count", "class"];

/// What is said of settings whose lives have no end.
const OTHER_LIFE: &str =
    "waiting is more than 0, so lives have no end: this command serves bounded ones alone, \
    and with waiting = 0 they are bounded";

/// What is said of the bytes of settings that are refused so.
pub fn settings_said(
    alloc: Global,
    bytes: &[u8],
    error: SettingsError,
) -> Result<Said, AllocError> {
    let text = match text_of(bytes) {
        Ok(text) => text,
        Err(spot) => return no_text(alloc, spot, "TOML"),
    };
    match toml::table_from_str(alloc, text) {
        Ok(table) => table_said(alloc, text, &table, error),
        Err(refused) => no_toml(alloc, text, &refused),
    }
}

/// What is said of the bytes of settings whose lives have no end, where bounded ones alone are served.
pub fn other_life_said(alloc: Global, bytes: &[u8]) -> Result<Said, AllocError> {
    match text_of(bytes) {
        Ok(text) => Ok(Said {
            spot: place_in(text, Wanted::Key("waiting")).map(|offset| spot_at(bytes, offset)),
            text: String::from_str(alloc, OTHER_LIFE)?,
        }),
        Err(spot) => no_text(alloc, spot, "TOML"),
    }
}

/// What is said of the document of this text.
fn table_said(
    alloc: Global,
    text: &str,
    table: &Table,
    error: SettingsError,
) -> Result<Said, AllocError> {
    Ok(Said {
        spot: offset_of(text, table, error).map(|offset| spot_at(text.as_bytes(), offset)),
        text: table_text(alloc, table, error)?,
    })
}

/// How many bytes of the text stand before what is at fault: a key, or the head of a region. A key of the document that is
/// missing is so from its beginning on.
fn offset_of(text: &str, table: &Table, error: SettingsError) -> Option<usize> {
    match error {
        SettingsError::Missing(Spot::Top(_)) => Some(0),
        SettingsError::Missing(Spot::InRegion(region, _)) => head_of(text, region),
        SettingsError::Range(spot) => match spot {
            Spot::Top(_) => place_in(text, Wanted::Key(spot.key())),
            Spot::InRegion(region, _) => key_of(text, region, spot.key()),
        },
        SettingsError::Unknown(None) => place_in(text, Wanted::Key(top_stranger(table)?)),
        SettingsError::Unknown(Some(region)) => {
            let found = region_at(table, usize::from(region))?;
            key_of(text, region, stranger(found, &REGION_KEYS)?)
        }
        SettingsError::Overlap(region) => head_of(text, region),
        SettingsError::SameName(region) => key_of(text, region, "name"),
        SettingsError::NotToml | SettingsError::OutOfMemory => None,
    }
}

/// Where the region begins.
fn head_of(text: &str, region: u8) -> Option<usize> {
    place_in(text, Wanted::Head(usize::from(region)))
}

/// Where the key stands in the region; the region's head where it isn't found.
fn key_of(text: &str, region: u8, key: &str) -> Option<usize> {
    match place_in(text, Wanted::RegionKey(usize::from(region), key)) {
        Some(place) => Some(place),
        None => head_of(text, region),
    }
}

/// What is said of a text that is no TOML: the reader's own words.
fn no_toml(alloc: Global, text: &str, refused: &toml::de::Error) -> Result<Said, AllocError> {
    let Some(range) = refused.span() else {
        return Err(AllocError);
    };
    Ok(Said {
        spot: Some(spot_at(text.as_bytes(), range.start)),
        text: format!(in alloc; "the text is no TOML: {}", refused.message())?,
    })
}

/// What is said of the document.
fn table_text(alloc: Global, table: &Table, error: SettingsError) -> Result<String, AllocError> {
    match error {
        SettingsError::NotToml => String::from_str(alloc, "the text is no TOML"),
        SettingsError::Missing(spot) => missing_text(alloc, table, spot),
        SettingsError::Unknown(region) => unknown_text(alloc, table, region),
        SettingsError::Range(spot) => range_text(alloc, table, spot),
        SettingsError::Overlap(region) => overlap_text(alloc, table, region),
        SettingsError::SameName(region) => same_name_text(alloc, table, region),
        SettingsError::OutOfMemory => Err(AllocError),
    }
}

/// The table of the region with this number, if the document has it.
fn region_at(table: &Table, region: usize) -> Option<&Table> {
    table.get("region")?.as_array()?.get(region)?.as_table()
}

/// The region with this number, and its name, if it has one.
fn region_text(alloc: Global, table: &Table, region: u8) -> Result<String, AllocError> {
    let name = match region_at(table, usize::from(region)) {
        Some(found) => found.get("name").and_then(Value::as_str),
        None => None,
    };
    match name {
        Some(name) => format!(in alloc; "region {region}, {}", quoted(alloc, name)?),
        None => format!(in alloc; "region {region}"),
    }
}

/// Where the key stands: nothing for a key of the document itself.
fn prefix_of(alloc: Global, table: &Table, spot: Spot) -> Result<String, AllocError> {
    match spot {
        Spot::Top(_) => Ok(String::new(alloc)),
        Spot::InRegion(region, _) => {
            format!(in alloc; "{}: ", region_text(alloc, table, region)?)
        }
    }
}

/// What the value at the key is to be.
fn rule_of(alloc: Global, table: &Table, spot: Spot) -> Result<String, AllocError> {
    match spot {
        Spot::Top(key) => top_rule(alloc, table, key),
        Spot::InRegion(_, RegionKey::Name) => {
            format!(in alloc; "a text of 1 to {LONGEST_NAME} of a-z, 0-9 and _, the first a letter")
        }
        Spot::InRegion(_, RegionKey::First) => {
            let pages = TextVersion::of(table).page_numbers();
            number_rule(alloc, 0, u64::from(pages - 1))
        }
        Spot::InRegion(region, RegionKey::Count) => count_rule(alloc, table, region),
        Spot::InRegion(_, RegionKey::Class) => number_rule(alloc, 0, u64::from(GREATEST_CLASS)),
    }
}

/// What the value at a key of the document is to be.
fn top_rule(alloc: Global, table: &Table, key: TopKey) -> Result<String, AllocError> {
    let version = TextVersion::of(table);
    match key {
        TopKey::Version => number_rule(alloc, 2, 2),
        TopKey::Frames => number_rule(alloc, 1, limit_in(version, FIRST_FRAMES, MOST_FRAMES)),
        TopKey::PageBytes => {
            let fewest = limit_in(version, FEWEST_PAGE_BYTES, SECOND_PAGE_BYTES);
            let most = limit_in(version, FIRST_PAGE_BYTES, MOST_PAGE_BYTES);
            number_rule(alloc, fewest, most)
        }
        TopKey::Workers => number_rule(alloc, 1, limit_in(version, FIRST_WORKERS, MOST_WORKERS)),
        TopKey::Waiting => number_rule(alloc, 0, u64::from(MOST_WAITING)),
        TopKey::Flushes => flushes_rule(alloc, table),
        TopKey::Region => {
            format!(in alloc; "a list of 1 to {MOST_REGIONS} tables, each `[[region]]`")
        }
    }
}

/// The limit that texts of the version have.
fn limit_in(version: TextVersion, first: u32, second: u32) -> u64 {
    match version {
        TextVersion::One => u64::from(first),
        TextVersion::Two => u64::from(second),
    }
}

/// How many flushes a life may begin that lasts as long as the document says.
fn flushes_rule(alloc: Global, table: &Table) -> Result<String, AllocError> {
    match (TextVersion::of(table), waiting_in(table)) {
        (TextVersion::One, _) => number_rule(alloc, 0, MOST_FLUSHES),
        (TextVersion::Two, Some(0)) => format!(in alloc;
            "a whole number from 0 to {MOST_FLUSHES}, since waiting is 0 and a life is bounded"
        ),
        (TextVersion::Two, _) => number_rule(alloc, 0, MOST_ENDLESS_FLUSHES),
    }
}

/// The whole number at `waiting`, if there is one.
fn waiting_in(table: &Table) -> Option<i64> {
    table.get("waiting")?.as_integer()
}

/// A number within limits.
fn number_rule(alloc: Global, low: u64, high: u64) -> Result<String, AllocError> {
    format!(in alloc; "a whole number from {low} to {high}")
}

/// How many pages a region has that begins where this one does.
fn count_rule(alloc: Global, table: &Table, region: u8) -> Result<String, AllocError> {
    let pages = TextVersion::of(table).page_numbers();
    match number_in(table, region, "first") {
        Some(first) if 0 <= first && first < i64::from(pages) => {
            let most = i64::from(pages) - first;
            format!(in alloc;
                "a whole number from 1 to {most}, since first is {first} and pages are below {pages}"
            )
        }
        _ => format!(in alloc; "a whole number of 1 or more; first plus count is at most {pages}"),
    }
}

/// The whole number at the key of a region, if there is one.
fn number_in(table: &Table, region: u8, key: &str) -> Option<i64> {
    region_at(table, usize::from(region))?
        .get(key)?
        .as_integer()
}

/// A key isn't there.
fn missing_text(alloc: Global, table: &Table, spot: Spot) -> Result<String, AllocError> {
    let prefix = prefix_of(alloc, table, spot)?;
    let rule = rule_of(alloc, table, spot)?;
    let key = spot.key();
    format!(in alloc; "{prefix}the key {key} is missing: it is {rule}")
}

/// A value is of another kind, or out of its limits.
fn range_text(alloc: Global, table: &Table, spot: Spot) -> Result<String, AllocError> {
    let prefix = prefix_of(alloc, table, spot)?;
    let found = found_text(alloc, table, spot)?;
    let rule = rule_of(alloc, table, spot)?;
    let key = spot.key();
    format!(in alloc; "{prefix}{key}{found} is to be {rule}")
}

/// What the value at the key is, as in ` is 5: it`; nothing where there is none.
fn found_text(alloc: Global, table: &Table, spot: Spot) -> Result<String, AllocError> {
    match found_at(table, spot) {
        Some(value) => {
            let value = value_text(alloc, value)?;
            format!(in alloc; " is {value}: it")
        }
        None => Ok(String::new(alloc)),
    }
}

/// The value at the key, if there is one.
fn found_at(table: &Table, spot: Spot) -> Option<&Value> {
    match spot {
        Spot::Top(_) => table.get(spot.key()),
        Spot::InRegion(region, _) => region_at(table, usize::from(region))?.get(spot.key()),
    }
}

/// A value as its text has it, or what kind of value it is.
fn value_text(alloc: Global, value: &Value) -> Result<String, AllocError> {
    match value {
        Value::Integer(number) => format!(in alloc; "{number}"),
        Value::String(text) => quoted(alloc, text.as_str()),
        Value::Boolean(truth) => format!(in alloc; "{truth}"),
        Value::Float(_) => String::from_str(alloc, "a number with a fraction or an exponent"),
        Value::Datetime(_) => String::from_str(alloc, "a date or a time"),
        Value::Array(items) => format!(in alloc; "a list of {}", items.len()),
        Value::Table(_) => String::from_str(alloc, "a table"),
    }
}

/// The document, or a region, has a key that isn't known.
fn unknown_text(alloc: Global, table: &Table, region: Option<u8>) -> Result<String, AllocError> {
    match region {
        None => match TextVersion::of(table) {
            TextVersion::One => first_stranger_text(alloc, table),
            TextVersion::Two => {
                stranger_text(alloc, table, "settings of version 2 have", &SECOND_KEYS)
            }
        },
        Some(region) => {
            let prefix = region_text(alloc, table, region)?;
            match region_at(table, usize::from(region)) {
                Some(found) => {
                    let rest = stranger_text(alloc, found, "a region has", &REGION_KEYS)?;
                    format!(in alloc; "{prefix}: {rest}")
                }
                None => format!(in alloc; "{prefix}: a key isn't known"),
            }
        }
    }
}

/// The document of version 1 has a key that isn't known, or one of another version.
fn first_stranger_text(alloc: Global, table: &Table) -> Result<String, AllocError> {
    if let Some(version) = table.get("version") {
        let version = value_text(alloc, version)?;
        return format!(in alloc;
            "version is {version}: the only version that a text names is the whole number 2, and one of version 1 has no such key"
        );
    }
    if stranger(table, &FIRST_KEYS) == Some("waiting") {
        return String::from_str(
            alloc,
            "the key waiting is one of settings of version 2 alone, whose first key is version = 2",
        );
    }
    stranger_text(alloc, table, "settings have", &FIRST_KEYS)
}

/// The first key of the table that isn't known, and those that are.
fn stranger_text(
    alloc: Global,
    table: &Table,
    whose: &str,
    known: &[&str],
) -> Result<String, AllocError> {
    let keys = listed(alloc, known)?;
    match stranger(table, known) {
        Some(key) => {
            let hint = hint(alloc, key, known)?;
            let key = quoted(alloc, key)?;
            format!(in alloc; "the key {key} isn't known: {whose} the keys {keys}{hint}")
        }
        None => format!(in alloc; "a key isn't known: {whose} the keys {keys}"),
    }
}

/// The key of the document that its version doesn't have, the first of them.
fn top_stranger(table: &Table) -> Option<&str> {
    match TextVersion::of(table) {
        TextVersion::One => first_stranger(table),
        TextVersion::Two => stranger(table, &SECOND_KEYS),
    }
}

/// The key that a document of version 1 doesn't have: `version` where it stands there, and else the first in the order of bytes.
fn first_stranger(table: &Table) -> Option<&str> {
    if table.get("version").is_some() {
        return Some("version");
    }
    stranger(table, &FIRST_KEYS)
}

/// The first key of the table that isn't one of these, in the order of bytes.
fn stranger<'t>(table: &'t Table, known: &[&str]) -> Option<&'t str> {
    for key in table.keys() {
        if !known.iter().any(|other| key.as_str() == *other) {
            return Some(key.as_str());
        }
    }
    None
}

/// The first and the last page of a region, if it has both.
fn pages_in(table: &Table, region: u8) -> Option<(i64, i64)> {
    let first = number_in(table, region, "first")?;
    let count = number_in(table, region, "count")?;
    Some((first, first.saturating_add(count).saturating_sub(1)))
}

/// The first of so many regions that has one of the pages from the first to the last; and its own first and last.
fn overlapped(table: &Table, regions: u8, first: i64, last: i64) -> Option<(u8, i64, i64)> {
    for other in 0..regions {
        if let Some((start, end)) = pages_in(table, other) {
            if start <= last && first <= end {
                return Some((other, start, end));
            }
        }
    }
    None
}

/// A region has a page of an earlier one.
fn overlap_text(alloc: Global, table: &Table, region: u8) -> Result<String, AllocError> {
    let own = region_text(alloc, table, region)?;
    if let Some((first, last)) = pages_in(table, region) {
        if let Some((other, start, end)) = overlapped(table, region, first, last) {
            let other = region_text(alloc, table, other)?;
            return format!(in alloc;
                "{own}, has the pages {first} to {last}, and {other}, has {start} to {end}: \
                no two regions share a page"
            );
        }
    }
    format!(in alloc; "{own}, has a page of an earlier region: no two regions share a page")
}

/// A region has the name of an earlier one.
fn same_name_text(alloc: Global, table: &Table, region: u8) -> Result<String, AllocError> {
    let own = region_text(alloc, table, region)?;
    match same_named(table, region) {
        Some(other) => format!(in alloc;
            "{own}: region {other} has this name too, and no two have the same"
        ),
        None => format!(in alloc;
            "{own}: an earlier region has this name, and no two have the same"
        ),
    }
}

/// The first region that has the name of this one.
fn same_named(table: &Table, region: u8) -> Option<u8> {
    let name = name_in(table, region)?;
    for other in 0..region {
        if name_in(table, other) == Some(name) {
            return Some(other);
        }
    }
    None
}

/// The name of a region, if it has one.
fn name_in(table: &Table, region: u8) -> Option<&str> {
    region_at(table, usize::from(region))?.get("name")?.as_str()
}
