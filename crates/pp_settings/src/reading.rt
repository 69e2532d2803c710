//! Reads settings from a document, key by key in the order of the refusals.

ghost use Rattle.std.specs.Prelude.{◌≡◌, ◌≤◌, ◌<◌, ◌+◌, [], length, IfOk, string_bytes, IsTrue, List};
ghost use Rattle.std.specs.Option.{ok_or};
ghost use Rattle.std.specs.List.{list_all, list_any};
ghost use Rattle.std.specs.BTreeMap.{keys};
ghost use Rattle.toml.specs.Parse.{parse_document};
ghost use Rattle.toml.specs.View.{view, table_view, items_view};
ghost use Rattle.pp_text.specs.Steps.{Gives, Reads};
ghost use Rattle.pp_settings.specs.declared.error.SettingsError.TheVariants.{NotToml};
ghost use Rattle.pp_settings.specs.Settings.{NamedRegion};
ghost use Rattle.pp_settings.specs.Refusals.{is_settings_memory};
ghost use Rattle.pp_settings.specs.Views.{drafted, entered};
ghost use Rattle.pp_settings.specs.Reading.{is_known, only_known, value_at, number_at, name_at, extent_at, region_at};
ghost use Rattle.pp_settings.specs.Reading.{has_name, shares_page_with, beside, next_region, regions_from, are_tables};
ghost use Rattle.pp_settings.specs.Reading.{are_regions, tables_at, first_of, second_of, configuration_of};

use crate::error::SettingsError;
use crate::extent::Extent;
use crate::key::{RegionKey, Spot, TopKey};
use crate::limits::{
    FEWEST_PAGE_BYTES, FIRST_FRAMES, FIRST_PAGE_BYTES, FIRST_WORKERS, GREATEST_CLASS, MOST_FLUSHES,
    MOST_FRAMES, MOST_PAGE_BYTES, MOST_REGIONS, MOST_WAITING, MOST_WORKERS, SECOND_PAGE_BYTES,
};
use crate::names::{is_known, is_region_name};
use crate::regions::Regions;
use crate::span::Span;
use crate::version::TextVersion;
use std::alloc::Global;
use toml::{Table, Value};

/// What a document gives, before it is known to be within the limits.
#[derive(Debug, Drop)]
pub(crate) struct Draft {
    pub(crate) frames: u32,
    pub(crate) page_bytes: u32,
    pub(crate) workers: u32,
    pub(crate) span: Span,
    pub(crate) flushes: u64,
    pub(crate) regions: Regions,
}

/// A region as the text has it, before its name is kept.
#[derive(Clone, Copy)]
struct Entry<'a> {
    name: &'a str,
    extent: Extent,
}

fn value_at(table: &Table, spot: Spot) -> Result<&Value, SettingsError>
    ensures { Reads (λ v. view v.now) result (value_at spot (table_view table.now)) }
{
    table.get(spot.key()).ok_or(SettingsError::Missing(spot))
}

#[tactic(auto, unfolding(crate::specs::Reading::number_at))]
fn long_at(table: &Table, spot: Spot, low: u64, high: u64) -> Result<u64, SettingsError>
    ensures gives { Reads (λ n. n) result (number_at spot low high (table_view table.now)) }
    ensures within { IfOk result (λ n. (low ≤ n) × (n ≤ high)) }
{
    match value_at(table, spot)?.as_integer() {
        Some(n) if 0 <= n && low <= n as u64 && n as u64 <= high => Ok(n as u64),
        _ => Err(SettingsError::Range(spot)),
    }
}

fn number_at(table: &Table, spot: Spot, low: u32, high: u32) -> Result<u32, SettingsError>
    ensures gives { Reads (λ n. n) result (number_at spot low high (table_view table.now)) }
    ensures within { IfOk result (λ n. (low ≤ n) × (n ≤ high)) }
{
    let number = long_at(table, spot, u64::from(low), u64::from(high))?;
    Ok(number as u32)
}

#[tactic(auto, unfolding(crate::specs::Reading::name_at))]
fn name_at(table: &Table, spot: Spot) -> Result<&str, SettingsError>
    ensures { Reads (λ s. s.now) result (name_at spot (table_view table.now)) }
{
    match value_at(table, spot)?.as_str() {
        Some(name) if is_region_name(name) => Ok(name),
        _ => Err(SettingsError::Range(spot)),
    }
}

fn has_known_keys(table: &Table, version: TextVersion, region: Option<u8>) -> bool
    ensures { result ≡ list_all (λ k. is_known version region (string_bytes k)) (keys table.now) }
{
    table
        .keys()
        .all(|key| is_known(version, region, key.as_str()))
}

fn only_known(table: &Table, version: TextVersion, region: Option<u8>) -> Result<(), SettingsError>
    ensures { Reads (λ _. tt) result (only_known version region (table_view table.now)) }
{
    if !has_known_keys(table, version, region) {
        return Err(SettingsError::Unknown(region));
    }
    Ok(())
}

#[tactic(auto, unfolding(crate::specs::Reading::extent_at))]
fn extent_at(table: &Table, version: TextVersion, region: u8) -> Result<Extent, SettingsError>
    ensures { Reads (λ e. e) result (extent_at version region (table_view table.now)) }
{
    let pages = version.page_numbers();
    let first = number_at(
        table,
        Spot::InRegion(region, RegionKey::First),
        0,
        pages - 1,
    )?;
    let room = pages - first;
    let count = number_at(table, Spot::InRegion(region, RegionKey::Count), 1, room)?;
    let class = number_at(
        table,
        Spot::InRegion(region, RegionKey::Class),
        0,
        GREATEST_CLASS,
    )?;
    Ok(Extent {
        first,
        count,
        class: class as u8,
    })
}

#[tactic(auto, unfolding(crate::specs::Reading::region_at))]
fn region_at(table: &Table, version: TextVersion, region: u8) -> Result<Entry<'_>, SettingsError>
    ensures { Reads entered result (region_at version region (table_view table.now)) }
{
    only_known(table, version, Some(region))?;
    let name = name_at(table, Spot::InRegion(region, RegionKey::Name))?;
    let extent = extent_at(table, version, region)?;
    Ok(Entry { name, extent })
}

#[tactic(auto, unfolding(crate::specs::Reading::beside))]
fn beside(earlier: &Regions, entry: &Entry<'_>) -> Result<(), SettingsError>
    ensures { Reads (λ _. tt) result (beside earlier.now (entered entry.now)) }
{
    let number = earlier.len();
    if earlier.has_name(entry.name) {
        return Err(SettingsError::SameName(number));
    }
    if earlier.shares_page(&entry.extent) {
        return Err(SettingsError::Overlap(number));
    }
    Ok(())
}

#[tactic(auto, unfolding(crate::specs::Reading::next_region))]
fn next_region<'a>(
    version: TextVersion,
    earlier: &Regions,
    value: &'a Value,
) -> Result<Entry<'a>, SettingsError>
    ensures { Reads entered result (next_region version earlier.now (view value.now)) }
{
    let table = match value.as_table() {
        Some(table) => table,
        None => return Err(SettingsError::Range(Spot::Top(TopKey::Region))),
    };
    let entry = region_at(table, version, earlier.len())?;
    beside(earlier, &entry)?;
    Ok(entry)
}

fn regions_of(
    alloc: Global,
    version: TextVersion,
    items: &[Value],
) -> Result<Regions, SettingsError>
    requires { length items.now ≤ 64 }
    ensures { Gives is_settings_memory (λ (rs : List NamedRegion). rs) result
        (regions_from version [] (items_view items.now)) }
{
    let mut regions = Regions::new(alloc);
    for value in items {
        let entry = next_region(version, &regions, value)?;
        regions.push(alloc, entry.name, entry.extent)?;
    }
    Ok(regions)
}

fn are_tables(items: &[Value]) -> bool
    ensures { result ≡ are_tables (items_view items.now) }
{
    items.iter().all(|value| value.is_table())
}

#[tactic(auto, using(crate::proofs::Trees::table_count_view))]
fn are_regions(items: &[Value]) -> bool
    ensures is { result ≡ are_regions (items_view items.now) }
    ensures within { IsTrue result → length items.now ≤ 64 }
{
    if items.is_empty() || MOST_REGIONS < items.len() {
        return false;
    }
    are_tables(items)
}

#[tactic(auto, unfolding(crate::specs::Reading::tables_at))]
fn tables_at(table: &Table, spot: Spot) -> Result<&[Value], SettingsError>
    ensures gives { Reads (λ s. items_view s.now) result (tables_at spot (table_view table.now)) }
    ensures within { IfOk result (λ s. length s.now ≤ 64) }
{
    match value_at(table, spot)?.as_array() {
        Some(items) if are_regions(items) => Ok(items),
        _ => Err(SettingsError::Range(spot)),
    }
}

/// What a document of version 1 gives.
#[tactic(auto, unfolding(crate::specs::Reading::first_of))]
fn first_of(alloc: Global, table: &Table) -> Result<Draft, SettingsError>
    ensures { Gives is_settings_memory drafted result (first_of (table_view table.now)) }
{
    only_known(table, TextVersion::One, None)?;
    let frames = number_at(table, Spot::Top(TopKey::Frames), 1, FIRST_FRAMES)?;
    let page_bytes = number_at(
        table,
        Spot::Top(TopKey::PageBytes),
        FEWEST_PAGE_BYTES,
        FIRST_PAGE_BYTES,
    )?;
    let workers = number_at(table, Spot::Top(TopKey::Workers), 1, FIRST_WORKERS)?;
    let flushes = long_at(table, Spot::Top(TopKey::Flushes), 0, MOST_FLUSHES)?;
    let tables = tables_at(table, Spot::Top(TopKey::Region))?;
    let regions = regions_of(alloc, TextVersion::One, tables)?;
    Ok(Draft {
        frames,
        page_bytes,
        workers,
        span: Span::Bounded,
        flushes,
        regions,
    })
}

/// What a document of version 2 gives.
#[tactic(auto, unfolding(crate::specs::Reading::second_of))]
fn second_of(alloc: Global, table: &Table) -> Result<Draft, SettingsError>
    ensures { Gives is_settings_memory drafted result (second_of (table_view table.now)) }
{
    only_known(table, TextVersion::Two, None)?;
    let frames = number_at(table, Spot::Top(TopKey::Frames), 1, MOST_FRAMES)?;
    let page_bytes = number_at(
        table,
        Spot::Top(TopKey::PageBytes),
        SECOND_PAGE_BYTES,
        MOST_PAGE_BYTES,
    )?;
    let workers = number_at(table, Spot::Top(TopKey::Workers), 1, MOST_WORKERS)?;
    let waiting = number_at(table, Spot::Top(TopKey::Waiting), 0, MOST_WAITING)?;
    let span = Span::of_waiting(waiting);
    let flushes = long_at(table, Spot::Top(TopKey::Flushes), 0, span.most_flushes())?;
    let tables = tables_at(table, Spot::Top(TopKey::Region))?;
    let regions = regions_of(alloc, TextVersion::Two, tables)?;
    Ok(Draft {
        frames,
        page_bytes,
        workers,
        span,
        flushes,
        regions,
    })
}

pub(crate) fn draft_of(alloc: Global, table: &Table) -> Result<Draft, SettingsError>
    ensures { Gives is_settings_memory drafted result (configuration_of (table_view table.now)) }
{
    match TextVersion::of(table) {
        TextVersion::One => first_of(alloc, table),
        TextVersion::Two => second_of(alloc, table),
    }
}

/// The text's document, as the TOML reader gives it.
pub(crate) fn document_of(alloc: Global, text: &str) -> Result<Table, SettingsError>
    ensures { Gives is_settings_memory table_view result (ok_or (parse_document text.now) NotToml) }
{
    match toml::table_from_str(alloc, text) {
        Ok(table) => Ok(table),
        Err(error) if error.is_memory() => Err(SettingsError::OutOfMemory),
        Err(_) => Err(SettingsError::NotToml),
    }
}
