//! Settings, and what they say.

ghost use Rattle.std.specs.Prelude.{◌≡◌, ◌≢◌, ◌-◌, ◌≤◌, ◌<◌, ℕ, Ok, Some, IfOk, IfErr, IfSome, is_ok, length};
ghost use Rattle.pp_settings.specs.Limits.{most_frames, fewest_page_bytes, most_page_bytes, most_workers};
ghost use Rattle.toml.specs.Parse.{parse_document};
ghost use Rattle.pp_text.specs.Steps.{Gives};
ghost use Rattle.pp_text.specs.First.{IsFirst};
ghost use Rattle.pp_settings.specs.declared.error.SettingsError.{SettingsError};
ghost use Rattle.pp_settings.specs.declared.error.SettingsError.TheVariants.{OutOfMemory};
ghost use Rattle.pp_settings.specs.Faults.{HasFault, order};
ghost use Rattle.pp_settings.specs.Layout.{HasPage, TellsClass, IsLayout, region_of, class_of, page_count};
ghost use Rattle.pp_settings.specs.Settings.{Configuration, IsConfiguration, geometry_of, region_named, name_of};
ghost use Rattle.pp_settings.specs.Spans.{IsSpan, flush_limit, is_bounded};
ghost use Rattle.pp_settings.specs.declared.span.Span.TheVariants.{Bounded};
ghost use Rattle.pp_settings.specs.Spelling.{IsText};
ghost use Rattle.pp_settings.specs.Reading.{reading};
ghost use Rattle.pp_settings.specs.Refusals.{is_settings_memory};
ghost use Rattle.pp_settings.specs.Views.{drafted};

use crate::error::{OtherLife, SettingsError};
use crate::layout::Layout;
use crate::reading::{Draft, document_of, draft_of};
use crate::span::Span;
use std::alloc::Global;
use std::marker::Model;

/// The settings of a pool, within their limits.
///
/// A pool has 1 to 16,777,216 frames and 1 to 1,024 workers. A page has 64 to 1,048,576 bytes. A bounded life begins at
/// most 100,000 flushes, and an endless one at most 2^59. There are 1 to 64 regions. No two have the same name, and no
/// two share a page. A region's number is its place in the text, from 0.
///
/// A text of version 1 has narrower limits: at most 4,096 frames, 32 workers, 65,536 bytes of a page, and pages below 65,536;
/// its lives are bounded. A text of version 2 has at least 512 bytes of a page.
#[derive(Debug)]
pub struct Settings {
    page_bytes: u32,
    workers: u32,
    span: Span,
    flushes: u64,
    layout: Layout,
    names: Vec<String>,
}

// By hand, so that code that lets one go calls this, and doesn't let each field go anew.
impl Drop for Settings {
    fn drop(self) {
        let Settings {
            page_bytes: _,
            workers: _,
            span: _,
            flushes: _,
            layout: _,
            names: _,
        } = self;
    }
}

impl Model for Settings {
    ghost use Rattle.pp_settings.specs.Settings.{Configuration};

    ghost Value = { Configuration };

    ghost use Rattle.pp_settings.specs.Kept.{configured, IsKept};

    ghost view = { configured };

    ghost invariant = { IsKept };
}

fn read(alloc: Global, text: &str) -> Result<Settings, SettingsError>
    ensures { Gives is_settings_memory (λ (c : Configuration). c) result (reading text.now) }
{
    let document = document_of(alloc, text)?;
    let draft = draft_of(alloc, &document)?;
    Ok(settled(draft))
}

/// The settings that were read.
fn settled(draft: Draft) -> Settings
    requires { IsConfiguration (drafted draft) }
    ensures { result ≡ drafted draft }
{
    let regions = draft.regions;
    Settings {
        page_bytes: draft.page_bytes,
        workers: draft.workers,
        span: draft.span,
        flushes: draft.flushes,
        layout: Layout::new(draft.frames, regions.extents),
        names: regions.names,
    }
}

impl Settings {
    /// Reads settings from a text.
    ///
    /// A text is of version 2 exactly where it is TOML whose key `version` holds the whole number 2; any other is of
    /// version 1. Accepts a text if and only if it is TOML with every setting of its version, in range, and no other key,
    /// unless memory runs out. Answers any other text with the first error in the fixed order of [`SettingsError`].
    pub fn from_text(alloc: Global, text: &str) -> Result<Settings, SettingsError>
        // What is accepted is spelled so: each key and value, and nothing else stands in the text.
        ensures found { IfOk result (IsText text.now) }
        // What is spelled so is accepted, unless memory runs out.
        ensures only { (c : Configuration) → IsText text.now c
            → Gives is_settings_memory (λ (c : Configuration). c) result (Ok c) }
        // A refusal tells a fault of the text, the first one in the order, unless memory runs out.
        ensures first { IfErr result (λ e. e ≢ OutOfMemory → IsFirst (HasFault (parse_document text.now)) order e) }
        // A text that is accepted has none of the faults.
        ensures faultless { IfOk result (λ _. (f : SettingsError) → ¬ HasFault (parse_document text.now) f) }
        // The same as a function of the text.
        ensures exact { Gives is_settings_memory (λ (c : Configuration). c) result (reading text.now) }
    {
        read(alloc, text)
    }

    /// How many frames the pool has.
    pub fn frames(&self) -> u32
        ensures is { result ≡ self.now.frames }
        ensures within { (1 ≤ result) × (result ≤ most_frames) }
    {
        self.layout.frames()
    }

    /// How many bytes a page has.
    pub fn page_bytes(&self) -> u32
        ensures is { result ≡ self.now.page_bytes }
        ensures within { (fewest_page_bytes ≤ result) × (result ≤ most_page_bytes) }
    {
        self.page_bytes
    }

    /// How many workers run plans.
    pub fn workers(&self) -> u32
        ensures is { result ≡ self.now.workers }
        ensures within { (1 ≤ result) × (result ≤ most_workers) }
    {
        self.workers
    }

    /// How long a life of the pool may last.
    pub fn span(&self) -> Span
        ensures is { result ≡ self.now.span }
        ensures within { IsSpan result }
    {
        self.span
    }

    /// Sees that a life of the pool is bounded. A book, a run, an audit and a picture serve no other: this is the test for their
    /// condition.
    ///
    /// # Errors
    ///
    /// [`OtherLife`], printed as `8 OtherLife`, where it has no end.
    pub fn see_bounded(&self) -> Result<(), OtherLife>
        ensures bounded { IfOk result (λ seen. self.now.span ≡ Bounded) }
        ensures exact { is_ok result ≡ is_bounded self.now.span }
    {
        match self.span {
            Span::Bounded => Ok(()),
            Span::Endless { .. } => Err(OtherLife),
        }
    }

    /// How many flushes one life may begin: at most 100,000 in a bounded life, and 2^59 in an endless one.
    pub fn flushes(&self) -> u64
        ensures is { result ≡ self.now.flushes }
        ensures within { result ≤ flush_limit self.now.span }
        ensures most { result ≤ 576460752303423488 }
    {
        self.flushes
    }

    /// One more than the greatest page number of any region.
    pub fn pages(&self) -> u32
        ensures is { result ≡ page_count (geometry_of self.now) }
        // Each page of a region is below the number, and some region ends with the page before it.
        ensures above { (r page : ℕ) → HasPage (geometry_of self.now) r page → page < result }
        ensures last { (r : ℕ) × HasPage (geometry_of self.now) r (result - 1) }
        ensures most { result ≤ 4294967292 }
    {
        self.kept_layout().pages()
    }

    /// The number of the region with this name, if there is one.
    pub fn region(&self, name: &str) -> Option<u8>
        ensures is { result ≡ region_named self.now name.now }
        ensures below { IfSome result (λ r. r < length self.now.regions) }
        // The region named has the name, and no other region has it.
        ensures has { IfSome result (λ r. name_of self.now r ≡ Some name.now) }
        ensures only { (r : ℕ) → name_of self.now r ≡ Some name.now → result ≡ Some r }
    {
        let place = self.place_named(name)?;
        Some(place as u8)
    }

    /// Where among the regions the one with this name stands.
    fn place_named(&self, name: &str) -> Option<usize>
        ensures is { result ≡ region_named self.now name.now }
        ensures below { IfSome result (λ place. place < length self.now.regions) }
        ensures facts { IsConfiguration self.now }
    {
        self.names.iter().position(|kept| kept.as_str() == name)
    }

    /// The name of the region with this number. There must be such a region.
    pub fn name(&self, region: u8) -> &str
        requires { region < length self.now.regions }
        ensures { name_of self.now region ≡ Some result.now }
    {
        self.names[usize::from(region)].as_str()
    }

    /// The region that has the page, if one has it.
    pub fn region_of(&self, page: u32) -> Option<u8>
        ensures is { result ≡ region_of (geometry_of self.now) page }
        ensures below { IfSome result (λ r. r < length self.now.regions) }
        // The region named has the page, and no other region has it.
        ensures has { IfSome result (λ r. HasPage (geometry_of self.now) r page) }
        ensures only { (r : ℕ) → HasPage (geometry_of self.now) r page → result ≡ Some r }
    {
        self.kept_layout().region_of(page)
    }

    /// The class of the region that has the page, if one has it.
    pub fn class_of(&self, page: u32) -> Option<u8>
        ensures is { result ≡ class_of (geometry_of self.now) page }
        // A class named is that of the one region that has the page. None is named if and only if no region has it.
        ensures tells { TellsClass (geometry_of self.now) page result }
        ensures most { IfSome result (λ class. class ≤ 63) }
    {
        self.kept_layout().class_of(page)
    }

    /// The layout: the frames, and where the regions lie.
    pub fn layout(&self) -> Layout
        ensures is { result ≡ geometry_of self.now }
        // What holds of every layout, and of all settings.
        ensures layout { IsLayout result }
        ensures settings { IsConfiguration self.now }
    {
        *self.kept_layout()
    }

    /// The layout where it is kept.
    fn kept_layout(&self) -> &Layout
        ensures is { result.now ≡ geometry_of self.now }
        ensures layout { IsLayout result.now }
        ensures settings { IsConfiguration self.now }
    {
        &self.layout
    }
}
