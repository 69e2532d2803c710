//! Settings that are read, and what they say.

use crate::common::{endless_settings, is_printed, same, two_regions};
use pp_settings::{Extent, OtherLife, RegionKey, Settings, SettingsError, Span, Spot, TopKey};
use std::alloc::{AllocError, Global};
use std::process::Abort;
use std::test::*;

/// The document's own keys but for `region`, each at its greatest value.
const HEAD: &str = "frames = 4096\npage_bytes = 65536\nworkers = 32\nflushes = 100000\n";

/// A hundred bytes that say nothing.
const COMMENT: &str = "\
# Nothing is said here, and it is said at some length, so that the whole text becomes a long text..
";

/// The region and the class of a page, by the settings and by their layout.
fn page_is(rt: &impl Abort, settings: &Settings, page: u32, region: Option<u8>, class: Option<u8>) {
    let layout = settings.layout();
    let regions = (settings.region_of(page), layout.region_of(page));
    let classes = (settings.class_of(page), layout.class_of(page));
    same(rt, (page, regions), (page, (region, region)));
    same(rt, (page, classes), (page, (class, class)));
}

/// The region with the name has it.
fn name_is(rt: &impl Abort, settings: &Settings, name: &str) {
    if let Some(region) = settings.region(name) {
        same(rt, settings.name(region), name);
    }
}

#[test]
fn settings_of_two_regions(rt: HostRuntime) -> Result<(), Fail> {
    let settings = two_regions(rt.alloc(), 3)?;
    let layout = settings.layout();
    for (got, want) in [
        (settings.frames(), 3),
        (settings.page_bytes(), 64),
        (settings.workers(), 2),
        (settings.pages(), 24),
        (layout.frames(), 3),
        (layout.pages(), 24),
    ] {
        same(&rt, got, want);
    }
    same(&rt, settings.flushes(), 4);
    for (name, want) in [("root", Some(0)), ("leaf", Some(1)), ("roo", None)] {
        same(&rt, settings.region(name), want);
        name_is(&rt, &settings, name);
    }
    for (page, region, class) in [
        (0, Some(0), Some(1)),
        (3, Some(0), Some(1)),
        (4, None, None),
        (15, None, None),
        (16, Some(1), Some(2)),
        (23, Some(1), Some(2)),
        (24, None, None),
        (u32::MAX, None, None),
    ] {
        page_is(&rt, &settings, page, region, class);
    }
    let leaf = Extent {
        first: 16,
        count: 8,
        class: 2,
    };
    same(&rt, layout.extent(1), Some(leaf));
    same(&rt, layout.extent(2), None);
    Ok(())
}

/// Lives of settings of version 1 are bounded, and others may have no end; what serves bounded lives alone tells these apart.
#[test]
fn lives_are_bounded_or_endless(rt: HostRuntime) -> Result<(), Fail> {
    let (first, second) = (
        two_regions(rt.alloc(), 3)?,
        endless_settings(rt.alloc(), 3, 5)?,
    );
    same(&rt, first.span(), Span::Bounded);
    same(&rt, first.see_bounded(), Ok(()));
    same(&rt, second.span(), Span::Endless { waiting: 5 });
    same(&rt, second.see_bounded(), Err(OtherLife));
    same(
        &rt,
        endless_settings(rt.alloc(), 3, 0)?.span(),
        Span::Bounded,
    );
    is_printed(&rt, rt.alloc(), OtherLife.refusal(), "8 OtherLife")?;
    is_printed(
        &rt,
        rt.alloc(),
        OtherLife,
        "the settings are of an endless life, and only a bounded one is served here",
    )
}

/// A text of 64 regions that share out all pages, with comments of 1,600 bytes before each.
fn long_text(alloc: Global) -> Result<String, AllocError> {
    let mut text = String::from_str(alloc, HEAD)?;
    for i in 0u32..64 {
        for _ in 0..16 {
            text.push_str(COMMENT)?;
        }
        let first = 1024 * i;
        let region = format!(in alloc;
            "[[region]]\nname = \"r{i}\"\nfirst = {first}\ncount = 1024\nclass = {i}\n"
        )?;
        text.push_str(&region)?;
    }
    Ok(text)
}

#[test]
fn sixty_four_regions_in_a_long_text(rt: HostRuntime) -> Result<(), Fail> {
    let text = long_text(rt.alloc())?;
    same(&rt, text.len() > 100_000, true);
    let settings = Settings::from_text(rt.alloc(), &text)?;
    for (got, want) in [
        (settings.frames(), 4096),
        (settings.page_bytes(), 65_536),
        (settings.workers(), 32),
        (settings.pages(), 65_536),
    ] {
        same(&rt, got, want);
    }
    same(&rt, settings.flushes(), 100_000);
    same(&rt, settings.region("r63"), Some(63));
    name_is(&rt, &settings, "r63");
    for (page, region) in [
        (0, Some(0)),
        (1023, Some(0)),
        (1024, Some(1)),
        (65_535, Some(63)),
        (65_536, None),
    ] {
        page_is(&rt, &settings, page, region, region);
    }
    let last = Extent {
        first: 64_512,
        count: 1024,
        class: 63,
    };
    same(&rt, settings.layout().extent(63), Some(last));
    same(&rt, settings.layout().extent(64), None);
    Ok(())
}

#[test]
fn errors_for_people(rt: HostRuntime) -> Result<(), Fail> {
    for (error, number, name, want) in [
        (
            SettingsError::NotToml,
            1,
            "NotToml",
            "the text is not a TOML document",
        ),
        (
            SettingsError::Missing(Spot::InRegion(2, RegionKey::Class)),
            2,
            "Missing",
            "a key is missing: region 2 class",
        ),
        (
            SettingsError::Unknown(None),
            3,
            "Unknown",
            "a key is not known",
        ),
        (
            SettingsError::Range(Spot::Top(TopKey::PageBytes)),
            4,
            "Range",
            "a value is out of its limits, or of another kind: page_bytes",
        ),
        (
            SettingsError::Overlap(1),
            5,
            "Overlap",
            "region 1 has a page of an earlier region",
        ),
        (
            SettingsError::SameName(1),
            6,
            "SameName",
            "region 1 has the name of an earlier region",
        ),
        (
            SettingsError::OutOfMemory,
            7,
            "OutOfMemory",
            "out of memory",
        ),
    ] {
        same(&rt, (error.number(), error.name()), (number, name));
        is_printed(&rt, rt.alloc(), error, want)?;
    }
    Ok(())
}
