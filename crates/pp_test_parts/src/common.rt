//! What the tests share: settings of some sizes, and how answers are compared.

use pp_settings::Settings;
use pp_test_plain::samples::REGIONS;
use std::alloc::Global;
use std::fmt::{Debug, Display};
use std::process::Abort;
use std::test::*;

/// The sample settings with this many frames.
pub fn two_regions(alloc: Global, frames: u32) -> Result<Settings, Fail> {
    let text = format!(in alloc;
        "frames = {frames}\npage_bytes = 64\nworkers = 2\nflushes = 4\n{REGIONS}"
    )?;
    Ok(Settings::from_text(alloc, &text)?)
}

/// The sample settings of version 2 with this many frames and larger pages, in which so many plans may wait; lives have no end
/// where that isn't 0.
pub fn endless_settings(alloc: Global, frames: u32, waiting: u32) -> Result<Settings, Fail> {
    let text = format!(in alloc;
        "version = 2\nframes = {frames}\npage_bytes = 512\nworkers = 2\nwaiting = {waiting}\nflushes = 4\n{REGIONS}"
    )?;
    Ok(Settings::from_text(alloc, &text)?)
}

/// Compares two answers. Where they differ, the test fails and tells both.
pub fn same<T: Copy + PartialEq + Debug>(rt: &impl Abort, got: T, want: T) {
    assert!(rt; got == want, "got {got:?}, wanted {want:?}");
}

/// What the error, or the refusal, is printed as.
pub fn is_printed<T: Display + Drop>(
    rt: &impl Abort,
    alloc: Global,
    told: T,
    want: &str,
) -> Result<(), Fail> {
    let got = format!(in alloc; "{told}")?;
    same(rt, got.as_str(), want);
    Ok(())
}
