//! The pool: its settings, its plans, and its device.

use pp_cert::Accepted;
use pp_device::SoloDevice;
use pp_settings::Settings;
use pp_test_plain::all_accepted;
use pp_test_plain::samples::{DESCENT, REGIONS, WRITE};
use std::alloc::{AllocError, Global};

/// How often plans are submitted and then pages flushed.
pub const ROUNDS: u32 = 250;

/// The places of the prepared plans that are submitted in a round.
pub static ROUND: [usize; 4] = [0, 1, 0, 1];

/// The settings: three frames, one worker, one plan that waits, and flushes enough.
///
/// # Errors
///
/// Only where memory runs out.
pub fn settings(alloc: Global) -> anyhow::Result<Settings> {
    let text = format!(in alloc;
        "version = 2\nframes = 3\npage_bytes = 512\nworkers = 1\nwaiting = 1\nflushes = 10000\n{REGIONS}"
    )?;
    Ok(Settings::from_text(alloc, &text)?)
}

/// The two plans: one writes a leaf, and the other goes from a root to a leaf, which it writes.
///
/// # Errors
///
/// Only where memory runs out.
pub fn plans(alloc: Global, settings: &Settings) -> anyhow::Result<Vec<Accepted>> {
    all_accepted(alloc, settings, &[WRITE, DESCENT])
}

/// A device in memory, with an image of each page.
///
/// # Errors
///
/// Only where memory runs out.
pub fn device(alloc: Global, settings: &Settings) -> Result<SoloDevice, AllocError> {
    SoloDevice::new(alloc, settings.pages(), settings.page_bytes() as usize)
}
