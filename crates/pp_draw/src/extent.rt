//! How a journal is cut into columns, and which frames have a row.

ghost use Rattle.std.specs.Prelude.{◌≡◌, ◌≤◌, IfOk, replicate, true};

use pp_model::Reply;
use pp_report::{Told, first_line, line_in};
use pp_settings::Settings;
use std::alloc::{AllocError, Global};

/// The most columns that a picture has: four to a pixel at its full width, and more can't be seen.
const MOST_COLUMNS: u64 = 4_000;

/// The most parts of rows that a picture has, so that it has 4 MB at most. A part takes some 110 bytes with its title.
const MOST_PARTS: u64 = 36_000;

/// The most frames that have a row. Each row is 12 pixels high, so all of them take about a page of a screen.
const MOST_FRAMES: u32 = 64;

/// How a journal is cut into columns, and which frames have a row.
#[derive(Drop)]
pub struct Extent {
    /// How many lines a column has. The last one may have fewer.
    pub width: u64,
    /// How many workers there are.
    pub workers: u32,
    /// At place f whether frame f has a row.
    pub drawn: Vec<bool>,
    ghost wide: { 1 ≤ width },
}

impl Extent {
    /// The extent of a picture of this journal: columns of a line each where there are few enough, and a row for each frame,
    /// or for the 64 that are named most often.
    pub(crate) fn of(
        alloc: Global,
        settings: &Settings,
        journal: &[u8],
    ) -> Result<Extent, AllocError>
        ensures workers { IfOk result (λ extent. extent.workers ≡ settings.now.workers) }
        ensures rows { IfOk result (λ extent. settings.now.frames ≤ 64
            → extent.drawn.items ≡ replicate settings.now.frames true) }
    {
        let workers = settings.workers();
        let frames = settings.frames();
        let drawn = drawn_of(alloc, frames, journal)?;
        let width = width_of(lines_of(journal), workers, frames.min(MOST_FRAMES));
        Ok(Extent {
            width,
            workers,
            drawn,
        })
    }

    /// How many frames have a row.
    pub(crate) fn rows(&self) -> u32
        ensures { result ≤ 4096 }
    {
        let rows = self.drawn.iter().filter(|is_drawn| **is_drawn).count();
        rows.min(4_096) as u32
    }

    /// How many frames have none.
    pub(crate) fn hidden(&self) -> usize {
        self.drawn.iter().filter(|is_drawn| !**is_drawn).count()
    }
}

/// Which frames have a row: all, or the 64 that are named most often.
fn drawn_of(alloc: Global, frames: u32, journal: &[u8]) -> Result<Vec<bool>, AllocError>
    ensures { IfOk result (λ drawn. frames ≤ 64 → drawn.items ≡ replicate frames true) }
{
    if frames > MOST_FRAMES {
        return busiest(alloc, uses_of(alloc, frames, journal)?);
    }
    let drawn = vec![in alloc; true; frames as usize]?;
    Ok(drawn)
}

/// How many lines the text has. The last line feed may be missing.
fn lines_of(journal: &[u8]) -> u64 {
    let feeds = journal.iter().filter(|byte| **byte == b'\n').count() as u64;
    match journal.last() {
        None | Some(b'\n') => feeds,
        Some(_) => feeds.saturating_add(1),
    }
}

/// How many lines a column has, where there are so many lines, workers and rows of frames.
fn width_of(lines: u64, workers: u32, rows: u32) -> u64
    ensures { 1 ≤ result }
{
    let parts = 3 * u64::from(workers) + 2 * u64::from(rows) + 3;
    let columns = (MOST_PARTS / parts).min(MOST_COLUMNS).max(1);
    let full = lines / columns;
    if full * columns < lines || full == 0 {
        full.saturating_add(1)
    } else {
        full
    }
}

/// How often the journal names each frame.
fn uses_of(alloc: Global, frames: u32, journal: &[u8]) -> Result<Vec<u64>, AllocError> {
    let mut uses = vec![in alloc; 0; frames as usize]?;
    let mut left = journal;
    while !left.is_empty() {
        let (text, rest) = first_line(left);
        if let Some(frame) = frame_in(text) {
            if let Some(count) = uses.get_mut(frame as usize) {
                *count = u64::saturating_add(*count, 1);
            }
        }
        left = rest;
    }
    Ok(uses)
}

/// The frame that the line names, if it does.
fn frame_in(text: &[u8]) -> Option<u32> {
    match line_in(text)?.told {
        Told::Answer(
            Reply::Hit { frame, .. } | Reply::MustRead { frame } | Reply::MustWrite { frame, .. },
        ) => Some(frame),
        _ => None,
    }
}

/// Which frames are the 64 that are named most often; of two alike the one with the smaller number.
fn busiest(alloc: Global, uses: Vec<u64>) -> Result<Vec<bool>, AllocError> {
    let mut order = Vec::new(alloc);
    let mut drawn = Vec::new(alloc);
    for (frame, count) in uses.iter().enumerate() {
        order.push((u64::MAX - *count, frame))?;
        drawn.push(false)?;
    }
    order.sort()?;
    for (_, frame) in order.iter().take(MOST_FRAMES as usize) {
        if let Some(place) = drawn.get_mut(*frame) {
            *place = true;
        }
    }
    Ok(drawn)
}
