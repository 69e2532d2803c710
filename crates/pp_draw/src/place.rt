//! Where things stand in a picture. Lengths are in tenths of a pixel at its full width of 1,200 pixels.

ghost use Rattle.std.specs.Prelude.{◌≤◌};

use crate::scene::Scene;

/// The width of a picture: 1,200 pixels, which a viewer scales to its page. Letters are measured by it.
pub(crate) const WIDTH: u64 = 12_000;

/// The margin for names at its left: room for a word and a number. `.ci/pictures` counts on it.
pub(crate) const LEFT: u64 = 1_500;

/// The width of the part for lines: what the margin leaves, but for 20 empty pixels at the right. `.ci/pictures` counts on
/// it too.
pub(crate) const PLOT: u64 = 10_300;

/// The height of a worker's lane: a bar, a row for errands and two for latches, and spaces between them.
pub(crate) const LANE: u64 = 430;

/// The height of the bars of its plans: a line of letters, which are 16 pixels high at full width, and so 11 where the
/// picture is 830 pixels wide.
pub(crate) const BAR: u64 = 190;

/// The height of the flusher's lane: a row a little lower than a bar, and its space.
pub(crate) const FLUSHER: u64 = 200;

/// The height of the curves of ARC's lists: four that lie on each other, and the target.
pub(crate) const LISTS: u64 = 1_000;

/// The height of the curve of the dirty pages, which is one.
pub(crate) const DIRTY: u64 = 600;

/// The height of a line of text: letters, and nearly as much space.
pub(crate) const TEXT: u64 = 300;

/// How wide a letter is, about, at the letters' height of 160. By it a word is left out that has no room.
pub(crate) const LETTER: u64 = 90;

/// How wide a small one is, about, as low rows have them: of 110.
pub(crate) const LOW_LETTER: u64 = 64;

/// The least height of a row with words in usual letters in it; lower ones have small letters.
pub(crate) const WRITTEN: u64 = 180;

/// The space between two parts of the picture: more than between two rows of one part.
const GAP: u64 = 220;

/// How many figures, and how many words of the legend, stand on a line: a fifth of the width has room for a sign and a
/// region's name.
pub(crate) const A_LINE: usize = 5;

/// Where the parts of a picture begin, from its top.
#[derive(Clone, Copy)]
pub(crate) struct Places {
    pub workers: u64,
    pub flusher: u64,
    pub frames: u64,
    /// The height of a frame's row.
    pub row: u64,
    pub lists: u64,
    pub dirty: u64,
    pub axis: u64,
    pub figures: u64,
    pub legend: u64,
    pub notes: u64,
    pub height: u64,
}

impl Places {
    /// The places of the parts, where there are so many words in the legend and so many notes.
    pub(crate) fn of(scene: &Scene, words: usize, notes: u64) -> Places {
        let rows = scene.extent.rows();
        let row = if rows <= 16 { WRITTEN + 20 } else { 120 };
        let workers = 760;
        let lanes = LANE.saturating_mul(u64::from(scene.extent.workers));
        let flusher = below(workers, lanes, 0);
        let frames = below(flusher, FLUSHER, GAP);
        let lists = below(frames, row * u64::from(rows), GAP);
        let dirty = below(lists, LISTS, GAP);
        let axis = below(dirty, DIRTY, 0);
        let figures = below(axis, TEXT, GAP);
        let legend = below(figures, 2 * TEXT, GAP);
        let lines = words as u64 / (A_LINE as u64) + 1;
        let first_note = below(legend, TEXT.saturating_mul(lines), GAP / 2);
        Places {
            workers,
            flusher,
            frames,
            row,
            lists,
            dirty,
            axis,
            figures,
            legend,
            notes: first_note,
            height: below(first_note, TEXT.saturating_mul(notes), 0),
        }
    }
}

/// Below a part of this height, and a space.
fn below(top: u64, height: u64, gap: u64) -> u64 {
    top.saturating_add(height).saturating_add(gap)
}

/// Where the end of a line of the journal stands, from the left, where it has so many lines.
pub(crate) fn x_of(line: u64, lines: u64) -> u64
    ensures { result ≤ 11800 }
{
    let part = line.saturating_mul(PLOT) / lines.max(1);
    LEFT + part.min(PLOT)
}

/// How high a number stands, of at most so many, on this height.
pub(crate) fn height_of(number: u64, most: u64, height: u64) -> u64 {
    let part = number.saturating_mul(height) / most.max(1);
    part.min(height)
}

/// Where the k-th of some words stands: its place from the left, and how far below the first line.
pub(crate) fn word_at(k: usize) -> (u64, u64) {
    let column = k % A_LINE;
    let line = k / A_LINE;
    let across = (WIDTH - 200) / (A_LINE as u64);
    (
        200 + across * column as u64,
        TEXT.saturating_mul(line as u64),
    )
}
