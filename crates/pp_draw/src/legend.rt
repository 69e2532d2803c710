//! What stands below a picture: the lines, the figures of the report, the legend, and what isn't drawn.

use crate::place::{LEFT, PLOT, Places, TEXT, word_at, x_of};
use crate::scene::Scene;
use crate::words::Escaped;
use pp_report::{FIGURES, Figure};
use pp_settings::Settings;
use std::fmt;

/// The signs of a picture besides the colours of regions, in lines of five: the class of what it is laid over, its own class,
/// and what it means.
const SIGNS: [(&str, &str, &str); 15] = [
    ("l", "p", "plan"),
    ("l", "g", "plan gone"),
    ("g", "o", "leaves its plan"),
    ("l", "w", "waits"),
    ("z", "n", "being read"),
    ("z", "h", "changed, written"),
    ("l", "k", "latched S"),
    ("l", "x", "latched X"),
    ("", "", ""),
    ("", "", ""),
    ("l", "a0", "T1"),
    ("l", "a1", "T2"),
    ("l", "a2", "B1"),
    ("l", "a3", "B2"),
    ("t", "q", "target of T1"),
];

/// The notes where a column stands for several lines.
const WIDE: [&str; 3] = [
    "The lanes of the workers and of the flusher show of how many of these",
    "each acts, reads, writes or waits. Frames, lists and changed pages are",
    "those behind a column's last line.",
];

/// The most letters of a region's name in the letters of the others. A longer one has small letters, so that it doesn't
/// reach into the next.
const LONG: usize = 18;

/// How many words the legend has.
pub(crate) fn words(settings: &Settings) -> usize {
    settings
        .layout()
        .extents()
        .len()
        .saturating_add(SIGNS.len())
}

/// How many notes say what isn't drawn.
pub(crate) fn notes(scene: &Scene) -> u64 {
    let wide = if scene.is_wide() {
        1 + WIDE.len() as u64
    } else {
        0
    };
    wide.saturating_add(2 * u64::from(scene.extent.hidden() > 0))
}

/// What stands below the picture of a scene.
#[derive(Clone, Copy)]
pub(crate) struct Below<'a> {
    pub settings: &'a Settings,
    pub scene: &'a Scene,
    pub places: Places,
}

impl fmt::Display for Below<'_> {
    fn fmt<W: fmt::Write>(&self, f: &mut fmt::Formatter<W>) -> fmt::Result {
        self.write_axis(f)?;
        self.write_figures(f)?;
        self.write_signs(f)?;
        self.write_regions(f)?;
        self.write_notes(f)
    }
}

impl Below<'_> {
    /// The numbers of some lines: each stands below the end of its line.
    fn write_axis<W: fmt::Write>(&self, f: &mut fmt::Formatter<W>) -> fmt::Result {
        let lines = self.scene.lines;
        let y = self.places.axis.saturating_add(TEXT - 70);
        for part in 1..=4 {
            let line = lines.saturating_mul(part) / 4;
            let x = x_of(line, lines);
            let class = if part == 4 { "s e" } else { "s m" };
            if line > 0 {
                writeln!(
                    f,
                    "<text class=\"{class}\" x=\"{x}\" y=\"{y}\">line {line}</text>"
                )?;
            }
        }
        Ok(())
    }

    /// The nine figures of a report.
    fn write_figures<W: fmt::Write>(&self, f: &mut fmt::Formatter<W>) -> fmt::Result {
        for (place, figure) in FIGURES.iter().enumerate() {
            let (x, down) = word_at(place);
            let y = self.places.figures.saturating_add(down);
            let name = figure.name();
            let number = self.number(*figure);
            writeln!(f, "<text x=\"{x}\" y=\"{y}\">{name} {number}</text>")?;
        }
        Ok(())
    }

    /// What the figure comes to.
    fn number(&self, figure: Figure) -> u64 {
        if let Figure::Dirty = figure {
            return match self.scene.columns.last() {
                Some(column) => u64::from(column.dirty),
                None => 0,
            };
        }
        self.scene.tally.totals.of(figure)
    }

    /// What the signs mean.
    fn write_signs<W: fmt::Write>(&self, f: &mut fmt::Formatter<W>) -> fmt::Result {
        for (place, (ground, class, name)) in SIGNS.iter().enumerate() {
            if !class.is_empty() {
                self.write_sign(f, place, ground, class, name)?;
            }
        }
        Ok(())
    }

    /// The colours of regions.
    fn write_regions<W: fmt::Write>(&self, f: &mut fmt::Formatter<W>) -> fmt::Result {
        let count = self.settings.layout().extents().len();
        for region in 0..count {
            let class = REGIONS[region % 8];
            let place = region.saturating_add(SIGNS.len());
            self.write_sign(f, place, "l", class, self.settings.name(region as u8))?;
        }
        Ok(())
    }

    /// A sign of the legend, the one at this place, over its ground, and what it means.
    fn write_sign<W: fmt::Write>(
        &self,
        f: &mut fmt::Formatter<W>,
        place: usize,
        ground: &str,
        class: &str,
        name: &str,
    ) -> fmt::Result {
        let (x, down) = word_at(place);
        let y = self.places.legend.saturating_add(down);
        let top = y.saturating_sub(130);
        let at = x.saturating_add(240);
        write!(
            f,
            "<path class=\"{ground}\" d=\"M{x} {top}h180v140H{x}z\"/>"
        )?;
        write!(f, "<path class=\"{class}\" d=\"M{x} {top}h180v140H{x}z\"/>")?;
        let class = if name.len() > LONG {
            " class=\"i\""
        } else {
            ""
        };
        let name = Escaped(name);
        writeln!(f, "<text{class} x=\"{at}\" y=\"{y}\">{name}</text>")
    }

    /// What a column stands for where it is several lines, and what isn't drawn. Short lines, for narrow pages.
    fn write_notes<W: fmt::Write>(&self, f: &mut fmt::Formatter<W>) -> fmt::Result {
        let mut y = self.places.notes;
        if self.scene.is_wide() {
            let width = self.scene.extent.width;
            write!(f, "<text class=\"s\" x=\"200\" y=\"{y}\">")?;
            writeln!(f, "A column stands for {width} lines.</text>")?;
            for note in WIDE {
                y = y.saturating_add(TEXT);
                write_note(f, y, note)?;
            }
            y = y.saturating_add(TEXT);
        }
        let hidden = self.scene.extent.hidden();
        if hidden > 0 {
            write!(f, "<text class=\"s\" x=\"200\" y=\"{y}\">")?;
            writeln!(f, "{hidden} frames have no row.</text>")?;
            y = y.saturating_add(TEXT);
            write_note(f, y, "The 64 that the journal names most often have one.")?;
        }
        Ok(())
    }
}

/// A note at this place from the top.
fn write_note<W: fmt::Write>(f: &mut fmt::Formatter<W>, y: u64, note: &str) -> fmt::Result {
    writeln!(f, "<text class=\"s\" x=\"200\" y=\"{y}\">{note}</text>")
}

/// The classes of regions, which have eight colours in turn.
const REGIONS: [&str; 8] = ["r0", "r1", "r2", "r3", "r4", "r5", "r6", "r7"];
