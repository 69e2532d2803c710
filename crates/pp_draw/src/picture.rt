//! A picture of a scene, as SVG.

use crate::curves::{Curve, Measure, Tips, most_dirty};
use crate::lanes::{Lanes, write_ground};
use crate::legend::{Below, notes, words};
use crate::place::{DIRTY, LEFT, LISTS, Places, WIDTH};
use crate::scene::Scene;
use crate::style::STYLE;
use pp_settings::Settings;
use std::fmt;

/// The curves of ARC's part, those that lie behind others first.
const CURVES: [Measure; 6] = [
    Measure::LeftFrequent,
    Measure::LeftRecent,
    Measure::Cached,
    Measure::Recent,
    Measure::Target,
    Measure::TargetCore,
];

/// A picture of a scene under its settings: one SVG document, which wants nothing from outside.
///
/// Time goes from left to right by the lines of the journal. From top to bottom stand a lane for each worker, with its plans,
/// errands and latches; the lane of the flusher; a row for each frame; ARC's lists, stacked, with the target; the pages that are
/// newer than the device's; the figures of the report; and a legend. Each part says more in its title.
#[derive(Clone, Copy)]
pub struct Picture<'a> {
    /// The settings of the run.
    pub settings: &'a Settings,
    /// What is drawn.
    pub scene: &'a Scene,
    /// The files of the plans, by their numbers, as paths. A plan without one is named by its number.
    pub names: &'a [&'a str],
}

impl fmt::Display for Picture<'_> {
    fn fmt<W: fmt::Write>(&self, f: &mut fmt::Formatter<W>) -> fmt::Result {
        let (settings, scene) = (self.settings, self.scene);
        let places = Places::of(scene, words(settings), notes(scene));
        self.write_head(f, places)?;
        self.write_figures(f)?;
        let lanes = Lanes {
            settings,
            scene,
            names: self.names,
            places,
        };
        write!(f, "{lanes}")?;
        self.write_lists(f, places)?;
        self.write_dirty(f, places)?;
        let below = Below {
            settings,
            scene,
            places,
        };
        write!(f, "{below}</svg>\n")
    }
}

impl Picture<'_> {
    /// The head of the document, and its name.
    fn write_head<W: fmt::Write>(&self, f: &mut fmt::Formatter<W>, places: Places) -> fmt::Result {
        let height = places.height;
        let pixels = height / 10;
        let lines = self.scene.lines;
        write!(
            f,
            "<svg xmlns=\"http://www.w3.org/2000/svg\" role=\"img\" width=\"1200\" height=\"{pixels}\" "
        )?;
        writeln!(
            f,
            "viewBox=\"0 0 {WIDTH} {height}\" style=\"max-width:100%;height:auto\">"
        )?;
        writeln!(f, "<title>A run of {lines} lines</title>")?;
        f.write_str(STYLE)?;
        writeln!(f, "<path class=\"y\" d=\"M0 0H{WIDTH}V{height}H0z\"/>")?;
        writeln!(
            f,
            "<text class=\"b\" x=\"200\" y=\"280\">A run of {lines} lines</text>"
        )
    }

    /// The sizes of the pool, and how often a page was there.
    fn write_figures<W: fmt::Write>(&self, f: &mut fmt::Formatter<W>) -> fmt::Result {
        let (frames, page_bytes) = (self.settings.frames(), self.settings.page_bytes());
        let workers = self.settings.workers();
        let totals = self.scene.tally.totals;
        let fixes = totals.hits.saturating_add(totals.loads);
        let hits = totals.hits;
        write!(
            f,
            "<text x=\"200\" y=\"560\">frames {frames} of {page_bytes} bytes, workers {workers}, "
        )?;
        writeln!(
            f,
            "hits {hits} of {fixes} fixes: {} %</text>",
            percent(hits, fixes)
        )
    }

    /// ARC's part.
    fn write_lists<W: fmt::Write>(&self, f: &mut fmt::Formatter<W>, places: Places) -> fmt::Result {
        let top = places.lists;
        let most = 2 * u64::from(self.settings.frames());
        write_ground(f, top, LISTS)?;
        self.write_scale(f, "ARC", top, LISTS, most)?;
        for measure in CURVES {
            let curve = Curve {
                scene: self.scene,
                measure,
                top,
                most,
            };
            write!(f, "{curve}")?;
        }
        let tips = Tips {
            scene: self.scene,
            top,
            height: LISTS,
        };
        write!(f, "{tips}")
    }

    /// The part of the pages that are newer than the device's.
    fn write_dirty<W: fmt::Write>(&self, f: &mut fmt::Formatter<W>, places: Places) -> fmt::Result {
        let top = places.dirty;
        let most = most_dirty(self.scene);
        write_ground(f, top, DIRTY)?;
        self.write_scale(f, "dirty", top, DIRTY, most)?;
        let curve = Curve {
            scene: self.scene,
            measure: Measure::Dirty,
            top,
            most,
        };
        write!(f, "{curve}")?;
        let tips = Tips {
            scene: self.scene,
            top,
            height: DIRTY,
        };
        write!(f, "{tips}")
    }

    /// The name of a part with curves, and the number at its top.
    fn write_scale<W: fmt::Write>(
        &self,
        f: &mut fmt::Formatter<W>,
        name: &str,
        top: u64,
        height: u64,
        most: u64,
    ) -> fmt::Result {
        let edge = LEFT - 60;
        let first = top.saturating_add(120);
        let middle = top.saturating_add(height / 2).saturating_add(60);
        let foot = top.saturating_add(height);
        let class = if height < LISTS { "s e f" } else { "s e" };
        writeln!(
            f,
            "<text class=\"{class}\" x=\"{edge}\" y=\"{first}\">{most}</text>"
        )?;
        writeln!(
            f,
            "<text class=\"e\" x=\"{edge}\" y=\"{middle}\">{name}</text>"
        )?;
        writeln!(
            f,
            "<text class=\"{class}\" x=\"{edge}\" y=\"{foot}\">0</text>"
        )
    }
}

/// How many of a hundred these are, rounded down; 0 of nothing.
fn percent(number: u64, whole: u64) -> u64 {
    number.saturating_mul(100) / whole.max(1)
}
