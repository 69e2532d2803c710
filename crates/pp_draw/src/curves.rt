//! ARC's lists, its target and the dirty pages over the lines of a journal, as SVG.

use crate::column::{Column, Lengths};
use crate::place::{DIRTY, LISTS, height_of, x_of};
use crate::scene::Scene;
use crate::words::Span;
use std::fmt;

/// What a curve shows of a column.
#[derive(Clone, Copy, PartialEq, Eq)]
pub(crate) enum Measure {
    /// The cached pages that were asked for once lately, by their number.
    Recent,
    /// All cached pages.
    Cached,
    /// These, and the names of pages that left the first list.
    LeftRecent,
    /// All names.
    LeftFrequent,
    /// The target of the first list, as a broad line; and the thin one within it.
    Target,
    TargetCore,
    /// The pages that are newer than the device's.
    Dirty,
}

impl Measure {
    /// The number that the column has.
    fn of(self, column: &Column) -> u64 {
        let Lengths {
            recent,
            frequent,
            left_recent,
            left_frequent,
            target,
        } = column.lengths;
        let cached = recent.saturating_add(frequent);
        let names = cached.saturating_add(left_recent);
        match self {
            Measure::Recent => recent as u64,
            Measure::Cached => cached as u64,
            Measure::LeftRecent => names as u64,
            Measure::LeftFrequent => names.saturating_add(left_frequent) as u64,
            Measure::Target | Measure::TargetCore => u64::from(target),
            Measure::Dirty => u64::from(column.dirty),
        }
    }

    /// How it looks.
    fn class(self) -> &'static str {
        match self {
            Measure::Recent => "a0",
            Measure::Cached => "a1",
            Measure::LeftRecent => "a2",
            Measure::LeftFrequent => "a3",
            Measure::Target => "t",
            Measure::TargetCore => "q",
            Measure::Dirty => "d",
        }
    }

    /// Whether the space below the curve is filled.
    fn is_filled(self) -> bool {
        !matches!(self, Measure::Target | Measure::TargetCore | Measure::Dirty)
    }

    /// How high the whole part of the picture is.
    fn height(self) -> u64 {
        if self == Measure::Dirty { DIRTY } else { LISTS }
    }
}

/// A curve, whose part of the picture begins at this place from the top, and of which no number is above `most`.
#[derive(Clone, Copy)]
pub(crate) struct Curve<'a> {
    pub scene: &'a Scene,
    pub measure: Measure,
    pub top: u64,
    pub most: u64,
}

impl fmt::Display for Curve<'_> {
    fn fmt<W: fmt::Write>(&self, f: &mut fmt::Formatter<W>) -> fmt::Result {
        let height = self.measure.height();
        let foot = self.top.saturating_add(height);
        let left = x_of(0, self.scene.lines);
        write!(f, "<path class=\"{}\" d=\"M{left} ", self.measure.class())?;
        if self.measure.is_filled() {
            write!(f, "{foot}")?;
        } else {
            write!(f, "{}", self.y_of_first())?;
        }
        for column in &self.scene.columns {
            let number = self.measure.of(column);
            let y = foot.saturating_sub(height_of(number, self.most, height));
            write!(f, "V{y}H{}", x_of(column.line, self.scene.lines))?;
        }
        if self.measure.is_filled() {
            write!(f, "V{foot}z")?;
        }
        f.write_str("\"/>\n")
    }
}

impl Curve<'_> {
    /// Where a curve begins that isn't filled.
    fn y_of_first(&self) -> u64 {
        let height = self.measure.height();
        let foot = self.top.saturating_add(height);
        match self.scene.columns.first() {
            Some(column) => {
                let number = self.measure.of(column);
                foot.saturating_sub(height_of(number, self.most, height))
            }
            None => foot,
        }
    }
}

/// The greatest number of pages that are newer than the device's at once; 1 where none ever is.
pub(crate) fn most_dirty(scene: &Scene) -> u64 {
    let mut most = 1;
    for column in &scene.columns {
        most = u64::max(most, u64::from(column.dirty));
    }
    most
}

/// An unseen box for each column, whose title says the numbers of its curves.
#[derive(Clone, Copy)]
pub(crate) struct Tips<'a> {
    pub scene: &'a Scene,
    pub top: u64,
    pub height: u64,
}

impl fmt::Display for Tips<'_> {
    fn fmt<W: fmt::Write>(&self, f: &mut fmt::Formatter<W>) -> fmt::Result {
        let mut from = 0;
        for column in &self.scene.columns {
            self.write_tip(f, column, from)?;
            from = column.line;
        }
        Ok(())
    }
}

impl Tips<'_> {
    /// The box of the column that begins behind this line.
    fn write_tip<W: fmt::Write>(
        &self,
        f: &mut fmt::Formatter<W>,
        column: &Column,
        from: u64,
    ) -> fmt::Result {
        let lines = self.scene.lines;
        let left = x_of(from, lines);
        let width = x_of(column.line, lines).saturating_sub(left);
        let (top, height) = (self.top, self.height);
        let span = Span {
            first: from.saturating_add(1),
            last: column.line,
        };
        write!(
            f,
            "<path class=\"v\" d=\"M{left} {top}h{width}v{height}H{left}z\"><title>{span}: "
        )?;
        write_numbers(f, column)?;
        f.write_str("</title></path>\n")
    }
}

/// The numbers of a column's curves.
fn write_numbers<W: fmt::Write>(f: &mut fmt::Formatter<W>, column: &Column) -> fmt::Result {
    let Lengths {
        recent,
        frequent,
        left_recent,
        left_frequent,
        target,
    } = column.lengths;
    write!(
        f,
        "T1 {recent} T2 {frequent} B1 {left_recent} B2 {left_frequent} "
    )?;
    write!(f, "target {target} dirty {}", column.dirty)
}
