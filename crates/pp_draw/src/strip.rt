//! A row of a picture as SVG: a part for each stretch of columns that show the same.

use crate::column::Column;
use crate::place::{LETTER, LOW_LETTER, WRITTEN, x_of};
use crate::row::{Row, Shown};
use crate::scene::Scene;
use crate::words::{Span, Told};
use pp_settings::Settings;
use std::fmt;

/// A row, with its place from the top and its height.
#[derive(Clone, Copy)]
pub(crate) struct Strip<'a> {
    pub settings: &'a Settings,
    pub scene: &'a Scene,
    pub row: Row,
    pub top: u64,
    pub height: u64,
}

/// A stretch of columns that show the same in a row: from behind one line to the end of another.
#[derive(Clone, Copy)]
struct Stretch {
    shown: Shown,
    from: u64,
    to: u64,
}

impl fmt::Display for Strip<'_> {
    fn fmt<W: fmt::Write>(&self, f: &mut fmt::Formatter<W>) -> fmt::Result {
        let mut open: Option<Stretch> = None;
        let mut from = 0;
        for column in &self.scene.columns {
            let next = grown(open, self.row, column, from);
            if let Some(stretch) = closed(open, next) {
                self.write_stretch(f, stretch)?;
            }
            open = next;
            from = column.line;
        }
        if let Some(stretch) = open {
            self.write_stretch(f, stretch)?;
        }
        self.write_names(f)
    }
}

/// The stretch that the column goes on with, or begins.
fn grown(open: Option<Stretch>, row: Row, column: &Column, from: u64) -> Option<Stretch> {
    let shown = row.shown(column)?;
    let from = match open {
        Some(stretch) if stretch.shown == shown => stretch.from,
        _ => from,
    };
    Some(Stretch {
        shown,
        from,
        to: column.line,
    })
}

/// The stretch that ends where this one follows, if one does.
fn closed(open: Option<Stretch>, next: Option<Stretch>) -> Option<Stretch> {
    let stretch = open?;
    match next {
        Some(next) if next.shown == stretch.shown => None,
        _ => Some(stretch),
    }
}

impl Strip<'_> {
    /// A stretch, with what it shows as its title.
    fn write_stretch<W: fmt::Write>(
        &self,
        f: &mut fmt::Formatter<W>,
        stretch: Stretch,
    ) -> fmt::Result {
        let told = Told {
            settings: self.settings,
            shown: stretch.shown,
        };
        let span = Span {
            first: stretch.from.saturating_add(1),
            last: stretch.to,
        };
        f.write_str("<g>")?;
        self.write_boxes(f, stretch)?;
        writeln!(f, "<title>{told}, {span}</title></g>")
    }

    /// What a stretch looks like: a page in the colour of its region, and patterns over it.
    fn write_boxes<W: fmt::Write>(
        &self,
        f: &mut fmt::Formatter<W>,
        stretch: Stretch,
    ) -> fmt::Result {
        let lines = self.scene.lines;
        let left = x_of(stretch.from, lines);
        let width = x_of(stretch.to, lines).saturating_sub(left);
        let height = self.height;
        self.write_box(
            f,
            Class::of(self.settings, stretch.shown),
            left,
            width,
            height,
        )?;
        match stretch.shown {
            Shown::Reads { .. } => self.write_box(f, Class::Read, left, width, height),
            Shown::Writes { .. } | Shown::Flushes { .. } => {
                self.write_box(f, Class::Changed, left, width, height)
            }
            Shown::Stands(at) => {
                if at.is_dirty {
                    self.write_box(f, Class::Changed, left, width, height)?;
                }
                if at.is_exclusive {
                    self.write_box(f, Class::Exclusive, left, width, height / 3)?;
                }
                Ok(())
            }
            _ => Ok(()),
        }
    }

    /// The number of each page that stands in a frame, where it stays long enough.
    fn write_names<W: fmt::Write>(&self, f: &mut fmt::Formatter<W>) -> fmt::Result {
        let mut stay: Option<Stay> = None;
        let mut from = 0;
        for column in &self.scene.columns {
            let page = self.row.shown(column).and_then(Shown::page);
            stay = match stay {
                Some(stay) if page == Some(stay.page) => Some(stay.up_to(column.line)),
                _ => {
                    self.write_name(f, stay)?;
                    page.map(|page| Stay {
                        page,
                        from,
                        to: column.line,
                    })
                }
            };
            from = column.line;
        }
        self.write_name(f, stay)
    }

    /// The number of the page that stays, where there is room for it.
    fn write_name<W: fmt::Write>(
        &self,
        f: &mut fmt::Formatter<W>,
        stay: Option<Stay>,
    ) -> fmt::Result {
        let Some(Stay { page, from, to }) = stay else {
            return Ok(());
        };
        let lines = self.scene.lines;
        let left = x_of(from, lines);
        let width = x_of(to, lines).saturating_sub(left);
        let (class, letter, down) = if self.height < WRITTEN {
            ("f j u c", LOW_LETTER, 90)
        } else {
            ("f j u", LETTER, 147)
        };
        if width < digits_of(page).saturating_mul(letter).saturating_add(50) {
            return Ok(());
        }
        let x = left.saturating_add(25);
        let y = self.top.saturating_add(down);
        writeln!(
            f,
            "<text class=\"{class}\" x=\"{x}\" y=\"{y}\">{page}</text>"
        )
    }

    /// A box of this height at the strip's foot.
    fn write_box<W: fmt::Write>(
        &self,
        f: &mut fmt::Formatter<W>,
        class: Class,
        left: u64,
        width: u64,
        height: u64,
    ) -> fmt::Result {
        let top = self.top.saturating_add(self.height.saturating_sub(height));
        write!(
            f,
            "<path class=\"{class}\" d=\"M{left} {top}h{width}v{height}H{left}z\"/>"
        )
    }
}

/// A page that stays in a frame: from behind one line to the end of another.
#[derive(Clone, Copy)]
struct Stay {
    page: u32,
    from: u64,
    to: u64,
}

impl Stay {
    /// The same, which goes on to the end of this line.
    fn up_to(self, line: u64) -> Stay {
        Stay { to: line, ..self }
    }
}

/// How many digits the number has.
fn digits_of(number: u32) -> u64 {
    match number {
        0..=9 => 1,
        10..=99 => 2,
        100..=999 => 3,
        1_000..=9_999 => 4,
        _ => 5,
    }
}

/// How a box looks.
#[derive(Clone, Copy)]
enum Class {
    WayOut,
    Waits,
    Read,
    Shares,
    Exclusive,
    Region(u8),
    Changed,
}

impl Class {
    /// Of what is shown. Regions have eight colours in turn.
    fn of(settings: &Settings, shown: Shown) -> Class {
        match shown {
            Shown::Leaves => Class::WayOut,
            Shown::Waits(_) => Class::Waits,
            Shown::Shares { .. } => Class::Shares,
            Shown::Changes { .. } => Class::Exclusive,
            Shown::Reads { page } | Shown::Flushes { page } => Class::of_page(settings, page),
            Shown::Writes { victim, .. } => Class::of_page(settings, victim),
            Shown::Stands(at) => Class::of_page(settings, at.page),
        }
    }

    /// Of a page.
    fn of_page(settings: &Settings, page: u32) -> Class {
        Class::Region(settings.region_of(page).unwrap_or(7))
    }
}

impl fmt::Display for Class {
    fn fmt<W: fmt::Write>(&self, f: &mut fmt::Formatter<W>) -> fmt::Result {
        match self {
            Class::WayOut => f.write_str("o"),
            Class::Waits => f.write_str("w"),
            Class::Read => f.write_str("n"),
            Class::Shares => f.write_str("k"),
            Class::Exclusive => f.write_str("x"),
            Class::Region(region) => write!(f, "r r{}", region % 8),
            Class::Changed => f.write_str("h"),
        }
    }
}
