//! How a worker or the flusher spends its lines, as SVG: bands one upon another, where a column stands for several lines.

use crate::column::Column;
use crate::place::{height_of, x_of};
use crate::scene::Scene;
use crate::share::Kind;
use crate::words::Span;
use std::fmt;

/// The bands of a worker, the highest first: each is laid over those before it.
const KINDS: [(Kind, &str); 5] = [
    (Kind::Leaves, "o"),
    (Kind::Waits, "w"),
    (Kind::Writes, "h"),
    (Kind::Reads, "n"),
    (Kind::Acts, "p"),
];

/// Whose lines bands tell of.
#[derive(Clone, Copy)]
pub(crate) enum Actor {
    Worker(usize),
    Flusher,
}

/// The bands of a lane, from this place from the top.
#[derive(Clone, Copy)]
pub(crate) struct Bands<'a> {
    pub scene: &'a Scene,
    pub actor: Actor,
    pub top: u64,
    pub height: u64,
}

impl fmt::Display for Bands<'_> {
    fn fmt<W: fmt::Write>(&self, f: &mut fmt::Formatter<W>) -> fmt::Result {
        match self.actor {
            Actor::Worker(_) => {
                for (kind, class) in KINDS {
                    self.write_band(f, kind, "l")?;
                    self.write_band(f, kind, class)?;
                }
            }
            Actor::Flusher => self.write_band(f, Kind::Writes, "h")?,
        }
        let mut from = 0;
        for column in &self.scene.columns {
            self.write_tip(f, column, from)?;
            from = column.line;
        }
        Ok(())
    }
}

impl Bands<'_> {
    /// How many lines of the column the band reaches up to.
    fn reach(&self, column: &Column, kind: Kind) -> u64 {
        match self.actor {
            Actor::Flusher => column.shares.flushes,
            Actor::Worker(worker) => match column.shares.workers.get(worker) {
                Some(share) => share.up_to(kind),
                None => 0,
            },
        }
    }

    /// What stands below the upper edge of a band.
    fn write_band<W: fmt::Write>(
        &self,
        f: &mut fmt::Formatter<W>,
        kind: Kind,
        class: &str,
    ) -> fmt::Result {
        let lines = self.scene.lines;
        let foot = self.top.saturating_add(self.height);
        let left = x_of(0, lines);
        write!(f, "<path class=\"{class}\" d=\"M{left} {foot}")?;
        let mut from = 0;
        for column in &self.scene.columns {
            let width = column.line.saturating_sub(from);
            let reach = height_of(self.reach(column, kind), width, self.height);
            let y = foot.saturating_sub(reach);
            write!(f, "V{y}H{}", x_of(column.line, lines))?;
            from = column.line;
        }
        writeln!(f, "V{foot}z\"/>")
    }

    /// An unseen box over the column that begins behind this line, whose title says its shares.
    fn write_tip<W: fmt::Write>(
        &self,
        f: &mut fmt::Formatter<W>,
        column: &Column,
        from: u64,
    ) -> fmt::Result {
        let lines = self.scene.lines;
        let left = x_of(from, lines);
        let width = x_of(column.line, lines).saturating_sub(left);
        let (top, height) = (self.top, self.height);
        let span = Span {
            first: from.saturating_add(1),
            last: column.line,
        };
        write!(
            f,
            "<path class=\"v\" d=\"M{left} {top}h{width}v{height}H{left}z\"><title>{span}: "
        )?;
        self.write_shares(f, column)?;
        f.write_str("</title></path>\n")
    }

    /// The shares of the column.
    fn write_shares<W: fmt::Write>(
        &self,
        f: &mut fmt::Formatter<W>,
        column: &Column,
    ) -> fmt::Result {
        match self.actor {
            Actor::Flusher => write!(f, "flusher flushes {}", column.shares.flushes),
            Actor::Worker(worker) => match column.shares.workers.get(worker) {
                Some(share) => {
                    let (acts, reads, writes) = (share.acts, share.reads, share.writes);
                    let (waits, leaves) = (share.waits, share.leaves);
                    write!(
                        f,
                        "worker {worker} acts {acts} reads {reads} writes {writes} "
                    )?;
                    write!(f, "waits {waits} leaves {leaves}")
                }
                None => Ok(()),
            },
        }
    }
}
