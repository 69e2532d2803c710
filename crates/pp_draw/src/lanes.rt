//! The lanes of the workers and of the flusher, and the rows of frames, as SVG.

use crate::band::{Actor, Bands};
use crate::column::is_drawn;
use crate::place::{BAR, FLUSHER, LANE, LEFT, LETTER, PLOT, Places, WRITTEN, x_of};
use crate::row::Row;
use crate::scene::Scene;
use crate::strip::Strip;
use crate::tally::Turn;
use crate::words::{PlanName, Span};
use pp_model::Ending;
use pp_settings::Settings;
use std::fmt;

/// The lanes of the workers and of the flusher, and the rows of frames.
#[derive(Clone, Copy)]
pub(crate) struct Lanes<'a> {
    pub settings: &'a Settings,
    pub scene: &'a Scene,
    /// The files of the plans, by their numbers; of more plans none is known.
    pub names: &'a [&'a str],
    pub places: Places,
}

impl fmt::Display for Lanes<'_> {
    fn fmt<W: fmt::Write>(&self, f: &mut fmt::Formatter<W>) -> fmt::Result {
        let mut top = self.places.workers;
        for worker in 0..self.scene.extent.workers {
            self.write_worker(f, worker, top)?;
            top = top.saturating_add(LANE);
        }
        self.write_flusher(f)?;
        self.write_frames(f)
    }
}

impl Lanes<'_> {
    /// A row at this place.
    fn strip(&self, row: Row, top: u64, height: u64) -> Strip<'_> {
        Strip {
            settings: self.settings,
            scene: self.scene,
            row,
            top,
            height,
        }
    }

    /// The lane of a worker: its plans, its errands, and what it has latched.
    fn write_worker<W: fmt::Write>(
        &self,
        f: &mut fmt::Formatter<W>,
        worker: u32,
        top: u64,
    ) -> fmt::Result {
        write_ground(f, top, LANE - 30)?;
        write_name(f, top, LANE - 30, "worker", worker)?;
        let bars = top.saturating_add(10);
        for turn in &self.scene.tally.turns {
            if turn.worker == worker {
                self.write_turn(f, *turn, bars)?;
            }
        }
        let number = worker as usize;
        let below = bars.saturating_add(BAR + 15);
        if self.scene.is_wide() {
            return self.write_bands(f, Actor::Worker(number), below, 180);
        }
        let shared = below.saturating_add(75);
        let exclusive = below.saturating_add(130);
        write!(f, "{}", self.strip(Row::WayOut(number), bars, BAR))?;
        write!(f, "{}", self.strip(Row::Errands(number), below, 65))?;
        write!(f, "{}", self.strip(Row::Shared(number), shared, 45))?;
        write!(f, "{}", self.strip(Row::Exclusive(number), exclusive, 45))
    }

    /// How an actor spends its lines, where a column stands for several.
    fn write_bands<W: fmt::Write>(
        &self,
        f: &mut fmt::Formatter<W>,
        actor: Actor,
        top: u64,
        height: u64,
    ) -> fmt::Result {
        let bands = Bands {
            scene: self.scene,
            actor,
            top,
            height,
        };
        write!(f, "{bands}")
    }

    /// A turn at a plan, as a bar.
    fn write_turn<W: fmt::Write>(
        &self,
        f: &mut fmt::Formatter<W>,
        turn: Turn,
        top: u64,
    ) -> fmt::Result {
        let lines = self.scene.lines;
        let (to, class, word) = match turn.end {
            Some((line, Ending::Gone)) => (line, "g", "gone"),
            Some((line, Ending::Done)) => (line, "p", "done"),
            None => (lines, "p", "runs"),
        };
        let left = x_of(turn.from.saturating_sub(1), lines);
        let width = x_of(to, lines).saturating_sub(left);
        let span = Span {
            first: turn.from,
            last: to,
        };
        let (plan, worker) = (turn.plan, turn.worker);
        let name = PlanName {
            names: self.names,
            plan,
        };
        write!(
            f,
            "<g><path class=\"{class}\" d=\"M{left} {top}h{width}v{BAR}H{left}z\"/><title>plan {plan}"
        )?;
        if name.is_known() {
            write!(f, " ({name})")?;
        }
        writeln!(f, " on worker {worker}, {word}, {span}</title></g>")?;
        write_word(f, name, word, left, width, top)
    }

    /// The lane of the flusher.
    fn write_flusher<W: fmt::Write>(&self, f: &mut fmt::Formatter<W>) -> fmt::Result {
        let top = self.places.flusher;
        let y = top.saturating_add(FLUSHER / 2).saturating_add(55);
        let edge = LEFT - 60;
        write_ground(f, top, FLUSHER)?;
        writeln!(f, "<text class=\"e\" x=\"{edge}\" y=\"{y}\">flusher</text>")?;
        let bars = top.saturating_add(30);
        if self.scene.is_wide() {
            return self.write_bands(f, Actor::Flusher, bars, FLUSHER - 60);
        }
        write!(f, "{}", self.strip(Row::Flusher, bars, FLUSHER - 60))
    }

    /// The rows of the frames that are drawn.
    fn write_frames<W: fmt::Write>(&self, f: &mut fmt::Formatter<W>) -> fmt::Result {
        let row = self.places.row;
        let mut top = self.places.frames;
        for frame in 0..self.settings.frames() {
            if is_drawn(&self.scene.extent.drawn, frame) {
                self.write_frame(f, frame, top)?;
                top = top.saturating_add(row);
            }
        }
        Ok(())
    }

    /// The row of a frame.
    fn write_frame<W: fmt::Write>(
        &self,
        f: &mut fmt::Formatter<W>,
        frame: u32,
        top: u64,
    ) -> fmt::Result {
        let height = self.places.row.saturating_sub(20);
        write_ground(f, top, height)?;
        write_name(f, top, height, "frame", frame)?;
        write!(f, "{}", self.strip(Row::Frame(frame), top, height))
    }
}

/// The ground of a lane.
pub(crate) fn write_ground<W: fmt::Write>(
    f: &mut fmt::Formatter<W>,
    top: u64,
    height: u64,
) -> fmt::Result {
    writeln!(
        f,
        "<path class=\"l\" d=\"M{LEFT} {top}h{PLOT}v{height}H{LEFT}z\"/>"
    )
}

/// The name of a lane, with its number.
fn write_name<W: fmt::Write>(
    f: &mut fmt::Formatter<W>,
    top: u64,
    height: u64,
    name: &str,
    number: u32,
) -> fmt::Result {
    let is_low = height < WRITTEN;
    let y = top
        .saturating_add(height / 2)
        .saturating_add(if is_low { 40 } else { 55 });
    let edge = LEFT - 60;
    let class = if is_low { "e f c" } else { "e" };
    writeln!(
        f,
        "<text class=\"{class}\" x=\"{edge}\" y=\"{y}\">{name} {number}</text>"
    )
}

/// What a plan is called and how it ended, where its bar has room for it; else its number, where there is room for that.
fn write_word<W: fmt::Write>(
    f: &mut fmt::Formatter<W>,
    name: PlanName<'_>,
    word: &str,
    left: u64,
    width: u64,
    top: u64,
) -> fmt::Result {
    let x = left.saturating_add(30);
    let y = top.saturating_add(147);
    let long = name.letters().saturating_mul(LETTER).saturating_add(60);
    if width < 3 * LETTER {
        return Ok(());
    }
    write!(f, "<text class=\"f u\" x=\"{x}\" y=\"{y}\">")?;
    if width > long.saturating_add(6 * LETTER) {
        writeln!(f, "{name} {word}</text>")
    } else if width > long {
        writeln!(f, "{name}</text>")
    } else {
        writeln!(f, "{}</text>", name.plan)
    }
}
