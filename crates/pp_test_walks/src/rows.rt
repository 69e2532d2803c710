//! Does each row of the files of rows on a core, by the public calls, and prints it as it was done.
//!
//! Behind ` = ` a row says what is expected, which isn't read: the file stdout beside the folder `data` has the rows one file
//! behind the other, so that they differ where the core answers otherwise. Expected answers are worked out by hand.
//!
//! | Row | What is done |
//! |---|---|
//! | `core FILE` | a core is made anew with the settings of the file, which is named by its frames, workers and flushes |
//! | `endless COUNT FILE` | the same, but the settings are of version 2: its lives don't end, and so many plans may wait |
//! | `settings FILE` | plans are accepted under these settings from here on, and no more under the core's |
//! | `submit FILE` | the plan is submitted; its number, or the refusal and how many steps the plan has that came back |
//! | `resubmit` | so is the plan that came back last |
//! | `prepare FILE` | the plan is prepared; how many were before it, on all cores, or the refusal and the steps of the plan that came back |
//! | `reprepare` | so is the plan that came back last |
//! | `again COUNT` | the plan is submitted before which so many were prepared; its number, or the refusal |
//! | a move, as a journal has it | its reply, and whether `refusal` told otherwise before |
//! | `run MOVE, MOVE ..` | the moves are done by one call |
//! | `drain PAGE PAGE` | the core is driven to its end; its device reads the pages below the first number, and writes those below the second |
//! | `renew` | the core is renewed, or refused |
//! | `next`, `left`, `page PAGE` | whose turn is next; what is left; what is kept of a page |
//!
//! Empty rows and rows that begin with `#` are printed as they stand.

use crate::common::text_in;
use crate::rows_host::Host;
use pp_core::{Accepted, Core, Move, Prepared, Reply};
use pp_report::{Asked, Line};
use pp_settings::Settings;
use pp_test_plain::accepted;
use pp_test_plain::samples::SETTINGS;
use std::alloc::Global;
use std::fmt::Write;
use std::rt::Files;

/// The files of rows, in the order in which they are done.
const FILES: [&str; 8] = [
    "cells.txt",
    "drains.txt",
    "endless.txt",
    "lists.txt",
    "lives.txt",
    "submits.txt",
    "turns.txt",
    "many_plans.txt",
];

/// A core, the settings under which plans are accepted, the plan that came back last, and what the cores named the plans that
/// were prepared.
struct Pool {
    settings: Settings,
    core: Core,
    back: Option<Accepted>,
    kept: Vec<Prepared>,
}

impl Drop for Pool {
    fn drop(self) {
        let Pool {
            settings: _,
            core: _,
            back: _,
            kept: _,
        } = self;
    }
}

impl Pool {
    /// A core of the sample settings.
    fn new(alloc: Global) -> anyhow::Result<Pool> {
        let settings = Settings::from_text(alloc, SETTINGS)?;
        let core = Core::new(alloc, &settings)?;
        Ok(Pool {
            settings,
            core,
            back: None,
            kept: Vec::new(alloc),
        })
    }

    /// Does the row, and says how it is printed.
    fn done<R: Files + AllocGlobal>(&mut self, rt: &R, row: &str) -> anyhow::Result<String> {
        let (asked, _expected) = row.split_once(" = ").unwrap_or((row, ""));
        let (word, rest) = asked.split_once(" ").unwrap_or((asked, ""));
        match word {
            "" | "#" => kept(rt.alloc(), row),
            "settings" => self.settle(rt, rest, row),
            "core" => self.open(rt, rest, row),
            "endless" => self.open_endless(rt, rest, row),
            "submit" => self.submit_file(rt, rest, asked),
            "resubmit" => self.resubmit(rt.alloc(), asked),
            "prepare" => self.prepare_file(rt, rest, asked),
            "reprepare" => self.reprepare(rt.alloc(), asked),
            "again" => self.again(rt.alloc(), rest),
            "renew" => renew(rt.alloc(), &mut self.core),
            "drain" => drain(rt.alloc(), &mut self.core, rest),
            "run" => run(rt.alloc(), &mut self.core, rest),
            "next" => next(rt.alloc(), &self.core),
            "left" => left(rt.alloc(), &self.core),
            "page" => page(rt.alloc(), &self.core, rest),
            _ => step(rt.alloc(), &mut self.core, asked),
        }
    }

    /// Accepts plans under the settings of the file from here on.
    fn settle<R: Files + AllocGlobal>(
        &mut self,
        rt: &R,
        file: &str,
        row: &str,
    ) -> anyhow::Result<String> {
        self.settings = settings_in(rt, file)?;
        kept(rt.alloc(), row)
    }

    /// Makes the core anew with the settings of the file, and accepts plans under them.
    fn open<R: Files + AllocGlobal>(
        &mut self,
        rt: &R,
        file: &str,
        row: &str,
    ) -> anyhow::Result<String> {
        self.settings = settings_in(rt, file)?;
        self.core = Core::new(rt.alloc(), &self.settings)?;
        kept(rt.alloc(), row)
    }

    /// The same with settings of version 2, in which lives don't end.
    fn open_endless<R: Files + AllocGlobal>(
        &mut self,
        rt: &R,
        rest: &str,
        row: &str,
    ) -> anyhow::Result<String> {
        let (waiting, file) = rest.split_once(" ").unwrap_or((rest, ""));
        self.settings = endless_in(rt, file, waiting)?;
        self.core = Core::new(rt.alloc(), &self.settings)?;
        kept(rt.alloc(), row)
    }

    /// Submits the plan of the file.
    fn submit_file<R: Files + AllocGlobal>(
        &mut self,
        rt: &R,
        file: &str,
        asked: &str,
    ) -> anyhow::Result<String> {
        let text = text_in(rt, "rows", file)?;
        let plan = accepted(rt.alloc(), &self.settings, text.as_str())?;
        self.submit(rt.alloc(), plan, asked)
    }

    /// Submits the plan that came back last.
    fn resubmit(&mut self, alloc: Global, asked: &str) -> anyhow::Result<String> {
        match self.back.take() {
            Some(plan) => self.submit(alloc, plan, asked),
            None => anyhow::bail!("no plan came back"),
        }
    }

    /// Submits the plan, and says its number; or why it is refused, and how many steps the plan has that came back.
    fn submit(&mut self, alloc: Global, plan: Accepted, asked: &str) -> anyhow::Result<String> {
        match self.core.submit(plan) {
            Ok(id) => Ok(format!(in alloc; "{asked} = {}", id.number())?),
            Err((back, error)) => {
                let steps = back.steps();
                self.back = Some(back);
                let why = error.refusal();
                Ok(format!(in alloc; "{asked} = refused {why}, steps {steps}")?)
            }
        }
    }

    /// Prepares the plan of the file.
    fn prepare_file<R: Files + AllocGlobal>(
        &mut self,
        rt: &R,
        file: &str,
        asked: &str,
    ) -> anyhow::Result<String> {
        let text = text_in(rt, "rows", file)?;
        let plan = accepted(rt.alloc(), &self.settings, text.as_str())?;
        self.prepare(rt.alloc(), plan, asked)
    }

    /// Prepares the plan that came back last.
    fn reprepare(&mut self, alloc: Global, asked: &str) -> anyhow::Result<String> {
        match self.back.take() {
            Some(plan) => self.prepare(alloc, plan, asked),
            None => anyhow::bail!("no plan came back"),
        }
    }

    /// Prepares the plan, and says how many were before it; or why it is refused, and how many steps the plan has that came back.
    fn prepare(&mut self, alloc: Global, plan: Accepted, asked: &str) -> anyhow::Result<String> {
        match self.core.prepare(plan) {
            Ok(prepared) => {
                let number = self.kept.len();
                self.kept.push(prepared)?;
                Ok(format!(in alloc; "{asked} = prepared {number}")?)
            }
            Err((back, error)) => {
                let steps = back.steps();
                self.back = Some(back);
                let why = error.refusal();
                Ok(format!(in alloc; "{asked} = refused {why}, steps {steps}")?)
            }
        }
    }

    /// Submits the plan before which so many were prepared, and says its number, or why it is refused.
    fn again(&mut self, alloc: Global, number: &str) -> anyhow::Result<String> {
        let place: usize = number.parse()?;
        let Some(prepared) = self.kept.get(place).copied() else {
            anyhow::bail!("so many plans weren't prepared: {place}");
        };
        match self.core.submit_prepared(prepared) {
            Ok(id) => Ok(format!(in alloc; "again {place} = {}", id.number())?),
            Err(error) => Ok(format!(in alloc; "again {place} = refused {}", error.refusal())?),
        }
    }
}

/// The row as it stands.
fn kept(alloc: Global, row: &str) -> anyhow::Result<String> {
    Ok(String::from_str(alloc, row)?)
}

/// The settings of the file.
fn settings_in<R: Files + AllocGlobal>(rt: &R, file: &str) -> anyhow::Result<Settings> {
    let text = text_in(rt, "rows", file)?;
    Ok(Settings::from_text(rt.alloc(), text.as_str())?)
}

/// The settings of the file as a text of version 2, in which so many plans may wait and lives don't end.
fn endless_in<R: Files + AllocGlobal>(
    rt: &R,
    file: &str,
    waiting: &str,
) -> anyhow::Result<Settings> {
    let text = text_in(rt, "rows", file)?;
    let text = format!(in rt.alloc(); "version = 2\nwaiting = {waiting}\n{text}")?;
    Ok(Settings::from_text(rt.alloc(), text.as_str())?)
}

/// The move that the text spells, as a journal has it.
fn move_in(alloc: Global, text: &str) -> anyhow::Result<Move> {
    let line = format!(in alloc; "{text} = did")?;
    match Line::from_text(line.as_str()) {
        Some(
            Line {
                asked: Asked::Do(asked),
                ..
            },
        ) => Ok(asked),
        _ => anyhow::bail!("this is no row: {text}"),
    }
}

/// Whether what was told before the move is its reply, where that is a refusal, and nothing else.
fn is_told(told: Option<Reply>, reply: Reply) -> bool {
    match reply {
        Reply::NotNow(_) | Reply::OffPlan(_) => told == Some(reply),
        _ => told.is_none(),
    }
}

/// Makes the move, and says its reply, and whether the refusal that is told without making it is another.
fn step(alloc: Global, core: &mut Core, text: &str) -> anyhow::Result<String> {
    let asked = move_in(alloc, text)?;
    let told = core.refusal(&asked);
    let reply = core.step(&asked);
    let note = if is_told(told, reply) {
        ""
    } else {
        ", and otherwise told before"
    };
    Ok(format!(in alloc; "{asked} = {reply}{note}")?)
}

/// Makes the moves by one call, and says their replies.
fn run(alloc: Global, core: &mut Core, texts: &str) -> anyhow::Result<String> {
    let mut moves = Vec::new(alloc);
    for text in texts.split(", ") {
        moves.push(move_in(alloc, text)?)?;
    }
    let mut replies = Vec::new(alloc);
    core.run(&moves, &mut replies)?;
    let mut line = format!(in alloc; "run {texts} = {} replies", replies.len())?;
    for reply in &replies {
        write!(line, ", {reply}")?;
    }
    Ok(line)
}

/// Drives the core to its end, and says how many moves that took, and what its host was asked.
fn drain(alloc: Global, core: &mut Core, limits: &str) -> anyhow::Result<String> {
    let (unread, unwritten) = limits.split_once(" ").unwrap_or((limits, ""));
    let mut host = Host {
        unread: unread.parse()?,
        unwritten: unwritten.parse()?,
        asked: String::new(alloc),
    };
    let moves = core.drain(&mut host);
    let Host { asked, .. } = host;
    Ok(format!(in alloc; "drain {limits} = {moves} moves{asked}")?)
}

/// Renews the core, if it can be.
fn renew(alloc: Global, core: &mut Core) -> anyhow::Result<String> {
    match core.renew() {
        Ok(()) => kept(alloc, "renew = renewed"),
        Err(why) => Ok(format!(in alloc; "renew = refused {why:?}")?),
    }
}

/// Whose turn is next.
fn turn(alloc: Global, core: &Core) -> anyhow::Result<String> {
    match core.next_possible() {
        Some(turn) => Ok(format!(in alloc; "{turn}")?),
        None => kept(alloc, "none"),
    }
}

fn next(alloc: Global, core: &Core) -> anyhow::Result<String> {
    let turn = turn(alloc, core)?;
    Ok(format!(in alloc; "next = {turn}")?)
}

/// Whose turn is next, how many moves are left at most, how many plans were submitted, and how many pages are newer than the
/// device's.
fn left(alloc: Global, core: &Core) -> anyhow::Result<String> {
    let turn = turn(alloc, core)?;
    let (budget, plans, dirty) = (core.budget(), core.plans(), core.dirty());
    Ok(format!(in alloc; "left = next {turn}, budget {budget}, plans {plans}, dirty {dirty}")?)
}

/// The mark and the frame of the page, which has both.
fn page(alloc: Global, core: &Core, number: &str) -> anyhow::Result<String> {
    let page = number.parse()?;
    match (core.mark(page), core.frame_of(page)) {
        (Some(mark), Some(frame)) => Ok(format!(in alloc;
            "page {page} = mark {mark}, frame {frame}"
        )?),
        _ => anyhow::bail!("page {page} lacks a mark or a frame"),
    }
}

/// Does the rows of the file, and prints each.
fn print_file<R: Files + Print + AllocGlobal>(
    rt: &R,
    pool: &mut Pool,
    file: &str,
) -> anyhow::Result<()> {
    let rows = text_in(rt, "rows", file)?;
    for row in rows.as_str().lines() {
        let line = pool.done(rt, row)?;
        println!(rt; "{line}")?;
    }
    Ok(())
}

/// Does the rows in their order, and prints each.
pub fn print_all<R: Files + Print + AllocGlobal>(rt: &R) -> anyhow::Result<()> {
    let mut pool = Pool::new(rt.alloc())?;
    print_files(rt, &mut pool)
}

fn print_files<R: Files + Print + AllocGlobal>(rt: &R, pool: &mut Pool) -> anyhow::Result<()> {
    for file in FILES {
        print_file(rt, pool, file)?;
    }
    Ok(())
}
