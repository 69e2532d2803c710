//! A plain reading of segments: of each line the pool writes what would be true there, and the two are compared as
//! text.

use pp_core::{Accepted, Core, Prepared, Reply};
use pp_report::{Asked, Line};
use pp_settings::Settings;
use std::alloc::Global;

/// A pool to which the lines so far were done.
struct Reading {
    core: Core,
    plans: Vec<Prepared>,
    /// How many heads were read.
    segments: u64,
}

impl Drop for Reading {
    fn drop(self) {
        let Reading {
            core: _,
            plans: _,
            segments: _,
        } = self;
    }
}

/// Has the core keep the plans.
fn prepare(alloc: Global, core: &mut Core, plans: Vec<Accepted>) -> anyhow::Result<Vec<Prepared>> {
    let mut prepared = Vec::new(alloc);
    for plan in plans {
        match core.prepare(plan) {
            Ok(place) => prepared.push(place)?,
            Err((_plan, error)) => return Err(anyhow::Error::from(error)),
        }
    }
    Ok(prepared)
}

/// Whether it tells that nothing was done.
fn is_refusal(reply: Reply) -> bool {
    matches!(reply, Reply::NotNow(_) | Reply::OffPlan(_))
}

impl Reading {
    /// No line was read yet.
    fn new(alloc: Global, settings: &Settings, plans: Vec<Accepted>) -> anyhow::Result<Reading> {
        let mut core = Core::new(alloc, settings)?;
        let plans = prepare(alloc, &mut core, plans)?;
        Ok(Reading {
            core,
            plans,
            segments: 0,
        })
    }

    /// Reads a line, and tells whether it is true.
    fn read(&mut self, alloc: Global, line: &str) -> anyhow::Result<bool> {
        let (word, _rest) = line.split_once(" ").unwrap_or((line, ""));
        match word {
            "segment" => self.read_head(alloc, line),
            _ if self.segments == 0 => Ok(false),
            "submit" => self.read_submit(alloc, line),
            _ => self.read_move(alloc, line),
        }
    }

    fn read_head(&mut self, alloc: Global, line: &str) -> anyhow::Result<bool> {
        let (number, plans) = (self.segments, self.core.plans());
        let want = format!(in alloc; "segment {number} = {plans}")?;
        self.segments = number.saturating_add(1);
        Ok(line == want.as_str())
    }

    fn read_submit(&mut self, alloc: Global, line: &str) -> anyhow::Result<bool> {
        match self.submitted(alloc, line)? {
            Some(prepared) => Ok(self.core.submit_prepared(prepared).is_ok()),
            None => Ok(false),
        }
    }

    /// The plan that is submitted under the next number, if this is the line of one.
    fn submitted(&self, alloc: Global, line: &str) -> anyhow::Result<Option<Prepared>> {
        let number = self.core.plans();
        for prepared in &self.plans {
            let want = format!(in alloc; "submit {number} {} = queued", prepared.place())?;
            if line == want.as_str() {
                return Ok(Some(*prepared));
            }
        }
        Ok(None)
    }

    fn read_move(&mut self, alloc: Global, line: &str) -> anyhow::Result<bool> {
        let Some(
            Line {
                asked: Asked::Do(did),
                told: _,
            },
        ) = Line::from_text(line)
        else {
            return Ok(false);
        };
        let reply = self.core.step(&did);
        if is_refusal(reply) {
            return Ok(false);
        }
        let want = format!(in alloc; "{did} = {reply}")?;
        Ok(line == want.as_str())
    }
}

/// The number of the first line that isn't true, from 1, if there is one.
pub fn first_fault(
    alloc: Global,
    settings: &Settings,
    plans: Vec<Accepted>,
    text: &str,
) -> anyhow::Result<Option<u64>> {
    let mut reading = Reading::new(alloc, settings, plans)?;
    let mut number: u64 = 0;
    for line in text.lines() {
        number = number.saturating_add(1);
        if !reading.read(alloc, line)? {
            return Ok(Some(number));
        }
    }
    Ok(None)
}
