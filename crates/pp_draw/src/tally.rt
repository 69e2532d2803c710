//! What is counted of the lines of a journal: its figures, and the turns of workers at plans.

ghost use Rattle.std.specs.Prelude.{◌≡◌, ◌+◌, ◌≤◌, ◌++◌, [], map, IfOk, OnOk, if◌then◌else◌, option_and_then};
ghost use Rattle.pp_report.specs.declared.figure.Figure.{Figure};
ghost use Rattle.pp_report.specs.Reports.{counts, taken_in};
ghost use Rattle.pp_report.specs.Reading.{line_in};
ghost use Rattle.pp_draw.specs.Counted.{event_by, event_of, event_in, finished_in, total_of};
ghost use Rattle.pp_draw.specs.Walks.{Counts, after_event, ended_by, opened_by, with_event};

use crate::totals::Totals;
use pp_model::{Ending, Event, Move, Reply};
use pp_report::{Asked, Line, Told, line_in};
use std::alloc::{AllocError, Global};

/// A worker's turn at a plan.
#[derive(Clone, Copy)]
pub struct Turn {
    pub plan: u64,
    pub worker: u32,
    /// The line of its take.
    pub from: u64,
    /// The line of its finish, and how that ended the plan. None while it goes on.
    pub end: Option<(u64, Ending)>,
}

/// The figures of some lines, and the turns in them.
#[derive(Drop)]
pub struct Tally {
    /// The figures of a report but the dirty pages.
    pub totals: Totals,
    /// The turns, in the order of their takes.
    pub turns: Vec<Turn>,
}

impl Tally {
    /// Of no lines.
    pub(crate) fn new(alloc: Global) -> Tally
        ensures totals { (f : Figure) → total_of result.totals f ≡ 0 }
        ensures turns { result.turns.items ≡ [] }
    {
        Tally {
            totals: Totals::none(),
            turns: Vec::new(alloc),
        }
    }

    /// Of the line with this number too.
    pub(crate) fn note(&mut self, number: u64, text: &[u8]) -> Result<(), AllocError>
        requires { (f : Figure) → total_of self.old.totals f + 1 ≤ number }
        ensures { OnOk result (Counts number text.now self.old self.new) }
    {
        match event_in(text) {
            Some(event) => self.count(number, event),
            None => Ok(()),
        }
    }

    /// Of the event on the line with this number too.
    fn count(&mut self, number: u64, event: Event) -> Result<(), AllocError>
        requires { (f : Figure) → total_of self.old.totals f + 1 ≤ number }
        ensures totals { (f : Figure) → total_of self.new.totals f
            ≡ total_of self.old.totals f + (if counts f event then 1 else 0) }
        ensures turns { OnOk result (self.new.turns.items ≡ with_event number event self.old.turns.items) }
    {
        self.totals = self.totals.with(event);
        end_turn(&mut self.turns, number, event);
        begin_turn(&mut self.turns, number, event)
    }
}

/// Begins a turn, where the event on the line of this number is a take.
fn begin_turn(turns: &mut Vec<Turn>, number: u64, event: Event) -> Result<(), AllocError>
    ensures { OnOk result (turns.new.items ≡ turns.old.items ++ opened_by number (taken_in event)) }
{
    let Some((plan, worker)) = taken_in(event) else {
        return Ok(());
    };
    turns.push(Turn {
        plan,
        worker,
        from: number,
        end: None,
    })?;
    Ok(())
}

/// Ends the turn of the worker, where the event on the line of this number is its finish.
fn end_turn(turns: &mut [Turn], number: u64, event: Event)
    ensures { turns.new ≡ map (after_event number event) turns.old }
{
    match finished_in(event) {
        Some((worker, ending)) => end_all(turns, number, worker, ending),
        None => {}
    }
}

/// The event that the text of a line tells.
fn event_in(text: &[u8]) -> Option<Event>
    ensures { result ≡ event_in text.now }
{
    event_of(line_in(text)?)
}

/// The event that the line tells.
fn event_of(line: Line) -> Option<Event>
    ensures { result ≡ event_of line }
{
    match (line.asked, line.told) {
        (Asked::Submit { plan }, Told::Queued) => Some(Event::Submit { plan }),
        (Asked::Do(did), Told::Answer(reply)) => Some(Event::Step { did, reply }),
        _ => None,
    }
}

/// The plan that is taken, and the worker that takes it.
fn taken_in(event: Event) -> Option<(u64, u32)>
    ensures { result ≡ taken_in event }
{
    match event {
        Event::Step {
            did: Move::Take { worker },
            reply: Reply::Taken { plan },
        } => Some((plan, worker)),
        _ => None,
    }
}

/// The worker that finishes, and how that ends its plan.
fn finished_in(event: Event) -> Option<(u32, Ending)>
    ensures { result ≡ finished_in event }
{
    match event {
        Event::Step {
            did: Move::Finish { worker },
            reply: Reply::Finished(ending),
        } => Some((worker, ending)),
        _ => None,
    }
}

/// Ends the turn that the worker is at.
fn end_all(turns: &mut [Turn], number: u64, worker: u32, ending: Ending)
    ensures { turns.new ≡ map (ended_by number worker ending) turns.old }
{
    for turn in turns.iter_mut() {
        *turn = ended_by(number, worker, ending, *turn);
    }
}

/// The turn, once the worker has finished on the line of this number.
fn ended_by(number: u64, worker: u32, ending: Ending, turn: Turn) -> Turn
    ensures { result ≡ ended_by number worker ending turn }
{
    if turn.worker == worker && turn.end.is_none() {
        Turn {
            end: Some((number, ending)),
            ..turn
        }
    } else {
        turn
    }
}
