//! The journal of a core that one worker drives along a skewed trace, and its audit.
//!
//! `journal` writes it and `audit` reads it, so that the memory and the time of an audit are those of a program that does
//! nothing else.

ghost use Rattle.std.specs.Prelude.{◌≡◌, ◌++◌, ◌∷◌, [], IfOk, OnOk};
ghost use Rattle.pp_model.specs.declared.event.Event.TheVariants.{Step};

use crate::moves::{new_core, setting};
use crate::trouble::Trouble;
use crate::watch::{self, Counted, Watch};
use crate::words;
use pp_bench_traces::{FRAMES, Kind, Trace};
use pp_core::{Accepted, Came, Core, Event, Move, Reply};
use pp_report::journal_text;
use std::alloc::{AllocError, Global};
use std::io::{Read, Write};

/// Writes a journal of at least as many lines as the word says to standard output.
pub fn write(rt: &HostRuntime, words: &[String]) -> Result<(), Trouble> {
    let ops = words::ops_of_lines(words)?;
    let events = played(rt.alloc(), ops)?;
    let text = journal_text(rt.alloc(), events.as_slice())?;
    rt.stdout().write_all(text.as_bytes())?;
    Ok(())
}

/// Audits the journal on standard input, which [`write`] wrote at the same word. Prints how many lines it has, and on
/// standard error how many nanoseconds each took.
pub fn audit(rt: &HostRuntime, words: &[String]) -> Result<(), Trouble> {
    let ops = words::ops_of_lines(words)?;
    let (settings, accepted) = setting(rt.alloc(), ops)?;
    let mut plans = Vec::with_capacity(rt.alloc(), 1)?;
    plans.push_reserved(accepted);
    let mut text = Vec::new(rt.alloc());
    rt.stdin().read_to_end(&mut text)?;
    let watch = Watch::start(rt);
    let audited = pp_report::audit(rt.alloc(), &settings, plans, text.as_slice());
    let nanos = watch.nanos(rt);
    let audited = audited.map_err(Trouble::Failed)?;
    let lines = audited.lines;
    watch::tell(rt, Counted::One(lines), nanos, lines, "a line")
}

/// A core, and the journal of what was done with it.
#[derive(Drop)]
struct Recording {
    core: Core,
    events: Vec<Event>,
}

/// The journal of a worker that does so many operations on the pages of a skewed trace.
fn played(alloc: Global, ops: u64) -> Result<Vec<Event>, Trouble> {
    let (settings, accepted) = setting(alloc, ops)?;
    let core = new_core(alloc, &settings)?;
    let mut recording = Recording {
        core,
        events: Vec::new(alloc),
    };
    let done = recording.play(accepted, ops);
    let Recording {
        core: _core,
        events,
    } = recording;
    match done {
        Ok(()) => Ok(events),
        Err(trouble) => Err(trouble),
    }
}

impl Recording {
    /// A worker takes the plan, does so many operations on the pages of a skewed trace, and ends it.
    fn play(&mut self, accepted: Accepted, ops: u64) -> Result<(), Trouble> {
        self.submit(accepted)?;
        self.step(Move::Take { worker: 0 })?;
        let mut trace = Trace::new(Kind::Skew, FRAMES);
        for _ in 0..ops {
            self.operation(trace.next_page())?;
        }
        self.step(Move::Finish { worker: 0 })?;
        Ok(())
    }

    /// Takes the plan in.
    fn submit(&mut self, accepted: Accepted) -> Result<(), Trouble> {
        match self.core.submit(accepted) {
            Ok(id) => {
                let plan = id.number();
                self.keep(Event::Submit { plan })?;
                Ok(())
            }
            Err(_) => Err(Trouble::Refused),
        }
    }

    /// Does the move, and keeps it with its reply.
    fn step(&mut self, did: Move) -> Result<Reply, Trouble>
        ensures { IfOk result (λ reply. self.new.events.items ≡ self.old.events.items ++ (Step did reply ∷ [])) }
    {
        let reply = self.core.step(&did);
        match reply {
            Reply::NotNow(_) | Reply::OffPlan(_) => Err(Trouble::Refused),
            reply => {
                self.keep(Event::Step { did, reply })?;
                Ok(reply)
            }
        }
    }

    /// Adds the event to the journal.
    fn keep(&mut self, event: Event) -> Result<(), AllocError>
        ensures { OnOk result (self.new.events.items ≡ self.old.events.items ++ (event ∷ [])) }
    {
        self.events.push(event)?;
        Ok(())
    }

    /// Fixes the page, latches it S, unlatches it and unfixes it. A page that has to be read has stamp 0.
    fn operation(&mut self, page: u32) -> Result<(), Trouble> {
        if let Reply::MustRead { .. } = self.step(Move::Fix { worker: 0, page })? {
            let came = Came::Image(page, 0);
            self.step(Move::ReadDone { worker: 0, came })?;
        }
        self.step(Move::Latch { worker: 0 })?;
        self.step(Move::Unlatch { worker: 0 })?;
        self.step(Move::Unfix { worker: 0 })?;
        Ok(())
    }
}
