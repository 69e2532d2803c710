//! The calls that make a ledger, write the text of a segment, and audit segments.

ghost use Rattle.std.specs.Prelude.{◌≡◌, count_by};
ghost use Rattle.pp_segments.specs.Segments.{is_submit};

use crate::answer::Answer;
use crate::printing::twice;
use crate::samples::{SEGMENTS, events, settings_of};
use crate::tried::Tried;
use pp_cert::Accepted;
use pp_ledger::Ledger;
use pp_model::Event;
use pp_report::Journal;
use pp_segments::{SegmentAuditor, audit_segments, segment_text};
use pp_settings::Settings;
use pp_test_plain::all_accepted;
use pp_test_plain::samples::{NOTHING, TOUCH};
use std::alloc::Global;

/// Does the case of this call.
pub fn case<R: AllocGlobal + Print>(rt: &R, call: &str) -> anyhow::Result<()> {
    let alloc = rt.alloc();
    let settings = settings_of(alloc, "endless")?;
    match call {
        "Ledger::new" => twice(rt, &mut Opening { alloc, settings }),
        "segment_text" => {
            let events = Journal::from_events(alloc, &events(alloc)?)?;
            twice(rt, &mut Written { alloc, events })
        }
        _ => audits(rt, call, settings),
    }
}

/// Settings of a ledger that is made, with room for five events.
#[derive(Drop)]
struct Opening {
    alloc: Global,
    settings: Settings,
}

impl Tried for Opening {
    type Told = Answer;

    fn call(&mut self) -> Answer {
        if self.settings.see_bounded().is_ok() {
            return Answer::Nothing;
        }
        match Ledger::new(self.alloc, &self.settings, 5) {
            Ok((ledger, hands)) => {
                let (budget, room) = (ledger.budget(), ledger.capacity() as u64);
                let events = ledger.close(hands).events().len() as u64;
                Answer::Three("budget", budget, "room", room, "events", events)
            }
            Err(error) => Answer::Refused(error.refusal()),
        }
    }
}

/// The events of a segment with one submit, of the second of two prepared plans.
#[derive(Drop)]
struct Written {
    alloc: Global,
    events: Journal,
}

impl Tried for Written {
    type Told = Answer;

    fn call(&mut self) -> Answer {
        let prepared = [1];
        if submits(&self.events) != prepared.len() {
            return Answer::Nothing;
        }
        Answer::of_text(segment_text(self.alloc, 7, 300, &self.events, &prepared))
    }
}

/// How many of the events are submits.
fn submits(events: &Journal) -> usize
    ensures { result ≡ count_by is_submit events.now.items }
{
    events.iter().filter(|event| is_submit(event)).count()
}

/// Whether the event is that a plan was taken in.
fn is_submit(event: &Event) -> bool
    ensures { result ≡ is_submit event.now }
{
    matches!(event, Event::Submit { .. })
}

/// Plans with which segments are audited, a lot for each round.
#[derive(Drop)]
struct Auditing<'a> {
    alloc: Global,
    call: &'a str,
    settings: Settings,
    lots: Vec<Vec<Accepted>>,
}

impl Tried for Auditing<'_> {
    type Told = Answer;

    fn call(&mut self) -> Answer {
        let Some(plans) = self.lots.pop() else {
            return Answer::Nothing;
        };
        match self.call {
            "audit_segments" => audited(self.alloc, &self.settings, plans),
            _ => auditor(self.alloc, &self.settings, plans),
        }
    }
}

/// What an audit of all texts comes to.
fn audited(alloc: Global, settings: &Settings, plans: Vec<Accepted>) -> Answer {
    let texts = [SEGMENTS[0].as_bytes(), SEGMENTS[1].as_bytes()];
    match audit_segments(alloc, settings, plans, &texts, true) {
        Ok(found) => Answer::Two("lines", found.lines, "segments", found.segments),
        Err(error) => Answer::Refused(error.refusal()),
    }
}

/// What an audit comes to that passes a text at a time.
fn auditor(alloc: Global, settings: &Settings, plans: Vec<Accepted>) -> Answer {
    let mut auditor = match SegmentAuditor::new(alloc, settings, plans) {
        Ok(auditor) => auditor,
        Err(error) => return Answer::Refused(error.refusal()),
    };
    for text in SEGMENTS {
        if let Err(error) = auditor.pass_segment(text.as_bytes()) {
            return Answer::Refused(error.refusal());
        }
    }
    Answer::Two("lines", auditor.lines(), "segments", auditor.segments())
}

fn audits<R: AllocGlobal + Print>(rt: &R, call: &str, settings: Settings) -> anyhow::Result<()> {
    let alloc = rt.alloc();
    let mut lots = Vec::new(alloc);
    for _round in 0..2 {
        lots.push(all_accepted(alloc, &settings, &[NOTHING, TOUCH])?)?;
    }
    twice(
        rt,
        &mut Auditing {
            alloc,
            call,
            settings,
            lots,
        },
    )
}
