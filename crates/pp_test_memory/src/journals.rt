//! The calls that write journals and reports, and audit journals.

use crate::answer::Answer;
use crate::printing::twice;
use crate::samples::{LIVES, events, record};
use crate::tried::Tried;
use pp_cert::Accepted;
use pp_model::Event;
use pp_report::{
    AuditError, Audited, Journal, RunRecord, audit, audit_lives, journal_text, packed_journal_text,
    report,
};
use pp_settings::Settings;
use pp_test_plain::all_accepted;
use pp_test_plain::samples::{SETTINGS, TOUCH, TOUCHED};
use std::alloc::Global;

/// Does the case of this call.
pub fn case<R: AllocGlobal + Print>(rt: &R, call: &str) -> anyhow::Result<()> {
    match call {
        "audit" => audits(rt, call, &[TOUCH]),
        "audit_lives" => audits(rt, call, &[TOUCH, TOUCH]),
        _ => {
            let (events, record) = (events(rt.alloc())?, record(rt.alloc())?);
            twice(
                rt,
                &mut Written {
                    alloc: rt.alloc(),
                    call,
                    events,
                    record,
                },
            )
        }
    }
}

/// A journal that is written, packed, unpacked or reported.
#[derive(Drop)]
struct Written<'a> {
    alloc: Global,
    call: &'a str,
    events: Vec<Event>,
    record: RunRecord,
}

impl Tried for Written<'_> {
    type Told = Answer;

    fn call(&mut self) -> Answer {
        match self.call {
            "journal_text" => Answer::of_text(journal_text(self.alloc, &self.events)),
            "packed_journal_text" => Answer::of_text(packed_journal_text(
                self.alloc,
                &self.record.events,
            )),
            "report" => Answer::of_text(report(self.alloc, &self.record)),
            "Journal::from_events" => packed(self.alloc, &self.events),
            _ => unpacked(self.alloc, &self.record.events, &self.events),
        }
    }
}

fn packed(alloc: Global, events: &[Event]) -> Answer {
    match Journal::from_events(alloc, events) {
        Ok(journal) => Answer::One("events", journal.len() as u64),
        Err(error) => Answer::Lacking(error),
    }
}

/// How many events come out of the journal, and whether they are these.
fn unpacked(alloc: Global, journal: &Journal, events: &[Event]) -> Answer {
    match journal.to_events(alloc) {
        Ok(given) => Answer::Two(
            "events",
            given.len() as u64,
            "the same",
            u64::from(given.as_slice() == events),
        ),
        Err(error) => Answer::Lacking(error),
    }
}

/// A journal that is audited with plans, for each round its own.
#[derive(Drop)]
struct Auditing<'a> {
    alloc: Global,
    call: &'a str,
    settings: Settings,
    lots: Vec<Vec<Accepted>>,
}

impl Tried for Auditing<'_> {
    type Told = Answer;

    fn call(&mut self) -> Answer {
        let Ok(()) = self.settings.see_bounded() else {
            return Answer::Nothing;
        };
        let Some(plans) = self.lots.pop() else {
            return Answer::Nothing;
        };
        match self.call {
            "audit" => audited(audit(self.alloc, &self.settings, plans, TOUCHED.as_bytes())),
            _ => audited(audit_lives(self.alloc, &self.settings, plans, LIVES.as_bytes())),
        }
    }
}

fn audited(audited: Result<Audited, AuditError>) -> Answer {
    match audited {
        Ok(audited) => Answer::One("lines", audited.lines),
        Err(error) => Answer::Refused(error.refusal()),
    }
}

fn audits<R: AllocGlobal + Print>(rt: &R, call: &str, plans: &[&str]) -> anyhow::Result<()> {
    let alloc = rt.alloc();
    let settings = Settings::from_text(alloc, SETTINGS)?;
    let mut lots = Vec::new(alloc);
    for _round in 0..2 {
        lots.push(all_accepted(alloc, &settings, plans)?)?;
    }
    twice(
        rt,
        &mut Auditing {
            alloc,
            call,
            settings,
            lots,
        },
    )
}
