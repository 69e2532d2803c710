//! The calls of a book, and the turns of a worker and of the flusher.

use crate::answer::Answer;
use crate::printing::{rounds, silently, twice};
use crate::tried::Tried;
use crate::turns::{Working, Writing};
use pp_cert::Accepted;
use pp_pool::{Book, Flusher, Journal, OwnSite};
use pp_settings::Settings;
use pp_test_plain::accepted;
use pp_test_plain::samples::{SETTINGS, WRITE};
use std::alloc::Global;

/// More turns than any of the cases has.
const TURNS: u32 = 12;

/// Does the case of this call.
pub fn case<R: AllocGlobal + Print>(rt: &R, call: &str) -> anyhow::Result<()> {
    let settings = Settings::from_text(rt.alloc(), SETTINGS)?;
    match call {
        "Book::new" => twice(
            rt,
            &mut Opening {
                alloc: rt.alloc(),
                settings,
            },
        ),
        "Book::submit" => submits(rt, &settings),
        "Book::renew" => renews(rt, &settings),
        "Worker::turn" => works(rt, &settings),
        "Flusher::turn" => flushes(rt, &settings),
        _ => anyhow::bail!("there is no such call"),
    }
}

/// Settings of a book that is made.
#[derive(Drop)]
struct Opening {
    alloc: Global,
    settings: Settings,
}

impl Tried for Opening {
    type Told = Answer;

    fn call(&mut self) -> Answer {
        let Ok(()) = self.settings.see_bounded() else {
            return Answer::Nothing;
        };
        match Book::new(self.alloc, &self.settings) {
            Ok((book, hands)) => Answer::One("events", book.close(hands).len() as u64),
            Err(error) => Answer::Refused(error.refusal()),
        }
    }
}

/// A book, and a plan that it is to take in.
#[derive(Drop)]
struct Submitting {
    book: Book,
    plan: Option<Accepted>,
}

impl Tried for Submitting {
    type Told = Answer;

    fn stand(&self) -> Option<Answer> {
        Some(self.told())
    }

    fn call(&mut self) -> Answer {
        let Some(plan) = self.plan.take() else {
            return Answer::Nothing;
        };
        match self.book.submit(plan) {
            Ok(_id) => self.told(),
            Err((plan, error)) => {
                self.plan = Some(plan);
                Answer::Refused(error.refusal())
            }
        }
    }
}

impl Submitting {
    fn told(&self) -> Answer {
        Answer::Two(
            "under way",
            u64::from(self.book.next_possible().is_some()),
            "most",
            self.book.most(),
        )
    }
}

fn submits<R: AllocGlobal + Print>(rt: &R, settings: &Settings) -> anyhow::Result<()> {
    let plan = accepted(rt.alloc(), settings, WRITE)?;
    settings.see_bounded()?;
    let (book, hands) = Book::new(rt.alloc(), settings)?;
    let mut submitting = Submitting {
        book,
        plan: Some(plan),
    };
    let done = twice(rt, &mut submitting);
    let Submitting { book, plan: _plan } = submitting;
    let journal = book.close(hands);
    done?;
    println!(rt; "journal {:?}", journal.to_events(rt.alloc())?)?;
    Ok(())
}

/// A book that is to be renewed, and the journal of its next life.
#[derive(Drop)]
struct Renewing {
    book: Book,
    empty: Option<Journal>,
}

impl Tried for Renewing {
    type Told = Answer;

    fn stand(&self) -> Option<Answer> {
        Some(Answer::Three(
            "mark",
            self.book.began().mark(16).unwrap_or(0),
            "most",
            self.book.most(),
            "dirty",
            u64::from(self.book.dirty()),
        ))
    }

    fn call(&mut self) -> Answer {
        let Some(empty) = self.empty.take() else {
            return Answer::Nothing;
        };
        match self.book.renew(empty) {
            Ok(journal) => Answer::One("events", journal.len() as u64),
            Err((empty, error)) => {
                self.empty = Some(empty);
                Answer::Failed(anyhow::Error::from(error))
            }
        }
    }
}

/// A worker does a plan, and then the book is renewed.
fn renews<R: AllocGlobal + Print>(rt: &R, settings: &Settings) -> anyhow::Result<()> {
    let mut working = Working::new(rt.alloc(), settings)?;
    silently(&mut working, TURNS);
    let (book, _device, hands) = working.end();
    let mut renewing = Renewing {
        book,
        empty: Some(Journal::new(rt.alloc())),
    };
    let done = twice(rt, &mut renewing);
    let after = renewing.stand();
    let Renewing {
        book,
        empty: _empty,
    } = renewing;
    let journal = book.close(hands);
    done?;
    if let Some(after) = after {
        println!(rt; "{after}, {} events", journal.len())?;
    }
    Ok(())
}

/// A worker does a plan.
fn works<R: AllocGlobal + Print>(rt: &R, settings: &Settings) -> anyhow::Result<()> {
    let mut working = Working::new(rt.alloc(), settings)?;
    let done = rounds(rt, &mut working, TURNS);
    let (queued, log) = (working.is_queued, working.worker.log.len());
    let (book, _device, hands) = working.end();
    let journal = book.close(hands);
    done?;
    println!(rt;
        "queued {queued}, {} events, {log} of the worker",
        journal.len()
    )?;
    Ok(())
}

/// A worker does a plan, and then the flusher writes what it changed.
fn flushes<R: AllocGlobal + Print>(rt: &R, settings: &Settings) -> anyhow::Result<()> {
    let mut working = Working::new(rt.alloc(), settings)?;
    silently(&mut working, TURNS);
    let (book, device, hands) = working.end();
    let mut writing = Writing {
        flusher: Flusher::new(OwnSite { book }, device),
    };
    let done = rounds(rt, &mut writing, TURNS);
    let (ended, failed) = (writing.flusher.ended, writing.flusher.failed);
    let (book, hands) = writing.end(hands);
    let journal = book.close(hands);
    done?;
    println!(rt;
        "{} events, {ended} flushes, {failed} failed",
        journal.len()
    )?;
    Ok(())
}
