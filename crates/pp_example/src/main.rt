//! A small index on pages: a worker of a pool finds keys in it, and gives them other values.
//!
//! It is written to be copied; docs/embedding.md goes through it step by step.
#![tactic(auto)]

mod descent;
mod figures;
mod load;
mod node;
mod pool;
mod setup;

use crate::descent::{Find, Set};
use crate::figures::Figures;
use crate::pool::Pool;
use crate::setup::{PAGE_BYTES, PAGES};
use pp_cert::Accepted;
use pp_device::SoloDevice;
use pp_model::Event;
use pp_pool::{BookError, Turned};
use pp_settings::Settings;
use std::alloc::{AllocError, Global};
use std::fmt::{self, Display, Formatter, Write};

/// What is asked of the index.
#[derive(Clone, Copy)]
enum Query {
    Find(u32),
    Set(u32, u32),
}

/// What a query came to.
#[derive(Clone, Copy)]
enum Answer {
    /// The key has this value.
    Found { key: u32, value: u32 },
    /// The key has this value from now on.
    Changed { key: u32, value: u32 },
    /// The index doesn't have the key.
    Missing { key: u32 },
    /// The pool didn't take the plan in, or the worker didn't come to the key's leaf.
    Stopped { key: u32 },
}

const QUERIES: [Query; 7] = [
    Query::Find(420),
    Query::Find(425),
    Query::Find(10),
    Query::Set(420, 7),
    Query::Find(630),
    Query::Find(420),
    Query::Set(10, 5),
];

/// Writes the index, asks the queries one after another, and prints what each came to, and what the pool did.
fn main(rt: HostRuntime) -> anyhow::Result<()> {
    let alloc = rt.alloc();
    let settings = setup::settings(alloc)?;
    let asked = planned(alloc, &settings)?;
    let pool = Pool::new(alloc, &settings, written(alloc)?)?;
    let (answers, journal) = answered(alloc, &settings, pool, asked)?;
    for answer in answers {
        println!(rt; "{answer}")?;
    }
    println!(rt; "{}", Figures::of(&journal))?;
    Ok(())
}

/// The queries, each with its plan.
fn planned(alloc: Global, settings: &Settings) -> anyhow::Result<Vec<(Query, Accepted)>> {
    let mut asked = Vec::with_capacity(alloc, QUERIES.len())?;
    for query in QUERIES {
        asked.push((query, query.plan(alloc, settings)?))?;
    }
    Ok(asked)
}

/// A device with the index.
fn written(alloc: Global) -> anyhow::Result<SoloDevice> {
    let entries = load::squares(alloc)?;
    let mut device = SoloDevice::new(alloc, PAGES, PAGE_BYTES)?;
    load::write(alloc, &mut device, &entries)?;
    Ok(device)
}

/// What the queries come to, one after another, and all that the pool did, which is given up then.
fn answered(
    alloc: Global,
    settings: &Settings,
    mut pool: Pool,
    asked: Vec<(Query, Accepted)>,
) -> anyhow::Result<(Vec<Answer>, Vec<Event>)> {
    let answers: Result<Vec<Answer>, AllocError> = asked
        .into_iter()
        .map(|(query, plan)| query.ask(&mut pool, plan))
        .collect(alloc);
    let journal = pool.close(settings);
    let events = journal.to_events(alloc)?;
    Ok((answers?, events))
}

impl Query {
    /// The plan of the query, accepted by the checker.
    fn plan(self, alloc: Global, settings: &Settings) -> anyhow::Result<Accepted> {
        match self {
            Query::Find(_) => setup::find(alloc, settings),
            Query::Set(_, _) => setup::set(alloc, settings),
        }
    }

    /// Has the pool's worker run the plan with the work of the query.
    fn ask(self, pool: &mut Pool, plan: Accepted) -> Answer {
        match self {
            Query::Find(key) => {
                let mut work = Find::new(key);
                let turned = pool.run(plan, &mut work);
                found(turned, key, &work)
            }
            Query::Set(key, value) => {
                let mut work = Set::new(key, value);
                let turned = pool.run(plan, &mut work);
                changed(turned, key, value, &work)
            }
        }
    }
}

/// What finding a key came to.
fn found(turned: Result<Turned, BookError>, key: u32, work: &Find) -> Answer {
    match (turned, work.value()) {
        (Ok(Turned::Ended), Some(value)) => Answer::Found { key, value },
        (Ok(Turned::Ended), None) if work.is_done() => Answer::Missing { key },
        _ => Answer::Stopped { key },
    }
}

/// What giving a key another value came to.
fn changed(turned: Result<Turned, BookError>, key: u32, value: u32, work: &Set) -> Answer {
    match turned {
        Ok(Turned::Ended) if work.has_changed() => Answer::Changed { key, value },
        Ok(Turned::Ended) if work.is_done() => Answer::Missing { key },
        _ => Answer::Stopped { key },
    }
}

impl Display for Answer {
    fn fmt<W: Write>(&self, f: &mut Formatter<W>) -> fmt::Result {
        match self {
            Answer::Found { key, value } => write!(f, "key {key}: {value}"),
            Answer::Changed { key, value } => write!(f, "key {key} is set to {value}"),
            Answer::Missing { key } => write!(f, "key {key}: none"),
            Answer::Stopped { key } => write!(f, "key {key}: stopped"),
        }
    }
}
