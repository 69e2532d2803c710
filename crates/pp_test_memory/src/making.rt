//! The calls that make two directories, a search, marks, sets of numbers, stacks of pages, names, two caches, a core, an outset, two
//! devices and a vault, and a run of a core.

use crate::answer::Answer;
use crate::printing::twice;
use crate::samples::{MOVES, settings_of};
use crate::tried::Tried;
use pp_arc::{Directory, List, Search};
use pp_bundles::Bundles;
use pp_cache::Cache;
use pp_core::{Accepted, Core};
use pp_device::{Device, SoloDevice};
use pp_durable::Checksummed;
use pp_frames::{Marks, NumberSet};
use pp_keyed::KeyedCache;
use pp_model::Reply;
use pp_names::Names;
use pp_outset::Outset;
use pp_settings::Settings;
use pp_test_plain::accepted;
use pp_test_plain::samples::TOUCH;
use pp_vault::Vault;
use std::alloc::{AllocError, Global};

/// Does the case of this call and this row.
pub fn case<R: AllocGlobal + Print>(rt: &R, call: &str, row: &str) -> anyhow::Result<()> {
    let alloc = rt.alloc();
    let settings = settings_of(alloc, row)?;
    match call {
        "Directory::new"
        | "Directory::growing"
        | "Search::new"
        | "Marks::new"
        | "NumberSet::new"
        | "NumberSet::full"
        | "Bundles::new"
        | "SoloDevice::new"
        | "Checksummed::new"
        | "Names::new"
        | "KeyedCache::new"
        | "Cache::new" => twice(rt, &mut Plain { alloc, call }),
        "Core::new" | "Outset::new" | "Vault::new" => twice(
            rt,
            &mut Set {
                alloc,
                call,
                settings,
            },
        ),
        "Core::run" => runs(rt, &settings),
        _ => anyhow::bail!("there is no such call"),
    }
}

/// Something that is made of numbers.
#[derive(Drop)]
struct Plain<'a> {
    alloc: Global,
    call: &'a str,
}

impl Tried for Plain<'_> {
    type Told = Answer;

    fn call(&mut self) -> Answer {
        match self.call {
            "Directory::new" => directory(self.alloc),
            "Directory::growing" => growing(self.alloc),
            "Search::new" => search(self.alloc),
            "Marks::new" => marks(self.alloc),
            "NumberSet::new" => members(NumberSet::new(self.alloc, 5_000)),
            "NumberSet::full" => members(NumberSet::full(self.alloc, 100)),
            "Bundles::new" => bundles(self.alloc),
            "Cache::new" => cache(self.alloc),
            "Names::new" => names(self.alloc),
            "KeyedCache::new" => keyed(self.alloc),
            "Checksummed::new" => checksummed(self.alloc),
            _ => solo(self.alloc),
        }
    }
}

fn directory(alloc: Global) -> Answer {
    match Directory::new(alloc, 2, 5) {
        Ok(made) => Answer::Two(
            "target",
            u64::from(made.target()),
            "pages",
            made.len(List::T1) as u64,
        ),
        Err(error) => Answer::Lacking(error),
    }
}

fn growing(alloc: Global) -> Answer {
    match Directory::growing(alloc, 2, 5) {
        Ok(made) => Answer::Two(
            "target",
            u64::from(made.target()),
            "pages",
            made.len(List::T1) as u64,
        ),
        Err(error) => Answer::Lacking(error),
    }
}

fn search(alloc: Global) -> Answer {
    match Search::new(alloc, 2, 5) {
        Ok(_made) => Answer::One("searches", 1),
        Err(error) => Answer::Lacking(error),
    }
}

fn marks(alloc: Global) -> Answer {
    match Marks::new(alloc, 3, 24) {
        Ok(made) => first("free", made.least_free()),
        Err(error) => Answer::Lacking(error),
    }
}

fn members(made: Result<NumberSet, AllocError>) -> Answer {
    match made {
        Ok(made) => Answer::Two(
            "limit",
            u64::from(made.limit()),
            "has 7",
            u64::from(made.contains(7)),
        ),
        Err(error) => Answer::Lacking(error),
    }
}

/// The first of some numbers under this name, or that there is none.
fn first(name: &'static str, number: Option<u32>) -> Answer {
    match number {
        Some(number) => Answer::One(name, u64::from(number)),
        None => Answer::One("none", 0),
    }
}

fn bundles(alloc: Global) -> Answer {
    match Bundles::new(alloc, 64, 5) {
        Ok(made) => Answer::Two(
            "places",
            u64::from(made.places()),
            "free",
            u64::from(made.free()),
        ),
        Err(error) => Answer::Lacking(error),
    }
}

fn cache(alloc: Global) -> Answer {
    match Cache::new(alloc, 2) {
        Ok(made) => Answer::One("pages", u64::from(made.pages())),
        Err(error) => Answer::Lacking(error),
    }
}

fn names(alloc: Global) -> Answer {
    match Names::new(alloc, 5) {
        Ok(made) => Answer::Two(
            "names",
            u64::from(made.len()),
            "used",
            u64::from(made.used()),
        ),
        Err(error) => Answer::Lacking(error),
    }
}

fn keyed(alloc: Global) -> Answer {
    match KeyedCache::new(alloc, 2) {
        Ok(made) => Answer::Two(
            "pages",
            u64::from(made.pages()),
            "room",
            u64::from(made.room()),
        ),
        Err(error) => Answer::Lacking(error),
    }
}

fn solo(alloc: Global) -> Answer {
    match SoloDevice::new(alloc, 24, 64) {
        Ok(mut made) => {
            let mut image = [1; 64];
            let read = made.read(16, &mut image);
            Answer::Two("read", u64::from(read.is_ok()), "page", u64::from(image[3]))
        }
        Err(error) => Answer::Lacking(error),
    }
}

fn checksummed(alloc: Global) -> Answer {
    let device = match SoloDevice::new(alloc, 24, 68) {
        Ok(device) => device,
        Err(error) => return Answer::Lacking(error),
    };
    match Checksummed::new(alloc, device, 64) {
        Ok(mut made) => {
            let mut image = [1; 64];
            let wrote = made.write(16, &image);
            let read = made.read(16, &mut image);
            Answer::Two(
                "wrote",
                u64::from(wrote.is_ok()),
                "read",
                u64::from(read.is_ok()),
            )
        }
        Err((error, _device)) => Answer::Lacking(error),
    }
}

/// Something that is made under settings.
#[derive(Drop)]
struct Set<'a> {
    alloc: Global,
    call: &'a str,
    settings: Settings,
}

impl Tried for Set<'_> {
    type Told = Answer;

    fn call(&mut self) -> Answer {
        match self.call {
            "Core::new" => core_of(self.alloc, &self.settings),
            "Outset::new" => outset(self.alloc, &self.settings),
            _ => vault(self.alloc, &self.settings),
        }
    }
}

fn core_of(alloc: Global, settings: &Settings) -> Answer {
    match Core::new(alloc, settings) {
        Ok(core) => {
            let made = Moving {
                core,
                replies: Vec::new(alloc),
            };
            Answer::One("budget", made.core.budget())
        }
        Err(error) => Answer::Refused(error.refusal()),
    }
}

fn outset(alloc: Global, settings: &Settings) -> Answer {
    match Outset::new(alloc, settings) {
        Ok(made) => Answer::Three(
            "target",
            u64::from(made.target()),
            "pages",
            made.pages(List::B2).len() as u64,
            "marked",
            u64::from(made.mark(16).is_some()),
        ),
        Err(error) => Answer::Lacking(error),
    }
}

fn vault(alloc: Global, settings: &Settings) -> Answer {
    match Vault::new(alloc, settings) {
        Ok((made, hands)) => {
            let budget = made.budget();
            made.scrap(hands);
            Answer::One("budget", budget)
        }
        Err(error) => Answer::Refused(error.refusal()),
    }
}

/// A core that is to do some moves, and the replies that it adds to.
#[derive(Drop)]
struct Moving {
    core: Core,
    replies: Vec<Reply>,
}

impl Tried for Moving {
    type Told = Answer;

    fn stand(&self) -> Option<Answer> {
        Some(self.told())
    }

    fn call(&mut self) -> Answer {
        match self.core.run(&MOVES, &mut self.replies) {
            Ok(()) => self.told(),
            Err(error) => Answer::Refused(error.refusal()),
        }
    }
}

impl Moving {
    fn told(&self) -> Answer {
        Answer::Two(
            "budget",
            self.core.budget(),
            "replies",
            self.replies.len() as u64,
        )
    }
}

/// A core does the moves of a plan.
fn runs<R: AllocGlobal + Print>(rt: &R, settings: &Settings) -> anyhow::Result<()> {
    let plan = accepted(rt.alloc(), settings, TOUCH)?;
    let replies = [Reply::Did].to_vec(rt.alloc())?;
    let core = Core::new(rt.alloc(), settings)?;
    let mut moving = Moving { core, replies };
    moves(rt, &mut moving, plan)
}

/// It does them, and its replies are printed.
fn moves<R: AllocGlobal + Print>(
    rt: &R,
    moving: &mut Moving,
    plan: Accepted,
) -> anyhow::Result<()> {
    let queued = moving.core.submit(plan).is_ok();
    twice(rt, moving)?;
    println!(rt; "queued {queued}, replies {:?}", moving.replies)?;
    Ok(())
}
