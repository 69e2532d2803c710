//! What the words of the command line ask for.

use crate::served::Trouble;
use pp_bench_traces::Kind;

/// What the words of the command line are.
pub const USAGE: &str =
    "usage: pp_bench_pool THREADS hit|skew|loop|mixed|hot PLANS PAGES [copies], with 1 to 32 threads";

/// How much may be asked.
pub const LIMITS: &str = "PLANS is at most 10000000, and PAGES is 1 to 65535";

/// The most plans that all threads run.
const MOST_PLANS: u64 = 10_000_000;

/// The most pages that a plan fixes: a loop has no more turns.
const MOST_PAGES: u32 = 65_535;

/// Which pages the plans fix.
#[derive(Clone, Copy)]
pub enum Load {
    /// Those of traces, to look at them.
    Trace(Kind),
    /// The same, to look at copies of them.
    Copies(Kind),
    /// One page, to change it.
    Hot,
}

/// A load that is asked for.
#[derive(Clone, Copy)]
pub struct Asked {
    /// How many threads there are, and how many chairs.
    pub threads: u32,
    /// Which pages are fixed.
    pub load: Load,
    /// How many plans each thread runs.
    pub plans: u64,
    /// How many pages each plan fixes.
    pub pages: u32,
}

impl Asked {
    /// The load that the words of the command line ask for, the program's name first. What is left where the plans are
    /// divided among the threads isn't done.
    ///
    /// # Errors
    ///
    /// [`Trouble::Words`] where they are others than [`USAGE`] says, and [`Trouble::TooMany`] where more is asked than
    /// [`LIMITS`] says.
    pub fn of(words: &[String]) -> Result<Asked, Trouble> {
        let (words, are_copies) = match words {
            [words @ .., last] if last.as_str() == "copies" => (words, true),
            words => (words, false),
        };
        let [_, threads, load, plans, pages] = words else {
            return Err(Trouble::Words);
        };
        let threads = threads.parse::<u32>().map_err(|_| Trouble::Words)?;
        if threads == 0 || threads > 32 {
            return Err(Trouble::Words);
        }
        let plans = plans.parse::<u64>().map_err(|_| Trouble::Words)?;
        let pages = pages.parse::<u32>().map_err(|_| Trouble::Words)?;
        if plans > MOST_PLANS || pages == 0 || pages > MOST_PAGES {
            return Err(Trouble::TooMany);
        }
        Ok(Asked {
            threads,
            load: load_named(load.as_str(), are_copies)?,
            plans: plans / u64::from(threads),
            pages,
        })
    }
}

/// The load of this name, on copies or not. No copy is changed.
fn load_named(name: &str, are_copies: bool) -> Result<Load, Trouble> {
    match Kind::named(name) {
        Some(kind) if are_copies => Ok(Load::Copies(kind)),
        Some(kind) => Ok(Load::Trace(kind)),
        None if name == "hot" && !are_copies => Ok(Load::Hot),
        None => Err(Trouble::Words),
    }
}
