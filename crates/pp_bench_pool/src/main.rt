//! The program `pp_bench_pool`: threads of its own run plans on a pool that stands, over pages in memory.
//!
//! `pp_bench_pool THREADS hit|skew|loop|mixed|hot PLANS PAGES` shares so many plans among so many threads, each of so
//! many pages, one after the other: each page is fixed, latched S, looked at, unlatched and unfixed. With `hot` all
//! threads change one page: it is latched X. What is left where the plans are divided isn't done. It prints how many
//! plans were done, and how many pages they fixed.
//!
//! On standard error it says how long all of it took, divided by the number of the pages, and what a plan took from the
//! call to its end. Half of the plans took no longer than the first number, 99 of 100 no longer than the second, and
//! none longer than the third. Those don't count there that weren't done, or of which the clock didn't tell.
#![tactic(auto)]

mod asked;
mod client;
mod served;
mod times;

use asked::{Asked, LIMITS, USAGE};
use served::Trouble;
use std::env;
use std::process::ExitCode;
use std::rt::Runtime;
use std::sync::Wait;
use std::thread::Threads;

/// Serves what the words of the command line ask for, and says what went wrong.
fn main(rt: HostRuntime) -> ExitCode {
    match play(&rt) {
        Ok(()) => ExitCode::SUCCESS,
        Err(trouble) => {
            trouble.tell(USAGE, LIMITS, &mut rt.stderr());
            ExitCode::from(trouble.status())
        }
    }
}

/// Serves what the words ask for, and prints what was counted. The times go to standard error.
fn play<R: Runtime + AllocGlobal + Threads + Wait + Copy + Sync + Send>(
    rt: &R,
) -> Result<(), Trouble> {
    let words: Vec<String> = env::args(rt)?.collect(rt.alloc())?;
    let asked = Asked::of(&words)?;
    let served = served::serve(*rt, asked)?;
    println!(rt; "{} plans, {} pages", served.plans, served.pages)?;
    eprintln!(rt;
        "{} ns a page; a plan took {} ns, {} ns, {} ns at most",
        served.nanos / served.pages.max(1),
        served.half,
        served.most_of_them,
        served.longest
    )?;
    Ok(())
}
