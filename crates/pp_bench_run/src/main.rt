//! The program `pp_bench_run`: workers on threads follow traces in a pool over pages in memory.
//!
//! `pp_bench_run WORKERS hit|skew|loop|mixed OPS` shares so many operations among the workers: there are as many plans as
//! workers, and a worker that is done before another has begun takes the other's plan too. Each operation fixes a page,
//! latches it S, looks at its front, unlatches it and unfixes it, which are four events where the page is cached. It
//! prints how many pages had to be read. For few operations that depends on who did how many, since each worker follows a
//! trace of its own. On standard error it says how long the run took, from the first operation's begin to the last one's
//! end, divided by the number of all operations and of four events each; and how long as many threads took to lock and
//! unlock a lock as often as there were events. Without WORKERS it is one worker, and no lock is timed.
//!
//! `pp_bench_run held PAGES OPS` has one worker gather so many pages first, of 4,096 frames, and then do operations on pages
//! that aren't cached, one after the other. The pages that are gathered are counted as read, and gathering them isn't timed.
#![tactic(auto)]

mod clocked;
mod locks;
mod run;
mod trouble;
mod words;

use std::env;
use std::process::ExitCode;
use std::rt::Runtime;
use std::sync::Wait;
use std::thread::Threads;
use trouble::{LIMITS, Trouble, USAGE};
use words::Asked;

/// Runs what the words of the command line ask for, and says what went wrong.
fn main(rt: HostRuntime) -> ExitCode {
    match play(&rt) {
        Ok(()) => ExitCode::SUCCESS,
        Err(trouble) => {
            trouble.tell(USAGE, LIMITS, &mut rt.stderr());
            ExitCode::from(trouble.status())
        }
    }
}

/// Runs what the words ask for, and prints what was counted. The times go to standard error.
fn play<R: Runtime + AllocGlobal + Threads + Wait + Copy + Sync + Send>(
    rt: &R,
) -> Result<(), Trouble> {
    let words: Vec<String> = env::args(rt)?.collect(rt.alloc())?;
    let asked = Asked::of(&words)?;
    let ran = run::run(*rt, asked)?;
    println!(rt; "{}", ran.misses)?;
    eprintln!(rt;
        "{} ns an operation, {} ns an event",
        ran.nanos / ran.operations.max(1),
        ran.nanos / ran.events.max(1)
    )?;
    if asked.times_lock {
        let times = ran.events / u64::from(asked.workers);
        let locked = locks::nanos(rt, rt.alloc(), asked.workers, times)?;
        eprintln!(rt; "{} ns a lock and unlock", locked / ran.events.max(1))?;
    }
    Ok(())
}
