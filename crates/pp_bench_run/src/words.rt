//! What the words of the command line ask for.

ghost use Rattle.std.specs.Prelude.{◌<◌, ◌≤◌, IfOk};

use crate::trouble::Trouble;
use pp_bench_traces::{FRAMES, Kind, MOST_OPS, PAGES};

/// A run that is asked for.
#[derive(Clone, Copy)]
pub struct Asked {
    /// How many workers there are.
    pub workers: u32,
    /// The kind of their traces.
    pub kind: Kind,
    /// For a cache of how many frames the traces are.
    pub frames: u32,
    /// How many pages each worker holds meanwhile.
    pub held: u32,
    /// How many operations each worker does.
    pub ops: u64,
    /// Whether a lock is timed, too.
    pub times_lock: bool,
}

impl Asked {
    /// The run that the words of the command line ask for, the program's name first. Where no number of workers stands
    /// there it is one worker, and no lock is timed.
    pub fn of(words: &[String]) -> Result<Asked, Trouble>
        ensures workers { IfOk result (λ asked. (0 < asked.workers) × (asked.workers ≤ 32)) }
        ensures ops { IfOk result (λ asked. asked.ops ≤ 250000) }
    {
        match words {
            [_, kind, ops] => Asked::shared(1, kind.as_str(), ops.as_str(), false),
            [_, word, pages, ops] if word.as_str() == "held" => {
                Asked::while_held(pages.as_str(), ops.as_str())
            }
            [_, workers, kind, ops] => {
                let workers = workers.parse::<u32>().map_err(|_| Trouble::Words)?;
                if workers == 0 || workers > 32 {
                    return Err(Trouble::Words);
                }
                Asked::shared(workers, kind.as_str(), ops.as_str(), true)
            }
            _ => Err(Trouble::Words),
        }
    }

    /// So many operations of one worker that holds so many pages, on pages that it doesn't hold.
    fn while_held(pages: &str, ops: &str) -> Result<Asked, Trouble>
        ensures workers { IfOk result (λ asked. (0 < asked.workers) × (asked.workers ≤ 32)) }
        ensures ops { IfOk result (λ asked. asked.ops ≤ 250000) }
    {
        let held = pages.parse::<u32>().map_err(|_| Trouble::Words)?;
        let asked = Asked::shared(1, "loop", ops, false)?;
        // All page numbers, one after the other.
        Ok(Asked {
            frames: PAGES,
            held,
            ..asked
        })
    }

    /// So many operations on a trace of the kind, shared among the workers; what is left of the division isn't done.
    fn shared(workers: u32, kind: &str, ops: &str, times_lock: bool) -> Result<Asked, Trouble>
        requires { (0 < workers) × (workers ≤ 32) }
        ensures workers { IfOk result (λ asked. (0 < asked.workers) × (asked.workers ≤ 32)) }
        ensures ops { IfOk result (λ asked. asked.ops ≤ 250000) }
    {
        let kind = Kind::named(kind).ok_or(Trouble::Words)?;
        let ops = ops.parse::<u64>().map_err(|_| Trouble::Words)?;
        if ops > MOST_OPS {
            return Err(Trouble::TooMany);
        }
        Ok(Asked {
            workers,
            kind,
            frames: FRAMES,
            held: 0,
            ops: ops / u64::from(workers),
            times_lock,
        })
    }
}
