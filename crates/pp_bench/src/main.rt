//! The program `pp_bench`: plays a trace to a part of the pool, and prints what it counted.
//!
//! `pp_bench directory hit|skew|loop|mixed OPS [FRAMES]` prints how many of the requests missed, and `pp_bench pinned
//! OPS` the same of so many misses with no page held, with 1,000, 4,000 and all of 4,096. `pp_bench marks OPS
//! [FRAMES]` prints how many pages were brought in, each in place of another. `pp_bench moves hit|skew|loop|mixed OPS`
//! plays fixes, latches, unlatches and unfixes to the core, `pp_bench pool` the same to a vault over pages in memory, and
//! `pp_bench book` to a vault with its journal, without a lock; all three print how many pages were read. `pp_bench
//! lives` plays the trace twice, in two lives of one vault, and prints how many pages each of them read.
//!
//! `pp_bench large hit|skew|loop|mixed OPS [FRAMES PAGES BYTES]` is `pp_bench pool` with a vault of this size, 65,536
//! frames and 1,048,576 pages of 512 bytes where none is told, and over a device that keeps no page: it makes each when
//! it is read. The pages of the trace lie evenly among all page numbers. `pp_bench open [FRAMES PAGES BYTES]` opens such
//! a vault, and `pp_bench memory [FRAMES PAGES BYTES]` prints how many bytes a page number takes there.
//!
//! `pp_bench journal LINES` writes a journal of at least so many lines, and `pp_bench audit LINES` audits it from
//! standard input; it prints how many lines there were. `pp_bench segments LINES` makes segments of the journal of an
//! endless pool and audits each at once, until there are so many lines. `pp_bench write-segments DIR LINES PER_FILE
//! SETTINGS PLAN..` writes such segments into files of so many lines each.
//!
//! On standard error each run but `marks`, `journal` and `write-segments` says what one operation, one line, the
//! renewal or the opening took by the clock, from the first one's begin to the last one's end. How long these three
//! take is for the caller to measure.
#![tactic(auto)]

mod book;
mod directory;
mod disk;
mod journal;
mod marks;
mod moves;
mod opening;
mod pinned;
mod pool;
mod segments;
mod trouble;
mod watch;
mod words;

use std::env;
use std::process::ExitCode;
use trouble::{LIMITS, Trouble, USAGE};

/// Plays what the words of the command line ask for, and says what went wrong.
fn main(rt: HostRuntime) -> ExitCode {
    match play(&rt) {
        Ok(()) => ExitCode::SUCCESS,
        Err(trouble) => {
            trouble.tell(USAGE, LIMITS, &mut rt.stderr());
            ExitCode::from(trouble.status())
        }
    }
}

/// The first word says which part of the pool is played to.
fn play(rt: &HostRuntime) -> Result<(), Trouble> {
    let words: Vec<String> = env::args(rt)?.collect(rt.alloc())?;
    let Some(part) = words.get(1) else {
        return Err(Trouble::Words);
    };
    match part.as_str() {
        "directory" => directory::play(rt, &words[2..]),
        "pinned" => pinned::play(rt, &words[2..]),
        "marks" => marks::play(rt, &words[2..]),
        "moves" => moves::play(rt, &words[2..]),
        "pool" => pool::play(rt, &words[2..]),
        "book" => book::play(rt, &words[2..]),
        "large" => pool::play_large(rt, &words[2..]),
        "open" => opening::play(rt, &words[2..]),
        "memory" => opening::weigh(rt, &words[2..]),
        "lives" => pool::play_lives(rt, &words[2..]),
        "journal" => journal::write(rt, &words[2..]),
        "audit" => journal::audit(rt, &words[2..]),
        "segments" => segments::audit(rt, &words[2..]),
        "write-segments" => segments::write(rt, &words[2..]),
        _ => Err(Trouble::Words),
    }
}
