//! Plays misses to ARC's directory while pages are held.

ghost use Rattle.std.specs.Prelude.{◌≡◌, ◌≤◌, ◌<◌, nat_lt};
ghost use Rattle.pp_arc.specs.Search.{KnowsBusy};

use crate::trouble::Trouble;
use crate::watch::{self, Counted, Watch};
use pp_arc::{Answer, Busy, Directory, Search};
use pp_bench_traces::PAGES;

/// How many frames there are.
const FRAMES: u32 = 4096;

/// The first of the pages that are never held.
const FIRST: u32 = 8192;

/// The pages below a number are held: they may not leave.
#[derive(Clone, Copy)]
struct Held(u32);

impl Busy for Held {
    ghost busy = { λ held page. nat_lt page held.0 };

    fn is_busy(&self, page: u32) -> bool {
        page < self.0
    }
}

/// Plays as many misses as the word says to a directory of 4,096 frames: with no page held, with 1,000, with 4,000, and with all, where
/// no page may come in. Prints of each how many pages are held and how many requests missed, and on standard error how many
/// nanoseconds each took.
pub fn play(rt: &HostRuntime, words: &[String]) -> Result<(), Trouble> {
    let [ops] = words else {
        return Err(Trouble::Words);
    };
    let ops = ops.parse::<u64>().map_err(|_| Trouble::Words)?;
    for held in [0, 1000, 4000, FRAMES] {
        play_held(rt, ops, held)?;
    }
    Ok(())
}

/// The same with so many pages held.
fn play_held(rt: &HostRuntime, ops: u64, held: u32) -> Result<(), Trouble> {
    let mut directory = Directory::new(rt.alloc(), FRAMES, PAGES)?;
    let mut search = Search::new(rt.alloc(), FRAMES, PAGES)?;
    let _ = misses(&mut directory, &mut search, held, 0, u64::from(held));
    let watch = Watch::start(rt);
    let missed = misses(&mut directory, &mut search, held, FIRST, ops);
    let nanos = watch.nanos(rt);
    let counted = Counted::Two(u64::from(held), missed);
    watch::tell(rt, counted, nanos, ops, "a request")
}

/// How many requests for pages from the first one on miss, one page after another and round at the last one.
fn misses(directory: &mut Directory, search: &mut Search, held: u32, first: u32, ops: u64) -> u64
    requires pages { 65536 ≤ directory.old.pages }
    requires first { first < 65536 }
    requires knows { KnowsBusy directory.old search.old (λ page. nat_lt page held) }
    ensures misses { result ≤ ops }
    ensures knows { KnowsBusy directory.new search.new (λ page. nat_lt page held) }
    ensures pages { directory.new.pages ≡ directory.old.pages }
{
    let busy = Held(held);
    let mut count = 0;
    let mut page = first;
    for _ in 0..ops {
        if directory.request(page, search, &busy) != Answer::Hit {
            count += 1;
        }
        page = if page + 1 < PAGES { page + 1 } else { first };
    }
    count
}
