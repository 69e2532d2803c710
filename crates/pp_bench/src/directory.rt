//! Plays a trace to ARC's directory.

ghost use Rattle.std.specs.Prelude.{◌≡◌, ◌≤◌, ◌<◌, false};
ghost use Rattle.pp_arc.specs.Search.{KnowsBusy};

use crate::trouble::Trouble;
use crate::watch::{self, Counted, Watch};
use pp_arc::{Answer, Busy, Directory, Search};
use pp_bench_traces::{Kind, PAGES, Trace};

/// No page is busy.
struct NoneBusy;

impl Busy for NoneBusy {
    ghost busy = { λ _ _. false };

    fn is_busy(&self, _page: u32) -> bool {
        false
    }
}

/// Plays the trace of the kind that the first word names, as many operations long as the second says, to
/// a directory of as many frames as the third says, or 4,096. Prints how many requests missed, and on standard error how many
/// nanoseconds each took.
pub fn play(rt: &HostRuntime, words: &[String]) -> Result<(), Trouble> {
    let (kind, ops, frames) = asked(words).ok_or(Trouble::Words)?;
    let mut directory = Directory::new(rt.alloc(), frames.max(1), PAGES)?;
    let mut search = Search::new(rt.alloc(), frames.max(1), PAGES)?;
    let watch = Watch::start(rt);
    let misses = misses(&mut directory, &mut search, Trace::new(kind, frames), ops);
    let nanos = watch.nanos(rt);
    watch::tell(rt, Counted::One(misses), nanos, ops, "an operation")
}

/// What the words ask for: the kind, how many operations, and how many frames.
fn asked(words: &[String]) -> Option<(Kind, u64, u32)> {
    let (kind, ops, frames) = match words {
        [kind, ops] => (kind, ops, 4096),
        [kind, ops, frames] => (kind, ops, frames.parse::<u32>().ok()?),
        _ => return None,
    };
    if frames == 0 {
        return None;
    }
    Some((
        Kind::named(kind.as_str())?,
        ops.parse::<u64>().ok()?,
        frames,
    ))
}

/// How many of the next requests of the trace miss.
fn misses(directory: &mut Directory, search: &mut Search, mut trace: Trace, ops: u64) -> u64
    requires pages { 65536 ≤ directory.old.pages }
    requires knows { KnowsBusy directory.old search.old (λ _. false) }
    ensures { result ≤ ops }
{
    let mut count = 0;
    for _ in 0..ops {
        if directory.request(trace.next_page(), search, &NoneBusy) != Answer::Hit {
            count += 1;
        }
    }
    count
}
