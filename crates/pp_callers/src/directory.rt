//! ARC's directory alone: a cache of any kind of page asks it what to replace.

ghost use Rattle.std.specs.Prelude.{◌≡◌, ◌<◌, ◌≤◌, ℕ, All, IfOk, length, false};

use pp_arc::{Answer, Busy, Directory, Search};
use std::alloc::{AllocError, Global};

/// How many pages the cache holds.
const CACHED: u32 = 2;

/// Every page number is below this one.
const PAGES: u32 = 100;

/// No page is in use.
struct Nobody;

impl Busy for Nobody {
    ghost busy = { λ _ _. false };

    fn is_busy(&self, _page: u32) -> bool {
        false
    }
}

/// How many of these requests miss a cache of two pages that is empty at first.
pub fn misses(alloc: Global, requests: &[u32]) -> Result<usize, AllocError>
    requires { All (λ page. page < 100) requests.now }
    ensures { IfOk result (λ misses. misses ≤ length requests.now) }
{
    let mut directory = Directory::new(alloc, CACHED, PAGES)?;
    let mut search = Search::new(alloc, CACHED, PAGES)?;
    let mut misses = 0;
    for page in requests {
        // Where the answer isn't `Hit`, a real cache reads the page here: into a free frame, or into the victim's.
        if directory.request(*page, &mut search, &Nobody) != Answer::Hit {
            misses += 1;
        }
    }
    Ok(misses)
}
