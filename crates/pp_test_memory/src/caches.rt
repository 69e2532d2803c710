//! The calls of a page cache that has no page yet.

use crate::answer::Answer;
use crate::printing::twice;
use crate::tried::Tried;
use pp_cache::{Cache, Create, Fetched};
use std::alloc::{AllocError, Global};

/// A key that an empty cache has no room for.
const KEY: u32 = 9;

/// Does the case of this call. Then the page of the key is fetched once more.
pub fn case<R: AllocGlobal + Print>(rt: &R, call: &str) -> anyhow::Result<()> {
    let cache = Cache::new(rt.alloc(), 2)?;
    let mut caching = Caching {
        alloc: rt.alloc(),
        call,
        cache,
    };
    tries(rt, &mut caching)
}

fn tries<R: AllocGlobal + Print>(rt: &R, caching: &mut Caching) -> anyhow::Result<()> {
    twice(rt, caching)?;
    println!(rt;
        "{:?}",
        caching.cache.fetch(rt.alloc(), KEY, Create::Always)
    )?;
    Ok(())
}

/// A cache, and a call on it.
#[derive(Drop)]
struct Caching<'a> {
    alloc: Global,
    call: &'a str,
    cache: Cache,
}

impl Tried for Caching<'_> {
    type Told = Answer;

    fn stand(&self) -> Option<Answer> {
        Some(Answer::One("pages", u64::from(self.cache.pages())))
    }

    fn call(&mut self) -> Answer {
        let reserved = match self.call {
            "Cache::reserve_key" => self.cache.reserve_key(self.alloc, KEY),
            "Cache::reserve" => self.cache.reserve(self.alloc, KEY),
            _ => return fetched(self.cache.fetch(self.alloc, KEY, Create::Always)),
        };
        match reserved {
            Ok(()) => Answer::One("pages", u64::from(self.cache.pages())),
            Err(error) => Answer::Lacking(error),
        }
    }
}

/// A fetch answers that there is no room where the memory for the page can't be had.
pub(crate) fn fetched(fetched: Fetched) -> Answer {
    match fetched {
        Fetched::Hit(frame) => Answer::One("hit", u64::from(frame)),
        Fetched::New(frame, _left) => Answer::One("new", u64::from(frame)),
        Fetched::Nothing => Answer::Nothing,
        Fetched::NoRoom => Answer::Lacking(AllocError),
    }
}
