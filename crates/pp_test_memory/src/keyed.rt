//! The calls of names that are to be more, and of a page cache of keys that lie far apart, which has no page yet.

use crate::answer::Answer;
use crate::caches::fetched;
use crate::printing::twice;
use crate::tried::Tried;
use pp_cache::Create;
use pp_keyed::KeyedCache;
use pp_names::Names;
use std::alloc::Global;

/// The greatest key of all.
const KEY: u32 = 4_294_967_291;

/// Does the case of this call. Then the page of the key is fetched once more, and the name of the key is looked up.
pub fn case<R: AllocGlobal + Print>(rt: &R, call: &str) -> anyhow::Result<()> {
    let mut names = Names::new(rt.alloc(), 1)?;
    let cache = KeyedCache::new(rt.alloc(), 2)?;
    let name = names.give(KEY);
    let mut naming = Naming {
        alloc: rt.alloc(),
        call,
        cache,
        names,
    };
    tries(rt, &mut naming, name)
}

fn tries<R: AllocGlobal + Print>(rt: &R, naming: &mut Naming, name: u32) -> anyhow::Result<()> {
    twice(rt, naming)?;
    println!(rt;
        "{:?}, name {name} is {:?}",
        naming.cache.fetch(rt.alloc(), KEY, Create::Always),
        naming.names.name(KEY)
    )?;
    Ok(())
}

/// A cache and names, and a call on one of them.
#[derive(Drop)]
struct Naming<'a> {
    alloc: Global,
    call: &'a str,
    cache: KeyedCache,
    names: Names,
}

impl Tried for Naming<'_> {
    type Told = Answer;

    fn stand(&self) -> Option<Answer> {
        Some(self.told("used", self.cache.used()))
    }

    fn call(&mut self) -> Answer {
        let made = match self.call {
            "KeyedCache::reserve" => self.cache.reserve(self.alloc),
            "Names::grow" => self.names.grow(self.alloc, self.names.len().max(40)),
            _ => return fetched(self.cache.fetch(self.alloc, KEY, Create::Always)),
        };
        match made {
            Ok(()) => self.told("room", self.cache.room()),
            Err(error) => Answer::Lacking(error),
        }
    }
}

impl Naming<'_> {
    /// How many pages and names there are, and a number of the cache's. A refused call may leave more room, and nothing else.
    fn told(&self, what: &'static str, number: u32) -> Answer {
        Answer::Three(
            "pages",
            u64::from(self.cache.pages()),
            what,
            u64::from(number),
            "names",
            u64::from(self.names.len()),
        )
    }
}
