//! Makes calls that look like chance on a page cache, and compares each answer with that of a plain program.
//!
//! After each call the frame of every key is compared as well, so a page that leaves otherwise shows at once. A host keeps
//! a number in the place of the bytes of each frame, and finds it again at each hit. Keys lie close together, or far apart,
//! and after some thousand calls all pages are dropped, and other keys come. In a quarter of the calls pages are unpinned so
//! seldom that in the end all are pinned.

ghost use Rattle.std.specs.Prelude.{◌<◌};

use crate::plain::{PlainCache, Want};
use pp_cache::{Create, Fetched, Left};
use pp_keyed::KeyedCache;
use pp_test_plain::Chance;
use std::alloc::{AllocError, Global};

/// How many calls are made: each kind of call and answer comes a thousand times or more.
const CALLS: u32 = 1_000_000;

/// How many kinds of calls and answers are counted.
const KINDS: usize = 10;

/// How many keys are asked for: more than a cache has frames, which are 24 at most, so that pages leave.
const KEYS: u32 = 40;

/// The last of them: no page of a greater key is ever brought in.
const GREATEST: u32 = 4_294_967_291;

/// After so many calls other keys come.
const ROUND: u32 = 5000;

/// For so many keys there is room in the end: for 16 at first, and then for twice as many where all are used.
const ROOM: u32 = 64;

/// What both caches are asked, and what the host keeps.
#[derive(Drop)]
struct Walk {
    chance: Chance,
    cache: KeyedCache,
    plain: PlainCache,
    /// How far apart the keys are.
    apart: u32,
    /// The key whose bytes each frame has.
    bytes: Vec<u32>,
    /// How often each kind of call and answer came.
    came: [u32; KINDS],
}

impl Walk {
    /// Counts one more of this kind.
    fn count(&mut self, kind: usize) {
        if let Some(came) = self.came.get_mut(kind) {
            *came = came.saturating_add(1);
        }
    }

    /// The key of this place, from 0 on. They rise, and the last one is the greatest of all.
    fn key_at(&self, place: u32) -> u32
        ensures { result < 4294967292 }
    {
        if place.saturating_add(1) < KEYS {
            place.saturating_mul(self.apart).min(GREATEST)
        } else {
            GREATEST
        }
    }

    fn key(&mut self) -> u32
        ensures { result < 4294967292 }
    {
        let most = self.chance.below(KEYS).saturating_add(1);
        let place = self.chance.below(most);
        self.key_at(place)
    }

    /// All pages are dropped, and other keys come: close together, or up to 110,127,366 apart.
    fn begin_round(&mut self, alloc: Global) -> Result<(), AllocError> {
        let most = if self.chance.below(2) == 0 {
            9
        } else {
            110_127_366
        };
        self.apart = self.chance.below(most).saturating_add(1);
        self.cache.truncate(0);
        self.plain.truncate(alloc, 0)
    }

    /// The host fills a frame.
    fn fill(&mut self, frame: u32, key: u32) -> Result<(), AllocError> {
        if frame as usize >= self.bytes.len() {
            self.bytes.resize((frame as usize).saturating_add(1), 0)?;
        }
        if let Some(bytes) = self.bytes.get_mut(frame as usize) {
            *bytes = key;
        }
        Ok(())
    }

    /// The key whose bytes a frame has.
    fn has(&self, frame: u32) -> Option<u32> {
        self.bytes.get(frame as usize).copied()
    }

    /// Whether the page that left this frame is the one that leaves plainly. Its bytes are still there.
    fn is_left(&self, frame: u32, left: Option<Left>, leaves: Option<(u32, u32)>) -> bool {
        match (left, leaves) {
            (None, None) => true,
            (Some(left), Some((key, other))) => {
                left.key == key
                    && left.frame == other
                    && other == frame
                    && self.has(frame) == Some(key)
            }
            _ => false,
        }
    }

    fn fetch(&mut self, alloc: Global) -> anyhow::Result<bool> {
        let key = self.key();
        let create = match self.chance.below(8) {
            0 => Create::Never,
            1 | 2 | 3 => Create::IfRoom,
            _ => Create::Always,
        };
        let want = self.plain.fetch(key, create)?;
        match (self.cache.fetch(alloc, key, create), want) {
            (Fetched::Hit(frame), Want::Hit(plainly)) => {
                self.count(0);
                Ok(frame == plainly && self.has(frame) == Some(key))
            }
            (Fetched::New(frame, left), Want::New(leaves)) => {
                self.count(1);
                if !self.is_left(frame, left, leaves) {
                    return Ok(false);
                }
                self.fill(frame, key)?;
                Ok(self.plain.admit(key, frame)?)
            }
            (Fetched::Nothing, Want::Nothing) => {
                self.count(2);
                Ok(true)
            }
            _ => Ok(false),
        }
    }

    fn unpin(&mut self) -> bool {
        let key = self.key();
        let discard = self.chance.below(8) == 0;
        self.count(if discard { 3 } else { 4 });
        let stays = self.cache.unpin(key, discard);
        self.plain.unpin(key, discard);
        stays == self.plain.frame(key).is_some()
    }

    /// A page gets another key, for which no room has to be made.
    fn rekey(&mut self) -> anyhow::Result<()> {
        let old = self.key();
        let new = self.key();
        self.count(5);
        if let Some(frame) = self.cache.frame(old) {
            self.fill(frame, new)?;
        }
        self.cache.rekey(old, new);
        self.plain.rekey(old, new)?;
        Ok(())
    }

    /// Makes one call on both, and says whether they answer the same. Where many stay, pages are unpinned so seldom that in
    /// the end all are pinned.
    fn turn(&mut self, alloc: Global, many_stay: bool) -> anyhow::Result<bool> {
        let kind = self.chance.below(100);
        if kind < if many_stay { 80 } else { 35 } {
            return self.fetch(alloc);
        }
        if kind < 90 {
            return Ok(self.unpin());
        }
        if self.plain.pinned_count() == self.plain.count()
            && self.plain.count() > self.plain.size as usize
        {
            self.count(9);
        }
        if kind < 94 {
            self.rekey()?;
        } else if kind < 95 {
            let place = self.chance.below(25).saturating_add(15);
            let limit = self.key_at(place).saturating_add(self.chance.below(2));
            self.count(6);
            self.cache.truncate(limit);
            self.plain.truncate(alloc, limit)?;
        } else if kind < 96 {
            self.count(7);
            self.cache.shrink();
            self.plain.shrink();
        } else {
            let size = self.chance.below(24).saturating_add(1);
            self.count(8);
            self.cache.resize(size);
            self.plain.resize(size)?;
        }
        Ok(true)
    }

    /// Whether each key has the same frame in both, and as many keys are known.
    fn agrees(&self) -> bool {
        let mut known: u32 = 0;
        for place in 0..KEYS {
            let key = self.key_at(place);
            if self.cache.frame(key) != self.plain.frame(key) {
                return false;
            }
            if self.plain.knows(key) {
                known = known.saturating_add(1);
            }
        }
        self.cache.pages() as usize == self.plain.count()
            && self.cache.pinned() as usize == self.plain.pinned_count()
            && self.cache.size() == self.plain.size
            && self.cache.used() == known
            && self.cache.room() <= ROOM
            && self.goes_over_all()
    }

    /// Whether going on from key to key comes to each page that stands in a frame.
    fn goes_over_all(&self) -> bool {
        let mut at = self.cache.first_from(0);
        for place in 0..KEYS {
            let key = self.key_at(place);
            if self.plain.frame(key).is_some() {
                if at != Some(key) {
                    return false;
                }
                at = self.cache.first_from(key.saturating_add(1));
            }
        }
        at.is_none()
    }
}

fn new_walk(alloc: Global) -> Result<Walk, AllocError> {
    let cache = KeyedCache::new(alloc, 12)?;
    Ok(Walk {
        chance: Chance::new(),
        cache,
        plain: PlainCache::new(alloc, 12),
        apart: 1,
        bytes: Vec::new(alloc),
        came: [0; KINDS],
    })
}

/// Makes all calls.
fn walk_all(alloc: Global, walk: &mut Walk) -> anyhow::Result<()> {
    for made in 0..CALLS {
        if made % ROUND == 0 {
            walk.begin_round(alloc)?;
        }
        if !walk.turn(alloc, made / ROUND % 4 == 3)? || !walk.agrees() {
            anyhow::bail!("call {made} is answered otherwise");
        }
    }
    Ok(())
}

/// Makes all calls, and tells what came.
pub fn walked(alloc: Global) -> anyhow::Result<String> {
    let mut walk = new_walk(alloc)?;
    walk_all(alloc, &mut walk)?;
    let kinds = walk.came.iter().filter(|came| **came >= 1000).count();
    Ok(format!(in alloc;
        "{CALLS} calls, all answers agree\neach of {kinds} kinds of calls and answers came a thousand times or more"
    )?)
}
