//! A page cache of keys that lie far apart.

ghost use Rattle.std.specs.Prelude.{◌≡◌, ◌≢◌, ℕ, ◌+◌, ◌*◌, ◌<◌, ◌≤◌, max, ◌↔◌, Bool, not, nat_lt, is_some, length, ◌||◌};
ghost use Rattle.std.specs.Prelude.{Option, None, Some, IfSome, IsSome, IsNone, IsTrue, IsFalse, IfOk, IsOk, IsErr, if◌then◌else◌};
ghost use Rattle.pp_arc.specs.FourLists.{place};
ghost use Rattle.pp_cache.specs.Frames.{page_of, frame_of, resident_count, pinned_count, IsFree};
ghost use Rattle.pp_cache.specs.declared.left.Left.{Left};
ghost use Rattle.pp_cache.specs.Cache.{without_victim, left_of};

use crate::keys::{is_from, lower};
use crate::names::{give, left_by_key, name_of, sweep, take_left, take_unused};
use pp_cache::{Cache, Create, Fetched, Left, MOST_KEYS};
use pp_names::Names;
use std::alloc::{AllocError, Global};
use std::marker::Model;

/// The least room that is made for keys is for this one and those that are lower in number: for 16, so that a small cache
/// doesn't take memory at each of its first keys.
const FIRST_ROOM: u32 = 15;

/// A page cache: which page is in which frame, which pages are pinned, and which page leaves for another.
///
/// It keeps no bytes: frames are numbers, from 0 on, and there is one more of them, at most, than pages stood in frames at one
/// time. Its keys may lie far apart: each page that stands in a frame, or is remembered, needs room for one key, whatever that
/// is. Room for a key takes 72 bytes, and a frame 8 at most. Where all room is used, room is made for twice as many keys, for 16 at
/// first; meanwhile it takes half as much again. Memory is never given back.
///
/// A call looks the key up, which takes a step for each slot that is looked at: 1.5 on average, and at worst one for each key
/// that there is room for. No call blocks, and a cache belongs to one thread at a time.
///
/// A cache whose pages are all pinned gives none away, whatever its size is: so a host keeps what may not be lost.
#[derive(Drop)]
pub struct KeyedCache {
    /// The name of each key that stands in a list, or whose page stands in a frame.
    names: Names,
    /// The cache of these names.
    cache: Cache,
}

impl Model for KeyedCache {
    ghost use Rattle.pp_keyed.specs.Keyed.{Keyed};

    ghost Value = { Keyed };

    ghost use Rattle.pp_keyed.specs.Keyed.{keyed, IsKeyed};

    ghost view = { λ k. keyed k.names k.cache };

    ghost invariant = { λ k. IsKeyed k.names k.cache };
}

impl KeyedCache {
    ghost use Rattle.pp_cache.specs.Cache.{PageCache, asked, after_pin, after_bring_in, may_bring_in, dropped, after_unpin};
    ghost use Rattle.pp_cache.specs.Cache.{after_rekey, moved_page, KeepsOnly, is_idle, after_resize, IsSound, PinnedStay};
    ghost use Rattle.pp_keyed.specs.Keyed.{Keyed, empty_keyed, with_frame};

    /// A cache of `size` pages that nobody has pinned, for a start without room for any key.
    ///
    /// # Errors
    ///
    /// Only where 52 bytes can't be had.
    pub fn new(alloc: Global, size: u32) -> Result<KeyedCache, AllocError>
        requires holds_a_page { 1 ≤ size }
        ensures empty { IfOk result (λ cache. cache ≡ record { cache = empty_keyed size; room = 0; used = 0 }) }
    {
        Ok(KeyedCache {
            names: Names::new(alloc, 0)?,
            cache: Cache::new(alloc, size)?,
        })
    }

    /// The frame that has the page of the key, if one has it.
    pub fn frame(&self, key: u32) -> Option<u32>
        ensures value { result ≡ frame_of self.now.cache.table key }
        ensures keys { length self.now.cache.table.pages ≡ 4294967292 }
        ensures sound { IsSound self.now.cache }
    {
        let name = self.names.name(key)?;
        self.cache.frame(name)
    }

    /// How many pages stand in frames.
    pub fn pages(&self) -> u32
        ensures value { result ≡ resident_count self.now.cache.table }
    {
        let _ = &self.names;
        self.cache.pages()
    }

    /// How many of them are pinned.
    pub fn pinned(&self) -> u32
        ensures value { result ≡ pinned_count self.now.cache.table }
    {
        let _ = &self.names;
        self.cache.pinned()
    }

    /// How many frames there are: their numbers are below this one.
    pub fn frames(&self) -> u32
        ensures value { result ≡ self.now.cache.table.frames }
    {
        let _ = &self.names;
        self.cache.frames()
    }

    /// How many pages that nobody has pinned the cache holds at most.
    pub fn size(&self) -> u32
        ensures value { result ≡ self.now.cache.lists.c }
    {
        let _ = &self.names;
        self.cache.size()
    }

    /// For how many keys there is room. Their memory is 72 bytes for each; where more room was refused, the 56 for each key of
    /// that room may have been had already.
    pub fn room(&self) -> u32
        ensures value { result ≡ self.now.room }
    {
        let _ = &self.cache;
        self.names.len()
    }

    /// How many of these places are used: one for each key whose page stands in a frame, or that is remembered.
    pub fn used(&self) -> u32
        ensures value { result ≡ self.now.used }
        ensures few { result ≤ resident_count self.now.cache.table + length self.now.cache.lists.b1
            + length self.now.cache.lists.b2 }
        ensures fits { self.now.used ≤ self.now.room }
    {
        let _ = &self.cache;
        self.names.used()
    }

    /// The least key from this one on whose page stands in a frame. It takes a step for each key that there is room for.
    ///
    /// A host goes over all pages in frames by beginning at 0, and going on one behind the last answer.
    pub fn first_from(&self, from: u32) -> Option<u32>
        ensures first { IfSome result (λ key. (from ≤ key) × IsSome (page_of self.now.cache.table key)) }
        ensures least { (key : ℕ) → from ≤ key → IfSome result (λ first. key < first)
            → page_of self.now.cache.table key ≡ None }
    {
        let mut first = None;
        for name in 0..self.names.len() {
            if self.cache.frame(name).is_some() {
                first = lower(first, from, self.names.key(name));
            }
        }
        first
    }

    /// Whether a page that stands in no frame may be brought in.
    pub fn may_bring_in(&self, create: Create) -> bool
        ensures value { result ≡ may_bring_in self.now.cache create }
    {
        let _ = &self.names;
        self.cache.may_bring_in(create)
    }

    // ---- a page is asked for

    /// Pins the page of the key, and answers its frame.
    ///
    /// Where it is brought in, the host fills its frame. Keys from 4,294,967,292 on are never brought in.
    ///
    /// [`Fetched::Nothing`] comes where the page is in no frame and `create` forbids to bring it in, and
    /// [`Fetched::NoRoom`] where the memory for it can't be had. Where there is room for one more key and a frame for one more
    /// page, as [`KeyedCache::reserve`] makes them, that never comes.
    #[inline(always)]
    pub fn fetch(&mut self, alloc: Global, key: u32, create: Create) -> Fetched
        ensures hit { (frame : ℕ) → (result ≡ Fetched.Hit frame) ↔ (frame_of self.old.cache.table key ≡ Some frame) }
        ensures after_hit { (frame : ℕ) → result ≡ Fetched.Hit frame → self.new ≡ (record self.old {
          cache = after_pin self.old.cache key;
        }) }
        ensures new { (frame : ℕ) (left : Option Left) → result ≡ Fetched.New frame left
            → self.new.cache ≡ after_bring_in (with_frame self.old.cache) key frame }
        ensures new_is_free { (frame : ℕ) (left : Option Left) → result ≡ Fetched.New frame left
            → IsFree (without_victim (with_frame self.old.cache).table (asked self.old.cache key).0) frame }
        ensures left { (frame : ℕ) (left : Option Left) → result ≡ Fetched.New frame left
            → left ≡ left_of self.old.cache.table (asked self.old.cache key).0 }
        ensures may_be_new { (frame : ℕ) (left : Option Left) → result ≡ Fetched.New frame left
            → IsTrue (may_bring_in self.old.cache create) }
        ensures nothing { (result ≡ Fetched.Nothing)
            ↔ ((frame_of self.old.cache.table key ≡ None) × IsFalse (may_bring_in self.old.cache create)) }
        ensures unchanged { result ≡ Fetched.Nothing → self.new ≡ self.old }
        ensures key { (frame : ℕ) (left : Option Left) → result ≡ Fetched.New frame left → key < 4294967292 }
        ensures no_room { result ≡ Fetched.NoRoom → self.new.cache ≡ self.old.cache }
        ensures used { self.new.used ≤ self.old.used + 1 }
        ensures none_used { result ≡ Fetched.NoRoom → self.new.used ≡ self.old.used }
        ensures succeeds { key < 4294967292 → self.old.used < self.old.room
            → resident_count self.old.cache.table < self.old.cache.table.frames → result ≢ Fetched.NoRoom }
        ensures more { self.old.room ≤ self.new.room }
        ensures kept { self.old.used < self.old.room → self.new.room ≡ self.old.room }
        ensures bounded { self.new.room ≤ max (2 * self.old.room) 16 }
        ensures pinned_stay { PinnedStay self.old.cache.table self.new.cache.table }
        ensures sound { IsSound self.new.cache }
    {
        if let Some(frame) = self.pin(key) {
            return Fetched::Hit(frame);
        }
        if !self.may_bring_in(create) {
            return Fetched::Nothing;
        }
        self.fetch_new(alloc, key)
    }

    /// Pins the page of the key where it stands in a frame.
    #[inline(always)]
    pub fn pin(&mut self, key: u32) -> Option<u32>
        ensures value { result ≡ frame_of self.old.cache.table key }
        ensures exact { self.new ≡ (if is_some result then (record self.old { cache = after_pin self.old.cache key })
            else self.old) }
        ensures pinned_stay { PinnedStay self.old.cache.table self.new.cache.table }
        ensures sound { IsSound self.new.cache }
    {
        let name = self.names.name(key)?;
        self.cache.pin(name)
    }

    /// Brings the page of a key in, which stands in no frame, where the memory for it can be had.
    fn fetch_new(&mut self, alloc: Global, key: u32) -> Fetched
        requires absent { page_of self.old.cache.table key ≡ None }
        ensures way { (result ≢ Fetched.Nothing) × ((frame : ℕ) → result ≢ Fetched.Hit frame) }
        ensures new { (frame : ℕ) (left : Option Left) → result ≡ Fetched.New frame left
            → self.new.cache ≡ after_bring_in (with_frame self.old.cache) key frame }
        ensures new_is_free { (frame : ℕ) (left : Option Left) → result ≡ Fetched.New frame left
            → IsFree (without_victim (with_frame self.old.cache).table (asked self.old.cache key).0) frame }
        ensures left { (frame : ℕ) (left : Option Left) → result ≡ Fetched.New frame left
            → left ≡ left_of self.old.cache.table (asked self.old.cache key).0 }
        ensures key { (frame : ℕ) (left : Option Left) → result ≡ Fetched.New frame left → key < 4294967292 }
        ensures no_room { result ≡ Fetched.NoRoom → self.new.cache ≡ self.old.cache }
        ensures used { self.new.used ≤ self.old.used + 1 }
        ensures none_used { result ≡ Fetched.NoRoom → self.new.used ≡ self.old.used }
        ensures succeeds { key < 4294967292 → self.old.used < self.old.room
            → resident_count self.old.cache.table < self.old.cache.table.frames → result ≢ Fetched.NoRoom }
        ensures more { self.old.room ≤ self.new.room }
        ensures kept { self.old.used < self.old.room → self.new.room ≡ self.old.room }
        ensures bounded { self.new.room ≤ max (2 * self.old.room) 16 }
        ensures pinned_stay { PinnedStay self.old.cache.table self.new.cache.table }
        ensures sound { IsSound self.new.cache }
    {
        let _ = &self.names;
        if key >= MOST_KEYS {
            return Fetched::NoRoom;
        }
        match self.reserve(alloc) {
            Ok(()) => {
                let (frame, left) = self.bring_in(key);
                Fetched::New(frame, left)
            }
            Err(_) => Fetched::NoRoom,
        }
    }

    /// Puts the page of a key, which stands in no frame, into one, and pins it. There is room for one more key, and a frame
    /// for one more page.
    fn bring_in(&mut self, key: u32) -> (u32, Option<Left>)
        requires key { key < 4294967292 }
        requires absent { page_of self.old.cache.table key ≡ None }
        requires room { self.old.used < self.old.room }
        requires frame { resident_count self.old.cache.table < self.old.cache.table.frames }
        ensures exact { self.new.cache ≡ after_bring_in self.old.cache key result.0 }
        ensures free { IsFree (without_victim self.old.cache.table (asked self.old.cache key).0) result.0 }
        ensures left { result.1 ≡ left_of self.old.cache.table (asked self.old.cache key).0 }
        ensures room { self.new.room ≡ self.old.room }
        ensures used { self.new.used ≤ self.old.used + 1 }
        ensures pinned_stay { PinnedStay self.old.cache.table self.new.cache.table }
        ensures sound { IsSound self.new.cache }
    {
        let name = give(&mut self.names, key);
        let dropped = self.cache.dropped_key(name);
        let (frame, left) = self.cache.bring_in(name);
        let left_by_key = left_by_key(&self.names, left);
        take_unused(&mut self.names, &self.cache, dropped);
        take_unused(&mut self.names, &self.cache, name_of(left));
        (frame, left_by_key)
    }

    // ---- room

    /// Makes room for one more key, and a frame for one more page, so that the next page can be brought in. (One place stays
    /// free, also where the next page is remembered, and has one.)
    ///
    /// # Errors
    ///
    /// Where the memory can't be had. Then no page, no list and no frame has changed. Where there is room already, it takes no
    /// memory, and none comes.
    pub fn reserve(&mut self, alloc: Global) -> Result<(), AllocError>
        ensures reserved { IsOk result → self.new.cache ≡ with_frame self.old.cache }
        ensures room { IsOk result → self.new.used < self.new.room }
        ensures frame { IsOk result → resident_count self.new.cache.table < self.new.cache.table.frames }
        ensures succeeds { self.old.used < self.old.room
            → resident_count self.old.cache.table < self.old.cache.table.frames → IsOk result }
        ensures unchanged { IsErr result → self.new.cache ≡ self.old.cache }
        ensures used { self.new.used ≡ self.old.used }
        ensures more { self.old.room ≤ self.new.room }
        ensures kept { self.old.used < self.old.room → self.new.room ≡ self.old.room }
        ensures bounded { self.new.room ≤ max (2 * self.old.room) 16 }
        ensures sound { IsSound self.new.cache }
    {
        self.reserve_name(alloc)?;
        self.reserve_frame()
    }

    /// Makes a frame for one more page.
    fn reserve_frame(&mut self) -> Result<(), AllocError>
        ensures reserved { IsOk result → self.new ≡ (record self.old { cache = with_frame self.old.cache }) }
        ensures frame { IsOk result → resident_count self.new.cache.table < self.new.cache.table.frames }
        ensures succeeds { resident_count self.old.cache.table < self.old.cache.table.frames → IsOk result }
        ensures unchanged { IsErr result → self.new ≡ self.old }
        ensures sound { IsSound self.new.cache }
    {
        let _ = &self.names;
        self.cache.reserve_frame()
    }

    /// Makes room for one more key: where all room is used, for twice as many keys, or for 16 at first.
    fn reserve_name(&mut self, alloc: Global) -> Result<(), AllocError>
        ensures room { IsOk result → self.new.used < self.new.room }
        ensures succeeds { self.old.used < self.old.room → IsOk result }
        ensures unchanged { self.new.cache ≡ self.old.cache }
        ensures used { self.new.used ≡ self.old.used }
        ensures more { self.old.room ≤ self.new.room }
        ensures kept { self.old.used < self.old.room → self.new.room ≡ self.old.room }
        ensures bounded { self.new.room ≤ max (2 * self.old.room) 16 }
        ensures sound { IsSound self.new.cache }
    {
        if self.names.used() < self.names.len() {
            return Ok(());
        }
        self.cache
            .reserve_key(alloc, self.names.len().max(FIRST_ROOM))?;
        self.names.grow(alloc, self.cache.keys())
    }

    // ---- a page is let go

    /// Takes the pin off the page of the key. A page that is discarded leaves its frame and isn't remembered.
    ///
    /// A page beyond the size of the cache leaves its frame too. A page that isn't pinned stays as it is. The result says
    /// whether the page stands in a frame afterwards: where not, the host can give its bytes back.
    #[inline(always)]
    pub fn unpin(&mut self, key: u32, discard: bool) -> bool
        ensures stays { result ≡ is_some (page_of self.new.cache.table key) }
        ensures exact { self.new.cache ≡ after_unpin self.old.cache key discard }
        ensures others_stay { (other : ℕ) → other ≢ key
            → page_of self.new.cache.table other ≡ page_of self.old.cache.table other }
        ensures room { self.new.room ≡ self.old.room }
        ensures used { self.new.used ≤ self.old.used }
        ensures sound { IsSound self.new.cache }
    {
        let Some(name) = self.names.name(key) else {
            return false;
        };
        let stays = self.cache.unpin(name, discard);
        take_left(&mut self.names, &self.cache, name, stays);
        stays
    }

    /// The page of the key leaves its frame, pinned or not, and its name leaves the lists.
    pub fn drop_page(&mut self, key: u32)
        ensures exact { self.new.cache ≡ dropped self.old.cache key }
        ensures others_stay { (other : ℕ) → other ≢ key
            → page_of self.new.cache.table other ≡ page_of self.old.cache.table other }
        ensures room { self.new.room ≡ self.old.room }
        ensures used { self.new.used ≤ self.old.used }
        ensures sound { IsSound self.new.cache }
    {
        if let Some(name) = self.names.name(key) {
            self.cache.drop_page(name);
            take_unused(&mut self.names, &self.cache, Some(name));
        }
    }

    /// Gives the page of the key `old`, where it stands in a frame, the key `new`. What had that key is dropped.
    ///
    /// The page keeps its frame and its pin. It stays in its list, at the front. This takes no memory.
    pub fn rekey(&mut self, old: u32, new: u32)
        requires key { new < 4294967292 }
        ensures exact { self.new.cache ≡ after_rekey self.old.cache old new }
        ensures room { self.new.room ≡ self.old.room }
        ensures used { self.new.used ≤ self.old.used }
        ensures sound { IsSound self.new.cache }
    {
        let frame = self.frame(old);
        if old == new || frame.is_none() {
            return;
        }
        self.drop_page(new);
        self.move_page(old, new);
    }

    /// Gives the page of the key `old`, which stands in a frame, the key `new`, which stands nowhere.
    fn move_page(&mut self, old: u32, new: u32)
        requires key { new < 4294967292 }
        requires resident { IsSome (page_of self.old.cache.table old) }
        requires absent { page_of self.old.cache.table new ≡ None }
        requires unnamed { IsNone (place self.old.cache.lists new) }
        ensures exact { self.new.cache ≡ moved_page self.old.cache old new }
        ensures room { self.new.room ≡ self.old.room }
        ensures used { self.new.used ≡ self.old.used }
        ensures sound { IsSound self.new.cache }
    {
        if let Some(name) = self.names.name(old) {
            self.names.rename(name, new);
            self.cache.move_first(name);
        }
    }

    // ---- many pages at once

    /// Drops each page whose key is at least `limit`, pinned or not, and forgets such names.
    ///
    /// It takes a step for each key that there is room for.
    pub fn truncate(&mut self, limit: u32)
        ensures exact { KeepsOnly (λ key. nat_lt key limit) self.old.cache self.new.cache }
        ensures room { self.new.room ≡ self.old.room }
        ensures used { self.new.used ≤ self.old.used }
        ensures sound { IsSound self.new.cache }
    {
        for name in 0..self.names.len() {
            if is_from(limit, self.names.key(name)) {
                self.cache.drop_page(name);
                take_unused(&mut self.names, &self.cache, Some(name));
            }
        }
    }

    /// Drops each page that isn't pinned. It takes a step for each key that there is room for.
    pub fn shrink(&mut self)
        ensures exact { KeepsOnly (λ key. not (is_idle self.old.cache.table key)) self.old.cache self.new.cache }
        ensures room { self.new.room ≡ self.old.room }
        ensures used { self.new.used ≤ self.old.used }
        ensures sound { IsSound self.new.cache }
    {
        self.cache.shrink();
        sweep(&mut self.names, &self.cache);
    }

    // ---- another size

    /// Makes the cache one of `size` pages that nobody has pinned.
    ///
    /// Where it becomes smaller, pages leave one by one as ARC chooses them. Pinned pages keep their frames. It takes a
    /// step for each key that there is room for, and one for each pinned page that no search met since it was brought in.
    pub fn resize(&mut self, size: u32)
        requires holds_a_page { 1 ≤ size }
        ensures exact { self.new.cache ≡ after_resize self.old.cache size }
        ensures pinned_stay { PinnedStay self.old.cache.table self.new.cache.table }
        ensures room { self.new.room ≡ self.old.room }
        ensures used { self.new.used ≤ self.old.used }
        ensures sound { IsSound self.new.cache }
    {
        self.cache.resize(size);
        sweep(&mut self.names, &self.cache);
    }
}
