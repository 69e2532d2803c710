//! The cache.

ghost use Rattle.std.specs.Prelude.{◌≡◌, ◌≢◌, ℕ, ◌+◌, ◌*◌, ◌<◌, ◌≤◌, ◌↔◌, Bool, true, false, not, nat_lt, is_some, length, ◌&&◌, ◌==◌};
ghost use Rattle.std.specs.Prelude.{◌||◌, Option, None, Some, IfSome, IsSome, IsTrue, IsFalse, IfOk, IsOk, IsErr, if◌then◌else◌};
ghost use Rattle.pp_arc.specs.Pages.{contains};
ghost use Rattle.pp_arc.specs.FourLists.{list_of, is_cached, cached_count, place};
ghost use Rattle.pp_arc.specs.Sizes.{dropped_name, renamed};
ghost use Rattle.pp_arc.specs.Laws.{AllCachedAreBusy};
ghost use Rattle.pp_cache.specs.Frames.{page_of, frame_of, is_pinned, resident_count, pinned_count, IsFree, with_page};
ghost use Rattle.pp_cache.specs.Frames.{with_pinned, with_free_frame};
ghost use Rattle.pp_cache.specs.declared.left.Left.{Left};
ghost use Rattle.pp_cache.specs.Cache.{keys_for, without_victim, left_of};

use crate::frames::Frames;
use crate::leaving::Leaving;
use crate::{Create, Fetched, Left};
use pp_arc::{Answer, Busy, Directory, Links, List, Search};
use std::alloc::{AllocError, Global};
use std::marker::Model;

/// Each key is below this number. pp_arc numbers its records by 32 bits, and keeps four besides one for each key. Page
/// numbers of a pool have the same limit, in the settings, which a page cache doesn't know.
pub const MOST_KEYS: u32 = 4_294_967_292;

/// The pages that are pinned: they may not leave.
#[derive(Clone, Copy)]
struct Pinned<'a> {
    frames: &'a Frames,
}

impl Busy for Pinned<'_> {
    ghost busy = { λ pinned. is_pinned pinned.frames.now };

    fn is_busy(&self, page: u32) -> bool {
        self.frames.is_pinned(page)
    }
}

/// A page cache: which page is in which frame, which pages are pinned, and which page leaves for another.
///
/// It keeps no bytes: frames are numbers, from 0 on, and there is one more of them at most than pages stood in frames at
/// one time. Its memory grows with the greatest key and is never given back: 56 bytes for each key up to that one, or up
/// to twice as many. So where keys lie far apart, it is the inner cache of one that gives them small names (`pp_keyed`).
/// No call blocks, and a cache belongs to one thread at a time.
///
/// A cache whose pages are all pinned gives none away, whatever its size is: so a host keeps what may not be lost.
#[derive(Drop)]
pub struct Cache {
    directory: Directory<Links>,
    /// Where the searches for a page that isn't pinned stand.
    search: Search,
    frames: Frames,
}

impl Model for Cache {
    ghost use Rattle.pp_cache.specs.Cache.{PageCache};

    ghost Value = { PageCache };

    ghost use Rattle.pp_cache.specs.Searched.{IsSearched};

    ghost view = { λ c. record { lists = c.directory; table = c.frames } };

    ghost invariant = { λ c. IsSearched (record { lists = c.directory; table = c.frames }) c.search };
}

/// For how many keys there is room where this one comes.
fn keys_for(keys: u32, key: u32) -> u32
    requires fits { key < 4294967292 }
    ensures value { result ≡ keys_for keys key }
    ensures room { key < result }
    ensures most { result ≤ 4294967292 }
{
    keys.saturating_mul(2).max(key + 1).min(MOST_KEYS)
}

/// The victim of an answer leaves its frame. The result says who left.
fn make_way(frames: &mut Frames, answer: Answer) -> Option<Left>
    ensures left { result ≡ left_of frames.old answer }
    ensures exact { frames.new ≡ without_victim frames.old answer }
    ensures keys { length frames.new.pages ≡ length frames.old.pages }
    ensures fewer { resident_count frames.new ≤ resident_count frames.old }
    ensures same_frames { frames.new.frames ≡ frames.old.frames }
    ensures absent { (key : ℕ) → page_of frames.old key ≡ None → page_of frames.new key ≡ None }
{
    if let Answer::Evict(victim) = answer {
        let frame = frames.frame_or_zero(victim);
        frames.release(victim);
        Some(Left { key: victim, frame })
    } else {
        None
    }
}

impl Cache {
    ghost use Rattle.pp_cache.specs.Cache.{empty_cache, asked, after_pin, after_bring_in, is_crowded, may_bring_in, grown};
    ghost use Rattle.pp_cache.specs.Cache.{with_key, with_room, dropped, after_unpin, after_rekey, KeepsOnly, is_idle, stays};
    ghost use Rattle.pp_cache.specs.Cache.{moved_page, one_fewer, one_fewer_of, last_cached, after_resize, IsSound, PinnedStay, SamePages};

    /// A cache of `size` pages that nobody has pinned, for a start without room for any key.
    ///
    /// # Errors
    ///
    /// Only where 48 bytes can't be had.
    pub fn new(alloc: Global, size: u32) -> Result<Cache, AllocError>
        requires holds_a_page { 1 ≤ size }
        ensures empty { IfOk result (λ cache. cache ≡ empty_cache size) }
        ensures sound { IfOk result IsSound }
    {
        Ok(Cache {
            directory: Directory::growing(alloc, size, 0)?,
            search: Search::new(alloc, 0, 0)?,
            frames: Frames::new(alloc),
        })
    }

    /// The frame that has the page of the key, if one has it.
    pub fn frame(&self, key: u32) -> Option<u32>
        ensures value { result ≡ frame_of self.now.table key }
        ensures sound { IsSound self.now }
    {
        let page = self.frames.page(key)?;
        Some(page.frame)
    }

    /// How many pages stand in frames.
    pub fn pages(&self) -> u32
        ensures value { result ≡ resident_count self.now.table }
    {
        self.frames.resident()
    }

    /// How many of them are pinned.
    pub fn pinned(&self) -> u32
        ensures value { result ≡ pinned_count self.now.table }
    {
        self.frames.pinned()
    }

    /// How many frames there are: their numbers are below this one.
    pub fn frames(&self) -> u32
        ensures value { result ≡ self.now.table.frames }
    {
        self.frames.frames()
    }

    /// For how many keys there is room: for those below this number.
    pub fn keys(&self) -> u32
        ensures value { result ≡ length self.now.table.pages }
    {
        self.frames.keys()
    }

    /// How many pages that nobody has pinned the cache holds at most.
    pub fn size(&self) -> u32
        ensures value { result ≡ self.now.lists.c }
    {
        self.directory.size()
    }

    /// The least key from this one on whose page stands in a frame. It takes a step for each key that it passes over.
    ///
    /// A host goes over all pages in frames by beginning at 0, and going on one behind the last answer.
    pub fn first_from(&self, from: u32) -> Option<u32>
        ensures first { IfSome result (λ key. (from ≤ key) × IsSome (page_of self.now.table key)) }
        ensures least { (key : ℕ) → from ≤ key → IfSome result (λ first. key < first) → page_of self.now.table key ≡ None }
    {
        for key in from..self.frames.keys() {
            if self.frames.page(key).is_some() {
                return Some(key);
            }
        }
        None
    }

    /// Whether nine of ten pages are pinned, rounded down.
    fn is_crowded(&self) -> bool
        ensures { result ≡ is_crowded self.now }
    {
        u64::from(self.directory.size()) * 9 / 10 <= u64::from(self.frames.pinned())
    }

    /// Whether a page that stands in no frame may be brought in.
    pub fn may_bring_in(&self, create: Create) -> bool
        ensures { result ≡ may_bring_in self.now create }
    {
        match create {
            Create::Never => false,
            Create::IfRoom => !self.is_crowded(),
            Create::Always => true,
        }
    }

    /// Whether the page of the key is one of `T1` or `T2`.
    #[inline(always)]
    fn is_cached(&self, key: u32) -> bool
        ensures { result ≡ is_cached self.now.lists key }
    {
        matches!(self.directory.place(key), Some(List::T1) | Some(List::T2))
    }

    /// Whether the key stands in a list, or its page in a frame.
    pub fn stands(&self, key: u32) -> bool
        ensures value { result ≡ (is_some (place self.now.lists key) || is_some (page_of self.now.table key)) }
    {
        self.directory.place(key).is_some() || self.frames.page(key).is_some()
    }

    /// The remembered key that is dropped where the page of this one is brought in, if one is. Where that page gets a frame
    /// beyond the size of the cache, none is dropped.
    pub fn dropped_key(&self, key: u32) -> Option<u32>
        ensures value { result ≡ dropped_name self.now.lists key }
    {
        self.directory.dropped_name(key)
    }

    // ---- a page is asked for

    /// Pins the page of the key, and answers its frame.
    ///
    /// Where it is brought in, the host fills its frame. Keys from 4,294,967,292 on are never brought in.
    ///
    /// [`Fetched::Nothing`] comes where the page is in no frame and `create` forbids to bring it in, and
    /// [`Fetched::NoRoom`] where the memory for it can't be had. Where there is room for the key and a frame for one more page,
    /// as [`Cache::reserve`] makes them, that never comes.
    #[inline(always)]
    pub fn fetch(&mut self, alloc: Global, key: u32, create: Create) -> Fetched
        ensures hit { (frame : ℕ) → (result ≡ Fetched.Hit frame) ↔ (frame_of self.old.table key ≡ Some frame) }
        ensures after_hit { (frame : ℕ) → result ≡ Fetched.Hit frame → self.new ≡ after_pin self.old key }
        ensures new { (frame : ℕ) (left : Option Left) → result ≡ Fetched.New frame left
            → self.new ≡ after_bring_in (with_room self.old key) key frame }
        ensures new_is_free { (frame : ℕ) (left : Option Left) → result ≡ Fetched.New frame left
            → IsFree (without_victim (with_room self.old key).table (asked (with_room self.old key) key).0) frame }
        ensures left { (frame : ℕ) (left : Option Left) → result ≡ Fetched.New frame left
            → left ≡ left_of (with_room self.old key).table (asked (with_room self.old key) key).0 }
        ensures may_be_new { (frame : ℕ) (left : Option Left) → result ≡ Fetched.New frame left
            → IsTrue (may_bring_in self.old create) }
        ensures nothing { (result ≡ Fetched.Nothing)
            ↔ ((frame_of self.old.table key ≡ None) × IsFalse (may_bring_in self.old create)) }
        ensures unchanged { result ≡ Fetched.Nothing → self.new ≡ self.old }
        ensures no_room { result ≡ Fetched.NoRoom → SamePages self.old self.new }
        ensures succeeds { key < length self.old.table.pages → resident_count self.old.table < self.old.table.frames
            → result ≢ Fetched.NoRoom }
        ensures pinned_stay { PinnedStay self.old.table self.new.table }
        ensures sound { IsSound self.new }
    {
        match self.pin(key) {
            Some(frame) => Fetched::Hit(frame),
            None => self.fetch_absent(alloc, key, create),
        }
    }

    /// The fetch of a page that stands in no frame.
    #[inline(never)]
    fn fetch_absent(&mut self, alloc: Global, key: u32, create: Create) -> Fetched
        requires absent { frame_of self.old.table key ≡ None }
        ensures no_hit { (frame : ℕ) → result ≢ Fetched.Hit frame }
        ensures new { (frame : ℕ) (left : Option Left) → result ≡ Fetched.New frame left
            → self.new ≡ after_bring_in (with_room self.old key) key frame }
        ensures new_is_free { (frame : ℕ) (left : Option Left) → result ≡ Fetched.New frame left
            → IsFree (without_victim (with_room self.old key).table (asked (with_room self.old key) key).0) frame }
        ensures left { (frame : ℕ) (left : Option Left) → result ≡ Fetched.New frame left
            → left ≡ left_of (with_room self.old key).table (asked (with_room self.old key) key).0 }
        ensures may_be_new { (frame : ℕ) (left : Option Left) → result ≡ Fetched.New frame left
            → IsTrue (may_bring_in self.old create) }
        ensures nothing { (result ≡ Fetched.Nothing) ↔ IsFalse (may_bring_in self.old create) }
        ensures unchanged { result ≡ Fetched.Nothing → self.new ≡ self.old }
        ensures no_room { result ≡ Fetched.NoRoom → SamePages self.old self.new }
        ensures succeeds { key < length self.old.table.pages → resident_count self.old.table < self.old.table.frames
            → result ≢ Fetched.NoRoom }
        ensures pinned_stay { PinnedStay self.old.table self.new.table }
        ensures sound { IsSound self.new }
    {
        let _ = &self.directory;
        if !self.may_bring_in(create) {
            return Fetched::Nothing;
        }
        match self.reserve(alloc, key) {
            Ok(()) => {
                let (frame, left) = self.bring_in(key);
                Fetched::New(frame, left)
            }
            Err(_) => Fetched::NoRoom,
        }
    }

    /// Pins the page of the key where it stands in a frame.
    #[inline(always)]
    pub fn pin(&mut self, key: u32) -> Option<u32>
        ensures value { result ≡ frame_of self.old.table key }
        ensures exact { self.new ≡ (if is_some result then after_pin self.old key else self.old) }
        ensures pinned_stay { PinnedStay self.old.table self.new.table }
        ensures sound { IsSound self.new }
    {
        let page = self.frames.page(key)?;
        if !page.is_pinned {
            self.pin_again(key);
        }
        Some(page.frame)
    }

    /// Asks for a page that stands in a frame and isn't pinned, and pins it.
    #[inline(always)]
    fn pin_again(&mut self, key: u32)
        requires resident { IsSome (page_of self.old.table key) }
        requires unpinned { IsFalse (is_pinned self.old.table key) }
        ensures exact { self.new ≡ after_pin self.old key }
        ensures pinned_stay { PinnedStay self.old.table self.new.table }
        ensures sound { IsSound self.new }
    {
        let _page = self.frames.page(key);
        self.directory.touch(key, &mut self.search);
        self.frames.set_pinned(key, true);
    }

    /// Puts the page of a key, which stands in no frame, into one, and pins it. There is room for the key, and a frame for
    /// one more page.
    pub fn bring_in(&mut self, key: u32) -> (u32, Option<Left>)
        requires key { key < length self.old.table.pages }
        requires absent { page_of self.old.table key ≡ None }
        requires room { resident_count self.old.table < self.old.table.frames }
        ensures exact { self.new ≡ after_bring_in self.old key result.0 }
        ensures below { result.0 < self.new.table.frames }
        ensures free { IsFree (without_victim self.old.table (asked self.old key).0) result.0 }
        ensures left { result.1 ≡ left_of self.old.table (asked self.old key).0 }
        ensures pinned_stay { PinnedStay self.old.table self.new.table }
        ensures sound { IsSound self.new }
    {
        if self.is_full_of_pinned() {
            self.bring_in_beyond(key)
        } else {
            self.bring_in_asked(key)
        }
    }

    /// Whether the cache is full of pinned pages: then a request would change nothing.
    fn is_full_of_pinned(&self) -> bool
        ensures exact { result ≡ ((cached_count self.now.lists == self.now.lists.c)
            && (resident_count self.now.table == pinned_count self.now.table)) }
        ensures full { IsTrue result → cached_count self.now.lists ≡ self.now.lists.c }
        ensures all_pinned { IsTrue result → AllCachedAreBusy self.now.lists (is_pinned self.now.table) }
        ensures sound { IsSound self.now }
    {
        let is_full = self.cached() == self.directory.size() as usize;
        is_full && self.frames.resident() == self.frames.pinned()
    }

    /// The page gets a frame beyond the size of the cache, since nobody may leave.
    fn bring_in_beyond(&mut self, key: u32) -> (u32, Option<Left>)
        requires key { key < length self.old.table.pages }
        requires absent { page_of self.old.table key ≡ None }
        requires room { resident_count self.old.table < self.old.table.frames }
        requires full { cached_count self.old.lists ≡ self.old.lists.c }
        requires all_pinned { AllCachedAreBusy self.old.lists (is_pinned self.old.table) }
        ensures exact { self.new ≡ after_bring_in self.old key result.0 }
        ensures below { result.0 < self.new.table.frames }
        ensures free { IsFree (without_victim self.old.table (asked self.old key).0) result.0 }
        ensures left { result.1 ≡ left_of self.old.table (asked self.old key).0 }
        ensures pinned_stay { PinnedStay self.old.table self.new.table }
        ensures sound { IsSound self.new }
    {
        (self.frames.take(key), None)
    }

    /// The page is asked for, and whoever leaves for it has no frame any more.
    fn bring_in_asked(&mut self, key: u32) -> (u32, Option<Left>)
        requires key { key < length self.old.table.pages }
        requires absent { page_of self.old.table key ≡ None }
        requires room { resident_count self.old.table < self.old.table.frames }
        ensures exact { self.new ≡ after_bring_in self.old key result.0 }
        ensures below { result.0 < self.new.table.frames }
        ensures free { IsFree (without_victim self.old.table (asked self.old key).0) result.0 }
        ensures left { result.1 ≡ left_of self.old.table (asked self.old key).0 }
        ensures pinned_stay { PinnedStay self.old.table self.new.table }
        ensures sound { IsSound self.new }
    {
        let pinned = Pinned {
            frames: &self.frames,
        };
        let answer = self.directory.request(key, &mut self.search, &pinned);
        let left = make_way(&mut self.frames, answer);
        (self.frames.take(key), left)
    }

    // ---- room

    /// Makes room for the key, and a frame for one more page.
    ///
    /// # Errors
    ///
    /// Where the memory can't be had, and for a key from 4,294,967,292 on. Then no page and no list has changed. Where there
    /// is room already, it takes no memory, and none comes.
    pub fn reserve(&mut self, alloc: Global, key: u32) -> Result<(), AllocError>
        ensures reserved { IsOk result → self.new ≡ with_room self.old key }
        ensures key { IsOk result → key < length self.new.table.pages }
        ensures room { IsOk result → resident_count self.new.table < self.new.table.frames }
        ensures succeeds { key < length self.old.table.pages → resident_count self.old.table < self.old.table.frames
            → IsOk result }
        ensures same_pages { SamePages self.old self.new }
        ensures sound { IsSound self.new }
    {
        self.reserve_key(alloc, key)?;
        self.frames.make_free()
    }

    /// Makes a frame for one more page.
    ///
    /// # Errors
    ///
    /// Where the memory can't be had; then nothing has changed. Where there is such a frame already, it takes no memory.
    pub fn reserve_frame(&mut self) -> Result<(), AllocError>
        ensures reserved { IsOk result → self.new ≡ (record self.old { table = with_free_frame self.old.table }) }
        ensures room { IsOk result → resident_count self.new.table < self.new.table.frames }
        ensures succeeds { resident_count self.old.table < self.old.table.frames → IsOk result }
        ensures unchanged { IsErr result → self.new ≡ self.old }
        ensures sound { IsSound self.new }
    {
        let _ = &self.directory;
        self.frames.make_free()
    }

    /// Makes room for the key.
    ///
    /// # Errors
    ///
    /// Where the memory can't be had, and for a key from 4,294,967,292 on. Then nothing has changed. Where there is room
    /// already, it takes no memory, and none comes.
    pub fn reserve_key(&mut self, alloc: Global, key: u32) -> Result<(), AllocError>
        ensures reserved { IsOk result → self.new ≡ with_key self.old key }
        ensures key { IsOk result → key < length self.new.table.pages }
        ensures succeeds { key < length self.old.table.pages → IsOk result }
        ensures unchanged { IsErr result → self.new ≡ self.old }
        ensures same_pages { SamePages self.old self.new }
        ensures sound { IsSound self.new }
    {
        let keys = self.frames.keys();
        if key < keys {
            return Ok(());
        }
        if key >= MOST_KEYS {
            return Err(AllocError);
        }
        self.grow(alloc, keys_for(keys, key))
    }

    /// Makes room for so many keys. Want of memory leaves all as it was.
    pub fn grow(&mut self, alloc: Global, keys: u32) -> Result<(), AllocError>
        requires more { length self.old.table.pages ≤ keys }
        requires fits { keys ≤ 4294967292 }
        ensures grown { IsOk result → self.new ≡ grown self.old keys }
        ensures unchanged { IsErr result → self.new ≡ self.old }
        ensures same_pages { SamePages self.old self.new }
        ensures sound { IsSound self.new }
    {
        let larger = Directory::growing(alloc, self.directory.size(), keys)?;
        let search = Search::new(alloc, keys, keys)?;
        self.frames.grow(keys)?;
        self.directory.move_into(larger);
        self.search = search;
        Ok(())
    }

    // ---- a page is let go

    /// Takes the pin off the page of the key. A page that is discarded leaves its frame and isn't remembered.
    ///
    /// A page beyond the size of the cache leaves its frame too. A page that isn't pinned stays as it is. The result says
    /// whether the page stands in a frame afterwards: where not, the host can give its bytes back.
    #[inline(always)]
    pub fn unpin(&mut self, key: u32, discard: bool) -> bool
        ensures stays { result ≡ is_some (page_of self.new.table key) }
        ensures exact { self.new ≡ after_unpin self.old key discard }
        ensures others_stay { (other : ℕ) → other ≢ key → page_of self.new.table other ≡ page_of self.old.table other }
        ensures sound { IsSound self.new }
    {
        if let Some(page) = self.frames.page(key) {
            !page.is_pinned || self.take_pin(key, discard)
        } else {
            false
        }
    }

    /// Takes the pin off a pinned page. The result says whether it stands in a frame afterwards.
    #[inline(always)]
    fn take_pin(&mut self, key: u32, discard: bool) -> bool
        requires pinned { IsTrue (is_pinned self.old.table key) }
        ensures stays { result ≡ is_some (page_of self.new.table key) }
        ensures exact { self.new ≡ after_unpin self.old key discard }
        ensures others_stay { (other : ℕ) → other ≢ key → page_of self.new.table other ≡ page_of self.old.table other }
        ensures sound { IsSound self.new }
    {
        if discard {
            self.drop_page(key);
            false
        } else {
            self.let_go(key)
        }
    }

    /// Takes the pin off a pinned page, which leaves its frame where it isn't one of `T1` or `T2`. The result says whether it stays.
    #[inline(always)]
    fn let_go(&mut self, key: u32) -> bool
        requires pinned { IsTrue (is_pinned self.old.table key) }
        ensures stays { result ≡ is_some (page_of self.new.table key) }
        ensures exact { self.new ≡ (record self.old {
          table = if is_cached self.old.lists key then with_pinned self.old.table key false
              else with_page self.old.table key None;
        }) }
        ensures others_stay { (other : ℕ) → other ≢ key → page_of self.new.table other ≡ page_of self.old.table other }
        ensures sound { IsSound self.new }
    {
        if self.is_cached(key) {
            self.frames.set_pinned(key, false);
            self.directory.freed(key, &mut self.search);
            true
        } else {
            self.leave_beyond(key);
            false
        }
    }

    /// The page, which is none of `T1` or `T2`, leaves its frame.
    #[cold]
    #[inline(never)]
    fn leave_beyond(&mut self, key: u32)
        requires beyond { IsFalse (is_cached self.old.lists key) }
        ensures exact { self.new ≡ (record self.old { table = with_page self.old.table key None }) }
        ensures others_stay { (other : ℕ) → other ≢ key → page_of self.new.table other ≡ page_of self.old.table other }
        ensures sound { IsSound self.new }
    {
        self.frames.release(key);
        let search = &mut self.search;
        self.directory.freed(key, search);
    }

    /// The page of the key leaves its frame, pinned or not, and its name leaves the lists.
    #[cold]
    #[inline(never)]
    pub fn drop_page(&mut self, key: u32)
        ensures exact { self.new ≡ dropped self.old key }
        ensures others_stay { (other : ℕ) → other ≢ key → page_of self.new.table other ≡ page_of self.old.table other }
        ensures sound { IsSound self.new }
    {
        self.directory.forget(key, &mut self.search);
        self.frames.release(key);
    }
    /// Gives the page of the key `old`, where it stands in a frame, the key `new`. What had that key is dropped.
    ///
    /// The page keeps its frame and its pin. It stays in its list, at the front. [`Cache::reserve_key`] makes room for `new`.
    pub fn rekey(&mut self, old: u32, new: u32)
        requires room { new < length self.old.table.pages }
        ensures exact { self.new ≡ after_rekey self.old old new }
        ensures sound { IsSound self.new }
    {
        let frame = self.frame(old);
        if old == new {
            return;
        }
        if frame.is_some() {
            self.move_page(old, new);
        }
    }

    /// Gives the page of the key `old`, which stands in a frame, the key `new`, another one.
    fn move_page(&mut self, old: u32, new: u32)
        requires room { new < length self.old.table.pages }
        requires other { old ≢ new }
        ensures exact { self.new ≡ moved_page self.old old new }
        ensures sound { IsSound self.new }
    {
        self.frames.release(new);
        self.frames.rename(old, new);
        self.directory.rename(old, new, &mut self.search);
    }

    /// The page of the key goes to the front of its list, if it stands in one.
    pub fn move_first(&mut self, key: u32)
        requires below { key < length self.old.table.pages }
        ensures exact { self.new ≡ (record self.old { lists = renamed self.old.lists key key }) }
        ensures sound { IsSound self.new }
    {
        let _ = &self.frames;
        self.directory.rename(key, key, &mut self.search);
    }

    // ---- many pages at once

    /// Drops each page whose key is at least `limit`, pinned or not, and forgets such names.
    ///
    /// It takes a step for each key from the limit on that there is room for, or for each name in the four lists where
    /// these are fewer: `2c` at most. Where pages stand beyond the size of the cache, it goes over the keys.
    pub fn truncate(&mut self, limit: u32)
        ensures exact { KeepsOnly (λ key. nat_lt key limit) self.old self.new }
        ensures sound { IsSound self.new }
    {
        if self.names_are_fewer(limit) {
            self.truncate_lists(limit);
        } else {
            self.truncate_keys(limit);
        }
    }

    /// Whether the four lists have fewer names than there is room for keys from the limit on, and each page that stands in
    /// a frame is one of `T1` or `T2`.
    fn names_are_fewer(&self, limit: u32) -> bool
        ensures cached { IsTrue result → resident_count self.now.table ≡ cached_count self.now.lists }
        ensures sound { IsSound self.now }
    {
        let _size = self.directory.size();
        let keys = self.frames.keys().saturating_sub(limit);
        let cached = self.cached();
        let remembered = self.directory.len(List::B1) + self.directory.len(List::B2);
        self.frames.resident() as usize == cached && cached + remembered < keys as usize
    }

    /// The same, key by key.
    fn truncate_keys(&mut self, limit: u32)
        ensures exact { KeepsOnly (λ key. nat_lt key limit) self.old self.new }
        ensures sound { IsSound self.new }
    {
        for key in limit..self.frames.keys() {
            self.drop_page(key);
        }
    }

    /// The same, list by list.
    fn truncate_lists(&mut self, limit: u32)
        requires cached { resident_count self.old.table ≡ cached_count self.old.lists }
        ensures exact { KeepsOnly (λ key. nat_lt key limit) self.old self.new }
        ensures sound { IsSound self.new }
    {
        self.drop_in(List::T1, Leaving::From(limit));
        self.drop_in(List::T2, Leaving::From(limit));
        self.drop_in(List::B1, Leaving::From(limit));
        self.drop_in(List::B2, Leaving::From(limit));
    }

    /// Drops each page that isn't pinned. It takes a step for each page of `T1` and `T2`: `c` at most.
    pub fn shrink(&mut self)
        ensures exact { KeepsOnly (λ key. not (is_idle self.old.table key)) self.old self.new }
        ensures sound { IsSound self.new }
    {
        self.drop_in(List::T1, Leaving::Idle);
        self.drop_in(List::T2, Leaving::Idle);
    }

    /// Drops those pages of this list that leave.
    fn drop_in(&mut self, list: List, leaving: Leaving)
        ensures exact { KeepsOnly (λ key. stays leaving self.old.table key || not (contains (list_of self.old.lists list) key))
            self.old self.new }
        ensures were_sound { IsSound self.old }
        ensures sound { IsSound self.new }
    {
        let mut at = self.directory.front(list);
        for _ in 0..self.directory.len(list) {
            if let Some(key) = at {
                at = self.directory.after(key);
                self.drop_leaving(key, leaving);
            }
        }
    }

    /// Drops the page of the key where it is one of those that leave.
    fn drop_leaving(&mut self, key: u32, leaving: Leaving)
        ensures exact { self.new ≡ (if stays leaving self.old.table key then self.old else dropped self.old key) }
        ensures sound { IsSound self.new }
    {
        let _ = &self.directory;
        if !self.stays(key, leaving) {
            self.drop_page(key);
        }
    }

    /// Whether the page of the key isn't one of those that leave.
    fn stays(&self, key: u32, leaving: Leaving) -> bool
        ensures { result ≡ stays leaving self.now.table key }
    {
        match leaving {
            Leaving::From(limit) => key < limit,
            Leaving::Idle => !self.is_idle(key),
        }
    }

    /// Whether the page of the key stands in a frame for no user.
    fn is_idle(&self, key: u32) -> bool
        ensures { result ≡ is_idle self.now.table key }
    {
        match self.frames.page(key) {
            Some(page) => !page.is_pinned,
            None => false,
        }
    }

    // ---- another size

    /// Makes the cache one of `size` pages that nobody has pinned.
    ///
    /// Where it becomes smaller, pages leave one by one as ARC chooses them. Pinned pages keep their frames. It takes a
    /// step for each page and each name that leaves, and one for each pinned page that no search met since it was brought in.
    pub fn resize(&mut self, size: u32)
        requires holds_a_page { 1 ≤ size }
        ensures exact { self.new ≡ after_resize self.old size }
        ensures pinned_stay { PinnedStay self.old.table self.new.table }
        ensures sound { IsSound self.new }
    {
        for _ in size as usize..self.cached() {
            self.give_up_page();
        }
        self.directory.resize(size);
    }

    /// How many pages stand in `T1` and `T2`.
    fn cached(&self) -> usize
        ensures value { result ≡ cached_count self.now.lists }
        ensures sound { IsSound self.now }
    {
        let _size = self.directory.size();
        let once = self.directory.len(List::T1);
        let again = self.directory.len(List::T2);
        once + again
    }

    /// One page fewer is cached.
    fn give_up_page(&mut self)
        requires some { 0 < cached_count self.old.lists }
        ensures exact { self.new ≡ one_fewer self.old }
        ensures fewer { cached_count self.new.lists + 1 ≡ cached_count self.old.lists }
        ensures pinned_stay { PinnedStay self.old.table self.new.table }
        ensures sound { IsSound self.new }
    {
        let pinned = Pinned {
            frames: &self.frames,
        };
        match self.directory.give_up(&mut self.search, &pinned) {
            Some(victim) => self.frames.release(victim),
            None => self.forget_last(),
        }
    }

    /// The last page of `T1`, else of `T2`, leaves the lists. Each cached page is pinned, and it keeps its frame.
    fn forget_last(&mut self)
        requires some { 0 < cached_count self.old.lists }
        requires all_pinned { AllCachedAreBusy self.old.lists (is_pinned self.old.table) }
        ensures exact { self.new ≡ one_fewer_of self.old None (last_cached self.old.lists) }
        ensures fewer { cached_count self.new.lists + 1 ≡ cached_count self.old.lists }
        ensures same_frames { self.new.table ≡ self.old.table }
        ensures sound { IsSound self.new }
    {
        if let Some(page) = self.last_cached() {
            self.directory.forget(page, &mut self.search);
        }
    }

    /// The last page of `T1`, else of `T2`.
    fn last_cached(&self) -> Option<u32>
        ensures value { result ≡ last_cached self.now.lists }
        ensures cached { (page : ℕ) → result ≡ Some page → IsTrue (is_cached self.now.lists page) }
        ensures none { result ≡ None → cached_count self.now.lists ≡ 0 }
        ensures sound { IsSound self.now }
    {
        match self.directory.last(List::T1) {
            Some(page) => Some(page),
            None => self.directory.last(List::T2),
        }
    }
}
