//! Laws of a page cache, on the value that contracts see: they hold whoever keeps it, and each is proved.

ghost use Rattle.std.specs.Prelude.{◌≡◌, ◌≢◌, ℕ, Bool, ◌+◌, ◌≤◌};
ghost use Rattle.pp_arc.specs.declared.answer.Answer.{Answer};
ghost use Rattle.pp_arc.specs.FourLists.{FourLists};
ghost use Rattle.pp_arc.specs.Bounds.{IsWithinBounds};
ghost use Rattle.pp_arc.specs.Figure.{request};
ghost use Rattle.pp_cache.specs.Frames.{resident_count, pinned_count};
ghost use Rattle.pp_cache.specs.Cache.{PageCache, after_pin, after_bring_in, with_room, after_unpin, after_rekey};
ghost use Rattle.pp_cache.specs.Cache.{after_resize, IsSound};
ghost use Rattle.pp_cache.specs.Names.{lost_name, NamesInstead};

/// No frame is ever given back: only room for a page adds one. (`KeepsOnly` says the same of truncate and shrink.)
pub fn frames_only_grow()
    ensures pin { (s : PageCache) (key : ℕ) → (after_pin s key).table.frames ≡ s.table.frames }
    ensures bring_in { (s : PageCache) (key frame : ℕ)
        → (after_bring_in s key frame).table.frames ≡ s.table.frames }
    ensures room { (s : PageCache) (key : ℕ) → s.table.frames ≤ (with_room s key).table.frames }
    ensures unpin { (s : PageCache) (key : ℕ) (discard : Bool)
        → (after_unpin s key discard).table.frames ≡ s.table.frames }
    ensures rekey { (s : PageCache) (old new : ℕ) → (after_rekey s old new).table.frames ≡ s.table.frames }
    ensures resize { (s : PageCache) (size : ℕ) → (after_resize s size).table.frames ≡ s.table.frames }
{}

/// Unpinned, no more pages stand in frames than the size of the cache.
pub fn few_are_unpinned()
    ensures { (s : PageCache) → IsSound s → resident_count s.table ≤ pinned_count s.table + s.lists.c }
{}

/// A request loses one name at most, and the lists and its answer tell which. So a host that numbers its keys can give the
/// number of that key to another at once. Where the answer is `AllBusy`, the lists are as before.
pub fn requests_lose_one_name()
    ensures { (s : FourLists) (x : ℕ) (busy : ℕ → Bool) → IsWithinBounds s → (request s x busy).0 ≢ Answer.AllBusy
        → NamesInstead s (request s x busy).1 x (lost_name s x (request s x busy).0) }
{}
