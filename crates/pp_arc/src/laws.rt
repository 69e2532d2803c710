//! Laws of the figure, on the four lists themselves: they hold whoever keeps the lists, and each is proved.

ghost use Rattle.std.specs.Prelude.{◌≡◌, ◌≢◌, ℕ, Bool, ◌<◌, ◌↔◌, is_none, slice_get, Some, IsTrue, IsFalse};
ghost use Rattle.std.specs.Prelude.{if◌then◌else◌};
ghost use Rattle.pp_arc.specs.declared.answer.Answer.{Answer};
ghost use Rattle.pp_arc.specs.FourLists.{FourLists, is_cached, cached_count, place};
ghost use Rattle.pp_arc.specs.Bounds.{IsWithinBounds};
ghost use Rattle.pp_arc.specs.Figure.{request, forget, bring_back};
ghost use Rattle.pp_arc.specs.Search.{SearchMarks, KnowsBusy};
ghost use Rattle.pp_arc.specs.Laws.{AllCachedAreBusy, CachesInstead, CachesWithout, CachesAgain};

/// The bounds hold after each step.
pub fn bounds_hold()
    ensures request { (s : FourLists) (x : ℕ) (busy : ℕ → Bool) → IsWithinBounds s → x < s.pages
        → IsWithinBounds (request s x busy).1 }
    ensures forget { (s : FourLists) (x : ℕ) → IsWithinBounds s → IsWithinBounds (forget s x) }
    ensures bring_back { (s : FourLists) (x v : ℕ) → IsWithinBounds s → IsTrue (is_cached s x)
        → IsFalse (is_cached s v) → v < s.pages → IsWithinBounds (bring_back s x v) }
{}

/// A request looks at cached pages alone: whether another page is busy is all the same to it.
pub fn only_cached_pages_matter()
    ensures { (s : FourLists) (x : ℕ) (busy other : ℕ → Bool)
        → ((y : ℕ) → IsTrue (is_cached s y) → busy y ≡ other y) → request s x busy ≡ request s x other }
{}

/// Which answer comes when.
pub fn answers_come_so()
    ensures hit { (s : FourLists) (x : ℕ) (busy : ℕ → Bool) → IsWithinBounds s
        → ((request s x busy).0 ≡ Answer.Hit) ↔ IsTrue (is_cached s x) }
    ensures free { (s : FourLists) (x : ℕ) (busy : ℕ → Bool) → IsWithinBounds s
        → ((request s x busy).0 ≡ Answer.Free) ↔ (IsFalse (is_cached s x) × (cached_count s < s.c)) }
    ensures all_busy { (s : FourLists) (x : ℕ) (busy : ℕ → Bool) → IsWithinBounds s
        → ((request s x busy).0 ≡ Answer.AllBusy)
        ↔ (IsFalse (is_cached s x) × (cached_count s ≡ s.c) × AllCachedAreBusy s busy) }
    ensures victim_was_cached { (s : FourLists) (x : ℕ) (busy : ℕ → Bool) (v : ℕ) → IsWithinBounds s
        → (request s x busy).0 ≡ Answer.Evict v → IsTrue (is_cached s v) }
    ensures victim_is_not_busy { (s : FourLists) (x : ℕ) (busy : ℕ → Bool) (v : ℕ) → IsWithinBounds s
        → (request s x busy).0 ≡ Answer.Evict v → IsFalse (busy v) }
{}

/// What a request does to the cache.
pub fn request_does_so()
    ensures unchanged { (s : FourLists) (x : ℕ) (busy : ℕ → Bool) → (request s x busy).0 ≡ Answer.AllBusy
        → (request s x busy).1 ≡ s }
    ensures front { (s : FourLists) (x : ℕ) (busy : ℕ → Bool) → (request s x busy).0 ≢ Answer.AllBusy
        → slice_get (if is_none (place s x) then (request s x busy).1.t1 else (request s x busy).1.t2) 0 ≡ Some x }
    ensures cache { (s : FourLists) (x : ℕ) (busy : ℕ → Bool) → IsWithinBounds s
        → (request s x busy).0 ≢ Answer.AllBusy → CachesInstead s (request s x busy).1 x (request s x busy).0 }
    ensures fixed { (s : FourLists) (x : ℕ) (busy : ℕ → Bool)
        → ((request s x busy).1.c ≡ s.c) × ((request s x busy).1.pages ≡ s.pages) }
{}

/// What a page forgotten, and a victim brought back, do to the cache.
pub fn cache_changes_so()
    ensures forget { (s : FourLists) (x : ℕ) → CachesWithout s (forget s x) x }
    ensures bring_back { (s : FourLists) (x v : ℕ) → CachesAgain s (bring_back s x v) x v }
{}

/// What a search knows stays right where more pages are busy.
pub fn a_search_stays_right()
    ensures { (s : FourLists) (k : SearchMarks) (busy other : ℕ → Bool) → KnowsBusy s k busy
        → ((x : ℕ) → IsTrue (busy x) → IsTrue (other x)) → KnowsBusy s k other }
{}
