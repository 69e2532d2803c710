//! Laws of ARC's lists: a cache that gives its pages other numbers does the same.

ghost use Rattle.std.specs.Prelude.{◌≡◌, ℕ, Bool, Option};
ghost use Rattle.std.specs.Option.{option_map};
ghost use Rattle.pp_arc.specs.declared.list.List.{List as ListName};
ghost use Rattle.pp_arc.specs.Pages.{last_page};
ghost use Rattle.pp_arc.specs.FourLists.{FourLists, list_of, is_cached, place};
ghost use Rattle.pp_arc.specs.Figure.{request, forget};
ghost use Rattle.pp_arc.specs.Sizes.{dropped_name, given_up, after_giving_up, renamed, resized};
ghost use Rattle.pp_keyed.specs.Renamed.{IsInjective, IsSameBusy, lists_by, answer_by};

/// ARC's figure doesn't look at the numbers of pages, but at whether two are one: under other names all is the same.
pub fn lists_ignore_names()
    ensures place { (f : ℕ → ℕ) (m : ℕ) (s : FourLists) (x : ℕ) → IsInjective f → place (lists_by f m s) (f x) ≡ place s x }
    ensures cached { (f : ℕ → ℕ) (m : ℕ) (s : FourLists) (x : ℕ) → IsInjective f
        → is_cached (lists_by f m s) (f x) ≡ is_cached s x }
    ensures answer { (f : ℕ → ℕ) (m : ℕ) (s : FourLists) (x : ℕ) (busy busy_by : ℕ → Bool) → IsInjective f → IsSameBusy f busy busy_by
        → (request (lists_by f m s) (f x) busy_by).0 ≡ answer_by f (request s x busy).0 }
    ensures lists { (f : ℕ → ℕ) (m : ℕ) (s : FourLists) (x : ℕ) (busy busy_by : ℕ → Bool) → IsInjective f → IsSameBusy f busy busy_by
        → (request (lists_by f m s) (f x) busy_by).1 ≡ lists_by f m (request s x busy).1 }
    ensures dropped { (f : ℕ → ℕ) (m : ℕ) (s : FourLists) (x : ℕ) → IsInjective f
        → dropped_name (lists_by f m s) (f x) ≡ option_map f (dropped_name s x) }
    ensures given_up { (f : ℕ → ℕ) (m : ℕ) (s : FourLists) (busy busy_by : ℕ → Bool) → IsSameBusy f busy busy_by
        → given_up (lists_by f m s) busy_by ≡ option_map f (given_up s busy) }
    ensures after_giving_up { (f : ℕ → ℕ) (m : ℕ) (s : FourLists) (v : Option ℕ) → IsInjective f
        → after_giving_up (lists_by f m s) (option_map f v) ≡ lists_by f m (after_giving_up s v) }
    ensures forget { (f : ℕ → ℕ) (m : ℕ) (s : FourLists) (x : ℕ) → IsInjective f
        → forget (lists_by f m s) (f x) ≡ lists_by f m (forget s x) }
    ensures renamed { (f : ℕ → ℕ) (m : ℕ) (s : FourLists) (x y : ℕ) → IsInjective f
        → renamed (lists_by f m s) (f x) (f y) ≡ lists_by f m (renamed s x y) }
    ensures resized { (f : ℕ → ℕ) (m : ℕ) (s : FourLists) (c : ℕ) → resized (lists_by f m s) c ≡ lists_by f m (resized s c) }
    ensures last { (f : ℕ → ℕ) (m : ℕ) (s : FourLists) (list : ListName)
        → last_page (list_of (lists_by f m s) list) ≡ option_map f (last_page (list_of s list)) }
{}
