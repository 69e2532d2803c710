//! Laws of the queue. The functions do nothing: their contracts are the laws.

ghost use Rattle.std.specs.Prelude.{◌≡◌, ◌≢◌, ℕ, ◌≤◌, ◌↔◌, true, Some, List, ◌∷◌, IsSome};
ghost use Rattle.pp_admission.specs.declared.waiting.Waiting.{Waiting};
ghost use Rattle.pp_admission.specs.Queues.{Parts, IsSound, next_in, waiting_at, is_waiting, first_ticket, AllFit};
ghost use Rattle.pp_admission.specs.Histories.{IsNext, Call, after_all, ArePossible, overtakings};

/// Who may start waits, and fits, and each one before it doesn't fit and may be overtaken once more. Nobody else may.
pub fn who_is_next()
    ensures { (q : Parts) (room ticket : ℕ) → IsSound q → (next_in q room ≡ Some ticket) ↔ IsNext q room ticket }
{}

/// The first in the queue may start as soon as it fits. So somebody may start where all fit and somebody waits.
pub fn the_first_starts()
    ensures first { (q : Parts) (room : ℕ) (w : Waiting) (ws : List Waiting) → q.waiting ≡ w ∷ ws → w.peak ≤ room
        → next_in q room ≡ Some w.ticket }
    ensures some { (q : Parts) (room ticket : ℕ) → is_waiting q ticket ≡ true → AllFit room q.waiting
        → IsSome (next_in q room) }
{}

/// Where nobody may be overtaken, they start in the order in which they came.
pub fn first_come_first_served()
    ensures first { (q : Parts) (room ticket : ℕ) → q.bypass ≡ 0 → next_in q room ≡ Some ticket
        → first_ticket q.waiting ≡ Some ticket }
    ensures least { (q : Parts) (room ticket other : ℕ) → IsSound q → q.bypass ≡ 0 → next_in q room ≡ Some ticket
        → is_waiting q other ≡ true → ticket ≤ other }
{}

/// Whatever calls do, one that waits is overtaken at most `bypass` times: so many that came after it start before it,
/// and no more.
pub fn nobody_is_overtaken_too_often()
    ensures { (q : Parts) (ticket : ℕ) (calls : List Call) → IsSound q → ArePossible q calls
        → is_waiting (after_all q calls) ticket ≡ true → overtakings ticket calls ≤ q.bypass }
{}
