//! What holds of a pool whatever comes to it.

ghost use Rattle.std.specs.Prelude.{List, All};
ghost use Rattle.pp_model.specs.Pool.{State, Settings, opening};
ghost use Rattle.pp_model.specs.Runs.{Input, run};
ghost use Rattle.pp_model.specs.Reached.{IsSettings, IsReached};
ghost use Rattle.pp_model.specs.Laws.{IsAcceptedInput};
ghost use Rattle.pp_core.specs.Headline.{Headline};
ghost use Rattle.pp_core.specs.AfterMoves.{AfterMoves};

/// From a new pool, and from every state that a pool can be in, whatever comes to it, moves and renewals that are done or
/// refused and plans that the checker accepted, leads to states of which the headline holds.
///
/// In these states no worker can find all frames fixed at a fix that its plan asks, and none asks a latch against the
/// order of the classes; a fix is told that a flush holds the frames only while a page is flushed that no slot holds or
/// loads; the running peaks fit the frames, and a worker holds and loads at most its peak; the latches on a page are
/// all S or a single X; a page has one errand at most, of a worker or of the flusher; each plan that was taken is with
/// one worker, or was ended once; the known mark of a page is the one that every journal of the state tells, the stamp
/// of the last unlatch or unwinding of X on the page, else the mark with which the pool's life began, else the stamp of the
/// first good reading; while a plan waits or isn't ended, or a flush is in flight, some actor's next move is possible; and
/// each done move lowers the bound.
pub fn headline()
    ensures from_new { (k : Settings) (inputs : List Input) → IsSettings k → All IsAcceptedInput inputs
        → Headline (run (opening k) inputs) }
    ensures from_any { (s : State) (inputs : List Input) → All IsAcceptedInput inputs → IsReached s
        → Headline (run s inputs) }
{}

/// What a worker has after a move, told by what the move was answered and in the words of the core's queries: what it
/// asks, what its slots hold, the errand that is out for it, whether it leaves or is idle, and the marks of the pages
/// that it holds. Other workers have what they had.
pub fn workers_after_moves()
    ensures each { (s : State) → IsReached s → AfterMoves s }
{}
