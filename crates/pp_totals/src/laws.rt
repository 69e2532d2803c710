//! Laws of totals. The functions do nothing: their contracts are the laws.

ghost use Rattle.std.specs.Prelude.{◌≡◌, ◌+◌, ◌^◌, ◌<◌, ◌≤◌, None, List, ◌++◌, length};
ghost use Rattle.pp_model.specs.declared.event.Event.{Event};
ghost use Rattle.pp_model.specs.Pool.{State, Settings, opening};
ghost use Rattle.pp_model.specs.Journals.{IsJournalFrom};
ghost use Rattle.pp_model.specs.Segments.{Segment, AreSegments, segments_end, all_events};
ghost use Rattle.pp_model.specs.Renewing.{renew_error, renewed};
ghost use Rattle.pp_model.specs.Reached.{IsReached};
ghost use Rattle.pp_model.specs.Turns.{next_turn};
ghost use Rattle.pp_totals.specs.Counting.{totals_of, plus, capped_sum};
ghost use Rattle.pp_totals.specs.Complete.{segment_totals, AreComplete, BeginsALife, AreAccounted, AllAreEnded};

/// The totals of events, one behind the other, are the sums of the totals of their parts: of two, and of any number of
/// segments. [`Totals::saturating_add`](crate::Totals::saturating_add) gives these sums wherever there are fewer than
/// 2^64 events.
pub fn totals_add_up()
    ensures two { (es fs : List Event) → totals_of (es ++ fs) ≡ plus (totals_of es) (totals_of fs) }
    ensures segments { (xs : List Segment) → totals_of (all_events xs) ≡ segment_totals xs }
    ensures exact { (es fs : List Event) → length (es ++ fs) < 2 ^ 64
        → capped_sum (totals_of es) (totals_of fs) ≡ totals_of (es ++ fs) }
{}

/// Each event is counted as a submit or as a move, and none as both.
pub fn each_event_is_counted()
    ensures { (es : List Event) → (totals_of es).moves + (totals_of es).submitted ≡ length es }
{}

/// A true journal between two reached states has at most 2^62 events, in a bounded life and in an endless one.
pub fn lives_are_short()
    ensures { (o t : State) (es : List Event) → IsReached o → IsReached t → IsJournalFrom o t es
        → length es ≤ 2 ^ 62 }
{}

/// Totals leave no plan out: between the states in which a true journal begins and ends just so many plans were
/// submitted, taken, done and left. The same holds of the sum of the totals of segments, wherever they are cut.
pub fn totals_are_complete()
    ensures journals { (o t : State) (es : List Event) → IsJournalFrom o t es → AreComplete o t (totals_of es) }
    ensures segments { (o : State) (xs : List Segment) → AreSegments o xs
        → AreComplete o (segments_end o xs) (segment_totals xs) }
{}

/// A life begins where a pool is opened, and where it is renewed.
pub fn lives_begin()
    ensures opens { (k : Settings) → BeginsALife (opening k) }
    ensures renews { (s : State) → renew_error s ≡ None → BeginsALife (renewed s) }
{}

/// From the begin of a life to any moment of it, each plan that was submitted was taken or waits, and each that was
/// taken was done, is gone or is with a worker. Where nothing is under way any more, each plan that was submitted is
/// counted as done or as gone.
pub fn plans_are_accounted()
    ensures journals { (o t : State) (es : List Event) → BeginsALife o → IsReached t → IsJournalFrom o t es
        → AreAccounted t (totals_of es) }
    ensures segments { (o : State) (xs : List Segment) → BeginsALife o → IsReached (segments_end o xs)
        → AreSegments o xs → AreAccounted (segments_end o xs) (segment_totals xs) }
    ensures whole { (o t : State) (es : List Event) → BeginsALife o → IsReached t → IsJournalFrom o t es
        → next_turn t ≡ None → AllAreEnded (totals_of es) }
    ensures whole_segments { (o : State) (xs : List Segment) → BeginsALife o → IsReached (segments_end o xs)
        → AreSegments o xs → next_turn (segments_end o xs) ≡ None → AllAreEnded (segment_totals xs) }
{}
