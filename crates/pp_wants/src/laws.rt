//! Laws of wake-ups.

ghost use Rattle.pp_wants.specs.Laws.{NoneLostWhereNobodyWaits, LostByStatesAlone, SleepingLosesNone};
ghost use Rattle.pp_wants.specs.Laws.{RisingLosesNone, RefusedRequestsWait};

/// When no wake-up is lost: where nobody sleeps untold; for another vault, where it lets the same workers go; once a
/// worker sleeps on what isn't possible, or rises, where it wasn't told. And a request that is refused for now waits
/// for what [`Want::of`](crate::Want::of) tells of it.
pub fn wake_ups_stay()
    ensures nobody { NoneLostWhereNobodyWaits }
    ensures states { LostByStatesAlone }
    ensures sleeping { SleepingLosesNone }
    ensures rising { RisingLosesNone }
    ensures refused { RefusedRequestsWait }
{}
