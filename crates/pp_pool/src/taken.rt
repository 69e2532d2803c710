//! What a worker has in hand after an answer.

ghost use Rattle.std.specs.Prelude.{◌≡◌, true, Some, IsSome, IfSome};
ghost use Rattle.pp_vault.specs.Holding.{slot_by, is_free};
ghost use Rattle.pp_pool.specs.Turns.{stage_in, guard_in, stage_asked, guard_asked, places_with};

use crate::asked::put;
use crate::request::Request;
use crate::response::BookAnswer;
use pp_vault::{Guard, Guards, Stage};

/// The stage of the answer's tokens. Its guard, if there is one, comes into its place.
#[inline(always)]
pub(crate) fn stage_after(guards: &mut Guards, answer: BookAnswer) -> Stage
    requires stage { IsSome (stage_in answer) }
    requires place { IfSome (guard_in answer) (λ guard. is_free guards.old (slot_by guard) ≡ true) }
    ensures stage { stage_in answer ≡ Some result }
    ensures guards { guards.new ≡ places_with guards.old (guard_in answer) }
{
    let (stage, guard) = tokens(answer);
    match guard {
        Some(guard) => put(guards, guard),
        None => {}
    }
    stage
}

/// The tokens of an answer: the stage's, and a guard, if there is one.
#[inline(always)]
fn tokens(answer: BookAnswer) -> (Stage, Option<Guard>)
    requires { IsSome (stage_in answer) }
    ensures stage { stage_in answer ≡ Some result.0 }
    ensures guard { result.1 ≡ guard_in answer }
{
    match answer {
        BookAnswer::Acts(session) => (Stage::In(session), None),
        BookAnswer::Idle(chair) => (Stage::Idle(chair), None),
        BookAnswer::Leaves(leaver) => (Stage::Leaving(leaver), None),
        BookAnswer::Away(errand) => (Stage::Out(errand), None),
        BookAnswer::Pinned(session, guard) => (Stage::In(session), Some(Guard::Pin(guard))),
        BookAnswer::Opened(session, guard) => (Stage::In(session), Some(Guard::Bundle(guard))),
        BookAnswer::Joined(session) => (Stage::In(session), None),
        BookAnswer::Shared(session, guard) => (Stage::In(session), Some(Guard::Read(guard))),
        BookAnswer::Exclusive(session, guard) => (Stage::In(session), Some(Guard::Write(guard))),
        BookAnswer::Flushed(_) => unreachable!(),
        BookAnswer::No(request, _refusal) => tokens_back(request),
    }
}

/// The tokens of a request that came back.
#[inline(always)]
fn tokens_back(request: Request) -> (Stage, Option<Guard>)
    requires { IsSome (stage_asked request) }
    ensures stage { stage_asked request ≡ Some result.0 }
    ensures guard { result.1 ≡ guard_asked request }
{
    match request {
        Request::Take(chair) => (Stage::Idle(chair), None),
        Request::Fix(session, _) => (Stage::In(session), None),
        Request::Choose(session, _) => (Stage::In(session), None),
        Request::Finish(session) => (Stage::In(session), None),
        Request::Join(session, _) => (Stage::In(session), None),
        Request::Unfix(session, guard) => (Stage::In(session), Some(Guard::Pin(guard))),
        Request::Scatter(session, guard) => (Stage::In(session), Some(Guard::Bundle(guard))),
        Request::LatchShared(session, guard) => (Stage::In(session), Some(Guard::Pin(guard))),
        Request::LatchExclusive(session, guard) => (Stage::In(session), Some(Guard::Pin(guard))),
        Request::UnlatchShared(session, guard) => (Stage::In(session), Some(Guard::Read(guard))),
        Request::UnlatchExclusive(session, guard) => {
            (Stage::In(session), Some(Guard::Write(guard)))
        }
        Request::End(leaver) => (Stage::Leaving(leaver), None),
        Request::GiveBack(leaver, guard) => (Stage::Leaving(leaver), Some(guard)),
        Request::Answer(returned) => (Stage::Back(returned), None),
        Request::AnswerJoin(returned) => (Stage::Back(returned), None),
        Request::Flush(_) => unreachable!(),
        Request::FlushNext(_) => unreachable!(),
    }
}
