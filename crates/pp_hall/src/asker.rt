//! Whose a request is.

ghost use Rattle.std.specs.Prelude.{◌≡◌};
ghost use Rattle.pp_hall.specs.Askers.{asker as its_asker};

use pp_pool::Request;

/// The worker that asks, by the token that it has in hand. None for the flusher.
pub(crate) fn asker(request: &Request) -> Option<u32>
    ensures { result ≡ its_asker request.now }
{
    match request {
        Request::Take(chair) => Some(chair.worker()),
        Request::Fix(session, _) | Request::Join(session, _) => Some(session.worker()),
        Request::Unfix(session, _) => Some(session.worker()),
        Request::Scatter(session, _) => Some(session.worker()),
        Request::LatchShared(session, _) => Some(session.worker()),
        Request::LatchExclusive(session, _) => Some(session.worker()),
        Request::UnlatchShared(session, _) => Some(session.worker()),
        Request::UnlatchExclusive(session, _) => Some(session.worker()),
        Request::Choose(session, _) => Some(session.worker()),
        Request::Finish(session) => Some(session.worker()),
        Request::End(leaver) => Some(leaver.worker()),
        Request::GiveBack(leaver, _) => Some(leaver.worker()),
        Request::Answer(returned) | Request::AnswerJoin(returned) => returned.worker(),
        Request::Flush(_) | Request::FlushNext(_) => None,
    }
}
