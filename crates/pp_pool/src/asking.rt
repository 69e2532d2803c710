//! The calls of a vault that requests make.

ghost use Rattle.std.specs.Prelude.{◌≡◌};
ghost use Rattle.pp_model.specs.Pool.{State};
ghost use Rattle.pp_vault.specs.StandsFor.{StandsFor};
ghost use Rattle.pp_pool.specs.declared.request.Request.TheVariants as request;
ghost use Rattle.pp_pool.specs.Performing.{ComesTo, DoesUnless, TellsOf};
ghost use Rattle.pp_pool.specs.Replies.{TokensFit};
ghost use Rattle.pp_pool.specs.Requests.{can_join, bundle_asked, bundle_served};

use crate::request::Request;
use crate::response::BookAnswer;
use pp_plan::Ask;
use pp_vault::{
    Answered, BundleGuard, Chair, Done, Fixed, Guard, Leaver, PinGuard, ReadGuard, Refusal,
    Returned, Session, Vault, WriteGuard,
};

/// Makes the request's call of a vault. Tells what it is answered, and what the vault did, where it isn't refused. A
/// [`Book`](crate::Book) notes that in its journal; who keeps a vault's journal in another way notes it there.
#[inline(always)]
pub fn ask(vault: &mut Vault, request: Request) -> (BookAnswer, Option<Done>)
    ensures comes { ComesTo vault.old request result.0 vault.new }
    ensures does { DoesUnless vault.old request result.0 vault.new }
    ensures done { TellsOf vault.old request result.0 result.1 }
    ensures tokens { TokensFit request result.0 }
{
    match request {
        Request::Take(chair) => take(vault, chair),
        Request::Fix(session, page) => fix(vault, session, page),
        Request::Join(session, page) => join(vault, session, page),
        Request::Unfix(session, guard) => unfix(vault, session, guard),
        Request::Scatter(session, guard) => scatter(vault, session, guard),
        Request::LatchShared(session, guard) => latch_shared(vault, session, guard),
        Request::LatchExclusive(session, guard) => latch_exclusive(vault, session, guard),
        Request::UnlatchShared(session, guard) => unlatch_shared(vault, session, guard),
        Request::UnlatchExclusive(session, guard) => unlatch_exclusive(vault, session, guard),
        Request::Choose(session, branch) => choose(vault, session, branch),
        Request::Finish(session) => finish(vault, session),
        Request::End(leaver) => end(vault, leaver),
        Request::GiveBack(leaver, guard) => give_back(vault, leaver, guard),
        Request::Answer(returned) => answer(vault, returned),
        Request::AnswerJoin(returned) => answer_join(vault, returned),
        Request::Flush(page) => flush(vault, page),
        Request::FlushNext(number) => flush_next(vault, number),
    }
}

// ---- a worker and its plan

#[tactic(auto, using(crate::proofs::Noted::refused_does))]
fn take(vault: &mut Vault, chair: Chair) -> (BookAnswer, Option<Done>)
    ensures comes { ComesTo vault.old (request.Take chair) result.0 vault.new }
    ensures does { DoesUnless vault.old (request.Take chair) result.0 vault.new }
    ensures done { TellsOf vault.old (request.Take chair) result.0 result.1 }
    ensures tokens { TokensFit (request.Take chair) result.0 }
{
    match vault.take(chair) {
        Ok((session, done)) => (BookAnswer::Acts(session), Some(done)),
        Err((chair, refusal)) => (BookAnswer::No(Request::Take(chair), refusal), None),
    }
}

#[tactic(auto, using(crate::proofs::Noted::refused_does))]
fn choose(vault: &mut Vault, session: Session, branch: u32) -> (BookAnswer, Option<Done>)
    ensures comes { ComesTo vault.old (request.Choose session branch) result.0 vault.new }
    ensures does { DoesUnless vault.old (request.Choose session branch) result.0 vault.new }
    ensures done { TellsOf vault.old (request.Choose session branch) result.0 result.1 }
    ensures tokens { TokensFit (request.Choose session branch) result.0 }
{
    match vault.choose(session, branch) {
        Ok((session, done)) => (BookAnswer::Acts(session), Some(done)),
        Err((session, refusal)) => (
            BookAnswer::No(Request::Choose(session, branch), refusal),
            None,
        ),
    }
}

#[tactic(auto, using(crate::proofs::Noted::refused_does))]
fn finish(vault: &mut Vault, session: Session) -> (BookAnswer, Option<Done>)
    ensures comes { ComesTo vault.old (request.Finish session) result.0 vault.new }
    ensures does { DoesUnless vault.old (request.Finish session) result.0 vault.new }
    ensures done { TellsOf vault.old (request.Finish session) result.0 result.1 }
    ensures tokens { TokensFit (request.Finish session) result.0 }
{
    match vault.finish(session) {
        Ok((chair, done)) => (BookAnswer::Idle(chair), Some(done)),
        Err((session, refusal)) => (BookAnswer::No(Request::Finish(session), refusal), None),
    }
}

#[tactic(auto, using(crate::proofs::Noted::refused_does))]
fn end(vault: &mut Vault, leaver: Leaver) -> (BookAnswer, Option<Done>)
    ensures comes { ComesTo vault.old (request.End leaver) result.0 vault.new }
    ensures does { DoesUnless vault.old (request.End leaver) result.0 vault.new }
    ensures done { TellsOf vault.old (request.End leaver) result.0 result.1 }
    ensures tokens { TokensFit (request.End leaver) result.0 }
{
    match vault.end(leaver) {
        Ok((chair, done)) => (BookAnswer::Idle(chair), Some(done)),
        Err((leaver, refusal)) => (BookAnswer::No(Request::End(leaver), refusal), None),
    }
}

#[tactic(auto, using(crate::proofs::Noted::refused_does, crate::proofs::Tokens::back_same))]
fn give_back(vault: &mut Vault, leaver: Leaver, guard: Guard) -> (BookAnswer, Option<Done>)
    ensures comes { ComesTo vault.old (request.GiveBack leaver guard) result.0 vault.new }
    ensures does { DoesUnless vault.old (request.GiveBack leaver guard) result.0 vault.new }
    ensures done { TellsOf vault.old (request.GiveBack leaver guard) result.0 result.1 }
    ensures tokens { TokensFit (request.GiveBack leaver guard) result.0 }
{
    match vault.give_back(leaver, guard) {
        Ok((leaver, done)) => (BookAnswer::Leaves(leaver), Some(done)),
        Err((leaver, guard, refusal)) => (
            BookAnswer::No(Request::GiveBack(leaver, guard), refusal),
            None,
        ),
    }
}

// ---- a worker and its slots

#[tactic(auto, using(crate::proofs::Noted::refused_does, crate::proofs::Tokens::sent_worker))]
#[inline(always)]
fn fix(vault: &mut Vault, session: Session, page: u32) -> (BookAnswer, Option<Done>)
    ensures comes { ComesTo vault.old (request.Fix session page) result.0 vault.new }
    ensures does { DoesUnless vault.old (request.Fix session page) result.0 vault.new }
    ensures done { TellsOf vault.old (request.Fix session page) result.0 result.1 }
    ensures tokens { TokensFit (request.Fix session page) result.0 }
{
    let (fixed, done) = match vault.fix(session, page) {
        Ok(now) => now,
        Err((session, refusal)) => {
            return (BookAnswer::No(Request::Fix(session, page), refusal), None);
        }
    };
    match fixed {
        Fixed::Got(session, guard) => (BookAnswer::Pinned(session, guard), Some(done)),
        Fixed::Opened(session, guard) => (BookAnswer::Opened(session, guard), Some(done)),
        Fixed::Joined(session) => (BookAnswer::Joined(session), Some(done)),
        Fixed::Away(errand) => (BookAnswer::Away(errand), Some(done)),
    }
}

#[tactic(auto, using(crate::proofs::Noted::refused_does, crate::proofs::Tokens::sent_worker, crate::proofs::Joining::fix_joins, crate::proofs::Joining::fix_tells, crate::proofs::Joining::fix_refused, crate::proofs::Joining::join_strange))]
fn join(vault: &mut Vault, session: Session, page: u32) -> (BookAnswer, Option<Done>)
    ensures comes { ComesTo vault.old (request.Join session page) result.0 vault.new }
    ensures does { DoesUnless vault.old (request.Join session page) result.0 vault.new }
    ensures done { TellsOf vault.old (request.Join session page) result.0 result.1 }
    ensures tokens { TokensFit (request.Join session page) result.0 }
{
    if !may_join(vault, &session) {
        return (
            BookAnswer::No(Request::Join(session, page), Refusal::Stranger),
            None,
        );
    }
    // There is a state that the vault stands for, and in it the bundle holds a page. So no guard comes.
    vault.known();
    let (fixed, done) = match vault.fix(session, page) {
        Ok(now) => now,
        Err((session, refusal)) => {
            return (BookAnswer::No(Request::Join(session, page), refusal), None);
        }
    };
    match fixed {
        Fixed::Joined(session) => (BookAnswer::Joined(session), Some(done)),
        Fixed::Away(errand) => (BookAnswer::Away(errand), Some(done)),
        _ => unreachable!(),
    }
}

/// Whether the session's plan asks a gather, and its bundle holds a page.
fn may_join(vault: &Vault, session: &Session) -> bool
    ensures { (s : State) → StandsFor vault.now s
        → result ≡ can_join s (bundle_asked session.now.worker session.now.ask) }
{
    match session.ask() {
        Ask::Gather { slot, .. } => vault.has_bundle(session.worker(), u32::from(slot)),
        _ => false,
    }
}

#[tactic(auto, using(crate::proofs::Noted::refused_does))]
fn unfix(vault: &mut Vault, session: Session, guard: PinGuard) -> (BookAnswer, Option<Done>)
    ensures comes { ComesTo vault.old (request.Unfix session guard) result.0 vault.new }
    ensures does { DoesUnless vault.old (request.Unfix session guard) result.0 vault.new }
    ensures done { TellsOf vault.old (request.Unfix session guard) result.0 result.1 }
    ensures tokens { TokensFit (request.Unfix session guard) result.0 }
{
    match vault.unfix(session, guard) {
        Ok((session, done)) => (BookAnswer::Acts(session), Some(done)),
        Err((session, guard, refusal)) => (
            BookAnswer::No(Request::Unfix(session, guard), refusal),
            None,
        ),
    }
}

#[tactic(auto, using(crate::proofs::Noted::refused_does))]
fn scatter(vault: &mut Vault, session: Session, guard: BundleGuard) -> (BookAnswer, Option<Done>)
    ensures comes { ComesTo vault.old (request.Scatter session guard) result.0 vault.new }
    ensures does { DoesUnless vault.old (request.Scatter session guard) result.0 vault.new }
    ensures done { TellsOf vault.old (request.Scatter session guard) result.0 result.1 }
    ensures tokens { TokensFit (request.Scatter session guard) result.0 }
{
    match vault.scatter(session, guard) {
        Ok((session, done)) => (BookAnswer::Acts(session), Some(done)),
        Err((session, guard, refusal)) => (
            BookAnswer::No(Request::Scatter(session, guard), refusal),
            None,
        ),
    }
}

#[tactic(auto, using(crate::proofs::Noted::refused_does))]
#[inline(always)]
fn latch_shared(vault: &mut Vault, session: Session, guard: PinGuard) -> (BookAnswer, Option<Done>)
    ensures comes { ComesTo vault.old (request.LatchShared session guard) result.0 vault.new }
    ensures does { DoesUnless vault.old (request.LatchShared session guard) result.0 vault.new }
    ensures done { TellsOf vault.old (request.LatchShared session guard) result.0 result.1 }
    ensures tokens { TokensFit (request.LatchShared session guard) result.0 }
{
    match vault.latch_shared(session, guard) {
        Ok((session, guard, done)) => (BookAnswer::Shared(session, guard), Some(done)),
        Err((session, guard, refusal)) => {
            (
                BookAnswer::No(Request::LatchShared(session, guard), refusal),
                None,
            )
        }
    }
}

#[tactic(auto, using(crate::proofs::Noted::refused_does, crate::proofs::Tokens::latched_long))]
fn latch_exclusive(
    vault: &mut Vault,
    session: Session,
    guard: PinGuard,
) -> (BookAnswer, Option<Done>)
    ensures comes { ComesTo vault.old (request.LatchExclusive session guard) result.0 vault.new }
    ensures does { DoesUnless vault.old (request.LatchExclusive session guard) result.0 vault.new }
    ensures done { TellsOf vault.old (request.LatchExclusive session guard) result.0 result.1 }
    ensures tokens { TokensFit (request.LatchExclusive session guard) result.0 }
{
    match vault.latch_exclusive(session, guard) {
        Ok((session, guard, done)) => (BookAnswer::Exclusive(session, guard), Some(done)),
        Err((session, guard, refusal)) => {
            (
                BookAnswer::No(Request::LatchExclusive(session, guard), refusal),
                None,
            )
        }
    }
}

#[tactic(auto, using(crate::proofs::Noted::refused_does))]
fn unlatch_shared(
    vault: &mut Vault,
    session: Session,
    guard: ReadGuard,
) -> (BookAnswer, Option<Done>)
    ensures comes { ComesTo vault.old (request.UnlatchShared session guard) result.0 vault.new }
    ensures does { DoesUnless vault.old (request.UnlatchShared session guard) result.0 vault.new }
    ensures done { TellsOf vault.old (request.UnlatchShared session guard) result.0 result.1 }
    ensures tokens { TokensFit (request.UnlatchShared session guard) result.0 }
{
    match vault.unlatch_shared(session, guard) {
        Ok((session, guard, done)) => (BookAnswer::Pinned(session, guard), Some(done)),
        Err((session, guard, refusal)) => {
            (
                BookAnswer::No(Request::UnlatchShared(session, guard), refusal),
                None,
            )
        }
    }
}

#[tactic(auto, using(crate::proofs::Noted::refused_does))]
fn unlatch_exclusive(
    vault: &mut Vault,
    session: Session,
    guard: WriteGuard,
) -> (BookAnswer, Option<Done>)
    ensures comes { ComesTo vault.old (request.UnlatchExclusive session guard) result.0 vault.new }
    ensures does { DoesUnless vault.old (request.UnlatchExclusive session guard) result.0 vault.new }
    ensures done { TellsOf vault.old (request.UnlatchExclusive session guard) result.0 result.1 }
    ensures tokens { TokensFit (request.UnlatchExclusive session guard) result.0 }
{
    match vault.unlatch_exclusive(session, guard) {
        Ok((session, guard, done)) => (BookAnswer::Pinned(session, guard), Some(done)),
        Err((session, guard, refusal)) => {
            (
                BookAnswer::No(Request::UnlatchExclusive(session, guard), refusal),
                None,
            )
        }
    }
}

// ---- a device, and the flusher

#[tactic(auto, using(crate::proofs::Noted::refused_does, crate::proofs::Tokens::answer_does, crate::proofs::Tokens::got_worker, crate::proofs::Tokens::got_slot, crate::proofs::Tokens::opened_worker, crate::proofs::Tokens::opened_slot, crate::proofs::Tokens::joined_worker, crate::proofs::Tokens::away_worker, crate::proofs::Tokens::lost_worker, crate::proofs::Tokens::flushed_worker))]
fn answer(vault: &mut Vault, returned: Returned) -> (BookAnswer, Option<Done>)
    ensures comes { ComesTo vault.old (request.Answer returned) result.0 vault.new }
    ensures does { DoesUnless vault.old (request.Answer returned) result.0 vault.new }
    ensures done { TellsOf vault.old (request.Answer returned) result.0 result.1 }
    ensures tokens { TokensFit (request.Answer returned) result.0 }
{
    let (answered, done) = match vault.answer(returned) {
        Ok(now) => now,
        Err((returned, refusal)) => {
            return (BookAnswer::No(Request::Answer(returned), refusal), None);
        }
    };
    match answered {
        Answered::Got(session, guard) => (BookAnswer::Pinned(session, guard), Some(done)),
        Answered::Opened(session, guard) => (BookAnswer::Opened(session, guard), Some(done)),
        Answered::Joined(session) => (BookAnswer::Joined(session), Some(done)),
        Answered::Away(errand) => (BookAnswer::Away(errand), Some(done)),
        Answered::Lost(leaver) => (BookAnswer::Leaves(leaver), Some(done)),
        Answered::Flushed(clean) => (BookAnswer::Flushed(clean), Some(done)),
    }
}

#[tactic(auto, using(crate::proofs::Noted::refused_does, crate::proofs::Tokens::answer_does, crate::proofs::Tokens::joined_worker, crate::proofs::Tokens::away_worker, crate::proofs::Tokens::lost_worker, crate::proofs::Joining::answer_joins, crate::proofs::Joining::answer_tells, crate::proofs::Joining::answer_refused, crate::proofs::Joining::answer_strange))]
fn answer_join(vault: &mut Vault, returned: Returned) -> (BookAnswer, Option<Done>)
    ensures comes { ComesTo vault.old (request.AnswerJoin returned) result.0 vault.new }
    ensures does { DoesUnless vault.old (request.AnswerJoin returned) result.0 vault.new }
    ensures done { TellsOf vault.old (request.AnswerJoin returned) result.0 result.1 }
    ensures tokens { TokensFit (request.AnswerJoin returned) result.0 }
{
    if !may_answer_join(vault, &returned) {
        return (
            BookAnswer::No(Request::AnswerJoin(returned), Refusal::Stranger),
            None,
        );
    }
    vault.known();
    let (answered, done) = match vault.answer(returned) {
        Ok(now) => now,
        Err((returned, refusal)) => {
            return (BookAnswer::No(Request::AnswerJoin(returned), refusal), None);
        }
    };
    match answered {
        Answered::Joined(session) => (BookAnswer::Joined(session), Some(done)),
        Answered::Away(errand) => (BookAnswer::Away(errand), Some(done)),
        Answered::Lost(leaver) => (BookAnswer::Leaves(leaver), Some(done)),
        _ => unreachable!(),
    }
}

/// Whether a device worked for a worker's slot that is a bundle and holds a page.
fn may_answer_join(vault: &Vault, returned: &Returned) -> bool
    ensures { (s : State) → StandsFor vault.now s → result ≡ can_join s (bundle_served returned.now.duty) }
{
    match (returned.worker(), returned.slot()) {
        (Some(worker), Some(slot)) => vault.has_bundle(worker, slot),
        _ => false,
    }
}

#[tactic(auto, using(crate::proofs::Noted::refused_does))]
fn flush(vault: &mut Vault, page: u32) -> (BookAnswer, Option<Done>)
    ensures comes { ComesTo vault.old (request.Flush page) result.0 vault.new }
    ensures does { DoesUnless vault.old (request.Flush page) result.0 vault.new }
    ensures done { TellsOf vault.old (request.Flush page) result.0 result.1 }
    ensures tokens { TokensFit (request.Flush page) result.0 }
{
    match vault.flush(page) {
        Ok((errand, done)) => (BookAnswer::Away(errand), Some(done)),
        Err(refusal) => (BookAnswer::No(Request::Flush(page), refusal), None),
    }
}

#[tactic(auto, using(crate::proofs::Noted::refused_does))]
fn flush_next(vault: &mut Vault, number: u32) -> (BookAnswer, Option<Done>)
    ensures comes { ComesTo vault.old (request.FlushNext number) result.0 vault.new }
    ensures does { DoesUnless vault.old (request.FlushNext number) result.0 vault.new }
    ensures done { TellsOf vault.old (request.FlushNext number) result.0 result.1 }
    ensures tokens { TokensFit (request.FlushNext number) result.0 }
{
    match vault.flush_next(number) {
        Ok((errand, done)) => (BookAnswer::Away(errand), Some(done)),
        Err(refusal) => (BookAnswer::No(Request::FlushNext(number), refusal), None),
    }
}
