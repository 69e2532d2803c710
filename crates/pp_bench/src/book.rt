//! Plays a trace to a book over pages in memory, on one thread and without a lock: each operation begins a reading of a
//! page, looks at eight bytes of it, and ends the reading. Its four events stand in the book's journal then, or five where
//! the page has to be read.

ghost use Rattle.std.specs.Prelude.{◌≡◌, true, Some, IfOk, IfErr, IfSome};
ghost use Rattle.pp_settings.specs.declared.span.Span.TheVariants.{Bounded};
ghost use Rattle.pp_vault.specs.Duties.{duty_worker, duty_slot};
ghost use Rattle.pp_vault.specs.Fits.{fix_slot};
ghost use Rattle.pp_vault.specs.Holding.{slot_by, is_free};
ghost use Rattle.pp_vault.specs.Stages.{stage_worker, is_free_for};
ghost use Rattle.pp_pool.specs.Replies.{TokensFit, SlotFits};

use crate::disk::{self, Disk};
use crate::moves::setting;
use crate::pool::device_of;
use crate::trouble::Trouble;
use crate::watch::{self, Counted, Watch};
use crate::words;
use pp_bench_traces::{FRAMES, Trace};
use pp_pool::{Book, BookAnswer, Request, Response};
use pp_settings::Settings;
use pp_vault::{
    Accepted, Ask, Chair, Errand, Guard, Guards, Hand, Hands, PinGuard, ReadGuard, Session, Stage,
};
use std::alloc::Global;

/// The first worker at a book: the device of the pages, and the places of its guards. All places are free until it stops with a
/// guard in hand, which is put into its place then.
///
/// The compiler refuses code that lets it fall: [`Reader::end`] spends it.
struct Reader {
    book: Book,
    device: Disk,
    guards: Guards,
}

/// Plays the trace of the kind that the first word names, as many operations long as the second says, to a book of 4,096
/// frames. Prints how many pages had to be read, and on standard error how many nanoseconds an operation took.
pub fn play(rt: &HostRuntime, words: &[String]) -> Result<(), Trouble> {
    let (kind, ops) = words::kind_and_ops(words)?;
    let (misses, nanos) = run(rt, Trace::new(kind, FRAMES), ops)?;
    watch::tell(rt, Counted::One(misses), nanos, ops, "an operation")
}

/// How many pages are read in so many operations of the trace, and how many nanoseconds the operations took.
fn run(rt: &HostRuntime, trace: Trace, ops: u64) -> Result<(u64, Option<u128>), Trouble> {
    let alloc = rt.alloc();
    let (settings, accepted) = setting(alloc, ops)?;
    let (mut reader, stage, hands) = reader_of(alloc, &settings)?;
    let watch = Watch::start(rt);
    let played = reader.play(stage, accepted, trace, ops);
    let nanos = watch.nanos(rt);
    let misses = reader.end(hands, played)?;
    Ok((misses, nanos))
}

/// The first worker at a new book with these settings, its stage, and the tokens that nobody has in hand.
fn reader_of(alloc: Global, settings: &Settings) -> Result<(Reader, Stage, Hands), Trouble>
    requires { settings.now.span ≡ Bounded }
    ensures worker { IfOk result (λ made. stage_worker made.1 ≡ Some 0) }
    ensures place { IfOk result (λ made. is_free_for made.2.workers (Some 0) ≡ true) }
{
    let device = device_of(alloc, settings)?;
    let (book, mut hands) = match Book::new(alloc, settings) {
        Ok(made) => made,
        Err(_) => return Err(Trouble::Memory),
    };
    let Hand { stage, guards } = match hands.part(0) {
        Some(hand) => hand,
        None => unreachable!(),
    };
    let reader = Reader {
        book,
        device,
        guards,
    };
    Ok((reader, stage, hands))
}

impl Reader {
    /// Gives the book up with what the worker has, and tells what was played.
    fn end(self, hands: Hands, played: Result<(Chair, u64), Stage>) -> Result<u64, Trouble>
        requires place { is_free_for hands.workers (Some 0) ≡ true }
        requires worker { IfOk played (λ now. now.0.worker ≡ 0) }
        requires stopped { IfErr played (λ stage. stage_worker stage ≡ Some 0) }
    {
        let Reader {
            book,
            device: _device,
            guards,
        } = self;
        let (stage, told) = match played {
            Ok((chair, misses)) => (Stage::Idle(chair), Ok(misses)),
            Err(stage) => (stage, Err(Trouble::Refused)),
        };
        let mut hands = hands;
        match hands.join(Hand { stage, guards }) {
            Ok(()) => {}
            Err(_) => unreachable!(),
        }
        let _journal = book.close(hands);
        told
    }

    /// Does the plan on the trace, and tells how many pages were read. Where a call is refused, the token comes back that the
    /// worker has then.
    fn play(
        &mut self,
        stage: Stage,
        accepted: Accepted,
        trace: Trace,
        ops: u64,
    ) -> Result<(Chair, u64), Stage>
        requires { stage_worker stage ≡ Some 0 }
        ensures worker { IfOk result (λ now. now.0.worker ≡ 0) }
        ensures stopped { IfErr result (λ now. stage_worker now ≡ Some 0) }
    {
        if self.book.submit(accepted).is_err() {
            return Err(stage);
        }
        let session = self.take(stage)?;
        let (session, misses) = self.misses(session, trace, ops)?;
        let chair = self.finish(session)?;
        Ok((chair, misses))
    }

    /// Takes the plan.
    fn take(&mut self, stage: Stage) -> Result<Session, Stage>
        requires { stage_worker stage ≡ Some 0 }
        ensures worker { IfOk result (λ session. session.worker ≡ 0) }
        ensures stopped { IfErr result (λ now. stage_worker now ≡ Some 0) }
    {
        let chair = match stage {
            Stage::Idle(chair) => chair,
            stage => return Err(stage),
        };
        match self.ask(Request::Take(chair)) {
            BookAnswer::Acts(session) => Ok(session),
            BookAnswer::No(Request::Take(chair), _refusal) => Err(Stage::Idle(chair)),
            _ => unreachable!(),
        }
    }

    /// Ends the plan.
    fn finish(&mut self, session: Session) -> Result<Chair, Stage>
        requires { session.worker ≡ 0 }
        ensures worker { IfOk result (λ chair. chair.worker ≡ 0) }
        ensures stopped { IfErr result (λ now. stage_worker now ≡ Some 0) }
    {
        match self.ask(Request::Finish(session)) {
            BookAnswer::Idle(chair) => Ok(chair),
            BookAnswer::No(Request::Finish(session), _refusal) => Err(Stage::In(session)),
            _ => unreachable!(),
        }
    }

    /// How many of the next operations of the trace have a page read.
    fn misses(
        &mut self,
        session: Session,
        mut trace: Trace,
        ops: u64,
    ) -> Result<(Session, u64), Stage>
        requires { session.worker ≡ 0 }
        ensures worker { IfOk result (λ now. now.0.worker ≡ 0) }
        ensures stopped { IfErr result (λ now. stage_worker now ≡ Some 0) }
    {
        let mut session = session;
        let mut count: u64 = 0;
        for _ in 0..ops {
            let (now, was_cached) = self.look_at(session, trace.next_page())?;
            if !was_cached {
                count = count.wrapping_add(1);
            }
            session = now;
        }
        Ok((session, count))
    }

    /// Reads the page and looks at it, and tells whether it was cached.
    fn look_at(&mut self, session: Session, page: u32) -> Result<(Session, bool), Stage>
        requires { session.worker ≡ 0 }
        ensures worker { IfOk result (λ now. now.0.worker ≡ 0) }
        ensures stopped { IfErr result (λ now. stage_worker now ≡ Some 0) }
    {
        let (session, guard, was_cached) = self.read(session, page)?;
        let is_numbered = disk::is_at_front(self.book.see(&guard), u64::from(guard.page()));
        let session = self.end_read(session, guard)?;
        if !is_numbered {
            return Err(Stage::In(session));
        }
        Ok((session, was_cached))
    }

    /// Begins a reading of the page, and tells whether it was cached. What isn't possible at once is made by requests.
    #[tactic(auto, using(crate::proofs::Readings::read_worker, crate::proofs::Readings::read_slot))]
    fn read(&mut self, session: Session, page: u32) -> Result<(Session, ReadGuard, bool), Stage>
        requires { session.worker ≡ 0 }
        ensures worker { IfOk result (λ now. now.0.worker ≡ 0) }
        ensures place { IfOk result (λ now. is_free self.new.guards now.1.slot ≡ true) }
        ensures stopped { IfErr result (λ now. stage_worker now ≡ Some 0) }
    {
        if !self.has_place(&session) {
            return Err(Stage::In(session));
        }
        match self.book.read(session, page) {
            Ok((session, guard, _frame)) => Ok((session, guard, true)),
            Err(session) => {
                let (session, guard, was_cached) = self.fix(session, page)?;
                let (session, guard) = self.latch(session, guard)?;
                Ok((session, guard, was_cached))
            }
        }
    }

    /// Whether the plan asks a fix, and the place of its slot is free. A worker of a run looks at that, too.
    fn has_place(&self, session: &Session) -> bool
        ensures { result ≡ true → is_free self.now.guards (fix_slot session.now.ask) ≡ true }
    {
        match session.ask() {
            Ask::Fix { slot, .. } => self.guards.is_free(u32::from(slot)),
            _ => false,
        }
    }

    /// Ends a reading.
    #[tactic(auto, using(crate::proofs::Readings::end_worker))]
    fn end_read(&mut self, session: Session, guard: ReadGuard) -> Result<Session, Stage>
        requires worker { session.worker ≡ 0 }
        requires place { is_free self.old.guards guard.slot ≡ true }
        ensures worker { IfOk result (λ now. now.worker ≡ 0) }
        ensures stopped { IfErr result (λ now. stage_worker now ≡ Some 0) }
    {
        match self.book.end_read(session, guard) {
            Ok((session, _mark)) => Ok(session),
            Err((session, guard)) => Err(self.stop_with(session, Guard::Read(guard))),
        }
    }

    /// Fixes the page by a request, and tells whether it was cached.
    fn fix(&mut self, session: Session, page: u32) -> Result<(Session, PinGuard, bool), Stage>
        requires worker { session.worker ≡ 0 }
        requires place { is_free self.old.guards (fix_slot session.ask) ≡ true }
        ensures worker { IfOk result (λ now. now.0.worker ≡ 0) }
        ensures place { IfOk result (λ now. is_free self.new.guards now.1.slot ≡ true) }
        ensures stopped { IfErr result (λ now. stage_worker now ≡ Some 0) }
    {
        match self.ask(Request::Fix(session, page)) {
            BookAnswer::Pinned(session, guard) => Ok((session, guard, true)),
            BookAnswer::Opened(session, guard) => {
                Err(self.stop_with(session, Guard::Bundle(guard)))
            }
            BookAnswer::Joined(session) => Err(Stage::In(session)),
            BookAnswer::Away(errand) => {
                let (session, guard) = self.load(errand)?;
                Ok((session, guard, false))
            }
            BookAnswer::No(Request::Fix(session, _), _refusal) => Err(Stage::In(session)),
            _ => unreachable!(),
        }
    }

    /// Has the device read a page.
    fn load(&mut self, errand: Errand) -> Result<(Session, PinGuard), Stage>
        requires worker { duty_worker errand.duty ≡ Some 0 }
        requires place { IfSome (duty_slot errand.duty) (λ slot. is_free self.old.guards slot ≡ true) }
        ensures worker { IfOk result (λ now. now.0.worker ≡ 0) }
        ensures place { IfOk result (λ now. is_free self.new.guards now.1.slot ≡ true) }
        ensures stopped { IfErr result (λ now. stage_worker now ≡ Some 0) }
    {
        let returned = errand.carry_out(&mut self.device);
        match self.ask(Request::Answer(returned)) {
            BookAnswer::Pinned(session, guard) => Ok((session, guard)),
            BookAnswer::Opened(session, guard) => {
                Err(self.stop_with(session, Guard::Bundle(guard)))
            }
            BookAnswer::Joined(session) => Err(Stage::In(session)),
            BookAnswer::Away(errand) => Err(Stage::Out(errand)),
            BookAnswer::Leaves(leaver) => Err(Stage::Leaving(leaver)),
            BookAnswer::No(request, _refusal) => match request {
                Request::Answer(returned) => Err(Stage::Back(returned)),
                _ => unreachable!(),
            },
            _ => unreachable!(),
        }
    }

    /// Latches the page S by a request.
    fn latch(&mut self, session: Session, guard: PinGuard) -> Result<(Session, ReadGuard), Stage>
        requires worker { session.worker ≡ 0 }
        requires place { is_free self.old.guards guard.slot ≡ true }
        ensures worker { IfOk result (λ now. now.0.worker ≡ 0) }
        ensures place { IfOk result (λ now. is_free self.new.guards now.1.slot ≡ true) }
        ensures stopped { IfErr result (λ now. stage_worker now ≡ Some 0) }
    {
        match self.ask(Request::LatchShared(session, guard)) {
            BookAnswer::Shared(session, guard) => Ok((session, guard)),
            BookAnswer::No(Request::LatchShared(session, guard), _refusal) => {
                Err(self.stop_with(session, Guard::Pin(guard)))
            }
            _ => unreachable!(),
        }
    }

    /// Makes a request, and gives the tokens that come of it.
    fn ask(&mut self, request: Request) -> BookAnswer
        ensures tokens { TokensFit request result }
        ensures slot { SlotFits request result }
        ensures guards { self.new.guards ≡ self.old.guards }
    {
        let Response { event: _, answer } = self.book.perform(request);
        answer
    }

    /// Puts the guard into its place, which is free, where the worker stops in its plan.
    fn stop_with(&mut self, session: Session, guard: Guard) -> Stage
        requires { is_free self.old.guards (slot_by guard) ≡ true }
        ensures { stage_worker result ≡ Some session.worker }
    {
        match self.guards.put(guard) {
            Ok(()) => Stage::In(session),
            Err(_) => unreachable!(),
        }
    }
}
