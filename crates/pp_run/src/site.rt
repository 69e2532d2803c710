//! The site of a worker whose book is shared.

ghost use Rattle.std.specs.Prelude.{◌≡◌, ◌≤◌, true, false, Some, IfSome, length};
ghost use Rattle.pp_device.specs.Image.{head_of};
ghost use Rattle.pp_vault.specs.Stages.{stage_worker};
ghost use Rattle.pp_run.specs.Shared.{IsGiven};

use crate::bells::Bells;
use crate::desk::Desk;
use crate::locked::{Locked, WaitsFor};
use crate::owed::Owed;
use pp_model::{Event, Failure, Reply};
use pp_pool::{BookAnswer, Request, Response, Site};
use pp_settings::Layout;
use pp_vault::{Flushing, Guard, Hand, ReadGuard};
use pp_wants::hold;
use std::sync::{Mutex, MutexGuard, Wait};

/// A site that threads share: a book under a lock, with the bells that they sleep on.
///
/// Each call takes the lock, and gives it back before it returns. A request that isn't possible yet waits, for which it
/// lets the lock go, and is tried again when a bell is rung for it; a worker's is rung when it may go. Contracts see of what the
/// site gives, shows and tells that a desk of this type can do so, not that it is the one under the lock.
#[derive(Drop)]
pub struct LockedSite<'a, B: Desk, R: Wait> {
    pub rt: &'a R,
    /// The book with the tokens that no thread has in hand, and who waits.
    pub lock: &'a Mutex<Locked<B>>,
    /// What the threads sleep on.
    pub bells: &'a Bells,
}

impl<'a, B: Desk, R: Wait> Site for LockedSite<'a, B, R> {
    ghost use Rattle.pp_run.specs.Shared.{IsGiven};

    ghost gives = { λ s request response t. IsGiven B.gives request response };

    ghost shows = { λ s guard before shown after. (desk : B) × B.shows desk guard before shown after };

    ghost tells = { λ s most. (desk : B) × B.tells desk most };

    fn perform(&mut self, request: Request) -> Response {
        self.perform_when_possible(request)
    }

    fn look(&mut self, guard: &ReadGuard, bytes: &mut [u8]) -> bool {
        self.hold().desk.look(guard, bytes)
    }

    fn most(&mut self) -> u64 {
        self.hold().desk.most()
    }
}

impl<'a, B: Desk, R: Wait> LockedSite<'a, B, R> {
    /// Performs the request, when it is possible. It waits where the move isn't possible now, unless no plan is left; and
    /// where nothing can be flushed, until the run is closing.
    fn perform_when_possible(&self, request: Request) -> Response
        ensures { IsGiven B.gives request result }
    {
        let (response, locked, owed) = self.perform_under(request, self.hold(), Owed::nothing());
        self.give_back(locked, owed);
        response
    }

    /// The same under a hold of the lock, which comes back, with what is owed to those who wait. Whoever may go by what was done
    /// under it is told before it waits itself, for which it lets the lock go.
    pub(crate) fn perform_under(
        &self,
        request: Request,
        locked: MutexGuard<'a, Locked<B>>,
        owed: Owed,
    ) -> (Response, MutexGuard<'a, Locked<B>>, Owed)
        ensures { IsGiven B.gives request result.0 }
    {
        let mut request = request;
        let mut locked = locked;
        let mut owed = owed;
        for _ in self.rt.forever() {
            let takes_writer_off = takes_writer_off(&request);
            let Response { event, answer } = locked.desk.perform(request);
            match answer {
                BookAnswer::No(back, refusal) => match locked.waits_for(&back, refusal) {
                    WaitsFor::Nothing => {
                        let answer = BookAnswer::No(back, refusal);
                        return (Response { event, answer }, locked, owed);
                    }
                    WaitsFor::Bell(worker, want) => {
                        request = back;
                        self.bells.ring(locked.fall_asleep(worker, want, owed));
                        owed = Owed::nothing();
                        locked = self.bells.sleep_as_worker(self.rt, locked, worker);
                        locked.rise(worker);
                    }
                    WaitsFor::Move => {
                        request = back;
                        self.bells.ring(locked.wait_for_move(owed));
                        owed = Owed::nothing();
                        locked = self.bells.sleep_for_move(self.rt, locked);
                        locked.moved();
                    }
                    WaitsFor::Change => {
                        request = back;
                        self.bells.ring(locked.wait_for_change(owed));
                        owed = Owed::nothing();
                        locked = self.bells.sleep_for_change(self.rt, locked);
                        locked.changed();
                    }
                },
                answer => {
                    let lets_flush = takes_writer_off || has_failed_to_write(event);
                    let owed = owed.and(lets_flush);
                    return (Response { event, answer }, locked, owed);
                }
            }
        }
        unreachable!()
    }

    /// Tells whoever may go, gives the lock back, and wakes them.
    #[inline(always)]
    pub(crate) fn give_back(&self, locked: MutexGuard<'a, Locked<B>>, owed: Owed) {
        let mut locked = locked;
        let told = locked.settle(owed);
        drop(locked);
        self.bells.ring(told);
    }

    /// Takes the lock.
    #[inline(always)]
    pub(crate) fn hold(&self) -> MutexGuard<'a, Locked<B>> {
        hold(self.rt, self.lock)
    }

    /// Where the regions of the plans lie, and how many bytes a page has.
    pub(crate) fn pages(&self) -> (Layout, u32) {
        self.hold().desk.pages()
    }

    /// Takes the worker's hand out, where it is there.
    pub(crate) fn part(&self, worker: u32) -> Option<Hand>
        ensures { IfSome result (λ hand. stage_worker hand.stage ≡ Some worker) }
    {
        self.hold().desk.part(worker)
    }

    /// Puts a worker's hand back, and wakes all that wait.
    ///
    /// Where the hand's place isn't empty it waits for ever. A token is spent only together with its vault, from its place, so
    /// a hand that has none can't be let go. Nor can it come back in what its thread gives: a scope starts only threads whose
    /// results may be let go. A book gives out one hand for each place, so this needs a desk that makes places full by itself.
    /// No test has met it, and no clause rules it out.
    pub(crate) fn put_back(&self, hand: Hand) {
        let mut hand = hand;
        let mut locked = self.hold();
        for _ in self.rt.forever() {
            match locked.desk.join(hand) {
                Ok(()) => {
                    self.bells.ring_all();
                    return;
                }
                Err(back) => {
                    hand = back;
                    locked = self.bells.sleep_for_move(self.rt, locked);
                }
            }
        }
        unreachable!()
    }

    /// Puts the flush in hand back, and wakes all that wait. Where there is another it waits for ever, as for a hand.
    pub(crate) fn put_flush_back(&self, flushing: Flushing) {
        let mut flushing = flushing;
        let mut locked = self.hold();
        for _ in self.rt.forever() {
            match locked.desk.join_flush(flushing) {
                Ok(()) => {
                    self.bells.ring_all();
                    return;
                }
                Err(back) => {
                    flushing = back;
                    locked = self.bells.sleep_for_move(self.rt, locked);
                }
            }
        }
        unreachable!()
    }

    /// From now on a request that finds nothing to flush goes back. Wakes all that wait.
    pub(crate) fn close(&self) {
        self.hold().close();
        self.bells.ring_all();
    }
}

/// Whether the request takes a writer's latch off a page, which can be flushed then. A reader's latch keeps no page from
/// being flushed.
pub(crate) fn takes_writer_off(request: &Request) -> bool {
    matches!(
        request,
        Request::UnlatchExclusive(_, _) | Request::GiveBack(_, Guard::Write(_))
    )
}

/// Whether the event tells that a victim couldn't be written, so that it is in its frame again and can be flushed.
pub(crate) fn has_failed_to_write(event: Option<Event>) -> bool {
    matches!(
        event,
        Some(Event::Step {
            reply: Reply::Failed(Failure::WriteFault),
            ..
        })
    )
}
