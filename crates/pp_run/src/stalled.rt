//! A pool whose run stopped. One thread can do what is left, and renew it.

ghost use Rattle.std.specs.Prelude.{◌≡◌, ◌⊎◌, ◌↔◌, true, None, IfOk, IfErr};
ghost use Rattle.pp_model.specs.Lives.{IsLife};
ghost use Rattle.pp_model.specs.Pool.{dirty_pages};
ghost use Rattle.pp_model.specs.Renewing.{renewed};
ghost use Rattle.pp_outset.specs.Outsets.{outset_of};
ghost use Rattle.pp_pool.specs.Flushings.{IsFlush};
ghost use Rattle.pp_pool.specs.Parts.{settings_of, plans_of, state_of};
ghost use Rattle.pp_pool.specs.Parts as parts;
ghost use Rattle.pp_pool.specs.Renewals.{HasLifeRoom};
ghost use Rattle.pp_vault.specs.Stages.{stage_worker};
ghost use Rattle.pp_run.specs.declared.error.RunError.TheVariants as run_errors;
ghost use Rattle.pp_run.specs.Calling.{sought_behind};
ghost use Rattle.pp_run.specs.GoingOn.{GoesOn};
ghost use Rattle.pp_run.specs.Rested.{opening_of, KeptFor};

use crate::counting::sought_from;
use crate::error::RunError;
use crate::pool::Pool;
use crate::renewing::{are_idle, put_back, told};
use pp_device::Device;
use pp_pool::{Book, Flusher, Journal, OwnSite, Turned, Work, Worker};
use pp_settings::Layout;
use pp_vault::{Flushing, Hands};
use std::alloc::Global;

/// A pool whose run stopped, as its threads left it: its book, and the tokens that are back in their places. Its dirty pages are
/// nowhere else, so the compiler refuses code that lets it fall.
///
/// What is left is done by one thread: [`Stalled::flush`] writes changed pages back, and [`Stalled::drain`] does the plans.
/// [`Stalled::renew`] makes it a pool between two runs again. [`Stalled::close`] gives it up.
pub struct Stalled {
    pub book: Book,
    pub hands: Hands,
    pub(crate) layout: Layout,
    pub(crate) page_bytes: u32,
    /// The page number from which the first flush of this life was sought.
    pub from: u32,
    ghost laid: { layout ≡ (settings_of book).layout },
    ghost sized: { page_bytes ≡ book.vault.page_bytes },
}

impl Stalled {
    /// Gives the pool up: the journal of the life that wasn't ended, and how many pages were newer than the device's.
    pub fn close(self) -> (Journal, u32)
        ensures journal { result.0.items ≡ self.book.journal }
        ensures dirty { result.1 ≡ dirty_pages (state_of self.book) }
    {
        let Stalled {
            book,
            hands,
            layout: _,
            page_bytes: _,
            from: _,
        } = self;
        let dirty = book.dirty();
        (book.close(hands), dirty)
    }

    /// Ends the flush that is in flight, if there is one, and writes changed pages back until none is left that may be written,
    /// or no flush. The device is one over what the run left.
    pub fn flush<D: Device>(self, device: D) -> (Stalled, D)
        ensures goes_on { GoesOn self.book result.0.book }
        ensures from { result.0.from ≡ self.from }
    {
        let Stalled {
            book,
            mut hands,
            layout,
            page_bytes,
            from,
        } = self;
        if !is_of_flusher(&hands) {
            let stalled = Stalled {
                book,
                hands,
                layout,
                page_bytes,
                from,
            };
            return (stalled, device);
        }
        let sought = sought_from(book.journal(), from);
        let mut flusher = Flusher {
            site: OwnSite { book },
            device,
            flushing: hands.flushing.take(),
            ended: 0,
            failed: 0,
            from: sought,
        };
        flush_on(&mut flusher);
        let (OwnSite { book }, device, flushing, _ended, _failed) = flusher.end();
        put_flush_back(&mut hands, flushing);
        let stalled = Stalled {
            book,
            hands,
            layout,
            page_bytes,
            from,
        };
        (stalled, device)
    }

    /// Goes on with what workers have in hand and with the plans that wait, until no worker whose hand is in its place can make a
    /// move: each goes on for as long as it can, and then the next one. The work and the device are those of all of them. Where
    /// memory runs out, or a flush in flight holds a page that is wanted, plans may be left ([`Book::next_possible`]).
    pub fn drain<D: Device, W: Work>(self, alloc: Global, device: D, work: &mut W) -> (Stalled, D)
        ensures goes_on { GoesOn self.book result.0.book }
        ensures from { result.0.from ≡ self.from }
    {
        let mut stalled = self;
        let mut device = device;
        for _ in 0..u64::MAX {
            let (next, end, is_moved) = stalled.round(alloc, device, work);
            stalled = next;
            device = end;
            if !is_moved {
                return (stalled, device);
            }
        }
        (stalled, device)
    }

    /// Each worker goes on for as long as it can. Tells whether one has made a move.
    fn round<D: Device, W: Work>(self, alloc: Global, device: D, work: &mut W) -> (Stalled, D, bool)
        ensures goes_on { GoesOn self.book result.0.book }
        ensures from { result.0.from ≡ self.from }
    {
        let workers = self.book.workers();
        let mut stalled = self;
        let mut device = device;
        let mut is_moved = false;
        for worker in 0..workers {
            let (next, end, has_moved) = stalled.work_on(alloc, worker, device, work);
            stalled = next;
            device = end;
            is_moved = is_moved || has_moved;
        }
        (stalled, device, is_moved)
    }

    /// The worker goes on for as long as it can, where its hand is in its place. Tells whether it has made a move.
    fn work_on<D: Device, W: Work>(
        self,
        alloc: Global,
        worker: u32,
        device: D,
        work: &mut W,
    ) -> (Stalled, D, bool)
        ensures goes_on { GoesOn self.book result.0.book }
        ensures from { result.0.from ≡ self.from }
    {
        let Stalled {
            book,
            mut hands,
            layout,
            page_bytes,
            from,
        } = self;
        let Some(hand) = hands.part(worker) else {
            let stalled = Stalled {
                book,
                hands,
                layout,
                page_bytes,
                from,
            };
            return (stalled, device, false);
        };
        let mut worker = Worker::over(alloc, OwnSite { book }, device, hand, layout, page_bytes);
        let is_moved = turn_on(&mut worker, work);
        let (OwnSite { book }, device, hand, _log) = worker.end();
        put_back(&mut hands, hand);
        let stalled = Stalled {
            book,
            hands,
            layout,
            page_bytes,
            from,
        };
        (stalled, device, is_moved)
    }

    /// Renews the pool, and gives the journal of the life that is over.
    ///
    /// # Errors
    ///
    /// [`RunError::OutOfMemory`] where there is none for the next life's journal. [`RunError::Broken`] with the flusher's number
    /// where a plan waits or runs, a flush is in flight, a token isn't back in its place, or a mark has come to 2^63. The pool comes
    /// back as it is.
    pub fn renew(self, alloc: Global) -> Result<(Journal, Pool), (RunError, Stalled)>
        ensures journal { IfOk result (λ r. r.0.items ≡ self.book.journal) }
        ensures settings { IfOk result (λ r. r.1.settings ≡ settings_of self.book) }
        ensures page_bytes { IfOk result (λ r. r.1.page_bytes ≡ self.book.vault.page_bytes) }
        ensures outset { IfOk result (λ r. r.1.began ≡ outset_of (state_of self.book)) }
        ensures from { IfOk result (λ r. r.1.from ≡ sought_behind self.from self.book.journal) }
        ensures next { IfOk result (λ r. opening_of r.1 ≡ renewed (state_of self.book)) }
        ensures life { IfOk result (λ r. IsLife (parts.opening_of self.book)
            (record { plans = plans_of self.book; journal = self.book.journal })) }
        ensures error { IfErr result (λ e. (e.0 ≡ run_errors.OutOfMemory) ⊎ KeptFor self.book e.1.hands e.0) }
        ensures back { IfErr result (λ e. (e.1.book ≡ self.book) × (e.1.hands ≡ self.hands) × (e.1.from ≡ self.from)) }
    {
        let Ok(empty) = Journal::with_capacity(alloc, 2 * self.book.flushes() as usize) else {
            return Err((RunError::OutOfMemory, self));
        };
        self.renewed(empty)
    }

    /// Renews the pool. The empty journal becomes that of the next life, whose flusher begins where this one's has come.
    pub(crate) fn renewed(self, empty: Journal) -> Result<(Journal, Pool), (RunError, Stalled)>
        requires room { HasLifeRoom self.book empty.capacity }
        ensures journal { IfOk result (λ r. r.0.items ≡ self.book.journal) }
        ensures settings { IfOk result (λ r. r.1.settings ≡ settings_of self.book) }
        ensures page_bytes { IfOk result (λ r. r.1.page_bytes ≡ self.page_bytes) }
        ensures outset { IfOk result (λ r. r.1.began ≡ outset_of (state_of self.book)) }
        ensures from { IfOk result (λ r. r.1.from ≡ sought_behind self.from self.book.journal) }
        ensures next { IfOk result (λ r. opening_of r.1 ≡ renewed (state_of self.book)) }
        ensures life { IfOk result (λ r. IsLife (parts.opening_of self.book)
            (record { plans = plans_of self.book; journal = self.book.journal })) }
        ensures error { IfErr result (λ e. KeptFor self.book e.1.hands e.0) }
        ensures back { IfErr result (λ e. (e.1.book ≡ self.book) × (e.1.hands ≡ self.hands)) }
        ensures pages { IfErr result (λ e. (e.1.layout ≡ self.layout) × (e.1.page_bytes ≡ self.page_bytes)
            × (e.1.from ≡ self.from)) }
    {
        let Stalled {
            mut book,
            mut hands,
            layout,
            page_bytes,
            from,
        } = self;
        let sought = sought_from(book.journal(), from);
        let flusher = book.workers();
        if !are_idle(&mut hands, flusher) {
            let stalled = Stalled {
                book,
                hands,
                layout,
                page_bytes,
                from,
            };
            return Err((RunError::Broken(flusher), stalled));
        }
        match book.renew(empty) {
            Ok(events) => {
                let pool = Pool {
                    book,
                    hands,
                    layout,
                    page_bytes,
                    from: sought,
                };
                Ok((events, pool))
            }
            Err((_empty, error)) => {
                let stalled = Stalled {
                    book,
                    hands,
                    layout,
                    page_bytes,
                    from,
                };
                Err((told(error, flusher), stalled))
            }
        }
    }
}

/// Makes turns for as long as they are done. Tells whether one was.
fn turn_on<D: Device, W: Work>(worker: &mut Worker<OwnSite, D>, work: &mut W) -> bool
    ensures book { GoesOn worker.old.site.book worker.new.site.book }
    ensures worker { stage_worker worker.new.hand.stage ≡ stage_worker worker.old.hand.stage }
{
    let mut is_moved = false;
    for _ in 0..u64::MAX {
        match worker.turn(work) {
            Turned::Done => is_moved = true,
            _ => return is_moved,
        }
    }
    is_moved
}

/// Makes the flusher's turns for as long as they are done.
fn flush_on<D: Device>(flusher: &mut Flusher<OwnSite, D>)
    ensures { GoesOn flusher.old.site.book flusher.new.site.book }
{
    for _ in 0..u64::MAX {
        match flusher.turn() {
            Turned::Done => {}
            _ => return,
        }
    }
}

/// Whether the flush in hand, if there is one, is no worker's errand.
fn is_of_flusher(hands: &Hands) -> bool
    ensures { (result ≡ true) ↔ IsFlush hands.now.flushing }
{
    match &hands.flushing {
        Some(Flushing::Out(errand)) => errand.worker().is_none(),
        Some(Flushing::Back(returned)) => returned.worker().is_none(),
        None => true,
    }
}

/// Puts a flush back into its place, which is empty.
fn put_flush_back(hands: &mut Hands, flushing: Option<Flushing>)
    requires { hands.old.flushing ≡ None }
    ensures { hands.new.workers ≡ hands.old.workers }
{
    match flushing {
        None => {}
        Some(flushing) => match hands.flushing.replace(flushing) {
            None => {}
            Some(_) => unreachable!(),
        },
    }
}
