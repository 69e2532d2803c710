//! One life of a pool, on threads.

ghost use Rattle.std.specs.Prelude.{◌≡◌, ◌≢◌, ◌+◌, ◌-◌, ◌*◌, ◌≤◌, ◌<◌, ◌^◌, true, [], IfOk, IfErr, IsOk, OnErr, OnOk, length, sum_by, is_none, vec_len};
ghost use Rattle.pp_model.specs.Budget.{cost_of};
ghost use Rattle.pp_model.specs.Pool.{dirty_pages};
ghost use Rattle.pp_model.specs.Submitting.{after_submits};
ghost use Rattle.pp_model.specs.Turns.{IsUnderWay, next_turn};
ghost use Rattle.pp_pool.specs.Books.{IsBook};
ghost use Rattle.pp_pool.specs.Parts.{settings_of, plans_of, state_of};
ghost use Rattle.pp_pool.specs.Parts as parts;
ghost use Rattle.pp_pool.specs.Renewals.{HasLifeRoom};
ghost use Rattle.pp_run.specs.Calling.{begun_flushes_in};
ghost use Rattle.pp_run.specs.Ends.{GivesBack};
ghost use Rattle.pp_run.specs.Joins.{IsAnswerFrom};
ghost use Rattle.pp_run.specs.Rested.{opening_of, IsEnd};
ghost use Rattle.pp_run.specs.Planned.{HasRoomFor};
ghost use Rattle.pp_run.specs.Runs.{AllCalled, IsRunErrorFrom};
ghost use Rattle.pp_run.specs.Unrun.{IsNotBegun, IsStopped, IsUnready, MayNotBegin, MayStop};
ghost use Rattle.pp_run.specs.Verdicts.{IsVerdict};
ghost use Rattle.pp_run.specs.declared.error.RunError.TheVariants as run_errors;

use crate::bells::Bells;
use crate::desk::{Naming, RunDesk};
use crate::error::RunError;
use crate::judging::{Left, judge};
use crate::locked::Locked;
use crate::planning::{need_of, submit_all};
use crate::pool::Pool;
use crate::renewing::told;
use crate::site::LockedSite;
use crate::stalled::Stalled;
use crate::stop::{Flushed, Worked};
use crate::threads::{ThreadRoom, run_all};
use pp_cert::Accepted;
use pp_device::Device;
use pp_pool::{Book, Journal, Work};
use pp_report::RunRecord;
use pp_settings::Layout;
use pp_vault::Hands;
use pp_wants::Sleepers;
use std::alloc::Global;
use std::sync::atomic::AtomicU64;
use std::sync::{Mutex, Wait};
use std::thread::Threads;

/// A pool at the end of a life whose threads are joined and fit its journal, with the devices in their order.
///
/// The compiler refuses code that lets it fall.
pub(crate) struct Ended<D> {
    pub(crate) stalled: Stalled,
    pub(crate) plans: u16,
    pub(crate) dirty: u32,
    pub(crate) devices: Vec<D>,
}

impl<D: Drop> Ended<D> {
    /// Gives the pool up. What the run leaves, and the devices.
    pub(crate) fn closed(self) -> (RunRecord, Vec<D>)
        ensures events { result.0.events.items ≡ self.stalled.book.journal }
        ensures plans { result.0.plans ≡ self.plans }
        ensures dirty { result.0.dirty ≡ self.dirty }
        ensures devices { result.1 ≡ self.devices }
    {
        let Ended {
            stalled,
            plans,
            dirty,
            devices,
        } = self;
        let (events, _dirty) = stalled.close();
        let record = RunRecord {
            plans,
            events,
            dirty,
        };
        (record, devices)
    }
}

/// A pool that is ready for a life of plans that were looked at: all are taken in, and there is room for them. No plan is
/// submitted yet.
///
/// The compiler refuses code that lets it fall.
pub(crate) struct Ready<D: Device + Drop> {
    pub(crate) book: Book,
    pub(crate) hands: Hands,
    pub(crate) pages: (Layout, u32),
    pub(crate) from: u32,
    // The journal of the next life.
    pub(crate) spare: Journal,
    // Room for the handles of this life's threads, places for those of its workers that sleep, and what they sleep on.
    pub(crate) threads: ThreadRoom<D>,
    pub(crate) sleepers: Sleepers,
    pub(crate) bells: Bells,
}

/// Looks at the plans, and gets room for them in the pool's journal, for its next life, and for the threads of this one.
///
/// # Errors
///
/// Why the run isn't begun, and the pool as it was.
pub(crate) fn made_ready<D: Device + Drop>(
    alloc: Global,
    pool: Pool,
    plans: &[Accepted],
) -> Result<Ready<D>, (RunError, Pool)>
    ensures settings { IfOk result (λ r. settings_of r.book ≡ pool.settings) }
    ensures outset { IfOk result (λ r. r.book.began ≡ pool.began) }
    ensures state { IfOk result (λ r. state_of r.book ≡ opening_of pool) }
    ensures fresh { IfOk result (λ r. (r.book.journal ≡ []) × (plans_of r.book ≡ [])) }
    ensures layout { IfOk result (λ r. r.pages.0 ≡ pool.settings.layout) }
    ensures page_bytes { IfOk result (λ r. r.pages.1 ≡ pool.page_bytes) }
    ensures vault_bytes { IfOk result (λ r. r.pages.1 ≡ r.book.vault.page_bytes) }
    ensures from { IfOk result (λ r. r.from ≡ pool.from) }
    ensures room { IfOk result (λ r. HasRoomFor r.book (sum_by cost_of plans.now + length plans.now)) }
    ensures spare { IfOk result (λ r. HasLifeRoom r.book r.spare.capacity) }
    ensures threads { IfOk result (λ r. pool.settings.workers ≤ r.threads) }
    ensures taken { OnOk result (IsOk (after_submits (opening_of pool) plans.now)) }
    ensures error { IfErr result (λ e. IsNotBegun (opening_of pool) plans.now e.0) }
    ensures back { IfErr result (λ e. e.1 ≡ pool) }
{
    let need = match need_of(&pool.layout, 0, 2 * u64::from(pool.flushes()), plans) {
        Ok(need) => need,
        Err(error) => return Err((RunError::Refused(error), pool)),
    };
    ready_with(alloc, pool, need as usize + plans.len())
}

/// Gets room for so many events in the pool's journal, the flushes and all that its plans need, for its next life, and for the
/// threads of this one.
///
/// # Errors
///
/// [`RunError::OutOfMemory`], or [`RunError::Broken`] with the flusher's number where a mark has come to 2^63; and the pool as it was.
pub(crate) fn ready_with<D: Device + Drop>(
    alloc: Global,
    pool: Pool,
    room: usize,
) -> Result<Ready<D>, (RunError, Pool)>
    requires room { 2 * pool.settings.flushes ≤ room }
    ensures settings { IfOk result (λ r. settings_of r.book ≡ pool.settings) }
    ensures outset { IfOk result (λ r. r.book.began ≡ pool.began) }
    ensures state { IfOk result (λ r. state_of r.book ≡ opening_of pool) }
    ensures fresh { IfOk result (λ r. (r.book.journal ≡ []) × (plans_of r.book ≡ [])) }
    ensures layout { IfOk result (λ r. r.pages.0 ≡ pool.settings.layout) }
    ensures page_bytes { IfOk result (λ r. r.pages.1 ≡ pool.page_bytes) }
    ensures vault_bytes { IfOk result (λ r. r.pages.1 ≡ r.book.vault.page_bytes) }
    ensures from { IfOk result (λ r. r.from ≡ pool.from) }
    ensures room { IfOk result (λ r. HasRoomFor r.book (room - 2 * pool.settings.flushes)) }
    ensures spare { IfOk result (λ r. HasLifeRoom r.book r.spare.capacity) }
    ensures threads { IfOk result (λ r. pool.settings.workers ≤ r.threads) }
    ensures error { IfErr result (λ e. MayNotBegin (opening_of pool) e.0) }
    ensures back { IfErr result (λ e. e.1 ≡ pool) }
{
    pool.known();
    let Ok(journal) = Journal::with_capacity(alloc, room) else {
        return Err((RunError::OutOfMemory, pool));
    };
    let Ok(threads) = ThreadRoom::new(alloc, pool.workers() as usize) else {
        return Err((RunError::OutOfMemory, pool));
    };
    let Ok(sleepers) = Sleepers::new(alloc, pool.workers()) else {
        return Err((RunError::OutOfMemory, pool));
    };
    let Ok(bells) = Bells::new(alloc) else {
        return Err((RunError::OutOfMemory, pool));
    };
    let Pool {
        mut book,
        hands,
        layout,
        page_bytes,
        from,
    } = pool;
    match with_room(&mut book, journal, room) {
        Ok(spare) => Ok(Ready {
            book,
            hands,
            pages: (layout, page_bytes),
            from,
            spare,
            threads,
            sleepers,
            bells,
        }),
        Err(error) => {
            let pool = Pool {
                book,
                hands,
                layout,
                page_bytes,
                from,
            };
            Err((error, pool))
        }
    }
}

/// Sees that the journal of a book in whose life nothing was done has room for so many events, and gives the journal of its next
/// life. The one that is handed over, which has that room, becomes the one or the other: where the book's is too small they change
/// places, by a renewal, which changes nothing else.
///
/// # Errors
///
/// [`RunError::Broken`] with the flusher's number where a mark has come to 2^63. The book is as it was.
fn with_room(book: &mut Book, journal: Journal, room: usize) -> Result<Journal, RunError>
    requires fresh { (book.old.journal ≡ []) × (plans_of book.old ≡ []) }
    requires empty { journal.items ≡ [] }
    requires room { room ≤ journal.capacity }
    requires life { HasLifeRoom book.old room }
    ensures settings { settings_of book.new ≡ settings_of book.old }
    ensures outset { book.new.began ≡ book.old.began }
    ensures page_bytes { book.new.vault.page_bytes ≡ book.old.vault.page_bytes }
    ensures fresh { (book.new.journal ≡ []) × (plans_of book.new ≡ []) }
    ensures room { OnOk result (room ≤ book.new.capacity) }
    ensures spare { IfOk result (λ spare. HasLifeRoom book.new spare.capacity) }
    ensures error { IfErr result (IsUnready book.old) }
    ensures unchanged { OnErr result (book.new ≡ book.old) }
{
    book.known();
    if book.journal().capacity() >= room {
        return Ok(journal);
    }
    let flusher = book.workers();
    match book.renew(journal) {
        Ok(spare) => Ok(spare),
        Err((_journal, error)) => Err(told(error, flusher)),
    }
}

/// Submits the plans to a pool that is ready for them, and runs them on threads, up to the end of the pool's life. The life is of
/// the settings, the plans, the outset and the bytes of a page that `N` names. The journal of the next life comes back beside what
/// the run leaves.
pub(crate) fn live<
    N: Naming + Send,
    D: Device + Drop + Send,
    W: Work + Drop + Send,
    R: Threads + Wait + Sync,
>(
    rt: &R,
    alloc: Global,
    ready: Ready<D>,
    plans: Vec<Accepted>,
    devices: Vec<D>,
    works: Vec<W>,
    finished: &AtomicU64,
) -> Result<(Ended<D>, Journal), (RunError, Stalled)>
    requires settings { N.settings ≡ settings_of ready.book }
    requires plans { N.plans ≡ plans.items }
    requires outset { N.outset ≡ ready.book.began }
    requires page_bytes { N.page_bytes ≡ ready.book.vault.page_bytes }
    requires layout { ready.pages.0 ≡ (settings_of ready.book).layout }
    requires vault_bytes { ready.pages.1 ≡ ready.book.vault.page_bytes }
    requires fresh { (ready.book.journal ≡ []) × (plans_of ready.book ≡ []) }
    requires room { HasRoomFor ready.book (sum_by cost_of plans.items + length plans.items) }
    requires taken { IsOk (after_submits (state_of ready.book) plans.items) }
    requires ends { vec_len devices ≡ (settings_of ready.book).workers + 1 }
    requires works { vec_len works ≡ (settings_of ready.book).workers }
    requires threads { (settings_of ready.book).workers ≤ ready.threads }
    ensures end { IfOk result (λ r. IsEnd (parts.opening_of ready.book) plans.items r.0.stalled.book r.0.dirty) }
    ensures count { IfOk result (λ r. r.0.plans ≡ vec_len plans) }
    ensures page_bytes { IfOk result (λ r. r.0.stalled.page_bytes ≡ ready.pages.1) }
    ensures from { IfOk result (λ r. r.0.stalled.from ≡ ready.from) }
    ensures devices { IfOk result (λ r. AllCalled D.calls D.failures (settings_of ready.book).workers devices.items
        r.0.stalled.book.journal r.0.devices.items) }
    ensures spare { IfOk result (λ r. r.1 ≡ ready.spare) }
    ensures error { IfErr result (λ e. IsRunErrorFrom (parts.opening_of ready.book) plans.items e.0) }
    ensures verdict { IfErr result (λ e. IsAnswerFrom D.calls D.failures (parts.opening_of ready.book) plans.items
        devices.items e.0) }
    ensures stopped { IfErr result (λ e. IsStopped (parts.opening_of ready.book) ready.pages.1 ready.from plans.items e.1) }
    ensures may_stop { IfErr result (λ e. MayStop e.0) }
{
    let Ready {
        mut book,
        hands,
        pages,
        from,
        spare,
        threads,
        sleepers,
        bells,
    } = ready;
    let count = submit_all(&mut book, plans);
    let mut devices = devices;
    let Some(last) = devices.pop() else {
        unreachable!();
    };
    let desk = RunDesk::<N>::new(book, hands, &pages, finished);
    let lock = Mutex::new(Locked::new(desk, sleepers));
    let site = LockedSite {
        rt,
        lock: &lock,
        bells: &bells,
    };
    let joined = run_all(site, alloc, threads, devices, last, from, works);
    let (book, hands) = lock.into_inner().into_desk().into_parts();
    let stalled = Stalled {
        book,
        hands,
        layout: pages.0,
        page_bytes: pages.1,
        from,
    };
    let (worked, flushed) = match joined {
        Ok(ends) => ends,
        Err(error) => return Err((error, stalled)),
    };
    let left = left_of(&stalled.book);
    let back = give_back(alloc, worked, flushed, stalled.book.journal(), left);
    match back {
        Ok(devices) => {
            let ended = Ended {
                stalled,
                plans: count,
                dirty: left.dirty,
                devices,
            };
            Ok((ended, spare))
        }
        Err(error) => Err((error, stalled)),
    }
}

/// What is left of a book whose threads are joined.
fn left_of(book: &Book) -> Left
    ensures over { result.over ≡ true → IsUnderWay (state_of book.now) → ⊥ }
    ensures ended { result.over ≡ is_none (next_turn (state_of book.now)) }
    ensures dirty { result.dirty ≡ dirty_pages (state_of book.now) }
    ensures flushes { result.flushes ≡ (settings_of book.now).flushes }
    ensures kept { IsBook book.now }
{
    book.known();
    Left {
        over: book.next_possible().is_none(),
        dirty: book.dirty(),
        flushes: book.flushes(),
    }
}

/// The devices of the workers, and the flusher's behind them, where all that the threads give back fits the journal ([`judge`]).
fn give_back<D: Drop>(
    alloc: Global,
    worked: Vec<Worked<D>>,
    flushed: Flushed<D>,
    events: &Journal,
    left: Left,
) -> Result<Vec<D>, RunError>
    requires { vec_len worked < 2 ^ 32 }
    ensures over { OnOk result (left.over ≡ true) }
    ensures flushed { OnOk result (0 < left.dirty → begun_flushes_in events.now.items ≡ left.flushes) }
    ensures devices { IfOk result (λ back. GivesBack worked.items flushed events.now.items back.items) }
    ensures error { IfErr result (λ e. e ≢ run_errors.OutOfMemory → IsVerdict worked.items flushed events.now.items left e) }
{
    let mut back = judge(alloc, worked, &flushed, events, left)?;
    back.reserve(1)?;
    back.push_reserved(flushed.device);
    Ok(back)
}
