//! Plans that each come with a work of their own.

ghost use Rattle.std.specs.Prelude.{◌≡◌, ◌⊎◌, ◌≤◌, ◌+◌, ◌*◌, [], IfOk, IfErr, OnOk, IsOk, length, sum_by, vec_capacity, vec_len};
ghost use Rattle.pp_model.specs.Budget.{cost_of};
ghost use Rattle.pp_model.specs.Journals.{replay};
ghost use Rattle.pp_model.specs.Lives.{IsLife};
ghost use Rattle.pp_model.specs.Submitting.{after_submits};
ghost use Rattle.pp_report.specs.Audits.{IsOver};
ghost use Rattle.pp_run.specs.declared.queries.UnrunQueries.TheVariants as unrun_queries;
ghost use Rattle.pp_run.specs.Joins.{IsAnswerFrom};
ghost use Rattle.pp_run.specs.Planned.{plans_in};
ghost use Rattle.pp_run.specs.Queries.{dirty_left_of_queries, IsLeftOfQueries, IsUnrenewedQueries};
ghost use Rattle.pp_run.specs.Rested.{opening_of, ComesBack};
ghost use Rattle.pp_run.specs.Runs.{AllCalled, IsRunErrorFrom, IsRunFrom};
ghost use Rattle.pp_run.specs.Unrun.{IsNotBegun};

use crate::error::RunError;
use crate::life::{live, ready_with};
use crate::planning::need_of_queries;
use crate::pool::Pool;
use crate::stalled::Stalled;
use pp_cert::Accepted;
use pp_device::Device;
use pp_pool::{End, Held, Kind, Loan, Work};
use pp_report::RunRecord;
use std::alloc::{AllocError, Global};
use std::marker::Brand;
use std::sync::atomic::AtomicU64;
use std::sync::{Mutex, Wait};
use std::thread::Threads;

/// A plan's work, and how the plan ended.
#[derive(Drop)]
pub struct Query<W> {
    pub work: W,
    /// None where the plan hasn't ended.
    pub end: Option<End>,
}

/// What is left where a run of queries gives no record. The compiler refuses code that lets it fall.
pub enum UnrunQueries<D, W> {
    /// Nothing was done.
    Unbegun(UnbegunQueries<D, W>),
    /// The plans were submitted, and moves may have been done. The works, as far as they are, come in the plans' order.
    Stalled(StalledQueries<W>),
}

/// A run of queries that wasn't begun: all that was handed over for it, as it was.
pub struct UnbegunQueries<D, W> {
    pub pool: Pool,
    pub plans: Vec<(Accepted, W)>,
    pub devices: Vec<D>,
}

/// A run of queries that stopped: the pool, and the works in the order of their plans.
pub struct StalledQueries<W> {
    pub stalled: Stalled,
    pub queries: Vec<Query<W>>,
}

impl<D: Drop, W: Drop> UnrunQueries<D, W> {
    /// Gives the pool up, with the plans, the devices and the works, and answers how many pages were newer than the device's: what was
    /// changed in them is lost.
    pub fn close(self) -> u32
        ensures { result ≡ dirty_left_of_queries self }
    {
        match self {
            UnrunQueries::Unbegun(unbegun) => {
                let UnbegunQueries {
                    pool,
                    plans: _plans,
                    devices: _devices,
                } = unbegun;
                pool.close()
            }
            UnrunQueries::Stalled(stopped) => {
                let StalledQueries {
                    stalled,
                    queries: _queries,
                } = stopped;
                let (_journal, dirty) = stalled.close();
                dirty
            }
        }
    }
}

/// Where the works of a run's plans lie: each in the place of its plan.
#[derive(Drop)]
struct Works<W> {
    places: Vec<Mutex<Query<W>>>,
}

impl<W: Drop> Works<W> {
    /// The works in their order, each with the end of its plan, in this vector, which has room for them.
    fn into_queries(self, queries: Vec<Query<W>>) -> Vec<Query<W>>
        requires empty { queries.items ≡ [] }
        requires room { vec_len self.places ≤ vec_capacity queries }
        ensures { vec_len result ≡ vec_len self.places }
    {
        let Works { places } = self;
        let mut queries = queries;
        for place in places {
            queries.push_reserved(place.into_inner());
        }
        queries
    }
}

/// The work of a worker that has each plan's own work do what is to be done for the plan. It locks that work for each call; since a
/// plan is taken by one worker alone, no other waits for it.
#[derive(Drop)]
struct Taking<'a, W: Drop, R> {
    rt: &'a R,
    works: &'a Works<W>,
    /// Where the work of the plan lies that the worker has.
    now: Option<&'a Mutex<Query<W>>>,
}

impl<'a, W: Work + Drop, R: Wait> Work for Taking<'a, W, R> {
    ghost begins_leaves = { λ work plan after. Unit {0} };

    ghost ended_leaves = { λ work end after. Unit {0} };

    ghost reach_gives = { λ work bytes. Unit {0} };

    ghost page_into_gives = { λ work slot kind region first count page after. Unit {0} };

    ghost wants_rework_gives = { λ wanted. Unit {0} };

    ghost rework_leaves = { λ work off before left after. Unit {0} };

    fn begins(&mut self, plan: u64) {
        self.now = self.works.places.get(plan as usize);
        if let Some(place) = self.now {
            place.lock(self.rt).work.begins(plan);
        }
    }

    fn ended(&mut self, end: End) {
        if let Some(place) = self.now {
            let mut query = place.lock(self.rt);
            query.work.ended(end);
            query.end = Some(end);
        }
        self.now = None;
    }

    fn page(&mut self, region: u8, first: u32, count: u32) -> u32 {
        match self.now {
            Some(place) => place.lock(self.rt).work.page(region, first, count),
            None => first,
        }
    }

    fn page_into(&mut self, slot: u8, kind: Kind, region: u8, first: u32, count: u32) -> u32 {
        match self.now {
            Some(place) => place
                .lock(self.rt)
                .work
                .page_into(slot, kind, region, first, count),
            None => first,
        }
    }

    fn branch(&mut self, count: u16) -> u16 {
        match self.now {
            Some(place) => place.lock(self.rt).work.branch(count),
            None => 0,
        }
    }

    fn reach(&self) -> usize {
        match self.now {
            Some(place) => place.lock(self.rt).work.reach(),
            None => 0,
        }
    }

    fn change(&mut self, page: u32, body: &mut [u8]) {
        if let Some(place) = self.now {
            place.lock(self.rt).work.change(page, body);
        }
    }

    fn see(&mut self, page: u32, mark: u64, image: &[u8]) {
        if let Some(place) = self.now {
            place.lock(self.rt).work.see(page, mark, image);
        }
    }

    fn wants_rework() -> bool {
        W::wants_rework()
    }

    fn rework<L: Loan>(&mut self, off: u8, held: &mut Held<L>) {
        if let Some(place) = self.now {
            place.lock(self.rt).work.rework(off, held);
        }
    }
}

/// The room that a run of queries wants beside that of its life.
#[derive(Drop)]
struct Rooms<W: Drop> {
    accepted: Vec<Accepted>,
    places: Vec<Mutex<Query<W>>>,
    queries: Vec<Query<W>>,
}

impl<W: Drop> Rooms<W> {
    /// Room for so many plans.
    fn new(alloc: Global, plans: usize) -> Result<Rooms<W>, AllocError>
        ensures accepted { IfOk result (λ r. (r.accepted.items ≡ []) × (plans ≤ vec_capacity r.accepted)) }
        ensures places { IfOk result (λ r. (r.places.items ≡ []) × (plans ≤ vec_capacity r.places)) }
        ensures queries { IfOk result (λ r. (r.queries.items ≡ []) × (plans ≤ vec_capacity r.queries)) }
    {
        let accepted = Vec::with_capacity(alloc, plans)?;
        let places = Vec::with_capacity(alloc, plans)?;
        let queries = Vec::with_capacity(alloc, plans)?;
        Ok(Rooms {
            accepted,
            places,
            queries,
        })
    }
}

impl Pool {
    /// As [`Pool::run`], where each plan comes with a work of its own, whichever worker takes it. The works come back in the
    /// order of the plans, each with how its plan ended.
    ///
    /// A worker calls the work of the plan that it has: first [`Work::begins`], last [`Work::ended`]. There are as many devices as the
    /// pool has workers, and one more.
    ///
    /// # Errors
    ///
    /// Those of [`Pool::run`]. Memory that this call wants besides is got once the plans are looked at, and before anything is done.
    /// Where nothing was done, all that was handed over comes back as it was ([`UnrunQueries::Unbegun`]). Behind that the works come
    /// back beside the pool, as they are ([`UnrunQueries::Stalled`]); one whose plan hasn't ended has no end.
    pub fn run_queries<D: Device + Drop + Send, W: Work + Drop + Send, R: Threads + Wait + Sync>(
        self,
        rt: &R,
        alloc: Global,
        plans: Vec<(Accepted, W)>,
        devices: Vec<D>,
    ) -> Result<(RunRecord, Pool, Vec<D>, Vec<Query<W>>), (RunError, UnrunQueries<D, W>)>
        requires ends { vec_len devices ≡ self.settings.workers + 1 }
        ensures journal { IfOk result (λ r. IsRunFrom (opening_of self) (plans_in plans.items) r.0) }
        ensures life { IfOk result (λ r. IsLife (opening_of self)
            (record { plans = plans_in plans.items; journal = r.0.events.items })) }
        ensures over { IfOk result (λ r. IsOver (plans_in plans.items)
            (replay (plans_in plans.items) (opening_of self) r.0.events.items)) }
        ensures pool { IfOk result (λ r. ComesBack self (plans_in plans.items) r.0.events.items r.1) }
        ensures devices { IfOk result (λ r. AllCalled D.calls D.failures self.settings.workers devices.items
            r.0.events.items r.2.items) }
        ensures queries { IfOk result (λ r. vec_len r.3 ≡ vec_len plans) }
        ensures error { IfErr result (λ e. IsRunErrorFrom (opening_of self) (plans_in plans.items) e.0) }
        ensures verdict { IfErr result (λ e.
            IsAnswerFrom D.calls D.failures (opening_of self) (plans_in plans.items) devices.items e.0
            ⊎ IsUnrenewedQueries (opening_of self) (plans_in plans.items) e.0 e.1) }
        ensures left { IfErr result (λ e. IsLeftOfQueries self plans.items devices.items e.0 e.1) }
    {
        let looked = looked_at(alloc, &self, plans.as_slice());
        let (room, rooms) = match looked {
            Ok(looked) => looked,
            Err(error) => return Err((error, unbegun(self, plans, devices))),
        };
        let workers = self.workers();
        let Ok(takers) = Vec::with_capacity(alloc, workers as usize) else {
            return Err((RunError::OutOfMemory, unbegun(self, plans, devices)));
        };
        let readied = ready_with(alloc, self, room);
        let ready = match readied {
            Ok(ready) => ready,
            Err((error, pool)) => return Err((error, unbegun(pool, plans, devices))),
        };
        let Rooms {
            accepted,
            places,
            queries,
        } = rooms;
        let (accepted, works) = parted(plans, accepted, places);
        let takers = takers_of(rt, &works, workers, takers);
        let finished = AtomicU64::new(0);
        let ran = live::<Brand, D, Taking<'_, W, R>, R>(
            rt, alloc, ready, accepted, devices, takers, &finished,
        );
        let queries = works.into_queries(queries);
        match ran {
            Ok((ended, spare)) => {
                ended.stalled.book.known();
                let renewed = ended.renewed(spare);
                match renewed {
                    Ok((record, pool, devices)) => Ok((record, pool, devices, queries)),
                    Err((error, stalled)) => Err((error, stopped(stalled, queries))),
                }
            }
            Err((error, stalled)) => Err((error, stopped(stalled, queries))),
        }
    }
}

/// Looks at the plans, and gets the room that their works want. How many events the journal of a life of these plans has to hold, and
/// that room.
///
/// # Errors
///
/// The refusal of the first plan that isn't taken in, or [`RunError::OutOfMemory`].
fn looked_at<W: Drop>(
    alloc: Global,
    pool: &Pool,
    plans: &[(Accepted, W)],
) -> Result<(usize, Rooms<W>), RunError>
    ensures taken { OnOk result (IsOk (after_submits (opening_of pool.now) (plans_in plans.now))) }
    ensures room { IfOk result (λ r. r.0 ≡ 2 * pool.now.settings.flushes
        + (sum_by cost_of (plans_in plans.now) + length (plans_in plans.now))) }
    ensures accepted { IfOk result (λ r. (r.1.accepted.items ≡ []) × (length plans.now ≤ vec_capacity r.1.accepted)) }
    ensures places { IfOk result (λ r. (r.1.places.items ≡ []) × (length plans.now ≤ vec_capacity r.1.places)) }
    ensures queries { IfOk result (λ r. (r.1.queries.items ≡ []) × (length plans.now ≤ vec_capacity r.1.queries)) }
    ensures error { IfErr result (IsNotBegun (opening_of pool.now) (plans_in plans.now)) }
{
    let flushes = 2 * u64::from(pool.flushes());
    let need = match need_of_queries(&pool.layout, 0, flushes, plans) {
        Ok(need) => need,
        Err(error) => return Err(RunError::Refused(error)),
    };
    let rooms = Rooms::new(alloc, plans.len())?;
    Ok((need as usize + plans.len(), rooms))
}

/// A run that wasn't begun.
fn unbegun<D, W>(pool: Pool, plans: Vec<(Accepted, W)>, devices: Vec<D>) -> UnrunQueries<D, W>
    ensures { result ≡ unrun_queries.Unbegun (record { pool = pool; plans = plans; devices = devices }) }
{
    UnrunQueries::Unbegun(UnbegunQueries {
        pool,
        plans,
        devices,
    })
}

/// A run that stopped.
fn stopped<D, W>(stalled: Stalled, queries: Vec<Query<W>>) -> UnrunQueries<D, W>
    ensures { result ≡ unrun_queries.Stalled (record { stalled = stalled; queries = queries }) }
{
    UnrunQueries::Stalled(StalledQueries { stalled, queries })
}

/// The plans, and their works in their places, in these vectors, which have room for them. No plan has ended.
fn parted<W: Drop>(
    plans: Vec<(Accepted, W)>,
    accepted: Vec<Accepted>,
    places: Vec<Mutex<Query<W>>>,
) -> (Vec<Accepted>, Works<W>)
    requires accepted { (accepted.items ≡ []) × (vec_len plans ≤ vec_capacity accepted) }
    requires places { (places.items ≡ []) × (vec_len plans ≤ vec_capacity places) }
    ensures plans { result.0.items ≡ plans_in plans.items }
    ensures works { vec_len result.1.places ≡ vec_len plans }
{
    let mut accepted = accepted;
    let mut places = places;
    for (plan, work) in plans {
        accepted.push_reserved(plan);
        places.push_reserved(Mutex::new(Query { work, end: None }));
    }
    (accepted, Works { places })
}

/// A work for each worker, that calls the plans' own, in this vector, which has room for them.
fn takers_of<'a, W: Drop, R: Wait>(
    rt: &'a R,
    works: &'a Works<W>,
    workers: u32,
    takers: Vec<Taking<'a, W, R>>,
) -> Vec<Taking<'a, W, R>>
    requires empty { takers.items ≡ [] }
    requires room { workers ≤ vec_capacity takers }
    ensures { vec_len result ≡ workers }
{
    let mut takers = takers;
    for _ in 0..workers {
        takers.push_reserved(Taking {
            rt,
            works,
            now: None,
        });
    }
    takers
}
