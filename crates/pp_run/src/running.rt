//! All plans at once, on threads.

ghost use Rattle.std.specs.Prelude.{◌≡◌, ◌⊎◌, ◌+◌, Ok, IfOk, IfErr, length, vec_len};
ghost use Rattle.pp_settings.specs.declared.span.Span.TheVariants.{Bounded};
ghost use Rattle.pp_core.specs.Opening.{kept_of};
ghost use Rattle.pp_model.specs.Journals.{replay};
ghost use Rattle.pp_model.specs.Lives.{IsLife};
ghost use Rattle.pp_report.specs.Auditing.{auditing};
ghost use Rattle.pp_report.specs.Audits.{IsOver};
ghost use Rattle.pp_report.specs.Lines.{journal_words};
ghost use Rattle.pp_run.specs.Joins.{IsAnswer, IsAnswerFrom};
ghost use Rattle.pp_run.specs.Rested.{opening_of, ComesBack};
ghost use Rattle.pp_run.specs.Runs.{AllCalled, IsRun, IsRunFrom, IsRunError, IsRunErrorFrom};
ghost use Rattle.pp_run.specs.Unrun.{IsLeftOf, IsUnrenewedIn};

use crate::error::RunError;
use crate::life::{live, made_ready};
use crate::pool::Pool;
use crate::unrun::{Unbegun, Unrun};
use pp_cert::Accepted;
use pp_device::Device;
use pp_pool::Work;
use pp_report::RunRecord;
use pp_report::laws::whole_journals_are_audited;
use pp_settings::Settings;
use std::alloc::Global;
use std::marker::Brand;
use std::sync::Wait;
use std::sync::atomic::AtomicU64;
use std::thread::Threads;

impl Pool {
    /// Runs the plans on threads: one for each worker of the pool, and one for the flusher. Answers what was done, the pool, and
    /// the devices in their order. The pool is renewed, with all that it has cached, so a page that one run read is a hit in the
    /// next.
    ///
    /// The devices are ends of one device, one for each worker in order, and the last for the flusher; they are over what the run
    /// before left. `works` has one [`Work`] for each worker. The plans are taken in their order, each by a worker that is idle.
    /// The flusher writes back meanwhile, and goes on when all are done while a page is newer than the device's and a flush is left.
    ///
    /// As each plan ends, 1 is added to `finished`, for a watcher in another thread; a counter that nobody reads will do. Counting
    /// takes no lock and no memory. Where all plans end, as many were added as were given.
    ///
    /// The record's events are the whole life's, true from the state in which the pool was handed over. What the runs over one pool
    /// leave is accepted: the journals of all of them are audited together by [`audit_lives`](pp_report::audit_lives).
    /// [`lives_are_audited`](crate::laws::lives_are_audited) tells so from the clauses `life`, `over` and `pool` of each run.
    ///
    /// # Errors
    ///
    /// With each comes what is left: a pool's dirty pages are nowhere else.
    ///
    /// Before anything is done: [`RunError::Refused`] with the refusal of the first plan that isn't taken in;
    /// [`RunError::OutOfMemory`] where there is none for the journals or the threads' handles; and [`RunError::Broken`] with the
    /// flusher's number where a mark has come to 2^63. Then all that was handed over comes back as it was ([`Unrun::Unbegun`]).
    ///
    /// Behind that the run was begun, and is left as it stopped ([`Unrun::Stalled`]): its plans are submitted, and what is left of
    /// it can be done by one thread. After the threads are joined, in this order, the least worker first: [`RunError::NoThread`],
    /// [`RunError::OutOfMemory`] where every worker stopped for it and something is left, [`RunError::Broken`],
    /// [`RunError::Mismatch`]. The flusher's number is that of the workers. Memory may run out for what the threads give back, too.
    /// Where a run came to its end, [`RunError::Broken`] with the flusher's number where a mark has come to 2^63 or a token isn't
    /// back in its place, so that the pool isn't renewed.
    pub fn run<D: Device + Drop + Send, W: Work + Drop + Send, R: Threads + Wait + Sync>(
        self,
        rt: &R,
        alloc: Global,
        plans: Vec<Accepted>,
        devices: Vec<D>,
        works: Vec<W>,
        finished: &AtomicU64,
    ) -> Result<(RunRecord, Pool, Vec<D>), (RunError, Unrun<D, W>)>
        requires ends { vec_len devices ≡ self.settings.workers + 1 }
        requires works { vec_len works ≡ self.settings.workers }
        ensures journal { IfOk result (λ r. IsRunFrom (opening_of self) plans.items r.0) }
        ensures life { IfOk result (λ r. IsLife (opening_of self)
            (record { plans = plans.items; journal = r.0.events.items })) }
        ensures over { IfOk result (λ r. IsOver plans.items (replay plans.items (opening_of self) r.0.events.items)) }
        ensures pool { IfOk result (λ r. ComesBack self plans.items r.0.events.items r.1) }
        ensures devices { IfOk result (λ r. AllCalled D.calls D.failures self.settings.workers devices.items
            r.0.events.items r.2.items) }
        ensures error { IfErr result (λ e. IsRunErrorFrom (opening_of self) plans.items e.0) }
        ensures verdict { IfErr result (λ e.
            IsAnswerFrom D.calls D.failures (opening_of self) plans.items devices.items e.0
            ⊎ IsUnrenewedIn (opening_of self) plans.items e.0 e.1) }
        ensures left { IfErr result (λ e. IsLeftOf self plans.items devices.items works.items e.0 e.1) }
    {
        let looked = made_ready(alloc, self, plans.as_slice());
        let ready = match looked {
            Ok(ready) => ready,
            Err((error, pool)) => {
                let unbegun = Unbegun {
                    pool,
                    plans,
                    devices,
                    works,
                };
                return Err((error, Unrun::Unbegun(unbegun)));
            }
        };
        let ran = live::<Brand, D, W, R>(rt, alloc, ready, plans, devices, works, finished);
        match ran {
            Ok((ended, spare)) => {
                ended.stalled.book.known();
                let renewed = ended.renewed(spare);
                match renewed {
                    Ok(kept) => Ok(kept),
                    Err((error, stalled)) => Err((error, Unrun::Stalled(stalled))),
                }
            }
            Err((error, stalled)) => Err((error, Unrun::Stalled(stalled))),
        }
    }
}

/// Runs the plans as [`Pool::run`] does, over a pool with these settings that is made for them and given up at their end. Answers
/// what was done, and the devices in their order.
///
/// What a run leaves is accepted: the verdict of [`audit`](pp_report::audit) on the text of the events, as
/// [`packed_journal_text`](pp_report::packed_journal_text) writes it, is their number.
///
/// # Errors
///
/// Those of [`Pool::run`], in its order; and [`RunError::OutOfMemory`] where there is none for the pool. The devices, the works
/// and the plans are let go then.
pub fn run_once<D: Device + Drop + Send, W: Work + Drop + Send, R: Threads + Wait + Sync>(
    rt: &R,
    alloc: Global,
    settings: &Settings,
    plans: Vec<Accepted>,
    devices: Vec<D>,
    works: Vec<W>,
    finished: &AtomicU64,
) -> Result<(RunRecord, Vec<D>), RunError>
    requires bounded { settings.now.span ≡ Bounded }
    requires ends { vec_len devices ≡ settings.now.workers + 1 }
    requires works { vec_len works ≡ settings.now.workers }
    ensures journal { IfOk result (λ r. IsRun (kept_of settings.now) plans.items r.0) }
    ensures devices { IfOk result (λ r. AllCalled D.calls D.failures settings.now.workers devices.items
        r.0.events.items r.1.items) }
    ensures audited { IfOk result (λ r. auditing settings.now plans.items (journal_words r.0.events.items)
        ≡ Ok (length r.0.events.items)) }
    ensures error { IfErr result (IsRunError (kept_of settings.now) plans.items) }
    ensures verdict { IfErr result (IsAnswer D.calls D.failures (kept_of settings.now) plans.items devices.items) }
{
    let pool = Pool::open(alloc, settings)?;
    let looked = made_ready(alloc, pool, plans.as_slice());
    let ready = match looked {
        Ok(ready) => ready,
        Err((error, pool)) => {
            pool.close();
            return Err(error);
        }
    };
    let ran = live::<Brand, D, W, R>(rt, alloc, ready, plans, devices, works, finished);
    match ran {
        Ok((ended, _spare)) => {
            ended.stalled.book.known();
            let (record, devices) = ended.closed();
            whole_journals_are_audited(&record.events);
            Ok((record, devices))
        }
        Err((error, stalled)) => {
            stalled.close();
            Err(error)
        }
    }
}
