//! One plan, run by the thread that calls.

ghost use Rattle.std.specs.Prelude.{◌≡◌, ◌≢◌, true, false, None, Some, [], IfOk, IfErr};
ghost use Rattle.pp_buffer_pool.specs.declared.error.ExecuteError.TheVariants.{Broken};
ghost use Rattle.pp_buffer_pool.specs.Copies.{late_calls};
ghost use Rattle.pp_buffer_pool.specs.Executing.{Executes, RunsOnSome};

use crate::copies::OnCopies;
use crate::error::ExecuteError;
use crate::outcome::{Outcome, as_outcome};
use crate::plan::PreparedPlan;
use crate::pool::BufferPool;
use crate::site::{ExecuteSite, Shows};
use crate::turning::{Stop, run};
use pp_admission::Ticket;
use pp_device::Device;
use pp_hall::{Hall, Post, Started, Told};
use pp_pool::{End, Work};
use std::sync::{MutexGuard, Wait};

/// A chair that was taken, with the lock still held, and whom the hall has told by then.
struct Admitted<'p, D> {
    post: Post<D>,
    hall: MutexGuard<'p, Hall<D>>,
    told: Told,
}

impl<D: Device + Drop> BufferPool<D> {
    /// Runs a prepared plan on the calling thread, and answers how it ended. The work is what it is run for: it names
    /// the pages, sees them and changes them ([`Work`]), with no lock of the pool held. Any number of threads may call
    /// it, also with one plan.
    ///
    /// The plan waits for its turn: until it is the first of those that fit into the frames that nobody's plan may need
    /// (or is let past the others, [`Policy::bypass`](crate::Policy)), and a chair is free. Then its thread has the
    /// chair and that chair's end of the device until the plan has ended. It waits again where another holds the page
    /// in a latch that excludes its own, loads the page, or where a flush holds the frame that it needs. Who waits
    /// sleeps on its ticket's bell or its chair's, and is woken when it can go on.
    ///
    /// It takes the lock once to enter, start and take the plan, and twice for each page that it gives back before it
    /// fixes the next one: to fix and latch it, and to unlatch and unfix it. For n pages that are cached that makes
    /// 2 n + 1 times, where nobody has to wait. A page that is kept beside the next one takes it once. Each choice,
    /// each call of the device and each wait takes it once more. The plan's end and the chair's way home are in the
    /// last hold. [`Work::ended`] comes after it, when others may run.
    ///
    /// What the clause `ok` says: the plan was submitted and taken in one step, by this call's chair, and that is the
    /// first event of this call's log; the last is the plan's end, as the outcome tells it. Between them lie turns that
    /// were all done, each with what the work answered and was shown in it, and what the device was called for. That
    /// they are those that the plan asks, and in which pool, no clause says: what lies under a lock is in no contract.
    ///
    /// # Errors
    ///
    /// In this order [`ExecuteError::Stopped`], [`ExecuteError::TooLarge`] and [`ExecuteError::QueueFull`] at the door,
    /// again `Stopped` where the pool is stopped before the plan has started, and [`ExecuteError::NoMemory`]. Then
    /// nothing was done to a page, the work wasn't called, the plan doesn't wait any more, and the chair, if there was
    /// one, is home. [`ExecuteError::Broken`] is a slip, which no test has met.
    #[tactic(auto, using(crate::proofs::Execution::executes))]
    pub fn execute<'p, W: Work, R: Wait>(
        &'p self,
        rt: &'p R,
        plan: &PreparedPlan,
        work: &mut W,
    ) -> Result<Outcome, ExecuteError>
        ensures ok { IfOk result (λ out. Executes D.Device W.Work plan.now.prepared work.old out work.new) }
        ensures untouched { IfErr result (λ error. error ≢ Broken → work.new ≡ work.old) }
    {
        let end = self.run_plan(rt, plan, work, Shows::Pages)?;
        work.ended(end);
        Ok(as_outcome(end))
    }

    /// Runs a prepared plan as [`BufferPool::execute`] does, but for when the work sees its pages: each is copied for it
    /// while it is latched S, and the work sees the copy later ([`OnCopies`]).
    ///
    /// So a page that is cached is fixed, latched, copied, unlatched and unfixed under one hold of the lock. For n such
    /// pages, each given back before the next one is fixed, it takes the lock n + 1 times, where nobody has to wait; and
    /// none of them is latched any more while the work looks at it. Where two pages are latched S and shown one after
    /// the other, and the work isn't asked for a page between, the second takes a hold of its own.
    ///
    /// The same clauses hold, of the work with its copy. The caller's own work does what its calls say, and has seen
    /// each page that was shown before it names the next one, chooses, changes a page or is told of its end. In the end
    /// it has nothing still to see (`late`).
    ///
    /// # Errors
    ///
    /// As [`BufferPool::execute`]'s.
    pub fn execute_on_copies<'p, W: Work, R: Wait>(
        &'p self,
        rt: &'p R,
        plan: &PreparedPlan,
        work: &mut OnCopies<W>,
    ) -> Result<Outcome, ExecuteError>
        ensures ok { IfOk result
            (λ out. Executes D.Device (late_calls W.Work) plan.now.prepared work.old out work.new) }
        ensures late { IfOk result (λ _. work.new.late ≡ None) }
        ensures untouched { IfErr result (λ error. error ≢ Broken → work.new ≡ work.old) }
    {
        match self.run_plan(rt, plan, work, Shows::Copies) {
            Ok(end) => {
                work.tell_end(end);
                Ok(as_outcome(end))
            }
            Err(ExecuteError::Broken) => {
                work.catch_up();
                Err(ExecuteError::Broken)
            }
            Err(error) => Err(error),
        }
    }

    /// Runs a prepared plan, and answers how it ended. The work isn't told that.
    fn run_plan<'p, W: Work, R: Wait>(
        &'p self,
        rt: &'p R,
        plan: &PreparedPlan,
        work: &mut W,
        shows: Shows,
    ) -> Result<End, ExecuteError>
        ensures ok { IfOk result (λ how. RunsOnSome D.Device W.Work plan.now.prepared work.old how work.new) }
        ensures untouched { IfErr result (λ error. error ≢ Broken → work.new ≡ work.old) }
    {
        let admitted = self.admit(rt, plan.peak)?;
        let Admitted { post, hall, told } = admitted;
        let site = ExecuteSite::over(rt, self, *plan, shows, hall, told);
        let (_, worker) = post.over_site(site);
        let (worker, stop, end) = run(rt, worker, work);
        let (site, post) = worker.over_site(());
        site.end(post);
        match (stop, end) {
            (Stop::Ended, Some(end)) => Ok(end),
            (Stop::NoMemory, None) => Err(ExecuteError::NoMemory),
            _ => Err(ExecuteError::Broken),
        }
    }

    /// Waits until a plan of this peak may start, and takes a chair for it.
    fn admit<'p, R: Wait>(&'p self, rt: &R, peak: u64) -> Result<Admitted<'p, D>, ExecuteError>
        ensures error { IfErr result (λ error. error ≢ Broken) }
    {
        let mut hall = self.hold(rt);
        let ticket = hall.enter(peak)?;
        self.wait_for_turn(rt, hall, ticket)
    }

    /// Waits until the plan of this ticket may start, and takes a chair for it. The lock stays held.
    fn wait_for_turn<'p, R: Wait>(
        &'p self,
        rt: &R,
        hall: MutexGuard<'p, Hall<D>>,
        ticket: Ticket,
    ) -> Result<Admitted<'p, D>, ExecuteError>
        ensures error { IfErr result (λ error. error ≢ Broken) }
    {
        let mut hall = hall;
        for _ in rt.forever() {
            match hall.start(ticket) {
                Started::Takes(post, told) => return Ok(Admitted { post, hall, told }),
                Started::Waits(told) => {
                    self.bells.ring(told);
                    hall = self.bells.sleep_in_queue(rt, hall, ticket);
                }
                Started::Stopped(told) => {
                    self.give_back(hall, told);
                    return Err(ExecuteError::Stopped);
                }
            }
        }
        unreachable!()
    }
}
