//! Threads that ask queries, until all are answered or a device fails.

ghost use Rattle.std.specs.Prelude.{◌≡◌, ◌≤◌};

use crate::logged::Logged;
use crate::queries::Clerk;
use crate::redo_log::RedoLog;
use pp_btree::{Client, Plans};
use pp_buffer_pool::{BufferPool, CheckpointError, Outcome};
use pp_device::Device;
use pp_durable::Durable;
use std::alloc::{AllocError, Global};
use std::sync::{Mutex, Wait};
use std::thread;
use std::thread::Threads;

/// How many plans a query is given at most.
const TRIES: u32 = 8;

/// Behind so many queries the log is forced, and they are answered.
const GROUP: u32 = 3;

/// Behind so many queries a checkpoint is made.
const BETWEEN: u32 = 5;

/// How far a thread came.
#[derive(Clone, Copy)]
pub struct Reached {
    /// How many of its queries were answered, and how many were asked.
    pub answered: u32,
    pub asked: u32,
    /// Whether no device failed.
    pub is_whole: bool,
}

impl Reached {
    /// No query was asked.
    pub const NOTHING: Reached = Reached {
        answered: 0,
        asked: 0,
        is_whole: false,
    };
}

/// What a thread works with.
#[derive(Drop)]
struct Desk<'a, D: Drop, E: Drop> {
    alloc: Global,
    pool: &'a BufferPool<D>,
    plans: &'a Plans,
    log: &'a Mutex<RedoLog>,
    end: &'a Mutex<E>,
}

impl<'a, D: Device + Drop, E: Durable + Drop> Desk<'a, D, E> {
    /// Runs the query's plans until it is answered. Tells whether it is.
    fn ask<R: Wait>(&self, rt: &R, work: &mut Logged<'_, R>) -> bool {
        for _ in 0..TRIES {
            let plan = self.plans.of(work.client().job());
            match self.pool.execute(rt, plan, work) {
                Ok(Outcome::Done) => {}
                _ => return false,
            }
            if work.client().answer().is_some() {
                return true;
            }
        }
        false
    }

    /// Makes a checkpoint, if no page is held. Tells whether no device failed.
    fn checkpoint<R: Wait>(&self, rt: &R) -> bool {
        let mut end = self.end.lock(rt);
        let from = self.log.lock(rt).oldest();
        match self.pool.checkpoint(rt, self.alloc, &mut *end) {
            Ok(()) => self.log.lock(rt).note_checkpoint(from).is_ok(),
            Err(CheckpointError::Held(_)) => true,
            Err(_) => false,
        }
    }

    /// Asks the queries of a thread, one after another.
    fn serve<R: Wait>(&self, rt: &R, clerk: Clerk) -> Reached {
        let mut reached = Reached::NOTHING;
        for number in 0..clerk.queries() {
            let client = Client::new(clerk.query(number));
            let mut work = Logged::new(rt, self.log, clerk.thread, client);
            reached.asked = number.saturating_add(1);
            if !self.ask(rt, &mut work) {
                return reached;
            }
            if number % GROUP == GROUP - 1 || reached.asked == clerk.queries() {
                if self.log.lock(rt).force(work.number()).is_err() {
                    return reached;
                }
                reached.answered = reached.asked;
            }
            if number % BETWEEN == BETWEEN - 1 && !self.checkpoint(rt) {
                return reached;
            }
        }
        reached.is_whole = true;
        reached
    }
}

/// Has so many threads ask their queries. Tells of each how far it came.
pub fn serve_all<D: Device + Drop + Send, E: Durable + Drop + Send, R: Threads + Wait + Sync>(
    rt: &R,
    alloc: Global,
    pool: &BufferPool<D>,
    plans: &Plans,
    log: &Mutex<RedoLog>,
    end: &Mutex<E>,
    threads: usize,
) -> Result<Vec<Reached>, AllocError> {
    thread::map_indices(
        rt,
        alloc,
        threads,
        &|thread| {
            let desk = Desk {
                alloc,
                pool,
                plans,
                log,
                end,
            };
            desk.serve(rt, Clerk { threads, thread })
        },
    )
}
