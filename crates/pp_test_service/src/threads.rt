//! The threads of a scene.

use crate::board::{Board, rest, same};
use crate::medium::Medium;
use crate::player::Player;
use crate::scene::{Act, Answer, DONE, Deed, PAGE_BYTES, PAGES, Step, Thing, Until};
use crate::watched::Pool;
use pp_buffer_pool::{CheckpointError, Flush, FlusherEnd, OnCopies, Outcome, PreparedPlan};
use pp_settings::Settings;
use pp_test_plain::accepted;
use std::alloc::Global;
use std::process::Abort;
use std::sync::Wait;
use std::sync::atomic::{AtomicBool, Ordering};
use std::thread;
use std::thread::Threads;
use std::time::Clock;

/// A pool with its scene.
#[derive(Drop)]
struct Stage<'a, R: Wait> {
    alloc: Global,
    settings: &'a Settings,
    pool: &'a Pool<R>,
    board: &'a Board,
}

/// Waits until it is over. The test fails where that takes too long.
fn watch<R: Abort + Clock>(rt: &R, name: &str, patience: u32, over: &AtomicBool) {
    for _look in 0..patience {
        if over.load(Ordering::SeqCst) {
            return;
        }
        rest(rt, 10);
    }
    panic!(rt; "{name}: it hangs");
}

/// All threads begin, act and end, as often as the scene says. They are watched.
pub fn act_all<R: Abort + Clock + Threads + Wait + Drop + Send + Sync>(
    rt: &R,
    alloc: Global,
    settings: &Settings,
    pool: &Pool<R>,
    board: &Board,
) {
    let (name, patience) = (board.scene.name, board.patience());
    let over = AtomicBool::new(false);
    thread::join(
        rt,
        || watch(rt, name, patience, &over),
        || {
            act_in_waves(rt, alloc, settings, pool, board);
            over.store(true, Ordering::SeqCst);
        },
    );
}

/// The same, and nobody watches.
fn act_in_waves<R: Abort + Clock + Threads + Wait + Drop + Send + Sync>(
    rt: &R,
    alloc: Global,
    settings: &Settings,
    pool: &Pool<R>,
    board: &Board,
) {
    let scene = board.scene;
    let count = scene.threads.len().saturating_add(scene.copies).min(64);
    for _wave in 0..scene.waves {
        let all = thread::map_indices(
            rt,
            alloc,
            count,
            &|number| act(rt, alloc, settings, pool, board, number),
        );
        if all.is_err() {
            panic!(rt; "{}: no memory", scene.name);
        }
    }
}

/// What the thread with this number does.
fn act<R: Abort + Clock + Wait + Drop>(
    rt: &R,
    alloc: Global,
    settings: &Settings,
    pool: &Pool<R>,
    board: &Board,
    number: usize,
) {
    let threads = board.scene.threads;
    let place = number.min(threads.len().saturating_sub(1));
    let stage = Stage {
        alloc,
        settings,
        pool,
        board,
    };
    if let Some(deeds) = threads.get(place) {
        stage.act_on(rt, number, deeds);
    }
}

/// What is done before the pool is closed once more.
pub fn act_between<R: Abort + Clock + Wait + Drop>(
    rt: &R,
    alloc: Global,
    settings: &Settings,
    pool: &Pool<R>,
    board: &Board,
) {
    let stage = Stage {
        alloc,
        settings,
        pool,
        board,
    };
    stage.act_on(rt, 0, board.scene.between);
}

/// The plan was taken as the one before which so many were.
fn is_number(rt: &impl Abort, name: &str, plan: Option<u64>, number: u64) {
    match plan {
        Some(plan) => same(rt, name, "the number of the plan", plan, number),
        None => panic!(rt; "{name}: no plan was taken"),
    }
}

impl<'a, R: Abort + Clock + Wait + Drop> Stage<'a, R> {
    /// The deeds, one behind the other, by the thread with this number.
    fn act_on(&self, rt: &R, number: usize, deeds: &[Deed]) {
        for deed in deeds {
            self.wait(rt, deed.0);
            self.act(rt, number, deed.1);
        }
    }

    /// Waits until this has come. The test fails where it doesn't.
    fn wait(&self, rt: &R, until: Until) {
        if until.0 != Thing::Waiting {
            self.board.wait(rt, until);
            return;
        }
        for _look in 0..self.board.patience() {
            if u64::from(self.pool.stats(rt).waiting) >= until.1 {
                return;
            }
            rest(rt, 5);
        }
        self.board.fail_in_vain(rt, until);
    }

    /// One deed.
    fn act(&self, rt: &R, number: usize, act: Act) {
        match act {
            Act::Run(plan, steps, answer) => {
                let _plan = self.run(rt, plan, steps, answer);
            }
            Act::RunAs(place, plan, steps) => {
                let plan = self.run(rt, plan, steps, DONE);
                is_number(rt, self.board.scene.name, plan, place);
            }
            Act::Many(times, plan) => self.run_many(rt, number, plan, times),
            Act::RunOnCopies(plan, steps, answer) => self.run_on_copies(rt, plan, steps, answer),
            Act::ManyOnCopies(times, plan) => self.run_many_on_copies(rt, number, plan, times),
            Act::Flush(flush) => self.flush(rt, flush),
            Act::FlushOn => self.flush_on(rt, FlusherEnd::Stopped),
            Act::FlushSpent => self.flush_on(rt, FlusherEnd::Spent),
            Act::FlushBusy => self.flush(rt, Flush::Busy),
            Act::Checkpoint(want) => self.checkpoint(rt, want),
            Act::Checkpoints(times) => self.checkpoint_often(rt, times),
            Act::Dirty(pages) => self.are_dirty(rt, pages),
            Act::Stop => self.pool.stop(rt),
            Act::Sign => self.board.tell(Thing::Sign),
        }
    }

    /// The plan of this text, prepared.
    fn prepared(&self, rt: &R, text: &str) -> PreparedPlan {
        let name = self.board.scene.name;
        let Ok(accepted) = accepted(self.alloc, self.settings, text) else {
            panic!(rt; "{name}: no memory, or not accepted: {text}");
        };
        match self.pool.prepare(rt, accepted) {
            Ok(plan) => plan,
            Err((_accepted, error)) => panic!(rt; "{name}: not prepared: {error}"),
        }
    }

    /// Executes a plan, and counts how that ended.
    fn execute(&self, rt: &R, plan: &PreparedPlan, player: &mut Player<'_, R>) -> Answer {
        player.restart();
        let answer = self.pool.execute(rt, plan, player);
        self.count(player, answer);
        answer
    }

    /// The same on copies.
    fn execute_on_copies(
        &self,
        rt: &R,
        plan: &PreparedPlan,
        work: &mut OnCopies<Player<'_, R>>,
    ) -> Answer {
        work.work.restart();
        let answer = self.pool.execute_on_copies(rt, plan, work);
        self.count(&work.work, answer);
        answer
    }

    /// Counts how a plan ended, as its work was told.
    fn count(&self, player: &Player<'_, R>, answer: Answer) {
        player.ended_as(answer);
        self.board.tell(match answer {
            Ok(Outcome::Done) => Thing::Done,
            Ok(Outcome::Gone { .. }) => Thing::Gone,
            Err(_) => Thing::Refused,
        });
        self.board.tell(Thing::Ended);
    }

    /// A work that sees copies of whole pages.
    fn on_copies<'p>(&self, rt: &R, player: Player<'p, R>) -> OnCopies<Player<'p, R>> {
        match OnCopies::new(self.alloc, player.on_copies(), PAGE_BYTES as u32) {
            Ok(work) => work,
            Err(_) => panic!(rt; "{}: no memory", self.board.scene.name),
        }
    }

    /// Runs the plan on copies, which is answered so.
    fn run_on_copies(&self, rt: &R, text: &str, steps: &'static [Step], want: Answer) {
        let plan = self.prepared(rt, text);
        let mut work = self.on_copies(rt, Player::new(rt, self.board, steps));
        self.answers(rt, text, self.execute_on_copies(rt, &plan, &mut work), want);
    }

    /// Runs the plan so many times on copies, with pages by chance.
    fn run_many_on_copies(&self, rt: &R, number: usize, text: &str, times: u32) {
        let plan = self.prepared(rt, text);
        let mut work = self.on_copies(rt, Player::by_chance(rt, self.board, number));
        for _time in 0..times.saturating_mul(self.board.scale) {
            let answer = self.execute_on_copies(rt, &plan, &mut work);
            if answer.is_err() {
                panic!(rt; "{}: {answer:?}", self.board.scene.name);
            }
        }
    }

    /// The plan of this text was answered so.
    fn answers(&self, rt: &R, text: &str, answer: Answer, want: Answer) {
        if answer != want {
            panic!(rt;
                "{}: {text}: {answer:?}, and not {want:?}",
                self.board.scene.name
            );
        }
    }

    /// Runs the plan, which is answered so, and tells the number that it was taken with.
    fn run(&self, rt: &R, text: &str, steps: &'static [Step], want: Answer) -> Option<u64> {
        let plan = self.prepared(rt, text);
        let mut player = Player::new(rt, self.board, steps);
        self.answers(rt, text, self.execute(rt, &plan, &mut player), want);
        player.plan
    }

    /// Runs the plan so many times, with pages by chance.
    fn run_many(&self, rt: &R, number: usize, text: &str, times: u32) {
        let plan = self.prepared(rt, text);
        let mut player = Player::by_chance(rt, self.board, number);
        for _time in 0..times.saturating_mul(self.board.scale) {
            let answer = self.execute(rt, &plan, &mut player);
            if answer.is_err() {
                panic!(rt; "{}: {answer:?}", self.board.scene.name);
            }
        }
    }

    /// Flushes a page, and is answered so.
    fn flush(&self, rt: &R, want: Flush) {
        let flush = self.pool.flush_once(rt);
        if flush != want {
            panic!(rt;
                "{}: the flush: {flush:?}, and not {want:?}",
                self.board.scene.name
            );
        }
    }

    /// Flushes until that ends so, and goes on where a writing fails.
    fn flush_on(&self, rt: &R, want: FlusherEnd) {
        for _time in 0..u32::MAX {
            let end = self.pool.run_flusher(rt);
            if end == want {
                return;
            }
            if end != FlusherEnd::WriteFault {
                panic!(rt;
                    "{}: the flusher: {end:?}, and not {want:?}",
                    self.board.scene.name
                );
            }
        }
    }

    /// Has all dirty pages on the medium. After `Ok` they are there, as they were before the call or newer.
    fn checkpoint_once(&self, rt: &R) -> Result<(), CheckpointError> {
        let mut dirty = [(0u32, 0u64); PAGES as usize];
        let count = self.pool.dirty_pages(rt, dirty.as_mut_slice());
        let mut medium = Medium::new(self.board);
        let answer = self.pool.checkpoint(rt, self.alloc, &mut medium);
        if answer.is_ok() {
            for (page, mark) in dirty.iter().take(count) {
                if self.board.stable(*page) < *mark {
                    panic!(rt;
                        "{}: page {page} is stable with {}, and not {mark}",
                        self.board.scene.name,
                        self.board.stable(*page)
                    );
                }
            }
        }
        answer
    }

    /// The same, and is answered so.
    fn checkpoint(&self, rt: &R, want: Result<(), CheckpointError>) {
        let answer = self.checkpoint_once(rt);
        if answer != want {
            panic!(rt;
                "{}: the checkpoint: {answer:?}, and not {want:?}",
                self.board.scene.name
            );
        }
    }

    /// The same so many times.
    fn checkpoint_often(&self, rt: &R, times: u32) {
        for _time in 0..times.saturating_mul(self.board.scale) {
            match self.checkpoint_once(rt) {
                Ok(()) => {}
                Err(CheckpointError::Held(_)) | Err(CheckpointError::WriteFault(_)) => {}
                Err(error) => panic!(rt; "{}: the checkpoint: {error}", self.board.scene.name),
            }
        }
    }

    /// These pages are dirty and no others, each with its mark.
    fn are_dirty(&self, rt: &R, pages: &[u32]) {
        let name = self.board.scene.name;
        let mut dirty = [(0u32, 0u64); PAGES as usize];
        let count = self.pool.dirty_pages(rt, dirty.as_mut_slice());
        same(rt, name, "dirty pages", count as u64, pages.len() as u64);
        for (got, want) in dirty.iter().zip(pages) {
            same(rt, name, "a dirty page", u64::from(got.0), u64::from(*want));
            same(rt, name, "its mark", got.1, self.board.changes(*want));
        }
    }
}
