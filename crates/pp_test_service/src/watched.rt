//! The device of every scene: an end of pages that it shares, whose calls are told, and go amiss where the scene says
//! so.

use crate::board::Board;
use crate::scene::{Call, Faults, Thing};
use pp_buffer_pool::BufferPool;
use pp_device::{Count, Device, Failing, Fault, image};
use pp_shared::SharedDevice;
use std::marker::Model;
use std::process::Abort;
use std::sync::{Arc, Wait};
use std::time::Clock;

/// The end with this number.
#[derive(Drop)]
pub struct Watched<R: Wait> {
    rt: R,
    board: Arc<Board>,
    number: u32,
    device: Failing<SharedDevice<R>>,
    calls: Count,
    failures: Count,
}

/// The pool of a scene.
pub type Pool<R> = BufferPool<Watched<R>>;

impl<R: Wait> Watched<R> {
    /// An end that wasn't called yet.
    pub fn new(
        rt: R,
        board: Arc<Board>,
        number: u32,
        device: Failing<SharedDevice<R>>,
    ) -> Watched<R> {
        Watched {
            rt,
            board,
            number,
            device,
            calls: Count::new(),
            failures: Count::new(),
        }
    }

    /// Its number, and the end itself.
    pub fn into_end(self) -> (u32, SharedDevice<R>)
    where
        R: Drop,
    {
        let Watched { device, number, .. } = self;
        (number, device.into_inner())
    }

    /// Whether this is the flusher's end.
    fn is_flushers(&self) -> bool {
        self.number == self.board.scene.workers
    }

    /// Whether the page can't be read.
    fn is_lost(&self, page: u32) -> bool {
        match self.board.scene.faults {
            Faults::Page(lost) => lost == page,
            _ => false,
        }
    }

    /// Whether no page can be written.
    fn is_deaf(&self) -> bool {
        match self.board.scene.faults {
            Faults::Writings => !self.is_flushers(),
            _ => false,
        }
    }
}

impl<R: Abort + Wait + Clock> Device for Watched<R> {
    ghost calls = { λ d. d.calls.number };

    ghost failures = { λ d. d.failures.number };

    ghost read_gives = { λ d page old answer new e. Unit {0} };

    ghost write_leaves = { λ d page image answer e. Unit {0} };

    fn read(&mut self, page: u32, image: &mut [u8]) -> Result<(), Fault> {
        self.calls.raise();
        // The flusher's end reads only where the pool is opened, which is before the scene.
        if !self.is_flushers() {
            self.board.tell(Thing::Read);
            self.board.meet(&self.rt, Call::Read, page);
        }
        if self.is_lost(page) {
            self.failures.raise();
            return Err(Fault::Read);
        }
        let answer = self.device.read(page, image);
        if answer.is_err() {
            self.failures.raise();
        }
        answer
    }

    fn write(&mut self, page: u32, image: &[u8]) -> Result<(), Fault> {
        self.calls.raise();
        let is_flushers = self.is_flushers();
        begin_writing(&self.rt, &self.board, is_flushers, page);
        if self.is_deaf() {
            self.failures.raise();
            return Err(Fault::Write);
        }
        let answer = self.device.write(page, image);
        match answer {
            Ok(()) => self.board.tell_written(page, image::head(image).1),
            Err(_) => self.failures.raise(),
        }
        answer
    }
}

/// A writing begins.
fn begin_writing<R: Abort + Clock>(rt: &R, board: &Board, is_flushers: bool, page: u32) {
    if is_flushers {
        board.tell(Thing::Flushed);
        board.meet(rt, Call::Flush, page);
    } else {
        board.tell(Thing::Written);
        board.meet(rt, Call::Write, page);
    }
}
