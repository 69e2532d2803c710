//! The device of every run: an end of pages that it shares, whose calls are told, and go amiss where the case says so.

use crate::board::Board;
use crate::case::{ANY, Call, Faults, Thing};
use crate::player::is_own;
use pp_device::{Count, Device, Failing, Fault};
use pp_shared::SharedDevice;
use std::marker::Model;
use std::sync::Wait;
use std::time::Clock;

/// The end with this number.
#[derive(Drop)]
pub struct Told<'a, R: Wait> {
    rt: R,
    board: &'a Board,
    pub number: u32,
    device: Failing<SharedDevice<R>>,
    calls: Count,
    failures: Count,
}

impl<'a, R: Wait> Told<'a, R> {
    /// An end that wasn't called yet.
    pub fn new(
        rt: R,
        board: &'a Board,
        number: u32,
        device: Failing<SharedDevice<R>>,
    ) -> Told<'a, R> {
        Told {
            rt,
            board,
            number,
            device,
            calls: Count::new(),
            failures: Count::new(),
        }
    }

    /// The end itself.
    pub fn into_end(self) -> SharedDevice<R>
    where
        R: Drop,
    {
        let Told { device, .. } = self;
        device.into_inner()
    }

    /// Whether the page can't be read.
    fn is_lost(&self, page: u32) -> bool {
        match self.board.case.faults {
            Faults::Page(lost) => lost == page,
            _ => false,
        }
    }

    /// Whether this is the flusher's end.
    fn is_flushers(&self) -> bool {
        self.number == self.board.case.workers
    }

    /// Whether a writing fails.
    fn is_deaf(&self) -> bool {
        match self.board.case.faults {
            Faults::Writings => !self.is_flushers(),
            _ => false,
        }
    }
}

impl<'a, R: Wait + Clock> Device for Told<'a, R> {
    ghost calls = { λ d. d.calls.number };

    ghost failures = { λ d. d.failures.number };

    ghost read_gives = { λ d page old answer new e. Unit {0} };

    ghost write_leaves = { λ d page image answer e. Unit {0} };

    fn read(&mut self, page: u32, image: &mut [u8]) -> Result<(), Fault> {
        self.calls.raise();
        begin_reading(&self.rt, self.board, self.number, page);
        if self.is_lost(page) {
            self.failures.raise();
            return Err(Fault::Read);
        }
        let answer = self.device.read(page, image);
        if answer.is_err() {
            self.failures.raise();
        }
        answer
    }

    fn write(&mut self, page: u32, image: &[u8]) -> Result<(), Fault> {
        self.calls.raise();
        let is_flushers = self.is_flushers();
        begin_writing(&self.rt, self.board, is_flushers, page);
        if self.is_deaf() {
            self.failures.raise();
            return Err(Fault::Write);
        }
        let answer = self.device.write(page, image);
        if answer.is_err() {
            self.failures.raise();
        }
        answer
    }
}

/// A reading begins at the end with this number.
fn begin_reading(rt: &impl Clock, board: &Board, number: u32, page: u32) {
    board.note(is_own(board, number, page));
    if board.case.counted == ANY || board.case.counted == page {
        board.tell(Thing::Read);
    }
    board.meet(rt, Call::Read, page);
}

/// A writing begins.
fn begin_writing(rt: &impl Clock, board: &Board, is_flushers: bool, page: u32) {
    if is_flushers {
        board.tell(Thing::Flushed);
        board.meet(rt, Call::Flush, page);
    } else {
        board.tell(Thing::Written);
        board.meet(rt, Call::WriteBack, page);
    }
}
