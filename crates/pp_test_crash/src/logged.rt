//! The work of a query that is logged.

ghost use Rattle.std.specs.Prelude.{◌≤◌, ◌+◌};

use crate::image::stamp;
use crate::redo_log::RedoLog;
use pp_btree::Client;
use pp_pool::{End, Held, Loan, Work};
use std::sync::{Mutex, Wait};

/// How many slots the tree's plans have.
const SLOTS: u8 = 8;

/// A query on its way, whose changes are logged.
///
/// The record of a plan has each page that the plan has latched X, also one that it has left as it was: such a page gets
/// another mark, is written back, and may be torn by that.
#[derive(Drop)]
pub struct Logged<'a, R> {
    rt: &'a R,
    log: &'a Mutex<RedoLog>,
    thread: usize,
    client: Client,
    /// Whether the pages that are latched X stand in a record.
    is_logged: bool,
    /// The last record; 0 of none.
    number: u64,
}

impl<'a, R: Wait> Logged<'a, R> {
    /// The query, of this thread.
    pub fn new(rt: &'a R, log: &'a Mutex<RedoLog>, thread: usize, client: Client) -> Logged<'a, R> {
        Logged {
            rt,
            log,
            thread,
            client,
            is_logged: false,
            number: 0,
        }
    }

    /// The query.
    pub fn client(&self) -> &Client {
        &self.client
    }

    /// Its last record.
    pub fn number(&self) -> u64 {
        self.number
    }

    /// Writes a record of all pages that are latched X, and its number into each.
    fn append<L: Loan>(&mut self, held: &mut Held<L>) {
        let mut log = self.log.lock(self.rt);
        self.number = log.next();
        let parts = count_of(held);
        let mut part = 0u32;
        for slot in 0..SLOTS {
            let page = held.page(slot);
            if let (Some(page), Some(body)) = (page, held.body(slot)) {
                stamp(body, self.number);
                log.write_part(part, parts, page, body);
                part = part.saturating_add(1);
            }
        }
        log.end_record(self.thread);
    }
}

/// How many pages are latched X.
fn count_of<L: Loan>(held: &Held<L>) -> u32 {
    let mut count = 0u32;
    for slot in 0..SLOTS {
        if held.page(slot).is_some() {
            count = count.saturating_add(1);
        }
    }
    count
}

impl<'a, R: Wait> Work for Logged<'a, R> {
    ghost begins_leaves = { λ work plan after. Unit {0} };

    ghost ended_leaves = { λ work end after. Unit {0} };

    ghost rework_leaves = { λ work off before left after. Unit {0} };

    ghost wants_rework_gives = { λ wanted. Unit {0} };

    fn begins(&mut self, plan: u64) {
        self.client.begins(plan);
    }

    fn ended(&mut self, end: End) {
        self.client.ended(end);
        self.log.lock(self.rt).end_plan(self.thread);
    }

    fn page(&mut self, region: u8, first: u32, count: u32) -> u32 {
        self.client.page(region, first, count)
    }

    fn branch(&mut self, count: u16) -> u16 {
        self.client.branch(count)
    }

    fn change(&mut self, page: u32, body: &mut [u8]) {
        self.is_logged = false;
        self.client.change(page, body);
    }

    fn see(&mut self, page: u32, mark: u64, image: &[u8]) {
        self.client.see(page, mark, image);
    }

    fn wants_rework() -> bool {
        true
    }

    // All pages that the plan latches X are latched before the first of them is let go.
    fn rework<L: Loan>(&mut self, off: u8, held: &mut Held<L>) {
        self.client.rework(off, held);
        if !self.is_logged {
            self.is_logged = true;
            self.append(held);
        }
    }
}
