//! The work of a query: it goes through one plan after another, until one that is done has answered it.

ghost use Rattle.std.specs.Prelude.{◌≡◌, ◌<◌, ◌≤◌, ◌+◌, length};

use crate::node::Entry;
use crate::path::Path;
use crate::plans::Job;
use crate::query::{Answer, Query};
use crate::regions::{MAP, ROOT};
use crate::splits::Outcome;
use crate::{node, splits};
use pp_device::image::HEAD;
use pp_pool::{End, Held, Loan, Work};

/// A query on its way.
#[derive(Drop)]
pub struct Client {
    query: Query,
    /// What the plan is for.
    job: Job,
    /// What the next plan is for, once this one is done.
    job_then: Job,
    /// What the plan has come to so far. It counts once the plan is done.
    found: Option<Answer>,
    answer: Option<Answer>,
    /// How many plans of it were left.
    left: u32,
    path: Path,
    /// Whether what several pages want together is done in this plan.
    is_reworked: bool,
    /// What a scan has counted by the plans that are done, and with this one.
    counted: Count,
    counting: Count,
}

/// How many keys a scan has counted, their sum, and the first key that it hasn't come to.
#[derive(Clone, Copy)]
struct Count {
    keys: u64,
    sum: u64,
    next: u64,
}

impl Count {
    /// Counts the keys of a leaf that are below this one and weren't counted yet. Tells whether all of the leaf are below.
    fn add(&mut self, body: &[u8], to: u64) -> bool {
        for position in 0..node::count(body) {
            let key = node::entry_at(body, position).key;
            if key >= to {
                return false;
            }
            if key >= self.next {
                self.keys = self.keys.saturating_add(1);
                self.sum = self.sum.wrapping_add(key);
                self.next = key.saturating_add(1);
            }
        }
        true
    }
}

impl Client {
    /// A query that isn't answered yet.
    pub fn new(query: Query) -> Client {
        let nothing = Count {
            keys: 0,
            sum: 0,
            next: query.key(),
        };
        Client {
            query,
            job: query.job(),
            job_then: query.job(),
            found: None,
            answer: None,
            left: 0,
            path: Path::to(query.key()),
            is_reworked: false,
            counted: nothing,
            counting: nothing,
        }
    }

    /// What is asked.
    pub fn query(&self) -> Query {
        self.query
    }

    /// What its next plan is for.
    pub fn job(&self) -> Job {
        self.job
    }

    /// What it came to, once it is answered.
    pub fn answer(&self) -> Option<Answer> {
        self.answer
    }

    /// How many plans of it were left.
    pub fn left(&self) -> u32 {
        self.left
    }

    /// Comes to the leaf of the key, to see it.
    fn see_leaf(&mut self, body: &[u8]) {
        match self.query {
            Query::Scan { from: _, to } => self.scan_leaf(body, to),
            query => {
                self.found = Some(match node::find(body, query.key()) {
                    Some(value) => Answer::Found { value },
                    None => Answer::Missing,
                });
            }
        }
    }

    /// Counts the keys of a leaf, and goes on to the next one where there may be more of them. At the last it is answered.
    ///
    /// The next plan descends to the first key that wasn't come to. So where a plan's leaves have no such key, all further
    /// ones see the same leaves: a tree from which whole ranges are taken out wants leaves to be merged, and this one
    /// doesn't.
    fn scan_leaf(&mut self, body: &[u8], to: u64) {
        self.path.see_leaf(body);
        if !self.counting.add(body, to) {
            self.path.end();
        }
        if self.path.is_at_end() {
            self.found = Some(Answer::Counted {
                keys: self.counting.keys,
                sum: self.counting.sum,
            });
        }
    }

    /// Changes the leaf of the key. One that is full wants a split, and stays as it is.
    fn write_leaf(&mut self, body: &mut [u8]) {
        let is_there = match self.query {
            Query::Insert { key, value } => node::insert(body, Entry { key, value }),
            Query::Update { key, value } => node::set(body, Entry { key, value }),
            Query::Delete { key } => node::remove(body, key),
            _ => false,
        };
        match self.query {
            Query::Insert { key: _, value: _ } if !is_there => self.job_then = Job::Split,
            _ if is_there => self.found = Some(Answer::Changed),
            _ => self.found = Some(Answer::Missing),
        }
    }

    /// Whether the worker holds all that the plan changes together: the page that it fixes last is there.
    fn holds_all<L: Loan>(&self, held: &Held<L>) -> bool {
        match self.path.last_slot(self.job) {
            Some(slot) => held.page(slot).is_some(),
            None => false,
        }
    }

    /// Takes down what the pages together came to.
    fn take(&mut self, outcome: Outcome) {
        match outcome {
            Outcome::Added => self.found = Some(Answer::Changed),
            Outcome::RootIsFull => self.job_then = Job::Grow,
            Outcome::Grown => self.job_then = Job::Split,
            Outcome::NoSpace => self.found = Some(Answer::NoSpace),
        }
    }
}

impl Work for Client {
    ghost begins_leaves = { λ work plan after. Unit {0} };

    ghost ended_leaves = { λ work end after. Unit {0} };

    ghost rework_leaves = { λ work off before left after. Unit {0} };

    ghost wants_rework_gives = { λ wanted. Unit {0} };

    fn begins(&mut self, _plan: u64) {
        self.found = None;
        self.job_then = self.job;
        self.is_reworked = false;
        self.counting = self.counted;
        self.path = Path::to(self.counted.next);
    }

    // What a plan that was left has found is forgotten: it has changed nothing, and is asked again.
    fn ended(&mut self, end: End) {
        match end {
            End::Done => {
                self.answer = self.found;
                self.job = self.job_then;
                self.counted = self.counting;
            }
            End::Gone { page: _, why: _ } => self.left = self.left.saturating_add(1),
        }
    }

    fn page(&mut self, region: u8, first: u32, count: u32) -> u32 {
        self.path.page(region, first, count)
    }

    fn branch(&mut self, count: u16) -> u16 {
        self.path.branch(count)
    }

    fn change(&mut self, page: u32, body: &mut [u8]) {
        if page == MAP {
            return self.path.see_map(body);
        }
        if !self.path.is_next(page) {
            return;
        }
        match self.job {
            _ if page == ROOT => self.path.see_root(body),
            Job::Split => self.path.pass(page, body),
            Job::Write => self.write_leaf(body),
            _ => {}
        }
    }

    fn see(&mut self, page: u32, _mark: u64, image: &[u8]) {
        let body = &image[HEAD..];
        if !self.path.is_next(page) {
            return;
        }
        if page == ROOT {
            self.path.see_root(body);
        } else if node::height(body) > 0 {
            self.path.see_inner(body);
        } else {
            self.see_leaf(body);
        }
    }

    fn wants_rework() -> bool {
        true
    }

    fn rework<L: Loan>(&mut self, _off: u8, held: &mut Held<L>) {
        if self.is_reworked || !self.holds_all(held) {
            return;
        }
        self.is_reworked = true;
        match (self.job, self.query) {
            (Job::Split, Query::Insert { key, value }) => {
                let outcome = splits::add(&self.path, held, Entry { key, value });
                self.take(outcome);
            }
            (Job::Grow, _) => {
                let outcome = splits::grow(&self.path, held);
                self.take(outcome);
            }
            _ => {}
        }
    }
}
