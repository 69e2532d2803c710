//! A hash join: the work of one plan.
//!
//! The smaller table lies in buckets: a page has the rows whose keys leave its number as the remainder. Its pages are gathered, so that
//! none of them leaves the pool before the join is done. The pages of the larger table pass by, one at a time. The rows of each are
//! kept in the work, and then all buckets are seen.

ghost use Rattle.std.specs.Prelude.{◌≡◌, ◌<◌, ◌≤◌, ◌+◌, length};

use pp_btree::node;
use pp_btree::node::Entry;
use pp_device::image::HEAD;
use pp_pool::{End, Kind, Work};
use std::alloc::{AllocError, Global};

/// How many pages the smaller table has.
pub const BUCKETS: u32 = 6;

/// How many pages the larger table has.
pub const LINES: u32 = 20;

/// The settings: a frame for each bucket, one for the page that passes by, and one that is free for its turn.
pub const SETTINGS: &str = "frames = 8
page_bytes = 4096
workers = 2
flushes = 0
[[region]]
name = \"orders\"
first = 0
count = 6
class = 1
[[region]]
name = \"lines\"
first = 6
count = 20
class = 2
";

/// The plan: the buckets are gathered; then for each page of the larger table that page is seen, and all buckets. The slots are the bundle,
/// a line's page and a bucket, by their letters.
pub const PLAN: &str = "{\"body\":[\
{\"body\":[{\"gather\":\"a\",\"region\":\"orders\"}],\"loop\":6},\
{\"body\":[{\"fix\":\"b\",\"region\":\"lines\"},{\"latch\":\"b\",\"mode\":\"S\"},{\"unlatch\":\"b\"},{\"unfix\":\"b\"},\
{\"body\":[{\"fix\":\"c\",\"region\":\"orders\"},{\"latch\":\"c\",\"mode\":\"S\"},{\"unlatch\":\"c\"},{\"unfix\":\"c\"}],\"loop\":6}\
],\"loop\":20},\
{\"scatter\":\"a\"}],\"version\":2}";

/// What a join comes to.
#[derive(Clone, Copy, Debug, PartialEq, Eq)]
pub struct Pairs {
    /// How many pairs of rows with the same key there are.
    pub count: u64,
    /// The sum of the products of their values, which wraps.
    pub sum: u64,
}

impl Pairs {
    /// No pair.
    pub const NONE: Pairs = Pairs { count: 0, sum: 0 };

    /// Adds a pair with these values.
    pub fn add(&mut self, value: u64, other: u64) {
        self.count = self.count.saturating_add(1);
        self.sum = self.sum.wrapping_add(value.wrapping_mul(other));
    }
}

/// A join on its way.
#[derive(Drop)]
pub struct HashJoin {
    /// How many buckets were gathered.
    gathered: u32,
    /// How many pages of the larger table have passed by.
    passed: u32,
    /// The bucket that is seen next.
    bucket: u32,
    /// The rows of the page that has passed by.
    rows: Vec<Entry>,
    pairs: Pairs,
    /// What it has come to, once its plan is done.
    joined: Option<Pairs>,
}

impl HashJoin {
    /// A join that hasn't begun, with room for the rows of a page.
    pub fn new(alloc: Global) -> Result<HashJoin, AllocError> {
        Ok(HashJoin {
            gathered: 0,
            passed: 0,
            bucket: 0,
            rows: Vec::with_capacity(alloc, node::LEAF_MOST)?,
            pairs: Pairs::NONE,
            joined: None,
        })
    }

    /// What it has come to, once its plan is done.
    pub fn joined(&self) -> Option<Pairs> {
        self.joined
    }

    /// Keeps the rows of a page of the larger table.
    fn keep(&mut self, body: &[u8]) {
        self.rows.clear();
        for position in 0..node::count(body) {
            if self.rows.push(node::entry_at(body, position)).is_err() {
                return;
            }
        }
        self.bucket = 0;
        self.passed = self.passed.saturating_add(1);
    }

    /// Joins the rows that are kept with those of the next bucket.
    fn probe(&mut self, body: &[u8]) {
        self.pairs = self.probed(body);
        self.bucket = self.bucket.saturating_add(1);
    }

    /// The pairs so far, and those of the rows that are kept with a bucket's.
    fn probed(&self, body: &[u8]) -> Pairs {
        let mut pairs = self.pairs;
        for row in self.rows.iter() {
            if row.key % u64::from(BUCKETS) == u64::from(self.bucket) {
                if let Some(value) = node::find(body, row.key) {
                    pairs.add(value, row.value);
                }
            }
        }
        pairs
    }
}

impl Work for HashJoin {
    ghost begins_leaves = { λ work plan after. Unit {0} };

    ghost ended_leaves = { λ work end after. Unit {0} };

    ghost page_into_gives = { λ work slot kind region first count page after. Unit {0} };

    fn begins(&mut self, _plan: u64) {
        self.gathered = 0;
        self.passed = 0;
        self.bucket = 0;
        self.pairs = Pairs::NONE;
    }

    fn ended(&mut self, end: End) {
        if end == End::Done {
            self.joined = Some(self.pairs);
        }
    }

    // All pages are told by their slots.
    fn page(&mut self, _region: u8, first: u32, _count: u32) -> u32 {
        first
    }

    fn page_into(&mut self, slot: u8, kind: Kind, _region: u8, first: u32, count: u32) -> u32 {
        let behind = match (kind, slot) {
            (Kind::Gather, _) => {
                let bucket = self.gathered;
                self.gathered = bucket.wrapping_add(1);
                bucket
            }
            (Kind::Fix, 1) => self.passed,
            (Kind::Fix, _) => self.bucket,
        };
        first + behind % count
    }

    // The plan has no choice.
    fn branch(&mut self, _count: u16) -> u16 {
        0
    }

    fn change(&mut self, _page: u32, _body: &mut [u8]) {}

    fn see(&mut self, page: u32, _mark: u64, image: &[u8]) {
        let body = &image[HEAD..];
        if page < BUCKETS {
            self.probe(body);
        } else {
            self.keep(body);
        }
    }
}
