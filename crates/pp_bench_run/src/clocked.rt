//! A worker's work: it gathers pages, follows a trace, and notes when its first operation began and when its last one ended.

ghost use Rattle.std.specs.Prelude.{◌≡◌, ◌+◌, ◌<◌};

use pp_bench_traces::Trace;
use pp_device::image::HEAD;
use pp_pool::Work;
use std::io;
use std::sync::atomic::{AtomicU64, Ordering};
use std::time::{Clock, Instant};

/// How many bytes of a body a work looks at, from its first one on.
const LOOKED_AT: usize = 8;

/// When the first operation of all workers began and when the last one ended, in nanoseconds from a start.
#[derive(Drop)]
pub struct Span {
    start: Instant,
    began: AtomicU64,
    ended: AtomicU64,
}

impl Span {
    /// It starts now.
    pub fn new(clock: &impl Clock) -> io::Result<Span> {
        Ok(Span {
            start: Instant::now(clock)?,
            began: AtomicU64::new(u64::MAX),
            ended: AtomicU64::new(0),
        })
    }

    /// Nanoseconds from the start; 0 where the clock can't be read.
    fn now(&self, clock: &impl Clock) -> u64 {
        match self.start.elapsed(clock) {
            Ok(time) => u64::try_from(time.as_nanos()).unwrap_or(0),
            Err(_) => 0,
        }
    }

    /// A worker begins.
    fn begin(&self, clock: &impl Clock) {
        self.began.fetch_min(self.now(clock), Ordering::SeqCst);
    }

    /// A worker has done its last operation.
    fn end(&self, clock: &impl Clock) {
        self.ended.fetch_max(self.now(clock), Ordering::SeqCst);
    }

    /// How long the operations of all workers took, in nanoseconds; 0 where there was none.
    pub fn nanos(&self) -> u64 {
        let began = self.began.load(Ordering::SeqCst);
        self.ended.load(Ordering::SeqCst).saturating_sub(began)
    }
}

/// A work that asks for the pages of a trace: for those to be gathered first, and then for each of which it looks at the front.
#[derive(Drop)]
pub struct Clocked<'a, R: Clock> {
    clock: R,
    span: &'a Span,
    trace: Trace,
    page: u32,
    /// How many pages are still to be gathered.
    held: u32,
    left: u64,
    has_begun: bool,
    // What was looked at, added up.
    sum: u64,
}

impl<'a, R: Clock> Clocked<'a, R> {
    /// Of so many operations on the pages of the trace, behind so many that are gathered.
    pub fn new(clock: R, span: &'a Span, trace: Trace, held: u32, ops: u64) -> Clocked<'a, R> {
        let mut trace = trace;
        let page = trace.next_page();
        Clocked {
            clock,
            span,
            trace,
            page,
            held,
            left: ops,
            has_begun: false,
            sum: 0,
        }
    }
}

impl<'a, R: Clock> Work for Clocked<'a, R> {
    ghost use Rattle.pp_device.specs.declared.image.TheConstants.{HEAD};
    ghost use Rattle.pp_bench_run.specs.declared.clocked.TheConstants.{LOOKED_AT};

    ghost reach_gives = { λ work bytes. bytes ≡ HEAD + LOOKED_AT };

    fn page(&mut self, _region: u8, first: u32, count: u32) -> u32 {
        let page = first + self.page % count;
        if self.held > 0 {
            self.held -= 1;
            self.page = self.trace.next_page();
        } else if !self.has_begun {
            self.has_begun = true;
            self.span.begin(&self.clock);
        }
        page
    }

    fn branch(&mut self, _count: u16) -> u16 {
        0
    }

    fn change(&mut self, _page: u32, _body: &mut [u8]) {}

    fn reach(&self) -> usize {
        HEAD + LOOKED_AT
    }

    fn see(&mut self, _page: u32, _mark: u64, image: &[u8]) {
        for byte in &image[HEAD..HEAD + LOOKED_AT] {
            self.sum = self.sum.wrapping_add(u64::from(*byte));
        }
        self.page = self.trace.next_page();
        self.left = self.left.saturating_sub(1);
        if self.left == 0 {
            self.span.end(&self.clock);
        }
    }
}
