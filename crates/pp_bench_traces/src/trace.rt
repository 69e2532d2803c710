//! The traces: which page each operation asks for.

ghost use Rattle.std.specs.Prelude.{◌≡◌, ◌<◌, ◌≤◌};

/// How many page numbers there are.
pub const PAGES: u32 = 65536;

/// The kind of a trace.
#[derive(Clone, Copy)]
pub enum Kind {
    /// Pages that fit the cache all together: three quarters as many as it has frames.
    Hit,
    /// A few pages often, most pages seldom.
    Skew,
    /// One page after another, round and round: half as many again as there are frames.
    Loop,
    /// Skewed, and at times a scan.
    Mixed,
}

impl Kind {
    /// The kind of this name.
    pub fn named(name: &str) -> Option<Self> {
        match name {
            "hit" => Some(Kind::Hit),
            "skew" => Some(Kind::Skew),
            "loop" => Some(Kind::Loop),
            "mixed" => Some(Kind::Mixed),
            _ => None,
        }
    }
}

/// A trace for a cache of so many frames, as far as it was read.
#[derive(Drop)]
pub struct Trace {
    kind: Kind,
    count: u64,
    seed: u64,
    /// Where a trace that goes round is.
    place: u32,
    /// How many pages are asked for in a trace of hits.
    few: u32,
    /// How many pages are asked for in a trace that goes round.
    many: u32,
    ghost some_few: { 0 < few },
    ghost some_many: { 0 < many },
}

impl Trace {
    /// The trace of this kind for a cache of so many frames.
    pub fn new(kind: Kind, frames: u32) -> Self {
        Trace::of_worker(kind, frames, 0)
    }

    /// The trace that this one of several workers follows: those of two workers ask for other pages. Worker 0 has the
    /// trace of [`Trace::new`].
    pub fn of_worker(kind: Kind, frames: u32, worker: u32) -> Self {
        let frames = frames.min(PAGES);
        Trace {
            kind,
            count: 0,
            seed: 12345 + u64::from(worker),
            place: 0,
            few: (frames * 3 / 4).max(1),
            many: (frames * 3 / 2).max(1),
        }
    }

    /// The page of the next operation.
    pub fn next_page(&mut self) -> u32
        ensures { result < 65536 }
    {
        self.seed = self
            .seed
            .wrapping_mul(6_364_136_223_846_793_005)
            .wrapping_add(1_442_695_040_888_963_407);
        let i = self.count;
        self.count = i.wrapping_add(1);
        let a = ((self.seed >> 33) % 65536) as u32;
        let b = ((self.seed >> 17) % 65536) as u32;
        match self.kind {
            // A division by a number that is known ahead takes a tenth of the time.
            Kind::Hit if self.few == 3072 => a % 3072,
            Kind::Hit => a % self.few,
            Kind::Skew => skewed(a, b),
            Kind::Loop => self.next_place() % PAGES,
            Kind::Mixed if i % 1280 < 1024 => skewed(a, b),
            Kind::Mixed => 8192 + (i % 32768) as u32,
        }
    }

    /// The next place of a trace that goes round.
    fn next_place(&mut self) -> u32 {
        let place = self.place;
        self.place = if place.wrapping_add(1) < self.many {
            place.wrapping_add(1)
        } else {
            0
        };
        place
    }
}

/// The product of two numbers below 65,536, as a share of that.
fn skewed(a: u32, b: u32) -> u32
    requires first { a < 65536 }
    requires second { b < 65536 }
    ensures { result < 65536 }
{
    (u64::from(a) * u64::from(b) / 65536) as u32
}
