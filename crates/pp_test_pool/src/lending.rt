//! What a work is told of its plans, and which pages it is lent: by a work that notes each call.

use crate::noting::note;
use crate::stand::{
    Disk, Stand, close, disk_of, hand_of, note_turn, plan_of, put_back, same_text, settings_of,
    stand_of, submits,
};
use pp_device::image;
use pp_pool::{End, Held, Kind, Loan, OwnSite, Turned, Work, Worker};
use pp_vault::Failure;
use std::alloc::Global;
use std::process::Abort;
use std::test::*;

/// Four regions, of which two can be latched at once with any other.
const LEVELS: &str = "frames = 6
page_bytes = 64
workers = 1
flushes = 0

[[region]]
name = \"root\"
first = 2
count = 3
class = 1

[[region]]
name = \"even\"
first = 10
count = 5
class = 2

[[region]]
name = \"odd\"
first = 20
count = 7
class = 3

[[region]]
name = \"table\"
first = 40
count = 9
class = 4
";

/// Latches a root S, an even page X and an odd page X, and lets them go again. The slots have other numbers than the regions: slot
/// 0 is the odd page, slot 1 the even one, and slot 2 the root.
const SPLIT: &str =
    "{\"body\":[{\"fix\":\"c\",\"region\":\"root\"},{\"latch\":\"c\",\"mode\":\"S\"},\
{\"fix\":\"b\",\"region\":\"even\"},{\"latch\":\"b\",\"mode\":\"X\"},\
{\"fix\":\"a\",\"region\":\"odd\"},{\"latch\":\"a\",\"mode\":\"X\"},\
{\"unlatch\":\"b\"},{\"unlatch\":\"c\"},{\"unlatch\":\"a\"},\
{\"unfix\":\"a\"},{\"unfix\":\"b\"},{\"unfix\":\"c\"}],\"version\":1}";

/// Looks at an even page and at an odd one.
const LOOK: &str =
    "{\"body\":[{\"fix\":\"a\",\"region\":\"even\"},{\"latch\":\"a\",\"mode\":\"S\"},{\"unlatch\":\"a\"},{\"unfix\":\"a\"},\
{\"fix\":\"a\",\"region\":\"odd\"},{\"latch\":\"a\",\"mode\":\"S\"},{\"unlatch\":\"a\"},{\"unfix\":\"a\"}],\"version\":1}";

/// Gathers two pages of a table, and has a page latched X and then X again beside them.
const BUNDLE: &str = "{\"body\":[{\"body\":[{\"gather\":\"g\",\"region\":\"table\"}],\"loop\":2},\
{\"fix\":\"a\",\"region\":\"odd\"},{\"latch\":\"a\",\"mode\":\"X\"},{\"unlatch\":\"a\"},\
{\"latch\":\"a\",\"mode\":\"X\"},{\"unlatch\":\"a\"},{\"unfix\":\"a\"},{\"scatter\":\"g\"}],\"version\":2}";

/// A work that notes its calls. At each rework it notes what it is lent, and adds one to the first byte of each body that it is
/// lent; and before the first unlatch of slot 1 it moves the first byte of that slot's body to the last of slot 0's.
/// It is lent pages where `LENT` says so.
#[derive(Drop)]
struct Telling<const LENT: bool> {
    calls: String,
    /// How many pages of each region it was asked for in its plan.
    asked: [u32; 4],
}

impl<const LENT: bool> Telling<LENT> {
    fn new(alloc: Global) -> Telling<LENT> {
        Telling {
            calls: String::new(alloc),
            asked: [0; 4],
        }
    }

    /// Notes whether two bodies are lent for these slots.
    fn note_two<L: Loan>(&mut self, held: &mut Held<L>, first: u8, second: u8) {
        let lent = match held.two(first, second, |one, other| (one.len(), other.len())) {
            Some((one, other)) => (one as u64, other as u64),
            None => (0, 0),
        };
        note(
            &mut self.calls,
            "  two",
            &[u64::from(first), u64::from(second), lent.0, lent.1],
        );
    }

    /// Notes what is lent, and adds one to the first byte of each body.
    fn note_each<L: Loan>(&mut self, held: &mut Held<L>) {
        for slot in 0..4u8 {
            let page = held.page(slot);
            let first = match held.body(slot) {
                Some(body) => add_one(body),
                None => 0,
            };
            if let Some(page) = page {
                note(
                    &mut self.calls,
                    "  lent",
                    &[u64::from(slot), u64::from(page), first],
                );
            }
        }
    }
}

/// Adds one to the first byte, and tells it.
fn add_one(body: &mut [u8]) -> u64 {
    if body.is_empty() {
        return 0;
    }
    body[0] = body[0].wrapping_add(1);
    u64::from(body[0])
}

/// The last byte gets the other's first and 100 more.
fn hand_on(from: &[u8], to: &mut [u8]) {
    if from.is_empty() || to.is_empty() {
        return;
    }
    let last = to.len() - 1;
    to[last] = from[0].wrapping_add(100);
}

impl<const LENT: bool> Work for Telling<LENT> {
    ghost begins_leaves = { λ work plan after. Unit {0} };

    ghost ended_leaves = { λ work end after. Unit {0} };

    ghost page_into_gives = { λ work slot kind region first count page after. Unit {0} };

    ghost rework_leaves = { λ work off before left after. Unit {0} };

    ghost wants_rework_gives = { λ wanted. Unit {0} };

    fn begins(&mut self, plan: u64) {
        note(&mut self.calls, "begins", &[plan]);
        self.asked = [0; 4];
    }

    fn ended(&mut self, end: End) {
        match end {
            End::Done => note(&mut self.calls, "done", &[]),
            End::Gone { page, why } => {
                let word = match why {
                    Failure::ReadFault => "gone by a reading",
                    Failure::WriteFault => "gone by a writing",
                    Failure::Misread => "gone by another image",
                };
                note(&mut self.calls, word, &[u64::from(page)]);
            }
        }
    }

    fn page(&mut self, _region: u8, first: u32, _count: u32) -> u32 {
        note(&mut self.calls, "any page", &[]);
        first
    }

    fn page_into(&mut self, slot: u8, kind: Kind, region: u8, first: u32, count: u32) -> u32 {
        let word = match kind {
            Kind::Fix => "fix",
            Kind::Gather => "gather",
        };
        note(
            &mut self.calls,
            word,
            &[
                u64::from(slot),
                u64::from(region),
                u64::from(first),
                u64::from(count),
            ],
        );
        let mut behind = u32::from(region).saturating_add(1);
        if let Some(asked) = self.asked.get_mut(usize::from(region)) {
            behind = behind.saturating_add(*asked);
            *asked = asked.saturating_add(1);
        }
        first + behind % count
    }

    fn branch(&mut self, _count: u16) -> u16 {
        0
    }

    fn change(&mut self, page: u32, body: &mut [u8]) {
        note(&mut self.calls, "change", &[u64::from(page)]);
        body[1] = body[1].wrapping_add(16);
    }

    fn see(&mut self, page: u32, mark: u64, bytes: &[u8]) {
        let body = &bytes[image::HEAD..];
        let last = body[body.len() - 1];
        note(
            &mut self.calls,
            "see",
            &[
                u64::from(page),
                mark,
                u64::from(body[0]),
                u64::from(body[1]),
                u64::from(last),
            ],
        );
    }

    fn wants_rework() -> bool {
        LENT
    }

    fn rework<L: Loan>(&mut self, off: u8, held: &mut Held<L>) {
        note(&mut self.calls, "rework", &[u64::from(off)]);
        for slot in held.slots() {
            note(&mut self.calls, "  slot", &[u64::from(slot)]);
        }
        self.note_each(held);
        self.note_two(held, 0, 1);
        self.note_two(held, 1, 0);
        self.note_two(held, 1, 1);
        self.note_two(held, 0, 2);
        self.note_two(held, 0, 31);
        let _ = held.two(1, 0, |from, to| hand_on(from, to));
    }
}

/// A worker does plans with this work, and is idle again; what its turns came to.
fn works<const LENT: bool>(
    rt: &impl Abort,
    alloc: Global,
    settings: &str,
    plans: &[&str],
    fails: u32,
    work: &mut Telling<LENT>,
) -> String {
    let settings = settings_of(rt, alloc, settings);
    let device: Disk = disk_of(rt, alloc, 49, 64, fails);
    let mut stand = stand_of(rt, alloc, &settings, device);
    let mut number = 0u64;
    for text in plans {
        let plan = plan_of(rt, alloc, &settings, text);
        submits(rt, &mut stand.book, plan, number);
        number = number.saturating_add(1);
    }
    let Stand {
        book,
        mut hands,
        device,
    } = stand;
    let hand = hand_of(rt, &mut hands, 0);
    let mut worker = Worker::new(alloc, OwnSite { book }, device, hand, &settings);
    let mut turns = String::new(alloc);
    for _turn in 0..90 {
        let turned = worker.turn(work);
        note_turn(&mut turns, turned);
        if turned == Turned::Ended {
            break;
        }
    }
    let (OwnSite { book }, device, hand, _log) = worker.end();
    put_back(rt, &mut hands, hand);
    let _journal = close(Stand {
        book,
        hands,
        device,
    });
    turns
}

/// What the work notes of a split, and of a look behind it.
const SPLIT_AND_LOOK: &str = "begins 0
fix 2 0 2 3
see 3 0 0 0 0
fix 1 1 10 5
change 12
fix 0 2 20 7
change 23
rework 1
  slot 0
  slot 1
  lent 0 23 1
  lent 1 12 1
  two 0 1 52 52
  two 1 0 52 52
  two 1 1 0 0
  two 0 2 0 0
  two 0 31 0 0
rework 0
  slot 0
  lent 0 23 2
  two 0 1 0 0
  two 1 0 0 0
  two 1 1 0 0
  two 0 2 0 0
  two 0 31 0 0
done
begins 1
fix 0 1 10 5
see 12 1 1 16 0
fix 0 2 20 7
see 23 1 2 16 101
done
";

/// A work is told of its plans, is asked for the pages by their slots, and is lent the pages that are latched X before each of these
/// latches comes off: no others, and no two bodies for one slot.
#[test]
fn a_work_is_lent_what_is_latched(rt: HostRuntime) {
    let alloc = rt.alloc();
    let mut work = Telling::<true>::new(alloc);
    let turns = works(&rt, alloc, LEVELS, &[SPLIT, LOOK], 0, &mut work);
    same_text(&rt, "the calls", &work.calls, SPLIT_AND_LOOK);
    if !turns.ends_with("e") {
        panic!(rt; "not idle: {turns}");
    }
}

/// What the work notes where nothing is lent.
const NOTHING_LENT: &str = "begins 0
fix 2 0 2 3
see 3 0 0 0 0
fix 1 1 10 5
change 12
fix 0 2 20 7
change 23
done
";

/// A work that isn't for that is lent none.
#[test]
fn nothing_is_lent_unasked(rt: HostRuntime) {
    let alloc = rt.alloc();
    let mut work = Telling::<false>::new(alloc);
    works(&rt, alloc, LEVELS, &[SPLIT], 0, &mut work);
    same_text(&rt, "the calls", &work.calls, NOTHING_LENT);
}

/// What the work notes where the odd page can't be read: the even one is given back behind a rework. What was left in it is there in
/// the next plan.
const LEFT: &str = "begins 0
fix 2 0 2 3
see 3 0 0 0 0
fix 1 1 10 5
change 12
fix 0 2 20 7
rework 1
  slot 1
  lent 1 12 1
  two 0 1 0 0
  two 1 0 0 0
  two 1 1 0 0
  two 0 2 0 0
  two 0 31 0 0
gone by a reading 23
begins 1
fix 0 1 10 5
see 12 1 1 16 0
fix 0 2 20 7
see 23 0 0 0 0
done
";

/// On the way out of a plan that is left, the pages are lent as well, and the work is told of the page and of what went wrong.
#[test]
fn a_work_is_told_why_its_plan_was_left(rt: HostRuntime) {
    let alloc = rt.alloc();
    let mut work = Telling::<true>::new(alloc);
    works(&rt, alloc, LEVELS, &[SPLIT, LOOK], 3, &mut work);
    same_text(&rt, "the calls", &work.calls, LEFT);
}

/// What the work notes of a bundle.
const GATHERED: &str = "begins 0
gather 1 3 40 9
gather 1 3 40 9
fix 0 2 20 7
change 23
rework 0
  slot 0
  lent 0 23 1
  two 0 1 0 0
  two 1 0 0 0
  two 1 1 0 0
  two 0 2 0 0
  two 0 31 0 0
change 23
rework 0
  slot 0
  lent 0 23 2
  two 0 1 0 0
  two 1 0 0 0
  two 1 1 0 0
  two 0 2 0 0
  two 0 31 0 0
done
";

/// A gather is told from a fix, and a bundle's pages aren't lent.
#[test]
fn a_gather_is_told_from_a_fix(rt: HostRuntime) {
    let alloc = rt.alloc();
    let mut work = Telling::<true>::new(alloc);
    works(&rt, alloc, LEVELS, &[BUNDLE], 0, &mut work);
    same_text(&rt, "the calls", &work.calls, GATHERED);
}

/// Settings of one frame, so that a changed page is written back for the next one.
const ONE_FRAME: &str = "frames = 1
page_bytes = 64
workers = 1
flushes = 0

[[region]]
name = \"leaf\"
first = 16
count = 8
class = 2
";

/// Writes two leaves, one after the other.
const TWO: &str =
    "{\"body\":[{\"body\":[{\"fix\":\"a\",\"region\":\"leaf\"},{\"latch\":\"a\",\"mode\":\"X\"},\
{\"unlatch\":\"a\"},{\"unfix\":\"a\"}],\"loop\":2}],\"version\":1}";

/// What the work notes where the first leaf can't be written back: it is told of that page, and not of the one that it asked for.
const UNWRITTEN: &str = "begins 0
fix 0 0 16 8
change 17
fix 0 0 16 8
gone by a writing 17
";

/// Where a victim can't be written back, the work is told of the victim.
#[test]
fn a_work_is_told_of_the_victim(rt: HostRuntime) {
    let alloc = rt.alloc();
    let mut work = Telling::<false>::new(alloc);
    works(&rt, alloc, ONE_FRAME, &[TWO], 2, &mut work);
    same_text(&rt, "the calls", &work.calls, UNWRITTEN);
}
