//! Two workers on one thread, turn by turn.

use crate::noting::{Noting, Picks};
use crate::stand::{
    Disk, Stand, disk_of, hand_of, plan_of, put_back, settings_of, stand_of, submits,
};
use core::mem;
use pp_pool::{Book, Event, Journal, OwnSite, Turned, Worker};
use pp_settings::Settings;
use pp_test_plain::samples::{SCAN, SETTINGS};
use pp_vault::{Ending, Hand, Hands, Reply};
use std::alloc::Global;
use std::process::Abort;
use std::test::*;

/// From a root to a leaf, which is written, and perhaps on to a second one.
const DOWN: &str =
    "{\"body\":[{\"fix\":\"a\",\"region\":\"root\"},{\"latch\":\"a\",\"mode\":\"S\"},\
{\"fix\":\"b\",\"region\":\"leaf\"},{\"latch\":\"b\",\"mode\":\"X\"},{\"unlatch\":\"b\"},{\"unfix\":\"b\"},\
{\"choice\":[[],[{\"fix\":\"b\",\"region\":\"leaf\"},{\"unfix\":\"b\"}]]},{\"unlatch\":\"a\"},{\"unfix\":\"a\"}],\
\"version\":1}";

/// How many plans there are, half of them of either kind.
const PLANS: u32 = 20;

/// Two workers, of whom the one that moves next has the book and the device, and the other those that aren't used.
struct Pair {
    first: Worker<OwnSite, Disk>,
    second: Worker<OwnSite, Disk>,
}

/// The worker takes a turn.
fn turn(worker: &mut Worker<OwnSite, Disk>, work: &mut Noting) -> Turned {
    worker.turn(work)
}

impl Pair {
    /// The book and the device pass to the other worker.
    fn pass(&mut self) {
        mem::swap(&mut self.first.site, &mut self.second.site);
        mem::swap(&mut self.first.device, &mut self.second.device);
    }

    /// Each worker moves once; how its turn ended.
    fn round(&mut self, work: &mut Noting) -> (Turned, Turned) {
        let first = turn(&mut self.first, work);
        self.pass();
        let second = turn(&mut self.second, work);
        self.pass();
        (first, second)
    }

    /// Rounds until neither worker has anything to do; whether it came to that.
    fn run(&mut self, work: &mut Noting) -> bool {
        for _round in 0..2_000 {
            match self.round(work) {
                (Turned::Ended, Turned::Ended) => return true,
                (Turned::Broken | Turned::NoMemory, _) => return false,
                (_, Turned::Broken | Turned::NoMemory) => return false,
                _ => {}
            }
        }
        false
    }
}

/// The journal, and what either worker noted.
#[derive(Drop)]
struct Notes {
    journal: Journal,
    first: Journal,
    second: Journal,
}

/// A worker with this number over a stand, whose hands stay behind.
fn worker_of(
    rt: &impl Abort,
    alloc: Global,
    settings: &Settings,
    book: Book,
    hand: Hand,
) -> Worker<OwnSite, Disk> {
    let device = disk_of(rt, alloc, 24, 64, 0);
    Worker::new(alloc, OwnSite { book }, device, hand, settings)
}

/// Puts a worker's hand back, and gives its book and its log.
fn ended(rt: &impl Abort, worker: Worker<OwnSite, Disk>, hands: &mut Hands) -> (Book, Journal) {
    let (OwnSite { book }, _device, hand, log) = worker.end();
    put_back(rt, hands, hand);
    (book, log)
}

/// Two workers do what waits in the book. The second one has another book meanwhile, in which nothing waits.
fn both_work(
    rt: &impl Abort,
    alloc: Global,
    settings: &Settings,
    stand: Stand,
    unused: Stand,
) -> Notes {
    let Stand {
        book,
        mut hands,
        device: _,
    } = stand;
    let Stand {
        book: other,
        hands: other_hands,
        device: _,
    } = unused;
    let (first, second) = (hand_of(rt, &mut hands, 0), hand_of(rt, &mut hands, 1));
    let mut pair = Pair {
        first: worker_of(rt, alloc, settings, book, first),
        second: worker_of(rt, alloc, settings, other, second),
    };
    let is_done = pair.run(&mut Noting::new(alloc, Picks::Chance, usize::MAX));
    if !is_done {
        panic!(rt; "the workers don't end");
    }
    let Pair { first, second } = pair;
    let (book, first) = ended(rt, first, &mut hands);
    let (other, second) = ended(rt, second, &mut hands);
    let _nothing = other.close(other_hands);
    Notes {
        journal: book.close(hands),
        first,
        second,
    }
}

/// How many plans the events end at their end.
fn done_in(events: &Journal) -> u32 {
    let mut done = 0u32;
    for event in events {
        if let Event::Step {
            reply: Reply::Finished(Ending::Done),
            ..
        } = event
        {
            done = done.saturating_add(1);
        }
    }
    done
}

/// Whether the journal, its submits apart, is made of the two logs, each in its order.
fn is_made_of(journal: &Journal, first: &Journal, second: &Journal) -> bool {
    let (mut of_first, mut of_second) = (0usize, 0usize);
    for event in journal {
        if matches!(event, Event::Submit { .. }) {
            continue;
        }
        if first.get(of_first) == Some(event) {
            of_first = of_first.saturating_add(1);
        } else if second.get(of_second) == Some(event) {
            of_second = of_second.saturating_add(1);
        } else {
            return false;
        }
    }
    of_first == first.len() && of_second == second.len()
}

/// Twenty plans with loops and choices come to their end under three frames, and the journal is made of the two logs.
#[test]
fn two_workers_do_twenty_plans(rt: HostRuntime) {
    let alloc: Global = rt.alloc();
    let settings = settings_of(&rt, alloc, SETTINGS);
    let device = disk_of(&rt, alloc, 24, 64, 0);
    let mut stand = stand_of(&rt, alloc, &settings, device);
    for number in 0..PLANS {
        let text = if number % 2 == 0 { DOWN } else { SCAN };
        let plan = plan_of(&rt, alloc, &settings, text);
        submits(&rt, &mut stand.book, plan, u64::from(number));
    }
    let unused = stand_of(&rt, alloc, &settings, disk_of(&rt, alloc, 24, 64, 0));
    let notes = both_work(&rt, alloc, &settings, stand, unused);
    let (first, second) = (done_in(&notes.first), done_in(&notes.second));
    if first == 0 || second == 0 || first.saturating_add(second) != PLANS {
        panic!(rt; "{first} plans are done by one worker, and {second} by the other");
    }
    if !is_made_of(&notes.journal, &notes.first, &notes.second) {
        panic!(rt; "the journal isn't made of the logs");
    }
}
