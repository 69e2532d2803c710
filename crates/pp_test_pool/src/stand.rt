//! A book, its tokens and its device, and what is done with them.

ghost use Rattle.std.specs.Prelude.{◌≡◌};
ghost use Rattle.pp_settings.specs.declared.span.Span.TheVariants.{Bounded};

use crate::noting::{Noting, Picks, note};
use crate::site::{Habit, Odd};
use pp_cert::Accepted;
use pp_device::{Device, Failing, SoloDevice, Trouble};
use pp_pool::{Book, Flusher, Journal, OwnSite, Turned, Worker};
use pp_report::packed_journal_text;
use pp_settings::Settings;
use pp_test_plain::accepted;
use pp_vault::{Hand, Hands, Stage};
use std::alloc::Global;
use std::process::Abort;

/// A device whose call with a number fails.
pub type Disk = Failing<SoloDevice>;

/// A book, its tokens, and its device, from life to life.
pub struct Stand {
    pub book: Book,
    pub hands: Hands,
    pub device: Disk,
}

/// Compares two texts. Where they differ, the test fails and tells both.
pub fn same_text(rt: &impl Abort, name: &str, got: &str, want: &str) {
    if got != want {
        panic!(rt; "{name}: got {got:?}, wanted {want:?}");
    }
}

/// The settings of this text, in which lives are bounded.
pub fn settings_of(rt: &impl Abort, alloc: Global, text: &str) -> Settings
    ensures { result.span ≡ Bounded }
{
    let Ok(settings) = Settings::from_text(alloc, text) else {
        panic!(rt; "no settings: {text}")
    };
    let Ok(()) = settings.see_bounded() else {
        panic!(rt; "endless lives: {text}")
    };
    settings
}

/// The plan of this text; it is accepted.
pub fn plan_of(rt: &impl Abort, alloc: Global, settings: &Settings, text: &str) -> Accepted {
    match accepted(alloc, settings, text) {
        Ok(plan) => plan,
        Err(_) => panic!(rt; "no memory, or not accepted: {text}"),
    }
}

/// A device of so many pages of so many bytes, whose call with this number fails; none where that is 0.
pub fn disk_of(rt: &impl Abort, alloc: Global, pages: u32, bytes: usize, fails: u32) -> Disk {
    let Ok(device) = SoloDevice::new(alloc, pages, bytes.max(64)) else {
        panic!(rt; "no memory")
    };
    let mut troubles = Vec::new(alloc);
    if fails > 0 {
        troubles.push((fails, Trouble::Fail)).expect(rt, "memory");
    }
    Failing::new(device, troubles)
}

/// A book with these settings, in which nothing was done yet, over this device.
pub fn stand_of(rt: &impl Abort, alloc: Global, settings: &Settings, device: Disk) -> Stand
    requires { settings.now.span ≡ Bounded }
{
    let Ok((book, hands)) = Book::new(alloc, settings) else {
        panic!(rt; "no memory")
    };
    Stand {
        book,
        hands,
        device,
    }
}

/// Submits the plan, which is taken in under this number.
pub fn submits(rt: &impl Abort, book: &mut Book, plan: Accepted, number: u64) {
    let is_it = match book.submit(plan) {
        Ok(id) => id.number() == number,
        Err(_) => false,
    };
    if !is_it {
        panic!(rt; "not taken in as plan {number}");
    }
}

/// The worker's hand.
pub fn hand_of(rt: &impl Abort, hands: &mut Hands, worker: u32) -> Hand {
    match hands.part(worker) {
        Some(hand) => hand,
        None => panic!(rt; "no hand"),
    }
}

/// Puts a hand back.
pub fn put_back(rt: &impl Abort, hands: &mut Hands, hand: Hand) {
    match hands.join(hand) {
        Ok(()) => {}
        Err(_) => panic!(rt; "the hand has no place"),
    }
}

/// How a turn ended, as a letter.
fn letter(turned: Turned) -> &'static str {
    match turned {
        Turned::Done => "d",
        Turned::NotNow => "w",
        Turned::Ended => "e",
        Turned::NoMemory => "n",
        Turned::Broken => "b",
    }
}

/// Adds a letter for the turn.
pub fn note_turn(turns: &mut String, turned: Turned) {
    if turns.push_str(letter(turned)).is_err() {
        turns.clear();
    }
}

/// Whether the worker's hand is idle.
fn is_idle(hand: &Hand) -> bool {
    matches!(&hand.stage, Stage::Idle(_))
}

/// Takes turns until nothing is left for the worker, at most so many, and tells how the last one ended. A site that the worker
/// has refused for want of memory is honest from then on.
fn take_turns<R: Abort>(
    worker: &mut Worker<Odd<'_, R>, Disk>,
    work: &mut Noting,
    most: u32,
    turns: &mut String,
) -> Turned {
    let mut turned = Turned::Broken;
    for _turn in 0..most {
        turned = worker.turn(work);
        note_turn(turns, turned);
        match turned {
            Turned::Ended => return turned,
            Turned::NoMemory => {
                let is_idle = is_idle(&worker.hand) && worker.log.is_empty();
                note(&mut work.calls, "idle", &[u64::from(is_idle)]);
                worker.site.habit = Habit::Honest;
            }
            _ => {}
        }
    }
    turned
}

/// What a worker did.
pub struct Worked {
    pub stand: Stand,
    /// How the last turn ended.
    pub last: Turned,
    pub log: Journal,
}

/// Who works, and how often at most.
#[derive(Clone, Copy)]
pub struct Shift {
    pub worker: u32,
    pub habit: Habit,
    pub most: u32,
}

/// A worker takes turns over a site with this habit. Each is noted.
pub fn works(
    rt: &impl Abort,
    alloc: Global,
    settings: &Settings,
    stand: Stand,
    shift: Shift,
    work: &mut Noting,
    turns: &mut String,
) -> Worked {
    let Stand {
        book,
        mut hands,
        device,
    } = stand;
    let hand = hand_of(rt, &mut hands, shift.worker);
    let site = Odd {
        rt,
        site: OwnSite { book },
        habit: shift.habit,
    };
    let mut worker = Worker::new(alloc, site, device, hand, settings);
    let last = take_turns(&mut worker, work, shift.most, turns);
    let (site, device, hand, log) = worker.end();
    put_back(rt, &mut hands, hand);
    let Odd {
        rt: _,
        site: OwnSite { book },
        habit: _,
    } = site;
    Worked {
        stand: Stand {
            book,
            hands,
            device,
        },
        last,
        log,
    }
}

/// Worker 0 takes turns until nothing is left for it, and gives its log as text.
pub fn does(rt: &impl Abort, alloc: Global, settings: &Settings, stand: Stand) -> (Stand, String) {
    let mut work = Noting::new(alloc, Picks::First, usize::MAX);
    let mut turns = String::new(alloc);
    let shift = Shift {
        worker: 0,
        habit: Habit::Honest,
        most: 600,
    };
    let Worked { stand, last, log } = works(
        rt, alloc, settings, stand, shift, &mut work, &mut turns,
    );
    if last != Turned::Ended {
        panic!(rt; "a plan is left: {turns}");
    }
    (stand, text_of(rt, alloc, &log))
}

/// The flusher takes three turns. They are noted, with how many flushes were ended and how many of them had failed.
pub fn flushes(rt: &impl Abort, stand: Stand, turns: &mut String) -> Stand {
    let Stand {
        book,
        hands,
        device,
    } = stand;
    let mut flusher = Flusher::new(OwnSite { book }, device);
    for _turn in 0..3 {
        let turned = flusher.turn();
        note_turn(turns, turned);
    }
    let (OwnSite { book }, device, flushing, ended, failed) = flusher.end();
    match flushing {
        None => {}
        Some(_) => panic!(rt; "a flush is in hand"),
    }
    note(turns, "", &[ended, failed]);
    Stand {
        book,
        hands,
        device,
    }
}

/// Gives the book up, and gives its journal.
pub fn close(stand: Stand) -> Journal {
    let Stand {
        book,
        hands,
        device: _,
    } = stand;
    book.close(hands)
}

/// The journal's text.
pub fn text_of(rt: &impl Abort, alloc: Global, journal: &Journal) -> String {
    packed_journal_text(alloc, journal).expect(rt, "memory")
}

/// Adds to a text.
pub fn push_text(rt: &impl Abort, text: &mut String, more: &str) {
    text.push_str(more).expect(rt, "memory");
}
