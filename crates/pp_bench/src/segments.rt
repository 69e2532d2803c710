//! Segments of the journal of an endless pool, as text, and their audit.
//!
//! `segments` makes one after the other and audits each at once, so that it wants the memory of two pools and of one
//! segment, however many lines there are. `write-segments` writes each into a file, for an audit by another program.

use crate::trouble::Trouble;
use crate::watch::Watch;
use pp_ledger::{LedgerError, Segment};
use pp_segments::{SegmentAuditor, SegmentError};
use pp_settings::Settings;
use pp_test_plain::samples::{DESCENT, SCAN};
use pp_test_plain::{Chance, all_accepted};
use pp_test_stand::{Stand, text_of};
use pp_vault::SubmitError;
use std::alloc::{AllocError, Global};
use std::fs;

/// 64 frames, four workers, 1,024 pages, and as many flushes as are wanted.
const SETTINGS: &str = "version = 2
frames = 64
page_bytes = 512
workers = 4
waiting = 16
flushes = 1000000000000

[[region]]
name = \"root\"
first = 0
count = 16
class = 1

[[region]]
name = \"leaf\"
first = 16
count = 1008
class = 2
";

/// From a root to a leaf, fifty times, and both are read.
const LOOKUPS: &str =
    "{\"body\":[{\"body\":[{\"fix\":\"a\",\"region\":\"root\"},{\"latch\":\"a\",\"mode\":\"S\"},\
{\"fix\":\"b\",\"region\":\"leaf\"},{\"unlatch\":\"a\"},{\"unfix\":\"a\"},{\"latch\":\"b\",\"mode\":\"S\"},\
{\"unlatch\":\"b\"},{\"unfix\":\"b\"}],\"loop\":50}],\"version\":1}";

/// The plans that are submitted in turn.
const PLANS: [&str; 3] = [LOOKUPS, DESCENT, SCAN];

/// How many events a segment has.
const EVENTS: usize = 65_536;

/// How many turns a worker takes before the next one.
const TURNS: u32 = 16;

/// A pool that goes on for as long as events are wanted.
struct Source {
    stand: Stand,
    workers: u32,
    plans: usize,
    /// The place of the plan that is submitted next.
    place: usize,
    chance: Chance,
}

/// Stops for a pool that refuses something.
fn refused<E: Drop>(_error: E) -> Trouble {
    Trouble::Refused
}

impl Source {
    /// A pool of these settings, which keeps the plans of these texts, with room for so many events in its first
    /// segment.
    fn new(
        alloc: Global,
        settings: &Settings,
        texts: &[&str],
        events: usize,
    ) -> Result<Source, Trouble> {
        let stand = Stand::new(alloc, settings, texts, Vec::new(alloc), events).map_err(refused)?;
        Ok(Source {
            stand,
            workers: settings.workers(),
            plans: texts.len(),
            place: 0,
            chance: Chance::new(),
        })
    }

    /// Gives the pool up.
    fn end(self) {
        let Source {
            stand,
            workers: _,
            plans: _,
            place: _,
            chance: _,
        } = self;
        let _segment = stand.end();
    }

    /// Submits the next plan, where no more wait than may.
    fn submit(&mut self) -> Result<(), Trouble> {
        match self.stand.submit(self.place) {
            Ok(_number) => {
                let next = self.place.saturating_add(1);
                self.place = if next < self.plans { next } else { 0 };
                Ok(())
            }
            Err(LedgerError::Refused(SubmitError::TooManyPlans) | LedgerError::SegmentFull) => Ok(
                (),
            ),
            Err(error) => Err(refused(error)),
        }
    }

    /// A plan is submitted, each worker takes some turns, and the flusher one.
    fn round(&mut self) -> Result<(), Trouble> {
        self.submit()?;
        for worker in 0..self.workers {
            let _turned = self.stand.work(worker, TURNS, &mut self.chance);
        }
        let _turned = self.stand.flush();
        Ok(())
    }

    /// Goes on until the segment is full. Each round adds at least one event, where the plans have any.
    fn fill(&mut self) -> Result<(), Trouble> {
        for _ in 0..=self.stand.ledger.capacity() {
            if self.stand.ledger.is_full() {
                return Ok(());
            }
            self.round()?;
        }
        Err(Trouble::Refused)
    }

    /// The next segment, for which this one comes, whose memory is used for the one behind it.
    fn next(&mut self, spare: Segment) -> Result<Segment, Trouble> {
        let mut empty = spare;
        empty.clear();
        self.fill()?;
        self.stand.ledger.take_segment(empty).map_err(refused)
    }
}

/// What was audited, and how many nanoseconds it took to make the segments, to write their texts, and to audit these.
struct Times {
    lines: u64,
    making: u128,
    writing: u128,
    auditing: u128,
}

impl Drop for Times {
    fn drop(self) {
        let Times {
            lines: _,
            making: _,
            writing: _,
            auditing: _,
        } = self;
    }
}

/// The nanoseconds that the watch tells; 0 where the clock can't be read.
fn nanos(rt: &HostRuntime, watch: &Watch) -> u128 {
    watch.nanos(rt).unwrap_or(0)
}

/// What an audit stops for.
fn stopped(error: SegmentError) -> Trouble {
    match error {
        SegmentError::Audit(error) => Trouble::Failed(error),
        error => refused(error),
    }
}

/// Makes the next segment, writes its text and has it audited. Gives the segment back.
fn stream_one(
    rt: &HostRuntime,
    source: &mut Source,
    auditor: &mut SegmentAuditor,
    spare: Segment,
    times: &mut Times,
) -> Result<Segment, Trouble> {
    let watch = Watch::start(rt);
    let segment = source.next(spare)?;
    times.making = times.making.saturating_add(nanos(rt, &watch));
    let watch = Watch::start(rt);
    let text = text_of(rt.alloc(), &segment).map_err(refused)?;
    times.writing = times.writing.saturating_add(nanos(rt, &watch));
    let watch = Watch::start(rt);
    times.lines = auditor.pass_segment(text.as_bytes()).map_err(stopped)?;
    times.auditing = times.auditing.saturating_add(nanos(rt, &watch));
    Ok(segment)
}

/// Has segments audited until there are so many lines.
fn stream(
    rt: &HostRuntime,
    source: &mut Source,
    auditor: &mut SegmentAuditor,
    lines: u64,
) -> Result<Times, Trouble> {
    let mut times = Times {
        lines: 0,
        making: 0,
        writing: 0,
        auditing: 0,
    };
    let mut spare = Segment::with_room(rt.alloc(), EVENTS)?;
    for _segment in 0..lines {
        if times.lines >= lines {
            break;
        }
        spare = stream_one(rt, source, auditor, spare, &mut times)?;
    }
    Ok(times)
}

/// Makes segments of 65,536 events each, and audits their texts, until there are at least as many lines as the word
/// says. Prints how many lines there were, and on standard error how many nanoseconds a line took: to be made, to be
/// written as text, and to be audited.
pub fn audit(rt: &HostRuntime, words: &[String]) -> Result<(), Trouble> {
    let [lines] = words else {
        return Err(Trouble::Words);
    };
    let lines = number_of(lines)?;
    let alloc = rt.alloc();
    let settings = Settings::from_text(alloc, SETTINGS).map_err(refused)?;
    let plans = all_accepted(alloc, &settings, &PLANS).map_err(refused)?;
    let mut auditor = SegmentAuditor::new(alloc, &settings, plans).map_err(stopped)?;
    let mut source = Source::new(alloc, &settings, &PLANS, EVENTS)?;
    let streamed = stream(rt, &mut source, &mut auditor, lines);
    source.end();
    let times = streamed?;
    println!(rt; "{}", times.lines)?;
    let each = u128::from(times.lines.max(1));
    eprintln!(rt;
        "{} ns a line to make, {} ns to write, {} ns to audit",
        times.making / each,
        times.writing / each,
        times.auditing / each
    )?;
    Ok(())
}

/// The number that the word says.
fn number_of(word: &str) -> Result<u64, Trouble> {
    word.parse::<u64>().map_err(|_| Trouble::Words)
}

/// Writes segments of so many lines into files of the folder, named by their numbers, until there are at least so many
/// lines in all; of a pool with the settings and the plans of the files that the further words name. Prints how many
/// lines there are.
pub fn write(rt: &HostRuntime, words: &[String]) -> Result<(), Trouble> {
    let [folder, lines, each, settings, plans @ ..] = words else {
        return Err(Trouble::Words);
    };
    let (lines, each) = (number_of(lines)?, number_of(each)?);
    if each < 2 || each > 1_000_000_000 || plans.is_empty() {
        return Err(Trouble::Words);
    }
    let alloc = rt.alloc();
    let text = fs::read_to_string(rt, settings.as_str())?;
    let settings = Settings::from_text(alloc, text.as_str()).map_err(refused)?;
    let files = texts_of(rt, plans)?;
    let texts: Vec<&str> = files.iter().map(|file| file.as_str()).collect(alloc)?;
    let events = (each - 1) as usize;
    let mut source = Source::new(alloc, &settings, &texts, events)?;
    let written = write_all(rt, &mut source, folder.as_str(), lines, events);
    source.end();
    println!(rt; "{}", written?)?;
    Ok(())
}

/// The texts of the files.
fn texts_of(rt: &HostRuntime, paths: &[String]) -> Result<Vec<String>, Trouble> {
    let mut texts = Vec::new(rt.alloc());
    for path in paths {
        push(&mut texts, fs::read_to_string(rt, path.as_str())?)?;
    }
    Ok(texts)
}

/// Adds a text.
fn push(texts: &mut Vec<String>, text: String) -> Result<(), AllocError> {
    texts.push(text)?;
    Ok(())
}

/// Writes segments of so many events into files, until there are so many lines, and tells how many there are.
fn write_all(
    rt: &HostRuntime,
    source: &mut Source,
    folder: &str,
    lines: u64,
    events: usize,
) -> Result<u64, Trouble> {
    let mut written: u64 = 0;
    let mut spare = Segment::with_room(rt.alloc(), events)?;
    for number in 0..lines {
        if written >= lines {
            break;
        }
        spare = source.next(spare)?;
        let text = text_of(rt.alloc(), &spare).map_err(refused)?;
        let path = format!(in rt.alloc(); "{folder}/{number:06}.segment")?;
        fs::write(rt, path.as_str(), text.as_bytes())?;
        written = written
            .saturating_add(spare.events().len() as u64)
            .saturating_add(1);
    }
    Ok(written)
}
