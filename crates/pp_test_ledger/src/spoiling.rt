//! Texts of which one line is spoiled: the audit's first fault is that of the plain reading, and no earlier line.

use crate::common::{place_of, same};
use crate::plain::first_fault;
use crate::pools::{POOLS, Pool};
use crate::walk::walk_whole;
use pp_report::AuditError;
use pp_segments::{AuditedSegments, SegmentError, audit_segments};
use pp_settings::Settings;
use pp_test_plain::{Chance, all_accepted};
use std::alloc::{AllocError, Global};

/// How many events the texts have at least.
const EVENTS: u64 = 300;

/// How many texts are spoiled of each of the pools with loops.
const SPOILED: u32 = 161;

/// How a line is spoiled.
#[derive(Clone, Copy, PartialEq, Eq)]
enum Way {
    /// A digit is changed, in any line, in one that tells a head, or in one that takes a plan in.
    Digit,
    Head,
    Submit,
    /// A word is another one.
    Word,
    /// The line isn't there, or stands there twice.
    Dropped,
    Doubled,
    /// It stands behind the next one.
    Swapped,
}

const WAYS: [Way; 7] = [
    Way::Digit,
    Way::Head,
    Way::Submit,
    Way::Word,
    Way::Dropped,
    Way::Doubled,
    Way::Swapped,
];

const DIGITS: [char; 10] = ['0', '1', '2', '3', '4', '5', '6', '7', '8', '9'];

/// Words for others.
const WORDS: [&str; 12] = [
    "did",
    "fix",
    "hit",
    "latch",
    "taken",
    "queued",
    "done",
    "clean",
    "=",
    "0",
    "",
    "18446744073709551616",
];

/// With which refusals an audit stops at a line.
const NUMBERS: [u8; 5] = [91, 92, 93, 96, 97];

// ---- a line

/// Which digit this is, if it is one.
fn digit_of(letter: char) -> Option<usize> {
    DIGITS.iter().position(|digit| *digit == letter)
}

/// The line with one of its digits changed.
fn with_digit(alloc: Global, line: &str, chance: &mut Chance) -> Result<String, AllocError> {
    let digits = line
        .chars()
        .filter(|letter| digit_of(*letter).is_some())
        .count();
    let (place, more) = (place_of(digits, chance), chance.below(9) as usize);
    let mut text = String::new(alloc);
    let mut found: usize = 0;
    for letter in line.chars() {
        match digit_of(letter) {
            Some(digit) if found == place => {
                let other = digit.saturating_add(more).saturating_add(1) % 10;
                text.push(DIGITS.get(other).copied().unwrap_or(letter))?;
                found = found.saturating_add(1);
            }
            Some(_) => {
                text.push(letter)?;
                found = found.saturating_add(1);
            }
            None => text.push(letter)?,
        }
    }
    Ok(text)
}

/// A word by chance.
fn word_of(chance: &mut Chance) -> &'static str {
    match WORDS.get(place_of(WORDS.len(), chance)) {
        Some(word) => word,
        None => "",
    }
}

/// Adds the word in whose place the other one comes; or a third, where they are the same.
fn push_other(text: &mut String, word: &str, other: &str) -> Result<(), AllocError> {
    if word == other {
        text.push_str("gone")
    } else {
        text.push_str(other)
    }
}

/// The line with one of its words changed.
fn with_word(alloc: Global, line: &str, chance: &mut Chance) -> Result<String, AllocError> {
    let place = place_of(line.split(" ").count(), chance);
    let other = word_of(chance);
    let mut text = String::new(alloc);
    for (number, word) in line.split(" ").enumerate() {
        if number > 0 {
            text.push_str(" ")?;
        }
        if number == place {
            push_other(&mut text, word, other)?;
        } else {
            text.push_str(word)?;
        }
    }
    Ok(text)
}

/// The line that is changed in this way.
fn changed(alloc: Global, line: &str, way: Way, chance: &mut Chance) -> Result<String, AllocError> {
    match way {
        Way::Word => with_word(alloc, line, chance),
        _ => with_digit(alloc, line, chance),
    }
}

// ---- a text

/// The place of the line to be spoiled in this way: by chance, and then the next that can be.
fn place_for(lines: &[&str], way: Way, chance: &mut Chance) -> usize {
    let from = place_of(lines.len(), chance);
    let word = match way {
        Way::Head => "segment ",
        Way::Submit => "submit ",
        _ => "",
    };
    for (place, line) in lines.iter().enumerate() {
        if place >= from && line.starts_with(word) {
            return place;
        }
    }
    0
}

/// Adds the line.
fn push(text: &mut String, line: &str) -> Result<(), AllocError> {
    text.push_str(line)?;
    text.push('\n')
}

/// Adds what stands in place of this line, before which this other one follows it in the text.
fn push_spoiled(
    alloc: Global,
    text: &mut String,
    line: &str,
    next: &str,
    way: Way,
    chance: &mut Chance,
) -> Result<(), AllocError> {
    match way {
        Way::Dropped => Ok(()),
        Way::Doubled => {
            push(text, line)?;
            push(text, line)
        }
        Way::Swapped => {
            push(text, next)?;
            push(text, line)
        }
        _ => push(text, changed(alloc, line, way, chance)?.as_str()),
    }
}

/// The text of these lines, of which the one at this place is spoiled.
fn text_of(
    alloc: Global,
    lines: &[&str],
    place: usize,
    way: Way,
    chance: &mut Chance,
) -> Result<String, AllocError> {
    let behind = place.saturating_add(1);
    let next = lines.get(behind).copied().unwrap_or("");
    let mut text = String::new(alloc);
    for (number, line) in lines.iter().enumerate() {
        if number == place {
            push_spoiled(alloc, &mut text, line, next, way, chance)?;
        } else if way != Way::Swapped || number != behind {
            push(&mut text, line)?;
        }
    }
    Ok(text)
}

// ---- the audit

/// The line of the fault.
fn line_of(error: SegmentError) -> anyhow::Result<u64> {
    match error {
        SegmentError::Audit(AuditError::NotALine(line))
        | SegmentError::Audit(AuditError::NotPossible(line, _, _))
        | SegmentError::Audit(AuditError::ReplyDiffers(line, _, _))
        | SegmentError::OtherSegment(line)
        | SegmentError::NotPrepared(line) => Ok(line),
        error => Err(anyhow::Error::from(error)),
    }
}

/// How often an audit stopped with each refusal, and behind these how often a spoiled text was true.
#[derive(Drop)]
struct Counts {
    counts: [u32; 6],
}

impl Counts {
    /// Counts what came of an audit. Tells the line of the fault, if there is one.
    fn count(
        &mut self,
        audited: Result<AuditedSegments, SegmentError>,
    ) -> anyhow::Result<Option<u64>> {
        let (place, line) = match audited {
            Ok(_) => (5, None),
            Err(error) => {
                let number = error.number();
                let place = NUMBERS
                    .iter()
                    .position(|other| *other == number)
                    .unwrap_or(5);
                (place, Some(line_of(error)?))
            }
        };
        if let Some(count) = self.counts.get_mut(place) {
            *count = count.saturating_add(1);
        }
        Ok(line)
    }
}

/// A pool with the lines of its segments.
#[derive(Drop)]
struct Told<'a> {
    pool: &'a Pool,
    settings: &'a Settings,
    lines: &'a [&'a str],
}

/// Spoils a line in this way, and sees that the audit and the plain reading find the same fault.
fn spoil(
    alloc: Global,
    told: &Told<'_>,
    way: Way,
    chance: &mut Chance,
    counts: &mut Counts,
) -> anyhow::Result<()> {
    let place = place_for(told.lines, way, chance);
    let text = text_of(alloc, told.lines, place, way, chance)?;
    let plans = all_accepted(alloc, told.settings, told.pool.plans)?;
    let again = all_accepted(alloc, told.settings, told.pool.plans)?;
    let audited = audit_segments(alloc, told.settings, plans, &[text.as_bytes()], false);
    let got = counts.count(audited)?;
    let want = first_fault(alloc, told.settings, again, text.as_str())?;
    same("the first fault", (place, got), (place, want))?;
    match got {
        Some(line) if line <= place as u64 => anyhow::bail!(
            "line {place} is spoiled, and {line} is refused"
        ),
        _ => Ok(()),
    }
}

/// Spoils the texts of a pool.
fn spoil_all(alloc: Global, pool: &Pool, counts: &mut Counts) -> anyhow::Result<()> {
    let settings = pool.settings(alloc)?;
    let seen = walk_whole(alloc, &settings, pool, EVENTS)?;
    let mut whole = String::new(alloc);
    for text in &seen.texts {
        whole.push_str(text)?;
    }
    let lines: Vec<&str> = whole.lines().collect(alloc)?;
    let told = Told {
        pool,
        settings: &settings,
        lines: &lines,
    };
    let mut chance = Chance::new();
    for number in 0..SPOILED {
        let way = WAYS
            .get((number % 7) as usize)
            .copied()
            .unwrap_or(Way::Digit);
        spoil(alloc, &told, way, &mut chance, counts)?;
    }
    Ok(())
}

/// Spoils texts, and tells what came.
pub fn spoiled(alloc: Global) -> anyhow::Result<String> {
    let mut counts = Counts { counts: [0; 6] };
    for pool in POOLS.iter().skip(1).take(2) {
        spoil_all(alloc, pool, &mut counts)?;
    }
    let [line, possible, differs, segment, prepared, accepted] = counts.counts;
    let many = SPOILED.saturating_mul(2);
    Ok(format!(in alloc;
        "{many} spoiled texts: the audit and a plain reading stop at the same line, and none before the spoiled one\n\
        91: {line}, 92: {possible}, 93: {differs}, 96: {segment}, 97: {prepared}, still true: {accepted}"
    )?)
}
