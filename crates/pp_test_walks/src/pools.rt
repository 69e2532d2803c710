//! Pools that look like chance: their settings, plans, and the troubles of their devices.

use crate::common::TOO_GREAT;
use crate::scenario::Scenario;
use crate::words::Word;
use pp_cert::Held;
use pp_device::Trouble;
use pp_settings::{Extent, Settings};
use pp_test_plain::Chance;
use std::alloc::{AllocError, Global};
use std::fmt::Write;

/// How many plans a pool's lives choose from.
pub const PLANS: u32 = 10;

/// How many of the device's calls may have a trouble.
const CALLS: u32 = 800;

/// The pool of this number, with no cue. The numbers of workers and of bytes change from one to the next, and all else is by
/// chance.
pub fn pool_of(alloc: Global, chance: &mut Chance, number: u32) -> anyhow::Result<Scenario> {
    let text = settings_of(alloc, chance, number)?;
    let settings = Settings::from_text(alloc, text.as_str())?;
    let troubles = troubles_of(alloc, chance, &settings)?;
    let mut pool = Scenario::new(alloc, settings, Vec::new(alloc), troubles);
    for _ in 0..PLANS {
        let text = plan_of(alloc, chance, &pool.settings)?;
        pool.push(alloc, text)?;
    }
    pool.push_readers(alloc)?;
    Ok(pool)
}

/// The text of settings. In every third pool it is of version 2, lives don't end, and up to four plans may wait.
fn settings_of(alloc: Global, chance: &mut Chance, number: u32) -> Result<String, AllocError> {
    let workers = (number % 8).saturating_add(1);
    let page_bytes: u32 = match number / 8 % 3 {
        0 => 64,
        1 => 512,
        _ => 1000,
    };
    let (frames, flushes) = (chance.below(5).saturating_add(1), chance.below(7));
    let mut text = if number % 3 == 2 {
        let (page_bytes, waiting) = (page_bytes.max(512), number % 4 + 1);
        format!(in alloc;
            "version = 2\nframes = {frames}\npage_bytes = {page_bytes}\nworkers = {workers}\nwaiting = {waiting}\nflushes = {flushes}\n"
        )?
    } else {
        format!(in alloc;
            "frames = {frames}\npage_bytes = {page_bytes}\nworkers = {workers}\nflushes = {flushes}\n"
        )?
    };
    push_regions(chance, &mut text)?;
    Ok(text)
}

/// Puts two or three regions behind the text, with gaps between them.
fn push_regions(chance: &mut Chance, text: &mut String) -> Result<(), AllocError> {
    let most = chance.below(7).saturating_add(1);
    let mut first: u32 = 0;
    for region in 0..chance.below(2).saturating_add(2) {
        first = first.saturating_add(chance.below(3));
        let (count, class) = (chance.below(most).saturating_add(1), chance.below(4));
        write!(
            text,
            "[[region]]\nname = \"r{region}\"\nfirst = {first}\ncount = {count}\nclass = {class}\n"
        )?;
        first = first.saturating_add(count);
    }
    Ok(())
}

// ---- plans

/// A plan of up to three pieces. Each holds nothing in the end, and may be made several times.
fn plan_of(alloc: Global, chance: &mut Chance, settings: &Settings) -> Result<String, AllocError> {
    let mut text = String::from_str(alloc, "{\"body\":[")?;
    for piece in 0..chance.below(4) {
        if piece > 0 {
            text.push_str(",")?;
        }
        push_turns(alloc, chance, settings, piece, &mut text)?;
    }
    text.push_str("],\"version\":2}")?;
    Ok(text)
}

/// Puts a piece behind the text, as often as not in a loop.
fn push_turns(
    alloc: Global,
    chance: &mut Chance,
    settings: &Settings,
    piece: u32,
    text: &mut String,
) -> Result<(), AllocError> {
    if chance.below(3) > 0 {
        return push_piece(alloc, chance, settings, piece, text);
    }
    text.push_str("{\"body\":[")?;
    push_piece(alloc, chance, settings, piece, text)?;
    let turns = chance.below(3).saturating_add(1);
    write!(text, "],\"loop\":{turns}}}")
}

/// Puts a piece behind the text.
fn push_piece(
    alloc: Global,
    chance: &mut Chance,
    settings: &Settings,
    piece: u32,
    text: &mut String,
) -> Result<(), AllocError> {
    let mut words = Vec::new(alloc);
    push_words(chance, settings, piece.saturating_mul(2), &mut words)?;
    let mut is_first = true;
    for word in &words {
        if !is_first {
            text.push_str(",")?;
        }
        push_word(text, *word)?;
        is_first = false;
    }
    Ok(())
}

/// The number and the class of some region.
fn region_of(chance: &mut Chance, regions: &[Extent]) -> (u8, u8) {
    let count = regions.len().min(64) as u32;
    let number = chance.below(count).min(63) as u8;
    match regions.get(usize::from(number)) {
        Some(extent) => (number, extent.class),
        None => (0, 0),
    }
}

/// Puts some statements behind the others that have so many pins at most as there are frames.
fn push_words(
    chance: &mut Chance,
    settings: &Settings,
    slot: u32,
    words: &mut Vec<Word>,
) -> Result<(), AllocError> {
    let layout = settings.layout();
    let outer = region_of(chance, layout.extents());
    let inner = region_of(chance, layout.extents());
    let gather = Word::Gather(slot, inner.0);
    match settings.frames() {
        1 => push_one(chance, slot, outer.0, words),
        2 => push_two(chance, slot, outer, inner, words),
        _ if chance.below(6) == 0 => {
            push_all(words, &[gather, gather, gather, Word::Scatter(slot)])
        },
        _ if chance.below(3) == 0 => push_one(chance, slot, outer.0, words),
        _ => push_two(chance, slot, outer, inner, words),
    }
}

fn latch_of(chance: &mut Chance, slot: u32) -> Word {
    if chance.below(2) == 0 {
        Word::Latch(slot, Held::S)
    } else {
        Word::Latch(slot, Held::X)
    }
}

/// Puts the words behind the others.
fn push_all(words: &mut Vec<Word>, more: &[Word]) -> Result<(), AllocError> {
    for word in more {
        words.push(*word)?;
    }
    Ok(())
}

/// A page is fixed, read or written once or twice, or is a bundle.
fn push_one(
    chance: &mut Chance,
    slot: u32,
    region: u8,
    words: &mut Vec<Word>,
) -> Result<(), AllocError> {
    let (fix, unlatch, unfix) = (
        Word::Fix(slot, region),
        Word::Unlatch(slot),
        Word::Unfix(slot),
    );
    let (one, other) = (latch_of(chance, slot), latch_of(chance, slot));
    match chance.below(4) {
        0 => push_all(words, &[fix, unfix]),
        1 => push_all(words, &[fix, one, unlatch, unfix]),
        2 => push_all(words, &[fix, one, unlatch, other, unlatch, unfix]),
        _ => push_all(words, &[Word::Gather(slot, region), Word::Scatter(slot)]),
    }
}

/// A page is fixed and latched as another is fixed or gathered, which is latched too where the order of the classes lets it.
fn push_two(
    chance: &mut Chance,
    slot: u32,
    outer: (u8, u8),
    inner: (u8, u8),
    words: &mut Vec<Word>,
) -> Result<(), AllocError> {
    let inside = slot.saturating_add(1);
    let (fix, latch) = (Word::Fix(slot, outer.0), latch_of(chance, slot));
    let (unlatch, unfix) = (Word::Unlatch(slot), Word::Unfix(slot));
    let (pin, unpin) = if chance.below(3) == 0 {
        (Word::Gather(inside, inner.0), Word::Scatter(inside))
    } else {
        (Word::Fix(inside, inner.0), Word::Unfix(inside))
    };
    match pin {
        Word::Fix(_, _) if outer.1 < inner.1 => {
            let (other, off) = (latch_of(chance, inside), Word::Unlatch(inside));
            push_all(words, &[fix, latch, pin, other, off, unlatch, unfix, unpin])
        }
        _ => push_all(words, &[fix, latch, pin, unlatch, unfix, unpin]),
    }
}

/// Puts the word behind the text, as a plan has it.
fn push_word(text: &mut String, word: Word) -> Result<(), AllocError> {
    match word {
        Word::Fix(slot, region) => push_pin(text, "fix", slot, region),
        Word::Gather(slot, region) => push_pin(text, "gather", slot, region),
        Word::Latch(slot, held) => {
            write!(text, "{{\"latch\":\"s{slot}\",\"mode\":\"{held:?}\"}}")
        }
        Word::Unlatch(slot) => push_end(text, "unlatch", slot),
        Word::Unfix(slot) => push_end(text, "unfix", slot),
        Word::Scatter(slot) => push_end(text, "scatter", slot),
        Word::Choice(_) => Ok(()),
    }
}

fn push_pin(text: &mut String, name: &str, slot: u32, region: u8) -> Result<(), AllocError> {
    write!(text, "{{\"{name}\":\"s{slot}\",\"region\":\"r{region}\"}}")
}

fn push_end(text: &mut String, name: &str, slot: u32) -> Result<(), AllocError> {
    write!(text, "{{\"{name}\":\"s{slot}\"}}")
}

// ---- troubles

/// The troubles of the device: none, calls that fail, readings that lie, or both.
fn troubles_of(
    alloc: Global,
    chance: &mut Chance,
    settings: &Settings,
) -> Result<Vec<(u32, Trouble)>, AllocError> {
    let (fails, lies) = match chance.below(4) {
        0 => (0, 0),
        1 => (8, 0),
        2 => (0, 16),
        _ => (4, 6),
    };
    let mut troubles = Vec::new(alloc);
    for call in 0..CALLS {
        let drawn = chance.below(32);
        if drawn < fails {
            troubles.push((call, Trouble::Fail))?;
        } else if drawn < fails.saturating_add(lies) {
            troubles.push((call, lie_of(chance, settings)))?;
        }
    }
    Ok(troubles)
}

/// The first page of some region.
fn liar_of(chance: &mut Chance, settings: &Settings) -> u32 {
    let layout = settings.layout();
    let (region, _) = region_of(chance, layout.extents());
    match layout.extents().get(usize::from(region)) {
        Some(extent) => extent.first,
        None => 0,
    }
}

/// A lie: as often as not of a region's first page, with the greatest stamp that is taken for a page that isn't known. Else of any
/// page, with a stamp that pages may come to, or one that is too great.
fn lie_of(chance: &mut Chance, settings: &Settings) -> Trouble {
    if chance.below(2) == 0 {
        return Trouble::Lie(liar_of(chance, settings), TOO_GREAT - 1);
    }
    let page = chance.below(settings.pages());
    let stamp = match chance.below(7) {
        4 => TOO_GREAT,
        5 => 9_223_372_036_854_775_808,
        6 => u64::MAX,
        small => u64::from(small),
    };
    Trouble::Lie(page, stamp)
}
