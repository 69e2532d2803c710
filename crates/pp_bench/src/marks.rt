//! Rounds of calls on the marks of a full pool: a page leaves its frame, and another is placed, pinned, latched and let
//! go.

ghost use Rattle.std.specs.Prelude.{◌<◌};

use crate::trouble::Trouble;
use pp_frames::{Marks, Mode};
use std::alloc::{AllocError, Global};

/// Every page number is below this one.
const PAGES: u32 = 65_536;

/// Plays as many rounds as the first word says, over as many frames as the second says, or 4,096. Prints how many
/// pages were brought in.
pub fn play(rt: &HostRuntime, words: &[String]) -> Result<(), Trouble> {
    let (ops, frames) = asked(words).ok_or(Trouble::Words)?;
    let brought = rounds(rt.alloc(), frames.max(1), PAGES, ops)?;
    println!(rt; "{brought}")?;
    Ok(())
}

/// What the words ask for: how many rounds, and how many frames.
fn asked(words: &[String]) -> Option<(u64, u32)> {
    let (ops, frames) = match words {
        [ops] => (ops, 4096),
        [ops, frames] => (ops, frames.parse::<u32>().ok()?),
        _ => return None,
    };
    if frames == 0 {
        return None;
    }
    Some((ops.parse::<u64>().ok()?, frames))
}

/// The next of the numbers that look like chance.
fn next(seed: u64) -> u64 {
    seed.wrapping_mul(6_364_136_223_846_793_005)
        .wrapping_add(1_442_695_040_888_963_407)
}

/// Takes a page out of its frame.
fn clear(marks: &mut Marks, page: u32) -> bool {
    if marks.pins(page) > 0 {
        return false;
    }
    marks.clear(page);
    true
}

/// Puts the page into the least free frame.
fn place(marks: &mut Marks, page: u32) -> bool {
    if page >= marks.pages() || marks.pins(page) > 0 {
        return false;
    }
    let Some(frame) = marks.least_free() else {
        return false;
    };
    marks.place(page, frame);
    true
}

/// Pins and latches the page, releases it and takes the pin off again.
fn fix(marks: &mut Marks, page: u32) -> bool {
    if marks.frame_of(page).is_none() || marks.all_pins() >= marks.frames() {
        return false;
    }
    marks.pin(page);
    if marks.latches(page) >= marks.pins(page) || !marks.grant(page, Mode::X) {
        return false;
    }
    if !marks.is_latched(page, Mode::X) {
        return false;
    }
    marks.release(page, Mode::X);
    if marks.latches(page) >= marks.pins(page) {
        return false;
    }
    marks.unpin(page);
    true
}

/// Fills the frames, and then brings so many pages in, one at a time, each in place of another. Answers how many were.
///
/// # Errors
///
/// Only where the memory can't be had.
fn rounds(alloc: Global, frames: u32, pages: u32, ops: u64) -> Result<u64, AllocError>
    requires frames { 0 < frames }
    requires pages { 0 < pages }
{
    let mut marks = Marks::new(alloc, frames, pages)?;
    let mut residents = vec![in alloc; 0u32; frames as usize]?;
    for frame in 0..frames {
        place(&mut marks, frame);
        if let Some(resident) = residents.get_mut(frame as usize) {
            *resident = frame;
        }
    }
    let mut seed = 1;
    let mut brought: u64 = 0;
    for _ in 0..ops {
        seed = next(seed);
        let page = (seed >> 32) as u32 % pages;
        let slot = ((seed >> 40) as u32 % frames) as usize;
        let Some(resident) = residents.get_mut(slot) else {
            continue;
        };
        if marks.frame_of(page).is_some() {
            fix(&mut marks, page);
            continue;
        }
        if clear(&mut marks, *resident) && place(&mut marks, page) && fix(&mut marks, page) {
            *resident = page;
            brought = brought.wrapping_add(1);
        }
    }
    Ok(brought)
}
