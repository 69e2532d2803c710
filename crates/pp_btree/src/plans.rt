//! The plans of the tree's queries, which are written as texts.

use crate::regions::{LEVELS, REGIONS, even_of};
use pp_annotate::annotate;
use pp_cert::{Accepted, check};
use pp_plan::Plan;
use pp_settings::Settings;
use std::alloc::{AllocError, Global};

/// What a plan is for.
#[derive(Clone, Copy, Debug, PartialEq, Eq)]
pub enum Job {
    /// To see the leaf of a key.
    Look,
    /// To change the leaf of a key.
    Write,
    /// To change the leaf of a key, which may be split, and the nodes above it as well.
    Split,
    /// To give the root two new children.
    Grow,
    /// To see the leaves from that of a key on.
    Scan,
}

/// A plan for the job.
///
/// # Errors
///
/// Where the checker refuses it under these settings, and where memory runs out.
pub fn plan_for(alloc: Global, settings: &Settings, job: Job) -> anyhow::Result<Accepted> {
    let text = text_of(alloc, job)?;
    accepted(alloc, settings, &text)
}

/// The plan of this text, accepted by the checker.
///
/// # Errors
///
/// Where the text is no plan for these settings, the checker refuses it, or memory runs out.
pub fn accepted(alloc: Global, settings: &Settings, text: &str) -> anyhow::Result<Accepted> {
    let plan = Plan::from_text(alloc, settings, text)?;
    let certificate = annotate(alloc, settings, &plan)?;
    match check(settings, plan, &certificate) {
        Ok(accepted) => Ok(accepted),
        Err((_plan, error)) => Err(anyhow::Error::from(error)),
    }
}

/// The text of the job's plan.
fn text_of(alloc: Global, job: Job) -> Result<String, AllocError> {
    let mut text = String::from_str(alloc, "{\"body\":[")?;
    match job {
        Job::Look => descent(&mut text, "S")?,
        Job::Write => descent(&mut text, "X")?,
        Job::Scan => scan(&mut text)?,
        Job::Split => splitting(&mut text)?,
        Job::Grow => growing(&mut text)?,
    }
    text.push_str("],\"version\":1}")?;
    Ok(text)
}

/// Adds what stands between two statements, or two bodies.
fn comma(text: &mut String) -> Result<(), AllocError> {
    if text.as_str().ends_with('[') {
        Ok(())
    } else {
        text.push(',')
    }
}

/// Begins a statement with bodies, or its next body.
fn open(text: &mut String, word: &str) -> Result<(), AllocError> {
    comma(text)?;
    text.push_str(word)
}

/// The letter of a region's slot. Slots are numbered by their letters.
fn letter(region: u8) -> char {
    match region {
        0 => 'a',
        1 => 'b',
        2 => 'c',
        3 => 'd',
        4 => 'e',
        5 => 'f',
        6 => 'g',
        _ => 'h',
    }
}

/// The name of a region.
fn name_of(region: u8) -> &'static str {
    match REGIONS.get(usize::from(region)) {
        Some(region) => region.name,
        None => "",
    }
}

/// Fixes a page of the region, and latches it.
fn take(text: &mut String, region: u8, mode: &str) -> Result<(), AllocError> {
    let (slot, name) = (letter(region), name_of(region));
    comma(text)?;
    write!(
        text,
        "{{\"fix\":\"{slot}\",\"region\":\"{name}\"}},{{\"latch\":\"{slot}\",\"mode\":\"{mode}\"}}"
    )
}

/// Unlatches the slot of the region, and unfixes it.
fn give(text: &mut String, region: u8) -> Result<(), AllocError> {
    let slot = letter(region);
    comma(text)?;
    write!(text, "{{\"unlatch\":\"{slot}\"}},{{\"unfix\":\"{slot}\"}}")
}

/// From the root to a leaf, by the height that the root tells. Each child is latched before its parent is let go.
fn descent(text: &mut String, mode: &str) -> Result<(), AllocError> {
    take(text, 1, "S")?;
    open(text, "{\"choice\":[")?;
    for level in 0..LEVELS {
        open(text, "[")?;
        below(text, level, 1, mode)?;
        text.push(']')?;
    }
    text.push_str("]}")
}

/// From a node of this region, which is latched, down to a leaf: to an even child of this level, or to an odd one.
fn below(text: &mut String, level: u64, parent: u8, mode: &str) -> Result<(), AllocError> {
    let even = even_of(level);
    open(text, "{\"choice\":[")?;
    for region in [even, even.saturating_add(1)] {
        open(text, "[")?;
        if level == 0 {
            take(text, region, mode)?;
            give(text, parent)?;
            give(text, region)?;
        } else {
            take(text, region, "S")?;
            give(text, parent)?;
            below(text, level - 1, region, mode)?;
        }
        text.push(']')?;
    }
    text.push_str("]}")
}

/// A descent, and then twelve leaves, or fewer, one after another.
fn scan(text: &mut String) -> Result<(), AllocError> {
    let even = even_of(0);
    descent(text, "S")?;
    open(text, "{\"body\":[{\"choice\":[[")?;
    take(text, even, "S")?;
    give(text, even)?;
    text.push_str("],[")?;
    take(text, even.saturating_add(1), "S")?;
    give(text, even.saturating_add(1))?;
    text.push_str("],[]]}],\"loop\":12}")
}

/// The map, the root, and of each level a node and a page that is free, all latched X at once.
fn splitting(text: &mut String) -> Result<(), AllocError> {
    holding(text)?;
    for height in 1..=LEVELS {
        open(text, "[")?;
        for level in (0..height).rev() {
            take_level(text, level)?;
        }
        for level in 0..height {
            give_level(text, level)?;
        }
        text.push(']')?;
    }
    letting_go(text)
}

/// The map, the root, and two pages that are free, of the level below the root when that has grown.
fn growing(text: &mut String) -> Result<(), AllocError> {
    holding(text)?;
    for level in 1..LEVELS {
        open(text, "[")?;
        take_level(text, level)?;
        give_level(text, level)?;
        text.push(']')?;
    }
    letting_go(text)
}

/// The map and the root latched X, and a choice that begins.
fn holding(text: &mut String) -> Result<(), AllocError> {
    take(text, 0, "X")?;
    take(text, 1, "X")?;
    open(text, "{\"choice\":[")
}

/// The end of the choice, and of the latches of the root and the map.
fn letting_go(text: &mut String) -> Result<(), AllocError> {
    text.push_str("]}")?;
    give(text, 1)?;
    give(text, 0)
}

/// An even and an odd page of the level, latched X.
fn take_level(text: &mut String, level: u64) -> Result<(), AllocError> {
    let even = even_of(level);
    take(text, even, "X")?;
    take(text, even.saturating_add(1), "X")
}

/// Both let go again.
fn give_level(text: &mut String, level: u64) -> Result<(), AllocError> {
    let even = even_of(level);
    give(text, even.saturating_add(1))?;
    give(text, even)
}
