//! The B+ tree of pp_btree, which four threads of the program use at once, and a hash join in a batch. Each query is a work
//! of its own, which goes from plan to plan.
//!
//! `pp_tree KEYS FRAMES EVERY` adds so many keys, finds, changes and scans them on one pool of so many frames, 8 or
//! more. It does so over a device that never fails, and then over one of which each call of each end fails whose number
//! is a multiple of EVERY, up to 499 calls of an end. It prints how many answers aren't those of a plain map, and whether
//! the tree is well-formed and has what the map has. Then it joins two tables. What depends on the schedule goes to
//! standard error.
//!
//! It is written to be copied; docs/embedding.md goes through it.
#![tactic(auto)]

mod batch;
mod hash_join;
mod passes;
mod tables;
mod trial;

use crate::batch::Stand;
use crate::hash_join::HashJoin;
use crate::trial::try_tree;
use anyhow::Context;
use pp_btree::accepted;
use pp_btree::regions::PAGE_BYTES;
use pp_cert::Accepted;
use pp_settings::Settings;
use pp_shared::SharedDevice;
use std::alloc::Global;
use std::env;
use std::rt::Env;
use std::sync::Wait;
use std::thread::Threads;

/// What the words of the command line ask for.
#[derive(Clone, Copy)]
struct Words {
    /// How many keys are added.
    keys: u64,
    /// How many frames the pool has.
    frames: u32,
    /// Which calls fail in the second trial: those whose number is a multiple of this.
    every: u32,
}

/// The words of the command line.
fn words_of(rt: &(impl Env + AllocGlobal)) -> anyhow::Result<Words> {
    let words: Vec<String> = env::args(rt)?.collect(rt.alloc())?;
    let (Some(keys), Some(frames), Some(every)) = (words.get(1), words.get(2), words.get(3)) else {
        anyhow::bail!("the words are KEYS FRAMES EVERY");
    };
    Ok(Words {
        keys: keys.as_str().parse().context("KEYS")?,
        frames: frames.as_str().parse().context("FRAMES")?,
        every: every.as_str().parse().context("EVERY")?,
    })
}

/// How many joins there are.
const JOINS: u32 = 2;

/// The joins, each with its plan.
fn joins(alloc: Global, settings: &Settings) -> anyhow::Result<Vec<(Accepted, HashJoin)>> {
    let mut asked = Vec::new(alloc);
    for _ in 0..JOINS {
        let plan = accepted(alloc, settings, hash_join::PLAN)?;
        asked.push((plan, HashJoin::new(alloc)?))?;
    }
    Ok(asked)
}

/// Runs the joins at once, and tells whether each finds what a plain loop finds.
fn try_join<R: AllocGlobal + Print + Threads + Wait + Sync>(rt: &R) -> anyhow::Result<()> {
    let alloc: Global = rt.alloc();
    let settings = Settings::from_text(alloc, hash_join::SETTINGS)?;
    let (pages, ends) = (
        hash_join::BUCKETS + hash_join::LINES,
        settings.workers() as usize,
    );
    let mut ends = SharedDevice::over_memory(rt, alloc, pages, PAGE_BYTES, ends.saturating_add(2))?;
    let Some(mut eye) = ends.pop() else {
        anyhow::bail!("the device has no end");
    };
    tables::write(&mut eye)?;
    let stand = Stand::open(alloc, &settings, ends)?;
    let (_stand, queries) = stand.run(rt, alloc, joins(alloc, &settings)?)?;
    let pairs = tables::joined();
    for query in queries {
        let is_same = query.work.joined() == Some(pairs);
        println!(rt;
            "join: {} pairs, as by a plain loop: {is_same}",
            pairs.count
        )?;
    }
    Ok(())
}

fn main(rt: HostRuntime) -> anyhow::Result<()> {
    let words = words_of(&rt)?;
    try_tree(&rt, words.keys, words.frames, None)?;
    try_tree(&rt, words.keys, words.frames, Some(words.every))?;
    try_join(&rt)
}
