//! Compares the pool's parts with plain, slow programs, and prints what came.
//!
//! Rows on a core come first (`rows`). Then moves that look like chance are made on cores, and cores are driven to their end
//! (`cores`, `ends`). A few plans are submitted to a core again and again, in a life that doesn't end (`endless`). Scripts are
//! played over devices that fail or lie at one call (`scripts`), and pools live lives by chance (`lives`).
//!
//! Where a number is given on the command line, so many plans are submitted to a core in a life that doesn't end, and nothing else is
//! done.
//!
//! Beside cores and vaults stands one plain pool (`plain`), which keeps lists of what is held, cached, changed and known, and
//! goes through them for each answer; a vault's has the bytes as well, over a plain device (`store`). They share nothing with
//! the pool but the moves, the cues and the replies. ARC's plain lists are those of pp_test_plain.
#![tactic(auto)]

mod common;
mod cores;
mod endless;
mod ends;
mod facts;
mod host;
mod kept;
mod kinds;
mod lives;
mod lives_counts;
mod picking;
mod plain;
mod plans;
mod pools;
mod rows;
mod rows_host;
mod scenario;
mod scripts;
mod shape;
mod stand;
mod store;
mod turns;
mod words;

use std::env;

/// Prints the rows, and what came of each walk.
fn run<R: std::rt::Files + Print + AllocGlobal>(rt: &R) -> anyhow::Result<()> {
    rows::print_all(rt)?;
    rt.println(cores::walked(rt.alloc())?)?;
    rt.println(endless::walked(rt.alloc(), endless::SUBMITS)?)?;
    rt.println(endless::waited(rt.alloc())?)?;
    rt.println(scripts::played(rt)?)?;
    rt.println(lives::lived(rt.alloc())?)?;
    Ok(())
}

fn main(rt: HostRuntime) -> anyhow::Result<()> {
    let words: Vec<String> = env::args(&rt)?.collect(rt.alloc())?;
    match words.get(1) {
        Some(submits) => Ok(rt.println(endless::walked(rt.alloc(), submits.parse()?)?)?),
        None => run(&rt),
    }
}
