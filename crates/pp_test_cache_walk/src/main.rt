//! Compares the page cache with a plain, slow program, and prints what came.
//!
//! Calls that look like chance are made on both (`walk`). The plain one (`plain`) keeps a vector of pages beside ARC's plain lists,
//! those of pp_test_plain, and goes through them for each answer.
#![tactic(auto)]

mod plain;
mod walk;

/// Prints what came of the walk.
fn run<R: Print + AllocGlobal>(rt: &R) -> anyhow::Result<()> {
    rt.println(walk::walked(rt.alloc())?)?;
    Ok(())
}

fn main(rt: HostRuntime) -> anyhow::Result<()> {
    run(&rt)
}
