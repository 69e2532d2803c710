//! Walks endless pools by chance, and has their journals audited as text, segment by segment and all together.
//!
//! Each segment is taken out when it is full or earlier, and its text is audited at once; what the audit has come to is
//! compared with the ledger (`walk`). Then texts are spoiled, a line each, and the audit's first fault is compared with
//! that of a plain reading, which writes each line anew (`spoiling`, `plain`). What a full ledger refuses stands by
//! itself (`full`).
#![tactic(auto)]

mod common;
mod full;
mod plain;
mod pools;
mod seen;
mod spoiling;
mod walk;

/// Prints what came of each.
fn main(rt: HostRuntime) -> anyhow::Result<()> {
    let alloc = rt.alloc();
    println!(rt; "{}", full::refused(alloc)?)?;
    println!(rt; "{}", walk::walked(alloc)?)?;
    println!(rt; "{}", spoiling::spoiled(alloc)?)?;
    Ok(())
}
