//! An endless pool that a worker and a flusher serve by each of the two sites of pp_ledger.
//!
//! By a `LedgerSite` each full segment is written as text and audited at once, and its events are counted (`ledger`,
//! `texts`). By a `VaultSite` nobody keeps a journal (`vault`). Both serve the same plans (`plans`) with the same work
//! (`visits`), a turn at a time (`crew`).
//!
//! All that is printed can be counted by hand. There are 3 frames. 500 plans write a leaf and make 7 moves; 500 go by
//! the root to a leaf, which they write, and make 11. Each of the 1,000 leaves is read, as it comes again only after
//! seven others. The root is read once, with one move more, and stays.
//!
//! Four plans make a round. The third leaf has the first one written back, and the fourth the second: 500 moves more.
//! The third and the fourth are flushed, with two moves each: 1,000 more. So there are 10,501 moves, and with the
//! submits 11,501 events: 179 segments of 64, and one of 45. Each segment's text has one line more, its head.
#![tactic(auto)]

mod crew;
mod ledger;
mod plans;
mod texts;
mod vault;
mod visits;

/// Prints what each of the two came to.
fn main(rt: HostRuntime) -> anyhow::Result<()> {
    let alloc = rt.alloc();
    print!(rt; "{}", ledger::served(alloc)?)?;
    println!(rt; "{}", vault::served(alloc)?)?;
    Ok(())
}
