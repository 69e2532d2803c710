//! What a full ledger refuses, and which segments it goes on in.

use crate::common::same;
use crate::pools::POOLS;
use crate::seen::told;
use pp_ledger::{LedgerError, Segment};
use pp_pool::Turned;
use pp_test_plain::Chance;
use pp_test_stand::Stand;
use std::alloc::Global;

/// How a turn of worker 0 ends.
fn turned(stand: &mut Stand) -> Turned {
    stand.work(0, 1, &mut Chance::new())
}

/// Sees that the ledger doesn't go on in this segment, which comes back as it was.
fn see_kept(stand: &mut Stand, given: Segment) -> anyhow::Result<()> {
    let want = (
        given.number(),
        given.events().len(),
        given.events().capacity(),
    );
    let before = (
        stand.ledger.segment().number(),
        stand.ledger.len(),
        stand.ledger.capacity(),
    );
    let Err(back) = stand.ledger.take_segment(given) else {
        anyhow::bail!("a ledger goes on in a segment of {} events", want.1);
    };
    let after = (
        stand.ledger.segment().number(),
        stand.ledger.len(),
        stand.ledger.capacity(),
    );
    same("the segment of the ledger", after, before)?;
    same(
        "the segment that comes back",
        (back.number(), back.events().len(), back.events().capacity()),
        want,
    )
}

/// Sees that the ledger is full, and refuses a submit and a turn.
fn see_full(stand: &mut Stand, events: usize) -> anyhow::Result<()> {
    let before = told(stand.ledger.vault().core());
    same("whether it is full", stand.ledger.is_full(), true)?;
    same("a submit", stand.submit(0), Err(LedgerError::SegmentFull))?;
    same("a turn", turned(stand), Turned::NotNow)?;
    same("how many events it has", stand.ledger.len(), events)?;
    same(
        "what it has come to",
        told(stand.ledger.vault().core()),
        before,
    )
}

/// A ledger with room for none, then for two, and then for one.
fn refuse(alloc: Global, stand: &mut Stand) -> anyhow::Result<()> {
    see_full(stand, 0)?;
    see_kept(stand, Segment::with_room(alloc, 0)?)?;
    let none = stand.take_segment(2)?;
    same(
        "the first segment",
        (none.number(), none.plans_before(), none.events().len()),
        (0, 0, 0),
    )?;
    same("a submit", stand.submit(0), Ok(0))?;
    same("a turn", turned(stand), Turned::Done)?;
    see_full(stand, 2)?;
    see_kept(stand, none)?;
    let two = stand.take_segment(1)?;
    same(
        "the second segment",
        (two.number(), two.plans_before(), two.events().len()),
        (1, 0, 2),
    )?;
    same("a turn", turned(stand), Turned::Done)?;
    see_full(stand, 1)?;
    see_kept(stand, two)
}

/// Tells what came of a full ledger.
pub fn refused(alloc: Global) -> anyhow::Result<String> {
    let pool = &POOLS[0];
    let settings = pool.settings(alloc)?;
    let mut stand = pool.stand(alloc, &settings, &mut Chance::new(), 0)?;
    let refused = refuse(alloc, &mut stand);
    let last = stand.end();
    refused?;
    same(
        "the last segment",
        (last.number(), last.plans_before(), last.events().len()),
        (2, 1, 1),
    )?;
    Ok(String::from_str(
        alloc,
        "a full ledger refuses submits and turns, and goes on in a segment that is empty and has room",
    )?)
}
