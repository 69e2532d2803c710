//! Cues that look like chance.

use crate::plain::{Plain, Stage};
use crate::words::Word;
use pp_core::Held;
use pp_script::Cue;
use pp_test_plain::Chance;

/// A cue: mostly one that the worker's plan or its device asks, or a flush, and now and then any. Flushes begin more often than
/// their device answers, so that they hold frames.
pub fn pick(chance: &mut Chance, plain: &Plain) -> Cue {
    match chance.below(16) {
        0 => any(chance, plain),
        1 | 2 => flush(chance, plain),
        3 => Cue::FlushDevice,
        _ => {
            let worker = worker_of(chance, plain);
            own(chance, plain, worker)
        }
    }
}

/// A worker: mostly one that is in a plan.
fn worker_of(chance: &mut Chance, plain: &Plain) -> u32 {
    for _ in 0..2 {
        let worker = chance.below(plain.crew);
        if !matches!(plain.stage(worker), Some(Stage::Idle)) {
            return worker;
        }
    }
    chance.below(plain.crew)
}

/// A flush of a page that is dirty, where one of three is.
fn flush(chance: &mut Chance, plain: &Plain) -> Cue {
    for _ in 0..3 {
        let page = chance.below(plain.size);
        if plain.is_dirty(page) {
            return Cue::Flush { page };
        }
    }
    Cue::Flush {
        page: chance.below(plain.size),
    }
}

/// What the worker, or the device for it, is to do. One that leaves now and then lets go of any slot.
fn own(chance: &mut Chance, plain: &Plain, worker: u32) -> Cue {
    match plain.stage(worker) {
        Some(Stage::Writing { .. } | Stage::Reading { .. }) => Cue::Device { worker },
        Some(Stage::Leaving) if chance.below(4) == 0 => {
            let slot = chance.below(5);
            Cue::Unwind { worker, slot }
        }
        Some(Stage::Leaving) => plain.leave(worker),
        Some(Stage::Acting) => act(chance, plain, worker),
        Some(Stage::Idle) | None => Cue::Take { worker },
    }
}

/// What the worker's plan asks; or now and then that it writes or looks at a page that it has latched.
fn act(chance: &mut Chance, plain: &Plain, worker: u32) -> Cue {
    if chance.below(3) == 0 {
        for holding in &plain.holdings {
            if holding.worker == worker && holding.held == Held::X {
                let (slot, byte) = (holding.slot, byte_of(chance));
                return Cue::Write { worker, slot, byte };
            }
            if holding.worker == worker && holding.held == Held::S {
                let slot = holding.slot;
                return Cue::Look { worker, slot };
            }
        }
    }
    match plain.word(worker) {
        Some(Word::Fix(_, region) | Word::Gather(_, region)) => {
            let page = page_of(chance, plain, region);
            Cue::Fix { worker, page }
        }
        Some(Word::Choice(_)) => Cue::Choose {
            worker,
            branch: chance.below(4),
        },
        _ => plain.act(worker),
    }
}

fn byte_of(chance: &mut Chance) -> u8 {
    chance.below(256).min(255) as u8
}

/// Some page of the region, the first one more often than others.
fn page_of(chance: &mut Chance, plain: &Plain, region: u8) -> u32 {
    let is_first = chance.below(3) == 0;
    match plain.regions.get(usize::from(region)) {
        Some(extent) if is_first => extent.first,
        Some(extent) => extent.first.saturating_add(chance.below(extent.count)),
        None => 0,
    }
}

/// Any cue, also of a worker, a page or a slot that isn't there.
fn any(chance: &mut Chance, plain: &Plain) -> Cue {
    let worker = chance.below(plain.crew.saturating_add(1));
    let page = chance.below(plain.size.saturating_add(2));
    let slot = chance.below(8);
    let branch = chance.below(3);
    let byte = byte_of(chance);
    match chance.below(13) {
        0 => Cue::Take { worker },
        1 => Cue::Fix { worker, page },
        2 => Cue::Device { worker },
        3 => Cue::Unfix { worker },
        4 => Cue::Latch { worker },
        5 => Cue::Unlatch { worker },
        6 => Cue::Choose { worker, branch },
        7 => Cue::Unwind { worker, slot },
        8 => Cue::Finish { worker },
        9 => Cue::Flush { page },
        10 => Cue::FlushDevice,
        11 => Cue::Write { worker, slot, byte },
        _ => Cue::Look { worker, slot },
    }
}
