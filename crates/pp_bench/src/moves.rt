//! Plays a trace to the core of a pool, by its moves: each operation is a fix, an S latch, its unlatch, and an unfix.

ghost use Rattle.std.specs.Prelude.{◌≡◌, ◌≤◌, IfOk};
ghost use Rattle.pp_settings.specs.declared.span.Span.TheVariants.{Bounded};

use crate::trouble::Trouble;
use crate::watch::{self, Counted, Watch};
use crate::words;
use pp_bench_traces::{Kind, Trace};
use pp_core::{Accepted, Came, Core, Move, Reply};
use pp_settings::Settings;
use std::alloc::Global;

/// Plays the trace of the kind that the first word names, as many operations long as the second says, to a core of
/// 4,096 frames. Prints how many pages had to be read, and on standard error how many nanoseconds an operation took.
pub fn play(rt: &HostRuntime, words: &[String]) -> Result<(), Trouble> {
    let (kind, ops) = words::kind_and_ops(words)?;
    let (settings, accepted) = setting(rt.alloc(), ops)?;
    let mut core = new_core(rt.alloc(), &settings)?;
    play_to(rt, &mut core, accepted, kind, ops)
}

/// The settings of one worker, in which lives are bounded, and its plan of so many operations.
pub fn setting(alloc: Global, ops: u64) -> Result<(Settings, Accepted), Trouble>
    ensures { IfOk result (λ made. made.0.span ≡ Bounded) }
{
    let settings = pp_bench_traces::settings(alloc, 1)?;
    let accepted = pp_bench_traces::accepted(alloc, &settings, ops)?;
    Ok((settings, accepted))
}

/// A core that has done nothing yet.
pub fn new_core(alloc: Global, settings: &Settings) -> Result<Core, Trouble> {
    match Core::new(alloc, settings) {
        Ok(core) => Ok(core),
        Err(_) => Err(Trouble::Memory),
    }
}

/// Plays the trace to a new core, whose worker takes this plan.
fn play_to(
    rt: &HostRuntime,
    core: &mut Core,
    accepted: Accepted,
    kind: Kind,
    ops: u64,
) -> Result<(), Trouble> {
    begin(core, accepted)?;
    let watch = Watch::start(rt);
    let misses = misses(core, Trace::new(kind, 4096), ops).ok_or(Trouble::Refused)?;
    let nanos = watch.nanos(rt);
    watch::tell(rt, Counted::One(misses), nanos, ops, "an operation")
}

/// The worker takes the plan.
fn begin(core: &mut Core, accepted: Accepted) -> Result<(), Trouble> {
    if core.submit(accepted).is_err() {
        return Err(Trouble::Refused);
    }
    match core.step(&Move::Take { worker: 0 }) {
        Reply::Taken { .. } => Ok(()),
        _ => Err(Trouble::Refused),
    }
}

/// How many of the next operations of the trace have a page read; `None` where a move was refused.
fn misses(core: &mut Core, mut trace: Trace, ops: u64) -> Option<u64> {
    let mut count: u64 = 0;
    for _ in 0..ops {
        let page = trace.next_page();
        if !fix(core, page)? {
            count = count.wrapping_add(1);
        }
        use_page(core)?;
    }
    Some(count)
}

/// Fixes the page, and answers whether it was cached. A page that has to be read has stamp 0.
fn fix(core: &mut Core, page: u32) -> Option<bool> {
    match core.step(&Move::Fix { worker: 0, page }) {
        Reply::Hit { .. } => Some(true),
        Reply::MustRead { .. } => {
            let came = Came::Image(page, 0);
            match core.step(&Move::ReadDone { worker: 0, came }) {
                Reply::Loaded { .. } => Some(false),
                _ => None,
            }
        }
        _ => None,
    }
}

/// Latches the page, unlatches it and gives it back.
fn use_page(core: &mut Core) -> Option<()> {
    let Reply::Latched { .. } = core.step(&Move::Latch { worker: 0 }) else {
        return None;
    };
    let Reply::Unlatched { .. } = core.step(&Move::Unlatch { worker: 0 }) else {
        return None;
    };
    match core.step(&Move::Unfix { worker: 0 }) {
        Reply::Did => Some(()),
        _ => None,
    }
}
