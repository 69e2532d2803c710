//! Cues.

ghost use Rattle.std.specs.Prelude.{Some};

use std::fmt;

/// One cue of a script: what a worker, or the flusher, does next.
#[derive(Clone, Copy, Debug, PartialEq, Eq)]
pub enum Cue {
    /// The worker takes the first plan that waits.
    Take { worker: u32 },
    /// The worker fixes the page.
    Fix { worker: u32, page: u32 },
    /// The device carries out the worker's errand, and the pool gets the answer.
    Device { worker: u32 },
    /// The worker unfixes, as its plan asks.
    Unfix { worker: u32 },
    /// The worker latches, as its plan asks.
    Latch { worker: u32 },
    /// The worker unlatches, as its plan asks.
    Unlatch { worker: u32 },
    /// The worker goes on with this branch of a choice.
    Choose { worker: u32, branch: u32 },
    /// The worker, which leaves its plan, lets go of the slot.
    Unwind { worker: u32, slot: u32 },
    /// The worker ends its plan.
    Finish { worker: u32 },
    /// A flush of the page begins.
    Flush { page: u32 },
    /// The device carries out the flush, and the pool gets the answer.
    FlushDevice,
    /// The worker sets the first byte of the body of the slot's page.
    Write { worker: u32, slot: u32, byte: u8 },
    /// The worker looks at the first byte of the body of the slot's page.
    Look { worker: u32, slot: u32 },
}

/// Writes the cue as a script spells it, such as `fix 0 16`.
impl fmt::Display for Cue {
    ghost use Rattle.pp_script.specs.Cues.{cue_text};

    ghost output = { λ cue. Some (cue_text cue) };

    fn fmt<W: fmt::Write>(&self, f: &mut fmt::Formatter<W>) -> fmt::Result {
        match *self {
            Cue::Take { worker } => write!(f, "take {worker}"),
            Cue::Fix { worker, page } => write!(f, "fix {worker} {page}"),
            Cue::Device { worker } => write!(f, "device {worker}"),
            Cue::Unfix { worker } => write!(f, "unfix {worker}"),
            Cue::Latch { worker } => write!(f, "latch {worker}"),
            Cue::Unlatch { worker } => write!(f, "unlatch {worker}"),
            Cue::Choose { worker, branch } => write!(f, "choose {worker} {branch}"),
            Cue::Unwind { worker, slot } => write!(f, "unwind {worker} {slot}"),
            Cue::Finish { worker } => write!(f, "finish {worker}"),
            Cue::Flush { page } => write!(f, "flush {page}"),
            Cue::FlushDevice => f.write_str("flushdevice"),
            Cue::Write { worker, slot, byte } => write!(f, "write {worker} {slot} {byte}"),
            Cue::Look { worker, slot } => write!(f, "look {worker} {slot}"),
        }
    }
}
