//! What may be asked of the pool.

ghost use Rattle.std.specs.Prelude.{◌≡◌, Some};
ghost use Rattle.pp_model.specs.Words.{written_word};

use std::fmt;

/// What a device gave where it was asked to read a page.
#[derive(Clone, Copy, Debug, PartialEq, Eq)]
pub enum Came {
    /// Nothing: the device failed.
    Fault,
    /// An image with this page number and this stamp in its head.
    Image(u32, u64),
}

impl fmt::Display for Came {
    ghost use Rattle.pp_model.specs.Words.{came_words};

    ghost output = { λ came. Some (came_words came) };

    fn fmt<W: fmt::Write>(&self, f: &mut fmt::Formatter<W>) -> fmt::Result {
        match self {
            Came::Fault => f.write_str("fault"),
            Came::Image(page, stamp) => write!(f, "{page} {stamp}"),
        }
    }
}

/// A move of a worker, of the device that answers it, or of the flusher. Workers, plans, branches and slots count from
/// 0.
#[derive(Clone, Copy, Debug, PartialEq, Eq)]
pub enum Move {
    /// An idle worker takes the first plan that waits.
    Take { worker: u32 },
    /// A worker fixes a page into the slot that its plan names.
    Fix { worker: u32, page: u32 },
    /// The device has written a worker's victim back, or has failed to.
    WriteDone { worker: u32, ok: bool },
    /// The device has read a worker's page, or has failed to.
    ReadDone { worker: u32, came: Came },
    /// A worker gives the page of the slot back that its plan names, or all pages of the bundle.
    Unfix { worker: u32 },
    /// A worker latches the page of the slot that its plan names, in the mode that it names.
    Latch { worker: u32 },
    /// A worker takes the latch off the page of the slot that its plan names.
    Unlatch { worker: u32 },
    /// A worker goes on with this branch of a choice.
    Choose { worker: u32, branch: u32 },
    /// A worker that leaves its plan after a failed fix gives a slot back, with its latch and all its pins.
    Unwind { worker: u32, slot: u32 },
    /// A worker is done with its plan, or has left it.
    Finish { worker: u32 },
    /// The flusher begins to write a changed page to the device.
    FlushBegin { page: u32 },
    /// The device has written the flusher's page, or has failed to.
    FlushDone { ok: bool },
}

/// How a writing went, as a line prints it.
fn written_word(ok: bool) -> &'static str
    ensures { result.now ≡ written_word ok }
{
    if ok { "ok" } else { "bad" }
}

impl fmt::Display for Move {
    ghost use Rattle.pp_model.specs.Words.{move_words};

    ghost output = { λ m. Some (move_words m) };

    fn fmt<W: fmt::Write>(&self, f: &mut fmt::Formatter<W>) -> fmt::Result {
        match self {
            Move::Take { worker } => write!(f, "take {worker}"),
            Move::Fix { worker, page } => write!(f, "fix {worker} {page}"),
            Move::WriteDone { worker, ok } => write!(f, "wrote {worker} {}", written_word(*ok)),
            Move::ReadDone { worker, came } => write!(f, "came {worker} {came}"),
            Move::Unfix { worker } => write!(f, "unfix {worker}"),
            Move::Latch { worker } => write!(f, "latch {worker}"),
            Move::Unlatch { worker } => write!(f, "unlatch {worker}"),
            Move::Choose { worker, branch } => write!(f, "choose {worker} {branch}"),
            Move::Unwind { worker, slot } => write!(f, "unwind {worker} {slot}"),
            Move::Finish { worker } => write!(f, "finish {worker}"),
            Move::FlushBegin { page } => write!(f, "flush {page}"),
            Move::FlushDone { ok } => write!(f, "flushed {}", written_word(*ok)),
        }
    }
}
