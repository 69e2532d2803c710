//! What is kept of one frame: 12 bytes.

ghost use Rattle.std.specs.Prelude.{◌≡◌, ◌<◌, ◌≤◌, ◌^◌, true, IsTrue, IfOk, replicate};
ghost use Rattle.pp_frames.specs.Marks.{Shared, Exclusive, latch_count, is_compatible, has_latch};
ghost use Rattle.pp_frames.specs.Arrays.{latches_at, not_held};

use crate::mode::Mode;
use std::alloc::{AllocError, Global};

/// How the page in a frame is held: its pins and its latches.
///
/// It has readers only where `has_writer` is not set.
#[derive(Clone, Copy)]
pub(crate) struct Held {
    pub(crate) pins: u32,
    pub(crate) readers: u32,
    pub(crate) has_writer: bool,
}

impl Held {
    /// No pin, and no latch.
    pub(crate) fn not_at_all() -> Held
        ensures { result ≡ not_held }
    {
        Held {
            pins: 0,
            readers: 0,
            has_writer: false,
        }
    }

    /// How many latches stand on the page.
    pub(crate) fn latches(self) -> u32
        ensures { result ≡ latch_count (latches_at self) }
    {
        if self.has_writer { 1 } else { self.readers }
    }

    /// Whether a latch of this mode stands on the page.
    pub(crate) fn has_latch(self, mode: Mode) -> bool
        ensures { result ≡ has_latch mode (latches_at self) }
    {
        match mode {
            Mode::S => !self.has_writer && self.readers > 0,
            Mode::X => self.has_writer,
        }
    }

    /// Whether a latch of this mode goes with those that stand on the page.
    pub(crate) fn goes(self, mode: Mode) -> bool
        ensures { result ≡ is_compatible mode (latches_at self) }
    {
        match mode {
            Mode::S => !self.has_writer,
            Mode::X => !self.has_writer && self.readers == 0,
        }
    }

    /// The same pins, and the latch of a writer alone.
    pub(crate) fn with_writer(self) -> Held
        ensures pins { result.pins ≡ self.pins }
        ensures latches { latches_at result ≡ Exclusive }
    {
        Held {
            has_writer: true,
            ..self
        }
    }

    /// The same pins without the writer's latch, and with no other.
    pub(crate) fn without_writer(self) -> Held
        ensures pins { result.pins ≡ self.pins }
        ensures latches { latches_at result ≡ Shared 0 }
    {
        Held {
            readers: 0,
            has_writer: false,
            ..self
        }
    }
}

/// So many frames, of which none is held.
pub(crate) fn frames_at_rest(alloc: Global, frames: u32) -> Result<Vec<Held>, AllocError>
    ensures { IfOk result (λ all. all.items ≡ replicate frames not_held) }
{
    vec![in alloc; Held::not_at_all(); frames as usize]
}
