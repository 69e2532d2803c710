//! Marks alone: which frame has a page, who uses it, and whether it must be written back.

ghost use Rattle.std.specs.Prelude.{◌<◌, IfOk, IfSome};

use pp_frames::{Marks, Mode};
use std::alloc::{AllocError, Global};

/// How many frames there are, and how many pages.
const FRAMES: u32 = 3;

const PAGES: u32 = 24;

/// Places the page in a free frame, uses it under an X latch, and gives it back. Answers the frame; `None` where none
/// is free.
///
/// Each condition of a call, as "pinned before latched", is proved here from what the calls before it promise.
pub fn load(alloc: Global, page: u32) -> Result<Option<u32>, AllocError>
    requires { page < 24 }
    ensures { IfOk result (λ frame. IfSome frame (λ frame. frame < 3)) }
{
    let mut marks = Marks::new(alloc, FRAMES, PAGES)?;
    let Some(frame) = marks.least_free() else {
        return Ok(None);
    };
    marks.place(page, frame);
    marks.pin(page);
    if marks.grant(page, Mode::X) {
        marks.set_dirty(page);
        marks.release(page, Mode::X);
    }
    marks.unpin(page);
    Ok(Some(frame))
}
