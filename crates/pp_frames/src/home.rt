//! In which frame a page stands, as a number of 32 bits: 0 for none, and else one more than the frame's.

ghost use Rattle.std.specs.Prelude.{◌≡◌, ◌+◌, ◌<◌, ◌^◌, IfSome, IfOk, replicate};
ghost use Rattle.pp_frames.specs.Arrays.{frame_at};

use std::alloc::{AllocError, Global};

/// The frame that this number stands for.
#[inline(always)]
pub(crate) fn frame_at(home: u32) -> Option<u32>
    ensures { result ≡ frame_at home }
{
    if home == 0 { None } else { Some(home - 1) }
}

/// The number that stands for this frame.
#[inline(always)]
pub(crate) fn home_for(frame: Option<u32>) -> u32
    requires { IfSome frame (λ f. f + 1 < 2 ^ 32) }
    ensures { frame_at result ≡ frame }
{
    match frame {
        Some(frame) => frame + 1,
        None => 0,
    }
}

/// So many pages in no frame.
pub(crate) fn no_homes(alloc: Global, pages: u32) -> Result<Vec<u32>, AllocError>
    ensures { IfOk result (λ homes. homes.items ≡ replicate pages 0) }
{
    vec![in alloc; 0; pages as usize]
}

/// So many stamps, of which none is known.
pub(crate) fn no_stamps(alloc: Global, pages: u32) -> Result<Vec<u64>, AllocError>
    ensures { IfOk result (λ stamps. stamps.items ≡ replicate pages 0) }
{
    vec![in alloc; 0; pages as usize]
}
