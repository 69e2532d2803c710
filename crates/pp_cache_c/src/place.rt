//! Where a page is, as C sees it.

ghost use Rattle.std.specs.Prelude.{◌≡◌, Option};
ghost use Rattle.pp_cache.specs.declared.left.Left.{Left};
ghost use Rattle.pp_cache_c.specs.Calls.{place_of};

use pp_cache::Left;

/// The key that stands for none: the greatest number of 32 bits. No page has it, since keys are below `MOST_KEYS`.
pub const NO_KEY: u32 = 4_294_967_295;

/// The frame in which a fetch pinned a page, and who left for it.
#[repr(C)]
#[derive(Clone, Copy, Debug, PartialEq, Eq)]
pub struct Place {
    /// The page's frame.
    pub frame: u32,
    /// The key of the page that left for it, and 4,294,967,295 where none did.
    pub left_key: u32,
    /// The frame that this page had, and 0 where none left.
    pub left_frame: u32,
}

impl Place {
    /// The place of a page in this frame, for which this page left.
    pub(crate) fn of(frame: u32, left: Option<Left>) -> Place
        ensures { result ≡ place_of frame left }
    {
        match left {
            Some(left) => Place {
                frame,
                left_key: left.key,
                left_frame: left.frame,
            },
            None => Place {
                frame,
                left_key: NO_KEY,
                left_frame: 0,
            },
        }
    }
}
