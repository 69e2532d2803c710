//! Whom a call has told, as C sees it.

ghost use Rattle.std.specs.Prelude.{◌≡◌};
ghost use Rattle.pp_pool_c.specs.Asks.{told_of, told_nobody};

use pp_steps::Rings;

/// No bell, and no page: the greatest number of 32 bits. Bells are below 65,536, and pages below 4,294,967,292.
pub const NOBODY: u32 = 4_294_967_295;

/// Whom a call has told that they can go on.
#[repr(C)]
#[derive(Clone, Copy, Debug, PartialEq, Eq)]
pub struct Told {
    /// The bells of those that run: a bit for each.
    pub running: u32,
    /// The bell of the one that may start; 4,294,967,295 for none.
    pub next: u32,
    /// 1 where each that waits to start is to be woken.
    pub all: u32,
    /// 1 where the flusher is.
    pub flusher: u32,
}

impl Told {
    /// Nobody.
    pub(crate) fn nobody() -> Told
        ensures { result ≡ told_nobody }
    {
        Told {
            running: 0,
            next: NOBODY,
            all: 0,
            flusher: 0,
        }
    }

    /// Those of these rings.
    pub(crate) fn of(rings: Rings) -> Told
        ensures { result ≡ told_of rings }
    {
        let Rings {
            running,
            next,
            all,
            flusher,
        } = rings;
        Told {
            running: running.into_mask(),
            next: next.unwrap_or(NOBODY),
            all: u32::from(all),
            flusher: u32::from(flusher),
        }
    }
}
