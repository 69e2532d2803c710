//! Whom a call has told that they can go on.

ghost use Rattle.std.specs.Prelude.{◌≡◌};
ghost use Rattle.pp_steps.specs.Ringing.{nobody};

use pp_wants::Wakes;

/// Whom a call has told. Who makes the call rings their bells, before its own thread sleeps.
///
/// The compiler refuses code that lets it fall.
#[derive(Debug)]
pub struct Rings {
    /// The bells of those that run: a bit for each.
    pub running: Wakes,
    /// The bell of the one that may start, if it was asleep.
    pub next: Option<u32>,
    /// Whether each that waits to start is to be woken.
    pub all: bool,
    /// Whether the flusher is.
    pub flusher: bool,
}

impl Rings {
    /// Nobody was told.
    pub fn nobody() -> Rings
        ensures { result ≡ nobody }
    {
        Rings {
            running: Wakes::none(),
            next: None,
            all: false,
            flusher: false,
        }
    }
}
