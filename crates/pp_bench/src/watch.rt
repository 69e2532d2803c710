//! How long the operations of a run take, by the clock, and what is printed of a run.

use crate::trouble::Trouble;
use std::fmt;
use std::time::{Clock, Instant};

/// A watch that was started before the first operation, once all was set up.
///
/// It answers nothing where the clock can't be read, so that a run that is under way isn't broken off for it.
#[derive(Drop)]
pub struct Watch {
    started: Option<Instant>,
}

impl Watch {
    /// It starts now.
    pub fn start(clock: &impl Clock) -> Watch {
        Watch {
            started: Instant::now(clock).ok(),
        }
    }

    /// The nanoseconds since it was started.
    pub fn nanos(&self, clock: &impl Clock) -> Option<u128> {
        let started = self.started.as_ref()?;
        let spent = started.elapsed(clock).ok()?;
        Some(spent.as_nanos())
    }
}

/// What a run counted.
#[derive(Clone, Copy)]
pub enum Counted {
    One(u64),
    Two(u64, u64),
}

impl fmt::Display for Counted {
    fn fmt<W: fmt::Write>(&self, f: &mut fmt::Formatter<W>) -> fmt::Result {
        match self {
            Counted::One(count) => write!(f, "{count}"),
            Counted::Two(one, other) => write!(f, "{one} {other}"),
        }
    }
}

/// Prints what was counted, and says on standard error how many of these nanoseconds each one took.
pub fn tell(
    rt: &HostRuntime,
    counted: Counted,
    nanos: Option<u128>,
    count: u64,
    one: &str,
) -> Result<(), Trouble> {
    println!(rt; "{counted}")?;
    match nanos {
        Some(nanos) => {
            let each = nanos / u128::from(count.max(1));
            eprintln!(rt; "{each} ns {one}")?;
        }
        None => eprintln!(rt; "the clock can't be read")?,
    }
    Ok(())
}
