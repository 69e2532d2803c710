//! How long plans took.

use std::alloc::{AllocError, Global};
use std::time::{Clock, Instant};

/// How long plans took, in nanoseconds.
#[derive(Drop)]
pub struct Times {
    nanos: Vec<u64>,
}

impl Times {
    /// None yet, with room for so many.
    pub fn with_room(alloc: Global, room: usize) -> Result<Times, AllocError> {
        Ok(Times {
            nanos: Vec::with_capacity(alloc, room)?,
        })
    }

    /// Notes a plan that began then and has just ended; not where the clock can't be read, or there is no room.
    pub fn note(&mut self, clock: &impl Clock, began: Instant) {
        if let Ok(time) = began.elapsed(clock) {
            if self.nanos.len() < self.nanos.capacity() {
                self.nanos
                    .push_reserved(u64::try_from(time.as_nanos()).unwrap_or(u64::MAX));
            }
        }
    }

    /// Notes all that these have noted.
    pub fn add(&mut self, times: &Times) -> Result<(), AllocError> {
        for nanos in &times.nanos {
            self.nanos.push(*nanos)?;
        }
        Ok(())
    }

    /// In rising order.
    pub fn sort(&mut self) {
        self.nanos.sort_unstable();
    }

    /// No more than so many hundredths of the plans took longer than this, the least such time of a plan, where they
    /// were sorted; 0 where there is none.
    pub fn at(&self, hundredths: usize) -> u64 {
        let count = self.nanos.len();
        let longer = count.saturating_mul(hundredths) / 100;
        let place = count.saturating_sub(1).saturating_sub(longer);
        self.nanos.get(place).copied().unwrap_or(0)
    }
}
