//! What a lock costs that is always taken by some thread.

use crate::trouble::Trouble;
use std::alloc::Global;
use std::sync::{Mutex, Wait};
use std::thread::{self, Threads};
use std::time::{Clock, Instant};

/// How many nanoseconds so many threads take to lock and unlock one lock so often each. Under the lock each adds 1.
pub fn nanos<R: Threads + Wait + Clock + Sync>(
    rt: &R,
    alloc: Global,
    threads: u32,
    times: u64,
) -> Result<u64, Trouble> {
    let lock = Mutex::new(0u64);
    let started = Instant::now(rt)?;
    let counts = thread::map_indices(
        rt,
        alloc,
        threads as usize,
        &|_thread| count(rt, &lock, times),
    )?;
    let spent = started.elapsed(rt)?;
    drop(counts);
    Ok(u64::try_from(spent.as_nanos()).unwrap_or(u64::MAX))
}

/// Takes the lock so often, adds 1, and lets go. Answers what was there last.
fn count<R: Wait>(rt: &R, lock: &Mutex<u64>, times: u64) -> u64 {
    let mut last = 0;
    for _ in 0..times {
        let mut held = lock.lock(rt);
        last = held.wrapping_add(1);
        *held = last;
    }
    last
}
