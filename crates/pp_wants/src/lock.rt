//! How a thread takes a lock that is mostly held for a short time.

use std::hint::spin_loop;
use std::sync::{Mutex, MutexGuard, Wait};
use std::thread::yield_now;

/// How many times a thread pauses in one rest: for about as long as the lock is mostly held, some hundred nanoseconds. Tries
/// that came more often would hold up the thread that has it, since each wants the lock's word for itself.
const PAUSES: u32 = 20;

/// How often the lock is tried with one rest before it, and from then on with twice as many rests before each try. Where it is
/// held now and then, one of these first tries has it. Where all want it all the time, each of them would take it away from a
/// thread that is about to want it again, and with it all that it guards goes from one processor's cache to another's.
const SOON: u32 = 4;

/// How many rests there are at most before a try: some fifty microseconds. So where all want the lock, a thread takes it many
/// times before another does, and four threads do half as much again as with rests of one length. Longer ones gain little more,
/// and the longest waits grow with them.
const LONGEST: u32 = 256;

/// After so many rests the processor is yielded, so that the thread that has the lock can run where it doesn't: after some
/// thirteen microseconds.
const TURN: u32 = 64;

/// How often it is tried in all, for a millisecond or two, before the thread sleeps. A waiter that slept, and finds the lock taken
/// when it wakes, has it handed over next, so that everybody waits for its waking.
const TRIES: u32 = 40;

/// Takes the lock. Who has it mostly lets go sooner than a thread could fall asleep and be woken, so it is tried for a
/// while first.
#[inline(always)]
pub fn hold<'a, T, R: Wait>(rt: &R, lock: &'a Mutex<T>) -> MutexGuard<'a, T> {
    match lock.try_lock() {
        Some(locked) => locked,
        None => hold_later(rt, lock),
    }
}

/// The same, where the first try has failed.
#[inline(never)]
fn hold_later<'a, T, R: Wait>(rt: &R, lock: &'a Mutex<T>) -> MutexGuard<'a, T> {
    let mut rests = 1u32;
    for tried in 0..TRIES {
        rest(rests);
        if let Some(locked) = lock.try_lock() {
            return locked;
        }
        if tried + 1 >= SOON {
            rests = rests.saturating_mul(2).min(LONGEST);
        }
    }
    lock.lock(rt)
}

/// Rests so many times.
fn rest(times: u32) {
    for time in 0..times {
        for _ in 0..PAUSES {
            spin_loop();
        }
        if time % TURN == TURN - 1 {
            yield_now();
        }
    }
}
