//! The rounds of a call, and what is printed around each.
//!
//! What a round prints begins with a line `call` and goes on with a line `answer`, between which nothing takes memory but
//! the call; then comes what was answered. A line above `call` says how the values stand that the call is lent. Where the
//! call was refused, it is made again, on the same values if they came back.
//!
//! `.ci/memory` runs the program, and refuses each allocation between `call` and `answer` in turn.

use crate::tried::{Told, Tried};
use std::io;

/// Prints that a call begins: from here on memory may be refused.
///
/// # Errors
///
/// Where standard output can't be written.
pub fn begin<R: Print>(rt: &R) -> io::Result<()> {
    println!(rt; "call")
}

/// Prints that a call has ended, and what it came to. Answers whether it need not be made again.
///
/// # Errors
///
/// Where standard output can't be written.
pub fn end<R: Print, T: Told>(rt: &R, told: &T) -> io::Result<bool> {
    println!(rt; "answer")?;
    println!(rt; "{told}")?;
    Ok(told.is_last())
}

/// Makes a call at most so many times, until it need not be made again, and prints each round.
///
/// # Errors
///
/// Where standard output can't be written.
pub fn rounds<R: Print, T: Tried>(rt: &R, tried: &mut T, most: u32) -> anyhow::Result<()> {
    for _round in 0..most {
        if let Some(stand) = tried.stand() {
            println!(rt; "stand: {stand}")?;
        }
        begin(rt)?;
        let told = tried.call();
        if end(rt, &told)? {
            break;
        }
    }
    Ok(())
}

/// Makes a call, and once more where it was refused, and prints each round.
///
/// # Errors
///
/// As [`rounds`].
pub fn twice<R: Print, T: Tried>(rt: &R, tried: &mut T) -> anyhow::Result<()> {
    rounds(rt, tried, 2)
}

/// Makes a call at most so many times, until it need not be made again, and prints nothing.
pub fn silently<T: Tried>(tried: &mut T, most: u32) {
    for _round in 0..most {
        if tried.call().is_last() {
            break;
        }
    }
}
