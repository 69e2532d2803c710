//! Tests of a pool that stands, above the library so that it isn't proved twice.
//!
//! They are of what no clause says: that each thread that sleeps is woken, that calls come to an end and answer what
//! they should, and that no change is lost. Every test is watched, so that a hang is a failure.
//!
//! A test is data, a `Scene`: a pool, what each of its threads does, what they wait for, what devices do amiss, and
//! what is counted afterwards. One work, one device and one function serve them all, since each function of a test is
//! proved as well.
//!
//! Which line that is left out fails which test stands in `planted/by-tests/pp_buffer_pool`: each edit there names
//! its scene.
#![tactic(auto)]

#[cfg(test)]
mod board;
#[cfg(test)]
mod checkpoints;
#[cfg(test)]
mod closing;
#[cfg(test)]
mod copying;
#[cfg(test)]
mod flushing;
#[cfg(test)]
mod many;
#[cfg(test)]
mod medium;
#[cfg(test)]
mod opening;
#[cfg(test)]
mod player;
#[cfg(test)]
mod scene;
#[cfg(test)]
mod serving;
#[cfg(test)]
mod starting;
#[cfg(test)]
mod stopping;
#[cfg(test)]
mod threads;
#[cfg(test)]
mod waking;
#[cfg(test)]
mod watched;
