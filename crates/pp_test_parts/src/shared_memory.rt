//! Ends onto one memory.

use crate::common::same;
use crate::shared::{BLANK, BYTES, CHANGED, ends_of_memory, reads, refuses, writes};
use pp_shared::SharedDevice;
use std::test::*;

#[test]
fn ends_of_a_memory_see_each_others_writings(rt: HostRuntime) {
    let (mut one, mut other) = ends_of_memory(&rt, 2);
    reads(&rt, &mut one, 1, &BLANK);
    reads(&rt, &mut other, 0, &[0; BYTES]);
    writes(&rt, &mut one, 1, &CHANGED, Ok(()));
    reads(&rt, &mut other, 1, &CHANGED);
    writes(&rt, &mut other, 1, &BLANK, Ok(()));
    reads(&rt, &mut one, 1, &BLANK);
    reads(&rt, &mut one, 0, &[0; BYTES]);
}

#[test]
fn memory_refuses_other_pages_and_other_lengths(rt: HostRuntime) {
    let (mut one, mut other) = ends_of_memory(&rt, 2);
    refuses(&rt, &mut one);
    reads(&rt, &mut other, 0, &[0; BYTES]);
    reads(&rt, &mut other, 1, &BLANK);
}

#[test]
fn memory_outlives_all_ends_but_one(rt: HostRuntime) {
    let (mut one, mut other) = ends_of_memory(&rt, 3);
    writes(&rt, &mut one, 1, &CHANGED, Ok(()));
    drop(one);
    reads(&rt, &mut other, 1, &CHANGED);
}

#[test]
fn no_ends_of_no_pages_are_made(rt: HostRuntime) {
    let none = SharedDevice::over_memory(rt, rt.alloc(), 0, 12, 0).map(|ends| ends.len());
    same(&rt, none, Ok(0));
}
