//! The marks of pages: a worked row, a large pool, and a walk beside a plain program.

use crate::common::same;
use crate::plain_marks::{Call, PlainMarks};
use pp_frames::{Marks, Mode};
use std::process::Abort;
use std::test::Fail;

// ---- each call with its conditions tested first, as a caller can

fn place(rt: &impl Abort, marks: &mut Marks, page: u32, frame: u32) {
    assert!(rt; page < marks.pages());
    assert!(rt; frame < marks.frames());
    assert!(rt; marks.is_free(frame));
    assert!(rt; marks.pins(page) == 0);
    marks.place(page, frame);
}

fn clear(rt: &impl Abort, marks: &mut Marks, page: u32) {
    assert!(rt; marks.pins(page) == 0);
    marks.clear(page);
}

fn pin(rt: &impl Abort, marks: &mut Marks, page: u32) {
    assert!(rt; marks.frame_of(page).is_some());
    assert!(rt; marks.all_pins() < marks.frames());
    marks.pin(page);
}

fn unpin(rt: &impl Abort, marks: &mut Marks, page: u32) {
    assert!(rt; marks.latches(page) < marks.pins(page));
    marks.unpin(page);
}

fn grant(rt: &impl Abort, marks: &mut Marks, page: u32, mode: Mode) -> bool {
    assert!(rt; marks.latches(page) < marks.pins(page));
    marks.grant(page, mode)
}

fn release(rt: &impl Abort, marks: &mut Marks, page: u32, mode: Mode) {
    assert!(rt; marks.is_latched(page, mode));
    marks.release(page, mode);
}

fn set_dirty(rt: &impl Abort, marks: &mut Marks, page: u32, is_dirty: bool) {
    assert!(rt; page < marks.pages());
    if is_dirty {
        marks.set_dirty(page);
    } else {
        marks.set_clean(page);
    }
}

fn set_stamp(rt: &impl Abort, marks: &mut Marks, page: u32, stamp: u64) {
    assert!(rt; page < marks.pages());
    marks.set_stamp(page, stamp);
}

/// Makes the call, and answers what it answered.
fn perform(rt: &impl Abort, marks: &mut Marks, page: u32, call: Call) -> bool {
    match call {
        Call::Place(frame) => place(rt, marks, page, frame),
        Call::Clear => clear(rt, marks, page),
        Call::Pin => pin(rt, marks, page),
        Call::Unpin => unpin(rt, marks, page),
        Call::Grant(mode) => return grant(rt, marks, page, mode),
        Call::Release(mode) => release(rt, marks, page, mode),
        Call::SetDirty(is_dirty) => set_dirty(rt, marks, page, is_dirty),
        Call::SetStamp(stamp) => set_stamp(rt, marks, page, stamp),
    }
    true
}

// ---- a worked row

/// Three pins on one page, latches of both modes, and a dirty page that a writer has.
#[test]
fn pins_latches_and_a_dirty_page(rt: HostRuntime) -> Result<(), Fail> {
    let mut marks = Marks::new(rt.alloc(), 3, 24)?;
    perform(&rt, &mut marks, 16, Call::Place(0));
    for _ in 0..3 {
        perform(&rt, &mut marks, 16, Call::Pin);
    }
    same(&rt, marks.pins(16), 3);
    same(&rt, marks.least_free(), Some(1));

    for (call, answer) in [
        (Call::Grant(Mode::S), true),
        (Call::Grant(Mode::S), true),
        (Call::Grant(Mode::X), false),
        (Call::Release(Mode::S), true),
        (Call::Release(Mode::S), true),
        (Call::Grant(Mode::X), true),
        (Call::Grant(Mode::S), false),
        (Call::SetDirty(true), true),
    ] {
        same(&rt, perform(&rt, &mut marks, 16, call), answer);
    }
    same(&rt, marks.dirty_from(0), None);
    perform(&rt, &mut marks, 16, Call::Release(Mode::X));
    same(&rt, marks.dirty_from(17), Some(16));
    Ok(())
}

// ---- memory

/// The memory for marks of 4,096 frames and 65,536 pages is there, and they answer at their ends.
#[test]
fn marks_of_a_large_pool_answer(rt: HostRuntime) -> Result<(), Fail> {
    let mut marks = Marks::new(rt.alloc(), 4_096, 65_536)?;
    same(&rt, marks.frames(), 4_096);
    same(&rt, marks.pages(), 65_536);
    for frame in 0..4_096 {
        same(&rt, marks.least_free(), Some(frame));
        perform(&rt, &mut marks, 65_535 - frame * 16, Call::Place(frame));
    }
    same(&rt, marks.least_free(), None);
    same(&rt, marks.dirty_from(0), None);
    perform(&rt, &mut marks, 15, Call::SetDirty(true));
    perform(&rt, &mut marks, 65_535, Call::SetDirty(true));
    for (from, page) in [
        (0, 15),
        (15, 15),
        (16, 65_535),
        (65_535, 65_535),
        (65_536, 15),
    ] {
        same(&rt, marks.dirty_from(from), Some(page));
    }
    perform(&rt, &mut marks, 65_535, Call::Clear);
    same(&rt, marks.least_free(), Some(0));
    same(&rt, marks.dirty_from(16), Some(15));
    Ok(())
}

// ---- a walk

/// The next of the numbers that look like chance.
fn next(seed: u64) -> u64 {
    seed.wrapping_mul(6_364_136_223_846_793_005)
        .wrapping_add(1_442_695_040_888_963_407)
}

/// The call that this number picks.
fn call_of(choice: u64, frame: u32, stamp: u64) -> Call {
    match choice {
        0 | 1 => Call::Place(frame),
        2 => Call::Clear,
        3 | 4 | 5 => Call::Pin,
        6 => Call::Unpin,
        7 | 8 => Call::Grant(Mode::S),
        9 => Call::Grant(Mode::X),
        10 => Call::Release(Mode::S),
        11 => Call::Release(Mode::X),
        12 => Call::SetDirty(true),
        13 => Call::SetDirty(false),
        _ => Call::SetStamp(stamp),
    }
}

/// The marks say of this page what the plain program says.
fn same_page(rt: &impl Abort, marks: &Marks, plain: &PlainMarks, page: u32) {
    let entry = plain.entry(page);
    same(rt, marks.frame_of(page), entry.frame);
    let counts = (page, marks.pins(page), marks.latches(page));
    same(rt, counts, (page, entry.pins, entry.latches()));
    let tests = [
        marks.is_latched(page, Mode::S),
        marks.is_latched(page, Mode::X),
        marks.can_grant(page, Mode::S),
        marks.can_grant(page, Mode::X),
        marks.is_dirty(page),
    ];
    let plainly = [
        entry.readers > 0,
        entry.has_writer,
        !entry.has_writer,
        entry.latches() == 0,
        entry.is_dirty,
    ];
    same(rt, tests, plainly);
    same(rt, marks.stamp(page), entry.stamp);
}

/// They say the same of the whole pool.
fn same_pool(rt: &impl Abort, marks: &Marks, plain: &PlainMarks, from: u32) {
    same(rt, marks.all_pins(), plain.all_pins());
    same(rt, marks.least_free(), plain.least_free());
    same(rt, marks.dirty_from(from), plain.dirty_from(from));
    for frame in 0..5 {
        assert!(rt; frame < marks.frames());
        same(rt, marks.is_free(frame), plain.is_free(frame));
    }
}

/// Some thousands of calls on five frames and two hundred pages, each answer beside a plain program's.
#[test]
fn a_walk_beside_a_plain_program(rt: HostRuntime) -> Result<(), Fail> {
    let mut marks = Marks::new(rt.alloc(), 5, 200)?;
    let mut plain = PlainMarks::new(rt.alloc(), 5, 200)?;
    let mut seed = 1;
    let mut made: u32 = 0;
    for step in 0..6_000u64 {
        seed = next(seed);
        let frame = (seed >> 60) as u32 % 5;
        let other = (seed >> 40) as u32 % 210;
        let page = plain.page_in(frame).unwrap_or(other % 200);
        let call = call_of((seed >> 33) % 15, (seed >> 36) as u32 % 5, step);
        let page = if (seed >> 55) % 8 == 0 {
            other % 200
        } else {
            page
        };
        if let Some(answer) = plain.perform(page, call) {
            same(&rt, perform(&rt, &mut marks, page, call), answer);
            made = made.wrapping_add(1);
        }
        same_page(&rt, &marks, &plain, page);
        same_page(&rt, &marks, &plain, other);
        same_pool(&rt, &marks, &plain, other);
    }
    same(&rt, made > 2_000, true);
    Ok(())
}
