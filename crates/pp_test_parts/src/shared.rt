//! What the tests of shared devices have in common: images, calls as one makes them who knows a device by its trait, and files of a
//! test's own.

use crate::common::same;
use pp_device::{Device, Fault};
use pp_shared::SharedDevice;
use std::env::Env;
use std::fs::File;
use std::process::{Abort, Process};
use std::rt::Files;
use std::sync::Wait;
use std::sync::atomic::{AtomicBool, Ordering};
use std::time::{Clock, Duration};
use std::{env, fs, thread};

/// How long the images of these tests are: a head of twelve bytes, and four of a body.
pub const BYTES: usize = 16;

/// An image of page 1 with stamp 6.
pub const CHANGED: [u8; BYTES] = [0, 0, 0, 1, 0, 0, 0, 0, 0, 0, 0, 6, 21, 22, 23, 24];

/// Page 1 as nothing was written to it.
pub const BLANK: [u8; BYTES] = [0, 0, 0, 1, 0, 0, 0, 0, 0, 0, 0, 0, 0, 0, 0, 0];

// ---- each call

/// The page is read, and has this image.
pub fn reads(rt: &impl Abort, device: &mut impl Device, page: u32, want: &[u8]) {
    let mut image = [9; BYTES];
    let answer = device.read(page, &mut image);
    same(rt, (answer, image.as_slice()), (Ok(()), want));
}

/// The page is not read.
pub fn fails(rt: &impl Abort, device: &mut impl Device, page: u32) {
    let mut image = [9; BYTES];
    same(rt, device.read(page, &mut image), Err(Fault::Read));
}

/// The page is not read, and the slice of so many bytes stays.
pub fn reads_nothing(rt: &impl Abort, device: &mut impl Device, page: u32, len: usize) {
    let mut slice = [9; 20];
    if 12 <= len && len <= 20 {
        let answer = device.read(page, &mut slice[..len]);
        same(rt, (answer, slice), (Err(Fault::Read), [9; 20]));
    } else {
        panic!(rt; "no slice has {len} bytes");
    }
}

pub fn writes(
    rt: &impl Abort,
    device: &mut impl Device,
    page: u32,
    image: &[u8],
    want: Result<(), Fault>,
) {
    assert!(rt; 12 <= image.len());
    same(rt, device.write(page, image), want);
}

/// Calls that no device of two pages of [`BYTES`] bytes serves: each fails and changes nothing.
pub fn refuses(rt: &impl Abort, device: &mut impl Device) {
    for (page, len) in [(2, BYTES), (u32::MAX, BYTES), (1, 15), (1, 17)] {
        reads_nothing(rt, device, page, len);
    }
    for (page, image) in [
        (2, CHANGED.as_slice()),
        (u32::MAX, CHANGED.as_slice()),
        (1, &CHANGED[..15]),
        (1, [9; 17].as_slice()),
    ] {
        writes(rt, device, page, image, Err(Fault::Write));
    }
}

// ---- ends and files

/// The last two of some ends.
pub fn two_of<D: Drop>(rt: &impl Abort, ends: Vec<D>) -> (D, D) {
    let mut ends = ends;
    let one = ends.pop().expect(rt, "an end");
    let other = ends.pop().expect(rt, "another end");
    (one, other)
}

/// The path of a file of the test with this name.
pub fn path_of<R: Env + AllocGlobal + Abort>(rt: &R, process: Process, test: &str) -> String {
    let temporary = env::temp_dir(rt).expect(rt, "a folder");
    let place = temporary.as_path().display();
    let process = std::process::id(process);
    format!(in rt.alloc(); "{place}/pp_shared_{test}_{process}").expect(rt, "a path")
}

/// The file has these bytes from now on.
pub fn write_file<R: Files + AllocGlobal + Abort>(rt: &R, path: &str, bytes: &[u8]) {
    fs::write(rt, path, bytes).expect(rt, "the file is written");
}

/// The file has exactly these bytes.
pub fn holds<R: Files + AllocGlobal + Abort>(rt: &R, path: &str, want: &[u8]) {
    let bytes = fs::read(rt, path).expect(rt, "the file is read");
    same(rt, bytes.as_slice(), want);
}

/// The file has exactly these bytes, and is then removed.
pub fn ends_with<R: Files + AllocGlobal + Abort>(rt: &R, path: &str, want: &[u8]) {
    holds(rt, path, want);
    fs::remove_file(rt, path).expect(rt, "the file is removed");
}

/// Two ends onto memory of two pages of [`BYTES`] bytes, the last ones of so many.
pub fn ends_of_memory<R: AllocGlobal + Wait + Abort + Copy + Drop>(
    rt: &R,
    ends: usize,
) -> (SharedDevice<R>, SharedDevice<R>) {
    let made = SharedDevice::over_memory(*rt, rt.alloc(), 2, BYTES, ends).expect(rt, "ends");
    same(rt, made.len(), ends);
    two_of(rt, made)
}

/// So many ends onto the file, which has pages of [`BYTES`] bytes: the last two.
pub fn ends_of_file<R: Files<File = File> + AllocGlobal + Wait + Abort + Copy + Drop>(
    rt: &R,
    path: &str,
    ends: usize,
) -> (SharedDevice<R>, SharedDevice<R>) {
    let made = SharedDevice::over_file(*rt, rt.alloc(), path, BYTES, ends).expect(rt, "ends");
    two_of(rt, made)
}

// ---- patience

/// How many hundredths of a second threads may take: two thirds of the minute that a test has, so that a hang is told as
/// one.
const PATIENCE: u32 = 4_000;

/// Waits until it is over. The test fails where that takes too long.
pub fn watch<R: Abort + Clock>(rt: &R, over: &AtomicBool) {
    for _moment in 0..PATIENCE {
        if over.load(Ordering::SeqCst) {
            return;
        }
        let _slept = thread::sleep(rt, Duration::from_millis(10));
    }
    panic!(rt; "the threads hang");
}
