//! Ends onto one file.

use crate::common::{is_printed, same};
use crate::shared::{
    BLANK, BYTES, CHANGED, ends_of_file, ends_with, fails, holds, path_of, reads, refuses,
    write_file, writes,
};
use pp_device::{Fault, Nobody, format_onto};
use pp_shared::{OpenError, SharedDevice};
use std::fs;
use std::fs::File;
use std::io::{BufWriter, Write};
use std::process::Abort;
use std::rt::Files;
use std::sync::Wait;
use std::test::*;

/// Two pages as nothing was written to them, and the beginning of a third.
const FILE: [u8; 39] = [
    0, 0, 0, 0, 0, 0, 0, 0, 0, 0, 0, 0, 0, 0, 0, 0, 0, 0, 0, 1, 0, 0, 0, 0, 0, 0, 0, 0, 0, 0, 0, 0,
    0, 0, 0, 2, 0, 0, 0,
];

/// The same after [`CHANGED`] was written.
const AFTER: [u8; 39] = [
    0, 0, 0, 0, 0, 0, 0, 0, 0, 0, 0, 0, 0, 0, 0, 0, 0, 0, 0, 1, 0, 0, 0, 0, 0, 0, 0, 6, 21, 22, 23,
    24, 0, 0, 0, 2, 0, 0, 0,
];

/// Two ends of a new file at the path.
fn ends_of<R: Files<File = File> + AllocGlobal + Wait + Abort + Copy + Drop>(
    rt: &R,
    path: &str,
) -> (SharedDevice<R>, SharedDevice<R>) {
    write_file(rt, path, &FILE);
    ends_of_file(rt, path, 2)
}

#[test]
fn ends_of_a_file_see_each_others_writings(rt: HostRuntime) {
    let path = path_of(&rt, rt.process(), "writings");
    let (mut one, mut other) = ends_of(&rt, &path);
    reads(&rt, &mut one, 1, &BLANK);
    writes(&rt, &mut one, 1, &CHANGED, Ok(()));
    reads(&rt, &mut other, 1, &CHANGED);
    reads(&rt, &mut other, 0, &[0; BYTES]);
    ends_with(&rt, &path, &AFTER);
}

#[test]
fn file_refuses_other_pages_and_other_lengths(rt: HostRuntime) {
    let path = path_of(&rt, rt.process(), "refusals");
    let (mut one, mut other) = ends_of(&rt, &path);
    refuses(&rt, &mut one);
    reads(&rt, &mut other, 1, &BLANK);
    ends_with(&rt, &path, &FILE);
}

#[test]
fn pages_that_are_cut_off_are_not_read(rt: HostRuntime) {
    let path = path_of(&rt, rt.process(), "cut");
    let (mut one, mut other) = ends_of(&rt, &path);
    write_file(&rt, &path, &AFTER[..31]);
    reads(&rt, &mut one, 0, &[0; BYTES]);
    fails(&rt, &mut one, 1);
    write_file(&rt, &path, &AFTER[..16]);
    fails(&rt, &mut one, 1);
    write_file(&rt, &path, &AFTER);
    reads(&rt, &mut other, 1, &CHANGED);
    ends_with(&rt, &path, &AFTER);
}

/// No byte of the file is the one that a new device would have there.
const USED: [u8; 39] = [
    1, 2, 3, 4, 5, 6, 7, 8, 9, 10, 11, 12, 13, 14, 15, 16, 17, 18, 19, 20, 21, 22, 23, 24, 25, 26,
    27, 28, 29, 30, 31, 32, 33, 34, 35, 36, 37, 38, 39,
];

/// Opening leaves the bytes as they are, also those behind the last whole page.
#[test]
fn opening_leaves_the_bytes(rt: HostRuntime) {
    let path = path_of(&rt, rt.process(), "opening");
    write_file(&rt, &path, &USED);
    let (mut one, _other) = ends_of_file(&rt, &path, 3);
    holds(&rt, &path, &USED);
    reads(&rt, &mut one, 1, &USED[16..32]);
    ends_with(&rt, &path, &USED);
}

/// Two pages are written into the buffer, which stands until they are compared.
fn formats<R: Files + AllocGlobal + Abort, W: Write>(rt: &R, path: &str, buffer: &mut W) {
    let blank = Vec::from_elem(rt.alloc(), 0, BYTES).expect(rt, "an image");
    format_onto(buffer, blank, 2, &mut Nobody).expect(rt, "the device is written");
    holds(rt, path, &FILE[..32]);
}

/// A device that was written into a buffer is in its file while the buffer still stands.
#[test]
fn what_is_formatted_leaves_the_buffer(rt: HostRuntime) {
    let path = path_of(&rt, rt.process(), "buffer");
    let file = fs::create(&rt, path.as_str()).expect(&rt, "the file is made");
    let mut buffer = BufWriter::new(rt.alloc(), file).expect(&rt, "a buffer");
    formats(&rt, &path, &mut buffer);
    ends_with(&rt, &path, &FILE[..32]);
}

/// No ends are made onto the path, since it can't be opened.
fn is_not_opened<R: Files<File = File> + AllocGlobal + Wait + Abort + Copy + Drop>(
    rt: &R,
    path: &str,
) {
    let error = SharedDevice::over_file(*rt, rt.alloc(), path, BYTES, 2).err();
    same(rt, error, Some(OpenError::Fault(Fault::Read)));
}

#[test]
fn what_is_no_file_is_not_opened(rt: HostRuntime) {
    let path = path_of(&rt, rt.process(), "missing");
    is_not_opened(&rt, &path);
    fs::create_dir(&rt, path.as_str()).expect(&rt, "the folder is made");
    is_not_opened(&rt, &path);
    fs::remove_dir(&rt, path.as_str()).expect(&rt, "the folder is removed");
}

#[test]
fn errors_are_told_to_people(rt: HostRuntime) -> Result<(), Fail> {
    for (error, want) in [
        (OpenError::Fault(Fault::Read), "the page was not read"),
        (OpenError::OutOfMemory, "out of memory"),
    ] {
        is_printed(&rt, rt.alloc(), error, want)?;
    }
    Ok(())
}
