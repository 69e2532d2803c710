//! Devices: the bytes of a head, a device in memory, and planted troubles.

use crate::common::same;
use pp_device::{Device, Failing, Fault, SoloDevice, Trouble, image};
use std::process::Abort;
use std::test::Fail;

/// How long the images of these tests are: a head of twelve bytes, and four of a body.
const BYTES: usize = 16;

/// An image of page 1 with stamp 6.
const CHANGED: [u8; 16] = [0, 0, 0, 1, 0, 0, 0, 0, 0, 0, 0, 6, 21, 22, 23, 24];

/// Page 1 as nothing was written to it.
const BLANK: [u8; 16] = [0, 0, 0, 1, 0, 0, 0, 0, 0, 0, 0, 0, 0, 0, 0, 0];

// ---- each call, as one who knows a device by its trait makes it

/// The page is read, and has this image.
fn reads(rt: &impl Abort, device: &mut impl Device, page: u32, want: &[u8]) {
    let mut image = [9; BYTES];
    same(rt, device.read(page, &mut image), Ok(()));
    same(rt, image.as_slice(), want);
}

/// The page is not read, and the slice of so many bytes stays.
fn reads_nothing(
    rt: &impl Abort,
    device: &mut impl Device,
    page: u32,
    slice: &mut [u8; 20],
    len: usize,
) {
    assert!(rt; 12 <= len);
    assert!(rt; len <= 20);
    same(rt, device.read(page, &mut slice[..len]), Err(Fault::Read));
    same(rt, *slice, [9; 20]);
}

fn writes(
    rt: &impl Abort,
    device: &mut impl Device,
    page: u32,
    image: &[u8],
    want: Result<(), Fault>,
) {
    assert!(rt; 12 <= image.len());
    same(rt, device.write(page, image), want);
}

// ---- the tests

#[test]
fn head_stands_at_the_front(rt: HostRuntime) {
    let mut image = [7; 14];
    image::make(&mut image, 16, 2);
    let want = [
        0x00, 0x00, 0x00, 0x10, 0x00, 0x00, 0x00, 0x00, 0x00, 0x00, 0x00, 0x02, 7, 7,
    ];
    same(&rt, image, want);
    same(&rt, image::head(&image), (16, 2));
}

#[test]
fn greatest_numbers_stand_in_a_head(rt: HostRuntime) {
    let mut image = [0; 12];
    image::make(&mut image, u32::MAX, u64::MAX);
    same(&rt, image, [255; 12]);
    same(&rt, image::head(&image), (u32::MAX, u64::MAX));
}

#[test]
fn memory_is_read_as_it_was_written(rt: HostRuntime) -> Result<(), Fail> {
    let mut device = SoloDevice::new(rt.alloc(), 2, BYTES)?;
    reads(&rt, &mut device, 1, &BLANK);
    writes(&rt, &mut device, 1, &CHANGED, Ok(()));
    reads(&rt, &mut device, 1, &CHANGED);
    reads(&rt, &mut device, 0, &[0; BYTES]);
    Ok(())
}

#[test]
fn other_pages_and_other_lengths_are_refused(rt: HostRuntime) -> Result<(), Fail> {
    let mut device = SoloDevice::new(rt.alloc(), 2, BYTES)?;
    let mut slice = [9; 20];
    reads_nothing(&rt, &mut device, 2, &mut slice, BYTES);
    reads_nothing(&rt, &mut device, 1, &mut slice, 15);
    reads_nothing(&rt, &mut device, 1, &mut slice, 17);
    writes(&rt, &mut device, 2, &CHANGED, Err(Fault::Write));
    writes(&rt, &mut device, 1, &CHANGED[..15], Err(Fault::Write));
    writes(&rt, &mut device, 1, &[9; 17], Err(Fault::Write));
    reads(&rt, &mut device, 1, &BLANK);
    Ok(())
}

#[test]
fn device_of_no_pages_has_none(rt: HostRuntime) -> Result<(), Fail> {
    let mut device = SoloDevice::new(rt.alloc(), 0, 12)?;
    reads_nothing(&rt, &mut device, 0, &mut [9; 20], 12);
    writes(&rt, &mut device, 0, &CHANGED[..12], Err(Fault::Write));
    Ok(())
}

#[test]
fn readings_fail_and_lie_where_it_is_planted(rt: HostRuntime) -> Result<(), Fail> {
    let inside = SoloDevice::new(rt.alloc(), 2, BYTES)?;
    let troubles = [
        (2, Trouble::Fail),
        (3, Trouble::Lie(7, 258)),
        (4, Trouble::Lie(7, 1)),
        (4, Trouble::Fail),
    ];
    let mut device = Failing::new(inside, troubles.to_vec(rt.alloc())?);
    reads(&rt, &mut device, 1, &BLANK);
    reads_nothing(&rt, &mut device, 1, &mut [9; 20], BYTES);
    reads(
        &rt,
        &mut device,
        1,
        &[0, 0, 0, 7, 0, 0, 0, 0, 0, 0, 1, 2, 0, 0, 0, 0],
    );
    reads_nothing(&rt, &mut device, 1, &mut [9; 20], BYTES);
    reads(&rt, &mut device, 1, &BLANK);
    Ok(())
}

#[test]
fn writings_fail_where_it_is_planted_and_never_lie(rt: HostRuntime) -> Result<(), Fail> {
    let inside = SoloDevice::new(rt.alloc(), 2, BYTES)?;
    let troubles = [
        (0, Trouble::Fail),
        (1, Trouble::Fail),
        (3, Trouble::Fail),
        (3, Trouble::Lie(7, 1)),
    ];
    let mut device = Failing::new(inside, troubles.to_vec(rt.alloc())?);
    writes(&rt, &mut device, 1, &CHANGED, Err(Fault::Write));
    reads(&rt, &mut device, 1, &BLANK);
    writes(&rt, &mut device, 1, &CHANGED, Ok(()));
    writes(&rt, &mut device, 2, &CHANGED, Err(Fault::Write));
    reads(&rt, &mut device.into_inner(), 1, &CHANGED);
    Ok(())
}
