//! A page that a crash tears, and syncs that fail.

use crate::crashing::Crashing;
use crate::ends::CrashingEnd;
use crate::page_log::{Handle, PageLog};
use crate::record::BYTES;
use pp_device::{Device, Fault, SoloDevice, image};
use pp_durable::{Checksummed, Durable, Log, SUM, SyncFault, WriteAhead, sum_of};
use std::alloc::Global;
use std::process::Abort;
use std::sync::{Arc, Mutex};

/// A page's image, of which all bytes of the body are this one.
fn filled(page: u32, byte: u8) -> [u8; 32] {
    let mut bytes = [byte; BYTES];
    image::make(&mut bytes, page, 7);
    bytes
}

/// The device behind check sums, to which page 1 was written and synced, and then written again.
fn written_twice(rt: &impl Abort, alloc: Global) -> Crashing {
    let device = Crashing::new(alloc, 2, BYTES + SUM, 100).expect(rt, "memory");
    let mut device = over(rt, alloc, device);
    assert_eq!(rt; device.write(1, &filled(1, 0xA0)), Ok(()));
    assert_eq!(rt; device.sync(), Ok(()));
    assert_eq!(rt; device.write(1, &filled(1, 0x0B)), Ok(()));
    device.into_inner()
}

fn over(rt: &impl Abort, alloc: Global, device: Crashing) -> Checksummed<Crashing> {
    match Checksummed::new(alloc, device, BYTES) {
        Ok(device) => device,
        Err(_) => panic!(rt; "memory"),
    }
}

/// After a crash the page is as it was written first or last, or it isn't read, and then the slice stays.
#[test]
fn torn_page_is_not_read(rt: HostRuntime) {
    let alloc = rt.alloc();
    let mut seen = (false, false, false);
    for seed in 0..64 {
        let mut device = over(&rt, alloc, written_twice(&rt, alloc).crash(seed));
        let mut bytes = [9; BYTES];
        match device.read(1, &mut bytes) {
            Ok(()) if bytes == filled(1, 0xA0) => seen.0 = true,
            Ok(()) if bytes == filled(1, 0x0B) => seen.1 = true,
            Ok(()) => panic!(rt; "a torn page was read"),
            Err(fault) => {
                assert_eq!(rt; fault, Fault::Read);
                assert_eq!(rt; bytes, [9; BYTES]);
                seen.2 = true;
            }
        }
    }
    assert_eq!(rt; seen, (true, true, true));
}

/// The bytes on the medium are the page's, and then their sum, its highest byte first.
#[test]
fn sum_stands_behind_the_page(rt: HostRuntime) {
    let alloc = rt.alloc();
    let inside = SoloDevice::new(alloc, 2, BYTES + SUM).expect(&rt, "memory");
    let mut device = match Checksummed::new(alloc, inside, BYTES) {
        Ok(device) => device,
        Err(_) => panic!(rt; "memory"),
    };
    let page = filled(1, 0x5C);
    assert_eq!(rt; device.write(1, &page), Ok(()));
    let mut bytes = [0; 36];
    assert_eq!(rt; device.into_inner().read(1, &mut bytes), Ok(()));
    let mut want = [0; 36];
    want[..BYTES].copy_from_slice(&page);
    want[BYTES..].copy_from_slice(&sum_of(&page).to_be_bytes());
    assert_eq!(rt; bytes, want);
}

/// The sums of vectors that others tell: of nothing, of the nine digits, and of 32 bytes of zeros and of ones.
#[test]
fn sums_are_those_of_others(rt: HostRuntime) {
    assert_eq!(rt; sum_of(&[]), 0);
    assert_eq!(rt; sum_of(b"123456789"), 0xE306_9283);
    assert_eq!(rt; sum_of(&[0; 32]), 0x8A91_36AA);
    assert_eq!(rt; sum_of(&[255; 32]), 0x62A8_AB43);
}

/// Once a sync has failed each further one fails, also when the power is back, and nothing gets to the medium by it.
#[test]
fn failed_sync_is_final(rt: HostRuntime) {
    let mut device = Crashing::new(rt.alloc(), 1, BYTES, 3).expect(&rt, "memory");
    assert_eq!(rt; device.sync(), Ok(()));
    assert_eq!(rt; device.write(0, &filled(0, 1)), Ok(()));
    assert_eq!(rt; device.sync(), Err(SyncFault));
    device.set_power(100);
    assert_eq!(rt; device.sync(), Err(SyncFault));
    assert_eq!(rt; device.write(0, &filled(0, 2)), Ok(()));
    assert_eq!(rt; device.sync(), Err(SyncFault));
}

/// A page isn't written while its record isn't on the medium, and no record is asked for twice.
#[test]
fn page_waits_for_its_record(rt: HostRuntime) {
    let alloc = rt.alloc();
    let log = PageLog::new(Crashing::new(alloc, 4, BYTES, 3).expect(&rt, "memory"));
    let log = Arc::new(alloc, Mutex::new(log)).expect(&rt, "memory");
    let other = Arc::try_clone(&log).expect(&rt, "memory");
    let pages = Crashing::new(alloc, 2, BYTES, 100).expect(&rt, "memory");
    let mut store = WriteAhead::new(pages, Handle::new(rt, other));
    let first = log.lock(&rt).append(1, 5).expect(&rt, "a record");
    assert_eq!(rt; store.write(1, &first.to_image(1)), Ok(()));
    assert_eq!(rt; store.newest(), 1);
    // The log's power fails at its third call.
    let second = log.lock(&rt).append(0, 6);
    assert!(rt; second.is_none());
    assert_eq!(rt; store.write(0, &filled(0, 0)), Ok(()));
    let mut ahead = first;
    ahead.number = 2;
    assert_eq!(rt; store.write(1, &ahead.to_image(1)), Err(Fault::Write));
    assert_eq!(rt; store.newest(), 1);
    let mut bytes = [0; BYTES];
    assert_eq!(rt; store.read(1, &mut bytes), Ok(()));
    assert_eq!(rt; bytes, first.to_image(1));
    assert_eq!(rt; store.log().number_in(&bytes), 1);
}

/// What one end writes, another reads, and what one has synced is kept for all.
#[test]
fn ends_have_one_device(rt: HostRuntime) {
    let alloc = rt.alloc();
    let device = Crashing::new(alloc, 2, BYTES, 100).expect(&rt, "memory");
    let mut ends = CrashingEnd::ends_of(rt, alloc, device, 2).expect(&rt, "ends");
    let mut second = ends.pop().expect(&rt, "an end");
    let mut first = ends.pop().expect(&rt, "an end");
    let mut bytes = [0; BYTES];
    assert_eq!(rt; first.write(1, &filled(1, 3)), Ok(()));
    assert_eq!(rt; second.read(1, &mut bytes), Ok(()));
    assert_eq!(rt; bytes, filled(1, 3));
    assert_eq!(rt; second.sync(), Ok(()));
    assert!(rt; first.into_device().is_none());
    let mut after = second.into_device().expect(&rt, "a device").crash(7);
    assert_eq!(rt; after.read(1, &mut bytes), Ok(()));
    assert_eq!(rt; bytes, filled(1, 3));
}
