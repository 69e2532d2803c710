//! Ends of memory and of a file that sync.

use crate::record::BYTES;
use pp_device::{Device, image};
use pp_durable::Durable;
use pp_shared::SharedDevice;
use std::process::Abort;
use std::{env, fs};

/// The last two of some ends.
fn two_of<D: Drop>(rt: &impl Abort, ends: Vec<D>) -> (D, D) {
    let mut ends = ends;
    let one = ends.pop().expect(rt, "an end");
    let other = ends.pop().expect(rt, "another end");
    (one, other)
}

/// Page 1 with this stamp.
fn stamped(stamp: u64) -> [u8; 32] {
    let mut bytes = [0; BYTES];
    image::make(&mut bytes, 1, stamp);
    bytes
}

/// One end writes the page and the other syncs, twice.
fn syncs<D: Durable>(rt: &impl Abort, one: &mut D, other: &mut D) {
    for stamp in 1..3 {
        assert_eq!(rt; one.write(1, &stamped(stamp)), Ok(()));
        assert_eq!(rt; other.sync(), Ok(()));
        assert_eq!(rt; one.sync(), Ok(()));
        let mut bytes = [0; BYTES];
        assert_eq!(rt; other.read(1, &mut bytes), Ok(()));
        assert_eq!(rt; bytes, stamped(stamp));
    }
}

#[test]
fn ends_of_memory_sync(rt: HostRuntime) {
    let ends = SharedDevice::over_memory(rt, rt.alloc(), 2, BYTES, 2).expect(&rt, "ends");
    let (mut one, mut other) = two_of(&rt, ends);
    syncs(&rt, &mut one, &mut other);
}

#[test]
fn ends_of_a_file_sync(rt: HostRuntime) {
    let temporary = env::temp_dir(&rt).expect(&rt, "a folder");
    let place = temporary.as_path().display();
    let process = std::process::id(rt.process());
    let path = format!(in rt.alloc(); "{place}/pp_test_durable_{process}").expect(&rt, "a path");
    fs::write(&rt, path.as_str(), [0; 64].as_slice()).expect(&rt, "the file is written");
    let ends = SharedDevice::over_file(rt, rt.alloc(), &path, BYTES, 2).expect(&rt, "ends");
    let (mut one, mut other) = two_of(&rt, ends);
    syncs(&rt, &mut one, &mut other);
    fs::remove_file(&rt, path.as_str()).expect(&rt, "the file is removed");
}
