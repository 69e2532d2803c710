//! Ends on threads of their own.

use crate::shared::{path_of, two_of, watch, write_file};
use pp_device::{Device, image};
use pp_shared::SharedDevice;
use std::alloc::{AllocError, Global};
use std::process::Abort;
use std::rt::Files;
use std::sync::atomic::{AtomicBool, Ordering};
use std::sync::{Barrier, Wait};
use std::test::*;
use std::thread::Threads;
use std::time::Clock;
use std::{fs, thread};

/// How long the images of a memory are: another thread may come while one is copied.
const BYTES: usize = 4096;

/// How long the images of a file are: the system reads and writes them in many pieces.
const LONG: usize = 1 << 17;

/// How many threads call ends of one file, each at a page of its own, and how often each writes and reads it.
const OWNERS: usize = 4;

const TURNS: u32 = 20;

/// How long the images are, and how often each thread calls its end.
#[derive(Clone, Copy)]
struct Load {
    page_bytes: usize,
    turns: u32,
    /// Whether the second thread writes. Else both read.
    is_writing: bool,
}

/// An image of the page with this stamp, which is also each byte of its body.
fn image_of(alloc: Global, page: u32, page_bytes: usize, stamp: u8) -> Result<Vec<u8>, AllocError> {
    let mut kept = Vec::from_elem(alloc, stamp, page_bytes)?;
    if kept.len() >= image::HEAD {
        image::make(&mut kept, page, u64::from(stamp));
    }
    Ok(kept)
}

/// Writes two images to page 1 by turns. Tells whether every call was done.
fn writes_all(alloc: Global, device: &mut impl Device, load: Load) -> bool {
    let Ok(one) = image_of(alloc, 1, load.page_bytes, 1) else {
        return false;
    };
    let Ok(other) = image_of(alloc, 1, load.page_bytes, 2) else {
        return false;
    };
    for turn in 0..load.turns {
        let kept = if turn % 2 == 0 { &one } else { &other };
        if kept.len() < image::HEAD || device.write(1, kept).is_err() {
            return false;
        }
    }
    true
}

/// The stamp of an image that is whole: it is of this page, and the bytes of its body are that stamp. It looks at one
/// byte of each 512.
fn whole_stamp(kept: &[u8], page: u32) -> Option<u64> {
    if kept.len() < image::HEAD {
        return None;
    }
    let (named, stamp) = image::head(kept);
    let is_whole = named == page
        && kept[image::HEAD..].chunks(512).all(|piece| piece
            .last()
            .is_some_and(|byte| u64::from(*byte) == stamp));
    is_whole.then_some(stamp)
}

/// Reads page 1. Tells whether every call was done and gave a whole image.
fn reads_all(alloc: Global, device: &mut impl Device, load: Load) -> bool {
    let Ok(mut kept) = Vec::from_elem(alloc, 0, load.page_bytes) else {
        return false;
    };
    for _ in 0..load.turns {
        if kept.len() < image::HEAD || device.read(1, &mut kept).is_err() {
            return false;
        }
        if whole_stamp(&kept, 1).is_none() {
            return false;
        }
    }
    true
}

/// Two threads begin at once: one reads at its end, the other reads or writes at its own. Tells whether all was done, and
/// whole.
fn is_done<R: AllocGlobal + Threads + Wait + Sync + Abort, D: Device + Send + Drop>(
    rt: &R,
    ends: Vec<D>,
    load: Load,
) -> bool {
    let alloc = rt.alloc();
    let (mut one, mut other) = two_of(rt, ends);
    let gate = Barrier::new(2);
    let (has_read, is_other_done) = thread::join(
        rt,
        || {
            gate.wait(rt);
            reads_all(alloc, &mut one, load)
        },
        || {
            gate.wait(rt);
            if load.is_writing {
                writes_all(alloc, &mut other, load)
            } else {
                reads_all(alloc, &mut other, load)
            }
        },
    );
    has_read && is_other_done
}

/// All is done, and whole. The test fails where that takes too long.
fn goes_well<R: AllocGlobal + Threads + Wait + Clock + Sync + Abort, D: Device + Send + Drop>(
    rt: &R,
    ends: Vec<D>,
    load: Load,
) {
    let over = AtomicBool::new(false);
    let (_watched, is_well) = thread::join(
        rt,
        || watch(rt, &over),
        || {
            let is_well = is_done(rt, ends, load);
            over.store(true, Ordering::SeqCst);
            is_well
        },
    );
    assert!(rt; is_well);
}

/// The same of ends onto one memory, of which the other writes or reads.
fn goes_well_in_memory<R: AllocGlobal + Threads + Wait + Clock + Send + Sync + Abort + Copy + Drop>(
    rt: &R,
    is_writing: bool,
) {
    let ends = SharedDevice::over_memory(*rt, rt.alloc(), 2, BYTES, 2).expect(rt, "ends");
    let load = Load {
        page_bytes: BYTES,
        turns: 2000,
        is_writing,
    };
    goes_well(rt, ends, load);
}

#[test]
fn readings_on_two_threads_are_all_done(rt: HostRuntime) {
    goes_well_in_memory(&rt, false);
}

#[test]
fn no_reading_of_a_memory_gives_a_part_of_a_writing(rt: HostRuntime) {
    goes_well_in_memory(&rt, true);
}

/// A thread's own end, and the page that no other thread calls.
#[derive(Drop)]
struct Owner<D> {
    end: D,
    page: u32,
    is_well: bool,
}

/// An owner of a page for each end, from page 0 on.
fn owners_of<D: Device + Drop>(rt: &(impl AllocGlobal + Abort), ends: Vec<D>) -> Vec<Owner<D>> {
    let mut owners = Vec::new(rt.alloc());
    let mut page = 0u32;
    for end in ends {
        owners
            .push(Owner {
                end,
                page,
                is_well: true,
            })
            .expect(rt, "memory");
        page = page.saturating_add(1);
    }
    owners
}

impl<D: Device> Owner<D> {
    /// Writes images of stamps 1 and 2 by turns, and reads each back. It is well where every call was done and gave the
    /// image that was written last.
    fn play(&mut self, alloc: Global) {
        for _turn in 0..TURNS {
            self.is_well = self.is_well && self.plays(alloc, 1) && self.plays(alloc, 2);
        }
    }

    /// Writes the image of this stamp, and reads it back.
    fn plays(&mut self, alloc: Global, stamp: u8) -> bool {
        let Ok(mut kept) = image_of(alloc, self.page, LONG, stamp) else {
            return false;
        };
        if kept.len() < image::HEAD || self.end.write(self.page, &kept).is_err() {
            return false;
        }
        kept.fill(0);
        if kept.len() < image::HEAD || self.end.read(self.page, &mut kept).is_err() {
            return false;
        }
        whole_stamp(&kept, self.page) == Some(u64::from(stamp))
    }
}

/// Each owner plays on a thread of its own. The test fails where that takes too long, or one isn't well.
fn all_play<R: AllocGlobal + Threads + Wait + Clock + Sync + Abort, D: Device + Send + Drop>(
    rt: &R,
    owners: &mut [Owner<D>],
) {
    let alloc = rt.alloc();
    let over = AtomicBool::new(false);
    let (_watched, ()) = thread::join(
        rt,
        || watch(rt, &over),
        || {
            thread::for_each_mut(rt, owners, OWNERS, &|_, owner| owner.play(alloc));
            over.store(true, Ordering::SeqCst);
        },
    );
    for owner in owners.iter() {
        assert!(rt; owner.is_well, "page {}", owner.page);
    }
}

/// The file has so many pages and no byte more, and each is whole and of stamp 2.
fn is_left_whole<R: Files + AllocGlobal + Abort>(rt: &R, path: &str) {
    let bytes = fs::read(rt, path).expect(rt, "the file is read");
    assert!(rt; bytes.len() == OWNERS * LONG);
    let mut page = 0u32;
    for kept in bytes.chunks(LONG) {
        assert!(rt;
            whole_stamp(kept, page) == Some(2),
            "page {page} of the file"
        );
        page = page.saturating_add(1);
    }
}

/// Ends of a file have no lock among them: where each thread calls a page of its own, all readings give whole images,
/// and no writing touches another page.
#[test]
fn calls_of_different_pages_of_a_file_leave_each_other_whole(rt: HostRuntime) {
    let path = path_of(&rt, rt.process(), "whole");
    let blank = Vec::from_elem(rt.alloc(), 0, OWNERS * LONG).expect(&rt, "images");
    write_file(&rt, &path, &blank);
    let ends = SharedDevice::over_file(rt, rt.alloc(), &path, LONG, OWNERS).expect(&rt, "ends");
    let mut owners = owners_of(&rt, ends);
    all_play(&rt, &mut owners);
    is_left_whole(&rt, &path);
    fs::remove_file(&rt, path.as_str()).expect(&rt, "the file is removed");
}
