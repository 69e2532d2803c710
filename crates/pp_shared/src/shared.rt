//! An end of a shared device.

ghost use Rattle.std.specs.Prelude.{◌≡◌, ◌≢◌, ℕ, ◌≤◌, true, false, IfOk, IfErr, replicate};

use crate::error::OpenError;
use crate::file::PageFile;
use crate::memory::Memory;
use crate::store::Store;
use pp_device::image::HEAD;
use pp_device::{Count, Device, Fault};
use pp_durable::{Durable, SyncFault, Syncs};
use std::alloc::{AllocError, Global};
use std::fs::File;
use std::marker::Model;
use std::rt::Files;
use std::sync::{Arc, Wait};

/// One of several ends of pages in memory or in a file.
///
/// Each end counts its own calls. What one end writes, every end reads afterwards. A call of an end in memory may wait
/// for calls of the same page, as long as a copy takes, and takes no other lock. One of an end of a file takes none, but
/// that its syncs wait for one another.
#[derive(Drop)]
pub struct SharedDevice<R: Wait> {
    rt: R,
    store: Arc<Store>,
    calls: Count,
    failures: Count,
    syncs: Syncs,
}

impl<R: Wait> Model for SharedDevice<R> {
    ghost use Rattle.std.specs.Arc.{arc_value};
    ghost use Rattle.pp_shared.specs.End.{End};
    ghost use Rattle.pp_shared.specs.Stores.{is_memory, pages_of, page_bytes_of};

    ghost Value = { End };

    ghost view = { λ d. record {
      in_memory = is_memory (arc_value d.store);
      pages = pages_of (arc_value d.store);
      page_bytes = page_bytes_of (arc_value d.store);
      calls = d.calls.number;
      failures = d.failures.number;
      syncs = d.syncs;
    } };
}

impl<R: Wait> SharedDevice<R> {
    ghost use Rattle.pp_shared.specs.End.{new_end, is_served, counted};
    ghost use Rattle.pp_shared.specs.Stores.{is_memory, pages_of, page_bytes_of};

    /// So many ends of one memory of `pages` pages of `page_bytes` bytes, numbered from 0. Each page has its number in
    /// its head, the stamp 0, and a body of zeros.
    ///
    /// # Errors
    ///
    /// Memory may run out.
    pub fn over_memory(
        rt: R,
        alloc: Global,
        pages: u32,
        page_bytes: usize,
        ends: usize,
    ) -> Result<Vec<SharedDevice<R>>, AllocError>
    where
        R: Copy,
        requires { HEAD ≤ page_bytes }
        ensures ends { IfOk result (λ devices. devices.items ≡ replicate ends (new_end true pages page_bytes)) }
    {
        let memory = Memory::new(alloc, pages, page_bytes)?;
        SharedDevice::ends_of(rt, alloc, Store::Memory(memory), ends)
    }

    /// So many ends of the file, which has the images of its pages one behind the other, each of `page_bytes` bytes. It
    /// has as many pages as stand there in whole now, and a call never makes it longer or shorter.
    ///
    /// These ends have no lock among them: a writing that waits for the medium stops no call of another page. So calls
    /// of one page must not meet. Where a reading meets a writing of its page, it may give a part of that; where two
    /// writings meet, a part of each may stay. In a pool they never meet, since no page has two errands out. Whoever
    /// uses such ends outside a pool has to see to that.
    ///
    /// # Errors
    ///
    /// [`Fault::Read`] where the file can't be opened for reading and writing, or its length can't be told. Memory may
    /// run out.
    pub fn over_file(
        rt: R,
        alloc: Global,
        path: &str,
        page_bytes: usize,
        ends: usize,
    ) -> Result<Vec<SharedDevice<R>>, OpenError>
    where
        R: Copy + Files<File = File>,
        requires { HEAD ≤ page_bytes }
        ensures ends { IfOk result (λ devices. (pages : ℕ) × (devices.items ≡ replicate ends (new_end false pages page_bytes))) }
        ensures fault { IfErr result (λ error. error ≢ OpenError.Fault Fault.Write) }
    {
        let file = PageFile::open(&rt, path, page_bytes)?;
        Ok(SharedDevice::ends_of(rt, alloc, Store::File(file), ends)?)
    }

    /// So many ends of these pages, none of which was called.
    fn ends_of(
        rt: R,
        alloc: Global,
        store: Store,
        ends: usize,
    ) -> Result<Vec<SharedDevice<R>>, AllocError>
    where
        R: Copy,
        ensures { IfOk result (λ devices. devices.items
            ≡ replicate ends (new_end (is_memory store) (pages_of store) (page_bytes_of store))) }
    {
        let store = Arc::new(alloc, store)?;
        let mut devices = Vec::with_capacity(alloc, ends)?;
        for _end in 0..ends {
            devices.push(SharedDevice {
                rt,
                store: Arc::try_clone(&store)?,
                calls: Count::new(),
                failures: Count::new(),
                syncs: Syncs::new(),
            })?;
        }
        Ok(devices)
    }

    /// Whether the device has the page, and a slice of this length is as long as an image.
    fn serves(&self, page: u32, len: usize) -> bool
        ensures { result ≡ is_served self.now page len }
    {
        self.store.serves(page, len)
    }

    /// Counts a call that was answered so.
    fn count(&mut self, answer: Result<(), Fault>)
        ensures { self.new ≡ counted self.old answer }
    {
        self.calls.raise();
        if answer.is_err() {
            self.failures.raise();
        }
    }
}

impl<R: Wait> Device for SharedDevice<R> {
    ghost use Rattle.pp_shared.specs.End.{EndReads, EndWrites};

    ghost calls = { λ d. d.calls };

    ghost failures = { λ d. d.failures };

    ghost read_gives = { EndReads };

    ghost write_leaves = { EndWrites };

    fn read(&mut self, page: u32, image: &mut [u8]) -> Result<(), Fault> {
        let answer = if self.serves(page, image.len()) {
            self.store.read(&self.rt, page, image)
        } else {
            Err(Fault::Read)
        };
        self.count(answer);
        answer
    }

    fn write(&mut self, page: u32, image: &[u8]) -> Result<(), Fault> {
        let answer = if self.serves(page, image.len()) {
            self.store.write(&self.rt, page, image)
        } else {
            Err(Fault::Write)
        };
        self.count(answer);
        answer
    }
}

impl<R: Wait> Durable for SharedDevice<R> {
    ghost use Rattle.pp_shared.specs.End.{EndSyncs, reads-keep, writes-keep};

    ghost syncs = { λ d. d.syncs.asked };

    ghost failed_syncs = { λ d. d.syncs.failed };

    ghost sync_leaves = { EndSyncs };

    // Memory is lost, and of a file the system's word is all there is.
    ghost may_leave = { λ _ _ _. Unit {0} };

    ghost read_keeps = { reads-keep };

    ghost write_keeps = { writes-keep };

    /// Has on the medium all that was written before, by whichever end. Memory is its own medium. Of a file no sync is
    /// tried again once one has failed, whichever end asked for it.
    fn sync(&mut self) -> Result<(), SyncFault> {
        let answer = if self.syncs.has_failed() {
            Err(SyncFault)
        } else {
            self.store.sync(&self.rt)
        };
        self.syncs.count(answer);
        answer
    }
}
