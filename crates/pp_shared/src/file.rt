//! Pages in a file.

ghost use Rattle.std.specs.Prelude.{◌≡◌, ◌*◌, ◌/◌, ◌^◌, ◌<◌, ◌≤◌, IfOk, IfErr, length};

use pp_device::Fault;
use pp_device::image::HEAD;
use pp_durable::SyncFault;
use std::fs::{File, OpenOptions};
use std::io;
use std::io::{Seek, SeekFrom};
use std::os::unix::fs::FileExt;
use std::rt::Files;
use std::sync::{Mutex, Wait};

/// The pages of a file: the images one behind the other, that of page p at byte p times the bytes of a page.
///
/// It has the pages that the file had in whole when it was opened, and never makes the file longer.
///
/// A call names the place where it reads or writes, and there is no lock: calls of several threads go to the system at
/// once. So calls of one page must not meet. Where a reading meets a writing of its page, it may give a part of that;
/// where two writings meet, a part of each may stay.
///
/// Syncs alone wait for one another, so that all learn of the first that failed: the system may tell of an error once.
#[derive(Drop)]
pub struct PageFile {
    pages: u64,
    page_bytes: usize,
    file: File,
    /// Whether a sync failed, and with it what was written before.
    is_lost: Mutex<bool>,
    ghost in_reach: { pages * page_bytes < 2 ^ 64 },
}

/// Opens the file for reading and writing, and tells how many bytes it has.
fn opened<R: Files<File = File>>(rt: &R, path: &str) -> io::Result<(File, u64)> {
    let mut file = OpenOptions::new().read(true).write(true).open(rt, path)?;
    let bytes = file.seek(SeekFrom::End(0))?;
    Ok((file, bytes))
}

impl PageFile {
    /// The pages of the file.
    ///
    /// # Errors
    ///
    /// [`Fault::Read`] where the file can't be opened for reading and writing, or its length can't be told.
    pub fn open<R: Files<File = File>>(
        rt: &R,
        path: &str,
        page_bytes: usize,
    ) -> Result<PageFile, Fault>
        requires { HEAD ≤ page_bytes }
        ensures page_bytes { IfOk result (λ file. file.page_bytes ≡ page_bytes) }
        ensures fault { IfErr result (λ fault. fault ≡ Fault.Read) }
    {
        match opened(rt, path) {
            Ok((file, bytes)) => Ok(PageFile::of(file, bytes, page_bytes)),
            Err(_) => Err(Fault::Read),
        }
    }

    /// The pages of a file of so many bytes: those that it has in whole.
    fn of(file: File, bytes: u64, page_bytes: usize) -> PageFile
        requires { HEAD ≤ page_bytes }
        ensures pages { result.pages ≡ bytes / page_bytes }
        ensures page_bytes { result.page_bytes ≡ page_bytes }
    {
        PageFile {
            pages: bytes / page_bytes as u64,
            page_bytes,
            file,
            is_lost: Mutex::new(false),
        }
    }

    /// How many pages there are.
    pub fn pages(&self) -> u64
        ensures { result ≡ self.now.pages }
    {
        self.pages
    }

    /// How many bytes an image has.
    pub fn page_bytes(&self) -> usize
        ensures { result ≡ self.now.page_bytes }
    {
        self.page_bytes
    }

    /// The place in the file where the image of the page begins.
    fn place(&self, page: u32) -> u64
        requires { page < self.now.pages }
        ensures { result ≡ page * self.now.page_bytes }
    {
        u64::from(page) * self.page_bytes as u64
    }

    /// Reads the image of the page into the slice, which is as long as an image.
    ///
    /// # Errors
    ///
    /// [`Fault::Read`] where the file doesn't give all of its bytes. The slice may hold some of them then.
    pub fn read(&self, page: u32, image: &mut [u8]) -> Result<(), Fault>
        requires { page < self.now.pages }
        ensures length { length image.new ≡ length image.old }
        ensures fault { IfErr result (λ fault. fault ≡ Fault.Read) }
    {
        self.file
            .read_exact_at(image, self.place(page))
            .map_err(|_| Fault::Read)
    }

    /// Writes the slice, which is as long as an image, as the image of the page.
    ///
    /// # Errors
    ///
    /// [`Fault::Write`] where the file doesn't take all of its bytes. It may hold some of them then.
    pub fn write(&self, page: u32, image: &[u8]) -> Result<(), Fault>
        requires { page < self.now.pages }
        ensures { IfErr result (λ fault. fault ≡ Fault.Write) }
    {
        self.file
            .write_all_at(image, self.place(page))
            .map_err(|_| Fault::Write)
    }

    /// Has on the medium all that was written before. The file's length never changes, so its bytes are enough.
    ///
    /// # Errors
    ///
    /// [`SyncFault`] where the system doesn't say that they are there, or didn't at an earlier call. Then it isn't asked
    /// again, whichever end asks.
    pub fn sync<R: Wait>(&self, rt: &R) -> Result<(), SyncFault> {
        let mut is_lost = self.is_lost.lock(rt);
        if *is_lost {
            return Err(SyncFault);
        }
        match self.file.sync_data() {
            Ok(()) => Ok(()),
            Err(_) => {
                *is_lost = true;
                Err(SyncFault)
            }
        }
    }
}
