//! The redo log. A record has the whole images of the pages that one plan has changed, a block each.

ghost use Rattle.std.specs.Prelude.{◌≤◌, IfOk};

use crate::image::{BODY, CHECKPOINT, block_of, number_of, stamp};
use pp_btree::regions::CHAIRS;
use pp_device::Device;
use pp_durable::{Checksummed, Durable, Log, SyncFault};
use pp_test_durable::Crashing;
use std::sync::{Arc, Mutex, Wait};

/// The log's device, or the pages'.
pub type Medium = Checksummed<Crashing>;

/// A log whose blocks stand in the pages of its device, one behind the other.
#[derive(Drop)]
pub struct RedoLog {
    device: Medium,
    /// How many blocks were written.
    blocks: u32,
    /// How many records were written, and how many of these are on the medium.
    written: u64,
    synced: u64,
    /// Whether a block couldn't be written. No record is written after that.
    is_broken: bool,
    /// The first record of the plan that each thread runs now; 0 of none.
    running: [u64; CHAIRS],
}

impl RedoLog {
    /// A log with no record.
    pub fn new(device: Medium) -> RedoLog {
        RedoLog {
            device,
            blocks: 0,
            written: 0,
            synced: 0,
            is_broken: false,
            running: [0; CHAIRS],
        }
    }

    /// The number of the next record.
    pub fn next(&self) -> u64 {
        self.written.saturating_add(1)
    }

    /// Writes a part, of so many, of the next record.
    pub fn write_part(&mut self, part: u32, parts: u32, page: u32, body: &[u8]) {
        if !self.is_broken {
            let block = block_of(part, parts, page, body);
            self.is_broken = self.device.write(self.blocks, &block).is_err();
            self.blocks = self.blocks.saturating_add(1);
        }
    }

    /// All parts of the next record were written, by a plan of this thread.
    pub fn end_record(&mut self, thread: usize) {
        let number = self.next();
        if !self.is_broken {
            self.written = number;
        }
        if let Some(first) = self.running.get_mut(thread) {
            if *first == 0 {
                *first = number;
            }
        }
    }

    /// The plan of this thread holds no page any more.
    pub fn end_plan(&mut self, thread: usize) {
        if let Some(first) = self.running.get_mut(thread) {
            *first = 0;
        }
    }

    /// The first record whose pages may not count as changed: the oldest of the plans that run now, or the next one.
    pub fn oldest(&self) -> u64 {
        let mut oldest = self.next();
        for first in self.running.iter() {
            if *first != 0 {
                oldest = oldest.min(*first);
            }
        }
        oldest
    }

    /// Writes the record of a checkpoint, before which recovery needs none but from this one on, and has it on the medium.
    pub fn note_checkpoint(&mut self, from: u64) -> Result<(), SyncFault> {
        let mut body = [0; BODY];
        body[..8].copy_from_slice(&from.to_be_bytes());
        let number = self.next();
        stamp(&mut body, number);
        self.write_part(0, 1, CHECKPOINT, &body);
        self.end_record(CHAIRS);
        self.force(number)?;
        Ok(())
    }

    /// Has the records up to this number on the medium, and tells up to which they are.
    pub fn force(&mut self, number: u64) -> Result<u64, SyncFault>
        ensures { IfOk result (λ upto. number ≤ upto) }
    {
        if self.synced < number {
            if self.written < number {
                return Err(SyncFault);
            }
            self.device.sync()?;
            self.synced = self.written;
        }
        Ok(self.synced)
    }

    /// The device.
    pub fn into_device(self) -> Medium {
        let RedoLog { device, .. } = self;
        device
    }
}

/// A handle to the log, for one end of the pages' device.
#[derive(Drop)]
pub struct Handle<R: Wait> {
    rt: R,
    log: Arc<Mutex<RedoLog>>,
    /// Up to which number the records are on the medium, as far as this handle knows.
    known: u64,
}

impl<R: Wait> Handle<R> {
    /// A handle that knows of no record.
    pub fn new(rt: R, log: Arc<Mutex<RedoLog>>) -> Handle<R> {
        Handle { rt, log, known: 0 }
    }
}

impl<R: Wait> Log for Handle<R> {
    ghost use Rattle.pp_test_crash.specs.Numbers.{number_of};

    ghost number_in = { number_of };

    ghost durable = { λ h. h.known };

    ghost force_leaves = { λ h number answer g. h.known ≤ g.known };

    fn number_in(&self, image: &[u8]) -> u64 {
        number_of(image)
    }

    fn force(&mut self, number: u64) -> Result<(), SyncFault> {
        let upto = self.log.lock(&self.rt).force(number)?;
        self.known = self.known.max(upto);
        Ok(())
    }
}
