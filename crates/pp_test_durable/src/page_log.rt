//! A log over pages: a record a page.

ghost use Rattle.std.specs.Prelude.{◌≤◌, IfOk};

use crate::record::{BYTES, Record, number_of};
use pp_durable::{Durable, Log, SyncFault};
use std::sync::{Arc, Mutex, Wait};

/// A log whose record number n stands in page n of its device.
#[derive(Drop)]
pub struct PageLog<D> {
    device: D,
    /// How many records were written.
    written: u32,
    /// How many of these are on the medium.
    synced: u32,
}

impl<D: Durable> PageLog<D> {
    /// A log with no record.
    pub fn new(device: D) -> PageLog<D> {
        PageLog {
            device,
            written: 0,
            synced: 0,
        }
    }

    /// Writes a record, and tells it with its number. `None` where the device fails.
    pub fn append(&mut self, page: u32, value: u64) -> Option<Record> {
        let place = self.written.checked_add(1)?;
        let record = Record {
            number: u64::from(place),
            page,
            value,
        };
        self.device.write(place, &record.to_image(place)).ok()?;
        self.written = place;
        Some(record)
    }

    /// Has the records up to this number on the medium, and tells up to which they are.
    pub fn force(&mut self, number: u64) -> Result<u64, SyncFault>
        ensures { IfOk result (λ upto. number ≤ upto) }
    {
        if u64::from(self.synced) < number {
            if u64::from(self.written) < number {
                return Err(SyncFault);
            }
            self.device.sync()?;
            self.synced = self.written;
        }
        Ok(u64::from(self.synced))
    }

    /// The device.
    pub fn into_device(self) -> D {
        let PageLog { device, .. } = self;
        device
    }
}

/// The record of this number, as it stands in the log's device: where none does, or where the crash tore it, `None`.
pub fn record_at<D: Durable>(device: &mut D, number: u32) -> Option<Record> {
    let mut bytes = [0; BYTES];
    device.read(number, &mut bytes).ok()?;
    let record = Record::of_image(&bytes);
    if record.number == u64::from(number) {
        Some(record)
    } else {
        None
    }
}

/// A handle to a log that is shared.
#[derive(Drop)]
pub struct Handle<R: Wait, D: Drop> {
    rt: R,
    log: Arc<Mutex<PageLog<D>>>,
    /// Up to which number the records are on the medium, as far as this handle knows.
    known: u64,
}

impl<R: Wait, D: Durable + Drop> Handle<R, D> {
    /// A handle that knows of no record.
    pub fn new(rt: R, log: Arc<Mutex<PageLog<D>>>) -> Handle<R, D> {
        Handle { rt, log, known: 0 }
    }
}

impl<R: Wait, D: Durable + Drop> Log for Handle<R, D> {
    ghost use Rattle.pp_test_durable.specs.Numbers.{number_of};

    ghost number_in = { number_of };

    ghost durable = { λ h. h.known };

    ghost force_leaves = { λ h number answer g. h.known ≤ g.known };

    fn number_in(&self, image: &[u8]) -> u64 {
        number_of(image)
    }

    fn force(&mut self, number: u64) -> Result<(), SyncFault> {
        let upto = self.log.lock(&self.rt).force(number)?;
        self.known = self.known.max(upto);
        Ok(())
    }
}
