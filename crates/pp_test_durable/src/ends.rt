//! Several ends of one device whose power may fail.

ghost use Rattle.std.specs.Prelude.{IfOk, ◌≡◌, vec_len};

use crate::crashing::Crashing;
use pp_device::{Count, Device, Fault};
use pp_durable::{Durable, SyncFault, Syncs};
use std::alloc::{AllocError, Global};
use std::marker::Model;
use std::sync::{Arc, Mutex, Wait};

/// An end of a device whose power may fail, for a pool's chairs and its flusher.
///
/// What one end writes, every end reads, and a sync of one is for all. Each counts its own calls. A call has the device
/// alone.
#[derive(Drop)]
pub struct CrashingEnd<R: Wait> {
    rt: R,
    device: Arc<Mutex<Crashing>>,
    calls: Count,
    failures: Count,
    syncs: Syncs,
}

impl<R: Wait> Model for CrashingEnd<R> {
    ghost use Rattle.pp_test_durable.specs.Ends.{EndCounts};

    ghost Value = { EndCounts };

    ghost view = { λ e. record { calls = e.calls.number; failures = e.failures.number; syncs = e.syncs } };
}

impl<R: Wait> CrashingEnd<R> {
    ghost use Rattle.pp_test_durable.specs.Ends.{counted};

    /// So many ends of the device.
    ///
    /// # Errors
    ///
    /// Memory may run out.
    pub fn ends_of(
        rt: R,
        alloc: Global,
        device: Crashing,
        ends: usize,
    ) -> Result<Vec<CrashingEnd<R>>, AllocError>
    where
        R: Copy,
        ensures { IfOk result (λ made. vec_len made ≡ ends) }
    {
        let device = Arc::new(alloc, Mutex::new(device))?;
        let mut made = Vec::with_capacity(alloc, ends)?;
        for _end in 0..ends {
            made.push(CrashingEnd {
                rt,
                device: Arc::try_clone(&device)?,
                calls: Count::new(),
                failures: Count::new(),
                syncs: Syncs::new(),
            })?;
        }
        Ok(made)
    }

    /// The device; `None` where it has another end.
    pub fn into_device(self) -> Option<Crashing>
    where
        R: Drop,
    {
        let CrashingEnd { device, .. } = self;
        Some(Arc::into_inner(device)?.into_inner())
    }

    /// Counts a call that was answered so.
    fn count(&mut self, answer: Result<(), Fault>)
        ensures { self.new ≡ counted self.old answer }
    {
        self.calls.raise();
        if answer.is_err() {
            self.failures.raise();
        }
    }
}

impl<R: Wait> Device for CrashingEnd<R> {
    ghost use Rattle.pp_test_durable.specs.Ends.{EndReads, EndWrites};

    ghost calls = { λ e. e.calls };

    ghost failures = { λ e. e.failures };

    ghost read_gives = { EndReads };

    ghost write_leaves = { EndWrites };

    fn read(&mut self, page: u32, image: &mut [u8]) -> Result<(), Fault> {
        let answer = self.device.lock(&self.rt).read(page, image);
        self.count(answer);
        answer
    }

    fn write(&mut self, page: u32, image: &[u8]) -> Result<(), Fault> {
        let answer = self.device.lock(&self.rt).write(page, image);
        self.count(answer);
        answer
    }
}

impl<R: Wait> Durable for CrashingEnd<R> {
    ghost use Rattle.pp_test_durable.specs.Ends.{EndSyncs, reads-keep, writes-keep};

    ghost syncs = { λ e. e.syncs.asked };

    ghost failed_syncs = { λ e. e.syncs.failed };

    ghost sync_leaves = { EndSyncs };

    ghost may_leave = { λ _ _ _. Unit {0} };

    ghost read_keeps = { reads-keep };

    ghost write_keeps = { writes-keep };

    fn sync(&mut self) -> Result<(), SyncFault> {
        let answer = if self.syncs.has_failed() {
            Err(SyncFault)
        } else {
            self.device.lock(&self.rt).sync()
        };
        self.syncs.count(answer);
        answer
    }
}
