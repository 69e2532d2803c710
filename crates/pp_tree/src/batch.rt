//! A pool that runs plans in batches, each plan with its work.

use pp_cert::Accepted;
use pp_device::Device;
use pp_pool::Work;
use pp_run::{Pool, Query};
use pp_settings::Settings;
use std::alloc::Global;
use std::sync::Wait;
use std::thread::Threads;

/// A pool between two batches, with its devices. It is closed where it is let go.
pub struct Stand<D: Drop> {
    pool: Pool,
    devices: Vec<D>,
}

impl<D: Drop> Drop for Stand<D> {
    fn drop(self) {
        let Stand {
            pool,
            devices: _devices,
        } = self;
        pool.close();
    }
}

impl<D: Drop> Stand<D> {
    /// A new pool over these ends of a device: one for each worker, and one for the flusher.
    ///
    /// # Errors
    ///
    /// Where the settings are of endless lives, which a run doesn't serve, and where memory runs out.
    pub fn open(alloc: Global, settings: &Settings, devices: Vec<D>) -> anyhow::Result<Stand<D>> {
        settings.see_bounded()?;
        Ok(Stand {
            pool: Pool::open(alloc, settings)?,
            devices,
        })
    }
}

impl<D: Device + Drop + Send> Stand<D> {
    /// Runs these plans, each with its work. The works come back in the order of the plans.
    ///
    /// # Errors
    ///
    /// Where there is no end for each worker and the flusher, and where the run fails or isn't begun. The pool is closed
    /// then, and the plans and works are gone.
    pub fn run<W: Work + Drop + Send, R: Threads + Wait + Sync>(
        self,
        rt: &R,
        alloc: Global,
        asked: Vec<(Accepted, W)>,
    ) -> anyhow::Result<(Stand<D>, Vec<Query<W>>)> {
        if self.devices.len() != self.pool.workers() as usize + 1 {
            anyhow::bail!("there is no end for each worker and the flusher");
        }
        let Stand { pool, devices } = self;
        match pool.run_queries(rt, alloc, asked, devices) {
            Ok((_record, pool, devices, queries)) => Ok((Stand { pool, devices }, queries)),
            Err((error, left)) => {
                left.close();
                Err(anyhow::Error::from(error))
            }
        }
    }
}
