//! The calls that make the ends of a device.

use crate::answer::Answer;
use crate::printing::twice;
use crate::tried::Tried;
use pp_device::Device;
use pp_shared::SharedDevice;
use std::fs;
use std::fs::File;
use std::rt::Files;
use std::sync::Wait;

/// Does the case of this call.
pub fn case<R: Files<File = File> + AllocGlobal + Print + Wait + Copy + Drop>(
    rt: &R,
    call: &str,
) -> anyhow::Result<()> {
    match call {
        "SharedDevice::over_memory" => twice(rt, &mut OverMemory { rt: *rt }),
        "SharedDevice::over_file" => {
            fs::write(rt, "device", [0; 128].as_slice())?;
            twice(rt, &mut OverFile { rt: *rt })
        }
        _ => anyhow::bail!("there is no such call"),
    }
}

/// How many ends there are, and what the last one reads of page 1.
fn told<R: Wait + Drop>(ends: Vec<SharedDevice<R>>) -> Answer {
    let (count, mut ends) = (ends.len(), ends);
    let mut image = [1; 64];
    let read = match ends.last_mut() {
        Some(end) => end.read(1, &mut image),
        None => Ok(()),
    };
    Answer::Three(
        "ends",
        count as u64,
        "read",
        u64::from(read.is_ok()),
        "page",
        u64::from(image[3]),
    )
}

/// Ends onto a device in memory.
#[derive(Drop)]
struct OverMemory<R> {
    rt: R,
}

impl<R: Files<File = File> + AllocGlobal + Wait + Copy + Drop> Tried for OverMemory<R> {
    type Told = Answer;

    fn call(&mut self) -> Answer {
        match SharedDevice::over_memory(self.rt, self.rt.alloc(), 24, 64, 3) {
            Ok(ends) => told(ends),
            Err(error) => Answer::Lacking(error),
        }
    }
}

/// Ends onto a file.
#[derive(Drop)]
struct OverFile<R> {
    rt: R,
}

impl<R: Files<File = File> + AllocGlobal + Wait + Copy + Drop> Tried for OverFile<R> {
    type Told = Answer;

    fn call(&mut self) -> Answer {
        match SharedDevice::over_file(self.rt, self.rt.alloc(), "device", 64, 3) {
            Ok(ends) => told(ends),
            Err(error) => Answer::Failed(anyhow::Error::from(error)),
        }
    }
}
