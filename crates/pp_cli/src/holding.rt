//! Opening the file of a device, so that nobody else runs over it meanwhile.

ghost use Rattle.std.specs.Prelude.{◌≡◌, IfErr};
ghost use Rattle.pp_judge.specs.Answers.{seen};
ghost use Rattle.pp_cli.specs.Faults.{IsUnheld, IsUnmade};

use crate::fault::{unread, unwritten};
use pp_judge::Exit;
use std::fs::{File, OpenOptions, TryLockError};
use std::io;
use std::io::ErrorKind;
use std::rt::Files;

/// Opens the file of a device that plans are to be run over, and locks it. Nobody else can lock it until it is closed.
pub fn hold<'a, R: Files<File = File>>(rt: &R, device: &'a str) -> Result<File, Exit<'a>>
    ensures { IfErr result (λ exit. IsUnheld device.entry.now (seen exit)) }
{
    match OpenOptions::new().read(true).write(true).open(rt, device) {
        Ok(file) => locked(file, device),
        Err(error) if is_readable(rt, device, &error) => Err(unwritten(device, &error)),
        Err(error) => Err(unread(device, &error)),
    }
}

/// Opens the file of a device that is to be written anew, locks it, and only then cuts it. It is made where it isn't there.
pub fn hold_anew<'a, R: Files<File = File>>(rt: &R, device: &'a str) -> Result<File, Exit<'a>>
    ensures { IfErr result (λ exit. IsUnmade device.entry.now (seen exit)) }
{
    let opened = OpenOptions::new().write(true).create(true).open(rt, device);
    let file = match opened {
        Ok(file) => locked(file, device)?,
        Err(error) => return Err(unwritten(device, &error)),
    };
    match cut(&file) {
        Ok(()) => Ok(file),
        Err(error) => Err(unwritten(device, &error)),
    }
}

/// Whether a file that can't be opened for reading and writing can be read.
fn is_readable<R: Files<File = File>>(rt: &R, path: &str, error: &io::Error) -> bool {
    error.kind() != ErrorKind::IsADirectory && File::open(rt, path).is_ok()
}

/// The file, once it is locked.
fn locked<'a>(file: File, device: &'a str) -> Result<File, Exit<'a>>
    ensures { IfErr result (λ exit. IsUnmade device.entry.now (seen exit)) }
{
    match file.try_lock() {
        Ok(()) => Ok(file),
        Err(TryLockError::WouldBlock) => Err(Exit::InUse(device)),
        Err(TryLockError::Error(error)) => Err(unwritten(device, &error)),
    }
}

/// Cuts the file to nothing. One that has no length, as a terminal, stays as it is.
pub fn cut(file: &File) -> io::Result<()> {
    if file.metadata()?.is_file() {
        file.set_len(0)?;
    }
    Ok(())
}
