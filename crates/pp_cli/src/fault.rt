//! What a fault of reading or writing comes to, and its cause.

ghost use Rattle.std.specs.Prelude.{◌≡◌, ◌≢◌};
ghost use Rattle.std.specs.IoError.{error_kind};
ghost use Rattle.pp_judge.specs.Answers.{seen};
ghost use Rattle.pp_cli.specs.Faults.{IsUnreadAt, IsUnwrittenAt};

use pp_judge::{Exit, FileFault};
use std::io;
use std::io::ErrorKind;

/// Want of memory where the error is that; else this exit.
pub fn fault<'a>(error: &io::Error, otherwise: Exit<'a>) -> Exit<'a>
    ensures memory { error_kind error.now ≡ ErrorKind.OutOfMemory → result ≡ Exit.OutOfMemory }
    ensures other { error_kind error.now ≢ ErrorKind.OutOfMemory → result ≡ otherwise.entry }
{
    if error.kind() == ErrorKind::OutOfMemory {
        Exit::OutOfMemory
    } else {
        otherwise
    }
}

/// What it comes to that the file at the path can't be read.
pub fn unread<'a>(path: &'a str, error: &io::Error) -> Exit<'a>
    ensures { IsUnreadAt path.entry.now (seen result) }
{
    if error.kind() == ErrorKind::OutOfMemory {
        return Exit::OutOfMemory;
    }
    Exit::Unread(fault_at(path, error))
}

/// What it comes to that the file at the path can't be written.
pub fn unwritten<'a>(path: &'a str, error: &io::Error) -> Exit<'a>
    ensures { IsUnwrittenAt path.entry.now (seen result) }
{
    if error.kind() == ErrorKind::OutOfMemory {
        return Exit::OutOfMemory;
    }
    Exit::Unwritten(fault_at(path, error))
}

/// The fault of the file at the path, with its cause.
pub fn fault_at<'a>(path: &'a str, error: &io::Error) -> FileFault<'a>
    ensures { result.path.now ≡ path.entry.now }
{
    FileFault {
        path,
        cause: cause_of(error),
    }
}

/// Why a file can't be read or written, in the system's words.
fn cause_of(error: &io::Error) -> &'static str {
    match error.kind() {
        ErrorKind::NotFound => "No such file or directory",
        ErrorKind::PermissionDenied => "Permission denied",
        ErrorKind::AlreadyExists => "a file with its name and .part behind it is in the way",
        ErrorKind::NotADirectory => "Not a directory",
        ErrorKind::IsADirectory => "Is a directory",
        ErrorKind::ReadOnlyFilesystem => "Read-only file system",
        ErrorKind::FilesystemLoop => "Too many levels of symbolic links",
        ErrorKind::InvalidInput => "Invalid argument",
        ErrorKind::StorageFull => "No space left on device",
        ErrorKind::QuotaExceeded => "Disk quota exceeded",
        ErrorKind::FileTooLarge => "File too large",
        ErrorKind::ResourceBusy => "Device or resource busy",
        ErrorKind::ExecutableFileBusy => "Text file busy",
        ErrorKind::InvalidFilename => "File name too long",
        ErrorKind::BrokenPipe => "Broken pipe",
        _ => "Input/output error",
    }
}
