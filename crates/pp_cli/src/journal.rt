//! The file that a run's journal is written to.

ghost use Rattle.std.specs.Prelude.{◌≡◌, ◌<◌, ◌||◌, IfErr, IfOk, IfSome, is_some, length, string_bytes, true};
ghost use Rattle.std.specs.Str.{bytes_eq};
ghost use Rattle.pp_report.specs.AuditingLives.{renewal_line};
ghost use Rattle.pp_report.specs.Reading.{line_in};
ghost use Rattle.pp_judge.specs.Answers.{seen};
ghost use Rattle.pp_cli.specs.Faults.{IsMisusedBy};
ghost use Rattle.pp_cli.specs.Journals.{IsUnopened, begins_as_journal, may_replace, no_journal_line};

use crate::fault::{fault_at, unwritten};
use pp_judge::{Exit, FileFault};
use pp_report::{RENEWAL_LINE, first_line, line_in};
use pp_run_command::write_journal;
use pp_shown::ShownPath;
use std::alloc::{AllocError, Global};
use std::fs::{File, OpenOptions};
use std::io::{ErrorKind, Read, Seek, SeekFrom};
use std::rt::Files;
use std::{fs, io};

/// How many bytes of a file are looked at before it is written over. No line of a journal is as long, so a first line is
/// seen whole.
const FRONT: u64 = 128;

/// The opened file of a journal that is written when the run is over.
#[derive(Drop)]
pub struct JournalFile<'a> {
    path: &'a str,
    file: File,
    /// Whether it is a plain file, which has a length, and not a terminal or a pipe.
    is_plain: bool,
    /// What a plain file begins with.
    front: Vec<u8>,
    /// Whether it was made by opening it.
    is_new: bool,
}

impl<'a> JournalFile<'a> {
    /// Opens the file at the path, which is made where it isn't there. Nothing in it changes. A plain file that has something
    /// other than a journal in it is a mistake in the words.
    pub fn open<R: Files<File = File> + AllocGlobal>(
        rt: &R,
        path: &'a str,
    ) -> Result<JournalFile<'a>, Exit<'a>>
        ensures path { IfOk result (λ journal. journal.path.now ≡ path.entry.now) }
        // A plain file that is to be written over was empty, or began with a line of a journal.
        ensures replaces { IfOk result (λ journal. journal.is_plain ≡ true → may_replace journal.front.items ≡ true) }
        ensures unopened { IfErr result (λ exit. IsUnopened path.entry.now (seen exit)) }
    {
        let is_new = !fs::exists(rt, path).unwrap_or(true);
        match open_for_journal(rt, path) {
            Err(error) => Err(unwritten(path, &error)),
            Ok(
                Opened {
                    file,
                    is_plain,
                    front,
                },
            ) => {
                if is_plain && !may_replace(&front) {
                    return Err(other_file(rt.alloc(), path));
                }
                Ok(JournalFile {
                    path,
                    file,
                    is_plain,
                    front,
                    is_new,
                })
            }
        }
    }

    /// Writes the text to the file in place of all that stood there. Why that failed, where it did; the file may have a part
    /// of the text then.
    ///
    /// # Errors
    ///
    /// Only where the system has no memory for it.
    pub fn keep(&mut self, text: &str) -> Result<Option<FileFault<'a>>, AllocError>
        ensures path { IfOk result (λ unkept. IfSome unkept (λ fault. fault.path.now ≡ self.old.path.now)) }
    {
        let path = self.path;
        match self.write(text) {
            Ok(()) => Ok(None),
            Err(error) if error.kind() == ErrorKind::OutOfMemory => Err(AllocError),
            Err(error) => Ok(Some(fault_at(path, &error))),
        }
    }

    fn write(&mut self, text: &str) -> io::Result<()> {
        if self.is_plain {
            self.file.set_len(0)?;
            self.file.seek(SeekFrom::Start(0))?;
        }
        write_journal(&mut self.file, text)
    }

    /// Removes the file again where opening it has made it, since there is no journal for it.
    pub fn discard<R: Files<File = File>>(self, rt: &R) {
        if self.is_new {
            let _ = fs::remove_file(rt, self.path);
        }
    }
}

/// A file that was opened, and what was found in it.
#[derive(Drop)]
struct Opened {
    file: File,
    is_plain: bool,
    front: Vec<u8>,
}

/// Opens the file at the path for writing, and reads the front of a plain one.
fn open_for_journal<R: Files<File = File> + AllocGlobal>(rt: &R, path: &str) -> io::Result<Opened> {
    if let Ok(found) = fs::metadata(rt, path) {
        if !found.is_file() {
            let file = OpenOptions::new().write(true).open(rt, path)?;
            return Ok(Opened {
                file,
                is_plain: false,
                front: Vec::new(rt.alloc()),
            });
        }
    }
    let mut file = OpenOptions::new()
        .read(true)
        .write(true)
        .create(true)
        .open(rt, path)?;
    let mut front = Vec::new(rt.alloc());
    file.by_ref().take(FRONT).read_to_end(&mut front)?;
    Ok(Opened {
        file,
        is_plain: true,
        front,
    })
}

/// Whether a file with this front may be written over: it is empty, or begins with a line of a journal.
fn may_replace(front: &[u8]) -> bool
    ensures { result ≡ may_replace front.now }
{
    front.is_empty() || begins_as_journal(front)
}

/// Whether the bytes begin with a line of a journal, or with the line between two lives.
fn begins_as_journal(front: &[u8]) -> bool
    requires { 0 < length front.now }
    ensures { result ≡ begins_as_journal front.now }
{
    let (line, _behind) = first_line(front);
    is_line_of_journal(line)
}

/// Whether it is a line of a journal, or the line between two lives.
fn is_line_of_journal(line: &[u8]) -> bool
    ensures { result ≡ (bytes_eq line.now renewal_line || is_some (line_in line.now)) }
{
    line == RENEWAL_LINE.as_bytes() || line_in(line).is_some()
}

/// What it comes to that the file at the path has something other than a journal in it.
fn other_file<'a>(alloc: Global, path: &str) -> Exit<'a>
    ensures { IsMisusedBy (no_journal_line path.now) (seen result) }
{
    match no_journal_line(alloc, path) {
        Ok(text) => Exit::Misused(text),
        Err(AllocError) => Exit::OutOfMemory,
    }
}

/// The line that complains of that.
fn no_journal_line(alloc: Global, path: &str) -> Result<String, AllocError>
    ensures { IfOk result (λ text. string_bytes text ≡ no_journal_line path.now) }
{
    let path = ShownPath(path);
    Ok(format!(in alloc;
        "error: {path} has something other than a journal in it, and stays as it is\n"
    )?)
}
